//! Assertions about debug output and error messages.

use std::alloc::{AllocError, Global};
use std::error::Error;
use std::fmt::Debug;
use std::process::Abort;

/// Asserts that the debug output of `shown` is `want`.
pub fn is_shown<T: Debug>(rt: &impl Abort, alloc: Global, shown: &T, want: &str) {
    let text = granted!(rt; format!(in alloc; "{shown:?}"));
    assert!(*rt; text.as_str() == want, "{text} is not {want}");
}

fn passed_on<E: Error>(fault: E) -> anyhow::Result<()> {
    Err(fault)?;
    Ok(())
}

/// Asserts that the debug output of `fault` is `shown`, and its message after `?` is `message`.
pub fn is_told<E: Error>(rt: &impl Abort, alloc: Global, fault: E, message: &str, shown: &str) {
    is_shown(rt, alloc, &fault, shown);
    let error = passed_on(fault).err().expect(rt, message);
    let found = granted!(rt; format!(in alloc; "{error}"));
    assert!(*rt; found.as_str() == message, "{found} is not {message}");
}
