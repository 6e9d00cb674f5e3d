//! A canonical key for values: the keys of two values are equal exactly if the values are equal.
ghost use Rattle.std.specs.Prelude.{◌≡◌, ◌↔◌, IfOk, IsTrue};
ghost use Rattle.std.specs.String.{string_bytes};
ghost use Rattle.ijson_extra.specs.Canonical.{canonical};
ghost use Rattle.ijson_value.specs.Same.{Same};
ghost use Rattle.ijson_value.specs.WellFormed.{WellFormed};

use super::parsed;
use crate::canonical::canonical_json;
use crate::value::IValue;
use std::alloc::{AllocError, Global};
use std::process::Abort;

/// The canonical text of a value, which is the same for all values equal to it.
#[derive(Drop, PartialEq, Eq)]
struct CanonicalKey {
    text: String,
}

/// Returns the canonical key of a value.
fn key_of(alloc: Global, value: &IValue) -> Result<CanonicalKey, AllocError>
    ensures text { IfOk result (λ key. string_bytes key.text ≡ canonical value.now.tree) }
    ensures equal { IfOk result (λ key. (other : WellFormed)
        → (string_bytes key.text ≡ canonical other.tree) ↔ Same value.now.tree other.tree) }
{
    let text = canonical_json(alloc, value)?;
    Ok(CanonicalKey { text })
}

/// Returns `true` if `a` and `b` have the same canonical key, which holds exactly if they are
/// equal.
fn same_key(alloc: Global, a: &IValue, b: &IValue) -> Result<bool, AllocError>
    ensures { IfOk result (λ same. IsTrue same ↔ Same a.now.tree b.now.tree) }
{
    let key = key_of(alloc, a)?;
    let other = key_of(alloc, b)?;
    Ok(key == other)
}

/// Two JSON texts, and whether their values are equal.
static PAIRS: [(&str, &str, bool); 5] = [
    (
        "{\"b\":2.0,\"a\":[10,0.0]}",
        "{\"a\":[1e1,-0],\"b\":2}",
        true,
    ),
    ("[1,2]", "[2,1]", false),
    ("{\"a\":1}", "{\"a\":1,\"b\":null}", false),
    ("\"1\"", "1", false),
    ("1e400", "10e399", true),
];

/// Asserts that the values of `a` and `b` have the same key exactly if `want` is `true`.
fn have_one_key(rt: &impl Abort, alloc: Global, a: &str, b: &str, want: bool) {
    let a = parsed(rt, alloc, a);
    let b = parsed(rt, alloc, b);
    assert!(rt; same_key(alloc, &a, &b).expect(rt, "the keys") == want);
    drop(a);
    drop(b);
}

#[test]
fn keys_tell_values_apart(rt: HostRuntime) {
    for &(a, b, same) in &PAIRS {
        have_one_key(&rt, rt.alloc(), a, b, same);
    }
}
