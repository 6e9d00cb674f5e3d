//! Tests of error messages, and of the debug output of each type.

use super::Step::*;
use super::*;
use std::fmt::Display;

/// Asserts that `want` is the message of `error`, followed by `|` and its debug output.
fn tells<T: Debug + Display>(rt: &impl Host, error: &T, want: &str) {
    let told = granted!(rt; format!(in rt.alloc(); "{error}|{error:?}"));
    assert!(*rt; told.as_str() == want, "{told}");
    drop(told);
}

/// Reasons, each with its messages and the messages of an entry that is returned for this reason.
static REASONS: [(ReserveError, &str, &str); 2] = [
    (
        ReserveError::Memory,
        "out of memory|Memory",
        "no capacity for the entry: out of memory|RefusedPair { key: \"a\", value: 1, why: Memory }",
    ),
    (
        ReserveError::TooLarge,
        "the capacity would exceed 2^56|TooLarge",
        "no capacity for the entry: the capacity would exceed 2^56|RefusedPair { key: \"a\", value: 1, why: TooLarge }",
    ),
];

#[test]
fn errors_tell_the_reason(rt: HostRuntime) {
    for (why, told, told_of_pair) in &REASONS {
        tells(&rt, why, told);
        let (key, why) = (key(&rt, rt.alloc(), "a"), *why);
        let refused: RefusedPair<u64> = RefusedPair { key, value: 1, why };
        tells(&rt, &refused, told_of_pair);
        drop(refused);
    }
    let back = Reply::Refused(key(&rt, rt.alloc(), "a"), 1u64, ReserveError::Memory);
    is_shown(&rt, rt.alloc(), &back, "Refused(\"a\", 1, Memory)");
    drop(back);
}

/// Steps within the initial capacity, each with the debug output of its command and its reply.
static RUN: [(Step, &str, &str); 9] = [
    (Put("a", 1), "Insert(\"a\", 1)", "Added"),
    (Put("a", 2), "Insert(\"a\", 2)", "Replaced(1)"),
    (Find("a"), "Find(\"a\")", "Found(Some(0))"),
    (Find("b"), "Find(\"b\")", "Found(None)"),
    (Remove("a"), "Remove(\"a\")", "Removed(Some((\"a\", 2)))"),
    (ShiftRemove("a"), "ShiftRemove(\"a\")", "Removed(None)"),
    (Reserve(3), "Reserve(3)", "Done"),
    (Clear, "Clear", "Done"),
    (Shrink, "ShrinkToFit", "Done"),
];

/// Returns the commands of `RUN`, and asserts their debug output.
fn commands(rt: &impl Host) -> Vec<Command<u64>> {
    let mut commands = granted!(rt; Vec::with_capacity(rt.alloc(), RUN.len()));
    for (step, want, _) in &RUN {
        let command = command(rt, *step);
        is_shown(rt, rt.alloc(), &command, want);
        commands.push(command).expect(rt, "room");
    }
    commands
}

/// Asserts the reply of a store to each command of `RUN`.
fn replies_to_run<S: Store>(rt: &impl Host) {
    let mut store: S = roomy(rt, 4);
    let replies = granted!(rt; run(rt.alloc(), &mut store, commands(rt)));
    assert!(*rt; replies.len() == RUN.len() && store.capacity() == 0);
    drop(store);
    for (reply, (_, _, want)) in replies.iter().zip(&RUN) {
        is_shown(rt, rt.alloc(), reply, want);
    }
    drop(replies);
}

#[test]
fn a_run_replies_to_each_command(rt: HostRuntime) {
    each_store!(replies_to_run(&rt));
}

const LINES: &str = r#"{
    "c": 0,
    "a \"long\" key\n": 1,
    "": 2,
    "b": 3,
}"#;

/// Asserts the debug output of a store, in one line and with a line for each entry. The keys are
/// not sorted; the second key is boxed and has characters that are escaped.
fn is_shown_so<S: Store>(rt: &impl Host) {
    let mut store = S::new(rt.alloc());
    is_shown(rt, rt.alloc(), &store, "{}");
    for (value, letters) in (0..).zip(["c", "a \"long\" key\n", "", "b"]) {
        replies(rt, &mut store, Put(letters, value), Way::Run, "Added");
    }
    let want = r#"{"c": 0, "a \"long\" key\n": 1, "": 2, "b": 3}"#;
    is_shown(rt, rt.alloc(), &store, want);
    let lines = granted!(rt; format!(in rt.alloc(); "{store:#?}"));
    assert!(*rt; lines.as_str() == LINES);
    drop(lines);
    drop(store);
}

#[test]
fn stores_and_inspections_are_shown(rt: HostRuntime) {
    is_shown(&rt, rt.alloc(), &FixedHash, "FixedHash");
    is_shown(&rt, rt.alloc(), &Seen::Empty, "Empty");
    let (at, distance, same) = (1, 2, true);
    let resident = Seen::Resident { at, distance, same };
    let want = "Resident { at: 1, distance: 2, same: true }";
    is_shown(&rt, rt.alloc(), &resident, want);
    each_store!(is_shown_so(&rt));
}
