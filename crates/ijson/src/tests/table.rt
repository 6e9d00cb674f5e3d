//! Tests of stores: scripts of commands, the slots of tables, sizes, and numbers of inspections.

/// Calls a function for each kind of store.
macro_rules! each_store {
    ($function:ident($($argument:expr),*)) => {{
        $function::<LinearPairs<u64>>($($argument),*);
        $function::<Crowded>($($argument),*);
        $function::<Table<u64, ByLength>>($($argument),*);
        $function::<Fixed>($($argument),*);
    }};
}

ghost use Rattle.std.specs.Prelude.{◌≡◌};

mod crowds;
mod large;
mod script;
mod shown;
mod sizes;
mod slots;

use crate::number::Looks;
use crate::string::IString;
use crate::table::{
    Command, FixedHash, FixedTable, KeyHash, LinearPairs, PairStore, Places, RefusedPair, Reply,
    ReserveError, Seen, Table, locate, run,
};
use crate::tests::caches::key;
use crate::tests::shown::is_shown;
use crate::tests::support::set;
use std::alloc::{AllocError, Global};
use std::fmt::Debug;
use std::process::Abort;
use std::str;

type Entry = (IString, u64);

/// A table whose keys all have the same home slot.
type Crowded = Table<u64, AlwaysZero>;

type Fixed = FixedTable<u64>;

/// The handle of a test, which can allocate and abort.
trait Host: AllocGlobal + Abort {}

impl<R: AllocGlobal + Abort> Host for R {}

#[derive(Drop)]
struct ByLength;

impl KeyHash for ByLength {
    ghost use Rattle.std.specs.Prelude.{length};

    ghost hash_of = { λ text. length text };

    fn hash(text: &str) -> u64 {
        text.len() as u64
    }
}

#[derive(Drop)]
struct AlwaysZero;

impl KeyHash for AlwaysZero {
    ghost hash_of = { λ text. 0 };

    fn hash(_text: &str) -> u64 {
        0
    }
}

/// A store of numbers, with the functions that all stores have in addition to `PairStore`.
trait Store: PairStore<u64> + Debug + Drop {
    fn with_room(alloc: Global, capacity: usize) -> Result<Self, ReserveError>;

    fn put(&mut self, key: IString, value: u64) -> Result<Option<u64>, RefusedPair<u64>>;

    fn value_of(&self, key: &str) -> Option<&u64>;

    fn entries(&self) -> &[Entry];

    /// Returns a copy of a table, or `None` for a list.
    fn copy(&self, rt: &impl Host) -> Option<Self>;
}

impl Store for LinearPairs<u64> {
    fn with_room(alloc: Global, capacity: usize) -> Result<Self, ReserveError> {
        LinearPairs::with_capacity(alloc, capacity)
    }

    fn put(&mut self, key: IString, value: u64) -> Result<Option<u64>, RefusedPair<u64>> {
        self.insert(key, value)
    }

    fn value_of(&self, key: &str) -> Option<&u64> {
        self.get(key)
    }

    fn entries(&self) -> &[Entry] {
        self.as_slice()
    }

    fn copy(&self, _rt: &impl Host) -> Option<Self> {
        None
    }
}

impl<H: KeyHash + Drop> Store for Table<u64, H> {
    fn with_room(alloc: Global, capacity: usize) -> Result<Self, ReserveError> {
        Table::with_capacity(alloc, capacity)
    }

    fn put(&mut self, key: IString, value: u64) -> Result<Option<u64>, RefusedPair<u64>> {
        self.insert(key, value)
    }

    fn value_of(&self, key: &str) -> Option<&u64> {
        self.get(key)
    }

    fn entries(&self) -> &[Entry] {
        self.as_slice()
    }

    fn copy(&self, rt: &impl Host) -> Option<Self> {
        Some(granted!(rt; self.with_same_keys(rt.alloc(), copied(rt, rt.alloc(), self.as_slice()))))
    }
}

/// Returns an empty store with the capacity `capacity`.
fn roomy<S: Store>(rt: &impl Host, capacity: usize) -> S {
    granted!(rt; ReserveError::Memory; S::with_room(rt.alloc(), capacity))
}

/// Returns a copy of `pairs`, with spare capacity for one more entry.
fn copied(rt: &impl Abort, alloc: Global, pairs: &[(IString, u64)]) -> Vec<(IString, u64)>
    ensures { result.items ≡ pairs.now }
{
    let mut copies = granted!(rt; Vec::with_capacity(alloc, pairs.len().saturating_add(1)));
    for pair in pairs {
        let key = pair.0.clone().expect(rt, "a key");
        copies.push((key, pair.1)).expect(rt, "room");
    }
    copies
}

/// Returns `true` if `store` has exactly `pairs`, found by their keys, and the capacity `capacity`.
fn holds<S: Store>(store: &S, pairs: &[Entry], capacity: usize) -> bool {
    for (at, (wanted, number)) in pairs.iter().enumerate() {
        let key = wanted.as_str();
        if store.position(key) != Some(at)
            || store.value_of(key) != Some(number)
            || at >= store.len()
        {
            return false;
        }
        let (key, value) = store.pair(at);
        if *key != *wanted || *value != *number {
            return false;
        }
    }
    store.entries() == pairs && store.len() == pairs.len() && store.capacity() == capacity
}

/// Returns the key of `number`: a character, and an `a` if `is_longer`. The key does not allocate.
fn numbered(rt: &impl Host, number: u16, is_longer: bool) -> IString {
    let character = char::from_u32(0x4e00 + u32::from(number)).expect(rt, "a character");
    let mut bytes = [b'a'; 4];
    character.encode_utf8(&mut bytes);
    let length = if is_longer { 4 } else { 3 };
    let letters = str::from_utf8(&bytes[..length]);
    key(rt, rt.alloc(), letters.expect(rt, "a text"))
}

/// A command to a store, with a literal as its key.
#[derive(Clone, Copy, Drop)]
enum Step {
    Put(&'static str, u64),
    /// Inserts a number, with the key that `numbered` returns.
    Number(u16),
    Find(&'static str),
    Remove(&'static str),
    ShiftRemove(&'static str),
    Reserve(usize),
    Shrink,
    Clear,
}

/// How a store is called: by `run` only, or by `insert` and `get` for insertions and lookups.
#[derive(Clone, Copy, PartialEq, Drop)]
enum Way {
    Run,
    Call,
}

fn command(rt: &impl Host, step: Step) -> Command<u64> {
    let key = |letters| key(rt, rt.alloc(), letters);
    match step {
        Step::Put(letters, value) => Command::Insert(key(letters), value),
        Step::Number(number) => Command::Insert(numbered(rt, number, false), u64::from(number)),
        Step::Find(letters) => Command::Find(key(letters)),
        Step::Remove(letters) => Command::Remove(key(letters)),
        Step::ShiftRemove(letters) => Command::ShiftRemove(key(letters)),
        Step::Reserve(additional) => Command::Reserve(additional),
        Step::Shrink => Command::ShrinkToFit,
        Step::Clear => Command::Clear,
    }
}

/// Returns `true` if `command` does not allocate in `store`.
fn is_quiet<S: Store>(store: &S, command: &Command<u64>) -> bool {
    let vacant = store.capacity().saturating_sub(store.len());
    match command {
        Command::Insert(key, _) => vacant > 0 || store.position(key.as_str()).is_some(),
        Command::Reserve(additional) => *additional <= vacant || *additional > 1 << 56,
        Command::ShrinkToFit => vacant == 0 || store.len() == 0,
        _ => true,
    }
}

/// Returns the reply of `run` to `command`, or `None` if the list of replies cannot be allocated.
fn ran<S: Store>(rt: &impl Host, store: &mut S, command: Command<u64>) -> Option<Reply<u64>> {
    let (alloc, is_quiet) = (rt.alloc(), is_quiet(store, &command));
    let mut commands = granted!(rt; Vec::with_capacity(alloc, 1));
    commands.push(command).expect(rt, "room");
    let replies = if is_quiet {
        counted!(alloc; 1; run(alloc, store, commands))
    } else {
        run(alloc, store, commands)
    };
    match replies {
        Ok(mut replies) => replies.pop(),
        Err(AllocError) => None,
    }
}

/// Inserts an entry, and returns the result of `insert` as a reply.
fn inserted<S: Store>(store: &mut S, key: IString, value: u64) -> Reply<u64> {
    match store.put(key, value) {
        Ok(None) => Reply::Added,
        Ok(Some(old)) => Reply::Replaced(old),
        Err(refused) => Reply::Refused(refused.key, refused.value, refused.why),
    }
}

/// Returns the index of `key` as a reply, if `get` returns a value for `key`.
fn found<S: Store>(store: &S, key: &str) -> Reply<u64> {
    match store.value_of(key) {
        Some(_) => Reply::Found(store.position(key)),
        None => Reply::Found(None),
    }
}

/// Executes `command` by `insert` or `get` if possible, otherwise by `run`, and returns the reply.
fn called<S: Store>(rt: &impl Host, store: &mut S, command: Command<u64>) -> Option<Reply<u64>> {
    match command {
        Command::Insert(key, value) => Some(inserted(store, key, value)),
        Command::Find(key) => {
            let reply = counted!(rt.alloc(); found(store, key.as_str()));
            drop(key);
            Some(reply)
        }
        other => ran(rt, store, other),
    }
}

/// Returns the reply to `step`, or `None` if a list of replies cannot be allocated.
fn attempt<S: Store>(rt: &impl Host, store: &mut S, step: Step, way: Way) -> Option<Reply<u64>> {
    let command = command(rt, step);
    if way == Way::Run {
        return ran(rt, store, command);
    }
    if matches!(step, Step::Put(..)) && is_quiet(store, &command) {
        return counted!(rt.alloc(); called(rt, store, command));
    }
    called(rt, store, command)
}

/// Returns `true` if `reply` is `None` or reports that an allocation for `step` failed.
fn is_refused(rt: &impl Host, reply: &Option<Reply<u64>>, step: Step) -> bool {
    let refusal = match command(rt, step) {
        Command::Insert(key, value) => Reply::Refused(key, value, ReserveError::Memory),
        _ => Reply::NotDone(ReserveError::Memory),
    };
    let is_so = reply.as_ref().is_none_or(|reply| *reply == refusal);
    drop(refusal);
    is_so
}

/// Returns the reply to `step`. A failed step, which is repeated, must leave the store unchanged.
fn reply<S: Store>(rt: &impl Host, store: &mut S, step: Step, way: Way) -> Reply<u64> {
    let (before, capacity) = (copied(rt, rt.alloc(), store.entries()), store.capacity());
    let mut reply = attempt(rt, store, step, way);
    if is_refused(rt, &reply, step) {
        assert!(*rt; holds(store, &before, capacity));
        set(&mut reply, attempt(rt, store, step, way));
    }
    drop(before);
    reply.expect(rt, "a reply")
}

/// Asserts that the reply to `step` has the debug output `want`.
fn replies<S: Store>(rt: &impl Host, store: &mut S, step: Step, way: Way, want: &str) {
    let reply = reply(rt, store, step, way);
    is_shown(rt, rt.alloc(), &reply, want);
    drop(reply);
}
