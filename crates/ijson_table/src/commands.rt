//! Commands on a pair store, and a function that runs them.

ghost use Rattle.std.specs.Prelude.{◌≡◌, IfOk, OnErr};
ghost use Rattle.ijson_table.specs.Steps.{Step, Run};
ghost use Rattle.ijson_table.specs.Store.{at};

use crate::store::{PairStore, ReserveError, insert};
use ijson_string::IString;
use std::alloc::{AllocError, Global};

/// A command to a store.
#[derive(Debug, Drop)]
pub enum Command<V> {
    /// Replaces the value of a present key, without allocating, or appends a new entry.
    Insert(IString, V),
    /// Looks up the index of the key.
    Find(IString),
    /// Removes the entry with the key, and moves the last entry to the index of the removed entry.
    Remove(IString),
    /// Removes the entry with the key, and moves each later entry down by one index.
    ShiftRemove(IString),
    /// Reserves capacity for this number of additional entries.
    Reserve(usize),
    /// Shrinks the capacity to the length.
    ShrinkToFit,
    /// Drops all entries.
    Clear,
}

/// The reply to a command.
#[derive(Debug, PartialEq, Eq, Drop)]
pub enum Reply<V> {
    /// The entry is new.
    Added,
    /// The key was present, with this old value.
    Replaced(V),
    /// The store failed to grow. The entry is returned with the reason.
    Refused(IString, V, ReserveError),
    /// The index of the key, or `None` if the key is missing.
    Found(Option<usize>),
    /// The removed entry, or `None` if the key is missing.
    Removed(Option<(IString, V)>),
    /// The command succeeded.
    Done,
    /// The command failed for this reason, and the capacity is unchanged.
    NotDone(ReserveError),
}

/// Runs one command and returns its reply.
#[tactic(auto, using(crate::proofs::pairs::PairsByKey::position_within))]
fn step<V: Drop, P: PairStore<V>>(store: &mut P, command: Command<V>) -> Reply<V>
    ensures { Step (P.pairs store.old) (P.room store.old) command result
        (P.pairs store.new) (P.room store.new) }
{
    match command {
        Command::Insert(key, value) => match insert(store, key, value) {
            Ok(None) => Reply::Added,
            Ok(Some(old)) => Reply::Replaced(old),
            Err(refused) => Reply::Refused(refused.key, refused.value, refused.why),
        },
        Command::Find(key) => Reply::Found(find(store, key)),
        Command::Remove(key) => Reply::Removed(match find(store, key) {
            Some(index) => Some(store.swap_out(index)),
            None => None,
        }),
        Command::ShiftRemove(key) => Reply::Removed(match find(store, key) {
            Some(index) => Some(store.shift_out(index)),
            None => None,
        }),
        Command::Reserve(additional) => match store.reserve(additional) {
            Ok(()) => Reply::Done,
            Err(why) => Reply::NotDone(why),
        },
        Command::ShrinkToFit => match store.shrink_to_fit() {
            Ok(()) => Reply::Done,
            Err(why) => Reply::NotDone(why),
        },
        Command::Clear => {
            store.clear();
            Reply::Done
        }
    }
}

/// Returns the index of a key, or `None` if the key is missing.
fn find<V, P: PairStore<V>>(store: &P, key: IString) -> Option<usize>
    ensures { result ≡ at (P.pairs store.now) key }
{
    let found = store.position(key.as_str());
    drop(key);
    found
}

/// Runs commands in order and returns their replies.
///
/// The possible replies and their effects (`Run`) are the same for every kind of store.
///
/// # Errors
///
/// The list of replies is allocated first. If this allocation fails, no command is run, and the
/// commands are dropped.
///
/// ```
/// let commands =
///     vec![in alloc; Command::Insert(key, 1u64), Command::Reserve(10), Command::Clear]?;
/// let replies = run(alloc, &mut store, commands)?; // Added, Done, Done
/// ```
pub fn run<V: Drop, P: PairStore<V>>(
    alloc: Global,
    store: &mut P,
    commands: Vec<Command<V>>,
) -> Result<Vec<Reply<V>>, AllocError>
    ensures run { IfOk result (λ replies.
        Run (P.pairs store.old) (P.room store.old) commands.items replies.items
        (P.pairs store.new) (P.room store.new)) }
    ensures err { OnErr result
        ((P.pairs store.new ≡ P.pairs store.old) × (P.room store.new ≡ P.room store.old)) }
{
    let mut replies = Vec::with_capacity(alloc, commands.len())?;
    for command in commands {
        let reply = step(store, command);
        replies.push_reserved(reply);
    }
    Ok(replies)
}
