//! Folds the words of an entry to one word. The hash of an object uses the sum of the folds of its
//! entries.
ghost use Rattle.std.specs.Prelude.{◌≡◌, ◌%◌, ◌^◌, fold};
ghost use Rattle.ijson_number.specs.Words.{number_words};
ghost use Rattle.ijson_string.specs.Words.{text_words};
ghost use Rattle.ijson_table.specs.Fold.{basis, fold_word};
ghost use Rattle.ijson_value.specs.Values.{array_tree};
ghost use Rattle.ijson_value.specs.WellFormed.{pair_trees};
ghost use Rattle.ijson_value.specs.Words.{words, pair_sum};
ghost use Rattle.ijson_value.specs.private.Folded.{folded};

use crate::value::{Destructured, IValue};
use ijson_number::INumber;
use ijson_string::IString;
use ijson_table::FixedHash;
use std::hash::{Hash, Hasher};

/// A fold of words, with the constants of `FixedHash`.
///
/// As a `Hasher`, it adds each write of eight bytes as one word, and ignores other writes.
#[derive(Drop)]
struct WordFold(u64);

impl WordFold {
    fn new() -> WordFold
        ensures { result.0 ≡ basis }
    {
        WordFold(FixedHash::BASIS)
    }

    fn add_word(&mut self, word: u64)
        ensures { self.new.0 ≡ fold_word self.old.0 word }
    {
        self.0 = self.0.wrapping_mul(FixedHash::PRIME).wrapping_add(word);
    }

    fn add_number(&mut self, number: &INumber)
        ensures { self.new.0 ≡ fold fold_word self.old.0 (number_words number.now.decimal) }
    {
        number.hash(self);
    }

    fn add_text(&mut self, text: &IString)
        ensures { self.new.0 ≡ fold fold_word self.old.0 (text_words text.now) }
    {
        text.hash(self);
    }
}

impl Hasher for WordFold {
    ghost write = { λ s bytes. record { 0 = folded s.0 bytes } };

    ghost finish = { λ s. s.0 };

    fn finish(&self) -> u64 {
        self.0
    }

    fn write(&mut self, bytes: &[u8]) {
        if let Ok(word) = <[u8; 8]>::try_from(bytes) {
            self.add_word(u64::from_le_bytes(word));
        }
    }

    fn write_u64(&mut self, word: u64) {
        self.add_word(word);
    }
}

/// Adds the words of `value` to `state`.
#[cycle(fold)]
fn add_value(value: &IValue, state: &mut WordFold)
    ensures { state.new.0 ≡ fold fold_word state.old.0 (words value.now.tree) }
{
    match &value.node {
        Destructured::Null => state.add_word(0),
        Destructured::Bool(b) => {
            state.add_word(1);
            state.add_word(u64::from(*b));
        }
        Destructured::Number(number) => state.add_number(number),
        Destructured::String(text) => state.add_text(text),
        Destructured::Array(array) => add_items(array.as_slice(), state),
        Destructured::Object(object) => {
            let pairs = object.as_slice();
            state.add_word(5);
            state.add_word(pairs.len() as u64);
            state.add_word(sum_of_pairs(pairs));
        }
    }
}

/// Adds the words of an array with the elements `items` to `state`.
#[cycle(fold)]
fn add_items(items: &[IValue], state: &mut WordFold)
    ensures { state.new.0 ≡ fold fold_word state.old.0 (words (array_tree items.now)) }
{
    state.add_word(4);
    state.add_word(items.len() as u64);
    for item in items {
        add_value(item, state);
    }
}

/// Returns the sum of the folds of all entries, modulo `2 ^ 64`.
///
/// The fold of an entry folds the words of its key, then the words of its value.
///
/// The sum does not depend on the order of the entries.
#[cycle(fold)]
pub(crate) fn sum_of_pairs(pairs: &[(IString, IValue)]) -> u64
    ensures { result ≡ pair_sum (pair_trees pairs.now) % 2 ^ 64 }
{
    let mut sum = 0u64;
    for pair in pairs {
        let mut state = WordFold::new();
        state.add_text(&pair.0);
        add_value(&pair.1, &mut state);
        sum = sum.wrapping_add(state.0);
    }
    sum
}
