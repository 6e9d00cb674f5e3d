//! Hashing of values, arrays and objects.
ghost use Rattle.std.specs.Prelude.{◌≡◌, ℕ, List, ◌++◌, fold};
ghost use Rattle.std.specs.Hash as fed;
ghost use Rattle.std.specs.List.{flat_map};
ghost use Rattle.ijson_value.specs.HoldsNoObject.{HoldsNoObject};
ghost use Rattle.ijson_value.specs.Same.{Same};
ghost use Rattle.ijson_value.specs.Tree.{Tree};
ghost use Rattle.ijson_value.specs.Values.{array_tree, object_tree, array_value, object_value};
ghost use Rattle.ijson_value.specs.WellFormed.{IsWellFormed};
ghost use Rattle.ijson_value.specs.Words.{words};
ghost use Rattle.ijson_value.specs.laws.SameWords.{same_feed};

use crate::array::IArray;
use crate::object::IObject;
use crate::value::{Destructured, IValue};
use crate::word_fold::sum_of_pairs;
use ijson_string::IString;
use std::hash::{Hash, Hasher};

/// States the laws of the words that values feed to a hasher.
///
/// Values that are the same feed the same words, at every depth and in every order of entries. No
/// value's words are a proper prefix of another value's words. Two values that feed the same words
/// are the same if the first contains no object.
///
/// The function does nothing. A proof calls it to use these laws.
pub fn words_law()
    ensures same { (t u : Tree) → IsWellFormed t → IsWellFormed u → Same t u → words t ≡ words u }
    ensures ends { (t u : Tree) (x y : List ℕ) → IsWellFormed t → IsWellFormed u
        → words t ++ x ≡ words u ++ y → x ≡ y }
    ensures without_objects { (t u : Tree) (x y : List ℕ) → IsWellFormed t → IsWellFormed u
        → HoldsNoObject t → words t ++ x ≡ words u ++ y → Same t u }
{}

/// Feeds the words of `value` to `state`.
#[cycle(hash)]
fn hash_value<H: Hasher>(value: &IValue, state: &mut H)
    ensures { state.new ≡ fold H.write state.old (flat_map fed.u64 (words value.now.tree)) }
{
    match &value.node {
        Destructured::Null => state.write_u64(0),
        Destructured::Bool(b) => {
            state.write_u64(1);
            state.write_u64(u64::from(*b));
        }
        Destructured::Number(number) => number.hash(state),
        Destructured::String(text) => text.hash(state),
        Destructured::Array(array) => hash_items(array.as_slice(), state),
        Destructured::Object(object) => hash_pairs(object.as_slice(), state),
    }
}

/// Feeds the words of an array with the elements `items` to `state`.
#[cycle(hash)]
fn hash_items<H: Hasher>(items: &[IValue], state: &mut H)
    ensures { state.new ≡ fold H.write state.old (flat_map fed.u64 (words (array_tree items.now))) }
{
    state.write_u64(4);
    state.write_u64(items.len() as u64);
    for item in items {
        hash_value(item, state);
    }
}

/// Feeds the words of an object with the entries `pairs` to `state`.
fn hash_pairs<H: Hasher>(pairs: &[(IString, IValue)], state: &mut H)
    ensures { state.new ≡ fold H.write state.old (flat_map fed.u64 (words (object_tree pairs.now))) }
{
    state.write_u64(5);
    state.write_u64(pairs.len() as u64);
    state.write_u64(sum_of_pairs(pairs));
}

/// Feeds the same words for equal values, each word by one `write_u64`.
///
/// An object feeds 5, its length, and one word that does not depend on the order of its entries.
/// Takes time linear in the size of the value. Does not allocate.
impl Hash for IValue {
    ghost hash_input = { λ v. flat_map fed.u64 (words v.tree) };

    ghost respects_eq = { same_feed (λ v. v) };

    fn hash<H: Hasher>(&self, state: &mut H) {
        hash_value(self, state);
    }
}

/// Hashes the array like an `IValue` that contains it.
impl Hash for IArray {
    ghost hash_input = { λ a. flat_map fed.u64 (words (array_tree a.items)) };

    ghost respects_eq = { same_feed (λ a. array_value a.items) };

    fn hash<H: Hasher>(&self, state: &mut H) {
        hash_items(self.as_slice(), state);
    }
}

/// Hashes the object like an `IValue` that contains it.
impl Hash for IObject {
    ghost hash_input = { λ o. flat_map fed.u64 (words (object_tree o.pairs)) };

    ghost respects_eq = { same_feed object_value };

    fn hash<H: Hasher>(&self, state: &mut H) {
        hash_pairs(self.as_slice(), state);
    }
}
