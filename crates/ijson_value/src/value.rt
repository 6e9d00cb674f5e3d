//! JSON values and their kinds.
ghost use Rattle.std.specs.Prelude.{◌≡◌, ◌↔◌, IsTrue};
ghost use Rattle.ijson_value.specs.Kind.{kind_of};
ghost use Rattle.ijson_value.specs.Same.{Same};
ghost use Rattle.ijson_value.specs.SameTest.{same};
ghost use Rattle.ijson_value.specs.Values.{null_value};
ghost use Rattle.ijson_value.specs.laws.Equality.{partial_equivalence, equivalence};

mod convert;
mod destructure;
mod index;
mod kinds;
mod lent;
mod parts;

use crate::array::IArray;
pub use crate::hash::words_law;
use crate::object::IObject;
use crate::same::same_value;
pub use destructure::{BoolMut, DestructuredMut, DestructuredRef};
use ijson_number::INumber;
use ijson_string::IString;
pub use index::ValueIndex;
use std::marker::Model;
use std::mem::size_of;

/// A JSON value.
///
/// A value takes 24 bytes and has at most one pointer to content on the heap. Copying, comparing,
/// hashing and dropping a value recurse once per nesting level, so a very deeply nested value can
/// overflow the stack.
#[cycle(value)]
#[derive(Drop)]
pub struct IValue {
    pub(crate) node: Destructured,
}

const _: () = prove!(size_of::<IValue>() == 24);

/// The content of a value, by kind.
///
/// `IValue::destructure` moves the content out of a value, and `IValue::from` moves content into a
/// value. Neither copies the content.
#[cycle(value)]
#[derive(Debug, Drop, PartialEq, Eq)]
pub enum Destructured {
    /// `null`.
    Null,
    /// `true` or `false`.
    Bool(bool),
    /// An exact decimal.
    Number(INumber),
    /// A string.
    String(IString),
    /// An array of values.
    Array(IArray),
    /// Entries with distinct keys, in order.
    Object(IObject),
}

impl Model for IValue {
    ghost use Rattle.ijson_value.specs.WellFormed.{WellFormed};
    ghost use Rattle.ijson_value.specs.laws.WellFormedCode.{well_formed_code};

    ghost Value = { WellFormed };

    ghost coded = { well_formed_code };

    ghost use Rattle.ijson_value.specs.NodeValue.{node_value};
    ghost use Rattle.ijson_value.specs.Sizes.{value_size};

    ghost view = { λ v. node_value v.node };

    ghost size = { value_size };

    ghost use Rattle.ijson_value.specs.laws.NodeFalls.{node_falls};

    ghost size_decreases = { λ v h. node_falls v.node };
}

/// The kind of a value.
///
/// Values of different kinds are ordered like their kinds.
#[derive(Clone, Copy, Debug, PartialEq, Eq, PartialOrd, Ord, Hash)]
pub enum ValueType {
    /// `null`.
    Null,
    /// `true` or `false`.
    Bool,
    /// An exact decimal.
    Number,
    /// A string.
    String,
    /// An array of values.
    Array,
    /// Entries with distinct keys, in order.
    Object,
}

// A clause cannot name a constant whose type has a model. The contract of `default`, which returns
// `NULL`, states the value of `NULL`. The contract of `from` for `bool`, which returns `TRUE` and
// `FALSE`, states their values.
impl IValue {
    /// The value null.
    pub const NULL: IValue = IValue {
        node: Destructured::Null,
    };

    /// The value true.
    pub const TRUE: IValue = IValue {
        node: Destructured::Bool(true),
    };

    /// The value false.
    pub const FALSE: IValue = IValue {
        node: Destructured::Bool(false),
    };

    /// Returns the kind of the value.
    pub fn type_(&self) -> ValueType
        ensures { result ≡ kind_of self.now.tree }
    {
        match &self.node {
            Destructured::Null => ValueType::Null,
            Destructured::Bool(_) => ValueType::Bool,
            Destructured::Number(_) => ValueType::Number,
            Destructured::String(_) => ValueType::String,
            Destructured::Array(_) => ValueType::Array,
            Destructured::Object(_) => ValueType::Object,
        }
    }
}

/// Returns null.
impl Default for IValue {
    ghost is_default = { λ v. v ≡ null_value };

    fn default() -> IValue {
        IValue::NULL
    }
}

/// Values are equal if they are the same JSON value.
///
/// Numbers are compared by value, with or without a decimal point, arrays element by element, and
/// objects in any order of their entries. Does not allocate. Each key of one object is looked up in
/// the other object, so the expected time is linear.
impl PartialEq for IValue {
    ghost eq = { λ a b. same a.tree b.tree };

    ghost laws = { partial_equivalence (λ v. v) };

    #[tactic(auto, using(crate::specs::laws::Equality::is_same))]
    fn eq(&self, other: &IValue) -> bool
        ensures { IsTrue result ↔ Same self.now.tree other.now.tree }
    {
        same_value(self, other)
    }
}

impl Eq for IValue {
    ghost laws = { equivalence (λ v. v) };
}
