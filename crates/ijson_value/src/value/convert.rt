//! Conversions of Booleans, numbers, strings, arrays, objects, integers and options to values.
ghost use Rattle.std.specs.Prelude.{◌≡◌, pos, MatchOption};
ghost use Rattle.ijson_value.specs.Integers.{IsIntegerTree};
ghost use Rattle.ijson_value.specs.Values.{null_value, boolean_value, number_value, string_value, array_value, object_value};

use super::{Destructured, IValue};
use crate::array::IArray;
use crate::object::IObject;
use ijson_number::INumber;
use ijson_string::IString;

/// Converts a Boolean to a value.
impl From<bool> for IValue {
    ghost from_gives = { λ b v. v ≡ boolean_value b };

    fn from(b: bool) -> IValue {
        if b { IValue::TRUE } else { IValue::FALSE }
    }
}

/// Converts a number to a value.
impl From<INumber> for IValue {
    ghost from_gives = { λ n v. v ≡ number_value n };

    fn from(n: INumber) -> IValue {
        IValue {
            node: Destructured::Number(n),
        }
    }
}

/// Converts a string to a value.
impl From<IString> for IValue {
    ghost from_gives = { λ s v. v ≡ string_value s };

    fn from(s: IString) -> IValue {
        IValue {
            node: Destructured::String(s),
        }
    }
}

/// Converts an array to a value.
impl From<IArray> for IValue {
    ghost from_gives = { λ a v. v ≡ array_value a.items };

    fn from(a: IArray) -> IValue {
        IValue {
            node: Destructured::Array(a),
        }
    }
}

/// Converts an object to a value.
impl From<IObject> for IValue {
    ghost from_gives = { λ o v. v ≡ object_value o };

    fn from(o: IObject) -> IValue {
        IValue {
            node: Destructured::Object(o),
        }
    }
}

/// Converts an integer to a number without a decimal point. Does not allocate.
impl From<i8> for IValue {
    ghost from_gives = { λ value v. IsIntegerTree v.tree value };

    fn from(value: i8) -> IValue {
        IValue::from(INumber::from(value))
    }
}

/// Converts an integer to a number without a decimal point. Does not allocate.
impl From<i16> for IValue {
    ghost from_gives = { λ value v. IsIntegerTree v.tree value };

    fn from(value: i16) -> IValue {
        IValue::from(INumber::from(value))
    }
}

/// Converts an integer to a number without a decimal point. Does not allocate.
impl From<i32> for IValue {
    ghost from_gives = { λ value v. IsIntegerTree v.tree value };

    fn from(value: i32) -> IValue {
        IValue::from(INumber::from(value))
    }
}

/// Converts an integer to a number without a decimal point. Does not allocate.
impl From<i64> for IValue {
    ghost from_gives = { λ value v. IsIntegerTree v.tree value };

    fn from(value: i64) -> IValue {
        IValue::from(INumber::from(value))
    }
}

/// Converts an integer to a number without a decimal point. Does not allocate.
impl From<isize> for IValue {
    ghost from_gives = { λ value v. IsIntegerTree v.tree value };

    fn from(value: isize) -> IValue {
        IValue::from(INumber::from(value))
    }
}

/// Converts an integer to a number without a decimal point. Does not allocate.
impl From<u8> for IValue {
    ghost from_gives = { λ value v. IsIntegerTree v.tree (pos value) };

    fn from(value: u8) -> IValue {
        IValue::from(INumber::from(value))
    }
}

/// Converts an integer to a number without a decimal point. Does not allocate.
impl From<u16> for IValue {
    ghost from_gives = { λ value v. IsIntegerTree v.tree (pos value) };

    fn from(value: u16) -> IValue {
        IValue::from(INumber::from(value))
    }
}

/// Converts an integer to a number without a decimal point. Does not allocate.
impl From<u32> for IValue {
    ghost from_gives = { λ value v. IsIntegerTree v.tree (pos value) };

    fn from(value: u32) -> IValue {
        IValue::from(INumber::from(value))
    }
}

/// Converts an integer to a number without a decimal point. Does not allocate.
impl From<u64> for IValue {
    ghost from_gives = { λ value v. IsIntegerTree v.tree (pos value) };

    fn from(value: u64) -> IValue {
        IValue::from(INumber::from(value))
    }
}

/// Converts an integer to a number without a decimal point. Does not allocate.
impl From<usize> for IValue {
    ghost from_gives = { λ value v. IsIntegerTree v.tree (pos value) };

    fn from(value: usize) -> IValue {
        IValue::from(INumber::from(value))
    }
}

/// Converts the content of `Some` to a value, and `None` to null.
impl<T: Into<IValue>> From<Option<T>> for IValue {
    ghost from_gives = { λ x v. MatchOption x (v ≡ null_value) (λ y. T.Into.converts y v) };

    fn from(value: Option<T>) -> IValue {
        match value {
            Some(value) => value.into(),
            None => IValue::NULL,
        }
    }
}
