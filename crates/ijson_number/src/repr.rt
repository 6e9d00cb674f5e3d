//! The representation of a number.
ghost use Rattle.std.specs.Prelude.{◌≡◌};
ghost use Rattle.ijson_number.specs.Num.{IsNum};
ghost use Rattle.ijson_number.specs.laws.Codes.{IsNum-prop};
ghost use Rattle.ijson_number.specs.private.Stored.{stored_decimal};

pub(crate) mod stored;

use crate::repr::stored::{MAX_DIGITS, Stored, StrippedNumber};
use std::marker::Model;

/// An exact decimal. The size of an `INumber` is 16 bytes.
///
/// The value is zero, or a significand without trailing zeros times a power of ten whose exponent
/// is from `-(2 ^ 30)` to `2 ^ 30`. The number also stores whether it was written with a decimal
/// point or an exponent.
///
/// For example, `2`, `2.0` and `20e-1` are equal, and the last two print as `2.0`.
///
/// A number allocates only if it is stored as a list of digits.
#[derive(Drop)]
pub struct INumber {
    pub(crate) stored: Stored,
    ghost num: { IsNum (stored_decimal stored) } by { IsNum-prop (stored_decimal stored) },
}

const _: () = prove!(size_of::<INumber>() == 16);

impl Model for INumber {
    ghost use Rattle.ijson_number.specs.Num.{Num};
    ghost use Rattle.ijson_number.specs.laws.Codes.{num_code};
    ghost use Rattle.ijson_number.specs.private.Stored.{stored_decimal, IsForm};

    ghost Value = { Num };

    ghost coded = { num_code };

    ghost view = { λ n. record { decimal = stored_decimal n.stored; is_num = n.num } };

    ghost invariant = { λ n. IsForm n.stored };
}

impl INumber {
    ghost use Rattle.ijson_number.specs.private.StrippedNumber.{decimal_of};

    /// Returns the sign, the canonical digits, the exponent and the `point` of the number.
    ///
    /// Digits that are not stored are written to `buffer`.
    pub(crate) fn stripped<'a>(&'a self, buffer: &'a mut [u8; MAX_DIGITS]) -> StrippedNumber<'a>
        ensures { decimal_of result ≡ self.now.decimal }
    {
        match &self.stored {
            Stored::Packed(word) => {
                StrippedNumber::from_signed(word.mantissa(), word.exponent(), word.point(), buffer)
            }
            Stored::I64(value) => StrippedNumber::from_signed(*value, 0, false, buffer),
            Stored::U64(value) => StrippedNumber::from_magnitude(false, *value, 0, false, buffer),
            Stored::Short(number) => number.stripped(),
            Stored::Long(number) => number.stripped(),
        }
    }
}
