//! Reading of numbers.

ghost use Rattle.std.specs.Prelude.{◌≡◌, ◌↔◌, IsTrue, MatchResult};
ghost use Rattle.ijson_number.specs.NumberBytes.{is_number_byte};
ghost use Rattle.ijson_json.specs.private.Explains.{NumberFault};
ghost use Rattle.ijson_json.specs.private.Reading.{NumberRead, Stops};

use crate::fault::Fault;
use ijson_number::{INumber, ReadNumberError};
use std::alloc::Global;

/// Returns `true` if the byte can occur in a number.
fn in_number(byte: u8) -> bool
    ensures { result ≡ is_number_byte byte }
{
    (b'0' <= byte && byte <= b'9')
        || byte == b'+'
        || byte == b'-'
        || byte == b'.'
        || byte == b'E'
        || byte == b'e'
}

/// Returns `true` if `text` does not begin with a byte of a number.
fn stops(text: &str) -> bool
    ensures { IsTrue result ↔ Stops text.now }
{
    // Most numbers are followed by a comma, so the comma is tested first.
    text.is_empty() || text.as_bytes()[0] == b',' || !in_number(text.as_bytes()[0])
}

/// Reads the leading number, and returns the number and the text after it.
///
/// If the number is out of range, the fault is at its first byte, whatever follows.
#[inline(always)]
pub(crate) fn read_number(alloc: Global, text: &str) -> Result<(INumber, &str), Fault>
    ensures { MatchResult result
        (λ x. NumberRead text.now x.0.decimal x.1.now)
        (λ fault. NumberFault text.now fault) }
{
    match INumber::read_front(alloc, text) {
        Ok((number, length)) => {
            let (_, rest) = text.split_at(length);
            if stops(rest) {
                return Ok((number, rest));
            }
            drop(number);
            Err(Fault::Syntax { left: rest.len() })
        }
        Err(ReadNumberError::Syntax { at }) => Err(Fault::Syntax {
            left: text.len() - at,
        }),
        Err(ReadNumberError::OutOfRange) => Err(Fault::NumberRange { left: text.len() }),
        Err(ReadNumberError::Memory) => Err(Fault::Memory),
    }
}
