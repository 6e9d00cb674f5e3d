//! Reading of values that are not containers.

ghost use Rattle.std.specs.Prelude.{◌≡◌, ◌≢◌, ◌∷◌, ◌++◌, ℕ, List, MatchResult};
ghost use Rattle.ijson_json.specs.private.Explains.{WordFault};
ghost use Rattle.ijson_json.specs.private.ReadsScalar.{ReadsScalar};

use crate::fault::Fault;
use crate::read::number::read_number;
use crate::read::string::read_string;
use crate::scan::prefix::strip_word;
use ijson_string::StringCache;
use ijson_value::value::IValue;
use std::alloc::Global;
use std::hash::BuildHasher;

/// Reads `word` at the start of `text`, and returns `value` and the text after `word`.
#[inline(always)]
fn read_word<'a>(text: &'a str, word: &str, value: IValue) -> Result<(IValue, &'a str), Fault>
    ensures { MatchResult result
        (λ x. (x.0 ≡ value) × (text.now ≡ word.now ++ x.1.now))
        (λ fault. WordFault text.now word.now fault) }
{
    match strip_word(text, word) {
        Ok(rest) => Ok((value, rest)),
        Err(fault) => {
            drop(value);
            Err(fault)
        }
    }
}

/// Reads the leading value, which is not a container and begins with the byte `first`.
///
/// `content` is a buffer for the decoded content of a string with an escape.
#[inline(always)]
pub(crate) fn read_scalar<'a, S: BuildHasher>(
    alloc: Global,
    cache: &mut StringCache<S>,
    content: &mut String,
    text: &'a str,
    first: u8,
) -> Result<(IValue, &'a str), Fault>
    requires begins { (rest : List ℕ) × (text.now ≡ first ∷ rest) }
    requires apart { (first ≢ 91) × (first ≢ 123) }
    ensures { ReadsScalar text.now result cache.old cache.new }
{
    match first {
        b'"' => {
            let (string, rest) = read_string(cache, content, text)?;
            Ok((IValue::from(string), rest))
        }
        b'n' => read_word(text, "null", IValue::NULL),
        b't' => read_word(text, "true", IValue::TRUE),
        b'f' => read_word(text, "false", IValue::FALSE),
        _ => {
            let (number, rest) = read_number(alloc, text)?;
            Ok((IValue::from(number), rest))
        }
    }
}
