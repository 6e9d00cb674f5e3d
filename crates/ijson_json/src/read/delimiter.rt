//! The delimiters after an element of an array or a member of an object.

ghost use Rattle.std.specs.Prelude.{◌<◌, MatchResult};
ghost use Rattle.ijson_json.specs.private.Delimiters.{DelimiterAt, NoDelimiter};

use crate::fault::Fault;
use crate::scan::prefix::strip_byte;
use crate::scan::space::skip_space;

/// The delimiter after an element or a member.
#[derive(Clone, Copy)]
pub(crate) enum Delimiter<'a> {
    /// A comma, and the text from the next element or member on.
    Comma(&'a str),
    /// The bracket that closes the container, and the text after the bracket.
    End(&'a str),
}

/// Reads the delimiter after an element or member, in a container that the bracket `closing`
/// closes.
///
/// Skips the white space before the delimiter.
#[tactic(auto, using(crate::proofs::scanning::Prefixes::closes))]
#[inline(always)]
pub(crate) fn read_delimiter(text: &str, closing: u8) -> Result<Delimiter<'_>, Fault>
    requires { closing < 128 }
    ensures { MatchResult result
        (λ delimiter. DelimiterAt closing text.now delimiter)
        (λ fault. NoDelimiter closing text.now fault) }
{
    let start = skip_space(text);
    if let Some(behind) = strip_byte(start, closing) {
        return Ok(Delimiter::End(behind));
    }
    match strip_byte(start, b',') {
        Some(more) => Ok(Delimiter::Comma(skip_space(more))),
        None => Err(Fault::Syntax { left: start.len() }),
    }
}
