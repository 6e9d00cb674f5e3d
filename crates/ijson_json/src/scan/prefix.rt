//! Splitting and stripping leading bytes.

ghost use Rattle.std.specs.Prelude.{◌≡◌, ◌++◌, ◌∷◌, ◌==◌, ◌<◌, ◌≤◌, nat_lt, length, MatchOption, MatchResult, IfSome};
ghost use Rattle.ijson_json.specs.private.Reading.{Past};
ghost use Rattle.ijson_json.specs.private.Explains.{CommonFront, WordFault};

use crate::fault::Fault;

/// Splits off the first byte, if it is ASCII.
#[tactic(auto, using(crate::proofs::scanning::CharBoundaries::after_first))]
pub(crate) fn split_ascii(text: &str) -> Option<(u8, &str)>
    ensures cases { MatchOption result (Past (λ b. nat_lt b 128) text.now)
        (λ x. text.now ≡ x.0 ∷ x.1.now) }
    ensures ascii { IfSome result (λ x. x.0 < 128) }
{
    let (byte, _) = text.as_bytes().split_first()?;
    if *byte < 128 {
        Some((*byte, &text[1..]))
    } else {
        None
    }
}

/// Strips `byte` from the start of `text`. Returns `None` if `text` does not begin with `byte`.
#[tactic(auto, using(crate::proofs::scanning::CharBoundaries::after_first))]
pub(crate) fn strip_byte(text: &str, byte: u8) -> Option<&str>
    requires { byte < 128 }
    ensures { MatchOption result (Past (λ b. b == byte) text.now)
        (λ rest. text.now ≡ byte ∷ rest.now) }
{
    let (first, _) = text.as_bytes().split_first()?;
    if *first == byte {
        Some(&text[1..])
    } else {
        None
    }
}

/// Returns the length of the common prefix of `text` and `word`.
fn common_length(text: &str, word: &str) -> usize
    ensures { CommonFront text.now word.now result }
{
    let bytes = text.as_bytes().iter().zip(word.as_bytes().iter());
    bytes.take_while(|(a, b)| a == b).count()
}

/// Strips `word` from the start of `text`.
///
/// If `text` does not begin with `word`, the fault is at the first byte that differs.
pub(crate) fn strip_word<'a>(text: &'a str, word: &str) -> Result<&'a str, Fault>
    ensures { MatchResult result
        (λ rest. text.now ≡ word.now ++ rest.now)
        (λ fault. WordFault text.now word.now fault) }
{
    match text.strip_prefix(word) {
        Some(rest) => Ok(rest),
        None => Err(Fault::Syntax {
            left: text.len() - common_length(text, word),
        }),
    }
}
