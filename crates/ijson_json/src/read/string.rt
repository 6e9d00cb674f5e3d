//! Reading of strings and keys.

ghost use Rattle.std.specs.Prelude.{◌≡◌, ◌≢◌, ◌++◌, ◌∷◌, List, ℕ, IfOk, IfErr, OnErr, MatchResult};
ghost use Rattle.std.specs.String.{string_bytes};
ghost use Rattle.ijson_string.specs.Cache.{interned};
ghost use Rattle.ijson_json.specs.Grammar.{IsString};
ghost use Rattle.ijson_json.specs.Strings.{is_unescaped};
ghost use Rattle.ijson_json.specs.private.Reading.{Front, Past};
ghost use Rattle.ijson_json.specs.private.Explains.{StringFault};
ghost use Rattle.ijson_json.specs.private.ReadsKey.{ReadsKey};
ghost use Rattle.ijson_json.specs.private.StringReading.{ContentAt, ContentFault};

use crate::fault::Fault;
use crate::read::escape::take_escape;
use crate::scan::prefix::strip_byte;
use crate::scan::run::{push_run, split_run};
use crate::scan::space::skip_space;
use ijson_string::{IString, StringCache};
use std::hash::BuildHasher;

/// Appends the content of a string from an escape on, and returns the text after the closing quote.
fn push_content<'a>(content: &mut String, text: &'a str) -> Result<&'a str, Fault>
    requires escape { Past is_unescaped text.now }
    requires unclosed { (behind : List ℕ) → text.now ≢ 34 ∷ behind }
    ensures read { IfOk result (λ rest. (s : List ℕ) × ContentAt text.now s rest.now
        × (string_bytes content.new ≡ string_bytes content.old ++ s)) }
    ensures fault { IfErr result (λ fault. ContentFault text.now fault) }
{
    let mut left = text;
    loop {
        let Some((character, more)) = take_escape(left) else {
            return Err(Fault::Syntax { left: left.len() });
        };
        content.push(character)?;
        let after = push_run(content, more)?;
        if let Some(rest) = strip_byte(after, b'"') {
            return Ok(rest);
        }
        left = after;
    }
}

/// Returns the content of a string and the text after the closing quote.
///
/// `inside` is the text after the opening quote. If the string has an escape, its content is built
/// in `content`, which is overwritten.
#[inline(always)]
fn read_content<'a: 'c, 'c>(
    content: &'c mut String,
    inside: &'a str,
) -> Result<(&'c str, &'a str), Fault>
    ensures { MatchResult result
        (λ x. ContentAt inside.now x.0.now x.1.now)
        (λ fault. ContentFault inside.now fault) }
{
    let (run, after) = split_run(inside, 0);
    if let Some(rest) = strip_byte(after, b'"') {
        return Ok((run, rest));
    }
    content.clear();
    content.push_str(run)?;
    let rest = push_content(content, after)?;
    Ok((content.as_str(), rest))
}

/// Reads the leading string and interns it in `cache`. Returns the string and the text after it.
///
/// `content` is the buffer of `read_content`.
pub(crate) fn read_string<'a, S: BuildHasher>(
    cache: &mut StringCache<S>,
    content: &mut String,
    text: &'a str,
) -> Result<(IString, &'a str), Fault>
    ensures read { MatchResult result
        (λ x. Front (λ front. IsString x.0 front) text.now x.1.now)
        (λ fault. StringFault text.now fault) }
    ensures cache { IfOk result (λ x. cache.new ≡ interned x.0 cache.old) }
    ensures refused { OnErr result (cache.new ≡ cache.old) }
{
    let Some(inside) = strip_byte(text, b'"') else {
        return Err(Fault::Syntax { left: text.len() });
    };
    let (text, rest) = read_content(content, inside)?;
    let string = IString::intern(cache, text)?;
    Ok((string, rest))
}

/// Reads the leading key, its `:` and white space. Returns the key and the text after the white
/// space.
///
/// `content` is the buffer of `read_content`.
pub(crate) fn read_key<'a, S: BuildHasher>(
    cache: &mut StringCache<S>,
    content: &mut String,
    text: &'a str,
) -> Result<(IString, &'a str), Fault>
    ensures { ReadsKey text.now result cache.old cache.new }
{
    let (key, after) = read_string(cache, content, text)?;
    let after = skip_space(after);
    match strip_byte(after, b':') {
        Some(more) => Ok((key, skip_space(more))),
        None => {
            drop(key);
            Err(Fault::Syntax { left: after.len() })
        }
    }
}
