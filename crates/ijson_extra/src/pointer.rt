//! JSON Pointer (RFC 6901): finds a value inside a value by a path.
ghost use Rattle.std.specs.Prelude.{◌≡◌, ◌<◌, ◌≤◌, ◌⊎◌, ◌∷◌, ℕ, List, [], length, Some, None, option_map, option_and_then};
ghost use Rattle.std.specs.Prelude.{is_some, Contains, IfOk, IfErr, IfSome, IfNone, IsTrue, IsFalse, ◌↔◌, slice_get};
ghost use Rattle.std.specs.Str.{all_ascii_digits};
ghost use Rattle.std.specs.Option.{option_copied};
ghost use Rattle.ijson_table.specs.Store.{at, lookup};
ghost use Rattle.ijson_value.specs.Tree.{Tree};
ghost use Rattle.ijson_value.specs.WellFormed.{tree_of};
ghost use Rattle.ijson_extra.specs.Pointer.{meant, written_tokens, tokens_of, position_named, names_position, child_at, resolved};
ghost use Rattle.ijson_extra.specs.private.Walked.{first_of};

mod lend;

use ijson_value::object::IObject;
use ijson_value::value::IValue;
use lend::{inside, names_itself, opened};
pub use lend::{Unresolved, resolve_mut, resolve_opened_mut};
use thiserror::Error;

/// The reason why a pointer is invalid.
#[derive(Clone, Copy, PartialEq, Eq, Debug, Drop, Error)]
pub enum PointerError {
    /// The text is not a JSON Pointer.
    ///
    /// The text is not empty and does not begin with `/`, or it contains a `~` that is not followed
    /// by `0` or `1`.
    #[error("not a JSON Pointer")]
    Syntax,
}

/// Returns the value that `pointer` refers to in `value` (RFC 6901), or `None` if it does not
/// exist.
///
/// The empty pointer refers to `value` itself. Does not allocate.
///
/// ```
/// // In {"servers":[{"port":80}]}, the result is `Some` of 80. With "/servers/1", it is `None`.
/// let port = resolve(&value, "/servers/0/port")?;
/// let slash = resolve(&value, "/a~1b")?; // the value of the key a/b, as ~1 means / and ~0 means ~
/// ```
///
/// # Errors
///
/// Fails if `pointer` is not a JSON Pointer, even if a token before the invalid token refers to
/// nothing.
///
/// # Cost
///
/// One hash lookup or one index per token. A token with `~` is compared with the keys of the object
/// sequentially.
pub fn resolve<'a>(value: &'a IValue, pointer: &str) -> Result<Option<&'a IValue>, PointerError>
    ensures found { IfOk result (λ found.
        Some (option_map (λ inner. inner.now.tree) found) ≡ resolved value.now.tree pointer.now) }
    ensures refused { IfErr result (λ _. resolved value.now.tree pointer.now ≡ None) }
{
    if pointer.is_empty() {
        return Ok(Some(value));
    }
    let Some(mut left) = after_slash(pointer) else {
        return Err(PointerError::Syntax);
    };
    let mut found = Some(value);
    loop {
        let (token, behind) = split_token(left);
        found = step(found, token)?;
        let Some(behind) = behind else {
            return Ok(found);
        };
        left = behind;
    }
}

/// Returns `pointer` without its leading `/`, or `None` if it does not begin with `/`.
fn after_slash(pointer: &str) -> Option<&str>
    ensures some { IfSome result (λ left. pointer.now ≡ 47 ∷ left.now) }
    ensures none { IfNone result (pointer.now ≡ [] ⊎ tokens_of pointer.now ≡ None) }
{
    pointer.strip_prefix('/')
}

/// Returns the first token of `left`, and the text after the next `/`, if any.
fn split_token(left: &str) -> (&str, Option<&str>)
    ensures first { result.0.now ≡ first_of left.now }
    ensures some { IfSome result.1 (λ behind. (length behind.now < length left.now)
        × (written_tokens left.now ≡ first_of left.now ∷ written_tokens behind.now)) }
    ensures none { IfNone result.1 (written_tokens left.now ≡ first_of left.now ∷ []) }
{
    match left.split_once('/') {
        Some((token, behind)) => (token, Some(behind)),
        None => (left, None),
    }
}

/// JSON Pointers (RFC 6901) as methods. Import the trait to call them.
pub trait Pointer {
    /// The JSON tree of a value.
    ghost tree: { Self → Tree };

    ghost use Rattle.std.specs.Prelude.{◌≡◌, option_map, option_and_then};
    ghost use Rattle.std.specs.Borrow.{sem};
    ghost use Rattle.ijson_extra.specs.LendsNamedValue.{LendsPointed};
    ghost use Rattle.ijson_extra.specs.Pointer.{resolved};

    /// Returns the value that `pointer` refers to, or `None` if it does not exist.
    ///
    /// Also returns `None` if `pointer` is not a JSON Pointer. To distinguish an invalid pointer
    /// from a missing value, call `resolve`.
    ///
    /// ```
    /// let port = value.pointer("/servers/0/port"); // Some of 80 in {"servers":[{"port":80}]}
    /// ```
    ///
    /// # Cost
    ///
    /// Like `resolve`.
    fn pointer(&self, pointer: &str) -> Option<&IValue>
        ensures { option_map (λ found. found.now.tree) result
            ≡ option_and_then (λ found. found) (resolved (tree self.now) pointer.now) };

    /// Returns a mutable reference to the value that `pointer` refers to, or `None` if it does not
    /// exist.
    ///
    /// Also returns `None` if `pointer` is not a JSON Pointer. Writing changes only this value.
    ///
    /// ```
    /// if let Some(port) = value.pointer_mut("/servers/0/port") {
    ///     *port = IValue::from(8080u64);
    /// }
    /// ```
    ///
    /// # Cost
    ///
    /// Like `resolve_mut`.
    fn pointer_mut(&mut self, pointer: &str) -> Option<&mut IValue>
        ensures* writes_back { sem 𝓛 (LendsPointed Self.row tree self.entry pointer.now result) }
        ensures value { option_map (λ found. found.now.tree) result
            ≡ option_and_then (λ found. found) (resolved (tree self.old) pointer.now) };
}

/// Resolves pointers like `resolve` and `resolve_mut`.
impl Pointer for IValue {
    ghost tree = { λ value. value.tree };

    fn pointer(&self, pointer: &str) -> Option<&IValue> {
        match resolve(self, pointer) {
            Ok(found) => found,
            Err(_) => None,
        }
    }

    fn pointer_mut(&mut self, pointer: &str) -> Option<&mut IValue> {
        if names_itself(pointer) {
            return Some(self);
        }
        inside(opened(self), pointer)
    }
}

/// Returns the child of `found` that `token` refers to, or `None` if `found` or the child is
/// missing.
///
/// Fails if `token` has an invalid escape.
fn step<'a>(found: Option<&'a IValue>, token: &str) -> Result<Option<&'a IValue>, PointerError>
    ensures found { IfOk result (λ inner. (m : List ℕ) × (meant token.now ≡ Some m)
        × (option_map (λ v. v.now.tree) inner
        ≡ option_and_then (λ t. child_at t m) (option_map (λ v. v.now.tree) found.entry))) }
    ensures refused { IfErr result (λ _. meant token.now ≡ None) }
{
    if !is_token(token) {
        return Err(PointerError::Syntax);
    }
    match found {
        Some(value) => Ok(child(value, token)),
        None => Ok(None),
    }
}

/// Splits off the first byte that a written token means: an escape means one byte.
///
/// Returns `None` if `written` is empty or begins with a `~` that is not an escape.
fn split_meant(written: &[u8]) -> Option<(u8, &[u8])>
    ensures some { IfSome result (λ taken. (length taken.1.now < length written.now)
        × (meant written.now ≡ option_map (λ token. taken.0 ∷ token) (meant taken.1.now))) }
    ensures none { IfNone result (meant written.now ≡ None ⊎ written.now ≡ []) }
{
    match written {
        [b'~', b'0', rest @ ..] => Some((b'~', rest)),
        [b'~', b'1', rest @ ..] => Some((b'/', rest)),
        [b'~', ..] => None,
        [byte, rest @ ..] => Some((*byte, rest)),
        [] => None,
    }
}

/// Returns `true` if each `~` of `token` begins an escape: `~0` or `~1`.
#[tactic(auto, using(crate::proofs::Pointers::none_left))]
fn is_token(token: &str) -> bool
    ensures { result ≡ is_some (meant token.now) }
{
    let mut left = token.as_bytes();
    while let Some((_, rest)) = split_meant(left) {
        left = rest;
    }
    left.is_empty()
}

/// Returns `true` if `token` means `key`. Decodes the token byte by byte and does not allocate.
fn means(token: &str, key: &str) -> bool
    ensures { IsTrue result ↔ (meant token.now ≡ Some key.now) }
{
    let mut left = token.as_bytes();
    for byte in key.as_bytes() {
        let Some((first, rest)) = split_meant(left) else {
            return false;
        };
        if first != *byte {
            return false;
        }
        left = rest;
    }
    left.is_empty()
}

/// Returns the child of `value` that `token` refers to, or `None` if it does not exist.
fn child<'a>(value: &'a IValue, token: &str) -> Option<&'a IValue>
    ensures { (m : List ℕ) → meant token.now ≡ Some m
        → option_map (λ v. v.now.tree) result ≡ child_at value.now.tree m }
{
    if let Some(array) = value.as_array() {
        return item(array.as_slice(), token);
    }
    member(value.as_object()?, token)
}

/// Returns the value of the key that `token` means.
fn member<'a>(object: &'a IObject, token: &str) -> Option<&'a IValue>
    ensures { (m : List ℕ) → meant token.now ≡ Some m
        → option_copied result ≡ lookup m object.now.pairs }
{
    if !has_escape(token) {
        return object.get(token);
    }
    match find_member(object, token) {
        Some((_, value)) => Some(value),
        None => None,
    }
}

/// Returns `true` if `token` contains a `~`. A token without `~` means itself.
fn has_escape(token: &str) -> bool
    ensures escape { IsTrue result → Contains token.now 126 }
    ensures itself { IsFalse result → meant token.now ≡ Some token.now }
{
    token.contains('~')
}

/// Returns the index and the value of the key that `token` means.
///
/// Compares the token with each key sequentially. A token without `~` is a key and can be looked up
/// by its hash instead.
fn find_member<'a>(object: &'a IObject, token: &str) -> Option<(usize, &'a IValue)>
    requires { Contains token.now 126 }
    ensures position { option_map (λ found. found.0) result
        ≡ option_and_then (at object.now.pairs) (meant token.now) }
    ensures value { option_map (λ found. found.1.now) result
        ≡ option_and_then (λ m. lookup m object.now.pairs) (meant token.now) }
{
    for (position, (key, value)) in object.iter().enumerate() {
        if means(token, key.as_str()) {
            return Some((position, value));
        }
    }
    None
}

/// Returns the element at the index that `token` denotes.
fn item<'a>(items: &'a [IValue], token: &str) -> Option<&'a IValue>
    ensures { option_map (λ v. v.now.tree) result
        ≡ option_map tree_of (option_and_then (slice_get items.now) (position_named token.now)) }
{
    match position_below(token, items.len()) {
        Some(position) => Some(&items[position]),
        None => None,
    }
}

/// Returns the index that `token` denotes, if it is less than `count`.
fn position_below(token: &str, count: usize) -> Option<usize>
    ensures some { IfSome result (λ position. (position_named token.now ≡ Some position) × (position < count)) }
    ensures none { IfNone result ((position : ℕ) → position_named token.now ≡ Some position → count ≤ position) }
{
    if !is_position(token.as_bytes()) {
        return None;
    }
    // A number that does not fit a `usize` exceeds any count.
    let Ok(position) = token.parse::<usize>() else {
        return None;
    };
    if position < count {
        Some(position)
    } else {
        None
    }
}

/// Returns `true` if `token` is `0`, or digits without a leading zero.
fn is_position(token: &[u8]) -> bool
    ensures { result ≡ names_position token.now }
{
    match token {
        [] => false,
        [_] => all_digits(token),
        [first, _, ..] => *first != b'0' && all_digits(token),
    }
}

/// Returns `true` if all bytes are ASCII digits.
fn all_digits(bytes: &[u8]) -> bool
    ensures { result ≡ all_ascii_digits bytes.now }
{
    for byte in bytes {
        if !byte.is_ascii_digit() {
            return false;
        }
    }
    true
}
