//! Mutable access to the value that a JSON Pointer refers to.
ghost use Rattle.std.specs.Prelude.{◌≡◌, ◌<◌, ◌↔◌, [], ◌∷◌, length, Some, None, IsTrue, IfOk, IfErr, IfSome, IfNone, is_some, option_map};
ghost use Rattle.std.specs.Borrow.{sem};
ghost use Rattle.ijson_value.specs.LendsPart.{LendsOpened};
ghost use Rattle.ijson_value.specs.NodeValue.{node_value};
ghost use Rattle.ijson_value.specs.Values.{array_tree, object_tree};
ghost use Rattle.ijson_extra.specs.LendsNamedValue.{LendsNamedValue};
ghost use Rattle.ijson_extra.specs.LendsResolved.{LendsResolved, unresolved};
ghost use Rattle.ijson_extra.specs.Pointer.{all_meant, tokens_of, written_tokens, resolved};
ghost use Rattle.ijson_extra.specs.private.Walked.{LendsNamedInside, LendsNamedItem, LendsNamedMember, LendsNamed};
ghost use Rattle.ijson_extra.specs.private.Walked.{tree_lent, node_tree, first_of, found_at, written_at};

use super::{
    Pointer, PointerError, after_slash, find_member, has_escape, is_token, position_below,
    split_token,
};
use ijson_value::array::IArray;
use ijson_value::object::IObject;
use ijson_value::value::{Destructured, IValue};
use thiserror::Error;

/// The reason why `resolve_opened_mut` failed.
#[derive(Clone, Copy, PartialEq, Eq, Debug, Drop, Error)]
pub enum Unresolved {
    /// The pointer does not refer to a value.
    #[error("the JSON Pointer refers to no value")]
    Nothing,
    /// The text is not a JSON Pointer.
    #[error("not a JSON Pointer")]
    NoPointer(PointerError),
}

/// Returns a mutable reference to the value that `pointer` refers to, or `None` if it does not
/// exist.
///
/// Resolves `pointer` like `resolve` (RFC 6901). Writing changes only this value.
///
/// If your contract describes the outer value after the write, call `resolve_opened_mut`: with
/// `resolve_mut`, such a contract has to be proved by hand.
///
/// ```
/// if let Some(port) = resolve_mut(&mut value, "/servers/0/port")? {
///     *port = IValue::from(8080u64);
/// }
/// ```
///
/// # Errors
///
/// Fails if `pointer` is not a JSON Pointer.
///
/// # Cost
///
/// Like `resolve`, plus up to two more passes over the pointer. Does not allocate. Recurses once
/// per token that refers to a value.
pub fn resolve_mut<'a>(
    value: &'a mut IValue,
    pointer: &str,
) -> Result<Option<&'a mut IValue>, PointerError>
    ensures* writes_back { sem 𝓛 (LendsNamedValue value.entry pointer.now result) }
    ensures found { IfOk result (λ found.
        Some (option_map (λ v. v.now.tree) found) ≡ resolved value.old.tree pointer.now) }
    ensures refused { IfErr result (λ _. resolved value.old.tree pointer.now ≡ None) }
{
    if is_pointer(pointer) {
        return Ok(value.pointer_mut(pointer));
    }
    Err(PointerError::Syntax)
}

/// Like `resolve_mut`, but returns the content of the value, and an error if it does not exist.
///
/// Call it if your contract describes the outer value after the write: the proof is automatic.
///
/// ```
/// *resolve_opened_mut(&mut value, "/servers/0/port")? = IValue::from(8080u64).destructure();
/// ```
///
/// # Errors
///
/// Returns `Nothing` if the pointer does not refer to a value, and `NoPointer` if it is not a JSON
/// Pointer.
pub fn resolve_opened_mut<'a>(
    value: &'a mut IValue,
    pointer: &str,
) -> Result<&'a mut Destructured, Unresolved>
    ensures* writes_back { sem 𝓛 (LendsResolved value.entry pointer.now result) }
    ensures found { IfOk result (λ opened.
        resolved value.old.tree pointer.now ≡ Some (Some (node_value opened.now).tree)) }
    ensures refused { IfErr result (λ why. resolved value.old.tree pointer.now ≡ unresolved why) }
{
    if pointer.is_empty() {
        return Ok(&mut **value);
    }
    match inside(&mut **value, pointer) {
        Some(found) => Ok(&mut **found),
        None if is_pointer(pointer) => Err(Unresolved::Nothing),
        None => Err(Unresolved::NoPointer(PointerError::Syntax)),
    }
}

/// Returns `true` if `pointer` is empty, so that it refers to the value itself.
pub(super) fn names_itself(pointer: &str) -> bool
    ensures { IsTrue result ↔ (pointer.now ≡ []) }
{
    pointer.is_empty()
}

/// Returns a mutable reference to the content of the value.
pub(super) fn opened(value: &mut IValue) -> &mut Destructured
    ensures* writes_back { sem 𝓛 (LendsOpened value.entry result) }
    ensures value { node_value result.now ≡ value.old }
{
    &mut **value
}

/// Returns a mutable reference to the value that `pointer` refers to. `pointer` is not empty.
pub(super) fn inside<'a>(opened: &'a mut Destructured, pointer: &str) -> Option<&'a mut IValue>
    requires { (pointer.now ≡ []) → ⊥ }
    ensures* writes_back { sem 𝓛 (LendsNamedInside opened.entry pointer.now result) }
    ensures value { tree_lent result ≡ found_at (node_tree opened.old) pointer.now }
{
    match after_slash(pointer) {
        Some(left) => walk(opened, left),
        None => None,
    }
}

/// Returns `true` if `pointer` is a JSON Pointer.
fn is_pointer(pointer: &str) -> bool
    ensures { result ≡ is_some (tokens_of pointer.now) }
{
    match after_slash(pointer) {
        Some(left) => are_tokens(left),
        None => pointer.is_empty(),
    }
}

/// Returns `true` if each `~` in `tokens` begins an escape.
fn are_tokens(tokens: &str) -> bool
    ensures { result ≡ is_some (all_meant (written_tokens tokens.now)) }
{
    let mut left = tokens;
    loop {
        let (token, behind) = split_token(left);
        if !is_token(token) {
            return false;
        }
        let Some(behind) = behind else {
            return true;
        };
        left = behind;
    }
}

/// Returns a mutable reference to the value that the tokens of `left` lead to.
///
/// Recurses once per token that refers to a value, so at most as often as the value's depth.
fn walk<'a>(from: &'a mut Destructured, left: &str) -> Option<&'a mut IValue>
    ensures* writes_back { sem 𝓛 (LendsNamedInside from.entry (47 ∷ left.now) result) }
    ensures value { tree_lent result ≡ found_at (node_tree from.old) (47 ∷ left.now) }
{
    let Some(found) = first_mut(from, left) else {
        return None;
    };
    let Some(behind) = behind_first(left) else {
        return Some(found);
    };
    walk(opened(found), behind)
}

/// Returns a mutable reference to the child that the first token of `left` refers to.
fn first_mut<'a>(opened: &'a mut Destructured, left: &str) -> Option<&'a mut IValue>
    ensures* writes_back { sem 𝓛 (LendsNamed opened.entry (first_of left.now) result) }
    ensures value { tree_lent result ≡ written_at (node_tree opened.old) (first_of left.now) }
{
    child_mut(opened, split_token(left).0)
}

/// Returns the text after the first token, or `None` if `left` consists of one token.
fn behind_first(left: &str) -> Option<&str>
    ensures some { IfSome result (λ behind. (length behind.now < length left.now)
        × (written_tokens left.now ≡ first_of left.now ∷ written_tokens behind.now)) }
    ensures none { IfNone result (written_tokens left.now ≡ first_of left.now ∷ []) }
{
    split_token(left).1
}

/// Returns a mutable reference to the child that `token` refers to.
fn child_mut<'a>(opened: &'a mut Destructured, token: &str) -> Option<&'a mut IValue>
    ensures* writes_back { sem 𝓛 (LendsNamed opened.entry token.now result) }
    ensures value { tree_lent result ≡ written_at (node_tree opened.old) token.now }
{
    match opened {
        Destructured::Array(array) => item_mut(array, token),
        Destructured::Object(object) => member_mut(object, token),
        _ => None,
    }
}

/// Returns a mutable reference to the element at the index that `token` denotes.
fn item_mut<'a>(array: &'a mut IArray, token: &str) -> Option<&'a mut IValue>
    ensures* writes_back { sem 𝓛 (LendsNamedItem array.entry token.now result) }
    ensures value { tree_lent result ≡ written_at (array_tree array.old.items) token.now }
{
    match position_below(token, array.len()) {
        Some(position) => Some(&mut array[position]),
        None => None,
    }
}

/// Returns a mutable reference to the value of the key that `token` means.
fn member_mut<'a>(object: &'a mut IObject, token: &str) -> Option<&'a mut IValue>
    ensures* writes_back { sem 𝓛 (LendsNamedMember object.entry token.now result) }
    ensures value { tree_lent result ≡ written_at (object_tree object.old.pairs) token.now }
{
    if !has_escape(token) {
        return object.get_mut(token);
    }
    match find_member(object, token) {
        Some((position, _)) => object.value_at_mut(position),
        None => None,
    }
}
