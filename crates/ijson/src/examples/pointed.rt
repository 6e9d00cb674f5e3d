//! Prints the value at a JSON Pointer in a JSON text. A syntax error is reported with its line and
//! column.
ghost use Rattle.std.specs.Prelude.{◌≡◌, ◌≢◌, Err, IfOk, Some};
ghost use Rattle.std.specs.String.{string_bytes};
ghost use Rattle.ijson_extra.specs.LendsResolved.{unresolved};
ghost use Rattle.ijson_extra.specs.Pointer.{resolved};
ghost use Rattle.ijson_extra.specs.declared.pointer.lend.Unresolved.{Unresolved};
ghost use Rattle.ijson_json.specs.Grammar.{Accepted};
ghost use Rattle.ijson_json.specs.Located.{Locates};
ghost use Rattle.ijson_json.specs.Refuses.{Refuses};
ghost use Rattle.ijson_json.specs.declared.fault.JsonError.{JsonError};
ghost use Rattle.ijson_json.specs.declared.located.LocatedError.{LocatedError};
ghost use Rattle.ijson_json.specs.Print.{print};
ghost use Rattle.ijson_value.specs.Tree.{Tree};

use super::empty_cache;
use crate::json::{LocatedError, from_json, to_json};
use crate::pointer::{Unresolved, resolve};
use crate::string::StringCache;
use crate::value::IValue;
use std::alloc::{AllocError, Global};
use std::hash::BuildHasher;
use std::process::Abort;

/// The reason why the value was not printed.
#[derive(Clone, Copy, Debug, Drop, PartialEq, Eq)]
enum PointedError {
    /// The text is not JSON, or exceeds a limit.
    Text(LocatedError),
    /// The pointer does not refer to a value, or is not a JSON Pointer.
    Pointer(Unresolved),
    /// An allocation failed.
    Memory,
}

/// Returns the JSON text of the value that `pointer` refers to in `value`.
fn pointed_in(alloc: Global, value: &IValue, pointer: &str) -> Result<String, PointedError>
    ensures found { IfOk result (λ out. (t : Tree)
        × (resolved value.now.tree pointer.now ≡ Some (Some t)) × (string_bytes out ≡ print t)) }
    ensures missing { (why : Unresolved) → result ≡ Err (PointedError.Pointer why)
        → resolved value.now.tree pointer.now ≡ unresolved why }
    ensures read { (why : LocatedError) → result ≢ Err (PointedError.Text why) }
{
    let found = match resolve(value, pointer) {
        Ok(Some(found)) => found,
        Ok(None) => return Err(PointedError::Pointer(Unresolved::Nothing)),
        Err(why) => return Err(PointedError::Pointer(Unresolved::NoPointer(why))),
    };
    match to_json(alloc, found) {
        Ok(text) => Ok(text),
        Err(_) => Err(PointedError::Memory),
    }
}

/// Parses `text` and returns the JSON text of the value that `pointer` refers to.
fn pointed<S: BuildHasher>(
    alloc: Global,
    cache: &mut StringCache<S>,
    text: &str,
    pointer: &str,
) -> Result<String, PointedError>
    ensures found { IfOk result (λ out. (tree : Tree) × Accepted text.now tree × (t : Tree)
        × (resolved tree pointer.now ≡ Some (Some t)) × (string_bytes out ≡ print t)) }
    ensures missing { (why : Unresolved) → result ≡ Err (PointedError.Pointer why)
        → (tree : Tree) × Accepted text.now tree × (resolved tree pointer.now ≡ unresolved why) }
    ensures refused { (why : LocatedError) → result ≡ Err (PointedError.Text why)
        → (error : JsonError) × Refuses text.now error × Locates text.now error why }
{
    match from_json(alloc, cache, text) {
        Ok(value) => Ok(pointed_in(alloc, &value, pointer)?),
        Err(error) => Err(PointedError::Text(error.locate(text))),
    }
}

/// JSON texts, pointers, and the output or error message.
static POINTED: [(&str, &str, &str); 8] = [
    ("{\"server\":{\"port\":8080}}", "/server/port", "8080"),
    ("[1,[2.50]]", "/1", "[2.5]"),
    ("{}", "/a", "the JSON Pointer refers to no value"),
    ("{}", "a", "not a JSON Pointer"),
    ("{\n\"b\": 01}", "", "syntax at line 2, column 7"),
    ("[\"\u{e9}\" 1]", "", "syntax at line 1, column 6"),
    (
        "[[[[[[[[[[[[[[[[[[[[[[[[[[[[[[[[[[[[[[[[[[[[[[[[[[[[[[[[[[[[[[[[\
        [[[[[[[[[[[[[[[[[[[[[[[[[[[[[[[[[[[[[[[[[[[[[[[[[[[[[[[[[[[[[[[[",
        "",
        "nesting too deep at line 1, column 128",
    ),
    (
        "[\n\n1e2000000000]",
        "",
        "number out of range at line 3, column 1",
    ),
];

/// Returns the JSON text, or the message of the error.
fn answer(rt: &impl Abort, alloc: Global, found: Result<String, PointedError>) -> String {
    let message = match found {
        Ok(text) => Ok(text),
        Err(PointedError::Text(error)) => error.to_string(alloc),
        Err(PointedError::Pointer(why)) => why.to_string(alloc),
        Err(PointedError::Memory) => Err(AllocError),
    };
    message.expect(rt, "memory")
}

#[test]
fn values_are_pointed_at(rt: HostRuntime) {
    for &(text, pointer, want) in &POINTED {
        let mut cache = empty_cache(rt.alloc());
        let found = pointed(rt.alloc(), &mut cache, text, pointer);
        assert!(rt;
            answer(&rt, rt.alloc(), found).as_str() == want,
            "{text} {pointer}"
        );
    }
}
