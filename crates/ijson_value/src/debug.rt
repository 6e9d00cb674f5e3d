//! Debug output of values, arrays and objects: their content as JSON, with strings escaped as by
//! `str`.

use crate::array::IArray;
use crate::object::IObject;
use crate::value::{Destructured, IValue};
use std::fmt;

/// Formats a value as JSON, except that strings are escaped as by the `Debug` of `str`.
///
/// For valid JSON, use `to_json` of `ijson_json`.
impl fmt::Debug for IValue {
    #[cycle(debug)]
    fn fmt<W: fmt::Write>(&self, f: &mut fmt::Formatter<W>) -> fmt::Result {
        match &self.node {
            Destructured::Null => f.write_str("null"),
            Destructured::Bool(b) => fmt::Debug::fmt(b, f),
            Destructured::Number(number) => fmt::Debug::fmt(number, f),
            Destructured::String(text) => fmt::Debug::fmt(text, f),
            Destructured::Array(array) => fmt::Debug::fmt(array, f),
            Destructured::Object(object) => fmt::Debug::fmt(object, f),
        }
    }
}

/// Formats the array like an `IValue` that contains it.
impl fmt::Debug for IArray {
    #[cycle(debug)]
    fn fmt<W: fmt::Write>(&self, f: &mut fmt::Formatter<W>) -> fmt::Result {
        let mut list = f.debug_list();
        for item in self.as_slice() {
            list.entry(item);
        }
        list.finish()
    }
}

/// Formats the object like an `IValue` that contains it.
impl fmt::Debug for IObject {
    #[cycle(debug)]
    fn fmt<W: fmt::Write>(&self, f: &mut fmt::Formatter<W>) -> fmt::Result {
        let mut map = f.debug_map();
        for pair in self.as_slice() {
            map.entry(&pair.0, &pair.1);
        }
        map.finish()
    }
}
