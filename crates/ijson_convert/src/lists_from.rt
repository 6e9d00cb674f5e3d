//! `FromIValue` for lists.
ghost use Rattle.std.specs.Prelude.{All};
ghost use Rattle.ijson_convert.specs.ListTree.{list_tree};
ghost use Rattle.ijson_convert.specs.Refused.{ListRefused};
ghost use Rattle.ijson_convert.specs.laws.Complete.{list_complete};

use crate::convert_error::ConvertError;
use crate::from_ivalue::FromIValue;
use ijson_value::value::{DestructuredRef, IValue};
use std::alloc::Global;

/// Reads the elements of an array in order. The list is allocated once.
impl<T: FromIValue + Drop> FromIValue for Vec<T> {
    ghost tree = { λ list. list_tree T.FromIValue.tree list.items };

    ghost refused = { ListRefused T.FromIValue.refused };

    ghost in_range = { λ list. All T.FromIValue.in_range list.items };

    ghost null_is_none = { λ list. All T.FromIValue.null_is_none list.items };

    fn from_ivalue(alloc: Global, value: &IValue) -> Result<Vec<T>, ConvertError> {
        let DestructuredRef::Array(items) = value.destructure_ref() else {
            return Err(ConvertError::WrongKind);
        };
        let mut list = Vec::with_capacity(alloc, items.len())?;
        for item in items.as_slice() {
            list.push_reserved(T::from_ivalue(alloc, item)?);
        }
        Ok(list)
    }

    ghost complete = { λ list. list_complete T.FromIValue.tree T.FromIValue.refused
        T.FromIValue.in_range T.FromIValue.complete list.items };
}
