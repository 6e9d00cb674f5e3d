//! Helpers for copying an object, which need the private fields of `IObject`.
ghost use Rattle.std.specs.Prelude.{◌≡◌, IfOk, IsOk, length};
ghost use Rattle.ijson_table.specs.Store.{keys_of};

use crate::object::map::IObject;
use crate::value::IValue;
use ijson_string::IString;
use std::alloc::{AllocError, Global};

impl IObject {
    /// Returns the allocator of the object.
    pub(crate) fn allocator(&self) -> Global {
        self.alloc
    }

    /// Creates an object from `pairs`, which must have the keys of `self` in the same order.
    ///
    /// The capacity of the new object is its length. An empty object does not allocate. If `self`
    /// has no spare capacity, no key is hashed. Otherwise each key is hashed once, or twice if many
    /// keys collide.
    pub(crate) fn with_same_keys(
        &self,
        pairs: Vec<(IString, IValue)>,
    ) -> Result<IObject, AllocError>
        requires { keys_of pairs.items ≡ keys_of self.now.pairs }
        ensures pairs { IfOk result (λ copy. copy.pairs ≡ pairs.items) }
        ensures capacity { IfOk result (λ copy. copy.capacity ≡ length pairs.items) }
        ensures none { length pairs.items ≡ 0 → IsOk result }
    {
        match &self.table {
            Some(table) if !pairs.is_empty() => {
                let table = table.with_same_keys(self.alloc, pairs)?;
                let table = Box::new(self.alloc, table)?;
                Ok(IObject {
                    table: Some(table),
                    alloc: self.alloc,
                })
            }
            _ => Ok(IObject::new(self.alloc)),
        }
    }
}
