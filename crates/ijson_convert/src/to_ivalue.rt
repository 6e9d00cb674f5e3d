//! `ToIValue`: conversions to JSON values.
ghost use Rattle.std.specs.Prelude.{◌≡◌, OnOk, IfOk, IfErr};
ghost use Rattle.ijson_value.specs.Tree.{Tree};
ghost use Rattle.ijson_convert.specs.Interned.{all_interned, SomeInterned};
ghost use Rattle.ijson_convert.specs.TextsOf.{texts_of};
ghost use Rattle.ijson_convert.specs.declared.convert_error.ConvertError.TheVariants.{Memory};

use crate::convert_error::ConvertError;
use ijson_string::StringCache;
use ijson_value::value::IValue;
use std::alloc::Global;
use std::hash::BuildHasher;

/// A type that can be converted to a JSON value.
///
/// Implemented for `bool`, the integers of up to 64 bits, `&str`, `String`, `IValue`, `INumber`,
/// `IString`, `IArray` and `IObject`. If `T` implements `ToIValue`, so do `Option<T>` (`None` is
/// null), `&[T]`, `[T; N]`, `Vec<T>`, `BTreeMap<String, T>`, `IndexMap<String, T>`, and tuples of
/// two to four such types. Values and their parts are copied.
pub trait ToIValue {
    /// The JSON tree of a Rust value.
    ghost tree: { Self → Tree };

    ghost use Rattle.std.specs.Prelude.{◌≡◌, OnOk, IfOk, IfErr};
    ghost use Rattle.ijson_convert.specs.Interned.{all_interned, SomeInterned};
    ghost use Rattle.ijson_convert.specs.TextsOf.{texts_of};
    ghost use Rattle.ijson_convert.specs.declared.convert_error.ConvertError.TheVariants.{Memory};

    /// Converts `self` to a JSON value. Strings and keys are interned in `cache`, in order.
    ///
    /// # Errors
    ///
    /// Returns `Memory` if an allocation fails or the capacity of an object would exceed `2 ^ 56`.
    /// Some leading strings and keys may then be in `cache`.
    fn to_ivalue<S: BuildHasher>(
        &self,
        alloc: Global,
        cache: &mut StringCache<S>,
    ) -> Result<IValue, ConvertError>
        ensures tree { IfOk result (λ value. value.tree ≡ tree self.now) }
        ensures cache { OnOk result (cache.new ≡ all_interned (texts_of (tree self.now)) cache.old) }
        ensures refused { IfErr result (λ e.
            (e ≡ Memory) × SomeInterned (texts_of (tree self.now)) cache.old cache.new) };
}

/// Converts `x` to a JSON value.
///
/// Strings and keys are interned in `cache`, in order.
///
/// ```
/// let sizes = to_value(alloc, &mut cache, &vec![in alloc; 1u8, 2]?)?; // [1,2]
/// ```
///
/// # Errors
///
/// Returns `Memory` if an allocation fails or the capacity of an object would exceed `2 ^ 56`. Some
/// leading strings and keys may then be in `cache`.
///
/// # Cost
///
/// Linear in the value, plus hash lookups of keys and strings. If many keys of an object collide,
/// the time for its n entries is n log n. Each list and map is traversed once, and each array and
/// object is allocated once, with its final capacity.
pub fn to_value<T: ToIValue, S: BuildHasher>(
    alloc: Global,
    cache: &mut StringCache<S>,
    x: &T,
) -> Result<IValue, ConvertError>
    ensures tree { IfOk result (λ value. value.tree ≡ T.ToIValue.tree x.now) }
    ensures cache { OnOk result
        (cache.new ≡ all_interned (texts_of (T.ToIValue.tree x.now)) cache.old) }
    ensures refused { IfErr result (λ e.
        (e ≡ Memory) × SomeInterned (texts_of (T.ToIValue.tree x.now)) cache.old cache.new) }
{
    x.to_ivalue(alloc, cache)
}
