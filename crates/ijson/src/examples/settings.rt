//! Overlays settings on defaults: an entry of the settings replaces the default of the same key.
ghost use Rattle.std.specs.Prelude.{◌≡◌, ◌≢◌, ◌⊎◌, ℕ, List, IfOk, IsFalse, IsTrue, OnErr};
ghost use Rattle.std.specs.Option.{option_or};
ghost use Rattle.ijson_value.specs.Kind.{kind_of};
ghost use Rattle.ijson_value.specs.Step.{by_key, tree_at};
ghost use Rattle.ijson_value.specs.declared.value.ValueType.TheVariants.{Object};

use super::{is_written, parsed};
use crate::IValue;
use crate::object::RefusedPair;
use std::alloc::Global;
use std::process::Abort;

/// Inserts each setting of `over` into `base`. All other settings of `base` are unchanged.
///
/// Returns `false` if `base` or `over` is not an object, and leaves `base` unchanged. The proof
/// (`proofs/examples/settings`) uses the lemma `at_key-over` of `ijson_value`.
///
/// # Errors
///
/// Returns the setting for which an allocation failed.
fn overlay(base: &mut IValue, over: IValue) -> Result<bool, RefusedPair>
    ensures laid_over { IfOk result (λ done. IsTrue done → (key : List ℕ)
        → tree_at base.new.tree (by_key key)
        ≡ option_or (tree_at over.tree (by_key key)) (tree_at base.old.tree (by_key key))) }
    ensures objects { IfOk result (λ done. IsTrue done
        → (kind_of base.old.tree ≡ Object) × (kind_of over.tree ≡ Object)) }
    ensures left { IfOk result (λ done. IsFalse done
        → (base.new ≡ base.old) × ((kind_of base.old.tree ≢ Object) ⊎ (kind_of over.tree ≢ Object))) }
    ensures refused { OnErr result ((kind_of base.old.tree ≡ Object) × (kind_of over.tree ≡ Object)) }
{
    let Ok(over) = over.into_object() else {
        return Ok(false);
    };
    let Some(base) = base.as_object_mut() else {
        return Ok(false);
    };
    base.overlay(over)?;
    Ok(true)
}

/// JSON texts of the defaults, the settings and the result, and whether both are objects.
static LAID_OVER: [(&str, &str, &str, bool); 5] = [
    (
        "{\"a\":1,\"b\":2}",
        "{\"b\":3,\"c\":4}",
        "{\"a\":1,\"b\":3,\"c\":4}",
        true,
    ),
    ("{}", "{\"b\":3}", "{\"b\":3}", true),
    ("{\"b\":3}", "{}", "{\"b\":3}", true),
    ("[1]", "{\"b\":3}", "[1]", false),
    ("{\"b\":3}", "null", "{\"b\":3}", false),
];

/// Overlays the JSON text `over` on `base`. Returns the value and the result of the call.
fn laid_over(rt: &impl Abort, alloc: Global, base: &str, over: &str) -> (IValue, bool) {
    let mut value = parsed(rt, alloc, base);
    let done = overlay(&mut value, parsed(rt, alloc, over)).expect(rt, "room");
    (value, done)
}

#[test]
fn settings(rt: HostRuntime) {
    for &(base, over, want, are_objects) in &LAID_OVER {
        let (value, done) = laid_over(&rt, rt.alloc(), base, over);
        assert!(rt; done == are_objects);
        is_written(&rt, rt.alloc(), &value, want);
        drop(value);
    }
}
