//! `StoredSlot`: the representations of a slot.

ghost use Rattle.std.specs.Prelude.{◌≡◌, ℕ, ◌<◌, ◌^◌};
ghost use Rattle.ijson_table.specs.declared.slot.Slot.{Slot};

use crate::slot::Slot;

/// A representation of a slot. A narrow representation cannot represent every slot.
pub trait StoredSlot {
    /// The represented slot.
    ghost stands_for: { Self → Slot };

    /// The type represents only slots with a code below this limit.
    ghost code_limit: { ℕ };

    /// The type represents only slots with a hash below this limit.
    ghost hash_limit: { ℕ };

    /// Returns the representation of a slot.
    fn stored(slot: Slot) -> Self
        requires code { slot.code < code_limit }
        requires hash { slot.hash < hash_limit }
        ensures { stands_for result ≡ slot };

    /// Returns the represented slot.
    fn widened(self) -> Slot
        ensures value { result ≡ stands_for self }
        ensures code { result.code < code_limit }
        ensures hash { result.hash < hash_limit };
}

/// A slot represents itself.
impl StoredSlot for Slot {
    ghost stands_for = { λ s. s };

    ghost code_limit = { 2 ^ 64 };

    ghost hash_limit = { 2 ^ 64 };

    #[inline(always)]
    fn stored(slot: Slot) -> Slot {
        slot
    }

    #[inline(always)]
    fn widened(self) -> Slot {
        self
    }
}
