//! `NarrowSlot`: a slot of three bytes, for a table with few slots.

ghost use Rattle.ijson_table.specs.private.Narrow.{widened};

use crate::slot::Slot;
use crate::slot::stored::StoredSlot;

/// A slot of a table with few slots, with a code below 2^8 and a hash below 2^16.
#[derive(Clone, Copy, Drop)]
pub struct NarrowSlot {
    code: u8,
    /// The hash modulo 256.
    low: u8,
    /// The hash divided by 256.
    high: u8,
}

impl NarrowSlot {
    /// The empty slot.
    pub const EMPTY: NarrowSlot = NarrowSlot {
        code: 0,
        low: 0,
        high: 0,
    };
}

/// Represents a slot in three bytes.
impl StoredSlot for NarrowSlot {
    ghost stands_for = { widened };

    ghost code_limit = { 256 };

    ghost hash_limit = { 65536 };

    #[inline(always)]
    fn stored(slot: Slot) -> NarrowSlot {
        NarrowSlot {
            code: slot.code as u8,
            low: (slot.hash % 256) as u8,
            high: (slot.hash / 256) as u8,
        }
    }

    #[inline(always)]
    fn widened(self) -> Slot {
        Slot {
            code: usize::from(self.code),
            hash: u64::from(self.low) + 256 * u64::from(self.high),
        }
    }
}
