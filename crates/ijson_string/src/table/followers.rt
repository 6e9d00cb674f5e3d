//! `Followers`: a prediction of the next string, from which string followed which.
ghost use Rattle.std.specs.Prelude.{◌≡◌, ℕ};
ghost use Rattle.ijson_string.specs.private.Followers.{followed_by, no_followers};

/// The number of slots.
const FOLLOWER_SLOTS: usize = 128;

/// The index of a string, and its length, capped at `u32::MAX`.
#[derive(Clone, Copy, Drop)]
pub(super) struct Follower {
    pub(super) position: u32,
    pub(super) len: u32,
}

/// The content of a slot that was never written. No string of a table has length 0.
const NONE: Follower = Follower {
    position: 0,
    len: 0,
};

/// Predicts the next string from which string followed which, among strings that repeat.
///
/// The string at index `i` uses slot `i % FOLLOWER_SLOTS`. A slot stores the string that was last
/// found after a string of this slot. The content is only a prediction and can be outdated: a
/// lookup compares the string, and no result depends on the slots. New strings do not change a
/// slot, so that unique values between repeating keys do not disturb the prediction.
///
/// The slots take 1 KB, inline, so that a small cache needs no allocation for them.
#[derive(Drop)]
pub(crate) struct Followers {
    slots: [Follower; FOLLOWER_SLOTS],
    /// The index of the current string, which is the string that was found last.
    last: u32,
    /// The content of the slot of `last`, which predicts the next string.
    pub(super) next: Follower,
}

impl Followers {
    /// Creates a state without predictions.
    pub(crate) fn new() -> Followers
        ensures { result ≡ no_followers }
    {
        Followers {
            slots: [NONE; FOLLOWER_SLOTS],
            last: 0,
            next: NONE,
        }
    }

    /// Records that the string at `position` follows the current string, and makes it current.
    ///
    /// `len` is the length of the string at `position`.
    pub(crate) fn put(&mut self, position: u32, len: usize)
        ensures { self.new ≡ followed_by position len self.old }
    {
        let len = len.min(u32::MAX as usize) as u32;
        self.slots[self.last as usize % FOLLOWER_SLOTS] = Follower { position, len };
        self.last = position;
        self.next = self.slots[position as usize % FOLLOWER_SLOTS];
    }
}
