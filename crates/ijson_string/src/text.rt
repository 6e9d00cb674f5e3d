//! `IString`: a string that is compared, ordered and hashed by its bytes.
ghost use Rattle.std.specs.Prelude.{◌≡◌, ℕ, ◌-◌, ◌<◌, ◌≤◌, ◌==◌, List, [], length, take, drop, replicate, Some, nat_eq, refl, ◌↔◌};
ghost use Rattle.std.specs.Prelude.{IsTrue, IsUtf8, IfOk, IfSome, IsOk, IsSome, OnOk, OnErr};
ghost use Rattle.std.specs.Hash as fed;
ghost use Rattle.std.specs.List.{flat_map};
ghost use Rattle.std.specs.Ordering.{nat_cmp};
ghost use Rattle.std.specs.String.{string_bytes};
ghost use Rattle.std.specs.Cmp;
ghost use Rattle.std.specs.Cmp.Lexicographic.{pointwise, slice_cmp, nat_list_eq_equiv, nat_list_cmp_total, texts_po, texts_ties};
ghost use Rattle.std.specs.Cmp.Rules.{hashing};
ghost use Rattle.std.proofs.Common.{rules};
ghost use Rattle.ijson_string.specs.Cache.{interned};
ghost use Rattle.ijson_string.specs.Words.{text_words};

use crate::block::Block;
use crate::cache::StringCache;
use std::alloc::{AllocError, Global};
use std::cmp::Ordering;
use std::fmt;
use std::hash::{BuildHasher, Hash, Hasher};
use std::marker::Model;
use std::mem::size_of;
use std::rc::{Rc, RcStr};

/// An immutable UTF-8 string. The size of an `IString` is 16 bytes.
///
/// Up to 7 bytes are inline. A longer string is shared with its clones and with the cache that
/// interned it, and its last owner frees it. Equality, order and hash depend only on the bytes, not
/// on the cache.
#[derive(Drop)]
pub struct IString {
    stored: Stored,
}

/// A string, stored by its length.
///
/// - Up to 7 bytes: inline.
/// - Up to 71 bytes: in one allocation with the reference counts.
/// - More than 71 bytes: in two allocations.
#[derive(Drop)]
enum Stored {
    InPlace(Block<7>),
    UpTo23(Rc<Block<23>>),
    UpTo39(Rc<Block<39>>),
    UpTo55(Rc<Block<55>>),
    UpTo71(Rc<Block<71>>),
    Long(RcStr),
}

const _: () = prove!(size_of::<IString>() == 16);

impl Model for IString {
    ghost use Rattle.std.specs.Prelude.{List, ℕ};

    ghost Value = { List ℕ };

    ghost use Rattle.ijson_string.specs.private.Stored.{stored_bytes, IsStoredByLength};

    ghost view = { λ s. stored_bytes s.stored };

    ghost invariant = { λ s. IsStoredByLength s.stored };
}

impl IString {
    /// Creates an empty string. Does not allocate.
    pub fn new() -> IString
        ensures { result ≡ [] }
    {
        IString {
            stored: Stored::InPlace(Block::inline("")),
        }
    }

    /// Returns `text` as an inline string if it has up to 7 bytes, otherwise as a string shared
    /// through `cache`.
    ///
    /// A long string is added to the cache if it is new.
    ///
    /// # Errors
    ///
    /// Never fails if `text` has up to 7 bytes. Otherwise fails if an allocation fails, if the
    /// reference count of the string is saturated, or if the string is new and the cache has
    /// `2 ^ 32 - 1` strings. The cache is then unchanged.
    ///
    /// # Cost
    ///
    /// The expected time is linear in the length. A new string is copied, and the cache grows by
    /// doubling.
    ///
    /// ```
    /// let name = IString::intern(&mut cache, "name")?; // inline
    /// let long = IString::intern(&mut cache, "a longer string")?; // shared through the cache
    /// ```
    pub fn intern<S: BuildHasher>(
        cache: &mut StringCache<S>,
        text: &str,
    ) -> Result<IString, AllocError>
        ensures text { IfOk result (λ s. s ≡ text.now) }
        ensures cache { OnOk result (cache.new ≡ interned text.now cache.old) }
        ensures refused { OnErr result (cache.new ≡ cache.old) }
        ensures short { length text.now ≤ 7 → IsOk result }
    {
        if text.len() > 7 {
            return cache.share(text);
        }
        Ok(IString {
            stored: Stored::InPlace(Block::inline(text)),
        })
    }

    /// Copies a `text` of more than 7 bytes into a new allocation.
    ///
    /// # Errors
    ///
    /// Fails if the allocation fails.
    pub(crate) fn long(alloc: Global, text: &str) -> Result<IString, AllocError>
        requires { 7 < length text.now }
        ensures { IfOk result (λ s. s ≡ text.now) }
    {
        let stored = match text.len() {
            0..=23 => Stored::UpTo23(Rc::new(alloc, Block::of_words(text))?),
            24..=39 => Stored::UpTo39(Rc::new(alloc, Block::of_ends(text, 24, 16))?),
            40..=55 => Stored::UpTo55(Rc::new(alloc, Block::of_ends(text, 40, 16))?),
            56..=71 => Stored::UpTo71(Rc::new(alloc, Block::of_ends(text, 56, 16))?),
            _ => Stored::Long(RcStr::from_str(alloc, text)?),
        };
        Ok(IString { stored })
    }

    /// Borrows the string.
    pub fn as_str(&self) -> &str
        ensures { result.now ≡ self.now }
    {
        match &self.stored {
            Stored::InPlace(text) => text.as_str(),
            Stored::UpTo23(text) => text.as_str(),
            Stored::UpTo39(text) => text.as_str(),
            Stored::UpTo55(text) => text.as_str(),
            Stored::UpTo71(text) => text.as_str(),
            Stored::Long(text) => text.as_str(),
        }
    }

    /// Returns the length of an inline string, and the string padded with NULs to 7 bytes.
    ///
    /// Returns `None` if the string is longer than 7 bytes. A padded string can be compared and
    /// appended by moves of constant size.
    #[inline(always)]
    pub fn inline_padded(&self) -> Option<(u8, &str)>
        ensures text { IfSome result (λ x. take x.0 x.1.now ≡ self.now) }
        ensures utf8 { IfSome result (λ x. IsUtf8 (take x.0 x.1.now)) }
        ensures size { IfSome result (λ x. (x.0 ≤ 7) × (length x.1.now ≡ 7)) }
        ensures zeros { IfSome result (λ x. drop x.0 x.1.now ≡ replicate (7 - x.0) 0) }
        ensures short { length self.now ≤ 7 → IsSome result }
    {
        match &self.stored {
            Stored::InPlace(text) => Some(text.padded()),
            _ => None,
        }
    }

    /// Borrows the bytes of the string.
    pub fn as_bytes(&self) -> &[u8]
        ensures { result.now ≡ self.now }
    {
        self.as_str().as_bytes()
    }

    /// Returns the length in bytes, not in characters.
    pub fn len(&self) -> usize
        ensures { result ≡ length self.now }
    {
        self.as_str().len()
    }

    /// Returns `true` if the length is 0.
    pub fn is_empty(&self) -> bool
        ensures { result ≡ (length self.now == 0) }
    {
        self.len() == 0
    }

    /// Returns `true` if the string is equal to `text`. If the lengths differ, no bytes are read.
    pub fn eq_str(&self, text: &str) -> bool
        ensures { IsTrue result ↔ (self.now ≡ text.now) }
    {
        self.as_str() == text
    }

    /// Copies the string into a `String`. Does not allocate if the string is empty.
    ///
    /// # Errors
    ///
    /// Fails if the allocation fails.
    pub fn to_owned_string(&self, alloc: Global) -> Result<String, AllocError>
        ensures { IfOk result (λ s. string_bytes s ≡ self.now) }
    {
        String::from_str(alloc, self.as_str())
    }
}

/// Copies an inline string, and increments the reference count of a longer string.
///
/// Takes constant time and does not allocate. Fails only if the reference count is saturated.
impl Clone for IString {
    ghost is_clone = { λ s copy. copy ≡ s };

    ghost is_infallible = { λ s. length s ≤ 7 };

    fn clone(&self) -> Result<IString, AllocError> {
        let stored = match &self.stored {
            Stored::InPlace(text) => Stored::InPlace(text.copy()),
            Stored::UpTo23(text) => Stored::UpTo23(text.clone()?),
            Stored::UpTo39(text) => Stored::UpTo39(text.clone()?),
            Stored::UpTo55(text) => Stored::UpTo55(text.clone()?),
            Stored::UpTo71(text) => Stored::UpTo71(text.clone()?),
            Stored::Long(text) => Stored::Long(text.clone()?),
        };
        Ok(IString { stored })
    }
}

/// Compares the bytes. If the lengths differ, no bytes are read.
impl PartialEq for IString {
    ghost eq = { λ x y. pointwise nat_eq x y };

    ghost laws = { Cmp.partial_equiv_from_equiv nat_list_eq_equiv };

    fn eq(&self, other: &IString) -> bool {
        self.as_str() == other.as_str()
    }
}

impl Eq for IString {
    ghost laws = { nat_list_eq_equiv };
}

/// Returns the result of `cmp`: the order is total.
impl PartialOrd for IString {
    ghost partial_cmp = { λ x y. Some (slice_cmp nat_cmp x y) };

    ghost laws = { texts_po };

    fn partial_cmp(&self, other: &IString) -> Option<Ordering> {
        Some(self.cmp(other))
    }
}

/// Compares the bytes lexicographically, which is the order of the code points.
impl Ord for IString {
    ghost cmp = { λ x y. slice_cmp nat_cmp x y };

    ghost total = { nat_list_cmp_total };

    ghost matches_partial_cmp = { λ x y. refl };

    ghost matches_eq = { λ x y. texts_ties x y };

    fn cmp(&self, other: &IString) -> Ordering {
        self.as_str().cmp(other.as_str())
    }
}

/// Feeds 3, the length in bytes, and each byte to the hasher, each by one call of `write_u64`.
impl Hash for IString {
    ghost hash_input = { λ s. flat_map fed.u64 (text_words s) };

    ghost respects_eq = { Prim.search (hashing, rules) };

    fn hash<H: Hasher>(&self, state: &mut H) {
        let bytes = self.as_bytes();
        state.write_u64(3);
        state.write_u64(bytes.len() as u64);
        for byte in bytes {
            state.write_u64(u64::from(*byte));
        }
    }
}

/// Creates an empty string.
impl Default for IString {
    ghost is_default = { λ s. s ≡ [] };

    fn default() -> IString {
        IString::new()
    }
}

/// Writes the string unchanged.
impl fmt::Display for IString {
    ghost output = { λ s. Some s };

    fn fmt<W: fmt::Write>(&self, f: &mut fmt::Formatter<W>) -> fmt::Result {
        fmt::Display::fmt(self.as_str(), f)
    }
}

/// Writes the string between quotes, with the escapes of `str`.
impl fmt::Debug for IString {
    fn fmt<W: fmt::Write>(&self, f: &mut fmt::Formatter<W>) -> fmt::Result {
        fmt::Debug::fmt(self.as_str(), f)
    }
}
