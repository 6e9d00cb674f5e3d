//! `StringCache`: a set of interned strings.
ghost use Rattle.std.specs.Prelude.{◌≡◌, ◌<◌, ◌≤◌, ◌==◌, false, length, IfOk, OnOk, OnErr};
ghost use Rattle.std.specs.FinSet as set;
ghost use Rattle.ijson_string.specs.Cache.{AreLong};
ghost use Rattle.ijson_string.specs.laws.Texts.{AreLong-prop};
ghost use Rattle.ijson_string.specs.private.IsCache.{set_of};

use crate::hash::hash_of;
use crate::table::TextTable;
use crate::text::IString;
use std::alloc::{AllocError, Global};
use std::fmt;
use std::hash::BuildHasher;
use std::marker::Model;

/// A set of strings of more than 7 bytes, each stored once and shared by `IString::intern`.
///
/// The cache owns its strings until `clear`, even if nothing else uses them. The maximum is
/// `2 ^ 32 - 1` strings. For untrusted input, use a hasher with a random seed, such as
/// `RandomState`.
///
/// # Cost
///
/// The cache has an inline size of 1 KB. Each string takes 24 bytes in addition to its own
/// allocation. From 32 strings on, its bucket takes another 2 to 4 bytes. All lists double when
/// they are full. Strings that repeat in the same order are compared, but not hashed.
#[derive(Drop)]
pub struct StringCache<S: BuildHasher> {
    texts: TextTable,
    hasher: S,
    ghost long: { AreLong (set_of texts.keys) } by { AreLong-prop (set_of texts.keys) },
}

impl<S: BuildHasher> Model for StringCache<S> {
    ghost use Rattle.std.specs.Prelude.{[], ◌∷◌, fold};
    ghost use Rattle.ijson_string.specs.Cache.{Texts};
    ghost use Rattle.ijson_string.specs.laws.Texts.{texts_code};
    ghost use Rattle.ijson_string.specs.private.IsCache.{IsCache, set_of};

    ghost Value = { Texts };

    ghost coded = { texts_code };

    ghost view = { λ c. record { texts = set_of c.texts.keys; long = c.long } };

    ghost invariant = { λ c. IsCache (λ text. S.Hasher.finish (fold S.Hasher.write (S.build_hasher c.hasher) (text ∷ [])))
        c.texts.keys };
}

impl<S: BuildHasher> StringCache<S> {
    /// Creates an empty cache. Allocates when the first string is added.
    pub fn new(alloc: Global, hasher: S) -> StringCache<S>
        ensures { result.texts ≡ set.empty }
    {
        StringCache {
            texts: TextTable::new(alloc),
            hasher,
        }
    }

    /// Returns the number of strings.
    pub fn len(&self) -> usize
        ensures { result ≡ set.len self.now.texts }
    {
        self.texts.texts().len()
    }

    /// Returns `true` if the cache contains no strings.
    pub fn is_empty(&self) -> bool
        ensures { result ≡ (set.len self.now.texts == 0) }
    {
        self.len() == 0
    }

    /// Returns `true` if the cache contains `text`.
    ///
    /// Strings of up to 7 bytes are inline and never in the cache. The expected time is linear in
    /// the length of `text`.
    pub fn contains(&self, text: &str) -> bool
        ensures exact { result ≡ set.contains self.now.texts text.now }
        ensures short { length text.now ≤ 7 → result ≡ false }
    {
        let hash = hash_of(&self.hasher, text);
        self.texts.find(hash, text).is_some()
    }

    /// Removes all strings and keeps the capacity. All `IString`s remain valid.
    ///
    /// Takes time linear in the capacity.
    pub fn clear(&mut self)
        ensures { self.new.texts ≡ set.empty }
    {
        self.texts.clear();
    }

    /// Returns the shared copy of a long `text`, which is added if it is new.
    ///
    /// A correct prediction of the next string saves the hash.
    ///
    /// # Errors
    ///
    /// Fails if an allocation fails, the cache has `2 ^ 32 - 1` strings, or the reference count is
    /// saturated. The cache is then unchanged.
    pub(crate) fn share(&mut self, text: &str) -> Result<IString, AllocError>
        requires { 7 < length text.now }
        ensures text { IfOk result (λ shared. shared ≡ text.now) }
        ensures added { OnOk result (self.new.texts ≡ set.insert self.old.texts text.now) }
        ensures refused { OnErr result (self.new ≡ self.old) }
    {
        if let Some(index) = self.texts.guess(text) {
            return self.texts.share_at(index, text);
        }
        let hash = hash_of(&self.hasher, text);
        match self.texts.find(hash, text) {
            Some(index) => self.texts.share_at(index, text),
            None => self.texts.push(hash, text),
        }
    }
}

/// Formats the strings as a set, in insertion order.
impl<S: BuildHasher> fmt::Debug for StringCache<S> {
    fn fmt<W: fmt::Write>(&self, f: &mut fmt::Formatter<W>) -> fmt::Result {
        f.debug_set().entries(self.texts.texts()).finish()
    }
}
