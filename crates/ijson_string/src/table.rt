//! `TextTable`: strings in insertion order, found by their hash.
ghost use Rattle.std.specs.Prelude.{◌≡◌, ℕ, ◌<◌, [], ◌∷◌, ◌++◌, length, Some, IfSome, IfOk, OnOk, OnErr, is_some};
ghost use Rattle.std.specs.List.{list_any};
ghost use Rattle.ijson_string.specs.private.Followers.{followed_by, IsFollower};
ghost use Rattle.ijson_string.specs.private.Keys.{is_key, texts_of, IsKeyAt, IsTextAt};
ghost use Rattle.ijson_string.specs.private.Table.{no_table, buckets_for};

mod chains;
mod followers;

use crate::table::chains::{Bucket, EMPTY, Link, grow, head_for, prepend};
use crate::table::followers::Followers;
use crate::text::IString;
use std::alloc::{AllocError, Global};
use std::marker::Model;

/// A hash table with separate chaining.
///
/// The strings are in one list, in insertion order, and their links are in another. The strings of
/// a bucket form a chain from the newest to the oldest, so indices decrease along a chain.
///
/// A lookup avoids work in three ways:
///
/// - `followers` predicts the next string before hashing, if strings repeat in the same order.
/// - The Bloom filter of a bucket rules out 39 of 40 absent strings without reading the chain.
/// - The bytes of a string are read only if its hash is equal.
///
/// # Cost
///
/// A string takes 16 bytes and its link 8. A bucket takes 8 bytes, and from 32 strings on there are
/// 2 to 4 strings per bucket. Each list doubles when it is full. `followers` takes 1 KB, inline.
/// The maximum is `2 ^ 32 - 1` strings.
#[derive(Drop)]
pub(crate) struct TextTable {
    texts: Vec<IString>,
    links: Vec<Link>,
    buckets: Vec<Bucket>,
    followers: Followers,
}

impl Model for TextTable {
    ghost use Rattle.std.specs.Prelude.{length, ◌≡◌};
    ghost use Rattle.ijson_string.specs.private.Keys.{keys_of};
    ghost use Rattle.ijson_string.specs.private.IsTable.{hashes_of, IsTable};
    ghost use Rattle.ijson_string.specs.private.Table.{Table};

    ghost Value = { Table };

    ghost view = { λ t. record {
      keys = keys_of (hashes_of t.links.items) t.texts.items;
      buckets = length t.buckets.items;
      followers = t.followers;
    } };

    ghost invariant = { λ t. IsTable t.links.items t.buckets.items × (length t.texts.items ≡ length t.links.items) };
}

impl TextTable {
    /// Creates an empty table. Does not allocate.
    pub(crate) fn new(alloc: Global) -> TextTable
        ensures { result ≡ no_table }
    {
        TextTable {
            texts: Vec::new(alloc),
            links: Vec::new(alloc),
            buckets: Vec::new(alloc),
            followers: Followers::new(),
        }
    }

    /// Returns the strings, in insertion order.
    pub(crate) fn texts(&self) -> &[IString]
        ensures { result.now ≡ texts_of self.now.keys }
    {
        &self.texts
    }

    /// Returns the index of `text` if `text` is the string that last followed the current string.
    ///
    /// `None` means only that the prediction failed. Nothing is hashed, and only a string of the
    /// same length is read.
    pub(crate) fn guess(&self, text: &str) -> Option<u32>
        ensures found { IfSome result (λ at. IsTextAt text.now self.now.keys at) }
        ensures taken { (at : ℕ) → IsFollower at (length text.now) self.now.followers
            → IsTextAt text.now self.now.keys at
            → result ≡ Some at }
    {
        let next = self.followers.next;
        let index = next.position as usize;
        if next.len as usize == text.len()
            && index < self.texts.len()
            && self.texts[index].eq_str(text)
        {
            return Some(next.position);
        }
        None
    }

    /// Returns the index of `text`, whose hash is `hash`.
    ///
    /// Walks one chain, which has at most four strings on average.
    pub(crate) fn find(&self, hash: u32, text: &str) -> Option<u32>
        ensures found { IfSome result (λ at. IsKeyAt hash text.now self.now.keys at) }
        ensures exact { is_some result ≡ list_any (is_key hash text.now) self.now.keys }
    {
        if self.buckets.is_empty() {
            return None;
        }
        let mut at = head_for(&self.buckets, hash)?;
        while at > 0 {
            let position = at as usize - 1;
            let link = self.links[position];
            if link.hash == hash && self.texts[position].eq_str(text) {
                return Some(at - 1);
            }
            at = link.next;
        }
        None
    }

    /// Returns a new owner of `text`, the string at `position`, and makes it the current string of
    /// `followers`.
    ///
    /// # Errors
    ///
    /// Fails if the reference count of the string is saturated.
    pub(crate) fn share_at(&mut self, position: u32, text: &str) -> Result<IString, AllocError>
        requires { IsTextAt text.now self.old.keys position }
        ensures text { IfOk result (λ shared. shared ≡ text.now) }
        ensures followed { self.new
            ≡ record self.old { followers = followed_by position (length text.now) self.old.followers } }
    {
        let shared: Result<IString, AllocError> = self.texts[position as usize].clone();
        self.followers.put(position, text.len());
        shared
    }

    /// Appends `text`, which has more than 7 bytes, and returns an owner of it.
    ///
    /// # Errors
    ///
    /// Fails if an allocation fails or the table is full. The table is then unchanged.
    pub(crate) fn push(&mut self, hash: u32, text: &str) -> Result<IString, AllocError>
        requires { 7 < length text.now }
        ensures text { IfOk result (λ shared. shared ≡ text.now) }
        ensures pushed { OnOk result (self.new.keys ≡ self.old.keys ++ record { hash = hash; text = text.now } ∷ []) }
        ensures buckets { OnOk result (self.new.buckets ≡ buckets_for (length self.old.keys) self.old.buckets) }
        ensures followers { OnOk result (self.new.followers ≡ self.old.followers) }
        ensures refused { OnErr result (self.new ≡ self.old) }
    {
        // The head of a chain is an index plus 1.
        let Ok(head) = u32::try_from(self.links.len() + 1) else {
            return Err(AllocError);
        };
        self.links.reserve(1)?;
        self.texts.reserve(1)?;
        let shared = IString::long(*self.texts.allocator(), text)?;
        let Ok(text) = shared.clone() else {
            drop(shared);
            return Err(AllocError);
        };
        let Ok(()) = grow(&mut self.links, &mut self.buckets) else {
            drop(text);
            drop(shared);
            return Err(AllocError);
        };
        let next = prepend(&mut self.buckets, hash, head);
        self.links.push_reserved(Link { hash, next });
        self.texts.push_reserved(text);
        Ok(shared)
    }

    /// Removes all strings and keeps the capacity. Takes time linear in the capacity.
    pub(crate) fn clear(&mut self)
        ensures { self.new ≡ record self.old { keys = [] } }
    {
        self.texts.clear();
        self.links.clear();
        self.buckets.fill(EMPTY);
    }
}
