//! A pair store that searches its list.

ghost use Rattle.std.specs.Prelude.{◌≡◌, ◌↔◌, ◌<◌, [], Err, IfOk, IsOk, refl};
ghost use Rattle.std.specs.Option.{option_copied};
ghost use Rattle.ijson_table.specs.Store.{at, keys_of, IsDistinct, lookup};
ghost use Rattle.ijson_table.specs.StoreWithValue.{store_with_value};
ghost use Rattle.ijson_table.specs.laws.Store.{IsDistinct-prop};
ghost use Rattle.ijson_table.specs.Growth.{capacity_limit};
ghost use Rattle.ijson_table.specs.Inserts.{Inserts};

use crate::growth::{check_capacity, grown_capacity};
use crate::store::{PairStore, RefusedPair, ReserveError, insert};
use crate::vec::set_capacity;
use ijson_string::IString;
use std::alloc::Global;
use std::fmt;
use std::marker::Model;

/// A list of entries that is searched from the first entry on.
///
/// # Cost
///
/// Keys are not hashed. A lookup takes time linear in the number of entries.
#[derive(Drop)]
pub struct LinearPairs<V> {
    pairs: Vec<(IString, V)>,
    ghost distinct: { IsDistinct (keys_of pairs.items) } by { IsDistinct-prop (keys_of pairs.items) },
}

impl<V> Model for LinearPairs<V> {
    ghost use Rattle.std.specs.Prelude.{vec_capacity, length};
    ghost use Rattle.ijson_table.specs.Store.{Store};
    ghost use Rattle.ijson_table.specs.laws.Store.{store_code};
    ghost use Rattle.ijson_table.specs.private.Room.{HasRoom};

    ghost Value = { Store V };

    ghost coded = { store_code V.code };

    ghost view = { λ s. record { pairs = s.pairs.items; capacity = vec_capacity s.pairs; distinct = s.distinct } };

    ghost invariant = { λ s. HasRoom (length s.pairs.items) (vec_capacity s.pairs) };
}

/// Returns the index of a key, or `None` if the key is missing.
fn find<V>(pairs: &[(IString, V)], key: &str) -> Option<usize>
    ensures { result ≡ at pairs.now key.now }
{
    for (i, pair) in pairs.iter().enumerate() {
        if pair.0.eq_str(key) {
            return Some(i);
        }
    }
    None
}

impl<V> LinearPairs<V> {
    /// Creates an empty store with capacity `capacity`.
    ///
    /// A capacity of 0 does not allocate.
    ///
    /// # Errors
    ///
    /// `TooLarge` if `capacity` exceeds 2^56, `Memory` if an allocation fails.
    pub fn with_capacity(alloc: Global, capacity: usize) -> Result<LinearPairs<V>, ReserveError>
        ensures made { IfOk result (λ s. (s.pairs ≡ []) × (s.capacity ≡ capacity)) }
        ensures too_large { (result ≡ Err ReserveError.TooLarge) ↔ (capacity_limit < capacity) }
        ensures none { capacity ≡ 0 → IsOk result }
    {
        let capacity = check_capacity(capacity)?;
        Ok(LinearPairs {
            pairs: Vec::with_capacity(alloc, capacity)?,
        })
    }

    /// Borrows the entries, in order.
    pub fn as_slice(&self) -> &[(IString, V)]
        ensures { result.now ≡ self.now.pairs }
    {
        self.pairs.as_slice()
    }

    /// Returns the value of a key, or `None` if the key is missing.
    pub fn get(&self, key: &str) -> Option<&V>
        ensures { option_copied result ≡ lookup key.now self.now.pairs }
    {
        match find(&self.pairs, key) {
            Some(index) => Some(&self.pairs[index].1),
            None => None,
        }
    }
}

impl<V: Drop> LinearPairs<V> {
    /// Inserts an entry and returns the old value of its key, if any.
    ///
    /// A present key keeps its index, and nothing is allocated. A new entry is appended. If the
    /// store is full, it grows first.
    ///
    /// # Errors
    ///
    /// If the growth fails, the entry is returned and the store is unchanged.
    ///
    /// # Cost
    ///
    /// Linear in the number of entries: the keys are compared from the first on.
    pub fn insert(&mut self, key: IString, value: V) -> Result<Option<V>, RefusedPair<V>>
        ensures { Inserts self.old.pairs self.old.capacity key value result
            self.new.pairs self.new.capacity }
    {
        insert(self, key, value)
    }
}

/// Formats the entries as a map, in order.
impl<V: fmt::Debug> fmt::Debug for LinearPairs<V> {
    fn fmt<W: fmt::Write>(&self, f: &mut fmt::Formatter<W>) -> fmt::Result {
        f.debug_map()
            .entries(self.pairs.iter().map(|pair| (&pair.0, &pair.1)))
            .finish()
    }
}

/// A lookup compares the keys from the first on.
impl<V: Drop> PairStore<V> for LinearPairs<V> {
    ghost pairs = { λ s. s.pairs };

    ghost room = { λ s. s.capacity };

    ghost distinct = { λ s. s.distinct };

    ghost set_value = { λ s i v. store_with_value s i v };

    fn new(alloc: Global) -> Self {
        LinearPairs {
            pairs: Vec::new(alloc),
        }
    }

    fn len(&self) -> usize {
        self.pairs.len()
    }

    fn capacity(&self) -> usize {
        self.pairs.capacity()
    }

    fn reserve(&mut self, additional: usize) -> Result<(), ReserveError> {
        match grown_capacity(self.len(), self.capacity(), additional)? {
            Some(capacity) => Ok(set_capacity(*self.pairs.allocator(), &mut self.pairs, capacity)?),
            None => Ok(()),
        }
    }

    fn shrink_to_fit(&mut self) -> Result<(), ReserveError> {
        let len = self.len();
        if self.capacity() == len {
            return Ok(());
        }
        Ok(set_capacity(*self.pairs.allocator(), &mut self.pairs, len)?)
    }

    fn position(&self, key: &str) -> Option<usize> {
        find(&self.pairs, key)
    }

    fn pair(&self, index: usize) -> (&IString, &V) {
        let pair = &self.pairs[index];
        (&pair.0, &pair.1)
    }

    fn pair_mut(&mut self, index: usize) -> (&IString, &mut V) {
        let pair = &mut self.pairs[index];
        (&pair.0, &mut pair.1)
    }

    fn push_new(&mut self, key: IString, value: V) {
        self.pairs.push_reserved((key, value));
    }

    fn swap_out(&mut self, index: usize) -> (IString, V) {
        self.pairs.swap_remove(index)
    }

    fn shift_out(&mut self, index: usize) -> (IString, V) {
        self.pairs.remove(index)
    }

    fn into_pairs(self) -> Vec<(IString, V)> {
        self.pairs
    }

    fn clear(&mut self) {
        self.pairs.clear();
    }

    ghost set_value_is = { λ s i v. (refl, refl) };
}
