//! Removal of the entries that a closure rejects.
ghost use Rattle.std.specs.Prelude.{◌≡◌};
ghost use Rattle.std.specs.Map.Calls.{CalledAtPair, TakesPair};
ghost use Rattle.ijson_value.specs.MayAsk.{MayAsk};
ghost use Rattle.ijson_value.specs.Retains.{Retains};

use super::map::IObject;
use crate::value::IValue;
use ijson_string::IString;

impl IObject {
    /// Keeps the entries for which `keep` returns `true`, with the values that `keep` writes.
    ///
    /// Entries are visited from the first. The last entry replaces a removed entry and is visited
    /// next, so a removal can change the order. Does not allocate.
    ///
    /// # Cost
    ///
    /// Linear in the number of entries if few keys collide, plus the calls of `keep`. Each removal
    /// scans the collision clusters of two keys.
    pub fn retain<F: FnMut(&IString, &mut IValue) -> bool>(&mut self, mut keep: F)
        requires { MayAsk (CalledAtPair F.FnMut) (TakesPair F.FnMut) keep self.old.pairs }
        ensures pairs { Retains (CalledAtPair F.FnMut) keep self.old.pairs self.new.pairs }
        ensures capacity { self.new.capacity ≡ self.old.capacity }
    {
        let mut index = 0;
        while index < self.len() {
            let (key, value) = self.pair_mut(index);
            if keep(key, value) {
                index += 1;
            } else {
                drop(self.swap_out(index));
            }
        }
    }
}
