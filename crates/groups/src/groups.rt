//! Values that are found by a key.

ghost use Rattle.std.specs.Prelude.{◌≡◌, [], ◌∷◌, ◌++◌, OnOk, OnErr};
ghost use Rattle.std.specs.Mem.{FitsInMemory};
ghost use Rattle.groups.specs.Under.{AllStay, OthersStay, under};

use crate::values::Values;
use indexmap::IndexMap;
use indexmap::map::Entry;
use std::alloc::{AllocError, Allocator};
use std::hash::{BuildHasherDefault, FoldHasher, Hash};

/// For each key the values that were added to it, in the order of adding. Keys keep the order in which they came.
#[derive(Drop)]
pub struct Groups<K: Eq + Hash + Drop, V: Drop, A: Allocator> {
    pub by_key: IndexMap<K, Values<V, A>, BuildHasherDefault<FoldHasher>, A>,
}

impl<K: Eq + Hash + Copy, V: Copy, A: Allocator + Copy> Groups<K, V, A> {
    /// No values, which take no memory yet.
    pub fn new(alloc: A) -> Self
        ensures { (k : K) → under K.eq result.by_key k ≡ [] }
    {
        Groups {
            by_key: IndexMap::new(alloc),
        }
    }

    /// Adds a value to those of a key. If memory is refused, each key has the values that it had.
    #[inline(always)]
    pub fn add(&mut self, key: K, value: V) -> Result<(), AllocError>
        ensures added { OnOk result
            (under K.eq self.new.by_key key ≡ under K.eq self.old.by_key key ++ value ∷ []) }
        ensures others { OnOk result
            (OthersStay K.eq key (under K.eq self.old.by_key) (under K.eq self.new.by_key)) }
        ensures err { OnErr result
            (AllStay (under K.eq self.old.by_key) (under K.eq self.new.by_key)) }
    {
        let alloc = *self.by_key.allocator();
        let entry = self.by_key.entry(key)?;
        match entry {
            Entry::Occupied(known) => {
                let values = known.into_mut();
                values.add(alloc, value)?;
                Ok(())
            }
            Entry::Vacant(new) => {
                new.insert(Values::one(value));
                Ok(())
            }
        }
    }

    /// The values of a key.
    pub fn of(&self, key: K) -> &[V]
        requires { FitsInMemory V.row }
        ensures { result.now ≡ under K.eq self.now.by_key key }
    {
        match self.by_key.get(&key) {
            Some(values) => values.as_slice(),
            None => &[],
        }
    }

    /// The values of a key. The key at the index `last` is tried first, and `last` becomes the index of this one.
    #[inline(always)]
    pub fn of_near(&self, key: K, last: &mut usize) -> &[V]
        requires { FitsInMemory V.row }
        ensures { result.now ≡ under K.eq self.now.by_key key }
    {
        if let Some((known, values)) = self.by_key.get_index(*last) {
            if key == *known {
                return values.as_slice();
            }
        }
        match self.by_key.get_full(&key) {
            Some((at, _, values)) => {
                *last = at;
                values.as_slice()
            }
            None => &[],
        }
    }
}
