//! Values of a key, mostly a single one.

ghost use Rattle.std.specs.Prelude.{◌≡◌, [], ◌∷◌, ◌++◌, OnOk, OnErr};
ghost use Rattle.std.specs.Mem.{FitsInMemory};
ghost use Rattle.groups.specs.Under.{values_in};

use crate::short_list::append;
use std::alloc::{AllocError, Allocator};
use std::slice;

/// Some values, in the order of adding. A single value takes no further memory.
#[derive(Drop)]
pub enum Values<V: Drop, A: Allocator> {
    One(V),
    Many(Vec<V, A>),
}

impl<V: Copy, A: Allocator> Values<V, A> {
    /// One value.
    pub fn one(value: V) -> Self
        ensures { values_in result ≡ value ∷ [] }
    {
        Values::One(value)
    }

    /// No value, which takes no further memory either.
    pub fn none(alloc: A) -> Self
        ensures { values_in result ≡ [] }
    {
        Values::Many(Vec::new(alloc))
    }

    /// The values.
    pub fn as_slice(&self) -> &[V]
        requires { FitsInMemory V.row }
        ensures { result.now ≡ values_in self.now }
    {
        match self {
            Values::One(first) => slice::from_ref(first),
            Values::Many(many) => many.as_slice(),
        }
    }

    /// Adds a value. If memory is refused, nothing changes.
    pub fn add(&mut self, alloc: A, value: V) -> Result<(), AllocError>
        ensures ok { OnOk result (values_in self.new ≡ values_in self.old ++ value ∷ []) }
        ensures err { OnErr result (values_in self.new ≡ values_in self.old) }
    {
        match self {
            Values::One(first) => {
                let mut many = Vec::with_capacity(alloc, 2)?;
                many.push(*first)?;
                many.push(value)?;
                *self = Values::Many(many);
            }
            Values::Many(many) => append(many, value)?,
        }
        Ok(())
    }
}
