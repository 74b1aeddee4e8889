//! What every set of path edges offers.

ghost use Rattle.std.specs.Prelude.{◌≡◌, ◌<◌, ◌^◌, ◌↔◌, List, [], length, IsTrue, IfOk, OnOk};
ghost use Rattle.std.specs.Prelude.{OnErr};
ghost use Rattle.language.specs.Lists.{Member, NoneTwice};
ghost use Rattle.path_sets.specs.Inserts.{HasAlso, IsLongerIf, IsNewIf};
ghost use Rattle.path_sets.specs.Triples.{Triple, triple};

use language::{Point, Word};
use std::alloc::{AllocError, Allocator};

/// A set of triples: an entry valuation, a point and the valuation there.
pub trait PathSet<A: Allocator>: Sized + Drop {
    ghost members: { Self → List Triple };

    /// A set with no members, which takes no memory yet.
    fn empty(alloc: A) -> Self
        ensures { members result ≡ [] };

    /// Puts a triple into the set. Returns whether it is new: `false` if it is a member already. If memory is refused,
    /// the set stays as it was.
    fn insert(&mut self, entry: Word, point: Point, values: Word) -> Result<bool, AllocError>
        requires { length (members self.old) < 2 ^ 63 }
        ensures members { OnOk result
            (HasAlso (triple entry point values) (members self.old) (members self.new)) }
        ensures new { IfOk result (IsNewIf (triple entry point values) (members self.old)) }
        ensures len { IfOk result (IsLongerIf (members self.old) (members self.new)) }
        ensures err { OnErr result (members self.new ≡ members self.old) };

    /// Whether the triple is a member.
    fn contains(&self, entry: Word, point: Point, values: Word) -> bool
        ensures { IsTrue result ↔ Member (triple entry point values) (members self.now) };

    /// How many members there are.
    fn len(&self) -> u64
        ensures { result ≡ length (members self.now) };

    ghost none_twice: { (s : Self) → NoneTwice (members s) };
}
