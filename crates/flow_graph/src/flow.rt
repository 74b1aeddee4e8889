//! What leads on from a point.

ghost use Rattle.std.specs.Prelude.{◌≡◌, ◌<◌, ◌^◌, ◌↔◌, IsTrue};
ghost use Rattle.language.specs.Words.{word_bits};
ghost use Rattle.flow_graph.specs.Flows.{last_of, next_of};

use crate::assignment::Assignment;
use crate::call::Call;
use crate::side::CompiledSide;
use language::{Point, Word};
use std::alloc::Allocator;

/// What leads on from a point, inside the call or out of it.
#[derive(Drop)]
pub enum Flow<A: Allocator> {
    /// Values are written, perhaps none, and the run continues at the point.
    Assign(Assignment<A>, Point),
    /// The run continues at the first point if the right side is 1, and at the second if it is 0.
    Test(CompiledSide<A>, Point, Point),
    /// The run continues at the point if 1 is a value.
    Assume(CompiledSide<A>, Point),
    /// A procedure is called.
    Call(Call<A>),
    /// The procedure is left.
    Return,
}

impl<A: Allocator> Flow<A> {
    /// The number of the last choice: the choices of `?` are numbered from 0.
    pub fn last(&self) -> Word
        ensures { result ≡ last_of self.now }
    {
        match self {
            Flow::Assign(assignment, _) => assignment.last(),
            Flow::Test(CompiledSide::Any, _, _) => 1,
            _ => 0,
        }
    }

    /// Where the run continues inside the call for a choice, and with which valuation; `None` if it does not.
    pub fn next(&self, values: Word, choice: Word) -> Option<(Point, Word)>
        ensures { result ≡ next_of self.now values choice }
    {
        self.choose(values, choice).0
    }

    /// Where the run continues for a choice, as `next` tells, and whether there is a choice after it, as `last`
    /// tells. So a loop over all choices looks at the flow once for each.
    #[inline(always)]
    pub fn choose(&self, values: Word, choice: Word) -> (Option<(Point, Word)>, bool)
        ensures next { result.0 ≡ next_of self.now values choice }
        ensures more { IsTrue result.1 ↔ (choice < last_of self.now) }
        ensures few { last_of self.now < 2 ^ word_bits }
    {
        match self {
            Flow::Assign(assignment, to) => {
                let next = assignment.next(values, choice);
                (Some((*to, next)), choice < assignment.last())
            }
            Flow::Test(CompiledSide::Any, yes, no) => {
                let to = if choice % 2 == 1 { *yes } else { *no };
                (Some((to, values)), choice < 1)
            }
            Flow::Test(CompiledSide::Value(formula), yes, no) => {
                let to = if formula.value(values) { *yes } else { *no };
                (Some((to, values)), false)
            }
            Flow::Assume(side, to) => {
                if side.value(values, 1) {
                    (Some((*to, values)), false)
                } else {
                    (None, false)
                }
            }
            Flow::Call(_) => (None, false),
            Flow::Return => (None, false),
        }
    }
}
