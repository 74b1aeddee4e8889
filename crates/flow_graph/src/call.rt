//! Calls, compiled, and the returns from them.

ghost use Rattle.std.specs.Prelude.{◌≡◌, ◌≤◌, ◌^◌, ◌%◌, ◌+◌, length};
ghost use Rattle.resolved.specs.Limits.{most_places};

use crate::assignment::masked;
use crate::exit::Exit;
use crate::formula::Formula;
use crate::low_bits::LowBits;
use language::{Point, Word};
use std::alloc::Allocator;

/// The call of a procedure, compiled.
#[derive(Drop)]
pub struct Call<A: Allocator> {
    pub(crate) callee: u8,
    /// The bits of the globals.
    pub(crate) globals: LowBits,
    pub(crate) arguments: Vec<Formula<A>, A>,
    /// The bit of the variable that is called for, alone; 0 for none.
    pub(crate) target: Word,
    pub(crate) back: Point,
    pub ghost fits: { globals + length arguments.items ≤ most_places },
}

impl<A: Allocator> Call<A> {
    ghost use Rattle.flow_graph.specs.Drawn.{back_of, called_procedure, entered_from, resumed_from};
    ghost use Rattle.flow_graph.specs.Returns.{IsResumed};

    /// The number of the procedure that is called.
    pub fn callee(&self) -> u8
        ensures { result ≡ called_procedure self.now }
    {
        self.callee
    }

    /// The point at which the caller continues after the return.
    pub fn back(&self) -> Point
        ensures { result ≡ back_of self.now }
    {
        self.back
    }

    /// The valuation with which the procedure is entered from the caller's: the globals as they are, the arguments, and
    /// 0 in every other place.
    pub fn entry(&self, values: Word) -> Word
        ensures { result ≡ entered_from self.now values }
    {
        let mut entry = self.globals.of(values);
        let mut bit = self.globals.count();
        for argument in self.arguments.as_slice() {
            entry += (argument.value(values) as Word) << bit;
            bit += 1;
        }
        entry
    }

    /// The valuation with which the caller continues from its own after a call that left this: the globals are
    /// those left, the places are the caller's, and the variable that it called for, if any, gets the result.
    pub fn resumed(&self, values: Word, left: Exit) -> Word
        ensures number { result ≡ resumed_from self.now values left }
        ensures valuation { IsResumed self.now values left result }
    {
        let globals = self.globals.of(left.globals);
        let places = values - self.globals.of(values);
        masked(globals + places, self.target, left.result)
    }
}
