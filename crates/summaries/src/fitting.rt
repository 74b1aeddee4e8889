//! Which message belongs to which procedure.
use crate::due::Due;
use flow_graph::Graphs;
use std::alloc::Allocator;
use switchboard::Mail;

// A message belongs in the mailbox of the procedure that it is due for.
impl<G: Allocator> Mail<Graphs<G>> for Due {
    ghost use Rattle.summaries.specs.Fitting.{FitsIn};

    ghost fits = { FitsIn };
}
