//! The table of one procedure.

ghost use Rattle.std.specs.Prelude.{◌≡◌, Some, None};
ghost use Rattle.path_sets.specs.EdgeLimits.{most_of};

use crate::due::{Caller, Due};
use crate::edge::{CallKey, PathEdge};
use crate::found::Found;
use crate::table_fault::TableFault;
use flow_graph::{Exit, Graph, Graphs};
use language::Word;
use path_sets::{EdgeLimit, PathSet};
use std::alloc::Allocator;

/// The path edges of one procedure and the calls on them, by the messages that it has taken.
#[derive(Drop)]
pub struct Table<'g, G: Allocator, A: Allocator, S: PathSet<A>> {
    pub(crate) graph: &'g Graph<G>,
    pub(crate) procedure: u8,
    pub(crate) limit: EdgeLimit,
    pub(crate) edges: S,
    pub(crate) found: Found<A>,
    pub(crate) fault: Option<TableFault>,
}

impl<'g, G: Allocator, A: Allocator + Copy, S: PathSet<A>> Table<'g, G, A, S> {
    ghost use Rattle.std.specs.Prelude.{◌<◌, ◌^◌, [], length, slice_get, OnOk, Err, IfOk, IfSome};
    ghost use Rattle.std.specs.Prelude.{IfNone};
    ghost use Rattle.std.specs.Bool.{OnTrue, OnFalse};
    ghost use Rattle.flow_graph.specs.Drawn.{graphs_of};
    ghost use Rattle.summaries.specs.declared.due.Due.TheVariants.{Entry, Summary};
    ghost use Rattle.summaries.specs.Tables.{graph_of, procedure_of, limit_of, answers_of, failure};
    ghost use Rattle.summaries.specs.Tables.{fault_in};
    ghost use Rattle.summaries.specs.Tables.{IsTable, IsNew, IsQuiet, IsAnswer, TableTakes};
    ghost use Rattle.summaries.specs.Tables.{KeepsTable};
    ghost use Rattle.summaries.specs.Tables.{failed_by, work_left};
    ghost use Rattle.summaries.specs.Found.{mails_in};

    /// The table of a procedure, which has taken nothing yet, and takes no memory.
    pub fn new(alloc: A, graphs: &'g Graphs<G>, procedure: u8, limit: EdgeLimit) -> Self
        requires { procedure < length (graphs_of graphs.now) }
        ensures new { IsNew S.members result }
        ensures quiet { IsQuiet S.members result }
        ensures graph { slice_get (graphs_of graphs.now) procedure ≡ Some (graph_of result) }
        ensures procedure { procedure_of result ≡ procedure }
        ensures limit { limit_of result ≡ most_of limit }
    {
        Table {
            graph: graphs.graph(procedure),
            procedure,
            limit,
            edges: S::empty(alloc),
            found: Found::new(alloc),
            fault: None,
        }
    }

    /// Takes a message: a caller enters the procedure with the valuation `a`. If memory is refused, or one edge more
    /// than the limit is found, the table has failed, and returns that from then on.
    pub fn take_entry(&mut self, caller: Caller, a: Word) -> Result<(), TableFault>
        requires { IsTable S.members self.old }
        ensures { TableTakes S.members (Entry caller a) result self.old self.new }
    {
        if let Some(fault) = self.fault {
            return Err(fault);
        }
        let entered = self.enter(caller, a);
        self.keep(entered)
    }

    /// Takes a message: procedure `p`, entered with the valuation `a`, leaves the globals `b` and the result `r`. It
    /// fails as `take_entry` does.
    pub fn take_summary(&mut self, p: u8, a: Word, b: Word, r: bool) -> Result<(), TableFault>
        requires { IsTable S.members self.old }
        ensures { TableTakes S.members (Summary p r a b) result self.old self.new }
    {
        if let Some(fault) = self.fault {
            return Err(fault);
        }
        let resumed = self.resume(
            CallKey {
                callee: p,
                entered: a,
            },
            Exit {
                globals: b,
                result: r,
            },
        );
        self.keep(resumed)
    }

    /// The next message that the table owes by those that it has taken, and the procedure that it is for; each comes
    /// once. `None` if there is no more until another message is taken. It fails as `take_entry` does.
    pub fn next(&mut self) -> Result<Option<(u8, Due)>, TableFault>
        requires { IsTable S.members self.old }
        ensures keeps { KeepsTable S.members (fault_in result) self.old self.new }
        ensures some { IfOk result (λ r. IfSome r (λ m. IsAnswer self.old self.new m.0 m.1)) }
        ensures few { length (answers_of self.new) < 2 ^ 64 }
        ensures none { IfOk result (λ r. IfNone r (answers_of self.new ≡ answers_of self.old)) }
        ensures quiet { IfOk result (λ r. IfNone r (IsQuiet S.members self.new)) }
        ensures again { (e : TableFault) → failure self.old ≡ Some e → result ≡ Err e }
    {
        if let Some(fault) = self.fault {
            return Err(fault);
        }
        'work: loop {
            if let Some(mail) = self.answer() {
                return Ok(Some(mail));
            }
            if !self.step()? {
                return Ok(None);
            }
        }
    }

    /// The next message that was given and is not answered yet.
    fn answer(&mut self) -> Option<(u8, Due)>
        requires table { IsTable S.members self.old }
        requires fault { self.old.fault ≡ None }
        ensures keeps { KeepsTable S.members None self.old self.new }
        ensures some { IfSome result (λ m. IsAnswer self.old self.new m.0 m.1) }
        ensures none { IfNone result (answers_of self.new ≡ answers_of self.old) }
        ensures all { IfNone result
            (answers_of self.new ≡ mails_in self.new.procedure self.new.found) }
        ensures pending { self.new.found.pending ≡ self.old.found.pending }
        ensures edges { self.new.edges ≡ self.old.edges }
    {
        let message = self.found.outbox.next()?;
        Some(self.found.mail(self.procedure, message))
    }

    /// Works on one pending edge, and on those that it leads to one after another. Returns whether there was one.
    fn step(&mut self) -> Result<bool, TableFault>
        requires table { IsTable S.members self.old }
        requires fault { self.old.fault ≡ None }
        ensures keeps { KeepsTable S.members (fault_in result) self.old self.new }
        ensures answers { OnOk result (answers_of self.new ≡ answers_of self.old) }
        ensures less { IfOk result (λ worked. OnTrue worked
            (work_left S.members self.new < work_left S.members self.old)) }
        ensures none { IfOk result (λ worked. OnFalse worked (self.new.found.pending.items ≡ [])) }
        ensures given { IfOk result (λ worked. OnFalse worked
            (mails_in self.new.procedure self.new.found
            ≡ mails_in self.old.procedure self.old.found)) }
    {
        let Some(edge) = self.found.pending.pop() else {
            return Ok(false);
        };
        // Read field by field, since a processor waits for a word that it has just written in parts.
        let PathEdge {
            entry,
            point,
            values,
        } = edge;
        let worked = self.follow(PathEdge {
            entry,
            point,
            values,
        });
        self.keep(worked)?;
        Ok(true)
    }

    /// Fails if the answer is a fault.
    fn keep(&mut self, answer: Result<(), TableFault>) -> Result<(), TableFault>
        ensures result { result ≡ answer }
        ensures table { self.new ≡ failed_by answer self.old }
    {
        if let Err(fault) = answer {
            self.fault = Some(fault);
        }
        answer
    }
}
