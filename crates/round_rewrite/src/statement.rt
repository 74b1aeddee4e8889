//! What statements are rewritten to.

ghost use Rattle.std.specs.Prelude.{◌≡◌, ◌<◌, ◌^◌, [], IfOk, map, option_map};
ghost use Rattle.language.specs.Tree.{assert, assign, call, call_for};
ghost use Rattle.language.specs.Tree.{done, choose, loop};
ghost use Rattle.trees.specs.Trees.{simple, name_of, names_of, rhs_of, rhss_of};
ghost use Rattle.trees.specs.Trees.{exprs_of, items_of, deed_of, block_of, all_before};
ghost use Rattle.round_rewrite.specs.Table.{drawing, prologue, received, receiver, expression_form};
ghost use Rattle.round_rewrite.specs.Table.{no_mark, side, statement};
ghost use Rattle.round_rewrite.specs.Writing.{Appends, Lays, IsSimple, bare_form, forms};

use crate::assignment::{any_values, temporaries};
use crate::block::{Stmts, push, push_made, push_marked, single};
use crate::cores::{failed, stop_choice, stop_test};
use crate::names::{clone_name, drawn};
use crate::writer::Writer;
use std::alloc::{AllocError, Allocator};
use trees::{Core, Expr, Name, Rhs, Stmt};

impl<'a, N: Allocator, A: Allocator + Copy> Writer<'a, N, A> {
    ghost use Rattle.round_rewrite.specs.Writing.{naming_of};

    /// Appends the prologue of a statement with this label and offset to others.
    fn prologue(
        &self,
        label: Option<Name<A>>,
        at: u32,
        into: &mut Stmts<A>,
    ) -> Result<(), AllocError>
        ensures { Appends result into.old.items into.new.items
            (prologue (naming_of self.now) self.now.rounds.last
            (record { label = option_map name_of label; at = at })) }
    {
        push_marked(label, at, self.rising()?, into)?;
        push_made(stop_choice(self.alloc), into)?;
        push_made(stop_test(self.alloc), into)
    }

    /// Appends the draw of a given number of temporaries, if any, to others.
    fn drawing(&self, number: usize, into: &mut Stmts<A>) -> Result<(), AllocError>
        requires { number < 2 ^ 63 }
        ensures { Appends result into.old.items into.new.items
            (drawing (naming_of self.now) self.now.rounds.last number) }
    {
        if number == 0 {
            return Ok(());
        }
        let targets = temporaries(self.alloc, Vec::new(*self.alloc), number)?;
        let sides = any_values(self.alloc, number)?;
        push(Core::Assign(targets, sides), into)
    }

    /// Appends the rewriting of an assignment to others.
    fn assigned(&self, xs: &[Name<N>], rs: &[Rhs<N>], into: &mut Stmts<A>) -> Result<(), AllocError>
        ensures { Appends result into.old.items into.new.items
            (statement (naming_of self.now) self.now.rounds.last
            (assign (names_of xs.now) (rhss_of rs.now))) }
    {
        self.drawing(self.draws(xs, rs), into)?;
        let mut targets = Vec::new(*self.alloc);
        let mut sides = Vec::new(*self.alloc);
        self.both_sides(0, xs, rs, &mut targets, &mut sides)?;
        push(Core::Assign(targets, sides), into)
    }

    /// Appends the rewriting of a call to others.
    fn call(&self, p: &Name<N>, es: &[Expr<N>], into: &mut Stmts<A>) -> Result<(), AllocError>
        ensures { Appends result into.old.items into.new.items
            (statement (naming_of self.now) self.now.rounds.last
            (call (name_of p.now) (exprs_of es.now))) }
    {
        let name = clone_name(*self.alloc, p)?;
        let arguments = self.arguments(es)?;
        push(Core::Call(name, arguments), into)?;
        push_made(stop_test(self.alloc), into)
    }

    /// What the value of a call goes to: a global's to the first temporary, a local's to the local itself.
    fn receiver(&self, x: &Name<N>) -> Result<Name<A>, AllocError>
        ensures { IfOk result
            (λ n. name_of n ≡ receiver (naming_of self.now) self.now.rounds.last (name_of x.now)) }
    {
        if self.is_shared(x) {
            drawn(*self.alloc, 0)
        } else {
            clone_name(*self.alloc, x)
        }
    }

    /// Appends what gives a global the value of a call, after a prologue of its own, to others.
    fn received(&self, x: &Name<N>, into: &mut Stmts<A>) -> Result<(), AllocError>
        ensures { Appends result into.old.items into.new.items
            (received (naming_of self.now) self.now.rounds.last (name_of x.now)) }
    {
        self.prologue(None, 0, into)?;
        let mut targets = Vec::new(*self.alloc);
        self.copies(x, &mut targets)?;
        let mut sides = Vec::new(*self.alloc);
        self.drawn_sides(0, x, &mut sides)?;
        push(Core::Assign(targets, sides), into)
    }

    /// What a call for a value becomes, without what comes after it.
    fn called(&self, x: &Name<N>, p: &Name<N>, es: &[Expr<N>]) -> Result<Core<A>, AllocError>
        ensures { IfOk result
            (λ c. deed_of c
            ≡ simple (call_for
            (receiver (naming_of self.now) self.now.rounds.last (name_of x.now)) (name_of p.now)
            (map (expression_form (naming_of self.now) self.now.rounds.last) (exprs_of es.now)))) }
    {
        let target = self.receiver(x)?;
        let name = clone_name(*self.alloc, p)?;
        let arguments = self.arguments(es)?;
        Ok(Core::CallTo(target, name, arguments))
    }

    /// Appends the rewriting of a call for a value to others.
    fn call_for(
        &self,
        x: &Name<N>,
        p: &Name<N>,
        es: &[Expr<N>],
        into: &mut Stmts<A>,
    ) -> Result<(), AllocError>
        ensures { Appends result into.old.items into.new.items
            (statement (naming_of self.now) self.now.rounds.last
            (call_for (name_of x.now) (name_of p.now) (exprs_of es.now))) }
    {
        push_made(self.called(x, p, es), into)?;
        push_made(stop_test(self.alloc), into)?;
        if self.is_shared(x) {
            self.received(x, into)
        } else {
            Ok(())
        }
    }

    /// A copy of the label.
    fn label(&self, label: &Option<Name<N>>) -> Result<Option<Name<A>>, AllocError>
        ensures { IfOk result (λ l. option_map name_of l ≡ option_map name_of label.now) }
    {
        match label {
            Some(name) => Ok(Some(clone_name(*self.alloc, name)?)),
            None => Ok(None),
        }
    }

    /// Appends the prologue of a statement, with its label and offset, to others.
    fn begin(&self, stmt: &Stmt<N>, into: &mut Stmts<A>) -> Result<(), AllocError>
        ensures { Appends result into.old.items into.new.items
            (prologue (naming_of self.now) self.now.rounds.last
            (record { label = option_map name_of stmt.now.label; at = stmt.now.at })) }
    {
        let label = self.label(&stmt.label)?;
        self.prologue(label, stmt.at, into)
    }

    /// Appends an `if` with this right side rewritten and these branches to others.
    fn push_if(
        &self,
        r: &Rhs<N>,
        yes: Stmts<A>,
        no: Stmts<A>,
        into: &mut Stmts<A>,
    ) -> Result<(), AllocError>
        ensures { Appends result into.old.items into.new.items
            (choose no_mark (side (naming_of self.now) self.now.rounds.last (rhs_of r.now))
            (block_of yes.items) (block_of no.items)) }
    {
        let test = self.side(r)?;
        push(Core::If(test, yes, no), into)
    }

    /// Appends a `while` with this right side rewritten and this body, which a prologue ends, to others.
    fn push_while(&self, r: &Rhs<N>, body: Stmts<A>, into: &mut Stmts<A>) -> Result<(), AllocError>
        ensures { Appends result into.old.items into.new.items
            (loop no_mark (side (naming_of self.now) self.now.rounds.last (rhs_of r.now))
            (all_before (items_of body.items)
            (prologue (naming_of self.now) self.now.rounds.last no_mark done))) }
    {
        let mut body = body;
        self.prologue(None, 0, &mut body)?;
        let test = self.side(r)?;
        push(Core::While(test, body), into)
    }

    /// Appends the rewriting of an assert to others.
    fn asserted(&self, r: &Rhs<N>, into: &mut Stmts<A>) -> Result<(), AllocError>
        ensures { Appends result into.old.items into.new.items
            (statement (naming_of self.now) self.now.rounds.last (assert (rhs_of r.now))) }
    {
        let yes = single(self.alloc, Core::Skip)?;
        let no = failed(self.alloc)?;
        self.push_if(r, yes, no, into)
    }

    /// Appends the rewriting of a statement that holds no others, without its prologue, to others.
    fn simple(&self, core: &Core<N>, into: &mut Stmts<A>) -> Result<(), AllocError>
        requires { IsSimple (deed_of core.now) }
        ensures { Appends result into.old.items into.new.items
            (bare_form (naming_of self.now) self.now.rounds.last (deed_of core.now)) }
    {
        match core {
            Core::Skip => push(Core::Skip, into),
            Core::Return => push(Core::Return, into),
            Core::Goto(l) => push(Core::Goto(clone_name(*self.alloc, l)?), into),
            Core::Assert(r) => self.asserted(r, into),
            Core::Assume(r) => push(Core::Assume(self.side(r)?), into),
            Core::Assign(xs, rs) => self.assigned(xs, rs, into),
            Core::Call(p, es) => self.call(p, es, into),
            Core::CallTo(x, p, es) => self.call_for(x, p, es, into),
            Core::Give(e) => push(Core::Give(self.expression(e)?), into),
            Core::If(_, _, _) | Core::While(_, _) => unreachable!(),
        }
    }

    /// What statements are rewritten to.
    #[cycle(rewriting)]
    pub(crate) fn rewritten(&self, stmts: &[Stmt<N>]) -> Result<Stmts<A>, AllocError>
        ensures { IfOk result (λ v. Lays [] v.items
            (λ k. forms (naming_of self.now) self.now.rounds.last (items_of stmts.now) k)) }
    {
        let mut list = Vec::new(*self.alloc);
        for stmt in stmts {
            self.begin(stmt, &mut list)?;
            self.core(&stmt.core, &mut list)?;
        }
        Ok(list)
    }

    /// Appends the rewriting of one statement, without its prologue, to others.
    #[cycle(rewriting)]
    fn core(&self, core: &Core<N>, into: &mut Stmts<A>) -> Result<(), AllocError>
        ensures { Appends result into.old.items into.new.items
            (bare_form (naming_of self.now) self.now.rounds.last (deed_of core.now)) }
    {
        match core {
            Core::If(r, a, b) => {
                let yes = self.rewritten(a)?;
                let no = self.rewritten(b)?;
                self.push_if(r, yes, no, into)
            }
            Core::While(r, a) => {
                let body = self.rewritten(a)?;
                self.push_while(r, body, into)
            }
            _ => self.simple(core, into),
        }
    }
}
