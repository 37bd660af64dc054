//! The statements of an event: the first of its choices that makes a step is made.

ghost use Rattle.std.specs.Prelude.{◌≡◌, ◌+◌, ◌<◌, false, length, map, IfOk, OnOk};
ghost use Rattle.cif_net.specs.View.{choice_tree, net_tree};
ghost use Rattle.st_ast.specs.Tree.{assign, branches as branches_with, choice as choice_with, complement, named, no_branches, no_other, stms, truth};
ghost use Rattle.st_ast.specs.View.{view_branches, view_expr, view_stmt, view_stmts};
ghost use Rattle.plc_expr.specs.Written.{naming_of};
ghost use Rattle.plc_frame.specs.Events as e;
ghost use Rattle.plc_event_model.specs.Events as d;
ghost use Rattle.plc_event_model.specs.Own.{choice_temps};
ghost use Rattle.plc_event_model.specs.Parts.{needs_done};
ghost use Rattle.plc_event.specs.After.{AreSame};
ghost use Rattle.plc_event.specs.Making.{all_set, tried_with};
ghost use Rattle.plc_event.specs.Writers.{new_names_of};

use crate::keeping::Scratch;
use crate::moves::marking;
use crate::selecting::{first_of, tested};
use crate::writing::{NewTexts, Writer};
use cif_base::{Boxed, Items, Memory, Text};
use cif_net::{Choice, Net};
use plc_expr::{Draft, Names};
use plc_expr_walk::written;
use plc_model::Letter;
use plc_names::name_of;
use st_ast::{StBranch, StExpr, Stmt};
use std::alloc::Global;

/// What is written for a choice: the statements before its test, the test, what it does, and the number of the next own variable.
#[derive(Drop)]
pub struct Pieces {
    pub before: Items<Stmt>,
    pub test: Boxed<StExpr>,
    pub act: Items<Stmt>,
    pub next: u32,
}

/// The statements of a choice, and the number of the next own variable.
#[derive(Drop)]
struct Tried {
    statements: Items<Stmt>,
    next: u32,
}

/// The marks of an event: whether it has one of its own, that one, and what a choice sets without it and with it.
#[derive(Drop)]
pub struct EventMarks {
    pub is_used: bool,
    pub done: Text,
    pub alone: Items<Text>,
    pub with_done: Items<Text>,
}

/// The marks of an event. Its own mark, if it has one, has the number `first`.
pub fn event_marks(alloc: Global, first: u32, is_used: bool) -> Result<EventMarks, Memory>
    ensures is_used { IfOk result (λ m. m.is_used ≡ is_used) }
    ensures done { IfOk result (λ m. m.done ≡ e.own_name (first, e.done_face)) }
    ensures alone { IfOk result (λ m. all_set m.alone ≡ e.marks) }
    ensures with_done { IfOk result (λ m. all_set m.with_done ≡ e.marks_with m.done) }
{
    let done = name_of(alloc, Letter::T, first, b"done")?;
    let fired = Text::from_slice(alloc, b"T0_fired")?;
    let mut with_done = Items::only(alloc, done.copy(alloc)?)?;
    with_done.push(fired.copy(alloc)?)?;
    let alone = Items::only(alloc, fired)?;
    Ok(EventMarks {
        is_used,
        done,
        alone,
        with_done,
    })
}

impl<'a> Writer<'a> {
    /// What is written for a choice, which sets these marks where it is made. Its own variables are numbered from `next` on.
    fn pieces(
        &self,
        choice: &Choice,
        marks: &[Text],
        next: u32,
        scratch: &mut Scratch,
    ) -> Result<Pieces, Memory>
        requires same { AreSame scratch.now.after self.now.names.now }
        ensures still_same { OnOk result (AreSame scratch.new.after self.now.names.now) }
        ensures before { IfOk result (λ p. view_stmts p.before
            ≡ (d.choice_written (net_tree self.now.net.now) (naming_of self.now.names.now) (new_names_of self.now.new.now) next (choice_tree choice.now)).before) }
        ensures test { IfOk result (λ p. view_expr p.test
            ≡ (d.choice_written (net_tree self.now.net.now) (naming_of self.now.names.now) (new_names_of self.now.new.now) next (choice_tree choice.now)).test) }
        ensures act { IfOk result (λ p. view_stmts p.act
            ≡ (d.choice_written (net_tree self.now.net.now) (naming_of self.now.names.now) (new_names_of self.now.new.now) next (choice_tree choice.now)).act (all_set marks.now)) }
        ensures next { IfOk result (λ p. p.next ≡ next + choice_temps (net_tree self.now.net.now) (choice_tree choice.now)) }
    {
        let mut draft = Draft {
            statements: Items::new(self.alloc),
            next,
        };
        let test = written(&choice.test, self.alloc, self.names, &mut draft)?;
        let Draft {
            statements: before,
            next,
        } = draft;
        let Draft {
            statements: act,
            next,
        } = self.taken(choice, marks, next, scratch)?;
        Ok(Pieces {
            before,
            test,
            act,
            next,
        })
    }

    /// The statements of a choice: those before its test, and then what it does where the test holds.
    #[tactic(auto, using(plc_expr_walk::proofs::Joining::statements))]
    fn tried(
        &self,
        choice: &Choice,
        marks: &[Text],
        next: u32,
        scratch: &mut Scratch,
    ) -> Result<Tried, Memory>
        requires same { AreSame scratch.now.after self.now.names.now }
        ensures still_same { OnOk result (AreSame scratch.new.after self.now.names.now) }
        ensures statements { IfOk result (λ t. view_stmts t.statements ≡ tried_with
            (d.choice_written (net_tree self.now.net.now) (naming_of self.now.names.now) (new_names_of self.now.new.now) next (choice_tree choice.now)) (all_set marks.now)) }
        ensures next { IfOk result (λ t. t.next ≡ next + choice_temps (net_tree self.now.net.now) (choice_tree choice.now)) }
    {
        let Pieces {
            before,
            test,
            act,
            next,
        } = self.pieces(choice, marks, next, scratch)?;
        let mut statements = before;
        statements.push(tested(self.alloc, test, act)?.into_inner())?;
        Ok(Tried { statements, next })
    }

    /// The branches of choices without statements before their tests.
    fn chain_branches(
        &self,
        choices: &[Choice],
        marks: &[Text],
        next: u32,
        scratch: &mut Scratch,
    ) -> Result<Items<StBranch>, Memory>
        requires same { AreSame scratch.now.after self.now.names.now }
        requires alone { all_set marks.now ≡ e.marks }
        ensures still_same { OnOk result (AreSame scratch.new.after self.now.names.now) }
        ensures branches { IfOk result (λ all. view_branches all ≡ e.chain_branches
            (d.all_written (net_tree self.now.net.now) (naming_of self.now.names.now) (new_names_of self.now.new.now) next (map choice_tree choices.now))) }
    {
        let mut next = next;
        let mut all = Items::new(self.alloc);
        for choice in choices {
            let Pieces {
                before: _,
                test,
                act: body,
                next: after,
            } = self.pieces(choice, marks, next, scratch)?;
            next = after;
            let cond = test.into_inner();
            all.push(StBranch { cond, body })?;
        }
        Ok(all)
    }

    /// The statements of a choice, where none before it was made.
    fn unless_done(&self, done: &Text, body: Items<Stmt>) -> Result<Boxed<Stmt>, Memory>
        ensures { IfOk result (λ s. view_stmt s
            ≡ choice_with (branches_with (complement (named done.now)) (view_stmts body) no_branches) no_other) }
    {
        let name = Boxed::new(self.alloc, StExpr::Named(done.copy(self.alloc)?))?;
        let test = Boxed::new(self.alloc, StExpr::Not(name))?;
        tested(self.alloc, test, body)
    }

    /// The statements of choices, each where none before it was made.
    fn marked(
        &self,
        choices: &[Choice],
        marks: &EventMarks,
        next: u32,
        scratch: &mut Scratch,
    ) -> Result<Items<Stmt>, Memory>
        requires same { AreSame scratch.now.after self.now.names.now }
        requires with_done { all_set marks.now.with_done ≡ e.marks_with marks.now.done }
        ensures still_same { OnOk result (AreSame scratch.new.after self.now.names.now) }
        ensures statements { IfOk result (λ all. view_stmts all ≡ stms (assign marks.now.done (truth false)) (e.parts_text marks.now.done
            (d.all_written (net_tree self.now.net.now) (naming_of self.now.names.now) (new_names_of self.now.new.now) next (map choice_tree choices.now)))) }
    {
        let mut next = next;
        let start = marking(self.alloc, &marks.done, false)?.into_inner();
        let mut all = Items::only(self.alloc, start)?;
        for choice in choices {
            let Tried {
                statements,
                next: after,
            } = self.tried(choice, marks.with_done.as_slice(), next, scratch)?;
            next = after;
            all.push(self.unless_done(&marks.done, statements)?.into_inner())?;
        }
        Ok(all)
    }

    /// The statements of an event.
    fn event(
        &self,
        choices: &[Choice],
        marks: &EventMarks,
        next: u32,
        scratch: &mut Scratch,
    ) -> Result<Items<Stmt>, Memory>
        requires same { AreSame scratch.now.after self.now.names.now }
        requires alone { all_set marks.now.alone ≡ e.marks }
        requires with_done { all_set marks.now.with_done ≡ e.marks_with marks.now.done }
        requires is_used { marks.now.is_used ≡ needs_done (net_tree self.now.net.now) (map choice_tree choices.now) }
        ensures still_same { OnOk result (AreSame scratch.new.after self.now.names.now) }
        ensures statements { IfOk result (λ all. view_stmts all ≡ e.event_text marks.now.done
            (d.all_written (net_tree self.now.net.now) (naming_of self.now.names.now) (new_names_of self.now.new.now) next (map choice_tree choices.now))) }
    {
        match choices {
            [] => Ok(Items::new(self.alloc)),
            [only] => Ok(
                self.tried(only, marks.alone.as_slice(), next, scratch)?
                    .statements,
            ),
            _ => self.several(choices, marks, next, scratch),
        }
    }

    fn several(
        &self,
        choices: &[Choice],
        marks: &EventMarks,
        next: u32,
        scratch: &mut Scratch,
    ) -> Result<Items<Stmt>, Memory>
        requires same { AreSame scratch.now.after self.now.names.now }
        requires several { 1 < length choices.now }
        requires alone { all_set marks.now.alone ≡ e.marks }
        requires with_done { all_set marks.now.with_done ≡ e.marks_with marks.now.done }
        requires is_used { marks.now.is_used ≡ needs_done (net_tree self.now.net.now) (map choice_tree choices.now) }
        ensures still_same { OnOk result (AreSame scratch.new.after self.now.names.now) }
        ensures statements { IfOk result (λ all. view_stmts all ≡ e.event_text marks.now.done
            (d.all_written (net_tree self.now.net.now) (naming_of self.now.names.now) (new_names_of self.now.new.now) next (map choice_tree choices.now))) }
    {
        if marks.is_used {
            return self.marked(choices, marks, next, scratch);
        }
        let branches = self.chain_branches(choices, marks.alone.as_slice(), next, scratch)?;
        Items::only(self.alloc, first_of(self.alloc, branches)?.into_inner())
    }
}

/// The statements of an event with these choices, with these names and marks. The own variables of its expressions are numbered
/// from `ifs` on. `scratch` has the names `names`, also afterwards. The time is linear in the choices, in the state invariants of
/// each, and in what is written.
pub fn statements_of(
    alloc: Global,
    net: &Net,
    names: &Names,
    new: &NewTexts,
    choices: &[Choice],
    marks: &EventMarks,
    ifs: u32,
    scratch: &mut Scratch,
) -> Result<Items<Stmt>, Memory>
    requires same { AreSame scratch.now.after names.now }
    requires alone { all_set marks.now.alone ≡ e.marks }
    requires with_done { all_set marks.now.with_done ≡ e.marks_with marks.now.done }
    requires is_used { marks.now.is_used ≡ needs_done (net_tree net.now) (map choice_tree choices.now) }
    ensures still_same { OnOk result (AreSame scratch.new.after names.now) }
    ensures statements { IfOk result (λ all. view_stmts all ≡ e.event_text marks.now.done
        (d.all_written (net_tree net.now) (naming_of names.now) (new_names_of new.now) ifs (map choice_tree choices.now))) }
{
    let writer = Writer {
        alloc,
        net,
        names,
        new,
    };
    writer.event(choices, marks, ifs, scratch)
}
