//! What a choice does whose test holds: it sends its value, if it sends one, and where that is in range it acts.

ghost use Rattle.std.specs.Prelude.{◌≡◌, ◌+◌, IfOk, OnOk};
ghost use Rattle.cif_net_expr.specs.View.{view};
ghost use Rattle.cif_net_model.specs.Table as c;
ghost use Rattle.cif_net.specs.View.{choice_tree, net_tree};
ghost use Rattle.st_ast.specs.Tree.{append, assign, stms};
ghost use Rattle.st_ast.specs.View.{view_expr, view_stmts};
ghost use Rattle.plc_expr.specs.Texts.{before, temps, text};
ghost use Rattle.plc_expr.specs.Written.{naming_of};
ghost use Rattle.plc_frame.specs.Events.{moves_text};
ghost use Rattle.plc_event_model.specs.Acts as a;
ghost use Rattle.plc_event_model.specs.Keeps as k;
ghost use Rattle.plc_event_model.specs.Sends as s;
ghost use Rattle.plc_event_model.specs.Writes.{updates_temps};
ghost use Rattle.plc_event.specs.After.{AreSame};
ghost use Rattle.plc_event.specs.Making.{all_set};
ghost use Rattle.plc_event.specs.Writers.{new_names_of};

use crate::keeping::Scratch;
use crate::ranges::where_fits;
use crate::types::carried_type;
use crate::writing::Writer;
use cif_base::{Items, Memory, Text, Ty};
use cif_net::{Choice, NetExpr};
use plc_expr::Draft;
use plc_expr_walk::written;
use st_ast::{StExpr, Stmt};

/// The statements before a sent value, its text, and the number of the next own variable.
#[derive(Drop)]
struct SentText {
    before: Items<Stmt>,
    value: StExpr,
    next: u32,
}

impl<'a> Writer<'a> {
    fn sent_text(&self, value: &NetExpr, next: u32) -> Result<SentText, Memory>
        ensures next { IfOk result (λ x. x.next ≡ next + temps (view value.now)) }
        ensures before { IfOk result (λ x. view_stmts x.before ≡ before (naming_of self.now.names.now) next (view value.now)) }
        ensures text { IfOk result (λ x. view_expr x.value ≡ text (naming_of self.now.names.now) next (view value.now)) }
    {
        let mut draft = Draft {
            statements: Items::new(self.alloc),
            next,
        };
        let text = written(value, self.alloc, self.names, &mut draft)?;
        let Draft {
            statements: before,
            next,
        } = draft;
        let value = text.into_inner();
        Ok(SentText {
            before,
            value,
            next,
        })
    }

    /// The value is sent over a channel of this type, and then these statements follow.
    fn sending(
        &self,
        before: Items<Stmt>,
        value: StExpr,
        ty: Ty,
        body: Items<Stmt>,
    ) -> Result<Items<Stmt>, Memory>
        ensures { IfOk result (λ ss. view_stmts ss ≡ append (view_stmts before)
            (stms (assign (naming_of self.now.names.now).received (view_expr value)) (s.where_fits (naming_of self.now.names.now).received ty (view_stmts body)))) }
    {
        let target = self.names.received.copy(self.alloc)?;
        let mut statements = before;
        statements.push(Stmt::Assign { target, value })?;
        statements.append(where_fits(self.alloc, &self.names.received, ty, body)?)?;
        Ok(statements)
    }

    /// What the choice does. Its own variables are numbered from `next` on, first those of what it sends.
    pub(crate) fn taken(
        &self,
        choice: &Choice,
        marks: &[Text],
        next: u32,
        scratch: &mut Scratch,
    ) -> Result<Draft, Memory>
        requires { AreSame scratch.now.after self.now.names.now }
        ensures same { OnOk result (AreSame scratch.new.after self.now.names.now) }
        ensures next { IfOk result (λ draft. draft.next ≡ next + (s.sent_temps (choice_tree choice.now).sent
            + (updates_temps (choice_tree choice.now).writes + k.kept_temps (net_tree self.now.net.now) (choice_tree choice.now)))) }
        ensures act { IfOk result (λ draft. view_stmts draft.statements
            ≡ s.sends (naming_of self.now.names.now) next (choice_tree choice.now).sent (c.carried_type (net_tree self.now.net.now) (choice_tree choice.now))
            (a.act (net_tree self.now.net.now) (naming_of self.now.names.now) (new_names_of self.now.new.now) (next + s.sent_temps (choice_tree choice.now).sent) (choice_tree choice.now).writes
            (k.where_kept (net_tree self.now.net.now) (naming_of self.now.names.now) (new_names_of self.now.new.now)
            (next + s.sent_temps (choice_tree choice.now).sent + updates_temps (choice_tree choice.now).writes) (choice_tree choice.now)
            (a.stored (naming_of self.now.names.now) (new_names_of self.now.new.now) (choice_tree choice.now).writes
            (moves_text (net_tree self.now.net.now) (choice_tree choice.now).moves (all_set marks.now)))))) }
    {
        let Some(value) = &choice.sent else {
            return self.act(choice, marks, next, scratch);
        };
        let SentText {
            before,
            value,
            next,
        } = self.sent_text(value, next)?;
        let acted = self.act(choice, marks, next, scratch)?;
        let Some(ty) = carried_type(self.net, choice) else {
            return Ok(acted);
        };
        let Draft {
            statements: body,
            next,
        } = acted;
        let statements = self.sending(before, value, ty, body)?;
        Ok(Draft { statements, next })
    }
}
