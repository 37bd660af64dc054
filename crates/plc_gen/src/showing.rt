//! The part that shows the algebraic variables.

ghost use Rattle.std.specs.Prelude.{◌≡◌, ◌+◌, map, IfOk, OnOk};
ghost use Rattle.std.specs.List.{AllByRecursion};
ghost use Rattle.cif_net_expr.specs.View.{view};
ghost use Rattle.cif_net.specs.View.{alg_tree, net_tree};
ghost use Rattle.st_ast.specs.Tree.{append, assign, no_stms, stms};
ghost use Rattle.st_ast.specs.View.{view_stmts};
ghost use Rattle.plc_model.specs.Names.{name_for};
ghost use Rattle.plc_model.specs.declared.letter.Letter.TheVariants as letter;
ghost use Rattle.plc_expr.specs.Texts.{before, temps, text};
ghost use Rattle.plc_expr.specs.Written.{naming_of};
ghost use Rattle.plc_frame.specs.Given.{part_tree};
ghost use Rattle.plc_event_model.specs.ProgramParts.{defined_types, shown_part, shown_text};
ghost use Rattle.plc_event.specs.Names.{AreNames};
ghost use Rattle.plc_gen.specs.Named.{IsNamedAlg};

use crate::faces::OwnVariables;
use cif_base::{Boxed, Items, Memory};
use cif_net::{Alg, Net, NetExpr, definition};
use plc_event::number_at;
use plc_expr::{Draft, Names};
use plc_expr_walk::{own_types_of, written};
use plc_frame::Part;
use plc_model::Letter;
use plc_names::name_of;
use st_ast::{StTy, Stmt};
use std::alloc::Global;

/// The types of the own variables of definitions, and the statements that show the algebraic variables.
#[derive(Drop)]
struct ShownText {
    types: Items<StTy>,
    statements: Items<Stmt>,
}

/// Adds the statements that assign the value of an expression to the R variable with this number and path.
#[tactic(auto, using(plc_expr_walk::proofs::Joining::statements))]
fn show(
    alloc: Global,
    names: &Names,
    number: u32,
    path: &[u8],
    value: &NetExpr,
    draft: &mut Draft,
) -> Result<(), Memory>
    ensures next { OnOk result (draft.new.next ≡ draft.old.next + temps (view value.now)) }
    ensures before { OnOk result (view_stmts draft.new.statements ≡ append (view_stmts draft.old.statements)
        (append (before (naming_of names.now) draft.old.next (view value.now))
        (stms (assign (name_for letter.R number path.now) (text (naming_of names.now) draft.old.next (view value.now))) no_stms))) }
{
    let text = written(value, alloc, names, draft)?;
    let target = name_of(alloc, Letter::R, number, path)?;
    let value = text.into_inner();
    draft.statements.push(Stmt::Assign { target, value })?;
    Ok(())
}

/// The statements that show these algebraic variables in their order. The own variables are numbered from `first` on. A definition
/// by location is built once.
fn shows(
    alloc: Global,
    net: &Net,
    algs: &[Alg],
    names: &Names,
    first: u32,
) -> Result<ShownText, Memory>
    ensures types { IfOk result (λ x. x.types ≡ defined_types (net_tree net.now) (map alg_tree algs.now)) }
    ensures statements { IfOk result
        (λ x. view_stmts x.statements ≡ shown_text (naming_of names.now) 0 first (map alg_tree algs.now)) }
{
    let mut types = Items::new(alloc);
    let mut draft = Draft {
        statements: Items::new(alloc),
        next: first,
    };
    for (at, alg) in algs.iter().enumerate() {
        let value = definition(alloc, alg)?;
        own_types_of(value.get(), net, None, &mut types)?;
        let number = number_at(at)?;
        let path = alg.path.as_slice();
        show(alloc, names, number, path, value.get(), &mut draft)?;
    }
    let Draft {
        statements,
        next: _,
    } = draft;
    Ok(ShownText { types, statements })
}

/// The part that shows the algebraic variables. Its own variables are numbered from `first` on, and the definitions name what is in
/// the net. The time is linear in what is written.
pub(crate) fn shown_part_of(
    alloc: Global,
    net: &Net,
    names: &Names,
    first: u32,
) -> Result<Boxed<Part>, Memory>
    requires names { AreNames (net_tree net.now) names.now }
    requires named { AllByRecursion (IsNamedAlg (net_tree net.now)) (net_tree net.now).algs }
    ensures { IfOk result (λ part. part_tree part ≡ shown_part (net_tree net.now) first) }
{
    let algs = net.algs.as_slice();
    let ShownText { types, statements } = shows(alloc, net, algs, names, first)?;
    let mut all = OwnVariables {
        variables: Items::new(alloc),
        next: first,
    };
    all.add_ifs(alloc, types.as_slice())?;
    let OwnVariables { variables, next: _ } = all;
    let own = variables;
    let body = statements;
    Boxed::new(alloc, Part { own, body })
}
