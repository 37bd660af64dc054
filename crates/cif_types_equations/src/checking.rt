//! Whether each algebraic variable has one definition.

ghost use Rattle.std.specs.Prelude.{◌≡◌, ℕ, map, option_map, IfOk};
ghost use Rattle.std.specs.Result.{IfErr};
ghost use Rattle.cif_ast.specs.View.{view};
ghost use Rattle.cif_source.specs.Source.{source_of, decl_tree};
ghost use Rattle.cif_source.specs.BodyRules.{EquationsDue};
ghost use Rattle.cif_scope.specs.Written.{body_of_written, inside_of, written_bodies};
ghost use Rattle.cif_types_equations.specs.Views.{decl_of};
ghost use Rattle.cif_types_equations.specs.Counts.{first_some};
ghost use Rattle.cif_types_equations.specs.Faults as faults;

use crate::counting::{other_count, value_count};
use crate::declarations::declarations;
use crate::error::EquationErr;
use crate::tallies::Tallies;
use crate::tallying::tallies_of;
use cif_ast::{Decl, Expr, Ident, Spec};
use cif_base::Memory;
use cif_scope::{Inside, Written, number, written_bodies};
use std::alloc::Global;

/// The fault of an algebraic variable, where it has another number of definitions than one.
fn alg_fault(
    tallies: &Tallies,
    inside: Inside<'_>,
    name: &Ident,
    value: &Option<Expr>,
) -> Result<Option<EquationErr>, Memory>
    ensures { IfOk result (λ fault. fault ≡ faults.alg_fault tallies.now (inside_of inside.entry) name.now (option_map view value.now)) }
{
    let tally = tallies.of(&name.text);
    let own = number(value_count(value) as usize + tally.own as usize)?;
    match other_count(inside, tally, own, &name.text)? {
        Some(count) => Ok(Some(EquationErr::Equations { at: name.at, count })),
        None => Ok(None),
    }
}

fn decl_fault(
    tallies: &Tallies,
    inside: Inside<'_>,
    decl: &Decl,
) -> Result<Option<EquationErr>, Memory>
    ensures { IfOk result (λ fault. fault ≡ faults.decl_fault tallies.now (inside_of inside.entry) (decl_tree decl.now)) }
{
    match decl {
        Decl::Alg { ty: _, name, value } => alg_fault(tallies, inside, name, value),
        Decl::TypeName { .. }
        | Decl::Enum { .. }
        | Decl::Event { .. }
        | Decl::Const { .. }
        | Decl::Input { .. }
        | Decl::Disc { .. }
        | Decl::Equation { .. }
        | Decl::Inv(_)
        | Decl::Marked(_) => Ok(None),
    }
}

fn first_decl_fault(
    tallies: &Tallies,
    inside: Inside<'_>,
    decls: &[&Decl],
) -> Result<Option<EquationErr>, Memory>
    ensures { IfOk result (λ fault. fault
        ≡ first_some (faults.decl_fault tallies.now (inside_of inside.entry)) (map decl_of decls.now)) }
{
    for decl in decls {
        match decl_fault(tallies, inside, decl)? {
            Some(fault) => return Ok(Some(fault)),
            None => {}
        }
    }
    Ok(None)
}

/// The first algebraic variable of a body with another number of definitions than one.
fn body_fault(alloc: Global, inside: Inside<'_>) -> Result<Option<EquationErr>, Memory>
    ensures { IfOk result (λ fault. fault ≡ faults.body_fault (inside_of inside.entry)) }
{
    let decls = declarations(alloc, inside)?;
    let tallies = tallies_of(alloc, inside, decls.as_slice())?;
    first_decl_fault(&tallies, inside, decls.as_slice())
}

fn first_fault(alloc: Global, written: &[Written<'_>]) -> Result<Option<EquationErr>, Memory>
    ensures { IfOk result (λ fault. fault ≡ faults.fault_in (map body_of_written written.now)) }
{
    for one in written {
        match body_fault(alloc, one.inside)? {
            Some(fault) => return Ok(Some(fault)),
            None => {}
        }
    }
    Ok(None)
}

fn source_fault(alloc: Global, spec: &Spec) -> Result<Option<EquationErr>, Memory>
    ensures { IfOk result (λ fault. fault ≡ faults.fault_in (written_bodies (source_of spec.now))) }
{
    let written = written_bodies(alloc, spec)?;
    first_fault(alloc, written.as_slice())
}

/// Checks that each algebraic variable has one definition, also in definitions that nobody instantiates: once in a group, and for
/// each location of an automaton. Its declared value, the equations of its component and those of the location are counted.
pub fn check_equations(alloc: Global, spec: &Spec) -> Result<(), EquationErr>
    ensures single { IfOk result (λ u. (at count : ℕ) → EquationsDue (source_of spec.now) at count → ⊥) }
    ensures refused { IfErr result (λ e. faults.due (source_of spec.now) e) }
{
    let fault = source_fault(alloc, spec)?;
    match fault {
        Some(error) => Err(error),
        None => Ok(()),
    }
}
