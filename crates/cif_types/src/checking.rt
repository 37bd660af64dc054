//! Checking kinds.

ghost use Rattle.std.specs.Prelude.{IfOk};
ghost use Rattle.std.specs.Result.{IfErr};
ghost use Rattle.cif_ast.specs.Countable.{IsCountable};
ghost use Rattle.cif_source.specs.Source.{source_of};
ghost use Rattle.cif_scope.specs.Scopes.{AreScopesOf};
ghost use Rattle.cif_types_kinds.specs.Tables.{AreKindsIn};
ghost use Rattle.cif_types.specs.Kinds.{AreKindsOf, KeepsKinds, due};

use crate::bodies::check_values;
use crate::error::TypeErr;
use crate::initials::check_items;
use crate::kinds::Kinds;
use cif_ast::Spec;
use cif_scope::Scopes;
use cif_types_constancy::check_constancy;
use cif_types_equations::check_equations;
use cif_types_kinds::KindTable;
use cif_types_table::kind_table;
use cif_types_targets::check_targets;
use std::alloc::Global;

/// Checks that the bodies of a source keep each of the rules on them, by the kinds of what it declares.
#[tactic(auto, using(crate::proofs::KeptLaws::kept, crate::proofs::InitialLaws::told, crate::proofs::KeptLaws::kind_due, crate::proofs::KeptLaws::constancy_due, crate::proofs::KeptLaws::target_due, crate::proofs::KeptLaws::equation_due))]
fn check_rules(
    alloc: Global,
    spec: &Spec,
    scopes: &Scopes,
    table: &KindTable,
) -> Result<(), TypeErr>
    requires countable { IsCountable spec.now }
    requires scopes { AreScopesOf (source_of spec.now) scopes.now }
    requires kinds { AreKindsIn (source_of spec.now) table.now }
    ensures kept { IfOk result (λ u. KeepsKinds (source_of spec.now)) }
    ensures refused { IfErr result (λ e. due (source_of spec.now) e) }
{
    check_items(spec.items.as_slice())?;
    check_constancy(alloc, spec, scopes)?;
    check_targets(alloc, spec, scopes)?;
    check_equations(alloc, spec)?;
    Ok(check_values(alloc, spec, scopes, table)?)
}

/// The kinds of a source of any form, or a rule on bodies that it breaks. Its instances are checked where they stand: their
/// arguments fit the parameters of the definition. The bodies of definitions are checked once, as written, whether or not an
/// instance is made of them.
pub fn check_kinds(alloc: Global, spec: &Spec, scopes: &Scopes) -> Result<Kinds, TypeErr>
    requires countable { IsCountable spec.now }
    requires scopes { AreScopesOf (source_of spec.now) scopes.now }
    ensures kinds { IfOk result (λ k. AreKindsOf (source_of spec.now) k) }
    ensures refused { IfErr result (λ e. due (source_of spec.now) e) }
{
    let table = kind_table(alloc, spec, scopes)?;
    check_rules(alloc, spec, scopes, &table)?;
    Ok(Kinds { table })
}
