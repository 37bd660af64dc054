//! The exclusions and the state invariants of the net (CIF 3 language reference, "Invariants").

ghost use Rattle.std.specs.Prelude.{◌≡◌, ◌<◌, ◌∷◌, ◌++◌, [], map, flat_map, length, IfOk, OnOk};
ghost use Rattle.cif_ast.specs.View.{view};
ghost use Rattle.cif_source.specs.Objects.{components_of};
ghost use Rattle.cif_net_expr.specs.View as net;
ghost use Rattle.cif_net.specs.View.{exclusion_tree, invariant_tree};
ghost use Rattle.cif_inst_model.specs.Flat.{predicate_at, net_of_source};
ghost use Rattle.cif_inst_names.specs.Looking.{AreNamesOf, source_for, component_at};
ghost use Rattle.cif_inst_paths.specs.Names.{AreMatchedNames};
ghost use Rattle.cif_inst_paths.specs.Rows.{rows_of};
ghost use Rattle.cif_inst_paths.specs.Views.{row_tree};
ghost use Rattle.cif_inst_predicates.specs.Predicates as by_number;
ghost use Rattle.cif_inst_predicates.specs.Stated.{StandBelow};
ghost use Rattle.cif_inst_predicates.specs.Views.{stated_tree};

use crate::stated::{Stated, all_stated};
use cif_ast::{Expr, Inv, Name};
use cif_base::{Boxed, Items, Memory};
use cif_inst_names::{Looking, expression};
use cif_inst_paths::Row;
use cif_net::{Exclusion, Invariant};
use cif_net_expr::NetExpr;
use std::alloc::Global;

/// The exclusions and the state invariants of a net.
#[derive(Drop)]
pub struct Predicates {
    pub exclusions: Items<Exclusion>,
    pub invariants: Items<Invariant>,
}

/// A predicate that a component states, at its own place.
fn predicate(
    alloc: Global,
    looking: &Looking<'_, '_>,
    component: u32,
    p: &Expr,
) -> Result<Boxed<NetExpr>, Memory>
    requires names { AreNamesOf looking.now }
    requires component { component < length (components_of (source_for looking.now)) }
    ensures { IfOk result (λ x. net.view x ≡ predicate_at (component_at looking.now component) (view p.now)) }
{
    let made = expression(alloc, looking, component, p)?;
    let NetExpr { form, at: _ } = made.into_inner();
    Boxed::new(alloc, NetExpr { form, at: p.at })
}

/// Adds an exclusion of one event, which needs the predicate where `allows` is true.
fn add_exclusion(
    alloc: Global,
    looking: &Looking<'_, '_>,
    component: u32,
    p: &Expr,
    allows: bool,
    name: &Name,
    all: &mut Items<Exclusion>,
) -> Result<(), Memory>
    requires names { AreNamesOf looking.now }
    requires component { component < length (components_of (source_for looking.now)) }
    ensures { OnOk result (map exclusion_tree all.new
        ≡ map exclusion_tree all.old ++ by_number.exclusion_by (component_at looking.now component) (view p.now) allows name.now ∷ []) }
{
    let pred = predicate(alloc, looking, component, p)?;
    all.push(Exclusion {
        event: looking.event(component, name),
        pred: pred.into_inner(),
        allows,
    })
}

/// Adds an exclusion of each of these events.
fn add_each(
    alloc: Global,
    looking: &Looking<'_, '_>,
    component: u32,
    p: &Expr,
    allows: bool,
    events: &[Name],
    all: &mut Items<Exclusion>,
) -> Result<(), Memory>
    requires names { AreNamesOf looking.now }
    requires component { component < length (components_of (source_for looking.now)) }
    ensures { OnOk result (map exclusion_tree all.new
        ≡ map exclusion_tree all.old ++ map (by_number.exclusion_by (component_at looking.now component) (view p.now) allows) events.now) }
{
    for name in events {
        add_exclusion(alloc, looking, component, p, allows, name, all)?;
    }
    Ok(())
}

/// Adds the exclusions that an invariant of the source is.
fn add_exclusions(
    alloc: Global,
    looking: &Looking<'_, '_>,
    one: &Stated<'_>,
    all: &mut Items<Exclusion>,
) -> Result<(), Memory>
    requires names { AreNamesOf looking.now }
    requires component { one.now.component < length (components_of (source_for looking.now)) }
    ensures { OnOk result (map exclusion_tree all.new ≡ map exclusion_tree all.old ++ by_number.stated_exclusions looking.now (stated_tree one.now)) }
{
    let component = one.component;
    match one.inv {
        Inv::State(_) => Ok(()),
        Inv::Needs { events, p } => {
            add_each(alloc, looking, component, p, true, events.as_slice(), all)
        }
        Inv::Disables { p, events } => {
            add_each(alloc, looking, component, p, false, events.as_slice(), all)
        }
    }
}

/// Adds the state invariant that an invariant of the source is, if it is one.
fn add_invariant(
    alloc: Global,
    looking: &Looking<'_, '_>,
    one: &Stated<'_>,
    all: &mut Items<Invariant>,
) -> Result<(), Memory>
    requires names { AreNamesOf looking.now }
    requires component { one.now.component < length (components_of (source_for looking.now)) }
    ensures { OnOk result (map invariant_tree all.new ≡ map invariant_tree all.old ++ by_number.stated_invariants looking.now (stated_tree one.now)) }
{
    match one.inv {
        Inv::State(p) => {
            let pred = predicate(alloc, looking, one.component, p)?;
            all.push(Invariant {
                pred: pred.into_inner(),
                at: p.at,
            })
        }
        Inv::Needs { .. } | Inv::Disables { .. } => Ok(()),
    }
}

fn all_exclusions(
    alloc: Global,
    looking: &Looking<'_, '_>,
    found: &[Stated<'_>],
) -> Result<Items<Exclusion>, Memory>
    requires names { AreNamesOf looking.now }
    requires below { StandBelow looking.now (map stated_tree found.now) }
    ensures { IfOk result (λ all. map exclusion_tree all ≡ flat_map (by_number.stated_exclusions looking.now) (map stated_tree found.now)) }
{
    let mut all = Items::new(alloc);
    for one in found {
        add_exclusions(alloc, looking, one, &mut all)?;
    }
    Ok(all)
}

fn all_invariants(
    alloc: Global,
    looking: &Looking<'_, '_>,
    found: &[Stated<'_>],
) -> Result<Items<Invariant>, Memory>
    requires names { AreNamesOf looking.now }
    requires below { StandBelow looking.now (map stated_tree found.now) }
    ensures { IfOk result (λ all. map invariant_tree all ≡ flat_map (by_number.stated_invariants looking.now) (map stated_tree found.now)) }
{
    let mut all = Items::new(alloc);
    for one in found {
        add_invariant(alloc, looking, one, &mut all)?;
    }
    Ok(all)
}

/// The exclusions and the state invariants of these components, an exclusion for each event that is named.
pub fn predicates_of(
    alloc: Global,
    looking: &Looking<'_, '_>,
    rows: &[Row<'_>],
) -> Result<Predicates, Memory>
    requires names { AreMatchedNames looking.now }
    requires rows { map row_tree rows.now ≡ rows_of (source_for looking.now) }
    ensures exclusions { IfOk result (λ all. map exclusion_tree all.exclusions ≡ (net_of_source (source_for looking.now)).exclusions) }
    ensures invariants { IfOk result (λ all. map invariant_tree all.invariants ≡ (net_of_source (source_for looking.now)).invariants) }
{
    let found = all_stated(alloc, rows)?;
    Ok(Predicates {
        exclusions: all_exclusions(alloc, looking, found.as_slice())?,
        invariants: all_invariants(alloc, looking, found.as_slice())?,
    })
}
