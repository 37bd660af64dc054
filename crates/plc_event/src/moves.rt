//! The moves of a choice, and the marks that it was made.

ghost use Rattle.std.specs.Prelude.{◌≡◌, pos, map, option_map, IfOk};
ghost use Rattle.cif_net_model.specs.Net as n;
ghost use Rattle.cif_net.specs.View.{net_tree, move_tree};
ghost use Rattle.st_ast.specs.Tree.{assign, no_stms, number, truth};
ghost use Rattle.st_ast.specs.View.{view_stmt, view_stmts};
ghost use Rattle.plc_frame.specs.Events.{move_text, moves_text, target_of};
ghost use Rattle.plc_frame.specs.Places.{place_name};
ghost use Rattle.plc_event.specs.Making as m;

use cif_base::{Boxed, Items, Memory, Text};
use cif_net::{Move, Net};
use plc_model::Letter;
use plc_names::name_of;
use st_ast::{StExpr, Stmt};
use std::alloc::Global;

/// The location to which the edge of the move leads, if it takes one.
pub(crate) fn target(net: &Net, step: Move) -> Option<u32>
    ensures { result ≡ option_map (λ (x : n.NetEdge). x.to) (target_of (net_tree net.now) (move_tree step)) }
{
    let Some(taken) = step.edge else {
        return None;
    };
    let Some(auto) = net.autos.get(step.auto as usize) else {
        return None;
    };
    match auto.edges.get(taken as usize) {
        Some(edge) => Some(edge.to),
        None => None,
    }
}

fn name_of_place(alloc: Global, net: &Net, auto: u32) -> Result<Text, Memory>
    ensures { IfOk result (λ t. t ≡ place_name (net_tree net.now) auto) }
{
    match net.autos.get(auto as usize) {
        Some(found) => name_of(alloc, Letter::L, auto, found.path.as_slice()),
        None => name_of(alloc, Letter::L, auto, b""),
    }
}

/// The automaton goes to a place.
fn going(alloc: Global, net: &Net, auto: u32, place: u32) -> Result<Boxed<Stmt>, Memory>
    ensures { IfOk result
        (λ s. view_stmt s ≡ assign (place_name (net_tree net.now) auto) (number (pos place))) }
{
    let target = name_of_place(alloc, net, auto)?;
    let value = StExpr::Int(i64::from(place));
    Boxed::new(alloc, Stmt::Assign { target, value })
}

/// Sets or clears a mark.
pub(crate) fn marking(alloc: Global, name: &Text, is_set: bool) -> Result<Boxed<Stmt>, Memory>
    ensures { IfOk result (λ s. view_stmt s ≡ assign name.now (truth is_set)) }
{
    let target = name.copy(alloc)?;
    let value = StExpr::Bool(is_set);
    Boxed::new(alloc, Stmt::Assign { target, value })
}

/// Sets these marks.
fn all_set(alloc: Global, names: &[Text]) -> Result<Items<Stmt>, Memory>
    ensures { IfOk result (λ ss. view_stmts ss ≡ m.all_set names.now) }
{
    let mut all = Items::new(alloc);
    for name in names {
        all.push(marking(alloc, name, true)?.into_inner())?;
    }
    Ok(all)
}

/// The moves alone.
fn all_moving(alloc: Global, net: &Net, steps: &[Move]) -> Result<Items<Stmt>, Memory>
    ensures { IfOk result
        (λ ss. view_stmts ss ≡ moves_text (net_tree net.now) (map move_tree steps.now) no_stms) }
{
    let mut all = Items::new(alloc);
    for step in steps {
        all.append(one_moving(alloc, net, *step)?)?;
    }
    Ok(all)
}

fn one_moving(alloc: Global, net: &Net, step: Move) -> Result<Items<Stmt>, Memory>
    ensures { IfOk result
        (λ ss. view_stmts ss ≡ move_text (net_tree net.now) (move_tree step) no_stms) }
{
    match target(net, step) {
        Some(place) => Items::only(alloc, going(alloc, net, step.auto, place)?.into_inner()),
        None => Ok(Items::new(alloc)),
    }
}

/// Each automaton whose edge is taken goes to the end of that edge, and these marks are set.
pub(crate) fn moving(
    alloc: Global,
    net: &Net,
    steps: &[Move],
    marks: &[Text],
) -> Result<Items<Stmt>, Memory>
    ensures { IfOk result
        (λ ss. view_stmts ss ≡ moves_text (net_tree net.now) (map move_tree steps.now) (m.all_set marks.now)) }
{
    let mut all = all_moving(alloc, net, steps)?;
    all.append(all_set(alloc, marks)?)?;
    Ok(all)
}
