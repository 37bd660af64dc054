//! The tests of what automata do in a choice.

ghost use Rattle.std.specs.Prelude.{◌≡◌, ◌++◌, ◌∷◌, [], map, slice_get, option_map, IfOk, OnOk};
ghost use Rattle.std.specs.Option.{option_copied};
ghost use Rattle.cif_net_expr.specs.Tree.{net_expr, n_loc};
ghost use Rattle.cif_net_expr.specs.View.{view};
ghost use Rattle.cif_net_model.specs.Listing.{all_hold, fails, opens};
ghost use Rattle.cif_net.specs.View.{auto_tree, edge_tree};
ghost use Rattle.cif_lin.specs.Pieces as p;

use cif_base::{Boxed, Items, Memory};
use cif_net::{Net, NetEdge, NetExpr, NetForm};
use std::alloc::Global;

/// An edge of an automaton, if there is one.
pub fn edge_of(net: &Net, number: u32, edge: u32) -> Option<&NetEdge>
    ensures { option_map edge_tree (option_copied result) ≡ p.edge_of (map auto_tree net.now.autos) number edge }
{
    match net.autos.get(number as usize) {
        Some(found) => found.edges.get(edge as usize),
        None => None,
    }
}

/// That the automaton is where an edge begins, and that the guard holds.
pub fn opening(alloc: Global, number: u32, edge: &NetEdge) -> Result<Items<NetExpr>, Memory>
    ensures { IfOk result (λ all. map view all ≡ opens number (edge_tree edge.now)) }
{
    let guard = edge.guard.copy(alloc)?.into_inner();
    let place = location(alloc, number, edge.from)?.into_inner();
    let mut all = Items::new(alloc);
    all.push(place)?;
    all.push(guard)?;
    Ok(all)
}

#[tactic(auto, using(crate::proofs::DraftLaws::located))]
fn location(alloc: Global, auto_number: u32, place: u32) -> Result<Boxed<NetExpr>, Memory>
    ensures { IfOk result (λ e. view e ≡ net_expr (n_loc auto_number place) 0) }
{
    Boxed::new(
        alloc,
        NetExpr {
            form: NetForm::Loc {
                auto: auto_number,
                place,
            },
            at: 0,
        },
    )
}

#[tactic(auto, using(crate::proofs::DraftLaws::conjoined))]
pub fn conjunction(alloc: Global, tests: Items<NetExpr>) -> Result<Boxed<NetExpr>, Memory>
    ensures { IfOk result (λ e. view e ≡ all_hold (map view tests)) }
{
    Boxed::new(
        alloc,
        NetExpr {
            form: NetForm::And(tests),
            at: 0,
        },
    )
}

#[tactic(auto, using(crate::proofs::DraftLaws::denied))]
fn negation(alloc: Global, test: Boxed<NetExpr>) -> Result<Boxed<NetExpr>, Memory>
    ensures { IfOk result (λ e. view e ≡ fails (view test)) }
{
    Boxed::new(
        alloc,
        NetExpr {
            form: NetForm::Not(test),
            at: 0,
        },
    )
}

/// That none of the edges that an automaton may take is open.
pub fn closed(
    alloc: Global,
    net: &Net,
    number: u32,
    options: &[Option<u32>],
) -> Result<Items<NetExpr>, Memory>
    ensures { IfOk result
        (λ all. map view all ≡ p.closed (map auto_tree net.now.autos) number options.now) }
{
    let mut all = Items::new(alloc);
    for option in options {
        if let Some(edge) = *option
            && let Some(found) = edge_of(net, number, edge)
        {
            let open = conjunction(alloc, opening(alloc, number, found)?)?;
            all.push(negation(alloc, open)?.into_inner())?;
        }
    }
    Ok(all)
}
