//! The whole net.

ghost use Rattle.std.specs.Prelude.{◌≡◌, IfOk};
ghost use Rattle.cif_net_model.specs.Inline.{Unfolds};
ghost use Rattle.cif_net_model.specs.Meaning.{system_of_net};
ghost use Rattle.cif_net.specs.View.{net_of_parts, net_tree};
ghost use Rattle.cif_alg_order.specs.Orders.{IsOrderOf};

use crate::defining::definitions;
use crate::replacing::Replacing;
use cif_base::{Items, Memory};
use cif_net::{Alg, Auto, Event, Exclusion, Input, Invariant, Net, Var, nets_are_nets};
use cif_net_laws::{unfolded_nets_are_nets, unfolded_nets_mean_the_same};
use std::alloc::Global;

/// The parts of a net, of which it is not kept that they make a net.
#[derive(Debug, Drop)]
struct Parts {
    pub autos: Items<Auto>,
    pub events: Items<Event>,
    pub inputs: Items<Input>,
    pub vars: Items<Var>,
    pub algs: Items<Alg>,
    pub exclusions: Items<Exclusion>,
    pub invariants: Items<Invariant>,
}

/// The parts of the net in which each algebraic variable is replaced by its definition.
fn unfolded_parts(alloc: Global, net: Net, order: &[u32]) -> Result<Parts, Memory>
    requires { IsOrderOf (net_tree net) order.now }
    ensures { IfOk result (λ p. Unfolds (net_tree net) (net_of_parts p.autos p.events p.inputs p.vars p.algs p.exclusions p.invariants)) }
{
    let by = definitions(alloc, &net.algs, order)?;
    let replacing = Replacing {
        alloc,
        by: by.as_slice(),
    };
    let Net {
        autos,
        events,
        inputs,
        vars,
        algs,
        exclusions,
        invariants,
    } = net;
    Ok(Parts {
        autos: replacing.autos(autos)?,
        events,
        inputs,
        vars,
        algs: replacing.algs(algs)?,
        exclusions: replacing.exclusions(exclusions.as_slice())?,
        invariants: replacing.invariants(invariants.as_slice())?,
    })
}

/// The net in which each algebraic variable is replaced by its definition, in which they are replaced too (CIF 3 language reference,
/// "Algebraic variables"). In the order each of them stands after those that its definitions name. It means the same. The time is
/// linear in what is written.
pub fn unfold(alloc: Global, net: Net, order: &[u32]) -> Result<Net, Memory>
    requires { IsOrderOf (net_tree net) order.now }
    ensures unfolds { IfOk result (λ p. Unfolds (net_tree net) (net_tree p)) }
    ensures same { IfOk result (λ p. system_of_net (net_tree p) ≡ system_of_net (net_tree net)) }
{
    nets_are_nets();
    unfolded_nets_are_nets();
    unfolded_nets_mean_the_same();
    let Parts {
        autos,
        events,
        inputs,
        vars,
        algs,
        exclusions,
        invariants,
    } = unfolded_parts(alloc, net, order)?;
    Ok(Net {
        autos,
        events,
        inputs,
        vars,
        algs,
        exclusions,
        invariants,
    })
}
