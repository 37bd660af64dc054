//! The states of a net.

ghost use Rattle.std.specs.Prelude.{◌≡◌, map, IfOk};
ghost use Rattle.cif_system.specs.System.{initial};
ghost use Rattle.cif_net_model.specs.Meaning.{system_of_net};
ghost use Rattle.cif_net.specs.View.{net_tree, state_tree};
ghost use Rattle.cif_net.specs.declared.automata.Auto.{Auto};
ghost use Rattle.cif_net.specs.declared.data.Input.{Input};
ghost use Rattle.cif_net.specs.declared.data.Var.{Var};

use crate::automata::Auto;
use crate::data::{Input, Var};
use crate::net::Net;
use cif_base::{Items, Memory};
use std::alloc::Global;

/// A state: the location of each automaton, and the value of each variable and of each input. A boolean is 0 or 1, and a
/// literal is its place in its enumeration.
#[derive(Debug, Drop)]
pub struct State {
    pub locs: Items<u32>,
    pub vals: Items<i64>,
    pub ins: Items<i64>,
}

impl State {
    /// The state in which each automaton is in its first location, and variables and inputs have their first values.
    #[tactic(auto, using(crate::proofs::Initial::initial_state))]
    pub fn initial(alloc: Global, net: &Net) -> Result<State, Memory>
        ensures { IfOk result (λ s. state_tree s ≡ initial (system_of_net (net_tree net.now))) }
    {
        Ok(State {
            locs: first_places(alloc, net.autos.as_slice())?,
            vals: first_values(alloc, net.vars.as_slice())?,
            ins: first_inputs(alloc, net.inputs.as_slice())?,
        })
    }
}

fn first_places(alloc: Global, autos: &[Auto]) -> Result<Items<u32>, Memory>
    ensures { IfOk result (λ all. all ≡ map (λ (a : Auto). a.first) autos.now) }
{
    let mut all = Items::new(alloc);
    for auto in autos {
        all.push(auto.first)?;
    }
    Ok(all)
}

fn first_values(alloc: Global, vars: &[Var]) -> Result<Items<i64>, Memory>
    ensures { IfOk result (λ all. all ≡ map (λ (v : Var). v.first) vars.now) }
{
    let mut all = Items::new(alloc);
    for var in vars {
        all.push(var.first)?;
    }
    Ok(all)
}

fn first_inputs(alloc: Global, inputs: &[Input]) -> Result<Items<i64>, Memory>
    ensures { IfOk result (λ all. all ≡ map (λ (v : Input). v.first) inputs.now) }
{
    let mut all = Items::new(alloc);
    for input in inputs {
        all.push(input.first)?;
    }
    Ok(all)
}
