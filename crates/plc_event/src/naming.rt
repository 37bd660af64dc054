//! The names of a net that the texts of its expressions are written with.

ghost use Rattle.std.specs.Prelude.{◌≡◌, map, true, IfOk};
ghost use Rattle.std.specs.List.{enumerate_from};
ghost use Rattle.cif_net.specs.View.{auto_tree, input_tree, net_tree, var_tree};
ghost use Rattle.plc_model.specs.declared.letter.Letter.TheVariants as letter;
ghost use Rattle.plc_frame.specs.Small.{are_small};
ghost use Rattle.plc_event.specs.Names.{AreNames, place_text, stored_name};

use crate::types::st_type;
use cif_base::{Items, Memory, Text};
use cif_net::{Auto, Input, Net, Var};
use plc_expr::{Names, PlaceText};
use plc_model::Letter;
use plc_names::name_of;
use std::alloc::Global;

/// The names of the places of automata, of the variables and of the inputs of a net. Its own variables have the path `if`, and
/// what is received has a name for each event.
pub fn names_of(alloc: Global, net: &Net) -> Result<Names, Memory>
    ensures names { IfOk result (λ names. AreNames (net_tree net.now) names) }
    ensures small_variables { IfOk result (λ names. are_small (net_tree net.now).vars ≡ true) }
    ensures small_inputs { IfOk result (λ names. are_small (net_tree net.now).inputs ≡ true) }
{
    let places = place_names(alloc, net.autos.as_slice())?;
    let variables = variable_texts(alloc, net.vars.as_slice())?;
    let inputs = input_texts(alloc, net.inputs.as_slice())?;
    let received = Text::new(alloc);
    let own = Text::from_slice(alloc, b"if")?;
    Ok(Names {
        places,
        variables,
        inputs,
        received,
        own,
    })
}

/// Converts a place in a list to a number; `Memory` beyond 32 bits.
pub fn number_at(at: usize) -> Result<u32, Memory>
    ensures { IfOk result (λ k. k ≡ at) }
{
    match u32::try_from(at) {
        Ok(number) => Ok(number),
        Err(_) => Err(Memory),
    }
}

fn place_names(alloc: Global, autos: &[Auto]) -> Result<Items<PlaceText>, Memory>
    ensures { IfOk result (λ all. all ≡ map place_text (enumerate_from 0 (map auto_tree autos.now))) }
{
    let mut all = Items::new(alloc);
    for (at, auto) in autos.iter().enumerate() {
        let name = name_of(alloc, Letter::L, number_at(at)?, auto.path.as_slice())?;
        all.push(PlaceText::Held(name))?;
    }
    Ok(all)
}

fn variable_texts(alloc: Global, vars: &[Var]) -> Result<Items<Text>, Memory>
    ensures names { IfOk result (λ all. all ≡ map (stored_name letter.V) (enumerate_from 0 (map var_tree vars.now))) }
    ensures small { IfOk result (λ all. are_small (map var_tree vars.now) ≡ true) }
{
    let mut all = Items::new(alloc);
    for (at, one) in vars.iter().enumerate() {
        let _small = st_type(one.ty);
        all.push(name_of(alloc, Letter::V, number_at(at)?, one.path.as_slice())?)?;
    }
    Ok(all)
}

fn input_texts(alloc: Global, inputs: &[Input]) -> Result<Items<Text>, Memory>
    ensures names { IfOk result (λ all. all ≡ map (stored_name letter.H) (enumerate_from 0 (map input_tree inputs.now))) }
    ensures small { IfOk result (λ all. are_small (map input_tree inputs.now) ≡ true) }
{
    let mut all = Items::new(alloc);
    for (at, one) in inputs.iter().enumerate() {
        let _small = st_type(one.ty);
        all.push(name_of(alloc, Letter::H, number_at(at)?, one.path.as_slice())?)?;
    }
    Ok(all)
}
