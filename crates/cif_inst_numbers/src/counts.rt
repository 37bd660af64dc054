//! How many events, inputs, variables and automata there are.

ghost use Rattle.std.specs.Prelude.{◌≡◌, ◌<◌, ◌+◌, ◌^◌, IfOk, OnOk};
ghost use Rattle.cif_inst_numbers.specs.Counting as counting;

use cif_base::Memory;
use cif_scope::{Sort, What, number};

/// What a declaration is numbered among.
#[derive(Clone, Copy, Debug, PartialEq, Eq)]
pub enum Counted {
    Event,
    Input,
    Variable,
    Algebraic,
}

/// How many there are of each.
#[derive(Clone, Copy, Debug, PartialEq, Eq, Drop)]
pub struct Counts {
    pub events: u32,
    pub inputs: u32,
    pub variables: u32,
    pub algs: u32,
    pub automata: u32,
}

/// What the declaration of a name is numbered among.
pub fn counted_what(what: Option<What>) -> Option<Counted>
    ensures { result ≡ counting.counted_what what }
{
    match what? {
        What::Declared(Sort::Event(_)) => Some(Counted::Event),
        What::Declared(Sort::Input) => Some(Counted::Input),
        What::Declared(Sort::Discrete) => Some(Counted::Variable),
        What::Declared(Sort::Algebraic) => Some(Counted::Algebraic),
        What::Declared(Sort::Type | Sort::Enum | Sort::Constant)
        | What::Literal(_)
        | What::Location(_)
        | What::Component(_)
        | What::Definition(_, _)
        | What::Instance(_)
        | What::Parameter(_) => None,
    }
}

fn sum(count: u32, more: u32) -> Result<u32, Memory>
    ensures is { IfOk result (λ n. n ≡ count + more) }
    ensures few { OnOk result (count + more < 2 ^ 32) }
{
    number(count as usize + more as usize)
}

impl Counts {
    pub fn none() -> Counts
        ensures { result ≡ counting.none }
    {
        Counts {
            events: 0,
            inputs: 0,
            variables: 0,
            algs: 0,
            automata: 0,
        }
    }

    /// One of what is declared.
    pub fn one(counted: Option<Counted>) -> Counts
        ensures { result ≡ counting.one counted }
    {
        let mut counts = Counts::none();
        match counted {
            Some(Counted::Event) => counts.events = 1,
            Some(Counted::Input) => counts.inputs = 1,
            Some(Counted::Variable) => counts.variables = 1,
            Some(Counted::Algebraic) => counts.algs = 1,
            None => {}
        }
        counts
    }

    pub fn of(&self, counted: Counted) -> u32
        ensures { result ≡ counting.of counted self.now }
    {
        match counted {
            Counted::Event => self.events,
            Counted::Input => self.inputs,
            Counted::Variable => self.variables,
            Counted::Algebraic => self.algs,
        }
    }

    /// A count that runs out is want of memory.
    pub fn plus(&self, more: &Counts) -> Result<Counts, Memory>
        ensures is { IfOk result (λ all. all ≡ counting.plus self.now more.now) }
        ensures few { IfOk result (λ all. counting.AreFew all) }
    {
        Ok(Counts {
            events: sum(self.events, more.events)?,
            inputs: sum(self.inputs, more.inputs)?,
            variables: sum(self.variables, more.variables)?,
            algs: sum(self.algs, more.algs)?,
            automata: sum(self.automata, more.automata)?,
        })
    }
}
