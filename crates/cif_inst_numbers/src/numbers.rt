//! The numbers of what components declare.

ghost use Rattle.std.specs.Prelude.{◌≡◌, ◌<◌, ◌+◌, ◌^◌, ℕ, true, length, slice_get, IfOk, Some};
ghost use Rattle.cif_source.specs.Source.{Source, source_of};
ghost use Rattle.cif_source.specs.Components as source;
ghost use Rattle.cif_source.specs.Objects.{automaton_number, is_automaton};
ghost use Rattle.cif_scope.specs.Scopes.{AreScopesOf, IsEntry};
ghost use Rattle.cif_inst_components.specs.Numbers.{AreComponentsOf, IsNumber};
ghost use Rattle.cif_inst_numbers.specs.declared.counts.Counts.{Counts};
ghost use Rattle.cif_inst_numbers.specs.Counting as counting;
ghost use Rattle.cif_inst_numbers.specs.Numbers.{AreCounts, AreNumbersOf, IsNumbered};

use crate::bodies::all_bodies;
use crate::counts::{Counted, Counts, counted_what};
use cif_ast::Spec;
use cif_base::{Items, Memory};
use cif_inst_components::{Component, Components, Place};
use cif_scope::{Scopes, number, written_bodies};
use std::alloc::Global;

/// What a component declares in the flat net: a number among the events, the inputs, the variables or the algebraic variables.
#[derive(Clone, Copy, Debug, PartialEq, Eq)]
pub struct Numbered {
    pub among: Counted,
    pub number: u32,
}

/// The numbers of what the components of a source declare: for each body the ranks of its names, and for each component how many
/// are declared by the components before it.
#[derive(Drop)]
pub struct Numbers {
    ranks: Items<Items<u32>>,
    firsts: Items<Counts>,
    total: Counts,
}

/// For each component what is declared by those before it, and by all.
#[derive(Drop)]
struct Firsts {
    firsts: Items<Counts>,
    total: Counts,
}

fn counts_of(bodies: &[Counts], component: Option<Component>) -> Counts
    ensures { result ≡ counting.counts_at bodies.now component }
{
    let Some(component) = component else {
        return Counts::none();
    };
    match bodies.get(component.body as usize) {
        Some(counts) => *counts,
        None => Counts::none(),
    }
}

fn firsts_of(alloc: Global, bodies: &[Counts], components: &Components) -> Result<Firsts, Memory>
    ensures firsts { IfOk result (λ f. f.firsts ≡ counting.firsts_to bodies.now components.now.all (length components.now.all)) }
    ensures total { IfOk result (λ f. f.total ≡ counting.before bodies.now components.now.all (length components.now.all)) }
    ensures few { IfOk result (λ f. counting.AreFew f.total) }
{
    let mut firsts = Items::new(alloc);
    let mut total = Counts::none();
    for component in 0..number(components.len())? {
        firsts.push(total)?;
        total = total.plus(&counts_of(bodies, components.get(component)))?;
    }
    Ok(Firsts { firsts, total })
}

/// Numbers what the components of a source declare.
pub fn number_objects(
    alloc: Global,
    spec: &Spec,
    scopes: &Scopes,
    components: &Components,
) -> Result<Numbers, Memory>
    requires scopes { AreScopesOf (source_of spec.now) scopes.now }
    requires components { AreComponentsOf (source_of spec.now) components.now }
    ensures { IfOk result (λ numbers. AreNumbersOf (source_of spec.now) numbers) }
{
    let written = written_bodies(alloc, spec)?;
    let bodies = all_bodies(alloc, scopes, written.as_slice())?;
    let Firsts { firsts, total } = firsts_of(alloc, bodies.counts.as_slice(), components)?;
    Ok(Numbers {
        ranks: bodies.ranks,
        firsts,
        total,
    })
}

impl Numbers {
    /// How many there are of each in the flat net.
    pub fn total(&self) -> Counts
        ensures { (t : Source) → AreNumbersOf t self.now → AreCounts t result }
    {
        self.total
    }

    fn rank(&self, body: u32, slot: u32) -> Option<u32>
        ensures { result ≡ counting.rank_at self.now.ranks body slot }
    {
        let ranks = self.ranks.get(body as usize)?;
        let rank = ranks.get(slot as usize)?;
        Some(*rank)
    }

    /// The first number of the component, and the rank of the name in the component's body.
    fn number(&self, among: Counted, component: u32, body: u32, slot: u32) -> Option<u32>
        ensures { (first : Counts) (rank : ℕ) → slice_get self.now.firsts component ≡ Some first →
            counting.rank_at self.now.ranks body slot ≡ Some rank → counting.of among first + rank < 2 ^ 32 →
            result ≡ Some (counting.of among first + rank) }
    {
        let first = self.firsts.get(component as usize)?;
        let rank = self.rank(body, slot)?;
        first.of(among).checked_add(rank)
    }

    /// The number of what stands at a place, where it is an event, an input, a discrete or an algebraic variable.
    pub fn declared(
        &self,
        scopes: &Scopes,
        components: &Components,
        place: Place,
    ) -> Option<Numbered>
        ensures { (t : Source) (c : source.Component) (e : source.Entry) → AreScopesOf t scopes.now → AreComponentsOf t components.now →
            AreNumbersOf t self.now → IsNumber t place.component c → IsEntry c e place.slot → IsNumbered t c e result }
    {
        let component = components.get(place.component)?;
        let among = counted_what(scopes.what(component.body, place.slot))?;
        let number = self.number(among, place.component, component.body, place.slot)?;
        Some(Numbered { among, number })
    }

    /// The number of a component that is an automaton.
    pub fn automaton(&self, component: u32) -> u32
        ensures { (t : Source) (c : source.Component) → AreNumbersOf t self.now → IsNumber t component c →
            is_automaton (source.body_of c) ≡ true → result ≡ automaton_number t c }
    {
        match self.firsts.get(component as usize) {
            Some(first) => first.automata,
            None => 0,
        }
    }
}
