//! Choices by their numbers.

ghost use Rattle.std.specs.Prelude.{◌≡◌, ◌<◌, ◌∷◌, [], map, option_map, IfOk, OnOk};
ghost use Rattle.cif_net_expr.specs.View.{view, view_updates};
ghost use Rattle.cif_net_model.specs.Listing.{NetMove};
ghost use Rattle.cif_net.specs.View.{auto_tree, edge_tree, choice_tree, move_tree};
ghost use Rattle.cif_lin.specs.Pieces.{piece_of};
ghost use Rattle.cif_lin.specs.Parties.{cell_tree};
ghost use Rattle.cif_lin.specs.Drafts.{draft_tree, nothing_made, with_piece, with_edges, with_sent, with_option, with_cells, choice_from, quotient as quotient_of, remainder as remainder_of};
ghost use Rattle.cif_lin.specs.Cells as c;

use crate::draft::Draft;
use crate::party::Party;
use crate::tests::{closed, conjunction, edge_of as found_edge, opening};
use cif_base::{Boxed, Items, Memory};
use cif_net::{Choice, Move, Net, NetEdge, copy_updates};
use std::alloc::Global;
use std::mem;

/// The choice of a number, which is below the number of choices.
pub fn choice_at(
    alloc: Global,
    net: &Net,
    event: u32,
    parties: &[Party],
    count: usize,
    number: usize,
) -> Result<Boxed<Choice>, Memory>
    requires counted { count ≡ c.count (map cell_tree parties.now) }
    requires below { number < count }
    ensures { IfOk result (λ choice. choice_tree choice
        ≡ c.choice_at (map auto_tree net.now.autos) event (map cell_tree parties.now) number) }
{
    drafted(alloc, net, parties, count, number)?
        .into_inner()
        .into_choice(alloc, event)
}

fn drafted(
    alloc: Global,
    net: &Net,
    parties: &[Party],
    count: usize,
    number: usize,
) -> Result<Boxed<Draft>, Memory>
    ensures { IfOk result (λ d. draft_tree d
        ≡ with_cells (map auto_tree net.now.autos) (map cell_tree parties.now) nothing_made count number) }
{
    let mut draft = Draft::new(alloc);
    let mut left = count;
    let mut rest = number;
    for party in parties {
        left = quotient(left, party.options.len());
        draft.add_at(alloc, net, party, quotient(rest, left))?;
        rest = remainder(rest, left);
    }
    Boxed::new(alloc, draft)
}

fn quotient(number: usize, divisor: usize) -> usize
    ensures { result ≡ quotient_of number divisor }
{
    if divisor == 0 { 0 } else { number / divisor }
}

fn remainder(number: usize, divisor: usize) -> usize
    ensures { result ≡ remainder_of number divisor }
{
    if divisor == 0 { 0 } else { number % divisor }
}

impl Draft {
    /// The choice for an event.
    fn into_choice(self, alloc: Global, event: u32) -> Result<Boxed<Choice>, Memory>
        ensures { IfOk result (λ choice. choice_tree choice ≡ choice_from event (draft_tree self)) }
    {
        let Draft {
            moves,
            tests,
            sent,
            writes,
        } = self;
        let test = conjunction(alloc, tests)?.into_inner();
        let invariants = Items::new(alloc);
        Boxed::new(
            alloc,
            Choice {
                event,
                moves,
                test,
                sent,
                writes,
                invariants,
            },
        )
    }

    /// Adds what an automaton does by its option at a place, if there is one.
    fn add_at(&mut self, alloc: Global, net: &Net, party: &Party, at: usize) -> Result<(), Memory>
        ensures { OnOk result (draft_tree self.new
            ≡ with_option (map auto_tree net.now.autos) (draft_tree self.old) (cell_tree party.now) at) }
    {
        match party.options.get(at) {
            Some(option) => self.add(alloc, net, party, *option),
            None => Ok(()),
        }
    }

    fn new(alloc: Global) -> Draft
        ensures { draft_tree result ≡ nothing_made }
    {
        Draft {
            moves: Items::new(alloc),
            tests: Items::new(alloc),
            sent: None,
            writes: Items::new(alloc),
        }
    }

    /// Adds what an automaton does by an option.
    fn add(
        &mut self,
        alloc: Global,
        net: &Net,
        party: &Party,
        option: Option<u32>,
    ) -> Result<(), Memory>
        ensures { OnOk result (draft_tree self.new ≡ with_piece (draft_tree self.old)
            (piece_of (map auto_tree net.now.autos) (cell_tree party.now) option)) }
    {
        self.moves.push(Move {
            auto: party.number,
            edge: option,
        })?;
        match option {
            None => self.tests.append(closed(alloc, net, party.number, party.options.as_slice())?),
            Some(edge) => match found_edge(net, party.number, edge) {
                None => Ok(()),
                Some(found) => {
                    self.tests.append(opening(alloc, party.number, found)?)?;
                    self.add_edge(alloc, found)
                }
            },
        }
    }

    /// Adds what an edge sends, if nothing is sent so far, and what it assigns.
    fn add_edge(&mut self, alloc: Global, edge: &NetEdge) -> Result<(), Memory>
        ensures { OnOk result (draft_tree self.new ≡ with_edges (draft_tree self.old) (edge_tree edge.now ∷ [])) }
    {
        self.add_sent(alloc, edge)?;
        self.writes
            .append(copy_updates(edge.updates.as_slice(), alloc)?)
    }

    /// Adds what an edge sends, if nothing is sent so far.
    fn add_sent(&mut self, alloc: Global, edge: &NetEdge) -> Result<(), Memory>
        ensures { OnOk result (draft_tree self.new ≡ with_sent (draft_tree self.old) (option_map view edge.now.sent)) }
    {
        if self.sent.is_some() {
            return Ok(());
        }
        if let Some(value) = &edge.sent {
            let first = value.copy(alloc)?.into_inner();
            drop(mem::replace(&mut self.sent, Some(first)));
        }
        Ok(())
    }
}
