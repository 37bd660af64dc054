//! The working memory of steps.

ghost use Rattle.std.specs.Prelude.{◌≡◌, ◌≤◌, ℕ, IfOk, Some, slice_get};
ghost use Rattle.cif_net_expr.specs.View.{view_updates};
ghost use Rattle.cif_eval.specs.Updates.{most_pairs};
ghost use Rattle.cif_net.specs.declared.listing.Choice.{Choice};

use crate::assigning::make_room;
use crate::pairs::Pairs;
use cif_base::Memory;
use cif_net::{Choice, Guarded, State};
use std::alloc::Global;

/// What the calls on a guarded net work on, so that they take no memory: a state, and room for the pairs that a choice
/// assigns.
#[derive(Drop)]
pub struct Scratch {
    pub(crate) next: State,
    pub(crate) pairs: Pairs,
}

impl Scratch {
    ghost use Rattle.cif_eval.specs.Working.{IsScratchOf};

    /// Working memory for a guarded net. All memory that later calls need is taken here.
    pub fn new(alloc: Global, guarded: &Guarded) -> Result<Scratch, Memory>
        ensures { IfOk result (IsScratchOf guarded.now) }
    {
        let next = State::initial(alloc, &guarded.plain.net)?;
        let pairs = room_for(alloc, guarded.choices.as_slice())?;
        Ok(Scratch { next, pairs })
    }
}

/// Room for the pairs of each choice.
fn room_for(alloc: Global, choices: &[Choice]) -> Result<Pairs, Memory>
    ensures { IfOk result (λ pairs. (k : ℕ) (c : Choice) → slice_get choices.now k ≡ Some c → most_pairs (view_updates c.writes) ≤ pairs.room) }
{
    let mut pairs = Pairs::new(alloc);
    for choice in choices {
        pairs.clear();
        make_room(choice.writes.as_slice(), &mut pairs)?;
    }
    Ok(pairs)
}
