//! State invariants by their numbers.

ghost use Rattle.std.specs.Prelude.{◌≡◌, pos, map, slice_get};
ghost use Rattle.cif_net.specs.View.{invariant_tree, state_tree};
ghost use Rattle.cif_value.specs.Settings.{told};
ghost use Rattle.cif_eval.specs.Copies.{copied_invariant, copied_invariants};
ghost use Rattle.cif_eval.specs.Updates.{AreSafeInvariants, IsSafeInvariant, invariant_holds, invariants_hold};

use crate::copying::copy_named;
use cif_net::{Invariant, State};
use cif_value::holds;

/// Copies what the state invariants with these numbers name.
pub(crate) fn copy_invariants(
    numbers: &[u32],
    invariants: &[Invariant],
    from: &State,
    to: &mut State,
)
    ensures { state_tree to.new ≡ copied_invariants (map invariant_tree invariants.now) numbers.now (state_tree from.now) (state_tree to.old) }
{
    for number in numbers {
        copy_invariant(*number, invariants, from, to);
    }
}

#[tactic(auto, using(crate::proofs::Reading::at_mapped))]
fn copy_invariant(number: u32, invariants: &[Invariant], from: &State, to: &mut State)
    ensures { state_tree to.new ≡ copied_invariant (slice_get (map invariant_tree invariants.now) number) (state_tree from.now) (state_tree to.old) }
{
    match invariants.get(number as usize) {
        Some(invariant) => copy_named(&invariant.pred, from, to),
        None => {}
    }
}

/// Whether the state invariants with these numbers hold.
pub(crate) fn all_hold(numbers: &[u32], invariants: &[Invariant], state: &State) -> bool
    requires { AreSafeInvariants (told state.now (pos 0)) (map invariant_tree invariants.now) numbers.now }
    ensures { result ≡ invariants_hold (told state.now (pos 0)) (map invariant_tree invariants.now) numbers.now }
{
    for number in numbers {
        if !one_holds(*number, invariants, state) {
            return false;
        }
    }
    true
}

#[tactic(auto, using(crate::proofs::Reading::at_mapped))]
fn one_holds(number: u32, invariants: &[Invariant], state: &State) -> bool
    requires { IsSafeInvariant (told state.now (pos 0)) (slice_get (map invariant_tree invariants.now) number) }
    ensures { result ≡ invariant_holds (told state.now (pos 0)) (slice_get (map invariant_tree invariants.now) number) }
{
    match invariants.get(number as usize) {
        Some(invariant) => holds(&invariant.pred, state),
        None => true,
    }
}
