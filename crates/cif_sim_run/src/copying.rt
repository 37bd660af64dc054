//! The places and values of one state copied into another.

ghost use Rattle.std.specs.Prelude.{◌≡◌, length, slice_get};
ghost use Rattle.cif_eval.specs.Copies.{with_item};
ghost use Rattle.cif_net.specs.View.{state_tree};
ghost use Rattle.cif_script.specs.Touches.{DifferWithin, SameBut};
ghost use Rattle.cif_sim_run.specs.Left.{Shows};

use cif_base::Items;
use cif_net::State;
use cif_script::Touched;

/// Copies the places and values in which two states may differ. It takes no memory.
pub(crate) fn copy_shown(touched: &Touched, from: &State, to: &mut State)
    requires places { length to.old.locs ≡ length from.now.locs }
    requires values { length to.old.vals ≡ length from.now.vals }
    requires within { DifferWithin touched.now (state_tree to.old) (state_tree from.now) }
    ensures { Shows (state_tree to.new) (state_tree from.now) }
{
    copy_items(touched.autos.as_slice(), from.locs.as_slice(), &mut to.locs);
    copy_items(touched.vars.as_slice(), from.vals.as_slice(), &mut to.vals);
}

/// Copies the items with these numbers; no other ones differ.
fn copy_items<T: Copy>(numbers: &[u32], from: &[T], to: &mut Items<T>)
    requires long { length to.old ≡ length from.now }
    requires others { SameBut numbers.now to.old from.now }
    ensures { to.new ≡ from.now }
{
    for number in numbers {
        copy_item(*number as usize, from, to);
    }
}

/// Copies the item with this number, if there is one.
#[tactic(auto, using(std::proofs::lemmas::Option::slice_get_read, std::proofs::lemmas::Option::slice_get_past))]
fn copy_item<T: Copy>(at: usize, from: &[T], to: &mut Items<T>)
    requires { length to.old ≡ length from.now }
    ensures { to.new ≡ with_item to.old at (slice_get from.now at) }
{
    if at < from.len() {
        to.replace(at, from[at]);
    }
}
