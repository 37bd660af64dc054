//! Inputs and the values that they take (CIF 3 language reference, "Input variables").

ghost use Rattle.std.specs.Prelude.{◌≡◌, ◌<◌, Some, true, length, option_map, slice_get};
ghost use Rattle.cif_system.specs.System.{IsState, in_range};
ghost use Rattle.cif_net_model.specs.Meaning.{type_range};
ghost use Rattle.cif_net.specs.View.{state_tree};
ghost use Rattle.cif_net.specs.declared.data.Input.{Input};
ghost use Rattle.cif_eval.specs.Choices.{system_of};
ghost use Rattle.cif_sim_model.specs.Runs.{input_fits, with_input};

use cif_base::Ty;
use cif_net::{Guarded, Input, State};

/// Whether a value is of a type.
fn is_of_type(ty: Ty, value: i64) -> bool
    ensures { result ≡ in_range (type_range ty) value }
{
    match ty {
        Ty::Bool => 0 <= value && value <= 1,
        Ty::Int { lo, hi } => lo <= value && value <= hi,
        Ty::Enum { size } => 0 <= value && value < size as i64,
    }
}

/// The type of the input with this number.
fn type_of(inputs: &[Input], input: u32) -> Ty
    requires { input < length inputs.now }
    ensures { option_map (λ (i : Input). i.ty) (slice_get inputs.now input) ≡ Some result }
{
    inputs[input as usize].ty
}

/// Whether the input takes the value.
pub(crate) fn takes(guarded: &Guarded, input: u32, value: i64) -> bool
    requires { input < length guarded.now.plain.net.inputs }
    ensures { result ≡ input_fits (system_of guarded.now) input value }
{
    is_of_type(type_of(guarded.plain.net.inputs.as_slice(), input), value)
}

/// Stores a value in an input, which takes it.
pub(crate) fn put(guarded: &Guarded, input: u32, value: i64, state: &mut State)
    requires state { IsState (system_of guarded.now) (state_tree state.old) }
    requires fits { input_fits (system_of guarded.now) input value ≡ true }
    requires input { input < length guarded.now.plain.net.inputs }
    ensures state { IsState (system_of guarded.now) (state_tree state.new) }
    ensures input { state_tree state.new ≡ with_input (state_tree state.old) input value }
{
    state.ins.set(input as usize, value);
}
