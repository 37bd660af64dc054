//! Whether values lie in the ranges of what they are sent on or assigned to.

ghost use Rattle.std.specs.Prelude.{◌≡◌, map, option_map, slice_get};
ghost use Rattle.cif_system.specs.System.{in_range};
ghost use Rattle.cif_net_model.specs.Meaning.{type_range};
ghost use Rattle.cif_net.specs.View.{event_tree, var_tree};
ghost use Rattle.cif_net.specs.declared.data.Var.{Var};
ghost use Rattle.cif_eval.specs.Ranges.{in_channel, in_type};
ghost use Rattle.cif_why.specs.Leaving.{is_carried, is_stored};

use crate::roles::chan_at;
use cif_base::Ty;
use cif_net::{Event, NetChan, Var};

/// Whether a value is of a type.
fn fits_type(ty: Ty, value: i64) -> bool
    ensures { result ≡ in_range (type_range ty) value }
{
    match ty {
        Ty::Bool => 0 <= value && value <= 1,
        Ty::Int { lo, hi } => lo <= value && value <= hi,
        Ty::Enum { size } => 0 <= value && value < size as i64,
    }
}

/// Whether an event carries a value; one that is no channel for values carries any.
pub(crate) fn fits_event(events: &[Event], event: u32, value: i64) -> bool
    ensures { result ≡ is_carried (map event_tree events.now) event value }
{
    fits_chan(chan_at(events, event), value)
}

fn fits_chan(chan: Option<NetChan>, value: i64) -> bool
    ensures { result ≡ in_channel chan value }
{
    match chan {
        Some(NetChan::Of(ty)) => fits_type(ty, value),
        Some(NetChan::No | NetChan::Void) | None => true,
    }
}

/// Whether a variable takes a value.
pub(crate) fn fits_variable(vars: &[Var], variable: u32, value: i64) -> bool
    ensures { result ≡ is_stored (map var_tree vars.now) variable value }
{
    fits_ty(ty_at(vars, variable), value)
}

/// The type of the variable with this number.
fn ty_at(vars: &[Var], variable: u32) -> Option<Ty>
    ensures { result ≡ option_map (λ (v : Var). v.ty) (slice_get vars.now variable) }
{
    match vars.get(variable as usize) {
        Some(var) => Some(var.ty),
        None => None,
    }
}

fn fits_ty(ty: Option<Ty>, value: i64) -> bool
    ensures { result ≡ in_type ty value }
{
    match ty {
        Some(ty) => fits_type(ty, value),
        None => false,
    }
}
