//! The types of variables, of their new values, and of what is sent.

ghost use Rattle.std.specs.Prelude.{◌≡◌, true};
ghost use Rattle.cif_net_model.specs.Facts.{channel_of};
ghost use Rattle.cif_net_model.specs.Shown as t;
ghost use Rattle.cif_net_model.specs.Table as c;
ghost use Rattle.cif_net.specs.View.{chan_of, choice_tree, net_tree};
ghost use Rattle.plc_event_model.specs.Own as o;
ghost use Rattle.plc_frame.specs.Faces as f;
ghost use Rattle.plc_frame.specs.Small.{is_small};

use crate::targets::is_tested;
use cif_base::Ty;
use cif_net::{Choice, Net, NetChan};
use st_ast::StTy;

/// The type of a variable, where a literal of an enumeration is its place. The size of an enumeration is a number of 32 bits.
pub(crate) fn st_type(ty: Ty) -> StTy
    ensures mapped { result ≡ f.st_type ty }
    ensures small { is_small ty ≡ true }
{
    match ty {
        Ty::Bool => StTy::Bool,
        Ty::Int { lo, hi } => StTy::Range { lo, hi },
        Ty::Enum { size } => StTy::Range {
            lo: 0,
            hi: i64::from(size) - 1,
        },
    }
}

/// The type of a new value: any integer where it is tested, and else the type of its variable.
pub fn new_type(ty: Ty) -> StTy
    ensures { result ≡ o.new_type ty }
{
    if is_tested(ty) {
        StTy::Lint
    } else {
        st_type(ty)
    }
}

/// The type of the variable that holds what is sent: any integer, or a boolean.
pub fn sent_type(ty: Ty) -> StTy
    ensures { result ≡ o.sent_type ty }
{
    match ty {
        Ty::Bool => StTy::Bool,
        Ty::Int { lo: _, hi: _ } | Ty::Enum { size: _ } => StTy::Lint,
    }
}

/// The type of the values that an event carries, if it carries any.
fn channel_type(net: &Net, event: u32) -> Option<Ty>
    ensures { result ≡ t.channel_type (channel_of (net_tree net.now) event) }
{
    match net.events.get(event as usize) {
        Some(found) => type_on(found.chan),
        None => None,
    }
}

fn type_on(chan: NetChan) -> Option<Ty>
    ensures { result ≡ t.channel_type (chan_of chan) }
{
    match chan {
        NetChan::Of(ty) => Some(ty),
        NetChan::No | NetChan::Void => None,
    }
}

/// The type of the values that the event of the choice carries, if it carries any.
pub fn carried_type(net: &Net, choice: &Choice) -> Option<Ty>
    ensures { result ≡ c.carried_type (net_tree net.now) (choice_tree choice.now) }
{
    channel_type(net, choice.event)
}
