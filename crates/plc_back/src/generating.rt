//! The text of the program of a net.

ghost use Rattle.std.specs.Prelude.{◌≡◌, ◌<◌, ◌≤◌, ◌^◌, ℕ, true, length, map, IfOk, Err};
ghost use Rattle.cif_net.specs.View.{net_tree, choice_tree, event_tree};
ghost use Rattle.cif_net_model.specs.Meaning.{system_of_net};
ghost use Rattle.cif_net_model.specs.Nesting.{is_shallow};
ghost use Rattle.st_print.specs.Layout.{printed};
ghost use Rattle.plc_frame.specs.Faces.{face_of_net};
ghost use Rattle.plc_event_model.specs.ProgramParts.{HasParts, net_program};
ghost use Rattle.plc_back.specs.Texts.{Makes, TheProgram};
ghost use Rattle.plc_back.specs.Written.{IsFirstUnclassed, IsTextOf, first_unclassed};
ghost use Rattle.plc_back.specs.declared.error.ProfileErr.TheVariants.{Unclassed};

use crate::error::ProfileErr;
use cif_base::Memory;
use cif_net::{Class, Event, Guarded};
use plc_frame::Bounds;
use plc_gen::emit;
use st_print::print;
use std::alloc::Global;

/// The text of a Structured Text program (IEC 61131-3) that makes the scans of a net, with these most rounds of each class in a
/// scan. Each event is to be controllable or uncontrollable.
pub fn generate_text(
    alloc: Global,
    guarded: &Guarded,
    bounds: Bounds,
) -> Result<Vec<u8>, ProfileErr>
    requires shallow { is_shallow (net_tree guarded.now.plain.net) ≡ true }
    requires unc { bounds.unc ≤ 10000 }
    requires con { bounds.con ≤ 10000 }
    // It reads as one program, with all that `Makes` promises of it.
    ensures makes { IfOk result (λ text. TheProgram text.items (Makes bounds.unc bounds.con
        (face_of_net (net_tree guarded.now.plain.net)) (system_of_net (net_tree guarded.now.plain.net)) text.items)) }
    // It is the printed program that is defined for the net.
    ensures text { IfOk result
        (λ text. IsTextOf (net_tree guarded.now.plain.net) bounds.unc bounds.con text.items) }
    ensures unclassed { (event : ℕ) → result ≡ Err (Unclassed event) →
        IsFirstUnclassed (net_tree guarded.now.plain.net) event }
{
    let net = &guarded.plain.net;
    if let Some(event) = unclassed_event(net.events.as_slice()) {
        return Err(ProfileErr::Unclassed { event });
    }
    let text = program_text(alloc, guarded, bounds)?;
    Ok(text)
}

/// The first event without a class.
fn unclassed_event(events: &[Event]) -> Option<u32>
    requires { length events.now < 2 ^ 32 }
    ensures { result ≡ first_unclassed 0 (map event_tree events.now) }
{
    for (number, event) in events.iter().enumerate() {
        if event.class == Class::Plain {
            return Some(number as u32);
        }
    }
    None
}

/// The printed program of the net.
fn program_text(alloc: Global, guarded: &Guarded, bounds: Bounds) -> Result<Vec<u8>, Memory>
    requires shallow { is_shallow (net_tree guarded.now.plain.net) ≡ true }
    requires unc { bounds.unc ≤ 10000 }
    requires con { bounds.con ≤ 10000 }
    ensures text { IfOk result (λ text. text.items
        ≡ printed (net_program (net_tree guarded.now.plain.net) (map choice_tree guarded.now.choices) bounds.unc bounds.con)) }
    ensures parts { IfOk result
        (λ text. HasParts (net_tree guarded.now.plain.net) (map choice_tree guarded.now.choices) bounds.unc bounds.con) }
{
    let program = emit(alloc, guarded, bounds)?;
    print(alloc, &program)
}
