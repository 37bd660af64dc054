//! The program of a net.

ghost use Rattle.std.specs.Prelude.{◌≡◌, ◌≤◌, true, map, IfOk};
ghost use Rattle.cif_net.specs.View.{choice_tree, net_tree};
ghost use Rattle.st_ast.specs.View.{view};
ghost use Rattle.plc_frame.specs.Given.{FrameFits};
ghost use Rattle.plc_frame.specs.Makes.{Makes};
ghost use Rattle.plc_event_model.specs.ProgramParts.{HasParts, net_parts, net_program, shown_first, shown_part};

use crate::parts::{Parts, all_parts, number_after};
use crate::showing::shown_part_of;
use cif_base::Memory;
use cif_net::Guarded;
use plc_event::names_of;
use plc_frame::{Bounds, frame};
use st_ast::Program;
use std::alloc::Global;

/// The bound of the numbers of own variables, which are numbered from 2 on in 31 bits.
const MOST_OWN: u32 = 2_147_483_648;

/// The program of a net, where its parts fit into the frame; `Memory` where the own variables are numbered beyond 31 bits. The time
/// is linear in the choices, in the state invariants of each, and in what is written.
pub(crate) fn emit_fitting(
    alloc: Global,
    guarded: &Guarded,
    bounds: Bounds,
) -> Result<Program, Memory>
    requires unc { bounds.unc ≤ 10000 }
    requires con { bounds.con ≤ 10000 }
    requires fits { HasParts (net_tree guarded.now.plain.net) (map choice_tree guarded.now.choices) bounds.unc bounds.con
        → FrameFits (net_tree guarded.now.plain.net) bounds.unc bounds.con
        (net_parts (net_tree guarded.now.plain.net) (map choice_tree guarded.now.choices))
        (shown_part (net_tree guarded.now.plain.net) (shown_first (net_tree guarded.now.plain.net) (map choice_tree guarded.now.choices))) }
    ensures program { IfOk result
        (λ p. view p ≡ net_program (net_tree guarded.now.plain.net) (map choice_tree guarded.now.choices) bounds.unc bounds.con) }
    ensures parts { IfOk result
        (λ p. HasParts (net_tree guarded.now.plain.net) (map choice_tree guarded.now.choices) bounds.unc bounds.con) }
    ensures makes { IfOk result (λ p. Makes (net_tree guarded.now.plain.net) bounds.unc bounds.con (view p)) }
{
    let net = &guarded.plain.net;
    let mut names = names_of(alloc, net)?;
    let Parts { parts, next } = all_parts(alloc, net, &mut names, guarded.choices.as_slice())?;
    let made = shown_part_of(alloc, net, &names, next)?;
    let shown = made.into_inner();
    let last = number_after(next, shown.own.len())?;
    if last > MOST_OWN {
        return Err(Memory);
    }
    frame(alloc, net, bounds, parts, shown)
}
