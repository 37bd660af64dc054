//! The program of a net, with what is promised of it.

ghost use Rattle.std.specs.Prelude.{◌≡◌, ◌≤◌, true, map, IfOk};
ghost use Rattle.cif_net.specs.View.{choice_tree, net_tree};
ghost use Rattle.cif_net_model.specs.Nesting.{is_shallow};
ghost use Rattle.st_ast.specs.View.{view};
ghost use Rattle.plc_frame.specs.Makes.{Makes};
ghost use Rattle.plc_event_model.specs.ProgramParts.{HasParts, net_program};

use crate::program::emit_fitting;
use cif_base::Memory;
use cif_net::Guarded;
use plc_frame::Bounds;
use st_ast::Program;
use std::alloc::Global;

/// The program of a net whose conditional updates nest no deeper than statements can. It makes the net's scans, with at most
/// `bounds` rounds of each class; `Memory` where the own variables are numbered beyond 31 bits. The time is linear in the choices,
/// in the state invariants of each, and in what is written.
pub fn emit(alloc: Global, guarded: &Guarded, bounds: Bounds) -> Result<Program, Memory>
    requires shallow { is_shallow (net_tree guarded.now.plain.net) ≡ true }
    requires unc { bounds.unc ≤ 10000 }
    requires con { bounds.con ≤ 10000 }
    ensures program { IfOk result
        (λ p. view p ≡ net_program (net_tree guarded.now.plain.net) (map choice_tree guarded.now.choices) bounds.unc bounds.con) }
    ensures parts { IfOk result
        (λ p. HasParts (net_tree guarded.now.plain.net) (map choice_tree guarded.now.choices) bounds.unc bounds.con) }
    ensures makes { IfOk result (λ p. Makes (net_tree guarded.now.plain.net) bounds.unc bounds.con (view p)) }
{
    emit_fitting(alloc, guarded, bounds)
}
