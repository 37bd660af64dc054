//! What is proved of the parts of the program of a net, as laws that a proof reads off: each the contract of a function
//! without a body.

ghost use Rattle.std.specs.Prelude.{◌≡◌, ◌<◌, ℕ, List, [], map, length};
ghost use Rattle.cif_net_model.specs.Net.{Net};
ghost use Rattle.cif_net_model.specs.Listing.{NetChoice};
ghost use Rattle.cif_net_model.specs.Meaning.{system_of_net};
ghost use Rattle.st_ast.specs.Checks.{check_faults};
ghost use Rattle.plc_model.specs.Frame.{TriesEvent, part_of};
ghost use Rattle.plc_frame.specs.Faces.{face_of_net};
ghost use Rattle.plc_frame.specs.Given.{ShowsAlgs, asked};
ghost use Rattle.plc_event_model.specs.ProgramParts.{HasParts, net_parts, net_program, shown_first, shown_part};

/// The statements that are written for the choices of an event try it, in the program of all events.
pub fn net_parts_are_tried()
    ensures { (n : Net) (cs : List NetChoice) (U C : ℕ) → HasParts n cs U C →
        check_faults (net_program n cs U C) ≡ [] → (e : ℕ) → e < length n.events →
        TriesEvent (face_of_net n) (system_of_net n) (net_program n cs U C) (part_of (map asked (net_parts n cs)) e) e }
{}

/// The statements that are written for the algebraic variables show them, in that program.
pub fn algebraic_variables_are_shown()
    ensures { (n : Net) (cs : List NetChoice) (U C : ℕ) → HasParts n cs U C →
        ShowsAlgs n (net_program n cs U C) (shown_part n (shown_first n cs)).body }
{}
