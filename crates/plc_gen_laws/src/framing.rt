//! The laws, each the contract of a function without a body.

ghost use Rattle.std.specs.Prelude.{◌≡◌, ℕ, true, List};
ghost use Rattle.cif_net_model.specs.Net.{Net};
ghost use Rattle.cif_net_model.specs.Listing.{NetChoice};
ghost use Rattle.cif_net_model.specs.Nesting.{is_shallow};
ghost use Rattle.plc_frame.specs.Given.{FrameFits};
ghost use Rattle.plc_frame.specs.Makes.{Makes};
ghost use Rattle.plc_event_model.specs.ProgramParts.{HasParts, net_parts, net_program, shown_first, shown_part};

/// The parts of a net can be given to `frame`, where its conditional updates nest no deeper than statements can.
pub fn net_parts_are_framed()
    ensures { (n : Net) (cs : List NetChoice) (U C : ℕ) → HasParts n cs U C → is_shallow n ≡ true →
        FrameFits n U C (net_parts n cs) (shown_part n (shown_first n cs)) }
{}

/// Its program then breaks no check, has the net's inputs and outputs, starts in the initial state, makes exact scans, shows the
/// outputs and keeps all types.
pub fn net_programs_make()
    ensures { (n : Net) (cs : List NetChoice) (U C : ℕ) → HasParts n cs U C → is_shallow n ≡ true →
        Makes n U C (net_program n cs U C) }
{}
