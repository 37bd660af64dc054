//! What is proved of the program of a net, as laws that a proof reads off: each the contract of a function without a
//! body.

ghost use Rattle.std.specs.Prelude.{◌≡◌, ℕ, true, List, []};
ghost use Rattle.std.specs.List.{AllByRecursion};
ghost use Rattle.cif_net_model.specs.Net.{Net};
ghost use Rattle.cif_net_model.specs.Listing.{NetChoice};
ghost use Rattle.st_ast.specs.Checks.{check_faults};
ghost use Rattle.st_ast.specs.Spelled.{is_spelled};
ghost use Rattle.plc_frame.specs.Given.{IsOwnVariable};
ghost use Rattle.plc_event_model.specs.ProgramParts.{HasParts, all_own, net_program};
ghost use Rattle.cif_net_model.specs.Nesting.{is_shallow};

/// The program of a net breaks no check.
pub fn net_programs_are_checked()
    ensures { (n : Net) (cs : List NetChoice) (U C : ℕ) → HasParts n cs U C → check_faults (net_program n cs U C) ≡ [] }
{}

/// It has a spelling, where conditional updates nest no deeper than statements can.
pub fn net_programs_have_a_spelling()
    ensures { (n : Net) (cs : List NetChoice) (U C : ℕ) → HasParts n cs U C → is_shallow n ≡ true →
        is_spelled (net_program n cs U C) ≡ true }
{}

/// The variables that its parts have for themselves are numbered from 2 on, and below 2147483648.
pub fn own_variables_are_own()
    ensures { (n : Net) (cs : List NetChoice) (U C : ℕ) → HasParts n cs U C →
        AllByRecursion IsOwnVariable (all_own n cs) }
{}
