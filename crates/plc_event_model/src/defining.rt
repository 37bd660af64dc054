//! What is proved of the definitions of algebraic variables, as a law that a proof reads off: the contract of a function without
//! a body.

ghost use Rattle.std.specs.Prelude.{◌≡◌, true};
ghost use Rattle.std.specs.List.{AllByRecursion};
ghost use Rattle.cif_net_model.specs.Net.{Net};
ghost use Rattle.cif_net_model.specs.Rules.{is_plain};
ghost use Rattle.plc_event_model.specs.Definitions.{IsDefinition};

/// The definition of each algebraic variable of a plain net is an expression of the variable's kind that names no algebraic
/// variable, is safe in each state, and has the variable's value. A definition by location is an `if` over the locations.
pub fn definitions_are_told()
    ensures { (n : Net) → is_plain n ≡ true → AllByRecursion (IsDefinition n) n.algs }
{}
