//! The value of an expression where a value may be received.

ghost use Rattle.std.specs.Prelude.{◌≡◌, pos, unwrap_or};
ghost use Rattle.cif_net_expr.specs.View.{view};
ghost use Rattle.cif_net_model.specs.Safe.{value_at, IsSafe};
ghost use Rattle.cif_value.specs.Settings.{told};

use cif_net::{NetExpr, State};

/// The value of an expression in a state (CIF 3 language reference, "Expressions"); a boolean is 0 or 1. `?` is the received
/// value, and 0 where none is given. It takes no memory.
pub fn eval(expr: &NetExpr, state: &State, received: Option<i64>) -> i64
    requires { IsSafe (told state.now (unwrap_or received (pos 0))) (view expr.now) }
    ensures { result ≡ value_at (told state.now (unwrap_or received (pos 0))) (view expr.now) }
{
    cif_value::eval(expr, state, received.unwrap_or(0))
}
