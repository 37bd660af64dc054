//! The program round statements that a caller gives for the events.

ghost use Rattle.std.specs.Prelude.{◌≡◌, ◌≤◌, ◌++◌, map, IfOk};
ghost use Rattle.cif_net.specs.View.{net_tree};
ghost use Rattle.st_ast.specs.View.{view, view_stmts};
ghost use Rattle.plc_frame.specs.Given.{EventPart, FrameFits, body_of, framed_program, own_variables, part_tree};
ghost use Rattle.plc_frame.specs.Makes.{Makes};

use crate::Bounds;
use crate::faces::shown_faces;
use crate::scan::statements;
use crate::variables::variables;
use cif_base::{Items, Memory, Text};
use cif_net::Net;
use st_ast::{Program, StVar, Stmt};
use std::alloc::Global;

/// What a caller gives for an event, or for the algebraic variables that are shown: the variables of its own, and its statements.
#[derive(Debug, Drop)]
pub struct Part {
    pub own: Items<StVar>,
    pub body: Items<Stmt>,
}

/// The variables of all parts, and the statements of each event.
#[derive(Drop)]
struct Split {
    own: Items<StVar>,
    bodies: Items<Items<Stmt>>,
}

/// The variables of all parts, and these behind them, and the statements of each.
fn taken_apart(alloc: Global, parts: Items<Part>, last: Items<StVar>) -> Result<Split, Memory>
    ensures own { IfOk result (λ s. s.own ≡ own_variables (map part_tree parts) ++ last) }
    ensures bodies { IfOk result (λ s. map view_stmts s.bodies ≡ map body_of (map part_tree parts)) }
{
    let mut own = Items::new(alloc);
    let mut bodies = Items::new(alloc);
    for part in parts.into_vec() {
        let Part { own: more, body } = part;
        own.append(more)?;
        bodies.push(body)?;
    }
    own.append(last)?;
    Ok(Split { own, bodies })
}

/// The program round these parts, one for each event, and round the one that shows the algebraic variables. In each scan it
/// latches the inputs, makes rounds of the uncontrollable events, then rounds of the controllable ones, and then shows the state
/// in its outputs, the algebraic variables last. In a round the statements of the events of the class stand in the order of
/// their numbers. The rounds of a class end after one in which nothing fired, or after the bound of the class. The variables of
/// the parts are declared after the mark that something fired (`T0_fired`) and the counter of rounds (`T1_rounds`). The time is
/// linear in what is written.
pub fn frame(
    alloc: Global,
    net: &Net,
    bounds: Bounds,
    parts: Items<Part>,
    shown: Part,
) -> Result<Program, Memory>
    requires fits { FrameFits (net_tree net.now) bounds.unc bounds.con (map part_tree parts) (part_tree shown) }
    requires unc { bounds.unc ≤ 10000 }
    requires con { bounds.con ≤ 10000 }
    ensures text { IfOk result
        (λ p. view p ≡ framed_program (net_tree net.now) (map part_tree parts) (part_tree shown) bounds.unc bounds.con) }
    ensures makes { IfOk result (λ p. Makes (net_tree net.now) bounds.unc bounds.con (view p)) }
{
    let faces = shown_faces(alloc, net)?;
    let Part {
        own: last,
        body: outputs,
    } = shown;
    let Split { own, bodies } = taken_apart(alloc, parts, last)?;
    let body = statements(alloc, net, bodies, outputs, &faces, bounds)?;
    let vars = variables(alloc, &faces, own)?;
    let name = Text::from_slice(alloc, b"CifScan")?;
    Ok(Program { name, vars, body })
}
