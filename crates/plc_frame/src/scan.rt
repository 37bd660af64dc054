//! The statements of a scan.

ghost use Rattle.std.specs.Prelude.{◌≡◌, map, IfOk};
ghost use Rattle.st_ast.specs.View.{view_stmts};
ghost use Rattle.cif_net.specs.View.{net_tree};
ghost use Rattle.plc_model.specs.Frame.{latches_of};
ghost use Rattle.plc_frame.specs.Faces.{face_of_net};
ghost use Rattle.plc_frame.specs.Variables.{outputs_of};
ghost use Rattle.plc_frame.specs.Shown.{AreFaces};
ghost use Rattle.plc_frame.specs.Tries.{scan_text};

use crate::Bounds;
use crate::faces::Faces;
use crate::looping::rounds;
use crate::tries::{Tries, class_bodies};
use crate::variables::copies;
use cif_base::{Items, Memory};
use cif_net::Net;
use plc_model::Letter;
use st_ast::Stmt;
use std::alloc::Global;

/// The H variables of the inputs take over the inputs.
fn latches(alloc: Global, net: &Net, faces: &Faces) -> Result<Items<Stmt>, Memory>
    requires { AreFaces (net_tree net.now) faces.now }
    ensures { IfOk result (λ ss. view_stmts ss ≡ latches_of (face_of_net (net_tree net.now))) }
{
    let _events = &net.events;
    copies(alloc, Letter::H, Letter::I, faces.inputs.as_slice())
}

/// The outputs take over the places and the variables.
fn outputs(alloc: Global, net: &Net, faces: &Faces) -> Result<Items<Stmt>, Memory>
    requires { AreFaces (net_tree net.now) faces.now }
    ensures { IfOk result (λ ss. view_stmts ss ≡ outputs_of (face_of_net (net_tree net.now))) }
{
    let _events = &net.events;
    let mut all = copies(alloc, Letter::P, Letter::L, faces.places.as_slice())?;
    all.append(copies(alloc, Letter::Q, Letter::V, faces.variables.as_slice())?)?;
    Ok(all)
}

/// The inputs are latched, then come the rounds of the uncontrollable events and those of the controllable ones, and then
/// the outputs, and behind them the statements that show the algebraic variables. The bodies are those of all events.
#[tactic(auto, using(crate::proofs::Building::view_append))]
pub fn statements(
    alloc: Global,
    net: &Net,
    bodies: Items<Items<Stmt>>,
    shown: Items<Stmt>,
    faces: &Faces,
    bounds: Bounds,
) -> Result<Items<Stmt>, Memory>
    requires { AreFaces (net_tree net.now) faces.now }
    ensures { IfOk result
        (λ ss. view_stmts ss ≡ scan_text (net_tree net.now) (map view_stmts bodies) (view_stmts shown) bounds.unc bounds.con) }
{
    let Tries { unc, con } = class_bodies(alloc, net, bodies)?;
    let mut all = latches(alloc, net, faces)?;
    all.append(rounds(alloc, bounds.unc, unc)?)?;
    all.append(rounds(alloc, bounds.con, con)?)?;
    all.append(outputs(alloc, net, faces)?)?;
    all.append(shown)?;
    Ok(all)
}
