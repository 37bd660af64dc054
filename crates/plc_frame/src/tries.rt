//! The statements that try the events of each class.

ghost use Rattle.std.specs.Prelude.{◌≡◌, map, reverse as reversed, IfOk};
ghost use Rattle.cif_system.specs.System as s;
ghost use Rattle.cif_net.specs.View.{net_tree};
ghost use Rattle.st_ast.specs.View.{view_stmts};
ghost use Rattle.plc_frame.specs.Tries as t;

use cif_base::{Items, Memory};
use cif_net::{Class, Net};
use st_ast::Stmt;
use std::alloc::Global;

/// The tries of the uncontrollable events, and of the controllable ones.
#[derive(Drop)]
pub struct Tries {
    pub unc: Items<Stmt>,
    pub con: Items<Stmt>,
}

/// The last of the bodies, and an empty one where there is none.
fn last_body(alloc: Global, bodies: &mut Items<Items<Stmt>>) -> Items<Stmt>
    ensures body { view_stmts result ≡ t.first_body (map view_stmts (reversed bodies.old)) }
    ensures rest { map view_stmts (reversed bodies.new) ≡ t.other_bodies (map view_stmts (reversed bodies.old)) }
{
    match bodies.pop() {
        Some(body) => body,
        None => Items::new(alloc),
    }
}

/// The statements of the events of each of the two classes, from the bodies of all events.
#[tactic(auto, using(crate::proofs::Building::statements))]
pub fn class_bodies(alloc: Global, net: &Net, bodies: Items<Items<Stmt>>) -> Result<Tries, Memory>
    ensures unc { IfOk result
        (λ both. view_stmts both.unc ≡ t.class_bodies s.unc (net_tree net.now).events (map view_stmts bodies)) }
    ensures con { IfOk result
        (λ both. view_stmts both.con ≡ t.class_bodies s.con (net_tree net.now).events (map view_stmts bodies)) }
{
    let mut bodies = bodies;
    bodies.reverse();
    let mut unc = Items::new(alloc);
    let mut con = Items::new(alloc);
    for event in net.events.as_slice() {
        let body = last_body(alloc, &mut bodies);
        match event.class {
            Class::Unc => unc.append(body)?,
            Class::Con => con.append(body)?,
            Class::Plain => {}
        }
    }
    Ok(Tries { unc, con })
}
