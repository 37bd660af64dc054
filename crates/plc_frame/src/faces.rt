//! What the program shows of the automata, variables, inputs and algebraic variables of a net.

ghost use Rattle.std.specs.Prelude.{◌≡◌, ◌<◌, ◌^◌, length, map, IfOk, if◌then◌else◌};
ghost use Rattle.cif_net.specs.View.{net_tree, alg_tree, auto_tree, input_tree, var_tree};
ghost use Rattle.st_ast.specs.declared.tree.StTy.TheVariants as st;
ghost use Rattle.plc_model.specs.Face.{alg_face, algs_of, place_face, places_of};
ghost use Rattle.plc_frame.specs.Faces as f;
ghost use Rattle.plc_frame.specs.Faces.{alg_face_of, auto_face, face_of_net, stored_face};
ghost use Rattle.plc_frame.specs.Shown.{face_tree, AreFaces};
ghost use Rattle.plc_frame.specs.Variables.{mark_and_counter};

use cif_base::{Boxed, Items, Memory, Text, Ty};
use cif_net::{Auto, Net};
use st_ast::StTy;
use std::alloc::Global;

/// A variable of the program: the path of what it stands for, its type, and its first value, where a BOOL is 0 or 1.
#[derive(Drop)]
pub struct Shown {
    pub path: Text,
    pub ty: StTy,
    pub first: i64,
}

/// What the program shows of a net: the places of automata, the discrete variables, the inputs, and the algebraic variables.
#[derive(Drop)]
pub struct Faces {
    pub places: Items<Shown>,
    pub variables: Items<Shown>,
    pub inputs: Items<Shown>,
    pub algs: Items<Shown>,
}

/// What the program shows of the net.
pub fn shown_faces(alloc: Global, net: &Net) -> Result<Faces, Memory>
    ensures { IfOk result (λ f. AreFaces (net_tree net.now) f) }
{
    let places = shown_places(alloc, net)?;
    let variables = shown_variables(alloc, net)?;
    let inputs = shown_inputs(alloc, net)?;
    let algs = shown_algs(alloc, net)?;
    Ok(Faces {
        places,
        variables,
        inputs,
        algs,
    })
}

/// The type of a variable, where a literal of an enumeration is its place.
fn st_type(ty: Ty) -> StTy
    ensures { result ≡ f.st_type ty }
{
    match ty {
        Ty::Bool => StTy::Bool,
        Ty::Int { lo, hi } => StTy::Range { lo, hi },
        Ty::Enum { size } => StTy::Range {
            lo: 0,
            hi: i64::from(size) - 1,
        },
    }
}

fn shown_place(alloc: Global, auto: &Auto) -> Result<Boxed<Shown>, Memory>
    requires { length auto.now.locs < 2 ^ 32 }
    ensures { IfOk result (λ x. face_tree x ≡ place_face (auto_face (auto_tree auto.now))) }
{
    let path = auto.path.copy(alloc)?;
    let ty = StTy::Range {
        lo: 0,
        hi: auto.locs.len().saturating_sub(1) as i64,
    };
    let first = i64::from(auto.first);
    Boxed::new(alloc, Shown { path, ty, first })
}

/// The places of the automata.
fn shown_places(alloc: Global, net: &Net) -> Result<Items<Shown>, Memory>
    ensures { IfOk result (λ all. map face_tree all ≡ places_of (face_of_net (net_tree net.now))) }
{
    let mut all = Items::new(alloc);
    for auto in net.autos.as_slice() {
        all.push(shown_place(alloc, auto)?.into_inner())?;
    }
    Ok(all)
}

/// The discrete variables.
fn shown_variables(alloc: Global, net: &Net) -> Result<Items<Shown>, Memory>
    ensures { IfOk result (λ all. map face_tree all ≡ (face_of_net (net_tree net.now)).variables) }
{
    let mut all = Items::new(alloc);
    for var in net.vars.as_slice() {
        all.push(Shown {
            path: var.path.copy(alloc)?,
            ty: st_type(var.ty),
            first: var.first,
        })?;
    }
    Ok(all)
}

/// The inputs.
fn shown_inputs(alloc: Global, net: &Net) -> Result<Items<Shown>, Memory>
    ensures { IfOk result (λ all. map face_tree all ≡ (face_of_net (net_tree net.now)).inputs) }
{
    let mut all = Items::new(alloc);
    for input in net.inputs.as_slice() {
        all.push(Shown {
            path: input.path.copy(alloc)?,
            ty: st_type(input.ty),
            first: input.first,
        })?;
    }
    Ok(all)
}

/// The type of the variable that shows an algebraic one: any integer, where it isn't Boolean.
fn alg_type(ty: Ty) -> StTy
    ensures { result ≡ (if f.is_boolean ty then st.Bool else st.Lint) }
{
    match ty {
        Ty::Bool => StTy::Bool,
        _ => StTy::Lint,
    }
}

/// The algebraic variables.
fn shown_algs(alloc: Global, net: &Net) -> Result<Items<Shown>, Memory>
    ensures { IfOk result (λ all. map face_tree all ≡ algs_of (face_of_net (net_tree net.now))) }
{
    let mut all = Items::new(alloc);
    for alg in net.algs.as_slice() {
        all.push(Shown {
            path: alg.path.copy(alloc)?,
            ty: alg_type(alg.ty),
            first: 0,
        })?;
    }
    Ok(all)
}

/// The mark that something fired, and the counter of rounds.
pub fn own_variables(alloc: Global) -> Result<Items<Shown>, Memory>
    ensures { IfOk result (λ all. map face_tree all ≡ mark_and_counter) }
{
    let mut all = Items::new(alloc);
    all.push(Shown {
        path: Text::from_slice(alloc, b"fired")?,
        ty: StTy::Bool,
        first: 0,
    })?;
    all.push(Shown {
        path: Text::from_slice(alloc, b"rounds")?,
        ty: StTy::Lint,
        first: 0,
    })?;
    Ok(all)
}
