//! The declarations of the variables, and statements by which one takes over another.

ghost use Rattle.std.specs.Prelude.{◌≡◌, ◌<◌, ◌^◌, length, map, IfOk};
ghost use Rattle.st_ast.specs.Tree.{stms_of};
ghost use Rattle.st_ast.specs.View.{view_stmt, view_stmts};
ghost use Rattle.plc_model.specs.Face as f;
ghost use Rattle.plc_frame.specs.Variables.{all_shown_by, shown_by};
ghost use Rattle.plc_frame.specs.Shown.{face_tree, declared_for};

use crate::faces::{Faces, Shown, own_variables};
use cif_base::{Boxed, Items, Memory};
use plc_model::Letter;
use plc_names::name_of;
use st_ast::{StClass, StExpr, StLit, StTy, StVar, Stmt};
use std::alloc::Global;

fn literal(ty: StTy, first: i64) -> StLit
    ensures { result ≡ f.literal_of ty first }
{
    match ty {
        StTy::Bool => StLit::Bool(first != 0),
        _ => StLit::Int(first),
    }
}

fn declaration(
    alloc: Global,
    letter: Letter,
    class: StClass,
    number: u32,
    shown: &Shown,
) -> Result<Boxed<StVar>, Memory>
    ensures { IfOk result (λ v. v ≡ f.declaration letter class (number, face_tree shown.now)) }
{
    Boxed::new(
        alloc,
        StVar {
            name: name_of(alloc, letter, number, shown.path.as_slice())?,
            class,
            ty: shown.ty,
            init: Some(literal(shown.ty, shown.first)),
            at: None,
        },
    )
}

/// The declarations of these variables, numbered from 0.
pub fn declarations(
    alloc: Global,
    letter: Letter,
    class: StClass,
    shown: &[Shown],
) -> Result<Items<StVar>, Memory>
    requires { length shown.now < 2 ^ 32 }
    ensures { IfOk result (λ all. all ≡ f.declarations letter class (map face_tree shown.now)) }
{
    let mut all = Items::new(alloc);
    for (number, one) in shown.iter().enumerate() {
        all.push(declaration(alloc, letter, class, number as u32, one)?.into_inner())?;
    }
    Ok(all)
}

/// The declarations of all variables, each letter's in a block. The parts' own come after the mark and the counter.
pub fn variables(alloc: Global, faces: &Faces, own: Items<StVar>) -> Result<Items<StVar>, Memory>
    requires places { length faces.now.places < 2 ^ 32 }
    requires variables { length faces.now.variables < 2 ^ 32 }
    requires inputs { length faces.now.inputs < 2 ^ 32 }
    requires algs { length faces.now.algs < 2 ^ 32 }
    ensures { IfOk result (λ all. all ≡ declared_for faces.now own) }
{
    let places = faces.places.as_slice();
    let variables = faces.variables.as_slice();
    let inputs = faces.inputs.as_slice();
    let marks = own_variables(alloc)?;
    let mut all = declarations(alloc, Letter::L, StClass::Plain, places)?;
    all.append(declarations(alloc, Letter::V, StClass::Plain, variables)?)?;
    all.append(declarations(alloc, Letter::H, StClass::Plain, inputs)?)?;
    all.append(declarations(alloc, Letter::T, StClass::Plain, marks.as_slice())?)?;
    all.append(own)?;
    all.append(declarations(alloc, Letter::I, StClass::Input, inputs)?)?;
    all.append(declarations(alloc, Letter::P, StClass::Output, places)?)?;
    all.append(declarations(alloc, Letter::Q, StClass::Output, variables)?)?;
    let algs = faces.algs.as_slice();
    all.append(declarations(alloc, Letter::R, StClass::Output, algs)?)?;
    Ok(all)
}

fn copy(
    alloc: Global,
    to: Letter,
    from: Letter,
    number: u32,
    shown: &Shown,
) -> Result<Boxed<Stmt>, Memory>
    ensures { IfOk result (λ s. view_stmt s ≡ shown_by to from (number, face_tree shown.now)) }
{
    let target = name_of(alloc, to, number, shown.path.as_slice())?;
    let source = name_of(alloc, from, number, shown.path.as_slice())?;
    let value = StExpr::Named(source);
    Boxed::new(alloc, Stmt::Assign { target, value })
}

/// The variables of one letter take over those of another.
pub fn copies(
    alloc: Global,
    to: Letter,
    from: Letter,
    shown: &[Shown],
) -> Result<Items<Stmt>, Memory>
    requires { length shown.now < 2 ^ 32 }
    ensures { IfOk result
        (λ ss. view_stmts ss ≡ stms_of (all_shown_by to from (map face_tree shown.now))) }
{
    let mut all = Items::new(alloc);
    for (number, one) in shown.iter().enumerate() {
        all.push(copy(alloc, to, from, number as u32, one)?.into_inner())?;
    }
    Ok(all)
}
