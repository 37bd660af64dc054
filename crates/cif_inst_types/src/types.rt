//! The types of the flat net that types of a source become, and the first values of variables.

ghost use Rattle.std.specs.Prelude.{◌≡◌, ℕ, map, IfOk};
ghost use Rattle.cif_ast.specs.View.{view};
ghost use Rattle.cif_ast.specs.Tree.{Tree};
ghost use Rattle.cif_ast.specs.declared.names.Ident.{Ident};
ghost use Rattle.cif_system.specs.Words.{Member};
ghost use Rattle.cif_source.specs.Source.{Source, type_tree};
ghost use Rattle.cif_source.specs.Components.{Component, as_written};
ghost use Rattle.cif_source.specs.Objects.{components_of};
ghost use Rattle.cif_source.specs.Types.{first_of_type};
ghost use Rattle.cif_source.specs.Constants.{types_of, typed_constants};
ghost use Rattle.cif_scope.specs.Tables.{IsBody};
ghost use Rattle.cif_inst_constants.specs.Slots.{row_of, slot_of, decl_at};
ghost use Rattle.cif_inst_constants.specs.Typed.{IsTyped};
ghost use Rattle.cif_inst_model.specs.Types.{net_type};
ghost use Rattle.cif_inst_types.specs.Leaves as leaves;
ghost use Rattle.cif_inst_types.specs.Types.{net_type_of, given_tree, typed_value};

use cif_ast::{Decl, Expr, Ident, TypeUse};
use cif_base::{Items, Memory, Text, Ty};
use cif_inst_constants::Types;
use cif_scope::{Looked, number};
use std::alloc::Global;

/// A type of the net: its numbers, and the names of the literals of an enumeration.
#[derive(Debug, Drop)]
pub struct NetTy {
    pub ty: Ty,
    pub literals: Items<Text>,
}

/// A type that is no name of another: booleans or numbers, or an enumeration by its literals.
#[derive(Clone, Copy, Drop)]
pub enum Leaf<'a> {
    Plain(Ty),
    Enum(&'a [Ident]),
}

/// Such a type, or the type in a body that a name stands for.
#[derive(Clone, Copy, Drop)]
pub enum Step<'a> {
    Known(Leaf<'a>),
    Further(u32, &'a TypeUse),
}

/// What stands in for a type where none is found.
const NO_TYPE: Ty = Ty::Int { lo: 0, hi: 0 };

const INT: Ty = Ty::Int {
    lo: -2_147_483_648,
    hi: 2_147_483_647,
};

/// The declaration in a slot of a body.
#[tactic(auto, using(cif_inst_constants::proofs::RowLaws::get_row))]
pub fn decl_at<'a>(types: &Types<'a>, body: u32, slot: u32) -> Option<&'a Decl>
    ensures { slot_of result ≡ decl_at (map row_of types.now.rows.now) body slot }
{
    match types.rows.get(body as usize) {
        Some(row) => match row.get(slot as usize) {
            Some(found) => *found,
            None => None,
        },
        None => None,
    }
}

fn decl_step<'a>(body: u32, decl: Option<&'a Decl>) -> Step<'a>
    ensures { leaves.step_view result ≡ leaves.decl_step body (slot_of decl.entry) }
{
    match decl {
        Some(Decl::TypeName { name: _, ty }) => Step::Further(body, ty),
        Some(Decl::Enum { name: _, literals }) => Step::Known(Leaf::Enum(literals.as_slice())),
        Some(
            Decl::Event { .. }
            | Decl::Const { .. }
            | Decl::Alg { .. }
            | Decl::Input { .. }
            | Decl::Disc { .. }
            | Decl::Equation { .. }
            | Decl::Inv(_)
            | Decl::Marked(_),
        )
        | None => Step::Known(Leaf::Plain(NO_TYPE)),
    }
}

/// The value of a constant expression of a body, and 0 where it has none.
pub fn value_or_zero(types: &Types<'_>, body: u32, expr: &Expr) -> i64
    ensures { result ≡ leaves.value_in types.now body (view expr.now) }
{
    match types.constants.value(types.scopes, body, expr) {
        Some(value) => value,
        None => 0,
    }
}

fn found_step<'a>(types: &Types<'a>, found: Looked) -> Step<'a>
    ensures { leaves.step_view result ≡ leaves.found_step (map row_of types.now.rows.now) found }
{
    match found {
        Looked::At(body, slot) => decl_step(body, decl_at(types, body, slot)),
        Looked::Missing | Looked::Blocked => Step::Known(Leaf::Plain(NO_TYPE)),
    }
}

fn type_step<'a>(types: &Types<'a>, body: u32, ty: &'a TypeUse) -> Step<'a>
    ensures { leaves.step_view result ≡ leaves.type_step types.now body (type_tree ty.now) }
{
    match ty {
        TypeUse::Bool => Step::Known(Leaf::Plain(Ty::Bool)),
        TypeUse::Int => Step::Known(Leaf::Plain(INT)),
        TypeUse::Range(lower, upper) => {
            let lo = value_or_zero(types, body, lower);
            let hi = value_or_zero(types, body, upper);
            Step::Known(Leaf::Plain(Ty::Int { lo, hi }))
        }
        TypeUse::Named(name) => found_step(types, types.scopes.look(true, body, name)),
    }
}

/// The type that a type in a body is, through fewer names of types than `turns`.
pub fn leaf_of<'a>(types: &Types<'a>, turns: usize, body: u32, ty: &'a TypeUse) -> Leaf<'a>
    ensures { leaves.leaf_view result ≡ leaves.type_in types.now turns body (type_tree ty.now) }
{
    let mut at = body;
    let mut next = ty;
    for _turn in 0..turns {
        match type_step(types, at, next) {
            Step::Known(leaf) => return leaf,
            Step::Further(further, named) => {
                at = further;
                next = named;
            }
        }
    }
    Leaf::Plain(NO_TYPE)
}

fn names(alloc: Global, literals: &[Ident]) -> Result<Items<Text>, Memory>
    ensures { IfOk result (λ all. all ≡ map (λ (n : Ident). n.text) literals.now) }
{
    let mut all = Items::new(alloc);
    for literal in literals {
        all.push(literal.text.copy(alloc)?)?;
    }
    Ok(all)
}

fn net_ty(alloc: Global, leaf: Leaf<'_>) -> Result<NetTy, Memory>
    ensures { IfOk result (λ x. net_type_of x ≡ leaves.leaf_view leaf.entry) }
{
    match leaf {
        Leaf::Plain(ty) => Ok(NetTy {
            ty,
            literals: Items::new(alloc),
        }),
        Leaf::Enum(literals) => {
            let size = number(literals.len())?;
            Ok(NetTy {
                ty: Ty::Enum { size },
                literals: names(alloc, literals)?,
            })
        }
    }
}

/// The type of the net that a type becomes in a component which is written as this body: through names of types, with the values
/// of its bounds. `turns` is one more than all components have declarations (CIF 3 language reference, "Types").
pub fn type_of(
    alloc: Global,
    types: &Types<'_>,
    turns: usize,
    body: u32,
    ty: &TypeUse,
) -> Result<NetTy, Memory>
    ensures { (t : Source) (c : Component) → IsTyped t types.now turns → Member c (components_of t) → IsBody t body (as_written c)
        → Member (type_tree ty.now) (types_of c)
        → IfOk result (λ x. net_type_of x ≡ net_type c (type_tree ty.now)) }
{
    net_ty(alloc, leaf_of(types, turns, body, ty))
}

/// The value that a variable or an input has at first in a component which is written as this body: its first value (CIF 3 language
/// reference, "Discrete variables"), or else the value of its type that is nearest to 0. `turns` is as for `type_of`.
pub fn first_value(
    types: &Types<'_>,
    turns: usize,
    body: u32,
    ty: &TypeUse,
    value: Option<&Expr>,
) -> Result<i64, Memory>
    ensures { (t : Source) (c : Component) → IsTyped t types.now turns → Member c (components_of t) → IsBody t body (as_written c)
        → Member (type_tree ty.now) (types_of c)
        → ((e : Tree) → given_tree value.entry ≡ Some e → Member (typed_value (type_tree ty.now) e) (typed_constants c))
        → IfOk result (λ z. z ≡ first_of_type c (type_tree ty.now) (given_tree value.entry)) }
{
    match value {
        Some(value) => Ok(value_or_zero(types, body, value)),
        None => {
            let range = types.range(body, ty, turns)?;
            Ok(range.nearest_zero())
        }
    }
}
