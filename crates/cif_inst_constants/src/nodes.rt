//! The constants of bodies, and what each needs.

ghost use Rattle.std.specs.Prelude.{◌≡◌, ◌++◌, map, flat_map, IfOk, OnOk};
ghost use Rattle.cif_source.specs.Source.{decl_tree};
ghost use Rattle.cif_scope_uses.specs.Views.{use_of};
ghost use Rattle.cif_types_constancy.specs.Collected.{decl_of};
ghost use Rattle.cif_inst_constants.specs.Nodes.{node_of, decl_nodes, body_nodes, nodes_in, uses_needs, node_needs};
ghost use Rattle.cif_inst_constants.specs.Used.{numbered_of};

use crate::numbering::number_found;
use crate::using::Body;
use cif_ast::{Decl, Expr};
use cif_base::{Items, Memory};
use cif_scope::Scopes;
use cif_scope_uses::{Use, add_decl_uses};
use cif_types_constancy::body_decls;
use std::alloc::Global;

/// A constant: the body that declares it, its declaration, and its value.
#[derive(Clone, Copy, Drop)]
pub struct Constant<'a> {
    pub body: u32,
    pub decl: &'a Decl,
    pub value: &'a Expr,
}

fn add_decl<'a>(decl: &'a Decl, body: u32, found: &mut Vec<Constant<'a>>) -> Result<(), Memory>
    ensures { OnOk result (map node_of found.new.items ≡ map node_of found.old.items ++ decl_nodes body (decl_tree decl.now)) }
{
    match decl {
        Decl::Const {
            ty: _,
            name: _,
            value,
        } => Ok(found.push(Constant { body, decl, value })?),
        Decl::TypeName { .. }
        | Decl::Enum { .. }
        | Decl::Event { .. }
        | Decl::Alg { .. }
        | Decl::Input { .. }
        | Decl::Disc { .. }
        | Decl::Equation { .. }
        | Decl::Inv(_)
        | Decl::Marked(_) => Ok(()),
    }
}

fn add_decls<'a>(decls: &[&'a Decl], body: u32, found: &mut Vec<Constant<'a>>) -> Result<(), Memory>
    ensures { OnOk result (map node_of found.new.items
        ≡ map node_of found.old.items ++ flat_map (decl_nodes body) (map decl_of decls.now)) }
{
    for decl in decls {
        add_decl(decl, body, found)?;
    }
    Ok(())
}

fn add_body<'a>(alloc: Global, body: Body<'a>, found: &mut Vec<Constant<'a>>) -> Result<(), Memory>
    ensures { OnOk result (map node_of found.new.items ≡ map node_of found.old.items ++ body_nodes (numbered_of body.entry)) }
{
    let decls = body_decls(alloc, body.written)?;
    add_decls(decls.as_slice(), body.number, found)
}

/// The constants of these bodies by their numbers.
pub fn constants<'a>(alloc: Global, bodies: &[Body<'a>]) -> Result<Vec<Constant<'a>>, Memory>
    ensures { IfOk result (λ all. map node_of all.items ≡ nodes_in (map numbered_of bodies.now)) }
{
    let mut found = Vec::new(alloc);
    for body in bodies {
        add_body(alloc, *body, &mut found)?;
    }
    Ok(found)
}

fn uses_needs(
    alloc: Global,
    scopes: &Scopes,
    numbers: &[Items<u32>],
    body: u32,
    uses: &[Use<'_>],
) -> Result<Items<u32>, Memory>
    ensures { IfOk result (λ needs. needs ≡ uses_needs scopes.now numbers.now body (map use_of uses.now)) }
{
    let mut needs = Items::new(alloc);
    for used in uses {
        if let Some(need) = number_found(scopes, numbers, scopes.look(true, body, used.name)) {
            needs.push(need)?;
        }
    }
    Ok(needs)
}

fn constant_needs(
    alloc: Global,
    scopes: &Scopes,
    numbers: &[Items<u32>],
    constant: Constant<'_>,
) -> Result<Items<u32>, Memory>
    ensures { IfOk result (λ needs. needs ≡ node_needs scopes.now numbers.now (node_of constant.entry)) }
{
    let mut uses = Vec::new(alloc);
    add_decl_uses(constant.decl, &mut uses)?;
    uses_needs(alloc, scopes, numbers, constant.body, uses.as_slice())
}

/// For each constant those that its type and value name.
pub fn needs_of(
    alloc: Global,
    scopes: &Scopes,
    numbers: &[Items<u32>],
    constants: &[Constant<'_>],
) -> Result<Items<Items<u32>>, Memory>
    ensures { IfOk result (λ all. all ≡ map (node_needs scopes.now numbers.now) (map node_of constants.now)) }
{
    let mut all = Items::new(alloc);
    for constant in constants {
        all.push(constant_needs(alloc, scopes, numbers, *constant)?)?;
    }
    Ok(all)
}
