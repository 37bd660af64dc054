//! The equations of a body by the names that they define, those of the component and those of each location (CIF 3 language
//! reference, "Algebraic variables").

ghost use Rattle.std.specs.Prelude.{◌≡◌, [], map, IfOk, OnOk};
ghost use Rattle.cif_ast.specs.View.{view, view_item, view_items};
ghost use Rattle.cif_source.specs.Source.{decl_tree, equation_tree, location_tree, source_item, source_items};
ghost use Rattle.cif_source.specs.Objects.{locs_in};
ghost use Rattle.cif_scope.specs.Written.{inside_of};
ghost use Rattle.cif_inst_types.specs.Types.{given_tree};
ghost use Rattle.cif_inst.specs.Equations as kept;

use cif_ast::{Decl, Expr, Item, Loc, LocEquation};
use cif_base::{Memory, Text};
use cif_scope::Inside;
use indexmap::IndexMap;
use std::alloc::Global;

/// The first value for each name. A name is found without going through the others.
#[derive(Drop)]
pub struct Equations<'a> {
    firsts: IndexMap<Vec<u8>, &'a Expr>,
}

/// The equations of a component, and those of each location if it is an automaton.
#[derive(Drop)]
pub struct Defined<'a> {
    pub own: Equations<'a>,
    pub located: Vec<Equations<'a>>,
}

impl<'a> Equations<'a> {
    fn new(alloc: Global) -> Equations<'a>
        ensures { kept.values_in result ≡ [] }
    {
        Equations {
            firsts: IndexMap::new(alloc),
        }
    }

    /// The first value for a name.
    pub(crate) fn of(&self, name: &Text) -> Option<&'a Expr>
        ensures { given_tree result ≡ kept.value_for name.now (kept.values_in self.now) }
    {
        match self.firsts.get(name.as_slice()) {
            Some(value) => Some(*value),
            None => None,
        }
    }

    /// Puts a value for a name in place of the one before.
    fn put(&mut self, alloc: Global, name: &Text, value: &'a Expr) -> Result<(), Memory>
        ensures { OnOk result (kept.values_in self.new ≡ kept.with_value (kept.values_in self.old) name.now (view value.now)) }
    {
        let key = Vec::from_slice(alloc, name.as_slice())?;
        self.firsts.insert(key, value)?;
        Ok(())
    }

    /// Adds a value for a name, unless there is one.
    fn add(&mut self, alloc: Global, name: &Text, value: &'a Expr) -> Result<(), Memory>
        ensures { OnOk result (kept.values_in self.new ≡ kept.with_first (kept.values_in self.old) name.now (view value.now)) }
    {
        match self.of(name) {
            Some(_) => Ok(()),
            None => self.put(alloc, name, value),
        }
    }
}

fn add_decl<'a>(alloc: Global, decl: &'a Decl, own: &mut Equations<'a>) -> Result<(), Memory>
    ensures { OnOk result (kept.values_in own.new ≡ kept.decl_added (kept.values_in own.old) (decl_tree decl.now)) }
{
    match decl {
        Decl::Equation { name, value } => own.add(alloc, &name.text, value),
        Decl::TypeName { .. }
        | Decl::Enum { .. }
        | Decl::Event { .. }
        | Decl::Const { .. }
        | Decl::Alg { .. }
        | Decl::Input { .. }
        | Decl::Disc { .. }
        | Decl::Inv(_)
        | Decl::Marked(_) => Ok(()),
    }
}

fn add_decls<'a>(alloc: Global, decls: &'a [Decl], own: &mut Equations<'a>) -> Result<(), Memory>
    ensures { OnOk result (kept.values_in own.new ≡ kept.decls_added (kept.values_in own.old) (map decl_tree decls.now)) }
{
    for decl in decls {
        add_decl(alloc, decl, own)?;
    }
    Ok(())
}

fn add_item<'a>(alloc: Global, item: &'a Item, own: &mut Equations<'a>) -> Result<(), Memory>
    ensures { OnOk result (kept.values_in own.new ≡ kept.item_added (kept.values_in own.old) (source_item (view_item item.now))) }
{
    match item {
        Item::Decl(decl) => add_decl(alloc, decl, own),
        Item::Comp(_) | Item::Def(_) | Item::Inst(_) => Ok(()),
    }
}

fn add_items<'a>(alloc: Global, items: &'a [Item], own: &mut Equations<'a>) -> Result<(), Memory>
    ensures { OnOk result (kept.values_in own.new ≡ kept.items_added (kept.values_in own.old) (source_items (view_items items.now))) }
{
    for item in items {
        add_item(alloc, item, own)?;
    }
    Ok(())
}

/// The equations of a component.
fn own_equations<'a>(alloc: Global, inside: Inside<'a>) -> Result<Equations<'a>, Memory>
    ensures { IfOk result (λ own. kept.values_in own ≡ kept.body_added (inside_of inside.entry)) }
{
    let mut own = Equations::new(alloc);
    match inside {
        Inside::Group(items) => add_items(alloc, items, &mut own)?,
        Inside::Automaton(body) => add_decls(alloc, body.decls.as_slice(), &mut own)?,
    }
    Ok(own)
}

/// The equations of a location.
fn location_equations<'a>(
    alloc: Global,
    equations: &'a [LocEquation],
) -> Result<Equations<'a>, Memory>
    ensures { IfOk result (λ there. kept.values_in there ≡ kept.equations_added [] (map equation_tree equations.now)) }
{
    let mut there = Equations::new(alloc);
    for equation in equations {
        there.add(alloc, &equation.name.text, &equation.value)?;
    }
    Ok(there)
}

fn located_equations<'a>(alloc: Global, locs: &'a [Loc]) -> Result<Vec<Equations<'a>>, Memory>
    ensures { IfOk result (λ all. map kept.values_in all.items ≡ map kept.location_added (map location_tree locs.now)) }
{
    let mut all = Vec::new(alloc);
    for loc in locs {
        all.push(location_equations(alloc, loc.equations.as_slice())?)?;
    }
    Ok(all)
}

/// The equations in a body.
pub(crate) fn equations_of<'a>(alloc: Global, inside: Inside<'a>) -> Result<Defined<'a>, Memory>
    ensures own { IfOk result (λ d. kept.values_in d.own ≡ kept.body_added (inside_of inside.entry)) }
    ensures located { IfOk result (λ d. map kept.values_in d.located.items ≡ map kept.location_added (locs_in (inside_of inside.entry))) }
{
    let own = own_equations(alloc, inside)?;
    let located = match inside {
        Inside::Group(_) => Vec::new(alloc),
        Inside::Automaton(body) => located_equations(alloc, body.locs.as_slice())?,
    };
    Ok(Defined { own, located })
}
