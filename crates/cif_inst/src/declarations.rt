//! The inputs, discrete variables and algebraic variables that components declare, in the order of their numbers (CIF 3 language
//! reference, "Input variables", "Discrete variables", "Algebraic variables").

ghost use Rattle.std.specs.Prelude.{◌≡◌, ◌++◌, map, option_map, IfOk, OnOk};
ghost use Rattle.std.specs.Option.{option_to_list};
ghost use Rattle.cif_ast.specs.View.{view_item, view_items};
ghost use Rattle.cif_source.specs.Source.{decl_tree, source_item, source_items, type_tree};
ghost use Rattle.cif_scope.specs.Written.{inside_of};
ghost use Rattle.cif_inst_types.specs.Types.{given_tree};
ghost use Rattle.cif_inst.specs.Declarations as declared;
ghost use Rattle.cif_inst_paths.specs.Views.{row_tree};
ghost use Rattle.cif_inst.specs.Views.{datum_tree};

use cif_ast::{Decl, Expr, Ident, Item, TypeUse};
use cif_base::{Memory, Text};
use cif_inst_paths::Row;
use cif_scope::{Inside, number};
use std::alloc::Global;

/// The sort of what is declared.
#[derive(Clone, Copy)]
pub enum Sort {
    Input,
    Discrete,
    Algebraic,
}

/// An input or a variable of a component: the beginning of its path, its name and type, and its declared value.
#[derive(Clone, Copy, Drop)]
pub struct Datum<'a> {
    pub component: u32,
    pub prefix: &'a Text,
    pub name: &'a Ident,
    pub ty: &'a TypeUse,
    pub value: Option<&'a Expr>,
}

impl<'a> Datum<'a> {
    fn new(
        component: u32,
        prefix: &'a Text,
        name: &'a Ident,
        ty: &'a TypeUse,
        value: Option<&'a Expr>,
    ) -> Datum<'a>
        ensures { datum_tree result ≡ declared.datum component prefix.now name.now (type_tree ty.now) (given_tree value.entry) }
    {
        Datum {
            component,
            prefix,
            name,
            ty,
            value,
        }
    }
}

/// What a declaration of a component declares, if it is of the sort.
fn datum_of<'a>(sort: Sort, component: u32, prefix: &'a Text, decl: &'a Decl) -> Option<Datum<'a>>
    ensures { option_to_list (option_map datum_tree result) ≡ declared.decl_data sort component prefix.now (decl_tree decl.now) }
{
    match decl {
        Decl::Disc { ty, name, value } => match sort {
            Sort::Discrete => Some(Datum::new(component, prefix, name, ty, value.as_ref())),
            Sort::Input | Sort::Algebraic => None,
        },
        Decl::Input { ty, name } => match sort {
            Sort::Input => Some(Datum::new(component, prefix, name, ty, None)),
            Sort::Discrete | Sort::Algebraic => None,
        },
        Decl::Alg { ty, name, value } => match sort {
            Sort::Algebraic => Some(Datum::new(component, prefix, name, ty, value.as_ref())),
            Sort::Input | Sort::Discrete => None,
        },
        Decl::TypeName { .. }
        | Decl::Enum { .. }
        | Decl::Event { .. }
        | Decl::Const { .. }
        | Decl::Equation { .. }
        | Decl::Inv(_)
        | Decl::Marked(_) => None,
    }
}

fn add_decl<'a>(
    sort: Sort,
    component: u32,
    prefix: &'a Text,
    decl: &'a Decl,
    all: &mut Vec<Datum<'a>>,
) -> Result<(), Memory>
    ensures { OnOk result (map datum_tree all.new.items ≡ map datum_tree all.old.items ++ declared.decl_data sort component prefix.now (decl_tree decl.now)) }
{
    match datum_of(sort, component, prefix, decl) {
        Some(datum) => Ok(all.push(datum)?),
        None => Ok(()),
    }
}

fn add_decls<'a>(
    sort: Sort,
    component: u32,
    prefix: &'a Text,
    decls: &'a [Decl],
    all: &mut Vec<Datum<'a>>,
) -> Result<(), Memory>
    ensures { OnOk result (map datum_tree all.new.items ≡ map datum_tree all.old.items ++ declared.decls_data sort component prefix.now (map decl_tree decls.now)) }
{
    for decl in decls {
        add_decl(sort, component, prefix, decl, all)?;
    }
    Ok(())
}

fn add_item<'a>(
    sort: Sort,
    component: u32,
    prefix: &'a Text,
    item: &'a Item,
    all: &mut Vec<Datum<'a>>,
) -> Result<(), Memory>
    ensures { OnOk result (map datum_tree all.new.items ≡ map datum_tree all.old.items ++ declared.item_data sort component prefix.now (source_item (view_item item.now))) }
{
    match item {
        Item::Decl(decl) => add_decl(sort, component, prefix, decl, all),
        Item::Comp(_) | Item::Def(_) | Item::Inst(_) => Ok(()),
    }
}

fn add_items<'a>(
    sort: Sort,
    component: u32,
    prefix: &'a Text,
    items: &'a [Item],
    all: &mut Vec<Datum<'a>>,
) -> Result<(), Memory>
    ensures { OnOk result (map datum_tree all.new.items ≡ map datum_tree all.old.items ++ declared.items_data sort component prefix.now (source_items (view_items items.now))) }
{
    for item in items {
        add_item(sort, component, prefix, item, all)?;
    }
    Ok(())
}

/// Adds those of a sort that a component declares.
pub(crate) fn add_row<'a>(
    sort: Sort,
    component: u32,
    row: &'a Row<'a>,
    all: &mut Vec<Datum<'a>>,
) -> Result<(), Memory>
    ensures { OnOk result (map datum_tree all.new.items ≡ map datum_tree all.old.items ++ declared.body_data sort component row.now.prefix (inside_of row.now.inside)) }
{
    match row.inside {
        Inside::Group(items) => add_items(sort, component, &row.prefix, items, all),
        Inside::Automaton(automaton) => {
            let decls = automaton.decls.as_slice();
            add_decls(sort, component, &row.prefix, decls, all)
        }
    }
}

/// Those of a sort that all components declare.
pub(crate) fn data_of<'a>(
    alloc: Global,
    sort: Sort,
    rows: &'a [Row<'a>],
) -> Result<Vec<Datum<'a>>, Memory>
    ensures { IfOk result (λ all. map datum_tree all.items ≡ declared.rows_data sort 0 (map row_tree rows.now)) }
{
    let mut all = Vec::new(alloc);
    for (place, row) in rows.iter().enumerate() {
        add_row(sort, number(place)?, row, &mut all)?;
    }
    Ok(all)
}
