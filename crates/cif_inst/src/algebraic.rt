//! The algebraic variables of all components, with their types and definitions (CIF 3 language reference, "Algebraic variables").

ghost use Rattle.std.specs.Prelude.{◌≡◌, ◌∷◌, ◌++◌, [], map, IfOk, OnOk};
ghost use Rattle.cif_net.specs.View.{alg_tree, value_of};
ghost use Rattle.cif_scope.specs.Written.{inside_of};
ghost use Rattle.cif_net_expr.specs.View as net;
ghost use Rattle.cif_inst_types.specs.Types.{given_tree};
ghost use Rattle.cif_inst.specs.Algebraic as algebraic;
ghost use Rattle.cif_inst.specs.Equations.{values_in, value_for, or_else};
ghost use Rattle.cif_inst_paths.specs.Rows.{rows_of};
ghost use Rattle.cif_inst.specs.Typing as of_types;
ghost use Rattle.cif_inst_paths.specs.Views.{row_tree};
ghost use Rattle.cif_inst.specs.Views.{datum_tree};

use crate::declarations::{Datum, Sort, add_row};
use crate::equations::{Defined, Equations, equations_of};
use crate::typing::{Typing, path_of, ty_of};
use cif_ast::Expr;
use cif_base::{Boxed, Items, Memory, Text};
use cif_inst_names::expression;
use cif_inst_paths::Row;
use cif_net::{Alg, AlgValue};
use cif_net_expr::{NetExpr, NetForm};
use cif_scope::{Inside, number};
use std::alloc::Global;

/// An expression of a component, and 0 where there is none.
fn definition(
    alloc: Global,
    typing: &Typing,
    component: u32,
    value: Option<&Expr>,
) -> Result<Boxed<NetExpr>, Memory>
    requires { of_types.IsHome typing.now component }
    ensures { IfOk result (λ x. net.view x ≡ algebraic.definition_or (of_types.typed_component typing.now component) (given_tree value.entry)) }
{
    match value {
        Some(value) => expression(alloc, typing.looking, component, value),
        None => Boxed::new(
            alloc,
            NetExpr {
                form: NetForm::Int(0),
                at: 0,
            },
        ),
    }
}

/// The values of a name, one for each location.
fn definitions(
    alloc: Global,
    typing: &Typing,
    component: u32,
    located: &[Equations],
    name: &Text,
) -> Result<Items<NetExpr>, Memory>
    requires { of_types.IsHome typing.now component }
    ensures { IfOk result (λ all. map net.view all ≡ map (algebraic.definition_in (of_types.typed_component typing.now component) name.now) (map values_in located.now)) }
{
    let mut all = Items::new(alloc);
    for there in located {
        let value = definition(alloc, typing, component, there.of(name))?;
        all.push(value.into_inner())?;
    }
    Ok(all)
}

/// The definition that a component has of its own: the declared value, or the first equation for the name.
pub(crate) fn own_value<'a>(datum: &Datum<'a>, own: &Equations<'a>) -> Option<&'a Expr>
    ensures { let d = datum_tree datum.now in given_tree result ≡ or_else d.value (value_for d.name.text (values_in own.now)) }
{
    match datum.value {
        Some(value) => Some(value),
        None => own.of(&datum.name.text),
    }
}

/// The definition of a variable in a component that is this automaton, if it is one.
fn alg_value(
    alloc: Global,
    typing: &Typing,
    automaton: u32,
    defined: &Defined,
    datum: &Datum,
) -> Result<Boxed<AlgValue>, Memory>
    requires { of_types.HasType typing.now (datum_tree datum.now) }
    ensures { let d = datum_tree datum.now in IfOk result (λ v. value_of v
        ≡ algebraic.alg_value (of_types.typed_component typing.now d.component) automaton (values_in defined.now.own) (map values_in defined.now.located.items) d.name.text d.value) }
{
    match own_value(datum, &defined.own) {
        Some(value) => {
            let one = expression(alloc, typing.looking, datum.component, value)?;
            Boxed::new(alloc, AlgValue::One(one.into_inner()))
        }
        None => {
            let located = defined.located.as_slice();
            let values = definitions(alloc, typing, datum.component, located, &datum.name.text)?;
            let located = AlgValue::ByLoc {
                auto: automaton,
                values,
            };
            Boxed::new(alloc, located)
        }
    }
}

/// Adds a variable.
fn add_alg(
    alloc: Global,
    typing: &Typing,
    automaton: u32,
    defined: &Defined,
    datum: &Datum,
    all: &mut Items<Alg>,
) -> Result<(), Memory>
    requires { of_types.HasType typing.now (datum_tree datum.now) }
    ensures { OnOk result (map alg_tree all.new ≡ map alg_tree all.old
        ++ algebraic.alg_with (of_types.typed_source typing.now) automaton (values_in defined.now.own) (map values_in defined.now.located.items) (datum_tree datum.now) ∷ []) }
{
    let path = path_of(alloc, datum)?;
    let found = ty_of(alloc, typing, datum)?;
    let value = alg_value(alloc, typing, automaton, defined, datum)?;
    all.push(Alg {
        path,
        ty: found.ty,
        literals: found.literals,
        value: value.into_inner(),
    })
}

fn add_algs(
    alloc: Global,
    typing: &Typing,
    automaton: u32,
    defined: &Defined,
    found: &[Datum],
    all: &mut Items<Alg>,
) -> Result<(), Memory>
    requires { algebraic.HaveTypes typing.now (map datum_tree found.now) }
    ensures { OnOk result (map alg_tree all.new ≡ map alg_tree all.old
        ++ map (algebraic.alg_with (of_types.typed_source typing.now) automaton (values_in defined.now.own) (map values_in defined.now.located.items)) (map datum_tree found.now)) }
{
    for datum in found {
        add_alg(alloc, typing, automaton, defined, datum, all)?;
    }
    Ok(())
}

/// The number of a component among the automata, if it is one.
fn auto_of(typing: &Typing, component: u32, inside: Inside<'_>) -> u32
    requires { algebraic.IsBodyOf typing.now component (inside_of inside) }
    ensures { result ≡ algebraic.home_number (of_types.typed_source typing.now) component (inside_of inside.entry) }
{
    match inside {
        Inside::Group(_) => 0,
        Inside::Automaton(_) => typing.looking.numbers.automaton(component),
    }
}

/// Adds the variables that a component declares.
fn add_component(
    alloc: Global,
    typing: &Typing,
    component: u32,
    row: &Row,
    all: &mut Items<Alg>,
) -> Result<(), Memory>
    requires { algebraic.IsBodyOf typing.now component (inside_of row.now.inside) }
    ensures { OnOk result (map alg_tree all.new ≡ map alg_tree all.old
        ++ algebraic.body_algs (of_types.typed_source typing.now) component row.now.prefix (inside_of row.now.inside)) }
{
    let mut found = Vec::new(alloc);
    add_row(Sort::Algebraic, component, row, &mut found)?;
    let automaton = auto_of(typing, component, row.inside);
    let defined = equations_of(alloc, row.inside)?;
    add_algs(alloc, typing, automaton, &defined, found.as_slice(), all)
}

/// The algebraic variables of these components.
pub(crate) fn all_algs(alloc: Global, typing: &Typing, rows: &[Row]) -> Result<Items<Alg>, Memory>
    requires types { of_types.AreTypesOf typing.now }
    requires rows { map row_tree rows.now ≡ rows_of (of_types.typed_source typing.now) }
    ensures { IfOk result (λ all. map alg_tree all ≡ algebraic.rows_algs (of_types.typed_source typing.now) 0 (map row_tree rows.now)) }
{
    let mut all = Items::new(alloc);
    for (place, row) in rows.iter().enumerate() {
        add_component(alloc, typing, number(place)?, row, &mut all)?;
    }
    Ok(all)
}
