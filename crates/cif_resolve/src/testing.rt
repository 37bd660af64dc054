//! Whether a name breaks a rule.

ghost use Rattle.std.specs.Prelude.{◌≡◌, map};
ghost use Rattle.cif_scope_uses.specs.Views.{sort_of, use_of, own_name_of};
ghost use Rattle.cif_resolve.specs.Tests as tests;

use cif_ast::Name;
use cif_scope::{Looked, ParamSort, ScopeErr, Scopes, Sort, What};
use cif_scope_uses::{Asked, OwnName, Use};

fn sort_fits(asks: Asked, sort: Sort) -> bool
    ensures { result ≡ tests.sort_fits (sort_of asks) sort }
{
    match asks {
        Asked::Event => matches!(sort, Sort::Event(_)),
        Asked::Type => matches!(sort, Sort::Type | Sort::Enum),
        Asked::Variable => matches!(sort, Sort::Discrete),
        Asked::Value => matches!(
            sort,
            Sort::Constant | Sort::Algebraic | Sort::Input | Sort::Discrete
        ),
        Asked::Any => true,
        Asked::Location | Asked::Definition => false,
    }
}

fn param_fits(asks: Asked, sort: ParamSort) -> bool
    ensures { result ≡ tests.param_fits (sort_of asks) sort }
{
    match asks {
        Asked::Event => matches!(sort, ParamSort::Event),
        Asked::Location => matches!(sort, ParamSort::Location),
        Asked::Value => matches!(sort, ParamSort::Algebraic | ParamSort::Location),
        Asked::Any => true,
        Asked::Type | Asked::Definition | Asked::Variable => false,
    }
}

/// Whether what a name is fits what its position asks.
fn fits(asks: Asked, what: What) -> bool
    ensures { result ≡ tests.fits (sort_of asks) what }
{
    match what {
        What::Declared(sort) => sort_fits(asks, sort),
        What::Parameter(sort) => param_fits(asks, sort),
        What::Literal(_) => matches!(asks, Asked::Value | Asked::Any),
        What::Location(_) => matches!(asks, Asked::Location | Asked::Value | Asked::Any),
        What::Definition(_, _) => matches!(asks, Asked::Definition | Asked::Any),
        What::Component(_) | What::Instance(_) => matches!(asks, Asked::Any),
    }
}

/// Where the name of a definition leads, which isn't reached through an instance.
fn definition_sought(scopes: &Scopes, body: u32, name: &Name) -> Looked
    ensures { result ≡ tests.definition_sought_by scopes.now body name.now }
{
    match scopes.look(true, body, name) {
        Looked::Missing => Looked::Missing,
        Looked::At(_, _) | Looked::Blocked => scopes.look(false, body, name),
    }
}

/// Where the name of a use leads.
fn sought(scopes: &Scopes, body: u32, used: Use<'_>) -> Looked
    ensures { result ≡ tests.sought_by scopes.now body (use_of used.entry) }
{
    match used.asks {
        Asked::Definition => definition_sought(scopes, body, used.name),
        Asked::Event
        | Asked::Location
        | Asked::Type
        | Asked::Variable
        | Asked::Value
        | Asked::Any => scopes.look(true, body, used.name),
    }
}

fn misfits(asks: Asked, what: Option<What>) -> bool
    ensures { result ≡ tests.misfits (sort_of asks) what }
{
    match what {
        Some(what) => !fits(asks, what),
        None => true,
    }
}

/// The fault of the name at that byte, which leads there.
fn looked_fault(scopes: &Scopes, asks: Asked, at: u32, found: Looked) -> Option<ScopeErr>
    ensures { result ≡ tests.looked_fault scopes.now (sort_of asks) at found }
{
    match found {
        Looked::Missing => Some(ScopeErr::Unknown { at }),
        Looked::Blocked => Some(ScopeErr::WrongKind { at }),
        Looked::At(body, slot) => {
            if misfits(asks, scopes.what(body, slot)) {
                Some(ScopeErr::WrongKind { at })
            } else {
                None
            }
        }
    }
}

fn used_fault(scopes: &Scopes, body: u32, used: Use<'_>) -> Option<ScopeErr>
    ensures { result ≡ tests.used_fault scopes.now body (use_of used.entry) }
{
    let found = sought(scopes, body, used);
    looked_fault(scopes, used.asks, used.name.at, found)
}

/// The first of these names of a body that is declared nowhere or is of another sort than its position asks.
pub fn first_used(scopes: &Scopes, body: u32, uses: &[Use<'_>]) -> Option<ScopeErr>
    ensures { result ≡ tests.first_some (tests.used_fault scopes.now body) (map use_of uses.now) }
{
    for used in uses {
        match used_fault(scopes, body, *used) {
            Some(fault) => return Some(fault),
            None => {}
        }
    }
    None
}

fn own_fits(name: OwnName<'_>, what: What) -> bool
    ensures { result ≡ tests.own_fits (own_name_of name.entry) what }
{
    match name {
        OwnName::Target(_) => matches!(what, What::Location(_)),
        OwnName::LeftSide(_) => matches!(what, What::Declared(Sort::Algebraic)),
    }
}

fn own_misfits(name: OwnName<'_>, what: Option<What>) -> bool
    ensures { result ≡ tests.own_misfits (own_name_of name.entry) what }
{
    match what {
        Some(what) => !own_fits(name, what),
        None => true,
    }
}

fn own_fault(scopes: &Scopes, body: u32, name: OwnName<'_>) -> Option<ScopeErr>
    ensures { result ≡ tests.own_fault scopes.now body (own_name_of name.entry) }
{
    let ident = match name {
        OwnName::Target(ident) | OwnName::LeftSide(ident) => ident,
    };
    let at = ident.at;
    match scopes.own(body, &ident.text) {
        Some(slot) => {
            if own_misfits(name, scopes.what(body, slot)) {
                Some(ScopeErr::WrongKind { at })
            } else {
                None
            }
        }
        None => Some(ScopeErr::Unknown { at }),
    }
}

/// The first of these names that the scope of the body doesn't declare as what its position asks.
pub fn first_own(scopes: &Scopes, body: u32, names: &[OwnName<'_>]) -> Option<ScopeErr>
    ensures { result ≡ tests.first_some (tests.own_fault scopes.now body) (map own_name_of names.now) }
{
    for name in names {
        match own_fault(scopes, body, *name) {
            Some(fault) => return Some(fault),
            None => {}
        }
    }
    None
}
