//! The constants of the bodies that components have, numbered through these bodies.

ghost use Rattle.std.specs.Prelude.{◌≡◌, ◌<◌, ◌≤◌, length, IfOk};
ghost use Rattle.cif_scope.specs.Looks.{names_at};
ghost use Rattle.cif_inst_constants.specs.Numbers as counted;
ghost use Rattle.cif_inst_constants.specs.Used.{is_used};

use crate::using::is_used;
use cif_base::{Items, Memory};
use cif_scope::{Looked, Scopes, Sort, What, number};
use std::alloc::Global;

/// One for a constant.
fn unit(what: Option<What>) -> u32
    ensures unit { result ≡ counted.unit_of what }
    ensures small { result ≤ 1 }
{
    match what {
        Some(What::Declared(sort)) => match sort {
            Sort::Constant => 1,
            Sort::Type
            | Sort::Enum
            | Sort::Event(_)
            | Sort::Algebraic
            | Sort::Input
            | Sort::Discrete => 0,
        },
        Some(
            What::Literal(_)
            | What::Location(_)
            | What::Component(_)
            | What::Definition(_, _)
            | What::Instance(_)
            | What::Parameter(_),
        )
        | None => 0,
    }
}

/// How many constants a body declares.
fn body_count(scopes: &Scopes, body: u32) -> u32
    requires { body < length scopes.now.table.scopes }
    ensures { result ≡ counted.body_count scopes.now body }
{
    let mut count = 0;
    for slot in 0..scopes.slots(body) {
        count += unit(scopes.what(body, slot));
    }
    count
}

fn body_numbers(alloc: Global, scopes: &Scopes, body: u32, first: u32) -> Result<Items<u32>, Memory>
    requires { body < length scopes.now.table.scopes }
    ensures { IfOk result (λ row. row ≡ counted.row_to scopes.now body first (length (names_at scopes.now.table body))) }
{
    let mut row = Items::new(alloc);
    let mut count = 0;
    for slot in 0..scopes.slots(body) {
        row.push(number(first as usize + count as usize)?)?;
        count += unit(scopes.what(body, slot));
    }
    Ok(row)
}

/// How many of a body are numbered.
fn marked_count(scopes: &Scopes, used: &[bool], body: u32) -> u32
    requires { body < length scopes.now.table.scopes }
    ensures { result ≡ counted.count_if (is_used used.now body) (counted.body_count scopes.now body) }
{
    if is_used(used, body) {
        body_count(scopes, body)
    } else {
        0
    }
}

/// For each name of each body how many constants of marked bodies are declared before it, which for such a constant is its
/// number.
pub fn constant_numbers(
    alloc: Global,
    scopes: &Scopes,
    used: &[bool],
) -> Result<Items<Items<u32>>, Memory>
    ensures { IfOk result (λ all. all ≡ counted.numbers_of scopes.now used.now) }
{
    let mut all = Items::new(alloc);
    let mut total = 0;
    for body in 0..scopes.bodies() {
        let first = number(total)?;
        all.push(body_numbers(alloc, scopes, body, first)?)?;
        total += marked_count(scopes, used, body) as usize;
    }
    Ok(all)
}

/// The number at a slot, and 0 past the end.
pub fn number_at(numbers: &[Items<u32>], body: u32, slot: u32) -> u32
    ensures { result ≡ counted.number_at numbers.now body slot }
{
    match numbers.get(body as usize) {
        Some(row) => match row.get(slot as usize) {
            Some(number) => *number,
            None => 0,
        },
        None => 0,
    }
}

/// The number of the constant that is found, if it is one.
pub fn number_found(scopes: &Scopes, numbers: &[Items<u32>], found: Looked) -> Option<u32>
    ensures { result ≡ counted.number_found scopes.now numbers.now found }
{
    match found {
        Looked::At(body, slot) => {
            if unit(scopes.what(body, slot)) == 0 {
                None
            } else {
                Some(number_at(numbers, body, slot))
            }
        }
        Looked::Missing | Looked::Blocked => None,
    }
}
