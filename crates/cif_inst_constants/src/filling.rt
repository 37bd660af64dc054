//! The values of constants, one after the other.

ghost use Rattle.std.specs.Prelude.{◌≡◌, slice_set};
ghost use Rattle.cif_inst_constants.specs.Nodes.{node_of, node_value, filled_at, filled, node_in, told};

use crate::evaluating::{evaluate, place};
use crate::names::NameValues;
use crate::nodes::Constant;
use cif_base::Items;
use cif_scope::Scopes;

fn constant_value(
    scopes: &Scopes,
    numbers: &[Items<u32>],
    values: &[i64],
    constant: Constant<'_>,
) -> Option<i64>
    ensures { result ≡ node_value scopes.now numbers.now values.now (node_of constant.entry) }
{
    let names = NameValues {
        scopes,
        numbers,
        values,
        body: constant.body,
    };
    evaluate(constant.value, &names)
}

/// Sets a value, where there is one.
fn set(values: &mut Items<i64>, number: u32, value: i64)
    ensures { values.new ≡ slice_set values.old number value }
{
    if (number as usize) < values.len() {
        values.set(number as usize, value);
    }
}

/// Sets the value of a constant, or gives back where it stands, if it is faulty.
fn fill_constant(
    scopes: &Scopes,
    numbers: &[Items<u32>],
    constant: Constant<'_>,
    number: u32,
    values: &mut Items<i64>,
) -> Result<(), u32>
    ensures { told result values.new
        ≡ filled_at scopes.now numbers.now values.old number (Some (node_of constant.entry)) }
{
    match constant_value(scopes, numbers, values.as_slice(), constant) {
        Some(value) => {
            set(values, number, value);
            Ok(())
        }
        None => Err(place(constant.value)),
    }
}

fn fill_one(
    scopes: &Scopes,
    numbers: &[Items<u32>],
    constants: &[Constant<'_>],
    number: u32,
    values: &mut Items<i64>,
) -> Result<(), u32>
    ensures { told result values.new
        ≡ filled_at scopes.now numbers.now values.old number (node_in constants.now number) }
{
    match constants.get(number as usize) {
        Some(constant) => fill_constant(scopes, numbers, *constant, number, values),
        None => Ok(()),
    }
}

/// The values of these constants, one after the other, or where a value stands that is faulty.
pub fn fill(
    scopes: &Scopes,
    numbers: &[Items<u32>],
    constants: &[Constant<'_>],
    order: &[u32],
    zeros: Items<i64>,
) -> Result<Items<i64>, u32>
    ensures { result ≡ filled scopes.now numbers.now (node_in constants.now) zeros order.now }
{
    let mut values = zeros;
    for number in order {
        fill_one(scopes, numbers, constants, *number, &mut values)?;
    }
    Ok(values)
}
