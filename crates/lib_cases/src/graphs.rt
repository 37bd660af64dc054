//! Cases of graphs of needs.

ghost use Rattle.std.specs.Prelude.{◌<◌, ◌^◌, All, IsTrue, length};
ghost use Rattle.cif_order.specs.Graph.{AreInside};

use case_text::{Fault, Fields, Put};
use cif_base::{Items, Memory};
use cif_order::{lowest, order};
use std::alloc::Global;

/// Whether each number is below another one.
fn are_below(numbers: &[u32], count: usize) -> bool
    ensures { IsTrue result → All (λ n. n < count) numbers.now }
{
    for number in numbers {
        if *number as usize >= count {
            return false;
        }
    }
    true
}

/// Whether each node's needs are nodes.
fn are_inside(needs: &[Items<u32>]) -> bool
    ensures { IsTrue result → AreInside needs.now }
{
    for list in needs {
        if !are_below(list.as_slice(), needs.len()) {
            return false;
        }
    }
    true
}

fn put_order(alloc: Global, page: &mut String, needs: &[Items<u32>]) -> Put
    requires few { length needs.now < 2 ^ 32 }
    requires inside { AreInside needs.now }
{
    match order(alloc, needs) {
        Ok(nodes) => {
            page.push_str("  order")?;
            for node in nodes.as_slice() {
                write!(page, " {node}")?;
            }
            page.push('\n')
        }
        Err(error) => writeln!(page, "  {error:?}"),
    }
}

fn put_lowest(alloc: Global, page: &mut String, needs: &[Items<u32>]) -> Put
    requires few { length needs.now < 2 ^ 32 }
    requires inside { AreInside needs.now }
{
    match lowest(alloc, needs) {
        Ok(Some(node)) => writeln!(page, "  lowest {node}"),
        Ok(None) => writeln!(page, "  lowest none"),
        Err(Memory) => writeln!(page, "  Memory"),
    }
}

/// The needs of each node; a field `-` is that of a node without needs.
fn needs_of(fields: &Fields<'_>) -> Result<Items<Items<u32>>, Fault> {
    let mut all = Items::new(fields.alloc);
    for field in fields.all() {
        let numbers = match *field {
            "-" => Vec::new(fields.alloc),
            written => fields.numbers(written)?,
        };
        all.push(Items::from_vec(numbers))?;
    }
    Ok(all)
}

fn put_graph(alloc: Global, page: &mut String, needs: &[Items<u32>]) -> Result<(), Fault> {
    if needs.len() > 1000 || !are_inside(needs) {
        return Err(Fault::Form("a need that is no node"));
    }
    put_order(alloc, page, needs)?;
    Ok(put_lowest(alloc, page, needs)?)
}

/// `order NEEDS | NEEDS ..`: the order of the nodes from 0 on, each of which needs those with these numbers, and the lowest node
/// that reaches itself.
pub fn order_case(fields: &Fields<'_>, page: &mut String) -> Result<(), Fault> {
    let needs = needs_of(fields)?;
    put_graph(fields.alloc, page, needs.as_slice())
}
