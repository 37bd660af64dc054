//! Who takes part in the choices for an event.

ghost use Rattle.std.specs.Prelude.{◌≡◌, map, IfOk};
ghost use Rattle.cif_net.specs.View.{auto_tree};
ghost use Rattle.cif_lin.specs.Cells as c;
ghost use Rattle.cif_lin.specs.Parties.{cell_tree};

use crate::options::{edges_at, sync_at};
use crate::party::Party;
use cif_base::{Items, Memory};
use cif_net::{Net, NetRole};
use std::alloc::Global;

/// Automata that synchronise on an event, with what each may do.
pub fn synced(alloc: Global, net: &Net, event: u32, numbers: &[u32]) -> Result<Items<Party>, Memory>
    ensures { IfOk result (λ all. map cell_tree all
        ≡ map (c.sync_cell (map auto_tree net.now.autos) event) numbers.now) }
{
    let mut all = Items::new(alloc);
    for number in numbers {
        let options = sync_at(alloc, net, event, *number)?;
        all.push(Party {
            number: *number,
            options,
        })?;
    }
    Ok(all)
}

/// Automata of which one sends, one receives and the others synchronise, with what each may do.
pub fn between(
    alloc: Global,
    net: &Net,
    event: u32,
    sender: u32,
    receiver: u32,
    numbers: &[u32],
) -> Result<Items<Party>, Memory>
    ensures { IfOk result (λ all. map cell_tree all
        ≡ map (c.cell_between (map auto_tree net.now.autos) event sender receiver) numbers.now) }
{
    let mut all = Items::new(alloc);
    for number in numbers {
        let options = options_between(alloc, net, event, sender, receiver, *number)?;
        all.push(Party {
            number: *number,
            options,
        })?;
    }
    Ok(all)
}

fn options_between(
    alloc: Global,
    net: &Net,
    event: u32,
    sender: u32,
    receiver: u32,
    number: u32,
) -> Result<Items<Option<u32>>, Memory>
    ensures { IfOk result (λ all. all
        ≡ (c.cell_between (map auto_tree net.now.autos) event sender receiver number).options) }
{
    if number == sender {
        return edges_at(alloc, net, event, number, NetRole::Send);
    }
    if number == receiver {
        return edges_at(alloc, net, event, number, NetRole::Recv);
    }
    sync_at(alloc, net, event, number)
}

/// A number among ascending ones, unless it is there.
pub fn with_number(alloc: Global, numbers: &[u32], new: u32) -> Result<Items<u32>, Memory>
    ensures { IfOk result (λ all. all ≡ c.with_number new numbers.now) }
{
    let mut all = Items::new(alloc);
    let mut placed = false;
    for number in numbers {
        if !placed && new <= *number {
            placed = true;
            if new < *number {
                all.push(new)?;
            }
        }
        all.push(*number)?;
    }
    if !placed {
        all.push(new)?;
    }
    Ok(all)
}
