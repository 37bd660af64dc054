//! Choices that are added to a list up to a limit.

ghost use Rattle.std.specs.Prelude.{◌≡◌, ◌≤◌, ◌*◌, ◌++◌, map, min, IfOk};
ghost use Rattle.cif_net.specs.View.{auto_tree, choice_tree};
ghost use Rattle.cif_lin.specs.Cells as c;
ghost use Rattle.cif_lin.specs.Limits.{limited, gives};
ghost use Rattle.cif_lin.specs.Parties.{cell_tree};

use crate::choosing::choice_at;
use crate::party::Party;
use cif_base::{Items, Memory};
use cif_net::{Choice, Net};
use std::alloc::Global;

/// The most choices that are listed.
pub const MOST_CHOICES: usize = 16384;

/// Adds the choices of these parties, or says that there are too many.
pub fn add_choices(
    alloc: Global,
    net: &Net,
    event: u32,
    parties: &[Party],
    all: &mut Items<Choice>,
) -> Result<bool, Memory>
    ensures { IfOk result (λ fits. gives fits (map choice_tree all.new)
        ≡ limited (map choice_tree all.old) (c.all_at (map auto_tree net.now.autos) event (map cell_tree parties.now))) }
{
    let count = counted(parties);
    if count == 0 {
        return Ok(true);
    }
    if count > MOST_CHOICES || all.len() > MOST_CHOICES - count {
        return Ok(false);
    }
    add_numbers(alloc, net, event, parties, count, all)?;
    Ok(true)
}

fn add_numbers(
    alloc: Global,
    net: &Net,
    event: u32,
    parties: &[Party],
    count: usize,
    all: &mut Items<Choice>,
) -> Result<(), Memory>
    requires { count ≡ c.count (map cell_tree parties.now) }
    ensures { IfOk result (λ done. map choice_tree all.new
        ≡ map choice_tree all.old ++ c.all_at (map auto_tree net.now.autos) event (map cell_tree parties.now)) }
{
    for number in 0..count {
        all.push(choice_at(alloc, net, event, parties, count, number)?.into_inner())?;
    }
    Ok(())
}

/// How many choices these parties have, where the count stops one past the limit.
fn counted(parties: &[Party]) -> usize
    ensures { result ≡ min (c.count (map cell_tree parties.now)) 16385 }
{
    let mut count = 1;
    for party in parties {
        count = times(count, party.options.len());
    }
    count
}

fn times(count: usize, options: usize) -> usize
    requires { count ≤ 16385 }
    ensures { result ≡ min (count * options) 16385 }
{
    (count * options.min(16385)).min(16385)
}
