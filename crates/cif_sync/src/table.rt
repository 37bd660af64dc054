//! The roles in each event of a net.

ghost use Rattle.std.specs.Prelude.{◌≡◌, ◌<◌, ◌^◌, length, map, IfOk};
ghost use Rattle.cif_net_model.specs.Listing.{roles_of};
ghost use Rattle.cif_net.specs.View.{net_tree, roles_tree, event_roles_tree};
ghost use Rattle.cif_sync.specs.Columns.{roles_by_event};

use crate::buckets::bucket_at;
use crate::columns::{alphabets_by_event, monitors_by_event, uses_by_event};
use cif_base::{Items, Memory};
use cif_net::{Auto, EventRoles, NetRole, Plain, Roles};
use std::alloc::Global;

/// For each event of the net, by its number, the automata that synchronise on it, those of them that monitor it, those that
/// send and those that receive. The time is linear in what alphabets, monitors, edges and events there are.
#[tactic(auto, using(crate::proofs::RoleLaws::roles_are, crate::proofs::RoleLaws::few_automata))]
pub fn roles(alloc: Global, plain: &Plain) -> Result<Roles, Memory>
    ensures { IfOk result (λ r. roles_tree r ≡ roles_of (net_tree plain.now.net)) }
{
    let net = &plain.net;
    Ok(Roles {
        events: event_roles(alloc, net.events.len(), net.autos.as_slice())?,
    })
}

fn event_roles(alloc: Global, events: usize, autos: &[Auto]) -> Result<Items<EventRoles>, Memory>
    requires { length autos.now < 2 ^ 32 }
    ensures { IfOk result (λ all. map event_roles_tree all ≡ roles_by_event events autos.now) }
{
    let syncs = alphabets_by_event(alloc, events, autos)?;
    let monitors = monitors_by_event(alloc, events, autos)?;
    let sends = uses_by_event(alloc, events, autos, NetRole::Send)?;
    let receives = uses_by_event(alloc, events, autos, NetRole::Recv)?;
    let mut all = Items::new(alloc);
    for event in 0..events {
        all.push(EventRoles {
            syncs: bucket_at(alloc, &syncs, event)?,
            monitors: bucket_at(alloc, &monitors, event)?,
            sends: bucket_at(alloc, &sends, event)?,
            receives: bucket_at(alloc, &receives, event)?,
        })?;
    }
    Ok(all)
}
