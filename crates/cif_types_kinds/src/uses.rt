//! Checking that the uses of events fit what is sent along them.

ghost use Rattle.std.specs.Prelude.{◌≡◌, List, map};
ghost use Rattle.cif_source.specs.Source.{Text, role_tree, use_tree, edge_tree, location_tree};
ghost use Rattle.cif_source.specs.Demands.{is_unfit};
ghost use Rattle.cif_scope.specs.Written.{body_of_written, inside_of};
ghost use Rattle.cif_types_kinds.specs.Tables.{channel_for};
ghost use Rattle.cif_types_kinds.specs.Readings.{IsReading, IsWrittenIn, component_in};
ghost use Rattle.cif_types_kinds.specs.Faults.{Tells};
ghost use Rattle.cif_types_kinds.specs.Values.{first_told};
ghost use Rattle.cif_types_kinds.specs.Uses as spec;

use crate::error::KindErr;
use crate::kind::Channel;
use crate::reading::Reading;
use cif_ast::{Edge, EventUse, Loc, Role};
use cif_scope::{Inside, Written};
use std::alloc::Global;

/// Whether a use of an event does not fit what is sent along it. A use without `!` and `?` fits every event, a value asks for a
/// channel with values, `!` alone for one without, and `?` for a channel.
fn is_misfit(role: &Role, channel: Channel) -> bool
    ensures { (lists : List (List Text)) → result ≡ is_unfit (role_tree role.now) (channel_for lists channel) }
{
    match role {
        Role::Sync => false,
        Role::Send(value) => match channel {
            Channel::Of(_) => value.is_none(),
            Channel::Void => value.is_some(),
            Channel::No => true,
        },
        Role::Recv => matches!(channel, Channel::No),
    }
}

impl<'a> Reading<'a> {
    fn check_use(&self, alloc: Global, event: &EventUse) -> Result<(), KindErr>
        requires { IsReading self.now }
        ensures { Tells result (spec.unfit_told (component_in self.now) (use_tree event.now)) }
    {
        let channel = self.channel_of_name(alloc, &event.name)?;
        if is_misfit(&event.role, channel) {
            Err(KindErr::Mismatch { at: event.name.at })
        } else {
            Ok(())
        }
    }

    fn check_edge_uses(&self, alloc: Global, all: &[EventUse]) -> Result<(), KindErr>
        requires { IsReading self.now }
        ensures { Tells result (first_told (spec.unfit_told (component_in self.now)) (map use_tree all.now)) }
    {
        for event in all {
            self.check_use(alloc, event)?;
        }
        Ok(())
    }

    fn check_location_uses(&self, alloc: Global, all: &[Edge]) -> Result<(), KindErr>
        requires { IsReading self.now }
        ensures { Tells result (first_told (spec.edge_unfit_told (component_in self.now)) (map edge_tree all.now)) }
    {
        for edge in all {
            self.check_edge_uses(alloc, edge.uses.as_slice())?;
        }
        Ok(())
    }

    fn check_automaton_uses(&self, alloc: Global, all: &[Loc]) -> Result<(), KindErr>
        requires { IsReading self.now }
        ensures { Tells result (first_told (spec.location_unfit_told (component_in self.now)) (map location_tree all.now)) }
    {
        for loc in all {
            self.check_location_uses(alloc, loc.edges.as_slice())?;
        }
        Ok(())
    }

    fn check_inside_uses(&self, alloc: Global, inside: Inside<'_>) -> Result<(), KindErr>
        requires { IsReading self.now }
        ensures { Tells result (spec.inside_unfit_told (component_in self.now) (inside_of inside.entry)) }
    {
        match inside {
            Inside::Group(_) => Ok(()),
            Inside::Automaton(body) => self.check_automaton_uses(alloc, body.locs.as_slice()),
        }
    }

    /// Checks that the uses of events on the edges of the body fit what is sent along them.
    pub fn check_uses(&self, alloc: Global, written: Written<'_>) -> Result<(), KindErr>
        requires reading { IsReading self.now }
        requires written { IsWrittenIn self.now (body_of_written written) }
        ensures { spec.ChecksUses (component_in self.now) result }
    {
        self.check_inside_uses(alloc, written.inside)
    }
}
