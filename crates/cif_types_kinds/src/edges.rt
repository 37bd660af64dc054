//! Reading locations, edges and their updates.

ghost use Rattle.std.specs.Prelude.{◌≡◌, List, map, option_map, Some, None, IfOk};
ghost use Rattle.cif_ast.specs.View.{view, view_update, view_updates, view_update_branches};
ghost use Rattle.cif_source.specs.Source.{Text, use_tree, edge_tree, equation_tree, location_tree};
ghost use Rattle.cif_source.specs.Kinds.{bool_kind};
ghost use Rattle.cif_source.specs.Demands.{received_by, carried_kind};
ghost use Rattle.cif_types_kinds.specs.Tables.{kind_for, channel_for};
ghost use Rattle.cif_types_kinds.specs.Readings.{IsReading, component_in, lists_in, received_in};
ghost use Rattle.cif_types_kinds.specs.Faults.{Tells};
ghost use Rattle.cif_types_kinds.specs.Values as values;

use crate::error::KindErr;
use crate::kind::{Channel, Kind};
use crate::reading::Reading;
use cif_ast::{Edge, EventUse, Expr, Loc, LocEquation, Role, Update, UpdateBranch};
use cif_base::Memory;
use std::alloc::Global;

/// The kind of the values that a channel carries.
fn carried(channel: Channel) -> Kind
    ensures { (lists : List (List Text)) → kind_for lists result ≡ carried_kind (channel_for lists channel) }
{
    match channel {
        Channel::Of(kind) => kind,
        Channel::No | Channel::Void => Kind::None,
    }
}

impl<'a> Reading<'a> {
    /// Asks expressions for truth values, each as one that stands for itself.
    fn ask_values(&self, alloc: Global, all: &[Expr]) -> Result<(), KindErr>
        requires { IsReading self.now }
        ensures { Tells result (values.first_told (values.value_told (component_in self.now) (received_in self.now) bool_kind) (map view all.now)) }
    {
        for expr in all {
            self.ask(alloc, Kind::Bool, expr)?;
        }
        Ok(())
    }

    /// Asks a sent value for the kind of its channel.
    fn ask_sent(&self, alloc: Global, channel: Channel, value: &Expr) -> Result<(), KindErr>
        requires { IsReading self.now }
        ensures { Tells result (values.sent_told (component_in self.now) (received_in self.now) (channel_for (lists_in self.now) channel) (view value.now)) }
    {
        match channel {
            Channel::Of(asks) => {
                self.ask(alloc, asks, value)?;
                Ok(())
            }
            Channel::No | Channel::Void => {
                self.read(alloc, value)?;
                Ok(())
            }
        }
    }

    fn ask_optional_sent(
        &self,
        alloc: Global,
        channel: Channel,
        value: &Option<Expr>,
    ) -> Result<(), KindErr>
        requires { IsReading self.now }
        ensures { Tells result (values.optional_sent_told (component_in self.now) (received_in self.now) (channel_for (lists_in self.now) channel) (option_map view value.now)) }
    {
        match value {
            Some(expr) => self.ask_sent(alloc, channel, expr),
            None => Ok(()),
        }
    }

    fn ask_use(&self, alloc: Global, event: &EventUse) -> Result<(), KindErr>
        requires { IsReading self.now }
        ensures { Tells result (values.use_told (component_in self.now) (received_in self.now) (use_tree event.now)) }
    {
        match &event.role {
            Role::Sync | Role::Recv => Ok(()),
            Role::Send(value) => {
                let channel = self.channel_of_name(alloc, &event.name)?;
                self.ask_optional_sent(alloc, channel, value)
            }
        }
    }

    fn ask_uses(&self, alloc: Global, all: &[EventUse]) -> Result<(), KindErr>
        requires { IsReading self.now }
        ensures { Tells result (values.first_told (values.use_told (component_in self.now) (received_in self.now)) (map use_tree all.now)) }
    {
        for event in all {
            self.ask_use(alloc, event)?;
        }
        Ok(())
    }

    /// The kind that the use of an event receives.
    fn received_by(&self, alloc: Global, event: &EventUse) -> Result<Kind, Memory>
        requires { IsReading self.now }
        ensures { IfOk result (λ k. kind_for (lists_in self.now) k ≡ received_by (component_in self.now) (use_tree event.now)) }
    {
        match &event.role {
            Role::Recv => {
                let channel = self.channel_of_name(alloc, &event.name)?;
                Ok(carried(channel))
            }
            Role::Sync | Role::Send(_) => Ok(Kind::None),
        }
    }

    /// The one kind of those so far, where there are any, and of a further one.
    fn joined(&self, kind: Option<Kind>, further: Kind) -> Kind
        requires { IsReading self.now }
        ensures { Some (kind_for (lists_in self.now) result)
            ≡ values.joined (option_map (kind_for (lists_in self.now)) kind) (kind_for (lists_in self.now) further) }
    {
        match kind {
            None => further,
            Some(one) => {
                if self.table.is_same(one, further) {
                    one
                } else {
                    Kind::None
                }
            }
        }
    }

    /// The one kind that the uses of an edge receive, where there are any.
    fn received_from(&self, alloc: Global, all: &[EventUse]) -> Result<Option<Kind>, Memory>
        requires { IsReading self.now }
        ensures { IfOk result (λ k. option_map (kind_for (lists_in self.now)) k
            ≡ values.received_from (component_in self.now) None (map use_tree all.now)) }
    {
        let mut kind = None;
        for event in all {
            let further = self.received_by(alloc, event)?;
            kind = Some(self.joined(kind, further));
        }
        Ok(kind)
    }

    #[cycle(updating)]
    fn ask_update(&self, alloc: Global, update: &Update) -> Result<(), KindErr>
        requires { IsReading self.now }
        ensures { Tells result (values.update_told (component_in self.now) (received_in self.now) (view_update update.now)) }
    {
        match update {
            Update::Set { target, value } => {
                let asks = self.kind_of_name(alloc, target)?;
                self.ask(alloc, asks, value)?;
                Ok(())
            }
            Update::If { branches, other } => {
                self.ask_update_branches(alloc, branches.as_slice())?;
                self.ask_updates(alloc, other.as_slice())
            }
        }
    }

    /// Asks the values of updates for the kinds of their variables.
    #[cycle(updating)]
    fn ask_updates(&self, alloc: Global, all: &[Update]) -> Result<(), KindErr>
        requires { IsReading self.now }
        ensures { Tells result (values.updates_told (component_in self.now) (received_in self.now) (view_updates all.now)) }
    {
        for update in all {
            self.ask_update(alloc, update)?;
        }
        Ok(())
    }

    #[cycle(updating)]
    fn ask_update_branches(&self, alloc: Global, all: &[UpdateBranch]) -> Result<(), KindErr>
        requires { IsReading self.now }
        ensures { Tells result (values.update_branches_told (component_in self.now) (received_in self.now) (view_update_branches all.now)) }
    {
        for branch in all {
            self.ask_all(alloc, branch.conds.as_slice())?;
            self.ask_updates(alloc, branch.updates.as_slice())?;
        }
        Ok(())
    }

    /// Reads updates where `?` has a kind.
    #[tactic(auto, using(crate::proofs::NameLaws::receives))]
    fn ask_updates_with(&self, alloc: Global, received: Kind, all: &[Update]) -> Result<(), KindErr>
        requires { IsReading self.now }
        ensures { Tells result (values.updates_told (component_in self.now) (kind_for (lists_in self.now) received) (view_updates all.now)) }
    {
        let reading = Reading { received, ..*self };
        reading.ask_updates(alloc, all)
    }

    fn ask_edge(&self, alloc: Global, edge: &Edge) -> Result<(), KindErr>
        requires { IsReading self.now }
        ensures { Tells result (values.edge_told (component_in self.now) (received_in self.now) (edge_tree edge.now)) }
    {
        self.ask_uses(alloc, edge.uses.as_slice())?;
        self.ask_values(alloc, edge.guards.as_slice())?;
        let received = match self.received_from(alloc, edge.uses.as_slice())? {
            Some(kind) => kind,
            None => Kind::None,
        };
        self.ask_updates_with(alloc, received, edge.updates.as_slice())
    }

    fn ask_edges(&self, alloc: Global, all: &[Edge]) -> Result<(), KindErr>
        requires { IsReading self.now }
        ensures { Tells result (values.first_told (values.edge_told (component_in self.now) (received_in self.now)) (map edge_tree all.now)) }
    {
        for edge in all {
            self.ask_edge(alloc, edge)?;
        }
        Ok(())
    }

    fn ask_equations(&self, alloc: Global, all: &[LocEquation]) -> Result<(), KindErr>
        requires { IsReading self.now }
        ensures { Tells result (values.first_told (values.equation_told (component_in self.now) (received_in self.now)) (map equation_tree all.now)) }
    {
        for equation in all {
            self.ask_own(alloc, &equation.name, &equation.value)?;
        }
        Ok(())
    }

    fn ask_location(&self, alloc: Global, loc: &Loc) -> Result<(), KindErr>
        requires { IsReading self.now }
        ensures { Tells result (values.location_told (component_in self.now) (received_in self.now) (location_tree loc.now)) }
    {
        self.ask_values(alloc, loc.marked.as_slice())?;
        self.ask_equations(alloc, loc.equations.as_slice())?;
        self.ask_edges(alloc, loc.edges.as_slice())
    }

    /// Asks what stands in locations for the kinds that are asked there.
    pub(crate) fn ask_locations(&self, alloc: Global, all: &[Loc]) -> Result<(), KindErr>
        requires { IsReading self.now }
        ensures { Tells result (values.first_told (values.location_told (component_in self.now) (received_in self.now)) (map location_tree all.now)) }
    {
        for loc in all {
            self.ask_location(alloc, loc)?;
        }
        Ok(())
    }
}
