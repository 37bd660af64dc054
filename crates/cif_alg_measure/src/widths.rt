//! Whether all expressions that a net evaluates have intervals of 64 bits.

ghost use Rattle.std.specs.Prelude.{◌≡◌, true, map, option_map, Some, IfOk, IfErr};
ghost use Rattle.std.specs.List.{list_all};
ghost use Rattle.cif_net_model.specs.Interval.{as_range};
ghost use Rattle.cif_net_model.specs.Rules.{evaluated};
ghost use Rattle.cif_net.specs.View.{net_tree, auto_tree, chan_of, edge_tree, event_tree, exclusion_tree, invariant_tree, alg_tree};
ghost use Rattle.cif_net_expr.specs.View.{view, view_update, view_updates, view_update_branches};
ghost use Rattle.cif_alg_measure.specs.Meanings.{ranges_of};
ghost use Rattle.cif_alg_measure.specs.TypeBounds.{channel_bounds, received_bounds};
ghost use Rattle.cif_alg_measure.specs.Widths.{with_received, evaluated_divides, evaluated_is_narrow, SomeFault, checked_exprs, checked_updates, checked_update, checked_branches, checked_sent, checked_edge, checked_edges, checked_autos, checked_exclusions, checked_invariants, checked_alg, checked_algs, checked_others, checked_net};

use crate::declared::range_of_type;
use crate::error::WidthErr;
use crate::intervals::interval_of;
use crate::operators::truths;
use crate::ranges::Ranges;
use cif_base::Iv;
use cif_net::{
    Alg, AlgValue, Auto, Event, Exclusion, Invariant, Net, NetChan, NetEdge, NetExpr, NetUpdate,
    NetUpdateBranch, nets_are_nets,
};

/// Whether no divisor may be 0, and the interval of each part is in 64 bits, in all expressions that a net evaluates: guards,
/// sent values, updates, exclusions, state invariants and values of algebraic variables. The ranges are those that are
/// given, but the received value of an edge has that of its event's channel. It takes no memory.
pub fn check_widths(ranges: &Ranges, net: &Net) -> Result<(), WidthErr>
    ensures divides { IfOk result (λ done. list_all (evaluated_divides (ranges_of ranges.now)) (evaluated (net_tree net.now)) ≡ true) }
    ensures narrow { IfOk result (λ done. list_all (evaluated_is_narrow (ranges_of ranges.now)) (evaluated (net_tree net.now)) ≡ true) }
    ensures fault { IfErr result (λ e. SomeFault (ranges_of ranges.now) (evaluated (net_tree net.now)) e) }
{
    nets_are_nets();
    check_net(net, ranges)
}

fn check_net(net: &Net, ranges: &Ranges) -> Result<(), WidthErr>
    ensures { result ≡ checked_net (ranges_of ranges.now) (net_tree net.now) }
{
    check_autos(net.autos.as_slice(), net.events.as_slice(), ranges)?;
    check_others(net, &receiving(truths(), ranges))
}

/// All but the expressions of edges.
fn check_others(net: &Net, ranges: &Ranges) -> Result<(), WidthErr>
    ensures { result ≡ checked_others (ranges_of ranges.now) (net_tree net.now) }
{
    check_exclusions(net.exclusions.as_slice(), ranges)?;
    check_invariants(net.invariants.as_slice(), ranges)?;
    check_algs(net.algs.as_slice(), ranges)
}

/// The same ranges, with another one of the received value.
fn receiving<'a>(received: Iv, ranges: &Ranges<'a>) -> Ranges<'a>
    ensures { ranges_of result ≡ with_received (ranges_of ranges.now) (as_range received) }
{
    Ranges {
        vars: ranges.vars,
        inputs: ranges.inputs,
        algs: ranges.algs,
        received,
    }
}

fn channel_range(chan: NetChan) -> Iv
    ensures { result ≡ channel_bounds (chan_of chan) }
{
    match chan {
        NetChan::Of(ty) => range_of_type(ty),
        NetChan::No | NetChan::Void => truths(),
    }
}

/// The range of what an edge receives.
fn received_range(edge: &NetEdge, events: &[Event]) -> Iv
    ensures { result ≡ received_bounds (map event_tree events.now) (edge_tree edge.now) }
{
    match events.get(edge.event as usize) {
        Some(event) => channel_range(event.chan),
        None => truths(),
    }
}

fn check_autos(autos: &[Auto], events: &[Event], ranges: &Ranges) -> Result<(), WidthErr>
    ensures { result ≡ checked_autos (ranges_of ranges.now) (map event_tree events.now) (map auto_tree autos.now) }
{
    for auto in autos {
        check_edges(auto.edges.as_slice(), events, ranges)?;
    }
    Ok(())
}

fn check_edges(edges: &[NetEdge], events: &[Event], ranges: &Ranges) -> Result<(), WidthErr>
    ensures { result ≡ checked_edges (ranges_of ranges.now) (map event_tree events.now) (map edge_tree edges.now) }
{
    for edge in edges {
        check_edge(edge, &receiving(received_range(edge, events), ranges))?;
    }
    Ok(())
}

fn check_edge(edge: &NetEdge, ranges: &Ranges) -> Result<(), WidthErr>
    ensures { result ≡ checked_edge (ranges_of ranges.now) (edge_tree edge.now) }
{
    interval_of(&edge.guard, ranges)?;
    check_sent(&edge.sent, ranges)?;
    check_updates(edge.updates.as_slice(), ranges)
}

fn check_sent(sent: &Option<NetExpr>, ranges: &Ranges) -> Result<(), WidthErr>
    ensures { result ≡ checked_sent (ranges_of ranges.now) (option_map view sent.now) }
{
    match sent {
        Some(value) => check_expr(value, ranges),
        None => Ok(()),
    }
}

fn check_expr(expr: &NetExpr, ranges: &Ranges) -> Result<(), WidthErr>
    ensures { result ≡ checked_sent (ranges_of ranges.now) (Some (view expr.now)) }
{
    interval_of(expr, ranges)?;
    Ok(())
}

#[cycle(check_updates)]
fn check_updates(all: &[NetUpdate], ranges: &Ranges) -> Result<(), WidthErr>
    ensures { result ≡ checked_updates (ranges_of ranges.now) (view_updates all.now) }
{
    for update in all {
        check_update(update, ranges)?;
    }
    Ok(())
}

#[cycle(check_updates)]
fn check_update(update: &NetUpdate, ranges: &Ranges) -> Result<(), WidthErr>
    ensures { result ≡ checked_update (ranges_of ranges.now) (view_update update.now) }
{
    match update {
        NetUpdate::Set { var: _, value } => check_expr(value, ranges),
        NetUpdate::If { branches, other } => {
            check_branches(branches.as_slice(), ranges)?;
            check_updates(other.as_slice(), ranges)
        }
    }
}

#[cycle(check_updates)]
fn check_branches(all: &[NetUpdateBranch], ranges: &Ranges) -> Result<(), WidthErr>
    ensures { result ≡ checked_branches (ranges_of ranges.now) (view_update_branches all.now) }
{
    for branch in all {
        interval_of(&branch.cond, ranges)?;
        check_updates(branch.updates.as_slice(), ranges)?;
    }
    Ok(())
}

fn check_exclusions(all: &[Exclusion], ranges: &Ranges) -> Result<(), WidthErr>
    ensures { result ≡ checked_exclusions (ranges_of ranges.now) (map exclusion_tree all.now) }
{
    for exclusion in all {
        interval_of(&exclusion.pred, ranges)?;
    }
    Ok(())
}

fn check_invariants(all: &[Invariant], ranges: &Ranges) -> Result<(), WidthErr>
    ensures { result ≡ checked_invariants (ranges_of ranges.now) (map invariant_tree all.now) }
{
    for invariant in all {
        interval_of(&invariant.pred, ranges)?;
    }
    Ok(())
}

fn check_algs(all: &[Alg], ranges: &Ranges) -> Result<(), WidthErr>
    ensures { result ≡ checked_algs (ranges_of ranges.now) (map alg_tree all.now) }
{
    for alg in all {
        check_alg(alg, ranges)?;
    }
    Ok(())
}

fn check_alg(alg: &Alg, ranges: &Ranges) -> Result<(), WidthErr>
    ensures { result ≡ checked_alg (ranges_of ranges.now) (alg_tree alg.now) }
{
    match &alg.value {
        AlgValue::One(value) => check_expr(value, ranges),
        AlgValue::ByLoc { auto: _, values } => check_exprs(values.as_slice(), ranges),
    }
}

fn check_exprs(all: &[NetExpr], ranges: &Ranges) -> Result<(), WidthErr>
    ensures { result ≡ checked_exprs (ranges_of ranges.now) (map view all.now) }
{
    for expr in all {
        interval_of(expr, ranges)?;
    }
    Ok(())
}
