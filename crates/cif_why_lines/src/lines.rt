//! A line for each reason.

ghost use Rattle.std.specs.Prelude.{◌≡◌, ◌++◌, codes, map, option_map, slice_get, OnOk};
ghost use Rattle.cif_why_model.specs.Lines.{auto_path, place_told, reason_told, reasons_text};
ghost use Rattle.cif_sim_names.specs.Nets.{told_of_net};
ghost use Rattle.cif_net_model.specs.Exprs.{expr_at};
ghost use Rattle.cif_net.specs.View.{net_tree};
ghost use Rattle.cif_net.specs.declared.predicates.Exclusion.{Exclusion};
ghost use Rattle.cif_net.specs.declared.predicates.Invariant.{Invariant};
ghost use Rattle.cif_why.specs.View.{reason_tree};
ghost use Rattle.cif_net_expr.specs.View.{view};
ghost use Rattle.cif_why_lines.specs.Lines.{lines_of, place_shown};

use crate::values::{put_leaves, put_place};
use cif_base::Memory;
use cif_net::{Exclusion, Invariant, Net, NetExpr};
use cif_why::Reason;

/// Appends a line for each reason why an event has no step, with paths and places of the source, or the line `enabled` where
/// there is no reason. A number that the net lacks has no path and no place.
pub fn put_reasons(into: &mut Vec<u8>, net: &Net, reasons: &[Reason]) -> Result<(), Memory>
    ensures { OnOk result (into.new.items ≡ into.old.items ++ reasons_text (told_of_net (net_tree net.now)) (map reason_tree reasons.now)) }
{
    if reasons.is_empty() {
        into.extend_from_slice(b"enabled\n")?;
        return Ok(());
    }
    put_lines(into, net, reasons)?;
    Ok(())
}

/// Appends a line for each reason.
fn put_lines(into: &mut Vec<u8>, net: &Net, reasons: &[Reason]) -> Result<(), Memory>
    ensures { OnOk result (into.new.items ≡ into.old.items ++ lines_of (told_of_net (net_tree net.now)) (map reason_tree reasons.now)) }
{
    for reason in reasons {
        put_reason(into, net, *reason)?;
        into.push(b'\n')?;
    }
    Ok(())
}

/// Appends a reason without a line feed.
fn put_reason(into: &mut Vec<u8>, net: &Net, reason: Reason) -> Result<(), Memory>
    ensures { OnOk result (into.new.items ≡ into.old.items ++ reason_told (told_of_net (net_tree net.now)) (reason_tree reason)) }
{
    match reason {
        Reason::NoRole => put_words(into, b"no automaton takes part"),
        Reason::Blocks { auto } => put_blocks(into, net, auto),
        Reason::NoSender => put_words(into, b"no sender"),
        Reason::NoReceiver => put_words(into, b"no receiver"),
        Reason::Excluded { exclusion } => put_excluded(into, net, exclusion),
        Reason::Leaves { auto, edge, place } => put_leaves(into, net, auto, edge, place),
        Reason::Breaks { invariant } => put_breaks(into, net, invariant),
    }
}

fn put_words(into: &mut Vec<u8>, words: &[u8]) -> Result<(), Memory>
    ensures { OnOk result (into.new.items ≡ into.old.items ++ words.now) }
{
    into.extend_from_slice(words)?;
    Ok(())
}

/// Appends `blocks` and the path of an automaton.
fn put_blocks(into: &mut Vec<u8>, net: &Net, auto: u32) -> Result<(), Memory>
    ensures { OnOk result (into.new.items ≡ into.old.items ++ (codes "blocks " ++ auto_path (told_of_net (net_tree net.now)) auto)) }
{
    put_words(into, b"blocks ")?;
    put_auto(into, net, auto)?;
    Ok(())
}

/// Appends the path of an automaton, if it exists.
fn put_auto(into: &mut Vec<u8>, net: &Net, auto: u32) -> Result<(), Memory>
    ensures { OnOk result (into.new.items ≡ into.old.items ++ auto_path (told_of_net (net_tree net.now)) auto) }
{
    if let Some(auto) = net.autos.get(auto as usize) {
        into.extend_from_slice(auto.path.as_slice())?;
    }
    Ok(())
}

/// Appends `excluded` and the place of the predicate of an exclusion.
fn put_excluded(into: &mut Vec<u8>, net: &Net, exclusion: u32) -> Result<(), Memory>
    ensures { OnOk result (into.new.items ≡ into.old.items ++ (codes "excluded " ++ place_told (told_of_net (net_tree net.now)).exclusions exclusion)) }
{
    let place = exclusion_place(net.exclusions.as_slice(), exclusion);
    put_words(into, b"excluded ")?;
    put_if_some(into, place)?;
    Ok(())
}

/// Appends `breaks` and the place of the predicate of a state invariant.
fn put_breaks(into: &mut Vec<u8>, net: &Net, invariant: u32) -> Result<(), Memory>
    ensures { OnOk result (into.new.items ≡ into.old.items ++ (codes "breaks " ++ place_told (told_of_net (net_tree net.now)).invariants invariant)) }
{
    let place = invariant_place(net.invariants.as_slice(), invariant);
    put_words(into, b"breaks ")?;
    put_if_some(into, place)?;
    Ok(())
}

/// Appends a place of the source, if there is one.
fn put_if_some(into: &mut Vec<u8>, place: Option<u32>) -> Result<(), Memory>
    ensures { OnOk result (into.new.items ≡ into.old.items ++ place_shown place) }
{
    if let Some(place) = place {
        put_place(into, place)?;
    }
    Ok(())
}

/// The place of the predicate of an exclusion, by its number.
fn exclusion_place(exclusions: &[Exclusion], number: u32) -> Option<u32>
    ensures { result ≡ option_map (λ (x : Exclusion). expr_at (view x.pred)) (slice_get exclusions.now number) }
{
    match exclusions.get(number as usize) {
        Some(exclusion) => Some(place_of(&exclusion.pred)),
        None => None,
    }
}

/// The place of the predicate of a state invariant, by its number.
fn invariant_place(invariants: &[Invariant], number: u32) -> Option<u32>
    ensures { result ≡ option_map (λ (i : Invariant). i.at) (slice_get invariants.now number) }
{
    match invariants.get(number as usize) {
        Some(invariant) => Some(invariant.at),
        None => None,
    }
}

fn place_of(expr: &NetExpr) -> u32
    ensures { result ≡ expr_at (view expr.now) }
{
    expr.at
}
