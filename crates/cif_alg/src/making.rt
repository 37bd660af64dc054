//! Whether the net in which algebraic variables are replaced is small enough to be made. What is within the limit on the nodes of
//! choices is, but for edges that no choice takes, and for state invariants where there is no choice. No clause speaks of it: it tells
//! only whether there is memory.

use cif_alg_measure::{MOST_NODES, Measure, edge_size, exclusion_size, invariants_size};
use cif_net::{Auto, Exclusion, Net, NetEdge};

/// The most forms that the expressions of a net have together, of those that are made.
pub const MOST_FORMS: u64 = 4_000_000;

/// The forms of something of this size. One that stopped past its limit stands for any number, and so for more than are made.
fn forms(size: u64) -> u64 {
    if size > MOST_NODES {
        MOST_FORMS + 1
    } else {
        size
    }
}

fn edges_forms(edges: &[NetEdge], algs: &[Measure]) -> u64 {
    let mut found: u64 = 0;
    for edge in edges {
        found = found.saturating_add(forms(edge_size(algs, edge)));
    }
    found
}

fn autos_forms(autos: &[Auto], algs: &[Measure]) -> u64 {
    let mut found: u64 = 0;
    for auto in autos {
        found = found.saturating_add(edges_forms(auto.edges.as_slice(), algs));
    }
    found
}

fn exclusions_forms(exclusions: &[Exclusion], algs: &[Measure]) -> u64 {
    let mut found: u64 = 0;
    for exclusion in exclusions {
        found = found.saturating_add(forms(exclusion_size(algs, exclusion)));
    }
    found
}

/// Whether the edges, exclusions and state invariants of a net have few enough forms, where an algebraic variable counts as the
/// measure with its number. The time is linear in them.
pub fn is_made(net: &Net, algs: &[Measure]) -> bool {
    let edges = autos_forms(net.autos.as_slice(), algs);
    let exclusions = exclusions_forms(net.exclusions.as_slice(), algs);
    let invariants = forms(invariants_size(algs, net.invariants.as_slice()));
    edges.saturating_add(exclusions).saturating_add(invariants) <= MOST_FORMS
}
