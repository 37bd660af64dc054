//! Whether the net is small enough to be made, and if not, how large it is. The net has an argument wherever a name of its parameter
//! is, so it may be exponentially larger than its source.

ghost use Rattle.std.specs.Prelude.{◌≡◌, map, min, sum_by, IfOk};
ghost use Rattle.std.specs.Result.{IfErr};
ghost use Rattle.cif_net.specs.View.{event_tree};
ghost use Rattle.cif_inst.specs.Outlines as outlines;

use crate::error::InstErr;
use crate::outlines::{all_outlines, outline_exclusions, outline_invariants};
use cif_alg::{MOST_FORMS, choice_nodes, with_sizes};
use cif_alg_measure::{MOST_DEPTH, MOST_NODES, Measure};
use cif_base::Memory;
use cif_inst_automata::Alphabet;
use cif_inst_parameters::Given;
use cif_inst_predicates::PredicateWeights;
use cif_net::Event;
use cif_scope::number;
use std::alloc::Global;

/// The measure of all these side by side.
fn together(measures: &[Measure]) -> Measure
    ensures { result ≡ outlines.together measures.now }
{
    let mut found = Measure::none();
    for measure in measures {
        found = found.beside(*measure);
    }
    found
}

/// The forms that a measure counts. A count that stopped past its limit may be of any size, so it is more than are made.
fn weight(measure: Measure) -> u64
    ensures { result ≡ outlines.weight measure }
{
    if measure.size > MOST_NODES {
        MOST_FORMS + 1
    } else {
        measure.size
    }
}

/// The forms of all these.
fn forms(measures: &[Measure]) -> u64
    ensures { result ≡ min (sum_by outlines.weight measures.now) 18446744073709551615 }
{
    let mut found: u64 = 0;
    for measure in measures {
        found = found.saturating_add(weight(*measure));
    }
    found
}

/// The greatest depth of what these are the measures of, and of algebraic variables with these measures.
fn greatest_depth(measures: &[Measure], own: &[Measure]) -> u64
    ensures { result ≡ outlines.greatest_depth measures.now own.now }
{
    together(measures).depth.max(together(own).depth)
}

/// The nodes of the choices of a net, by the outlines of its automata, exclusions and state invariants, and of its algebraic variables.
/// The count stops one past the limit.
fn outlined_nodes(
    alloc: Global,
    alphabets: &[Alphabet],
    events: &[Event],
    predicates: &PredicateWeights,
    measures: &[Measure],
    own: &[Measure],
) -> Result<u64, Memory>
    ensures { IfOk result (λ nodes. nodes ≡ outlines.outlined_nodes alphabets.now (map event_tree events.now) predicates.now measures.now own.now) }
{
    let exclusions = outline_exclusions(alloc, predicates.exclusions.as_slice())?;
    let count = predicates.exclusions.len();
    let states = predicates.invariants.as_slice();
    let invariants = outline_invariants(alloc, number(count)?, states)?;
    let autos = all_outlines(alloc, number(count + states.len())?, alphabets)?;
    let choices = choice_nodes(
        alloc,
        autos.as_slice(),
        exclusions.as_slice(),
        invariants.as_slice(),
        events,
        measures,
    )?;
    Ok(with_sizes(choices, own))
}

/// Checks that a net is small enough to be made, by the alphabets of its automata, its events, its predicates, the measures of these and
/// of its edges, and the measures `own` of its algebraic variables. The error is its sizes where they break the rule (24), and else
/// `Memory`: then an edge that no choice takes, or an exclusion of an event without choices, is too large.
pub(crate) fn check_sizes(
    alloc: Global,
    alphabets: &[Alphabet],
    events: &[Event],
    predicates: &PredicateWeights,
    measures: &[Measure],
    own: &[Measure],
) -> Result<(), InstErr>
    ensures made { IfOk result (λ done. outlines.AreMade measures.now own.now) }
    ensures told { IfErr result (λ e. outlines.tells_size alphabets.now (map event_tree events.now) predicates.now measures.now own.now e) }
{
    let depth = greatest_depth(measures, own);
    if depth <= MOST_DEPTH && forms(measures) <= MOST_FORMS && forms(own) <= MOST_FORMS {
        return Ok(());
    }
    let nodes = outlined_nodes(alloc, alphabets, events, predicates, measures, own)?;
    if nodes > MOST_NODES || depth > MOST_DEPTH {
        return Err(InstErr::TooLarge {
            nodes: number(nodes as usize)?,
            depth: number(depth as usize)?,
        });
    }
    Err(InstErr::Memory)
}

/// The most instances with arguments where expressions deeper than the limit are made, since each may continue one in an argument.
const FEW_INSTANCES: usize = 16;

/// Whether few components have arguments.
fn has_few_arguments(given: &[Vec<Given<'_>>]) -> bool {
    let mut left = FEW_INSTANCES;
    for arguments in given {
        if !arguments.is_empty() {
            if left == 0 {
                return false;
            }
            left -= 1;
        }
    }
    true
}

/// Whether what these are the measures of is made: where it is deep, few instances have arguments.
fn is_made(measures: &[Measure], is_flat: bool) -> bool {
    let is_low = together(measures).depth <= MOST_DEPTH;
    (is_low || is_flat) && forms(measures) <= MOST_FORMS
}

/// Checks that a net in which an algebraic variable depends on itself is small enough to be made, by the measures of its exclusions,
/// state invariants and edges and those of `definitions` of algebraic variables, where a name of one counts as one form, and by the
/// arguments of its components. The only error is want of memory: rule 19 is checked on a net that is made.
pub(crate) fn check_made(
    given: &[Vec<Given<'_>>],
    measures: &[Measure],
    definitions: &[Measure],
) -> Result<(), Memory> {
    let is_flat = has_few_arguments(given);
    if is_made(measures, is_flat) && is_made(definitions, is_flat) {
        Ok(())
    } else {
        Err(Memory)
    }
}
