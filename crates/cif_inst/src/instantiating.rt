//! Making the net of a source.

ghost use Rattle.std.specs.Prelude.{◌≡◌, ℕ, map, IfOk};
ghost use Rattle.std.specs.Result.{IfErr};
ghost use Rattle.cif_ast.specs.Countable.{IsCountable};
ghost use Rattle.cif_ast.specs.SmallNumbers.{HasSmallNumbers};
ghost use Rattle.cif_source.specs.Source.{source_of};
ghost use Rattle.cif_source.specs.InstanceRules.{ConstantRangeDue, TooManyObjectsDue};
ghost use Rattle.cif_scope.specs.Scopes.{AreScopesOf};
ghost use Rattle.cif_inst_constants.specs.Constants.{HasValues};
ghost use Rattle.cif_types.specs.Kinds.{KeepsKinds, AreKindsOf};
ghost use Rattle.cif_net.specs.View.{net_tree, event_tree};
ghost use Rattle.cif_inst_model.specs.Represents.{Represents};
ghost use Rattle.cif_inst_names.specs.Looking.{AreNamesOf, source_for};
ghost use Rattle.cif_inst_automata.specs.Alphabets.{rows_alphabets};
ghost use Rattle.cif_inst.specs.Events as events_by;
ghost use Rattle.cif_inst.specs.Net.{due, KeepsInstances};
ghost use Rattle.cif_inst_paths.specs.Rows.{rows_of};
ghost use Rattle.cif_inst.specs.Typing.{AreTypesOf, typed_source};
ghost use Rattle.cif_inst_paths.specs.Views.{row_tree};

use crate::definitions::{all_definitions, definition_measures};
use crate::error::InstErr;
use crate::events::all_events;
use crate::measures::all_measures;
use crate::objects::objects_of;
use crate::sizes::{check_made, check_sizes};
use crate::typing::Typing;
use cif_alg::outlines_have_the_nodes_of_their_net;
use cif_ast::Spec;
use cif_base::Items;
use cif_inst_automata::{Alphabet, all_autos, alphabets_of};
use cif_inst_components::number_components;
use cif_inst_constants::{Constants, Types, check_constants, declarations, turns};
use cif_inst_laws::{
    counted_trees_have_small_parts, nets_of_sources_are_nets, nets_represent_their_sources,
    trees_have_small_arguments,
};
use cif_inst_names::Looking;
use cif_inst_numbers::number_objects;
use cif_inst_parameters::parameters;
use cif_inst_paths::{Row, all_rows};
use cif_inst_predicates::{predicate_weights, predicates_of};
use cif_inst_sizes::{exact_weights_give_a_rank, weights_of};
use cif_inst_types::values_of;
use cif_net::{Event, Net};
use cif_scope::Scopes;
use cif_types::Kinds;
use std::alloc::Global;

/// Checks that the expressions of a source are small enough to be made, by the alphabets of its automata. The error is the size of its
/// net. Where an algebraic variable depends on itself the error is `Memory` alone: rule 19 is checked on the net that is made.
fn check_expressions(
    alloc: Global,
    looking: &Looking<'_, '_>,
    rows: &[Row],
    events: &[Event],
    alphabets: &[Alphabet],
) -> Result<(), InstErr>
    requires names { AreNamesOf looking.now }
    requires kinds { KeepsKinds (source_for looking.now) }
    requires countable { IsCountable looking.now.spec.now }
    requires small { HasSmallNumbers looking.now.spec.now }
    requires kept { KeepsInstances (source_for looking.now) }
    requires rows { map row_tree rows.now ≡ rows_of (source_for looking.now) }
    requires events { map event_tree events.now ≡ events_by.all_events (source_for looking.now) (map row_tree rows.now) }
    requires found { alphabets.now ≡ rows_alphabets looking.now 0 (map row_tree rows.now) }
    ensures { IfErr result (λ e. due (source_for looking.now) e) }
{
    let definitions = all_definitions(alloc, rows)?;
    let weights = weights_of(alloc, looking, definitions)?;
    let predicates = predicate_weights(alloc, looking, &weights, rows)?;
    let measures = all_measures(alloc, looking, &weights, &predicates, rows)?;
    if !weights.exact {
        let definitions = all_definitions(alloc, rows)?;
        let defined = definition_measures(alloc, looking, &weights, definitions.as_slice())?;
        check_made(looking.given, measures.as_slice(), defined.as_slice())?;
        return Ok(());
    }
    let own = weights.algebraic(alloc)?;
    exact_weights_give_a_rank();
    counted_trees_have_small_parts();
    trees_have_small_arguments();
    nets_of_sources_are_nets();
    outlines_have_the_nodes_of_their_net();
    let sizes = measures.as_slice();
    check_sizes(alloc, alphabets, events, &predicates, sizes, own.as_slice())?;
    Ok(())
}

/// The alphabets of a source whose net is small enough to be made. The error is an event outside an alphabet, or else one with two roles,
/// or else the size of the net.
fn checked_alphabets(
    alloc: Global,
    looking: &Looking<'_, '_>,
    rows: &[Row],
    events: &[Event],
) -> Result<Items<Alphabet>, InstErr>
    requires names { AreNamesOf looking.now }
    requires kinds { KeepsKinds (source_for looking.now) }
    requires countable { IsCountable looking.now.spec.now }
    requires small { HasSmallNumbers looking.now.spec.now }
    requires few { (count : ℕ) → TooManyObjectsDue (source_for looking.now) count → ⊥ }
    requires ranges { (at : ℕ) → ConstantRangeDue (source_for looking.now) at → ⊥ }
    requires rows { map row_tree rows.now ≡ rows_of (source_for looking.now) }
    requires events { map event_tree events.now ≡ events_by.all_events (source_for looking.now) (map row_tree rows.now) }
    ensures found { IfOk result (λ all. all ≡ rows_alphabets looking.now 0 (map row_tree rows.now)) }
    ensures none { IfOk result (λ all. KeepsInstances (source_for looking.now)) }
    ensures refused { IfErr result (λ e. due (source_for looking.now) e) }
{
    let alphabets = alphabets_of(alloc, looking, rows)?;
    check_expressions(alloc, looking, rows, events, alphabets.as_slice())?;
    Ok(alphabets)
}

/// The net of a source with these types, or the rule on alphabets, roles or sizes that it breaks.
fn made_net(alloc: Global, typing: &Typing) -> Result<Net, InstErr>
    requires types { AreTypesOf typing.now }
    requires kinds { KeepsKinds (typed_source typing.now) }
    requires countable { IsCountable typing.now.looking.now.spec.now }
    requires small { HasSmallNumbers typing.now.looking.now.spec.now }
    requires few { (count : ℕ) → TooManyObjectsDue (typed_source typing.now) count → ⊥ }
    requires ranges { (at : ℕ) → ConstantRangeDue (typed_source typing.now) at → ⊥ }
    ensures represents { IfOk result (λ n. Represents (net_tree n) (typed_source typing.now)) }
    ensures none { IfOk result (λ n. KeepsInstances (typed_source typing.now)) }
    ensures refused { IfErr result (λ e. due (typed_source typing.now) e) }
{
    let looking = typing.looking;
    let components = all_rows(alloc, looking.spec, looking.scopes, looking.components)?;
    let rows = components.as_slice();
    let events = all_events(alloc, typing, rows)?;
    let alphabets = checked_alphabets(alloc, looking, rows, events.as_slice())?;
    let autos = all_autos(alloc, looking, rows, alphabets.as_slice())?;
    let objects = objects_of(alloc, typing, rows)?;
    let predicates = predicates_of(alloc, looking, rows)?;
    counted_trees_have_small_parts();
    trees_have_small_arguments();
    nets_of_sources_are_nets();
    nets_represent_their_sources();
    Ok(Net {
        autos,
        events,
        inputs: objects.inputs,
        vars: objects.vars,
        algs: objects.algs,
        exclusions: predicates.exclusions,
        invariants: predicates.invariants,
    })
}

/// The net of a source whose constants have these values, or the rule on alphabets, roles or sizes that it breaks.
fn net_of(alloc: Global, looking: &Looking<'_, '_>, constants: &Constants) -> Result<Net, InstErr>
    requires names { AreNamesOf looking.now }
    requires kinds { KeepsKinds (source_for looking.now) }
    requires countable { IsCountable looking.now.spec.now }
    requires small { HasSmallNumbers looking.now.spec.now }
    requires few { (count : ℕ) → TooManyObjectsDue (source_for looking.now) count → ⊥ }
    requires values { HasValues (source_for looking.now) looking.now.scopes.now constants.now.numbers constants.now.values }
    requires ranges { (at : ℕ) → ConstantRangeDue (source_for looking.now) at → ⊥ }
    ensures represents { IfOk result (λ n. Represents (net_tree n) (source_for looking.now)) }
    ensures none { IfOk result (λ n. KeepsInstances (source_for looking.now)) }
    ensures refused { IfErr result (λ e. due (source_for looking.now) e) }
{
    let declared = declarations(alloc, looking.spec)?;
    let types = Types {
        scopes: looking.scopes,
        constants,
        rows: declared.as_slice(),
    };
    let typing = Typing {
        looking,
        types: &types,
        turns: turns(alloc, looking.spec, looking.components)?,
    };
    made_net(alloc, &typing)
}

/// The net of a source, or the rule on instances that it breaks.
pub fn instantiate(
    alloc: Global,
    spec: &Spec,
    scopes: &Scopes,
    kinds: &Kinds,
) -> Result<Net, InstErr>
    requires countable { IsCountable spec.now }
    requires small { HasSmallNumbers spec.now }
    requires scopes { AreScopesOf (source_of spec.now) scopes.now }
    requires kinds { AreKindsOf (source_of spec.now) kinds.now }
    ensures represents { IfOk result (λ n. Represents (net_tree n) (source_of spec.now)) }
    ensures none { IfOk result (λ n. KeepsInstances (source_of spec.now)) }
    ensures refused { IfErr result (λ e. due (source_of spec.now) e) }
{
    let components = number_components(alloc, spec, scopes)?;
    let constants = check_constants(alloc, spec, scopes, &components)?;
    let numbers = number_objects(alloc, spec, scopes, &components)?;
    let values = values_of(alloc, spec, scopes, &components, &constants)?;
    let given = parameters(alloc, spec, scopes, &components)?;
    let looking = Looking {
        spec,
        scopes,
        components: &components,
        numbers: &numbers,
        values: values.as_slice(),
        given: given.as_slice(),
    };
    net_of(alloc, &looking, &constants)
}
