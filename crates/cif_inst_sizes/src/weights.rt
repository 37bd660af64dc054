//! What algebraic variables and arguments weigh, in an order in which each stands after those that its definitions name.

ghost use Rattle.std.specs.Prelude.{◌≡◌, Some, true, length, map, slice_get, IfOk, IfSome, OnOk};
ghost use Rattle.cif_inst_model.specs.Flat.{net_of_source};
ghost use Rattle.cif_alg_measure.specs.Sizes.{AreMeasured};
ghost use Rattle.cif_order.specs.Graph.{IsOrder};
ghost use Rattle.cif_inst_names.specs.Looking.{AreNamesOf, source_for};
ghost use Rattle.cif_inst_names.specs.declared.looking.Looking as looks;
ghost use Rattle.cif_inst_sizes.specs.Counted as counted;
ghost use Rattle.cif_inst_sizes.specs.Definitions.{AreBlank, AreDefinitionsOf, Defines, definition_measure, definition_tree, blank, value_tree};
ghost use Rattle.cif_inst_sizes.specs.Needs.{AreAllBelow};
ghost use Rattle.cif_inst_sizes.specs.Weights.{AreWeights, IsWeighed, Knows, alg_by, names_by};

use crate::arguments::{add_all_arguments, firsts_of};
use crate::definitions::Definition;
use crate::measuring::Measurer;
use crate::needs::all_needs;
use cif_alg_measure::Measure;
use cif_ast::Expr;
use cif_base::{Items, Memory};
use cif_inst_names::Looking;
use cif_order::{OrderErr, order};
use cif_scope::number;
use std::alloc::Global;

/// The measures of definitions by number: `count` algebraic variables, and behind them for each component what is given for its
/// parameters, from the number in `firsts` on. A definition that isn't measured yet has none. Where they aren't `exact`, each
/// algebraic variable counts as the one form that its name is.
#[derive(Drop)]
pub struct Weights {
    pub exact: bool,
    pub count: u32,
    pub firsts: Items<u32>,
    pub table: Items<Option<Measure>>,
}

impl<'a, 'b, 'c> Measurer<'a, 'b, 'c> {
    fn value(&self, value: Option<&Expr>) -> Result<Measure, Memory>
        requires { Knows self.now }
        ensures { IfOk result (λ m. m ≡ counted.value_counted (names_by self.now) (value_tree value.entry)) }
    {
        match value {
            Some(value) => self.expr(value),
            None => Ok(Measure::one()),
        }
    }

    fn values(&self, all: &[Option<&Expr>]) -> Result<Measure, Memory>
        requires { Knows self.now }
        ensures { IfOk result (λ m. m ≡ counted.values_counted (names_by self.now) counted.none (map value_tree all.now)) }
    {
        let mut found = Measure::none();
        for value in all {
            found = found.beside(self.value(*value)?);
        }
        Ok(found)
    }
}

/// The measure of one of so many definitions by location, which have this measure side by side: an `if` with a test of the
/// location for each but the last.
fn chosen(count: usize, all: Measure) -> Measure
    ensures { result ≡ counted.chosen_counted count all }
{
    if count < 2 {
        return all.stopped();
    }
    Measure {
        size: all.size.saturating_add(count as u64),
        depth: all.depth.saturating_add(1),
    }
    .stopped()
}

fn measure_of(
    looking: &Looking<'_, '_>,
    weights: &Weights,
    definition: &Definition<'_>,
) -> Result<Measure, Memory>
    requires names { AreNamesOf looking.now }
    requires weights { AreWeights looking.now weights.now }
    ensures { IfOk result (λ m. m ≡ definition_measure (alg_by looking.now weights.now) (source_for looking.now) (definition_tree definition.now)) }
{
    let measurer = Measurer {
        looking,
        weights,
        component: definition.component,
    };
    let values = definition.values.as_slice();
    let all = measurer.values(values)?;
    Ok(chosen(values.len(), all))
}

/// Measures one of the definitions, by those that are measured.
fn put(
    looking: &Looking<'_, '_>,
    definitions: &[Definition<'_>],
    number: u32,
    weights: &mut Weights,
) -> Result<(), Memory>
    requires names { AreNamesOf looking.now }
    requires weighed { IsWeighed looking.now (map definition_tree definitions.now) weights.old }
    ensures { OnOk result (IsWeighed looking.now (map definition_tree definitions.now) weights.new) }
{
    let at = number as usize;
    if at >= weights.table.len() {
        return Err(Memory);
    }
    let Some(definition) = definitions.get(at) else {
        return Err(Memory);
    };
    let measure = measure_of(looking, weights, definition)?;
    weights.table.set(at, Some(measure));
    Ok(())
}

fn put_all(
    looking: &Looking<'_, '_>,
    definitions: &[Definition<'_>],
    order: &[u32],
    weights: &mut Weights,
) -> Result<(), Memory>
    requires names { AreNamesOf looking.now }
    requires weighed { IsWeighed looking.now (map definition_tree definitions.now) weights.old }
    ensures { OnOk result (IsWeighed looking.now (map definition_tree definitions.now) weights.new) }
{
    for number in order {
        put(looking, definitions, *number, weights)?;
    }
    Ok(())
}

/// An order in which each definition stands after those that it needs; none where one needs itself.
fn order_of(alloc: Global, needs: &[Items<u32>]) -> Result<Option<Items<u32>>, Memory>
    requires { AreAllBelow (length needs.now) needs.now }
    ensures { IfOk result (λ found. IfSome found (λ all. IsOrder needs.now all)) }
{
    let _few = number(needs.len())?;
    match order(alloc, needs) {
        Ok(all) => Ok(Some(all)),
        Err(OrderErr::Cycle { .. }) => Ok(None),
        Err(OrderErr::Memory) => Err(Memory),
    }
}

/// The weights of these definitions and of all arguments; none where one depends on itself.
fn weigh<'a>(
    alloc: Global,
    looking: &Looking<'a, '_>,
    exact: bool,
    definitions: Vec<Definition<'a>>,
) -> Result<Option<Weights>, Memory>
    requires names { AreNamesOf looking.now }
    requires definitions { Defines (source_for looking.now) exact (map definition_tree definitions.items) }
    ensures { IfOk result (λ found. IfSome found (λ w. AreWeights looking.now w)) }
{
    let count = definitions.len();
    let firsts = firsts_of(alloc, count, looking.given)?;
    let mut all = definitions;
    add_all_arguments(alloc, looking.given, &mut all)?;
    let mut weights = Weights {
        exact,
        count: number(count)?,
        firsts,
        table: Items::filled(alloc, None, all.len())?,
    };
    let needs = all_needs(alloc, looking, &weights, all.as_slice())?;
    let Some(order) = order_of(alloc, needs.as_slice())? else {
        return Ok(None);
    };
    put_all(looking, all.as_slice(), order.as_slice(), &mut weights)?;
    Ok(Some(weights))
}

/// A definition that is 0.
fn blank<'a>(alloc: Global) -> Result<Definition<'a>, Memory>
    ensures { IfOk result (λ d. definition_tree d ≡ blank) }
{
    let mut values = Vec::new(alloc);
    values.push(None)?;
    Ok(Definition {
        component: 0,
        values,
    })
}

/// As many definitions that are 0.
fn blanks<'a>(alloc: Global, count: usize) -> Result<Vec<Definition<'a>>, Memory>
    ensures { IfOk result (λ all. AreBlank (map definition_tree all.items)) }
{
    let mut all = Vec::new(alloc);
    for _number in 0..count {
        all.push(blank(alloc)?)?;
    }
    Ok(all)
}

/// The weights of the definitions of a source's algebraic variables, which are these by number, and of all arguments. Where one
/// depends on itself (19) they aren't exact: what its net weighs is not defined, and the others only tell whether there is memory
/// for it. Counts stop one past their limits. The time is linear in definitions and arguments, however large the net is.
pub fn weights_of<'a>(
    alloc: Global,
    looking: &Looking<'a, '_>,
    definitions: Vec<Definition<'a>>,
) -> Result<Weights, Memory>
    requires names { AreNamesOf looking.now }
    requires definitions { AreDefinitionsOf (source_for looking.now) (map definition_tree definitions.items) }
    ensures { IfOk result (λ w. AreWeights looking.now w) }
{
    let count = definitions.len();
    if let Some(weights) = weigh(alloc, looking, true, definitions)? {
        return Ok(weights);
    }
    match weigh(alloc, looking, false, blanks(alloc, count)?)? {
        Some(weights) => Ok(weights),
        None => Err(Memory),
    }
}

impl Weights {
    /// The measure of an algebraic variable.
    fn variable(&self, number: usize) -> Result<Measure, Memory>
        ensures { IfOk result (λ m. slice_get self.now.table number ≡ Some (Some m)) }
    {
        match self.table.get(number) {
            Some(Some(measure)) => Ok(*measure),
            _ => Err(Memory),
        }
    }

    /// The measures of the algebraic variables by number. Where they are exact, they are those of the net, in which none depends on
    /// itself.
    pub fn algebraic(&self, alloc: Global) -> Result<Items<Measure>, Memory>
        ensures { IfOk result (λ all. (l : looks.Looking) → AreWeights l self.now → self.now.exact ≡ true → AreMeasured all (net_of_source (source_for l))) }
    {
        let mut all = Items::new(alloc);
        for number in 0..self.count as usize {
            all.push(self.variable(number)?)?;
        }
        Ok(all)
    }
}
