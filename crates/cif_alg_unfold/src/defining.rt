//! The expressions that replace algebraic variables.

ghost use Rattle.std.specs.Prelude.{◌≡◌, length, map, replicate, IfOk, OnOk};
ghost use Rattle.cif_net.specs.View.{alg_tree};
ghost use Rattle.cif_net_expr.specs.View.{view};
ghost use Rattle.cif_alg_unfold.specs.Defined as defined;
ghost use Rattle.cif_alg_unfold.specs.Tables.{by_table, nothing};

use crate::replacing::Replacing;
use cif_base::{Boxed, Items, Memory};
use cif_net::{Alg, AlgValue, by_places};
use cif_net_expr::{NetExpr, NetForm};
use std::alloc::Global;

impl<'m> Replacing<'m> {
    /// The definition of an algebraic variable as one expression, in which algebraic variables are replaced.
    fn definition(&self, alg: &Alg) -> Result<Boxed<NetExpr>, Memory>
        ensures { IfOk result (λ x. view x ≡ defined.definition_by (by_table self.now.by.now) (alg_tree alg.now)) }
    {
        match &alg.value {
            AlgValue::One(value) => self.expr(value),
            AlgValue::ByLoc { auto, values } => {
                let values = self.values(values.as_slice())?;
                by_places(self.alloc, *auto, values)
            }
        }
    }
}

/// Nothing for that many.
fn none_yet(alloc: Global, count: usize) -> Result<Items<NetExpr>, Memory>
    ensures { IfOk result (λ all. map view all ≡ replicate count nothing) }
{
    let mut all = Items::new(alloc);
    for _number in 0..count {
        all.push(NetExpr {
            form: NetForm::Int(0),
            at: 0,
        })?;
    }
    Ok(all)
}

/// Adds what replaces one of them, by those that are made.
fn define(
    alloc: Global,
    algs: &Items<Alg>,
    number: u32,
    by: &mut Items<NetExpr>,
) -> Result<(), Memory>
    requires { length by.old ≡ length algs.now }
    ensures length { OnOk result (length by.new ≡ length algs.now) }
    ensures made { OnOk result (map view by.new ≡ defined.with_definition (map alg_tree algs.now) (map view by.old) number) }
{
    let at = number as usize;
    let Some(alg) = algs.get(at) else {
        return Ok(());
    };
    let replacing = Replacing {
        alloc,
        by: by.as_slice(),
    };
    let made = replacing.definition(alg)?;
    by.set(at, made.into_inner());
    Ok(())
}

/// What replaces each of these algebraic variables, where each stands in the order after those that its definition names.
pub fn definitions(
    alloc: Global,
    algs: &Items<Alg>,
    order: &[u32],
) -> Result<Items<NetExpr>, Memory>
    ensures { IfOk result (λ all. map view all ≡ defined.definitions (map alg_tree algs.now) order.now) }
{
    let mut by = none_yet(alloc, algs.len())?;
    for number in order {
        define(alloc, algs, *number, &mut by)?;
    }
    Ok(by)
}
