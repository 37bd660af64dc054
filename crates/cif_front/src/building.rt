//! From the tree of a source to its net with the choices of all events.

ghost use Rattle.std.specs.Prelude.{◌≡◌, true, false, IfOk, IfErr};
ghost use Rattle.std.specs.List.{list_all};
ghost use Rattle.cif_ast.specs.Countable.{IsCountable};
ghost use Rattle.cif_ast.specs.SmallNumbers.{HasSmallNumbers};
ghost use Rattle.cif_source.specs.Source.{source_of};
ghost use Rattle.cif_scope.specs.Scopes.{AreScopesOf};
ghost use Rattle.cif_net_model.specs.Counts.{is_too_large};
ghost use Rattle.cif_net_model.specs.Rules.{evaluated};
ghost use Rattle.cif_net.specs.View.{net_tree};
ghost use Rattle.cif_inst_model.specs.Represents.{Represents};
ghost use Rattle.cif_inst_model.specs.Flat.{net_of_source};
ghost use Rattle.cif_alg_measure.specs.Rules.{declared_divides, declared_is_narrow};
ghost use Rattle.cif_alg_order.specs.Orders.{IsOrderOf};
ghost use Rattle.cif_alg.specs.Keeps.{KeepsAlgebraic, KeepsExpressions};
ghost use Rattle.cif_front.specs.Dues.{IsDueOf};
ghost use Rattle.cif_front.specs.Kept.{KeepsSource};
ghost use Rattle.cif_front.specs.Loads.{IsLoadedFrom, Stands};
ghost use Rattle.cif_front.specs.Paths as paths;
ghost use Rattle.cif_front.specs.Paths.{NamesNothing, NamesOf};

use crate::error::{LoadErr, Unloaded};
use cif_alg::{AlgErr, check_net, settle};
use cif_ast::Spec;
use cif_base::{Memory, Text};
use cif_guard::guard;
use cif_inst::instantiate;
use cif_lin::linearise;
use cif_net::{Guarded, Net, Plain};
use cif_resolve::resolve;
use cif_scope::Scopes;
use cif_sync::roles;
use cif_types::check_kinds;
use std::alloc::Global;

/// The scopes of a source.
#[tactic(auto, using(crate::proofs::PhaseLaws::scope_due, crate::proofs::PathLaws::scope_silent))]
fn scopes_of(alloc: Global, spec: &Spec) -> Result<Scopes, LoadErr>
    ensures scopes { IfOk result (λ s. AreScopesOf (source_of spec.now) s) }
    ensures refused { IfErr result (λ e. IsDueOf (source_of spec.now) e) }
    ensures silent { IfErr result NamesNothing }
{
    Ok(resolve(alloc, spec)?)
}

/// The net of a source, by its scopes.
#[tactic(auto, using(crate::proofs::PhaseLaws::source_kept, crate::proofs::PhaseLaws::type_due, crate::proofs::PhaseLaws::inst_due, crate::proofs::PathLaws::type_silent, crate::proofs::PathLaws::inst_silent))]
fn net_by(alloc: Global, spec: &Spec, scopes: &Scopes) -> Result<Net, LoadErr>
    requires countable { IsCountable spec.now }
    requires small { HasSmallNumbers spec.now }
    requires scopes { AreScopesOf (source_of spec.now) scopes.now }
    ensures represents { IfOk result (λ n. Represents (net_tree n) (source_of spec.now)) }
    ensures kept { IfOk result (λ n. KeepsSource (source_of spec.now)) }
    ensures refused { IfErr result (λ e. IsDueOf (source_of spec.now) e) }
    ensures silent { IfErr result NamesNothing }
{
    let kinds = check_kinds(alloc, spec, scopes)?;
    Ok(instantiate(alloc, spec, scopes, &kinds)?)
}

/// The net of a source.
fn net_of(alloc: Global, spec: &Spec) -> Result<Net, LoadErr>
    requires countable { IsCountable spec.now }
    requires small { HasSmallNumbers spec.now }
    ensures represents { IfOk result (λ n. Represents (net_tree n) (source_of spec.now)) }
    ensures kept { IfOk result (λ n. KeepsSource (source_of spec.now)) }
    ensures refused { IfErr result (λ e. IsDueOf (source_of spec.now) e) }
    ensures silent { IfErr result NamesNothing }
{
    let scopes = scopes_of(alloc, spec)?;
    net_by(alloc, spec, &scopes)
}

/// The path of an algebraic variable of a net.
fn path_of(alloc: Global, net: &Net, alg: u32) -> Result<Text, Memory>
    ensures { IfOk result (λ path. path ≡ paths.path_in (net_tree net.now) alg) }
{
    match net.algs.get(alg as usize) {
        Some(found) => found.path.copy(alloc),
        None => Ok(Text::new(alloc)),
    }
}

/// The refusal of a net: an algebraic variable that depends on itself is told by its path.
fn refused_net(alloc: Global, net: &Net, error: AlgErr) -> Unloaded
    ensures { paths.IsRefusedNet (net_tree net.now) error result }
{
    match error {
        AlgErr::Cycle { alg } => match path_of(alloc, net, alg) {
            Ok(path) => Unloaded {
                why: LoadErr::from(error),
                path,
            },
            Err(_memory) => Unloaded::plain(alloc, LoadErr::Memory),
        },
        AlgErr::ZeroDivisor { .. }
        | AlgErr::TooWide { .. }
        | AlgErr::InvariantReadsInput { .. }
        | AlgErr::InvariantFalse { .. }
        | AlgErr::TooLarge { .. }
        | AlgErr::Memory => Unloaded::plain(alloc, LoadErr::from(error)),
    }
}

/// The plain net of a source, by its net whose expressions keep their rules: algebraic variables are replaced by their definitions,
/// along an order of these, and the state invariants keep their rules too.
#[tactic(auto, using(crate::proofs::PhaseLaws::alg_due, crate::proofs::PhaseLaws::unfolded_stands, crate::proofs::PhaseLaws::plain_kept, crate::proofs::PathLaws::settled_silent))]
fn settled_of(alloc: Global, _spec: &Spec, net: Net, order: &[u32]) -> Result<Plain, LoadErr>
    requires represents { Represents (net_tree net) (source_of _spec.now) }
    requires kept { KeepsSource (source_of _spec.now) }
    requires order { IsOrderOf (net_tree net) order.now }
    requires divides { list_all (declared_divides (net_tree net)) (evaluated (net_tree net)) ≡ true }
    requires narrow { list_all (declared_is_narrow (net_tree net)) (evaluated (net_tree net)) ≡ true }
    requires small { is_too_large (net_tree net) ≡ false }
    requires expressions { KeepsExpressions (net_tree net) }
    ensures stands { IfOk result (λ p. Stands (net_tree p.net) (source_of _spec.now)) }
    ensures plain { IfOk result (λ p. KeepsAlgebraic (net_of_source (source_of _spec.now))) }
    ensures refused { IfErr result (λ e. IsDueOf (source_of _spec.now) e) }
    ensures silent { IfErr result NamesNothing }
{
    Ok(settle(alloc, net, order)?)
}

/// The plain net of a source, by its net.
fn plain_of(alloc: Global, spec: &Spec, net: Net) -> Result<Plain, Unloaded>
    requires represents { Represents (net_tree net) (source_of spec.now) }
    requires kept { KeepsSource (source_of spec.now) }
    ensures stands { IfOk result (λ p. Stands (net_tree p.net) (source_of spec.now)) }
    ensures plain { IfOk result (λ p. KeepsAlgebraic (net_of_source (source_of spec.now))) }
    ensures refused { IfErr result (λ e. IsDueOf (source_of spec.now) e.why) }
    ensures named { IfErr result (λ e. NamesOf (source_of spec.now) e.why e.path) }
{
    match check_net(alloc, &net) {
        Ok(order) => match settled_of(alloc, spec, net, order.as_slice()) {
            Ok(plain) => Ok(plain),
            Err(why) => Err(Unloaded::plain(alloc, why)),
        },
        Err(error) => Err(refused_net(alloc, &net, error)),
    }
}

/// The net of a source with the choices of all events, by its plain net.
fn guarded_of(alloc: Global, _spec: &Spec, plain: Plain) -> Result<Guarded, LoadErr>
    requires stands { Stands (net_tree plain.net) (source_of _spec.now) }
    requires kept { KeepsSource (source_of _spec.now) }
    requires plain { KeepsAlgebraic (net_of_source (source_of _spec.now)) }
    ensures loaded { IfOk result (λ g. IsLoadedFrom (source_of _spec.now) g) }
    ensures refused { IfErr result (λ e. IsDueOf (source_of _spec.now) e) }
    ensures silent { IfErr result NamesNothing }
{
    let roles = roles(alloc, &plain)?;
    match linearise(alloc, &plain, &roles) {
        Ok(linear) => Ok(guard(alloc, plain, linear)?),
        Err(error) => Err(LoadErr::from(error)),
    }
}

/// The net of a source with the choices of all events, or a rule that it breaks, of the first phase in which it breaks one.
pub fn build(alloc: Global, spec: &Spec) -> Result<Guarded, Unloaded>
    requires countable { IsCountable spec.now }
    requires small { HasSmallNumbers spec.now }
    ensures loaded { IfOk result (λ g. IsLoadedFrom (source_of spec.now) g) }
    ensures refused { IfErr result (λ e. IsDueOf (source_of spec.now) e.why) }
    ensures named { IfErr result (λ e. NamesOf (source_of spec.now) e.why e.path) }
{
    let net = match net_of(alloc, spec) {
        Ok(net) => net,
        Err(why) => return Err(Unloaded::plain(alloc, why)),
    };
    let plain = plain_of(alloc, spec, net)?;
    match guarded_of(alloc, spec, plain) {
        Ok(guarded) => Ok(guarded),
        Err(why) => Err(Unloaded::plain(alloc, why)),
    }
}
