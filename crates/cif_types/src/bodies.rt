//! The kinds of the expressions and of the arguments of all bodies.

ghost use Rattle.std.specs.Prelude.{◌≡◌, ◌<◌, map, length, IfOk, IfErr};
ghost use Rattle.cif_ast.specs.Countable.{IsCountable};
ghost use Rattle.cif_source.specs.Source.{source_of};
ghost use Rattle.cif_source.specs.Objects.{bodies};
ghost use Rattle.cif_types_arguments.specs.Arguments as arguments;
ghost use Rattle.cif_source.specs.Kinds.{no_kind};
ghost use Rattle.cif_scope.specs.Scopes.{AreScopesOf};
ghost use Rattle.cif_scope.specs.Written as written;
ghost use Rattle.cif_scope.specs.Written.{body_of_written};
ghost use Rattle.cif_types_kinds.specs.Tables.{AreKindsIn};
ghost use Rattle.cif_types_kinds.specs.Readings.{IsReading, IsWrittenIn, received_in, source_for};
ghost use Rattle.cif_types.specs.Bodies.{IsFine, AreFine, MismatchTold};

use cif_ast::Spec;
use cif_scope::{Scopes, Written, number, written_bodies};
use cif_types_arguments::check_arguments;
use cif_types_kinds::{Kind, KindErr, KindTable, Reading};
use std::alloc::Global;

/// Checks the expressions, the uses of events and the arguments of the instances of a body.
#[tactic(auto, using(crate::proofs::BodyLaws::values_told, crate::proofs::BodyLaws::uses_told, crate::proofs::BodyLaws::arguments_told, crate::proofs::BodyLaws::body_fine))]
fn check_body(
    alloc: Global,
    reading: &Reading<'_>,
    all: &[Written<'_>],
    one: Written<'_>,
) -> Result<(), KindErr>
    requires reading { IsReading reading.now }
    requires received { received_in reading.now ≡ no_kind }
    requires all { arguments.AreWrittenIn reading.now all.now }
    requires written { IsWrittenIn reading.now (body_of_written one) }
    ensures fine { IfOk result (λ u. IsFine (source_for reading.now) reading.now.body) }
    ensures told { IfErr result (λ e. MismatchTold (source_for reading.now) e) }
{
    reading.check_values(alloc, one)?;
    reading.check_uses(alloc, one)?;
    check_arguments(alloc, reading, all, one)
}

/// Checks the bodies of a source, by the scopes and the kinds of what it declares.
fn check_bodies(
    alloc: Global,
    spec: &Spec,
    scopes: &Scopes,
    table: &KindTable,
    all: &[Written<'_>],
) -> Result<(), KindErr>
    requires scopes { AreScopesOf (source_of spec.now) scopes.now }
    requires kinds { AreKindsIn (source_of spec.now) table.now }
    requires written { map body_of_written all.now ≡ written.written_bodies (source_of spec.now) }
    ensures fine { IfOk result (λ u. AreFine (source_of spec.now) (length (bodies (source_of spec.now)))) }
    ensures told { IfErr result (λ e. MismatchTold (source_of spec.now) e) }
{
    for (body, one) in all.iter().enumerate() {
        let reading = Reading {
            spec,
            scopes,
            table,
            body: number(body)?,
            received: Kind::None,
        };
        check_body(alloc, &reading, all, *one)?;
    }
    Ok(())
}

/// Checks that each expression has the kind that its position asks for, that each use of an event fits what is sent along it, and
/// that each argument of an instance fits its parameter, by the kinds of what is declared.
pub fn check_values(
    alloc: Global,
    spec: &Spec,
    scopes: &Scopes,
    table: &KindTable,
) -> Result<(), KindErr>
    requires countable { IsCountable spec.now }
    requires scopes { AreScopesOf (source_of spec.now) scopes.now }
    requires kinds { AreKindsIn (source_of spec.now) table.now }
    ensures fine { IfOk result (λ u. AreFine (source_of spec.now) (length (bodies (source_of spec.now)))) }
    ensures told { IfErr result (λ e. MismatchTold (source_of spec.now) e) }
{
    let all = written_bodies(alloc, spec)?;
    check_bodies(alloc, spec, scopes, table, all.as_slice())
}
