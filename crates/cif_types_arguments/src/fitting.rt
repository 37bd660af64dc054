//! Whether an argument fits its parameter.

ghost use Rattle.std.specs.Prelude.{◌≡◌, IfOk};
ghost use Rattle.std.specs.Option.{option_copied};
ghost use Rattle.cif_ast.specs.View.{view};
ghost use Rattle.cif_source.specs.Source.{param_tree};
ghost use Rattle.cif_source.specs.Demands.{same_channel};
ghost use Rattle.cif_source.specs.Uses as uses;
ghost use Rattle.cif_system.specs.Words.{AreDistinct};
ghost use Rattle.cif_types_kinds.specs.Tables.{channel_for};
ghost use Rattle.cif_types_kinds.specs.Readings.{IsReading, component_in, lists_in};
ghost use Rattle.cif_types_arguments.specs.Arguments as arguments;

use crate::classes::{class_found, has_class};
use cif_ast::{Class, Expr, Form, Name, Param};
use cif_base::Memory;
use cif_scope::Written;
use cif_types_kinds::{Channel, KindTable, Reading};
use std::alloc::Global;

/// The name that an expression is, where it is nothing else.
fn bare_name(value: &Expr) -> Option<&Name>
    ensures { option_copied result ≡ uses.bare_name (view value.now) }
{
    match &value.form {
        Form::Named(name) => Some(name),
        _ => None,
    }
}

/// Whether the same is sent along two events.
fn is_same_channel(table: &KindTable, one: Channel, other: Channel) -> bool
    requires { AreDistinct table.now.lists }
    ensures { result ≡ same_channel (channel_for table.now.lists one) (channel_for table.now.lists other) }
{
    match one {
        Channel::No => matches!(other, Channel::No),
        Channel::Void => matches!(other, Channel::Void),
        Channel::Of(kind) => match other {
            Channel::Of(further) => table.is_same(kind, further),
            Channel::No | Channel::Void => false,
        },
    }
}

/// Whether a name in the body finds an event with the channel and the class that a parameter asks for.
fn fits_event(
    alloc: Global,
    reading: &Reading<'_>,
    all: &[Written<'_>],
    channel: Channel,
    class: Class,
    name: &Name,
) -> Result<bool, Memory>
    requires reading { IsReading reading.now }
    requires all { arguments.AreWrittenIn reading.now all.now }
    ensures { IfOk result (λ b. b ≡ arguments.fits_event (component_in reading.now) (channel_for (lists_in reading.now) channel) class name.now) }
{
    let found = reading.scopes.find(alloc, reading.body, name)?;
    let has = has_class(class, class_found(reading.scopes, all, &found));
    let sends = reading.table.channel_found(found);
    Ok(is_same_channel(reading.table, sends, channel) && has)
}

/// Whether an argument fits its parameter, where that has the channel.
pub fn fits(
    alloc: Global,
    reading: &Reading<'_>,
    all: &[Written<'_>],
    channel: Channel,
    param: &Param,
    value: &Expr,
) -> Result<bool, Memory>
    requires reading { IsReading reading.now }
    requires all { arguments.AreWrittenIn reading.now all.now }
    ensures { IfOk result (λ b. b ≡ arguments.fits (component_in reading.now) (channel_for (lists_in reading.now) channel) (param_tree param.now) (uses.bare_name (view value.now))) }
{
    match param {
        Param::Event { class, .. } => match bare_name(value) {
            Some(name) => fits_event(alloc, reading, all, channel, *class, name),
            None => Ok(false),
        },
        Param::Location { .. } => Ok(bare_name(value).is_some()),
        Param::Alg { .. } => Ok(true),
    }
}
