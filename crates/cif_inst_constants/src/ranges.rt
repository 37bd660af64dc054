//! The ranges of types.

ghost use Rattle.std.specs.Prelude.{◌≡◌, map, IfOk};
ghost use Rattle.cif_ast.specs.View.{view};
ghost use Rattle.cif_source.specs.Source.{Source, type_tree};
ghost use Rattle.cif_inst_constants.specs.Slots.{row_of, slot_of, decl_at};
ghost use Rattle.cif_system.specs.Words.{Member};
ghost use Rattle.cif_source.specs.Components.{Component, as_written};
ghost use Rattle.cif_source.specs.Objects.{components_of};
ghost use Rattle.cif_source.specs.Types.{from_to as from_to_of, range_of, nearest_zero};
ghost use Rattle.cif_source.specs.Constants.{types_of};
ghost use Rattle.cif_scope.specs.Tables.{IsBody};
ghost use Rattle.cif_inst_constants.specs.Typed.{IsTyped};
ghost use Rattle.cif_inst_constants.specs.Walked as walked;

use crate::values::Constants;
use cif_ast::{Decl, Expr, TypeUse};
use cif_base::{Items, Memory};
use cif_scope::{Looked, Scopes, number};

/// The whole numbers from `lo` to `hi`.
#[derive(Clone, Copy, Debug, PartialEq, Eq)]
pub struct ValueRange {
    pub lo: i64,
    pub hi: i64,
}

/// The range of a type, or the type in a body that it stands for.
#[derive(Clone, Copy, Drop)]
pub enum Step<'a> {
    Known(ValueRange),
    Further(u32, &'a TypeUse),
}

/// What ranges are found in: the scopes of a source, the values of its constants, and the declarations at its names.
#[derive(Clone, Copy)]
pub struct Types<'a> {
    pub scopes: &'a Scopes,
    pub constants: &'a Constants,
    pub rows: &'a [Items<Option<&'a Decl>>],
}

const LEAST_INT: i64 = -2_147_483_648;

const GREATEST_INT: i64 = 2_147_483_647;

fn from_to(lo: i64, hi: i64) -> ValueRange
    ensures { walked.range_view result ≡ from_to_of lo hi }
{
    ValueRange { lo, hi }
}

/// The declaration in a slot of a body.
#[tactic(auto, using(crate::proofs::RowLaws::get_row))]
fn decl_at<'a>(rows: &[Items<Option<&'a Decl>>], body: u32, slot: u32) -> Option<&'a Decl>
    ensures { slot_of result ≡ decl_at (map row_of rows.now) body slot }
{
    match rows.get(body as usize) {
        Some(row) => match row.get(slot as usize) {
            Some(found) => *found,
            None => None,
        },
        None => None,
    }
}

fn decl_step<'a>(body: u32, decl: Option<&'a Decl>) -> Result<Step<'a>, Memory>
    ensures { IfOk result (λ step. walked.step_view step ≡ walked.decl_step body (slot_of decl.entry)) }
{
    match decl {
        Some(Decl::TypeName { name: _, ty }) => Ok(Step::Further(body, ty)),
        Some(Decl::Enum { name: _, literals }) => {
            let count = number(literals.len())?;
            Ok(Step::Known(from_to(0, i64::from(count) - 1)))
        }
        Some(
            Decl::Event { .. }
            | Decl::Const { .. }
            | Decl::Alg { .. }
            | Decl::Input { .. }
            | Decl::Disc { .. }
            | Decl::Equation { .. }
            | Decl::Inv(_)
            | Decl::Marked(_),
        )
        | None => Ok(Step::Known(from_to(0, 0))),
    }
}

impl<'a> Types<'a> {
    /// The value of a bound in a body, and 0 where it has none.
    fn bound(&self, body: u32, expr: &Expr) -> i64
        ensures { result ≡ walked.bound self.now.scopes.now self.now.constants.now.numbers self.now.constants.now.values body
            (view expr.now) }
    {
        match self.constants.value(self.scopes, body, expr) {
            Some(value) => value,
            None => 0,
        }
    }

    fn found(&self, found: Looked) -> Result<Step<'a>, Memory>
        ensures { IfOk result (λ step. walked.step_view step ≡ walked.found_step (map row_of self.now.rows.now) found) }
    {
        match found {
            Looked::At(body, slot) => decl_step(body, decl_at(self.rows, body, slot)),
            Looked::Missing | Looked::Blocked => Ok(Step::Known(from_to(0, 0))),
        }
    }

    fn step(&self, body: u32, ty: &'a TypeUse) -> Result<Step<'a>, Memory>
        ensures { IfOk result (λ step. walked.step_view step ≡ walked.type_step self.now.scopes.now self.now.constants.now.numbers
            self.now.constants.now.values (map row_of self.now.rows.now) body (type_tree ty.now)) }
    {
        match ty {
            TypeUse::Bool => Ok(Step::Known(from_to(0, 1))),
            TypeUse::Int => Ok(Step::Known(from_to(LEAST_INT, GREATEST_INT))),
            TypeUse::Range(lower, upper) => {
                let lo = self.bound(body, lower);
                Ok(Step::Known(from_to(lo, self.bound(body, upper))))
            }
            TypeUse::Named(name) => self.found(self.scopes.look(true, body, name)),
        }
    }

    /// The range of a type in a body, through fewer names of types than `turns`.
    pub(crate) fn walk(
        &self,
        body: u32,
        ty: &'a TypeUse,
        turns: usize,
    ) -> Result<ValueRange, Memory>
        ensures { IfOk result (λ r. walked.range_view r ≡ walked.walked self.now.scopes.now self.now.constants.now.numbers
            self.now.constants.now.values (map row_of self.now.rows.now) turns body (type_tree ty.now)) }
    {
        let mut at = body;
        let mut next = ty;
        for _turn in 0..turns {
            match self.step(at, next)? {
                Step::Known(range) => return Ok(range),
                Step::Further(further, named) => {
                    at = further;
                    next = named;
                }
            }
        }
        Ok(from_to(0, 0))
    }

    /// The range of a type that a body of a component writes. `turns` is one more than the components have declarations.
    pub fn range(&self, body: u32, ty: &'a TypeUse, turns: usize) -> Result<ValueRange, Memory>
        ensures { (t : Source) (c : Component) → IsTyped t self.now turns → Member c (components_of t) → IsBody t body (as_written c)
            → Member (type_tree ty.now) (types_of c) → IfOk result (λ r. walked.range_view r ≡ range_of c (type_tree ty.now)) }
    {
        self.walk(body, ty, turns)
    }
}

impl ValueRange {
    /// The value that is nearest to 0, which a variable without a first value has at first.
    pub fn nearest_zero(self) -> i64
        ensures { result ≡ nearest_zero (walked.range_view self) }
    {
        if 0 < self.lo {
            self.lo
        } else if self.hi < 0 {
            self.hi
        } else {
            0
        }
    }
}
