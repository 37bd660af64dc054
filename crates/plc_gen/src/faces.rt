//! The own variables of an event.

ghost use Rattle.std.specs.Prelude.{◌≡◌, ◌+◌, ◌++◌, [], ◌∷◌, flat_map, length, map, IfOk, OnOk, Some, None};
ghost use Rattle.cif_net.specs.View.{choice_tree, net_tree};
ghost use Rattle.plc_model.specs.Face.{declaration, literal_of};
ghost use Rattle.plc_model.specs.Names.{name_for};
ghost use Rattle.plc_model.specs.declared.letter.Letter.TheVariants as letter;
ghost use Rattle.st_ast.specs.declared.tree.StClass.TheVariants as class;
ghost use Rattle.plc_event_model.specs.Own as o;
ghost use Rattle.plc_event.specs.Writers.{Keeps};
ghost use Rattle.plc_gen.specs.Outlines.{IsOutline, NamesNew, StandOnce, declared_from, done_if, face_tree, range_if};

use crate::bare::needs_mark;
use crate::types::{add_choice_types, event_type};
use cif_base::{Items, Memory, Text, Ty};
use cif_net::{Choice, Net};
use plc_event::{Changes, NewTexts, any_tested, assigned_variables, new_type, sent_type};
use plc_model::Letter;
use plc_names::name_of;
use st_ast::{StClass, StLit, StTy, StVar};
use std::alloc::Global;

/// What decides which own variables an event has: whether it has a mark that a choice was made, and one that new values are in
/// their ranges, the variables that its choices assign, the type of what is sent, and the types of the `if`s in its expressions.
#[derive(Drop)]
pub struct Outline {
    pub has_mark: bool,
    pub tests_range: bool,
    pub vars: Items<u32>,
    pub sent: Option<Ty>,
    pub types: Items<StTy>,
}

/// The outline of the event of these choices.
pub(crate) fn outline_of(
    alloc: Global,
    net: &Net,
    choices: &[Choice],
    changes: &mut Changes,
) -> Result<Outline, Memory>
    ensures { IfOk result (λ x. IsOutline (net_tree net.now) (map choice_tree choices.now) x) }
{
    Ok(Outline {
        has_mark: needs_mark(alloc, net, choices, changes)?,
        tests_range: any_range_tested(net, choices),
        vars: assigned_variables(alloc, choices, changes)?,
        sent: event_type(net, choices),
        types: all_types(alloc, net, choices, changes)?,
    })
}

fn any_range_tested(net: &Net, choices: &[Choice]) -> bool
    ensures { result ≡ o.tests_range (net_tree net.now) (map choice_tree choices.now) }
{
    for choice in choices {
        if any_tested(net, choice.writes.as_slice()) {
            return true;
        }
    }
    false
}

fn all_types(
    alloc: Global,
    net: &Net,
    choices: &[Choice],
    changes: &mut Changes,
) -> Result<Items<StTy>, Memory>
    ensures { IfOk result
        (λ all. all ≡ flat_map (o.choice_types (net_tree net.now)) (map choice_tree choices.now)) }
{
    let mut all = Items::new(alloc);
    for choice in choices {
        add_choice_types(alloc, choice, net, changes, &mut all)?;
    }
    Ok(all)
}

fn literal(ty: StTy, first: i64) -> StLit
    ensures { result ≡ literal_of ty first }
{
    match ty {
        StTy::Bool => StLit::Bool(first != 0),
        _ => StLit::Int(first),
    }
}

/// The path, the type and the first value of a new value.
#[derive(Drop)]
pub struct NewFace {
    pub path: Text,
    pub ty: StTy,
    pub first: i64,
}

/// The new value of a variable; an integer for a variable that the net lacks.
fn new_face_of(alloc: Global, net: &Net, var: u32) -> Result<NewFace, Memory>
    ensures { IfOk result (λ x. face_tree x ≡ o.new_face (net_tree net.now) var) }
{
    let Some(found) = net.vars.get(var as usize) else {
        return Ok(NewFace {
            path: Text::from_slice(alloc, b"new")?,
            ty: StTy::Lint,
            first: 0,
        });
    };
    let mut path = Text::from_slice(alloc, b"new_")?;
    path.push_slice(found.path.as_slice())?;
    Ok(NewFace {
        path,
        ty: new_type(found.ty),
        first: found.first,
    })
}

/// The declarations of own variables, and the number of the next one.
#[derive(Drop)]
pub struct OwnVariables {
    pub variables: Items<StVar>,
    pub next: u32,
}

impl OwnVariables {
    /// Declares a variable with this name, which has the next number; `Memory` beyond 32 bits.
    fn declare(&mut self, name: Text, ty: StTy, first: i64) -> Result<(), Memory>
        ensures variables { OnOk result (self.new.variables ≡ self.old.variables
            ++ record { name = name; class = class.Plain; ty = ty; init = Some (literal_of ty first); at = None } ∷ []) }
        ensures next { OnOk result (self.new.next ≡ self.old.next + 1) }
    {
        let Some(next) = self.next.checked_add(1) else {
            return Err(Memory);
        };
        self.next = next;
        self.variables.push(StVar {
            name,
            class: StClass::Plain,
            ty,
            init: Some(literal(ty, first)),
            at: None,
        })
    }

    /// Declares a variable with this path.
    fn declare_as(&mut self, alloc: Global, path: &[u8], ty: StTy, first: i64) -> Result<(), Memory>
        ensures variables { OnOk result (self.new.variables ≡ self.old.variables
            ++ declaration letter.T class.Plain (self.old.next, record { path = path.now; ty = ty; first = first }) ∷ []) }
        ensures next { OnOk result (self.new.next ≡ self.old.next + 1) }
    {
        let name = name_of(alloc, Letter::T, self.next, path)?;
        self.declare(name, ty, first)
    }

    /// Declares the mark that a choice was made, if the event has it.
    pub(crate) fn add_done(&mut self, alloc: Global, has_mark: bool) -> Result<(), Memory>
        ensures variables { OnOk result (self.new.variables ≡ self.old.variables ++ declared_from self.old.next (done_if has_mark)) }
        ensures next { OnOk result (self.new.next ≡ self.old.next + length (done_if has_mark)) }
    {
        if has_mark {
            self.declare_as(alloc, b"done", StTy::Bool, 0)?;
        }
        Ok(())
    }

    /// Declares the mark that new values are in their ranges, if the event has it.
    pub(crate) fn add_range(&mut self, alloc: Global, tests_range: bool) -> Result<(), Memory>
        ensures variables { OnOk result (self.new.variables ≡ self.old.variables ++ declared_from self.old.next (range_if tests_range)) }
        ensures next { OnOk result (self.new.next ≡ self.old.next + length (range_if tests_range)) }
    {
        if tests_range {
            self.declare_as(alloc, b"in_range", StTy::Bool, 0)?;
        }
        Ok(())
    }

    /// Declares the new value of a variable, and keeps its name.
    fn declare_new(
        &mut self,
        alloc: Global,
        net: &Net,
        var: u32,
        new: &mut NewTexts,
    ) -> Result<(), Memory>
        ensures variables { OnOk result (self.new.variables ≡ self.old.variables
            ++ declaration letter.T class.Plain (self.old.next, o.new_face (net_tree net.now) var) ∷ []) }
        ensures next { OnOk result (self.new.next ≡ self.old.next + 1) }
        ensures kept { OnOk result (Keeps new.old new.new var (name_for letter.T self.old.next (o.new_face (net_tree net.now) var).path)) }
    {
        let NewFace { path, ty, first } = new_face_of(alloc, net, var)?;
        let name = name_of(alloc, Letter::T, self.next, path.as_slice())?;
        new.keep(var, name.copy(alloc)?)?;
        self.declare(name, ty, first)
    }

    /// Declares the new values of variables, and keeps their names.
    pub(crate) fn add_new(
        &mut self,
        alloc: Global,
        net: &Net,
        vars: &[u32],
        new: &mut NewTexts,
    ) -> Result<(), Memory>
        requires { StandOnce vars.now }
        ensures variables { OnOk result (self.new.variables ≡ self.old.variables ++ declared_from self.old.next (map (o.new_face (net_tree net.now)) vars.now)) }
        ensures next { OnOk result (self.new.next ≡ self.old.next + length vars.now) }
        ensures names { OnOk result (NamesNew (net_tree net.now) self.old.next vars.now new.new) }
        ensures in_range { OnOk result (new.new.in_range ≡ new.old.in_range) }
    {
        for var in vars {
            self.declare_new(alloc, net, *var, new)?;
        }
        Ok(())
    }

    /// Declares what is sent, if the event carries values.
    pub(crate) fn add_sent(&mut self, alloc: Global, sent: Option<Ty>) -> Result<(), Memory>
        ensures variables { OnOk result (self.new.variables ≡ self.old.variables ++ declared_from self.old.next (o.faces_sent sent)) }
        ensures next { OnOk result (self.new.next ≡ self.old.next + length (o.faces_sent sent)) }
    {
        if let Some(ty) = sent {
            self.declare_as(alloc, b"sent", sent_type(ty), 0)?;
        }
        Ok(())
    }

    /// Declares the variables of `if`s with these types.
    pub(crate) fn add_ifs(&mut self, alloc: Global, types: &[StTy]) -> Result<(), Memory>
        ensures variables { OnOk result (self.new.variables ≡ self.old.variables ++ declared_from self.old.next (map o.if_face types.now)) }
        ensures next { OnOk result (self.new.next ≡ self.old.next + length types.now) }
    {
        for ty in types {
            self.declare_as(alloc, b"if", *ty, 0)?;
        }
        Ok(())
    }
}
