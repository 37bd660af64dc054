//! The laws, each the contract of a function without a body.

ghost use Rattle.std.specs.Prelude.{◌≡◌, ℕ, true, List, Option, Some, None};
ghost use Rattle.cif_base.specs.declared.types.Ty.{Ty};
ghost use Rattle.cif_ast.specs.Tree.{Tree};
ghost use Rattle.cif_ast.specs.Throughout.{HoldsInTree};
ghost use Rattle.cif_ast.specs.SmallNumbers.{small_parts};
ghost use Rattle.cif_system.specs.Words.{Member};
ghost use Rattle.cif_net_model.specs.Kinds as net;
ghost use Rattle.cif_net_model.specs.Kinds.{fits, fits_type, has_type};
ghost use Rattle.cif_source.specs.Source.{Source};
ghost use Rattle.cif_source.specs.Components.{Component};
ghost use Rattle.cif_source.specs.Objects.{components_of};
ghost use Rattle.cif_source.specs.Kinds.{Kind, bool_kind};
ghost use Rattle.cif_source.specs.Demands.{asked_for, demanded};
ghost use Rattle.cif_inst_model.specs.Flat.{net_of_source};
ghost use Rattle.cif_inst_model.specs.Small.{HasSmallParts};
ghost use Rattle.cif_inst_model.specs.Translation.{conjunction, net_of, net_list, net_guard};
ghost use Rattle.cif_inst_model.specs.WellFormed.{KeepsBefore, algebraic};
ghost use Rattle.cif_inst_laws.specs.Forms.{HasSmallArguments};
ghost use Rattle.cif_inst_laws.specs.Kinds.{AreMet, IsCarried, IsReceived, net_kind};

/// Where a source keeps its rules and has small parts and arguments, an expression of one of its components that has the kind it
/// is asked for, as have its operands, and in which no number exceeds 2147483647, has that kind in the net, parameters followed
/// to their arguments.
pub fn expressions_keep_their_kinds()
    ensures { (t : Source) (c : Component) (k : Kind) (e : Tree) → KeepsBefore t algebraic → HasSmallParts t →
        HasSmallArguments t → Member c (components_of t) → AreMet c (asked_for c k e) → HoldsInTree small_parts e →
        fits (net_of_source t) None (net_kind k) (net_of c e) ≡ true }
{}

/// So have several conditions as one.
pub fn conditions_keep_their_kind()
    ensures { (t : Source) (c : Component) (all : List Tree) → KeepsBefore t algebraic → HasSmallParts t →
        HasSmallArguments t → Member c (components_of t) →
        ((e : Tree) → Member e all → AreMet c (asked_for c bool_kind e)) →
        ((e : Tree) → Member e all → HoldsInTree small_parts e) →
        fits (net_of_source t) None net.bool_kind (conjunction (net_list c all)) ≡ true }
{}

/// So have the guards of an edge.
pub fn guards_keep_their_kind()
    ensures { (t : Source) (c : Component) (at : ℕ) (all : List Tree) → KeepsBefore t algebraic → HasSmallParts t →
        HasSmallArguments t → Member c (components_of t) →
        ((e : Tree) → Member e all → AreMet c (asked_for c bool_kind e)) →
        ((e : Tree) → Member e all → HoldsInTree small_parts e) →
        fits (net_of_source t) None net.bool_kind (net_guard c at all) ≡ true }
{}

/// So has a value of an update in which `?` has the kind r, where what is received has the type o.
pub fn values_of_updates_keep_their_kinds()
    ensures { (t : Source) (c : Component) (r : Kind) (o : Option Ty) (k : Kind) (e : Tree) → KeepsBefore t algebraic →
        HasSmallParts t → HasSmallArguments t → Member c (components_of t) → IsReceived (net_of_source t) r o →
        AreMet c (demanded c r k e) → HoldsInTree small_parts e →
        fits (net_of_source t) o (net_kind k) (net_of c e) ≡ true }
{}

/// And so have several conditions of an update as one.
pub fn conditions_of_updates_keep_their_kind()
    ensures { (t : Source) (c : Component) (r : Kind) (o : Option Ty) (all : List Tree) → KeepsBefore t algebraic →
        HasSmallParts t → HasSmallArguments t → Member c (components_of t) → IsReceived (net_of_source t) r o →
        ((e : Tree) → Member e all → AreMet c (demanded c r bool_kind e)) →
        ((e : Tree) → Member e all → HoldsInTree small_parts e) →
        fits (net_of_source t) o net.bool_kind (conjunction (net_list c all)) ≡ true }
{}

/// An expression of a kind that a channel takes is in the net one that the type of the channel takes.
pub fn sent_values_keep_their_kinds()
    ensures { (t : Source) (c : Component) (ty : Ty) (k : Kind) (e : Tree) → KeepsBefore t algebraic →
        HasSmallParts t → HasSmallArguments t → Member c (components_of t) → IsCarried (net_of_source t) (Some ty) →
        has_type ty (net_kind k) ≡ true → AreMet c (asked_for c k e) → HoldsInTree small_parts e →
        fits_type (net_of_source t) ty (net_of c e) ≡ true }
{}
