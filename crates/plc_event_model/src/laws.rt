//! What is proved of the statements of choices, as laws that a proof reads off: each the contract of a function
//! without a body.

ghost use Rattle.std.specs.Prelude.{◌≡◌, ◌+◌, ◌-◌, ◌<◌, ◌≤◌, ℕ, true, List, length, Option};
ghost use Rattle.std.specs.List.{AllByRecursion, list_all};
ghost use Rattle.grammar.specs.Pieces.{Text};
ghost use Rattle.cif_base.specs.declared.types.Ty.{Ty};
ghost use Rattle.cif_net_expr.specs.Tree.{NetExpr};
ghost use Rattle.cif_net_model.specs.Net.{NetInvariant, Net};
ghost use Rattle.cif_net_model.specs.Facts.{is_net};
ghost use Rattle.cif_net_model.specs.Kinds.{Kind, fits, is_bool};
ghost use Rattle.cif_net_model.specs.Reads.{names_in, names_no_alg};
ghost use Rattle.cif_net_model.specs.Listing.{NetChoice};
ghost use Rattle.cif_net_model.specs.Meaning.{system_of_net};
ghost use Rattle.cif_net_model.specs.Table.{IsGuarded};
ghost use Rattle.st_ast.specs.Tree.{Program};
ghost use Rattle.st_ast.specs.declared.tree.StTy.TheVariants as ty;
ghost use Rattle.st_ast.specs.declared.tree.StVar.{StVar};
ghost use Rattle.plc_model.specs.Face.{IsDeclared};
ghost use Rattle.plc_model.specs.Frame.{TriesEvent, fired};
ghost use Rattle.plc_frame.specs.Faces.{face_of_net};
ghost use Rattle.plc_frame.specs.Small.{are_small};
ghost use Rattle.plc_frame.specs.Events.{choices_of, event_text, needs_mark};
ghost use Rattle.plc_expr.specs.Held.{IsThere, OwnPlaces};
ghost use Rattle.cif_net_model.specs.Safe.{Setting};
ghost use Rattle.plc_expr.specs.Sorts.{is_boolean, own_types};
ghost use Rattle.plc_expr.specs.Texts.{Naming, temps};
ghost use Rattle.plc_event_model.specs.Writes.{NewNames};
ghost use Rattle.plc_event_model.specs.Asked.{Promises};
ghost use Rattle.plc_event_model.specs.Own.{variable_name};
ghost use Rattle.plc_event_model.specs.Events.{all_written};
ghost use Rattle.plc_event_model.specs.Parts.{AreDeclared, all_temps, event_part, event_faces, event_naming, ifs_from};
ghost use Rattle.plc_event_model.specs.Ready.{AllFrom, ChoiceStands, DoneStands, IsSafeChoice};

/// The statements that are written for an event try it: of its choices, which may assign variables and send a value, the first
/// is made that makes a step, with its new values, and where there is none nothing that is seen changes. State invariants, which
/// name no algebraic variable, are asked of the new values before any is stored. What is promised of expressions, and how the own
/// variables stand, are premises.
pub fn events_are_tried()
    ensures { (n : Net) (cs : List NetChoice) (p : Program) (own : List Text) (w : Naming) (y : NewNames) (base low count k e : ℕ) (done : Text) →
        is_net n ≡ true → IsGuarded n cs → list_all (λ (i : NetInvariant). names_no_alg i.pred) n.invariants ≡ true → e < length n.events →
        IsDeclared p.vars fired ty.Bool → ((v : ℕ) → w.variable v ≡ variable_name n v) →
        ((v : Naming) (x : Setting) → v.own ≡ w.own → Promises p.vars v x base low count) →
        AllFrom n (ChoiceStands n p own w y base low count) k (choices_of cs e) →
        (needs_mark (all_written n w y k (choices_of cs e)) ≡ true → DoneStands p own w y low count done) →
        TriesEvent (face_of_net n) (system_of_net n) p (record { own = own; body = event_text done (all_written n w y k (choices_of cs e)) }) e }
{}

/// The part of an event whose choices assign variables, and may send a value that these read, tries the event, where its own
/// variables are declared one after another and the expressions of its choices are safe in each state. The state invariants name
/// no algebraic variable, and a u32 counts each enumeration. What is promised of expressions is a premise: of their own variables, of
/// their kinds, of their names, and of their texts.
pub fn event_parts_are_tried()
    ensures { (n : Net) (cs : List NetChoice) (p : Program) (base j e : ℕ) →
        is_net n ≡ true → IsGuarded n cs → list_all (λ (i : NetInvariant). names_no_alg i.pred) n.invariants ≡ true → are_small n.vars ≡ true → are_small n.inputs ≡ true → e < length n.events →
        AllByRecursion (IsSafeChoice n) (choices_of cs e) →
        IsDeclared p.vars fired ty.Bool → AreDeclared p base j (event_faces n (choices_of cs e)) →
        ((r : Option Ty) (x : NetExpr) → length (own_types n r x) ≡ temps x) →
        ((r : Option Ty) (k : Kind) (x : NetExpr) → fits n r k x ≡ true → names_no_alg x ≡ true → is_boolean n r x ≡ is_bool k) →
        ((r : Option Ty) (k : Kind) (x : NetExpr) → fits n r k x ≡ true → names_no_alg x ≡ true → AllByRecursion (IsThere n r) (names_in x)) →
        ((v : Naming) (x : Setting) → v.own ≡ (event_naming n (choices_of cs e) j).own →
        Promises p.vars v x base (ifs_from n (choices_of cs e) j) (ifs_from n (choices_of cs e) j + all_temps n (choices_of cs e))) →
        TriesEvent (face_of_net n) (system_of_net n) p (event_part n j (choices_of cs e)) e }
{}

/// What is promised of expressions holds where their own variables from a number on stand one after another, each by its number
/// behind a place.
pub fn expressions_keep_their_promises()
    ensures { (vars : List StVar) (w : Naming) (x : Setting) (base low count : ℕ) →
        low ≤ count → OwnPlaces vars w base low (count - low) → Promises vars w x base low count }
{}
