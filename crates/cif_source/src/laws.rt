//! The laws of the definitions.

ghost use Rattle.std.specs.Prelude.{◌≡◌, ◌≤◌, ◌⊎◌, length, ℕ, ℤ, List, slice_get, Some, None, false, true};
ghost use Rattle.cif_ast.specs.Tree.{Tree, node, named};
ghost use Rattle.cif_ast.specs.declared.names.Ident.{Ident};
ghost use Rattle.cif_ast.specs.declared.names.Name.{Name};
ghost use Rattle.cif_system.specs.Words.{Member};
ghost use Rattle.cif_system.specs.System.{EndsInside, State};
ghost use Rattle.cif_source.specs.Source.{Source, SourceBody, ParamTree, alg_param, InstanceTree, TypeTree};
ghost use Rattle.cif_system.specs.Words.{Before};
ghost use Rattle.cif_source.specs.Components.{Component, whole, copy, parameter, stands_in};
ghost use Rattle.cif_source.specs.Lookup.{ScopeEntry, found, reached, by_argument, denotes, given, stands_for_argument, thing};
ghost use Rattle.cif_source.specs.Objects.{automata, components_of, most_objects};
ghost use Rattle.cif_source.specs.Value.{value_by};
ghost use Rattle.cif_source.specs.Step.{has_targets, system_of};
ghost use Rattle.std.specs.List.{list_all};

/// Each component but the specification stands after the one in which it stands.
pub fn components_stand_after_their_givers()
    ensures { (t : Source) (d : Component) → Member d (components_of t) → (d ≡ whole t)
        ⊎ ((p : Component) × (stands_in d ≡ Some p) × Before p d (components_of t)) }
{}

/// Where each target of an edge is a location of its automaton, edges end in places of their automata, so that a step leads
/// from a state to a state.
pub fn edges_end_inside()
    ensures { (t : Source) → list_all has_targets (automata t) ≡ true → EndsInside (system_of t) }
{}

/// What a name reaches from a listed component lies in a listed component, where the list is no longer than the limit.
pub fn names_stay_listed()
    ensures { (t : Source) → length (components_of t) ≤ most_objects → (c : Component) →
        Member c (components_of t) → (nm : Name) (x : ScopeEntry) → found c nm ≡ reached x →
        Member x.0 (components_of t) }
{}

/// A name denotes what it finds, where that is no parameter of an instance.
pub fn name_denotes_what_is_found()
    ensures { (c : Component) (nm : Name) (x : ScopeEntry) → found c nm ≡ reached x →
        stands_for_argument x ≡ false → denotes c nm ≡ Some (thing x.0 x.1) }
{}

/// A name that finds a parameter of an instance denotes what the argument does, read where the instance stands.
pub fn parameter_denotes_its_argument()
    ensures { (c : Component) (nm : Name) (k : ℕ) (p : ParamTree) (o g : Component) (n : Ident)
        (ps : List ParamTree) (b : SourceBody) (i : InstanceTree) →
        found c nm ≡ reached (copy o n ps b g i, parameter k p) →
        denotes c nm ≡ by_argument None (λ e. Some (given g e)) (denotes g) p (slice_get i.args k) }
{}

/// The value of a parameter is that of its argument in the component that gave it.
pub fn parameter_has_its_argument()
    ensures { (s : State) (r : ℤ) (defined : Component → Tree → ℤ) (c : Component) (nm : Name)
        (at k : ℕ) (o g : Component) (n : Ident) (ps : List ParamTree) (b : SourceBody)
        (i : InstanceTree) (ty : TypeTree) (m : Ident) (e : Tree) →
        found c nm ≡ reached (copy o n ps b g i, parameter k (alg_param ty m)) →
        slice_get i.args k ≡ Some e →
        value_by s r defined c (node (named nm) at) ≡ value_by s r defined g e }
{}
