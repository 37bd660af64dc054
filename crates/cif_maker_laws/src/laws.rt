//! The laws, each the contract of a function without a body.

ghost use Rattle.std.specs.Prelude.{◌≡◌, ℕ, ◌≤◌, ◌<◌, ◌^◌, true, List, []};
ghost use Rattle.cif_lex.specs.Tokens.{Tokens};
ghost use Rattle.cif_parse.specs.Grammar.{Reads};
ghost use Rattle.cif_source.specs.BodyRules.{MismatchDue, NotConstantDue, InitialsDue, NotOwnDue, AssignedTwiceDue, EquationsDue};
ghost use Rattle.cif_source.specs.InstanceRules.{AlphabetLacksDue, RoleMixedDue, TooManyObjectsDue, ConstantRangeDue};
ghost use Rattle.cif_source.specs.Scoping.{UnknownDue, DuplicateDue, WrongKindDue, DefinitionCycleDue};
ghost use Rattle.cif_source.specs.Source.{source_of};
ghost use Rattle.cif_inst_model.specs.NetRules.{AlgCycleDue, ZeroDivisorDue, TooWideDue, InvariantReadsInputDue, InvariantFalseDue, TooLargeDue, TooManyChoicesDue, UnclassedDue};
ghost use Rattle.cif_inst_model.specs.WellFormed.{IsInProfile};
ghost use Rattle.cif_maker.specs.MadeText.{made_text};
ghost use Rattle.cif_maker_laws.specs.MadeSpec.{made_spec};
ghost use Rattle.cif_maker_laws.specs.MadeTree.{made_source};
ghost use Rattle.cif_maker_laws.specs.Written.{Written, AreWritten, text_of, tokens_of, are_apart};

/// Pieces of which no two neighbours run together are cut from their text as they are written, so its tokens are theirs.
pub fn written_pieces_are_tokens()
    ensures { (ws : List Written) → AreWritten ws → are_apart ws [] ≡ true → Tokens (text_of ws) (tokens_of 0 ws) }
{}

/// The text of a made source reads as its tree, for each seed and size.
pub fn made_sources_read()
    ensures { (seed size : ℕ) → Reads (made_text seed size) (made_spec seed size) }
{}

/// The tree of a made source stands for the made source.
pub fn made_trees_are_sources()
    ensures { (seed size : ℕ) → source_of (made_spec seed size) ≡ made_source seed size }
{}

/// Rules that a made source keeps: each name is declared, in each scope once, and what is declared is of the sort that the name's
/// position asks for; no definition, type or constant reaches itself; each expression has the kind that its position asks for, and
/// each use of an event fits what is sent along it; bounds and first values are constant, and in their ranges; each automaton has
/// one initial location, the events of its edges in its alphabet, and one role for each; an edge assigns variables of its own
/// automaton, each once; no algebraic variable lacks a definition or has several; the objects are at most 100,000.
/// Of its net: no algebraic variable depends on itself, no divisor may be 0, each interval is in 64 bits, no state invariant reads
/// an input or is false at first, and the forms of all choices are at most 1,000,000, nested at most 100 deep. The choices are at
/// most 16,384, and each event has a class.
pub fn made_sources_keep_rules()
    ensures unknown { (seed size at : ℕ) → size < 10 ^ 64 → UnknownDue (made_source seed size) at → ⊥ }
    ensures duplicate { (seed size at first : ℕ) → size < 10 ^ 64 → DuplicateDue (made_source seed size) at first → ⊥ }
    ensures wrong_kind { (seed size at : ℕ) → size < 10 ^ 64 → WrongKindDue (made_source seed size) at → ⊥ }
    ensures definition_cycle { (seed size at : ℕ) → DefinitionCycleDue (made_source seed size) at → ⊥ }
    ensures mismatch { (seed size at : ℕ) → size < 10 ^ 64 → MismatchDue (made_source seed size) at → ⊥ }
    ensures not_constant { (seed size at : ℕ) → NotConstantDue (made_source seed size) at → ⊥ }
    ensures initials { (seed size at count : ℕ) → InitialsDue (made_source seed size) at count → ⊥ }
    ensures not_own { (seed size at : ℕ) → NotOwnDue (made_source seed size) at → ⊥ }
    ensures assigned_twice { (seed size at : ℕ) → AssignedTwiceDue (made_source seed size) at → ⊥ }
    ensures alphabet_lacks { (seed size at : ℕ) → AlphabetLacksDue (made_source seed size) at → ⊥ }
    ensures role_mixed { (seed size at : ℕ) → RoleMixedDue (made_source seed size) at → ⊥ }
    ensures equations { (seed size at count : ℕ) → EquationsDue (made_source seed size) at count → ⊥ }
    ensures too_many_objects { (seed size count : ℕ) → size < 10 ^ 4 → TooManyObjectsDue (made_source seed size) count → ⊥ }
    ensures constant_range { (seed size at : ℕ) → ConstantRangeDue (made_source seed size) at → ⊥ }
    ensures alg_cycle { (seed size alg : ℕ) → AlgCycleDue (made_source seed size) alg → ⊥ }
    ensures zero_divisor { (seed size at : ℕ) → size < 10 ^ 64 → ZeroDivisorDue (made_source seed size) at → ⊥ }
    ensures too_wide { (seed size at : ℕ) → size < 10 ^ 64 → TooWideDue (made_source seed size) at → ⊥ }
    ensures invariant_reads_input { (seed size at : ℕ) → InvariantReadsInputDue (made_source seed size) at → ⊥ }
    ensures invariant_false { (seed size at : ℕ) → InvariantFalseDue (made_source seed size) at → ⊥ }
    ensures too_large { (seed size nodes depth : ℕ) → size < 10 ^ 4 → TooLargeDue (made_source seed size) nodes depth → ⊥ }
    ensures too_many_choices { (seed size count : ℕ) → size ≤ 2 ^ 13 → TooManyChoicesDue (made_source seed size) count → ⊥ }
    ensures unclassed { (seed size event : ℕ) → UnclassedDue (made_source seed size) event → ⊥ }
{}

/// A made source of a size up to 8,192 breaks no rule, and each of its events has a class.
pub fn made_sources_are_in_profile()
    ensures { (seed size : ℕ) → size ≤ 2 ^ 13 → IsInProfile (made_source seed size) }
{}
