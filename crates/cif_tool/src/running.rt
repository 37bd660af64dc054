//! The top call: from the words of a command line to a status, through files and sinks.

ghost use Rattle.std.specs.Prelude.{◌≡◌, ◌<◌, ◌≤◌, ◌⊎◌, ℕ, ℤ, List, [], Some, map, string_bytes, length};
ghost use Rattle.cif_system.specs.Step.{Step};
ghost use Rattle.cif_system.specs.System.{State, initial};
ghost use Rattle.cif_system.specs.Words.{Member};
ghost use Rattle.cif_io.specs.Faults.{Rose};
ghost use Rattle.cif_io.specs.Written.{grown};
ghost use Rattle.st_ast.specs.ReadsAs.{ReadsAsProgram};
ghost use Rattle.st_ast.specs.Scan.{start_memory};
ghost use Rattle.st_ast.specs.Tree.{Program};
ghost use Rattle.st_ast.specs.Exec.{OutOfTurns};
ghost use Rattle.st_scan.specs.Endings.{stopped};
ghost use Rattle.st_scan.specs.declared.error.ScanErr.{ScanErr};
ghost use Rattle.plc_rows.specs.Rows.{CasesOf, RowsOf};
ghost use Rattle.plc_rows.specs.declared.error.RowErr.{RowErr};
ghost use Rattle.cif_sim_model.specs.Simulation.{Runs, StopsAt as StopsIn, first_text, script_moments, script_text};
ghost use Rattle.cif_sim_model.specs.Steps.{IsRun, RunsFirst};
ghost use Rattle.cif_why_model.specs.Reasons.{Holds as IsReason, Reason, reasons_of};
ghost use Rattle.cif_sim_names.specs.Sources.{names_of, told_of};
ghost use Rattle.plc_model.specs.Face.{HasInterface};
ghost use Rattle.plc_model.specs.Scans.{NeverFaults, RunsFirstSteps, ScansLegally, ScansExactly, ShowsOutputs, StaysTyped};
ghost use Rattle.plc_back.specs.Texts.{IsLayoutOf, TheProgram};
ghost use Rattle.cif_run.specs.declared.status.ProfileWhy.{ProfileWhy};
ghost use Rattle.cif_refusal.specs.declared.refusal.Refusal.{Refusal};
ghost use Rattle.cif_run.specs.declared.status.StRefusal.{StRefusal};
ghost use Rattle.cif_run.specs.declared.status.StopWhy.{StopWhy};
ghost use Rattle.cif_run.specs.Groups.{IsUnlessMemory};
ghost use Rattle.cif_run.specs.Works.{Comes, Output, Overlong, Unread, reading, writing};
ghost use Rattle.cif_run.specs.Tells.{Told};
ghost use Rattle.cif_source.specs.Source.{Source};
ghost use Rattle.cif_source.specs.Step.{system_of};
ghost use Rattle.cif_front.specs.Loads.{ReadsAsSource};
ghost use Rattle.cif_accept.specs.Accepts.{OfSource, SourceHasTooMany, SourceIs, SourceRefused, source_limit};
ghost use Rattle.cif_inst_model.specs.NetRules.{UnclassedDue};
ghost use Rattle.cif_check.specs.Words.{Check, IsCheck};
ghost use Rattle.cif_check.specs.Checks.{accepted};
ghost use Rattle.cif_generate.specs.Meaning.{AreClassed, StartsInitial, meant_by, shown_of};
ghost use Rattle.cif_generate.specs.Words.{Generate, IsGenerate};
ghost use Rattle.cif_replay.specs.Words.{Replay, IsReplay};
ghost use Rattle.cif_replay.specs.Replaying.{AllEnd, ComesTo, IsRowRefused, IsStRefused, IsTableFor, Reads, status_of_scan};
ghost use Rattle.cif_replay.specs.Replays.{OfBoth, OfFirst, rows_limit, st_limit};
ghost use Rattle.cif_batch.specs.CaseTexts.{AllCasesEnd, Case, FirstStopped, row_of_file};
ghost use Rattle.cif_batch_command.specs.Words.{Batch, IsBatch};
ghost use Rattle.cif_batch_command.specs.Batching.{AreTablesFor, IsCasesRefused};
ghost use Rattle.cif_batch_command.specs.Batches.{AsksProgram, files_of};
ghost use Rattle.cif_simulate.specs.Words.{Simulate, by_first, by_script, IsSimulate};
ghost use Rattle.cif_simulate.specs.Scripts.{OfScript, cause, script_limit};
ghost use Rattle.cif_simulate.specs.Simulates.{IsPartOfRun};
ghost use Rattle.cif_why_command.specs.Words.{Why, IsWhy};
ghost use Rattle.cif_why_command.specs.Explains.{LacksEvent, event_of, explained};
ghost use Rattle.cif_tool.specs.Asks.{Asked, AsksNoScript, AsksScript, AsksSource, AsksUnknown, Generated, IsAsked, NamesBoth, NamesCases, NamesProgram, NamesScript, NamesSecond, NamesSource, NoCommand, Quiet, RowsAreRefused, ScanStopsAt, tool_work};

use cif_batch::Gate;
use cif_batch_command::batch;
use cif_check::check;
use cif_generate::generate;
use cif_io::{Files, Sink};
use cif_replay::replay;
use cif_run::{Ended, Status, report};
use cif_simulate::simulate;
use cif_why_command::why;
use std::alloc::Global;
use std::thread::Threads;

/// Runs the command that the words ask for, up to what is told on the standard error.
fn run_words<R: Threads + Sync, F: Files, O: Sink, G: Gate + Sync>(
    rt: &R,
    alloc: Global,
    words: &[String],
    files: &mut F,
    out: &mut O,
    gate: &G,
) -> Ended
    ensures came { Comes (tool_work (map string_bytes words.now) (F.content files.old))
        (reading (F.content files.old) (F.faults files.old) (F.faults files.new) (F.most files.new))
        (writing (O.written out.old) (O.written out.new) (O.faults out.old) (O.faults out.new)) result }
    ensures nothing_read { result.status ≡ Status.Usage → files.new ≡ files.old }
    ensures kept { (n : List ℕ) → F.content files.new n ≡ F.content files.old n }
    ensures faults_stay_or_rise { (n : List ℕ) → F.faults files.old n ≤ F.faults files.new n }
    ensures most_stays_or_rises { (n : List ℕ) → F.most files.old n ≤ F.most files.new n }
    ensures out_faults_stay_or_rise { O.faults out.old ≤ O.faults out.new }
{
    if let Some(asked) = cif_check::read_words(words) {
        return check(alloc, &asked, files, out);
    }
    if let Some(asked) = cif_generate::read_words(words) {
        return generate(alloc, &asked, files, out);
    }
    if let Some(asked) = cif_replay::read_words(words) {
        return replay(alloc, &asked, files, out);
    }
    if let Some(asked) = cif_batch_command::read_words(words) {
        return batch(rt, alloc, &asked, files, out, gate);
    }
    if let Some(asked) = cif_simulate::read_words(words) {
        return simulate(alloc, &asked, files, out);
    }
    if let Some(asked) = cif_why_command::read_words(words) {
        return why(alloc, &asked, files, out);
    }
    Ended::plain(alloc, Status::Usage)
}

/// Runs the command of the words after the program's name: `check FILE`, `generate FILE [--unc N] [--con N]`, where N is 1 to 10,000
/// and 100 where the option is left out, `replay ST ROWS`, `batch ST CASES`, `simulate FILE SCRIPT`, `simulate FILE --first N`, where N
/// is 0 to 1,000,000, or `why FILE SCRIPT EVENT`. Nothing goes to `out` before the whole text is built, but for `simulate`: it writes each
/// line of its run before the next step. `batch` alone starts threads; the work of each of its cases enters the gate as it begins, with the
/// number of the case, counted from 1.
pub fn tool<R: Threads + Sync, F: Files, O: Sink, E: Sink, G: Gate + Sync>(
    rt: &R,
    alloc: Global,
    words: &[String],
    files: &mut F,
    out: &mut O,
    err: &mut E,
    gate: &G,
) -> Status
    // After Done of `generate`: what was written is a program of the source, and every list of its scans is one of the
    // source's scans.
    ensures program { Generated result (map string_bytes words.now) (F.content files.old)
        (O.written out.old) (O.written out.new)
        (λ g t text. TheProgram text (HasInterface (shown_of t))) }
    ensures starts_initial { Generated result (map string_bytes words.now) (F.content files.old)
        (O.written out.old) (O.written out.new)
        (λ g t text. TheProgram text (StartsInitial (shown_of t) (meant_by t))) }
    ensures runs_first_steps { Generated result (map string_bytes words.now) (F.content files.old)
        (O.written out.old) (O.written out.new)
        (λ g t text. TheProgram text (RunsFirstSteps (shown_of t) (meant_by t))) }
    ensures never_faults { Generated result (map string_bytes words.now) (F.content files.old)
        (O.written out.old) (O.written out.new)
        (λ g t text. TheProgram text (NeverFaults (meant_by t))) }
    ensures scans_legally { Generated result (map string_bytes words.now) (F.content files.old)
        (O.written out.old) (O.written out.new)
        (λ g t text. TheProgram text (ScansLegally g.unc g.con (shown_of t) (meant_by t))) }
    ensures scans_exactly { Generated result (map string_bytes words.now) (F.content files.old)
        (O.written out.old) (O.written out.new)
        (λ g t text. TheProgram text (ScansExactly g.unc g.con (shown_of t) (meant_by t))) }
    ensures shows_outputs { Generated result (map string_bytes words.now) (F.content files.old)
        (O.written out.old) (O.written out.new)
        (λ g t text. TheProgram text (ShowsOutputs (shown_of t) (meant_by t))) }
    ensures stays_typed { Generated result (map string_bytes words.now) (F.content files.old)
        (O.written out.old) (O.written out.new)
        (λ g t text. TheProgram text (StaysTyped (meant_by t))) }
    ensures laid_out { Generated result (map string_bytes words.now) (F.content files.old)
        (O.written out.old) (O.written out.new)
        (λ g t text. TheProgram text (IsLayoutOf text)) }

    // The words.
    ensures usage { result ≡ Status.Usage → (a : Asked) → IsAsked (map string_bytes words.now) a → ⊥ }
    ensures no_command_is_usage { NoCommand (map string_bytes words.now) → IsUnlessMemory result Status.Usage }
    ensures usage_reads_nothing { result ≡ Status.Usage → files.new ≡ files.old }

    // The files and the output: what files hold stays, and no count falls.
    ensures files_kept { (n : List ℕ) → F.content files.new n ≡ F.content files.old n }
    ensures file_faults_stay_or_rise { (n : List ℕ) → F.faults files.old n ≤ F.faults files.new n }
    ensures most_stays_or_rises { (n : List ℕ) → F.most files.old n ≤ F.most files.new n }
    ensures out_faults_stay_or_rise { O.faults out.old ≤ O.faults out.new }
    ensures err_faults_stay_or_rise { E.faults err.old ≤ E.faults err.new }
    ensures read_fault { (k : ℕ) → result ≡ Status.ReadFault k →
        Unread (tool_work (map string_bytes words.now) (F.content files.old))
        (reading (F.content files.old) (F.faults files.old) (F.faults files.new) (F.most files.new)) k }
    ensures write_fault { result ≡ Status.WriteFault → Rose (O.faults out.old) (O.faults out.new) }
    ensures too_big { (k : ℕ) → result ≡ Status.TooBig k →
        Overlong (tool_work (map string_bytes words.now) (F.content files.old))
        (reading (F.content files.old) (F.faults files.old) (F.faults files.new) (F.most files.new)) k }
    ensures longer_is_too_big { (file bytes : List ℕ) →
        NamesSource (map string_bytes words.now) (F.content files.old) file bytes →
        (Rose (F.faults files.old file) (F.faults files.new file) → ⊥) →
        source_limit < length bytes → IsUnlessMemory result (Status.TooBig 1) }
    ensures longer_program_is_too_big { (r : Replay) (st : List ℕ) →
        NamesProgram (map string_bytes words.now) (F.content files.old) r st →
        (Rose (F.faults files.old r.st) (F.faults files.new r.st) → ⊥) →
        st_limit < length st → IsUnlessMemory result (Status.TooBig 1) }
    ensures longer_rows_are_too_big { (r : Replay) (st rows : List ℕ) →
        NamesSecond (map string_bytes words.now) (F.content files.old) r st rows →
        Quiet r.st r.rows (F.faults files.old) (F.faults files.new) → length st ≤ st_limit → Reads st →
        rows_limit < length rows → IsUnlessMemory result (Status.TooBig 2) }

    // Each event of a source whose program was written has a class.
    ensures classed { Generated result (map string_bytes words.now) (F.content files.old)
        (O.written out.old) (O.written out.new)
        (λ g t text. AreClassed t) }

    // The source of a command: it is refused, or has too many choices, exactly where it reads as no source that breaks no rule;
    // `generate` refuses one with an event without a class; and else a command without a script is done.
    ensures refused { (why : Refusal) → result ≡ Status.Refused why → (file : List ℕ)
        × AsksSource (map string_bytes words.now) file × SourceRefused (F.content files.old) file why }
    ensures too_many_choices { (count : ℕ) → result ≡ Status.OutsideProfile (ProfileWhy.TooManyChoices count) → (file : List ℕ)
        × AsksSource (map string_bytes words.now) file × SourceHasTooMany (F.content files.old) file count }
    ensures unclassed { (event : ℕ) → result ≡ Status.OutsideProfile (ProfileWhy.Unclassed event) → (g : Generate)
        × IsGenerate (map string_bytes words.now) g
        × ((t : Source) × SourceIs (F.content files.old) g.file t × UnclassedDue t event) }
    ensures other_text_is_refused { (file bytes : List ℕ) →
        NamesSource (map string_bytes words.now) (F.content files.old) file bytes →
        (Rose (F.faults files.old file) (F.faults files.new file) → ⊥) → length bytes ≤ source_limit →
        ((t : Source) → ReadsAsSource bytes t → ⊥) →
        ((why : Refusal) × (result ≡ Status.Refused why))
        ⊎ ((count : ℕ) × (result ≡ Status.OutsideProfile (ProfileWhy.TooManyChoices count))) ⊎ (result ≡ Status.Memory) }
    ensures unclassed_is_told { (g : Generate) (bytes : List ℕ) →
        IsGenerate (map string_bytes words.now) g → F.content files.old g.file ≡ Some bytes →
        (Rose (F.faults files.old g.file) (F.faults files.new g.file) → ⊥) → length bytes ≤ source_limit →
        (t : Source) → ReadsAsSource bytes t → (event : ℕ) → UnclassedDue t event →
        IsUnlessMemory result (Status.OutsideProfile (ProfileWhy.Unclassed event)) }
    ensures source_is_done { (file bytes : List ℕ) →
        NamesSource (map string_bytes words.now) (F.content files.old) file bytes →
        (Rose (F.faults files.old file) (F.faults files.new file) → ⊥) → length bytes ≤ source_limit →
        AsksNoScript (map string_bytes words.now) → (Rose (O.faults out.old) (O.faults out.new) → ⊥) →
        (t : Source) → ReadsAsSource bytes t → ((g : Generate) → IsGenerate (map string_bytes words.now) g → AreClassed t) →
        IsUnlessMemory result Status.Done }
    // `check` writes `ok`, whatever is told, and only over a source.
    ensures checked { result ≡ Status.Done → (k : Check) → IsCheck (map string_bytes words.now) k →
        ((t : Source) × SourceIs (F.content files.old) k.file t)
        × (O.written out.new ≡ grown (O.written out.old) accepted) }

    // The script of `simulate` and `why`: the command stops exactly at the first line that can't be followed, and tells why.
    ensures stopped { (k : ℕ) (why : StopWhy) → result ≡ Status.Stopped k why → (file : List ℕ) × (script : List ℕ)
        × AsksScript (map string_bytes words.now) file script
        × OfScript (F.content files.old) file script (λ t us. StopsIn (names_of t) (system_of t) us k (cause why)) }
    ensures stopped_script_is_told { (file script bytes us : List ℕ) →
        NamesScript (map string_bytes words.now) (F.content files.old) file script bytes us →
        Quiet file script (F.faults files.old) (F.faults files.new) → length bytes ≤ source_limit →
        (t : Source) → ReadsAsSource bytes t → (AsksUnknown (map string_bytes words.now) t → ⊥) → length us ≤ script_limit →
        (Rose (O.faults out.old) (O.faults out.new) → ⊥) →
        (k : ℕ) (why : StopWhy) → StopsIn (names_of t) (system_of t) us k (cause why) →
        IsUnlessMemory result (Status.Stopped k why) }
    ensures script_is_done { (file script bytes us : List ℕ) →
        NamesScript (map string_bytes words.now) (F.content files.old) file script bytes us →
        Quiet file script (F.faults files.old) (F.faults files.new) → length bytes ≤ source_limit →
        (t : Source) → ReadsAsSource bytes t → (AsksUnknown (map string_bytes words.now) t → ⊥) → length us ≤ script_limit →
        (Rose (O.faults out.old) (O.faults out.new) → ⊥) →
        Runs (names_of t) (system_of t) us → IsUnlessMemory result Status.Done }
    ensures longer_script_is_too_big { (file script bytes us : List ℕ) →
        NamesScript (map string_bytes words.now) (F.content files.old) file script bytes us →
        Quiet file script (F.faults files.old) (F.faults files.new) → length bytes ≤ source_limit →
        (t : Source) → ReadsAsSource bytes t → (AsksUnknown (map string_bytes words.now) t → ⊥) →
        script_limit < length us → IsUnlessMemory result (Status.TooBig 2) }

    // What `simulate` writes: the lines of the run, up to the line at which the script stops, or a beginning of them where a write
    // fails or memory is wanted.
    ensures simulated { result ≡ Status.Done → (q : Simulate) → IsSimulate (map string_bytes words.now) q →
        (script : List ℕ) → q.which ≡ by_script script →
        OfScript (F.content files.old) q.file script (λ t us. Runs (names_of t) (system_of t) us
        × (O.written out.new ≡ grown (O.written out.old) (script_text (names_of t) (system_of t) us))) }
    ensures simulated_first { result ≡ Status.Done → (q : Simulate) → IsSimulate (map string_bytes words.now) q →
        (steps : ℕ) → q.which ≡ by_first steps →
        OfSource (F.content files.old) q.file (λ t.
        O.written out.new ≡ grown (O.written out.old) (first_text (names_of t) (system_of t) steps)) }
    ensures stopped_run_is_written { (k : ℕ) (why : StopWhy) → result ≡ Status.Stopped k why →
        (q : Simulate) → IsSimulate (map string_bytes words.now) q →
        (script : List ℕ) × (q.which ≡ by_script script)
        × OfScript (F.content files.old) q.file script (λ t us. StopsIn (names_of t) (system_of t) us k (cause why)
        × (O.written out.new ≡ grown (O.written out.old) (script_text (names_of t) (system_of t) us))) }
    ensures part_of_run_is_written { result ≡ Status.WriteFault → (q : Simulate) → IsSimulate (map string_bytes words.now) q →
        IsPartOfRun (F.content files.old) q (O.written out.old) (O.written out.new) }
    ensures part_at_want_of_memory { result ≡ Status.Memory → (q : Simulate) → IsSimulate (map string_bytes words.now) q →
        (O.written out.new ≡ O.written out.old)
        ⊎ IsPartOfRun (F.content files.old) q (O.written out.old) (O.written out.new) }
    // Each step of a script is a step of the source by the first choice of its event; by `--first` it is of the lowest-numbered event
    // with one, and fewer are made than asked for only where no event has one.
    ensures script_steps_are_steps { (t : Source) (script : List ℕ) →
        IsRun (system_of t) (initial (system_of t)) (script_moments (names_of t) (system_of t) script) }
    ensures first_steps_are_lowest { (t : Source) (steps : ℕ) → RunsFirst (system_of t) (initial (system_of t)) steps }

    // What `why` writes: the reasons why the event has no step in the state that the script reaches, or nothing where the script stops.
    // That no event has the path is told before the script is read.
    ensures explained { result ≡ Status.Done → (q : Why) → IsWhy (map string_bytes words.now) q →
        OfScript (F.content files.old) q.file q.script (λ t us. Runs (names_of t) (system_of t) us
        × ((event : ℕ) × (event_of (names_of t) q.event ≡ Some event)
        × (O.written out.new ≡ grown (O.written out.old) (explained (names_of t) (system_of t) (told_of t) us event)))) }
    ensures stopped_why_writes_nothing { (k : ℕ) (why : StopWhy) → result ≡ Status.Stopped k why →
        (q : Why) → IsWhy (map string_bytes words.now) q → O.written out.new ≡ grown (O.written out.old) [] }
    ensures no_event { result ≡ Status.NoEvent → (q : Why) × IsWhy (map string_bytes words.now) q
        × OfSource (F.content files.old) q.file (λ t. LacksEvent t q.event) }
    ensures no_event_is_told { (q : Why) (bytes : List ℕ) →
        IsWhy (map string_bytes words.now) q → F.content files.old q.file ≡ Some bytes →
        (Rose (F.faults files.old q.file) (F.faults files.new q.file) → ⊥) → length bytes ≤ source_limit →
        (t : Source) → ReadsAsSource bytes t → LacksEvent t q.event → IsUnlessMemory result Status.NoEvent }
    // Each reason that is told holds, and all that hold are told. There is none exactly where the event has a step.
    ensures reasons_hold { (t : Source) (s : State) (event : ℕ) (why : Reason) →
        Member why (reasons_of (system_of t) (told_of t) s event) → IsReason (system_of t) (told_of t) s event why }
    ensures all_reasons_are_told { (bytes : List ℕ) → length bytes ≤ source_limit → (t : Source) → ReadsAsSource bytes t →
        (s : State) (event : ℕ) (why : Reason) → ((next : State) → Step (system_of t) s event next → ⊥) →
        IsReason (system_of t) (told_of t) s event why → Member why (reasons_of (system_of t) (told_of t) s event) }
    ensures enabled_where_none { (bytes : List ℕ) → length bytes ≤ source_limit → (t : Source) → ReadsAsSource bytes t →
        (s : State) (event : ℕ) → reasons_of (system_of t) (told_of t) s event ≡ [] → (next : State) × Step (system_of t) s event next }
    ensures none_where_enabled { (bytes : List ℕ) → length bytes ≤ source_limit → (t : Source) → ReadsAsSource bytes t →
        (s : State) (event : ℕ) (next : State) → Step (system_of t) s event next → reasons_of (system_of t) (told_of t) s event ≡ [] }

    // The program of `replay` and `batch`: it is refused exactly where it reads as none.
    ensures program_refused { (why : StRefusal) → result ≡ Status.StRefused why → (r : Replay)
        × AsksProgram (map string_bytes words.now) r
        × OfFirst (F.content files.old) r (λ st. IsStRefused st why) }
    ensures other_program_is_refused { (r : Replay) (st : List ℕ) →
        NamesProgram (map string_bytes words.now) (F.content files.old) r st →
        (Rose (F.faults files.old r.st) (F.faults files.new r.st) → ⊥) → length st ≤ st_limit →
        ((p : Program) → ReadsAsProgram st p → ⊥) →
        ((why : StRefusal) × (result ≡ Status.StRefused why)) ⊎ (result ≡ Status.Memory) }

    // The rows of `replay` and the cases of `batch`: the first rule that they break is told.
    ensures rows_refused { (why : RowErr) → result ≡ Status.RowRefused why →
        RowsAreRefused (map string_bytes words.now) (F.content files.old) why }
    ensures other_rows_are_refused { (r : Replay) (st rows : List ℕ) →
        NamesBoth (map string_bytes words.now) (F.content files.old) r st rows →
        Quiet r.st r.rows (F.faults files.old) (F.faults files.new) → length st ≤ st_limit → length rows ≤ rows_limit →
        (p : Program) → ReadsAsProgram st p → (why : RowErr) → IsRowRefused p rows why →
        IsUnlessMemory result (Status.RowRefused why) }

    ensures other_cases_are_refused { (b : Batch) (st cases : List ℕ) →
        NamesCases (map string_bytes words.now) (F.content files.old) b st cases →
        Quiet b.st b.cases (F.faults files.old) (F.faults files.new) → length st ≤ st_limit → length cases ≤ rows_limit →
        (p : Program) → ReadsAsProgram st p → (why : RowErr) → IsCasesRefused p cases why →
        IsUnlessMemory result (Status.RowRefused why) }

    // The scans of `replay`, and of each case of `batch` by itself: the first that ends in a fault, or out of turns, is told, of `batch`
    // that of the first case in order that has one; and else their tables are written.
    ensures scan_fault { (k : ℕ) (e : ScanErr) → result ≡ Status.ScanFault k e → (e ≡ ScanErr.Budget → ⊥)
        × ScanStopsAt (map string_bytes words.now) (F.content files.old) k (stopped e) }
    ensures budget { (k : ℕ) → result ≡ Status.Budget k →
        ScanStopsAt (map string_bytes words.now) (F.content files.old) k OutOfTurns }
    ensures stopped_scan_is_told { (r : Replay) (st rows : List ℕ) →
        NamesBoth (map string_bytes words.now) (F.content files.old) r st rows →
        Quiet r.st r.rows (F.faults files.old) (F.faults files.new) → length st ≤ st_limit → length rows ≤ rows_limit →
        (p : Program) → ReadsAsProgram st p → (rs : List (List ℤ)) → RowsOf p.vars rows rs →
        (k : ℕ) (e : ScanErr) → ComesTo p (start_memory p) rs k (stopped e) →
        IsUnlessMemory result (status_of_scan k e) }
    ensures replay_is_done { (r : Replay) (st rows : List ℕ) →
        NamesBoth (map string_bytes words.now) (F.content files.old) r st rows →
        Quiet r.st r.rows (F.faults files.old) (F.faults files.new) → length st ≤ st_limit → length rows ≤ rows_limit →
        (Rose (O.faults out.old) (O.faults out.new) → ⊥) →
        (p : Program) → ReadsAsProgram st p → (rs : List (List ℤ)) → RowsOf p.vars rows rs → AllEnd p rs →
        IsUnlessMemory result Status.Done }
    ensures replayed { result ≡ Status.Done → (r : Replay) → IsReplay (map string_bytes words.now) r →
        (text : List ℕ) × OfBoth (F.content files.old) r (λ st rows. IsTableFor st rows text)
        × (O.written out.new ≡ grown (O.written out.old) text) }
    ensures stopped_case_is_told { (b : Batch) (st cases : List ℕ) →
        NamesCases (map string_bytes words.now) (F.content files.old) b st cases →
        Quiet b.st b.cases (F.faults files.old) (F.faults files.new) → length st ≤ st_limit → length cases ≤ rows_limit →
        (p : Program) → ReadsAsProgram st p → (cs : List Case) → CasesOf p.vars cases cs →
        (number row : ℕ) (e : ScanErr) → FirstStopped p cs number row (stopped e) →
        IsUnlessMemory result (status_of_scan (row_of_file cs number row) e) }
    ensures batch_is_done { (b : Batch) (st cases : List ℕ) →
        NamesCases (map string_bytes words.now) (F.content files.old) b st cases →
        Quiet b.st b.cases (F.faults files.old) (F.faults files.new) → length st ≤ st_limit → length cases ≤ rows_limit →
        (Rose (O.faults out.old) (O.faults out.new) → ⊥) →
        (p : Program) → ReadsAsProgram st p → (cs : List Case) → CasesOf p.vars cases cs → AllCasesEnd p cs →
        IsUnlessMemory result Status.Done }
    ensures batched { result ≡ Status.Done → (b : Batch) → IsBatch (map string_bytes words.now) b →
        (text : List ℕ) × OfBoth (F.content files.old) (files_of b) (λ st cases. AreTablesFor st cases text)
        × (O.written out.new ≡ grown (O.written out.old) text) }

    // What is written, after each status: the whole text of what is asked for, its beginning, or nothing.
    ensures output { Output (tool_work (map string_bytes words.now) (F.content files.old))
        (O.written out.old) (O.written out.new) result }
    // What is told: the line of an end to which the call came.
    ensures told { Told (map string_bytes words.now) (tool_work (map string_bytes words.now) (F.content files.old))
        (reading (F.content files.old) (F.faults files.old) (F.faults files.new) (F.most files.new))
        (writing (O.written out.old) (O.written out.new) (O.faults out.old) (O.faults out.new))
        (E.written err.old) (E.written err.new) (Rose (E.faults err.old) (E.faults err.new)) result }
{
    let ended = run_words(rt, alloc, words, files, out, gate);
    report(alloc, words, ended, err)
}
