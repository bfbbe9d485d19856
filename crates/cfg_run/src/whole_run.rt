//! One whole run of the program, over any input and any two sinks.

ghost use Rattle.std.specs.Prelude.{◌≡◌, ◌≢◌, ℕ, ◌≤◌, ◌⊎◌, List, Some, None};
ghost use Rattle.std.specs.Prelude.{string_bytes, IfSome, IfOk, IfErr};
ghost use Rattle.cfg_io.specs.Fault.{Rose};
ghost use Rattle.cfg_io.specs.Opened.{Nothing};
ghost use Rattle.cfg_words.specs.Request.{asked, of_file};
ghost use Rattle.cfg_run.specs.Words.{asked_by, path_of, IsForFile, CanBeMade};
ghost use Rattle.cfg_run.specs.Answer.{IsAnswer, text_answer};
ghost use Rattle.cfg_run.specs.Refusal.{status_of};
ghost use Rattle.cfg_run.specs.Lines.{refusal_line};
ghost use Rattle.cfg_run.specs.Text.{bytes_of};
ghost use Rattle.cfg_run.specs.Inner.{IsTrueOf, end_of};
ghost use Rattle.run_ends.specs.Told.{Grows, Tells};
ghost use Rattle.run_ends.specs.Inputs.{OverInput, FileReadFor};
ghost use Rattle.cfg_run.specs.Run.{IsDecided, HasRead, Gives, GivesPart, IsLineOf};

use crate::answer::{report_of, summary_of};
use crate::maker::{Alone, Maker};
use crate::refusal::Refusal;
use crate::status::Status;
use crate::text::Text;
use cfg_io::{Input, Sink};
use cfg_words::{Request, request};
use graph_report::ReportKind;
use run_ends::{Unwritten, read_file};
use std::alloc::Global;
use std::mem;

/// Runs the program on the caller's thread: reads the file that `words` ask for from `input`, writes
/// the report of its control-flow graph or of the graph's live registers to `out`, and reports on
/// `err` why it did not. Of a made program, for which nothing is read, it writes the summary.
///
/// It starts no thread, waits for nobody and returns, whatever number of workers is asked for: the
/// answer is the same for each.
///
/// The clause `answer` is what the program is for. If the words and the bytes decide the end of a
/// run, its status, standard output and standard error are exactly those of the answer to them. By
/// `complete` they do if neither the input nor standard output failed in this run and memory
/// sufficed. The other clauses say what holds if something failed.
pub fn run_one<I: Input, O: Sink, E: Sink>(
    alloc: Global,
    words: &[String],
    input: &mut I,
    out: &mut O,
    err: &mut E,
) -> Status
    requires { I.opened input.old ≡ Nothing }

    ensures answer { OverInput (path_of (asked_by words.now)) (I.rest input.old)
        (λ bytes. IsDecided result → Gives bytes (asked_by words.now) result
        (Grows (O.written out.old) (O.written out.new))
        (Tells (E.written err.old) (E.written err.new)
        (Rose (E.faults err.old) (E.faults err.new)))) }
    ensures complete { ¬ Rose (I.faults input.old) (I.faults input.new)
        → ¬ Rose (O.faults out.old) (O.faults out.new)
        → IsDecided result ⊎ (result ≡ Status.Memory) }

    // When each other status comes. Want of memory alone is free.
    ensures usage { result ≡ Status.Usage → asked_by words.now ≡ None }
    ensures refused_words { asked_by words.now ≡ None → (result ≡ Status.Usage)
        ⊎ (result ≡ Status.Memory) }
    ensures malformed { result ≡ Status.Malformed → IsForFile (asked_by words.now) }
    ensures read_fault { result ≡ Status.ReadFault → IsForFile (asked_by words.now)
        × Rose (I.faults input.old) (I.faults input.new) }
    ensures write_fault { result ≡ Status.WriteFault → Rose (O.faults out.old) (O.faults out.new) }

    // What else standard output holds, and what standard error does.
    ensures cut_off { OverInput (path_of (asked_by words.now)) (I.rest input.old)
        (λ bytes. result ≡ Status.WriteFault → GivesPart bytes (asked_by words.now)
        (O.written out.old) (O.written out.new)) }
    ensures silent { result ≢ Status.Done → result ≢ Status.WriteFault
        → O.written out.new ≡ O.written out.old }
    ensures error_line { (text : List ℕ) × IsLineOf result text
        × Tells (E.written err.old) (E.written err.new)
        (Rose (E.faults err.old) (E.faults err.new)) text }

    // What was done to the input.
    ensures input { FileReadFor (path_of (asked_by words.now))
        (HasRead (asked_by words.now) result) (result ≡ Status.Malformed)
        (I.tells_path input.old) (I.opened input.new) (I.rest input.old) (I.rest input.new)
        (I.faults input.old) (I.faults input.new) }
{
    let request = match request(alloc, words) {
        Ok(request) => request,
        Err(e) => return refuse(Refusal::from(e), err),
    };
    run_by(alloc, &Alone { alloc }, &request, input, out, err)
}

/// Answers a request with the parts that `by` makes. Its clauses are those of [`run_one`], with the
/// request instead of the words.
pub fn run_by<M: Maker, I: Input, O: Sink, E: Sink>(
    alloc: Global,
    by: &M,
    request: &Request,
    input: &mut I,
    out: &mut O,
    err: &mut E,
) -> Status
    requires ready { M.ready by.now }
    requires closed { I.opened input.old ≡ Nothing }
    requires size { CanBeMade (asked request.now) }

    ensures answer { OverInput (path_of (Some (asked request.now))) (I.rest input.old)
        (λ bytes. IsDecided result → Gives bytes (Some (asked request.now)) result
        (Grows (O.written out.old) (O.written out.new))
        (Tells (E.written err.old) (E.written err.new)
        (Rose (E.faults err.old) (E.faults err.new)))) }
    ensures complete { ¬ Rose (I.faults input.old) (I.faults input.new)
        → ¬ Rose (O.faults out.old) (O.faults out.new)
        → IsDecided result ⊎ (result ≡ Status.Memory) }

    ensures no_usage { result ≢ Status.Usage }
    ensures malformed { result ≡ Status.Malformed → IsForFile (Some (asked request.now)) }
    ensures read_fault { result ≡ Status.ReadFault → IsForFile (Some (asked request.now))
        × Rose (I.faults input.old) (I.faults input.new) }
    ensures write_fault { result ≡ Status.WriteFault → Rose (O.faults out.old) (O.faults out.new) }

    ensures cut_off { OverInput (path_of (Some (asked request.now))) (I.rest input.old)
        (λ bytes. result ≡ Status.WriteFault → GivesPart bytes (Some (asked request.now))
        (O.written out.old) (O.written out.new)) }
    ensures silent { result ≢ Status.Done → result ≢ Status.WriteFault
        → O.written out.new ≡ O.written out.old }
    ensures error_line { (text : List ℕ) × IsLineOf result text
        × Tells (E.written err.old) (E.written err.new)
        (Rose (E.faults err.old) (E.faults err.new)) text }

    ensures input { FileReadFor (path_of (Some (asked request.now)))
        (HasRead (Some (asked request.now)) result) (result ≡ Status.Malformed)
        (I.tells_path input.old) (I.opened input.new) (I.rest input.old) (I.rest input.new)
        (I.faults input.old) (I.faults input.new) }
{
    let text = match text_for(alloc, by, request, input) {
        Ok(text) => text,
        Err(refusal) => return refuse(refusal, err),
    };
    let written = text.write(alloc, by, out);
    // The program ends soon, and to free a graph takes time.
    mem::forget(text);
    match written {
        Ok(()) => Status::Done,
        Err(Unwritten::Failed) => refuse(Refusal::WriteFault, err),
        Err(Unwritten::Memory) => refuse(Refusal::Memory, err),
    }
}

/// Ends a run that writes no whole text.
pub fn refuse<E: Sink>(refusal: Refusal, err: &mut E) -> Status
    ensures status { result ≡ status_of refusal }
    ensures line { Tells (E.written err.old) (E.written err.new)
        (Rose (E.faults err.old) (E.faults err.new)) (refusal_line refusal) }
{
    refusal.report(err);
    refusal.status()
}

// The text that is asked for: a report, or a summary.
fn text_for<M: Maker, I: Input>(
    alloc: Global,
    by: &M,
    request: &Request,
    input: &mut I,
) -> Result<Text, Refusal>
    requires ready { M.ready by.now }
    requires closed { I.opened input.old ≡ Nothing }
    requires size { CanBeMade (asked request.now) }

    ensures done { IfOk result (λ text. OverInput (path_of (Some (asked request.now)))
        (I.rest input.old)
        (λ bytes. IsAnswer bytes (Some (asked request.now)) (text_answer (bytes_of text)))) }
    ensures refused { IfErr result (IsTrueOf (Some (asked request.now)) (I.rest input.old)
        (Rose (I.faults input.old) (I.faults input.new))) }

    ensures input { FileReadFor (path_of (Some (asked request.now)))
        (HasRead (Some (asked request.now)) (end_of result)) (end_of result ≡ Status.Malformed)
        (I.tells_path input.old) (I.opened input.new) (I.rest input.old) (I.rest input.new)
        (I.faults input.old) (I.faults input.new) }
{
    match request {
        Request::File {
            path,
            workers: _,
            kind,
        } => file_report(alloc, by, path.as_str(), *kind, input),
        Request::Make { n, workers: _ } => summary_of(alloc, by, *n),
    }
}

// The report of the file at a path.
fn file_report<M: Maker, I: Input>(
    alloc: Global,
    by: &M,
    path: &str,
    kind: ReportKind,
    input: &mut I,
) -> Result<Text, Refusal>
    requires ready { M.ready by.now }
    requires closed { I.opened input.old ≡ Nothing }

    ensures done { IfOk result (λ text. IfSome (I.rest input.old) (λ bytes. (workers : ℕ)
        → IsAnswer bytes (Some (of_file path.now workers kind)) (text_answer (bytes_of text)))) }
    ensures refused { IfErr result (λ refusal. (workers : ℕ)
        → IsTrueOf (Some (of_file path.now workers kind)) (I.rest input.old)
        (Rose (I.faults input.old) (I.faults input.new)) refusal) }

    ensures input { (workers : ℕ) → FileReadFor (Some path.now)
        (HasRead (Some (of_file path.now workers kind)) (end_of result))
        (end_of result ≡ Status.Malformed)
        (I.tells_path input.old) (I.opened input.new) (I.rest input.old) (I.rest input.new)
        (I.faults input.old) (I.faults input.new) }
{
    let bytes = read_file(alloc, path, input)?;
    report_of(by, bytes, kind)
}
