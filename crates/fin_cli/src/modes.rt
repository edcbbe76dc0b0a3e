//! The modes, over the bytes of a job.
ghost use Rattle.std.specs.Prelude.{◌≡◌, ◌≢◌, ◌≤◌, ◌^◌, ℕ, List, length, string_bytes};
ghost use Rattle.fin_ast.specs.Accepted.{FitProgram, IsAccepted};
ghost use Rattle.fin_ports.specs.Bytes.{most};
ghost use Rattle.fin_engine.specs.Run.{StoresAll};
ghost use Rattle.fin_engine.specs.Verdict.{IsJob};
ghost use Rattle.fin_cli.specs.Due.{Due, IsDuePlain, IsDueRead, IsDueRun, IsDueThen};
ghost use Rattle.fin_cli.specs.Due.{due_outputs, refusal_text, work_text};
ghost use Rattle.fin_cli.specs.Ends.{Across, over};
ghost use Rattle.fin_cli.specs.Stops.{Comes, Fails, Refuses};

use crate::line::{refusal_text, work_text};
use crate::outcome::{Answer, Stop};
use crate::outputs::write_outputs;
use fin_base::{Fail, Refusal};
use fin_dense::plain;
use fin_engine::{Done, Job, check, run_job_one};
use fin_ports::{Failed, Sink, put_all};
use fin_tensor::Outputs;
use fin_text::WriteFail;
use fin_words::{Asked, Mode};
use std::alloc::Global;

/// Does with a job what a mode asks. The text of the job is let go as soon as it is read.
pub(crate) fn serve_job<O: Sink>(
    alloc: Global,
    asked: &Asked,
    text: Vec<u8>,
    out: &mut O,
) -> Result<Answer, Stop>
    requires job { length text.items ≤ most }
    requires mode { asked.now.mode ≢ Mode.Gen }
    requires budget { asked.now.budget ≤ 2 ^ 40 }
    ensures comes { let Is = IsDueRead text.items (IsDueThen asked.now asked.now.mode text.items) in
        (source : Across) → Comes source (over O.taken O.faults out.old out.new) Is result }
    ensures later { O.Later out.old out.new }
{
    let checked = check(alloc, &text);
    drop(text);
    let job = match checked {
        Ok(job) => job,
        Err(fail) => return failed(alloc, fail),
    };
    serve_accepted(alloc, asked, &job, out)
}

// Does so with a job that breaks none of the rules.
fn serve_accepted<O: Sink>(
    alloc: Global,
    asked: &Asked,
    job: &Job,
    out: &mut O,
) -> Result<Answer, Stop>
    requires mode { asked.now.mode ≢ Mode.Gen }
    requires budget { asked.now.budget ≤ 2 ^ 40 }
    requires accepted { IsAccepted job.now.checked }
    requires inputs { FitProgram job.now.checked job.now.inputs }
    ensures comes { (source : Across) (text : List ℕ) → IsJob text job.now
        → Comes source (over O.taken O.faults out.old out.new) (IsDueThen asked.now asked.now.mode text) result }
    ensures later { O.Later out.old out.new }
{
    match asked.mode {
        Mode::Run => run(alloc, asked, job, out),
        Mode::Plain => evaluate(alloc, job, out),
        Mode::Check => accept(alloc, out),
        Mode::Gen => unreachable!(),
    }
}

// Runs a job by its loop code and writes its outputs.
fn run<O: Sink>(alloc: Global, asked: &Asked, job: &Job, out: &mut O) -> Result<Answer, Stop>
    requires budget { asked.now.budget ≤ 2 ^ 40 }
    requires accepted { IsAccepted job.now.checked }
    requires inputs { FitProgram job.now.checked job.now.inputs }
    ensures comes { (source : Across) (text : List ℕ) → IsJob text job.now
        → Comes source (over O.taken O.faults out.old out.new) (IsDueRun asked.now text) result }
    ensures later { O.Later out.old out.new }
{
    match run_job_one(alloc, job, asked.budget) {
        Ok(done) => write_run(alloc, asked.stats, job, &done, out),
        Err(spent) => failed(alloc, spent),
    }
}

// Writes the outputs of a run, with the line of its work where that is asked for.
fn write_run<O: Sink>(
    alloc: Global,
    stats: bool,
    job: &Job,
    done: &Done,
    out: &mut O,
) -> Result<Answer, Stop>
    requires stored { StoresAll job.now.checked job.now.inputs done.now.outputs }
    ensures comes { let told = work_text stats done.now.work in
        let Is = λ (due : Due). due ≡ due_outputs job.now done.now.outputs told in
        (source : Across) → Comes source (over O.taken O.faults out.old out.new) Is result }
    ensures later { O.Later out.old out.new }
{
    match work_text(alloc, stats, done.work) {
        Ok(line) => write(alloc, job, &done.outputs, line, out),
        Err(_) => Err(Stop::Memory),
    }
}

// Evaluates a job coordinate by coordinate and writes its outputs.
fn evaluate<O: Sink>(alloc: Global, job: &Job, out: &mut O) -> Result<Answer, Stop>
    ensures comes { (source : Across) (text : List ℕ) → IsJob text job.now
        → Comes source (over O.taken O.faults out.old out.new) (IsDuePlain text) result }
    ensures later { O.Later out.old out.new }
{
    match plain(alloc, &job.checked, job.inputs.as_slice()) {
        Ok(outputs) => write(alloc, job, &outputs, String::new(alloc), out),
        Err(over) => failed(alloc, over),
    }
}

// Writes the outputs of a job, and answers the line for the error output.
fn write<O: Sink>(
    alloc: Global,
    job: &Job,
    outputs: &Outputs,
    line: String,
    out: &mut O,
) -> Result<Answer, Stop>
    requires stored { StoresAll job.now.checked job.now.inputs outputs.now }
    ensures comes { let Is = λ (due : Due). due ≡ due_outputs job.now outputs.now (string_bytes line) in
        (source : Across) → Comes source (over O.taken O.faults out.old out.new) Is result }
    ensures later { O.Later out.old out.new }
{
    let headers = job.checked.program.headers.as_slice();
    match write_outputs(alloc, headers, outputs.tensors.as_slice(), out) {
        Ok(()) => Ok(Answer { status: 0, line }),
        Err(WriteFail::Fault) => Err(Stop::WriteFault),
        Err(WriteFail::Memory(_)) => Err(Stop::Memory),
    }
}

// Says that a job breaks no rule.
fn accept<O: Sink>(alloc: Global, out: &mut O) -> Result<Answer, Stop>
    ensures comes { (asked : Asked) (source : Across) (job : List ℕ)
        → Comes source (over O.taken O.faults out.old out.new) (IsDueThen asked Mode.Check job) result }
    ensures later { O.Later out.old out.new }
{
    match put_all(out, b"ok\n") {
        Ok(()) => Ok(Answer {
            status: 0,
            line: String::new(alloc),
        }),
        Err(Failed) => Err(Stop::WriteFault),
    }
}

// The answer to a job without a result.
fn failed(alloc: Global, fail: Fail) -> Result<Answer, Stop>
    ensures { Fails fail result }
{
    match fail {
        Fail::Refused(refusal) => refused(alloc, refusal),
        Fail::Memory(_) => Err(Stop::Memory),
    }
}

/// The answer to a refused job.
pub(crate) fn refused(alloc: Global, refusal: Refusal) -> Result<Answer, Stop>
    ensures { Refuses refusal result }
{
    match refusal_text(alloc, refusal) {
        Ok(line) => Ok(Answer { status: 1, line }),
        Err(_) => Err(Stop::Memory),
    }
}
