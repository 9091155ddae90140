//! Runs an image whose bytes a reader supplies, and writes the output of the run.

ghost use Rattle.std.specs.{Prelude.{◌≡◌, ◌≢◌, ◌≤◌, ◌<◌, ◌+◌, ◌↔◌, ◌⊎◌, ℕ, length, take, Ok, Some, IfOk, IfErr, OnOk, IsErrOf, ◌++◌, ◌∷◌, [], IsNone, IsTrue}, Option.{option_map}, Io.KnownBytes.{Appends, Keeps}};
ghost use Rattle.vsi_image.specs.{Fields.{fields}, Meaning.{after, start}, Reading.{image_of}, Valid.{IsValid}};
ghost use Rattle.vsi_machine.specs.{Runs.{outcome_of}, Trace.{trace_line}};
ghost use Rattle.vsi_drive.specs.{Counted.{device_of, faults_of}, Engine.{IsOfWriting, TakesFew}, Refusing.{RefusesImage, RefusesRead, RefusesRun}, Running.{RunsAndWrites, RunsApart, Runs, Started, Traces, WrittenApart, WrittenPartly, WrittenSome, WrittenSteps, WrittenWhole, ending_of, trace_of, trace_text}};

use crate::engine::{Counted, EngineError, read_all, write_out};
use std::alloc::{AllocError, Global};
use std::io::{Read, Write};
use vsi_image::{Image, Verified, decode, verify};
use vsi_machine::{Machine, Outcome};
use vsi_store::{read_store, store_text};

/// Runs the image whose bytes a reader supplies, from the store of a store file, for at most
/// `budget` instructions. With `trace`, each step's line is written before the step. If the run
/// halts, the store's lines are written last.
///
/// # Errors
///
/// `ReadFault`, `Decode`, `Verify` and `Store`, in this order and before anything is written;
/// `WriteFault` with a prefix of the output written; `Memory` at any time before the store's lines,
/// with the trace of some first steps written, at most `budget` of them.
pub fn run_image<R: Read, W: Write>(
    alloc: Global,
    reader: &mut Counted<R>,
    store: &[u8],
    budget: u64,
    trace: bool,
    writer: &mut Counted<W>,
) -> Result<Outcome, EngineError>
    requires reads { faults_of reader.old < u64.MAX }
    requires writes { faults_of writer.old < u64.MAX }
    ensures read_fault { IsErrOf result EngineError.ReadFault
        ↔ faults_of reader.old < faults_of reader.new }
    ensures write_fault { IsErrOf result EngineError.WriteFault
        ↔ faults_of writer.old < faults_of writer.new }
    ensures read_count { faults_of reader.old ≤ faults_of reader.new }
    ensures write_count { faults_of writer.old ≤ faults_of writer.new }
    ensures read_once { faults_of reader.new ≤ faults_of reader.old + 1 }
    ensures write_once { faults_of writer.new ≤ faults_of writer.old + 1 }
    ensures bound { TakesFew (R.remaining (device_of reader.old))
        (R.remaining (device_of reader.new)) }
    ensures ran { IfOk result
        (WrittenWhole (Runs trace (R.remaining (device_of reader.old)) store.now budget)
        (W.contents (device_of writer.old)) (W.contents (device_of writer.new))) }
    ensures prefix { IsErrOf result EngineError.WriteFault →
        WrittenPartly (Runs trace (R.remaining (device_of reader.old)) store.now budget)
        (W.contents (device_of writer.old)) (W.contents (device_of writer.new)) }
    ensures memory { IsErrOf result EngineError.Memory →
        Keeps (W.contents (device_of writer.old)) (W.contents (device_of writer.new))
        ⊎ WrittenSome (Traces trace (R.remaining (device_of reader.old)) store.now budget)
        (W.contents (device_of writer.old)) (W.contents (device_of writer.new)) }
    ensures untouched { IfErr result (λ e. e ≢ EngineError.WriteFault → e ≢ EngineError.Memory
        → Keeps (W.contents (device_of writer.old)) (W.contents (device_of writer.new))) }
    ensures refused { IfErr result
        (RefusesRead (λ bytes. RefusesRun bytes store.now) (R.remaining (device_of reader.old))) }
{
    let bytes = read_all(alloc, reader)?;
    let verified = verified_image(alloc, &bytes)?;
    let words = read_store(alloc, verified.image(), store)?;
    let Some(text) = run_words(alloc, &verified, &words, budget, trace, writer)? else {
        return Ok(Outcome::OutOfBudget);
    };
    write_out(&text, writer)?;
    Ok(Outcome::Halted)
}

/// The valid image with these bytes, by `decode` and `verify`.
///
/// # Errors
///
/// `Decode`, then `Verify`, with the first fault of the bytes; or `Memory`.
pub fn verified_image(alloc: Global, bytes: &[u8]) -> Result<Verified, EngineError>
    ensures decoded { IfOk result (λ image. image_of bytes.now ≡ Ok (fields image)) }
    ensures valid { IfOk result IsValid }
    ensures refused { IfErr result (RefusesImage bytes.now) }
{
    let image = decode(alloc, bytes)?;
    match verify(image) {
        Ok(verified) => Ok(verified),
        Err((_, fault)) => Err(EngineError::Verify(fault)),
    }
}

/// Runs an image from a store of one word per global, for at most `budget` instructions. Returns
/// the text of the store in which it halts, or `None` if it is out of budget. With `trace`, each
/// step's line is written before the step.
///
/// # Errors
///
/// `WriteFault` with a prefix of the trace written; `Memory` with the trace of some first steps
/// written.
pub fn run_words<W: Write>(
    alloc: Global,
    verified: &Verified,
    words: &[i64],
    budget: u64,
    trace: bool,
    writer: &mut Counted<W>,
) -> Result<Option<Vec<u8>>, EngineError>
    requires words { length words.now ≡ length verified.now.globals.items }
    requires writes { faults_of writer.old < u64.MAX }
    ensures fault { IsErrOf result EngineError.WriteFault
        ↔ faults_of writer.old < faults_of writer.new }
    ensures count { faults_of writer.old ≤ faults_of writer.new }
    ensures once { faults_of writer.new ≤ faults_of writer.old + 1 }
    ensures only { IfErr result IsOfWriting }
    ensures ran { IfOk result (λ text. WrittenApart (RunsApart trace verified.now words.now budget)
        (W.contents (device_of writer.old)) (W.contents (device_of writer.new))
        (option_map (λ t. t.items) text)) }
    ensures prefix { IsErrOf result EngineError.WriteFault →
        (n : ℕ) × Appends (W.contents (device_of writer.old)) (W.contents (device_of writer.new))
        (take n (trace_of trace verified.now.code.items budget (start verified.now words.now))) }
    ensures memory { IsErrOf result EngineError.Memory →
        WrittenSteps (λ k. trace_of trace verified.now.code.items k (start verified.now words.now))
        budget
        (W.contents (device_of writer.old)) (W.contents (device_of writer.new)) }
{
    let image = verified.image();
    let Ok(mut machine) = Machine::new(alloc, verified, words) else {
        return Err(EngineError::Memory);
    };
    match run_shown(alloc, &mut machine, budget, trace, writer)? {
        Outcome::Halted => Ok(Some(store_text(alloc, image, machine.store())?)),
        Outcome::OutOfBudget => Ok(None),
    }
}

/// Does at most `budget` steps and, if a trace is requested, writes the line of each before it.
fn run_shown<W: Write>(
    alloc: Global,
    machine: &mut Machine,
    budget: u64,
    trace: bool,
    writer: &mut Counted<W>,
) -> Result<Outcome, EngineError>
    requires { faults_of writer.old < u64.MAX }
    ensures fault { IsErrOf result EngineError.WriteFault
        ↔ faults_of writer.old < faults_of writer.new }
    ensures count { faults_of writer.old ≤ faults_of writer.new }
    ensures once { faults_of writer.new ≤ faults_of writer.old + 1 }
    ensures only { IfErr result IsOfWriting }
    ensures image { machine.new.image ≡ machine.old.image }
    ensures state { OnOk result
        (after machine.old.image.code.items budget machine.old.state ≡ Some machine.new.state) }
    ensures outcome { IfOk result (λ outcome. outcome ≡ outcome_of machine.new.state) }
    ensures whole { OnOk result
        (Appends (W.contents (device_of writer.old)) (W.contents (device_of writer.new))
        (trace_of trace machine.old.image.code.items budget machine.old.state)) }
    ensures prefix { IsErrOf result EngineError.WriteFault →
        (n : ℕ) × Appends (W.contents (device_of writer.old)) (W.contents (device_of writer.new))
        (take n (trace_of trace machine.old.image.code.items budget machine.old.state)) }
    ensures memory { IsErrOf result EngineError.Memory →
        WrittenSteps (λ k. trace_of trace machine.old.image.code.items k machine.old.state) budget
        (W.contents (device_of writer.old)) (W.contents (device_of writer.new)) }
{
    if trace {
        run_traced(alloc, machine, budget, writer)
    } else {
        Ok(machine.run(budget))
    }
}

/// Does at most `budget` steps, and writes the line of each before it.
pub(crate) fn run_traced<W: Write>(
    alloc: Global,
    machine: &mut Machine,
    budget: u64,
    writer: &mut Counted<W>,
) -> Result<Outcome, EngineError>
    requires { faults_of writer.old < u64.MAX }
    ensures fault { IsErrOf result EngineError.WriteFault
        ↔ faults_of writer.old < faults_of writer.new }
    ensures count { faults_of writer.old ≤ faults_of writer.new }
    ensures once { faults_of writer.new ≤ faults_of writer.old + 1 }
    ensures only { IfErr result IsOfWriting }
    ensures image { machine.new.image ≡ machine.old.image }
    ensures state { OnOk result
        (after machine.old.image.code.items budget machine.old.state ≡ Some machine.new.state) }
    ensures outcome { IfOk result (λ outcome. outcome ≡ outcome_of machine.new.state) }
    ensures whole { OnOk result
        (Appends (W.contents (device_of writer.old)) (W.contents (device_of writer.new))
        (trace_text machine.old.image.code.items budget machine.old.state)) }
    ensures prefix { IsErrOf result EngineError.WriteFault
        → (n : ℕ) × Appends (W.contents (device_of writer.old)) (W.contents (device_of writer.new))
        (take n (trace_text machine.old.image.code.items budget machine.old.state)) }
    ensures memory { IsErrOf result EngineError.Memory
        → WrittenSteps (λ k. trace_text machine.old.image.code.items k machine.old.state) budget
        (W.contents (device_of writer.old)) (W.contents (device_of writer.new)) }
{
    for _step in 0..budget {
        let Some(mut line) = machine.trace_line(alloc)? else {
            return Ok(Outcome::Halted);
        };
        line.push(b'\n')?;
        write_out(&line, writer)?;
        machine.step();
    }
    Ok(machine.run(0))
}
