//! The judgement of an image, its bound, its runs, and a search for a leak, as lines of JSON.

ghost use Rattle.std.specs.Prelude.{◌≡◌, IfOk, length, IfErr, IfSome};
ghost use Rattle.vsi_answers.specs.Bounds.{TellsBound};
ghost use Rattle.vsi_lattice.specs.{LatticeView.{class_named, order}, Order.{IsClass}};
ghost use Rattle.vsi_compiler.specs.{Readable.{HasProgram}, Refusal.{RefusesProgram}, declared.source.CompileError.TheVariants.{Memory}};
ghost use Rattle.vsi_documents.specs.Audits as spec;
ghost use Rattle.vsi_documents.specs.Bounds as bounds_spec;
ghost use Rattle.vsi_answers.specs.Members as lines;
ghost use Rattle.vsi_documents.specs.Runs as runs_spec;
ghost use Rattle.vsi_documents.specs.Comparisons as comparisons_spec;
ghost use Rattle.vsi_documents.specs.Leaks as leaks_spec;

use crate::answer::{Made, Reply, end_object, runs_line, with_pairs, word_objects};
use std::alloc::{AllocError, Global};
use vsi_answers::{
    BoundAnswer, Object, Unanswered, accepted_json, bound, bound_in, refusal_json, without_end,
};
use vsi_compiler::CompileError;
use vsi_conform::{Judgement, refused_image};
use vsi_image::Verified;
use vsi_lattice::{Class, Lattice};
use vsi_leak::{Finding, Wanted, leak_of_text};
use vsi_machine::{Bound, Outcome, counted};

/// The answer of `vsi audit` to an image as a line of JSON: an object with `accepted` and, for a
/// refused image, `number`, `name` and `text`, the lines of the refusal without the last line feed.
/// An error means that memory ran out.
pub fn audit_json(
    alloc: Global,
    judgement: Judgement,
    lattice: &Lattice,
    image: &Verified,
) -> Result<Reply, AllocError>
    ensures answer { IfOk result (λ answer. spec.TellsJudged lattice.now judgement image.now
        answer.is_good answer.text.items) }
{
    match refused_image(alloc, judgement, lattice, image)? {
        None => {
            let text = accepted_json(alloc)?;
            let is_good = true;
            Ok(Reply { is_good, text })
        }
        Some((diagnostic, lines)) => {
            let text = refusal_json(alloc, lattice, &[], &diagnostic, &lines)?;
            let is_good = false;
            Ok(Reply { is_good, text })
        }
    }
}

/// The line of an answer with this text.
fn bound_line(alloc: Global, is_bounded: bool, found: Bound, text: &[u8]) -> Made<Vec<u8>>
    ensures { IfOk result (λ line. line.items
        ≡ lines.object_line (bounds_spec.bound_members is_bounded found text.now)) }
{
    let made = Object::new(alloc).flag("bounded", is_bounded)?;
    let made = match found {
        Bound::Halts { least, most } => {
            let made = made.natural("least", least as usize)?;
            made.natural("most", most as usize)?
        }
        Bound::Endless { test, reason: _ } => made.natural("instruction", test)?,
        Bound::Unstructured(at) => made.natural("instruction", at)?,
        Bound::TooLarge => made,
    };
    made.text("text", without_end(text))?.line()
}

/// An answer about an image, with its line.
fn document_of(alloc: Global, verified: &Verified, answer: BoundAnswer) -> Result<Reply, AllocError>
    requires { TellsBound verified.now answer }
    ensures { IfOk result
        (λ told. bounds_spec.IsBoundJson verified.now told.is_good told.text.items) }
{
    let is_good = answer.is_bounded;
    let text = bound_line(alloc, is_good, answer.found, &answer.text)?;
    Ok(Reply { is_good, text })
}

/// The answer of `vsi bound` to an image as a line of JSON: an object with `bounded`, whether a
/// bound was found, `text`, the line of `vsi_answers::bound` without its line feed, and the numbers
/// `least` and `most` of instructions or, where there is no bound, the number `instruction` of the
/// one that is named. An error means that memory ran out.
pub fn bound_json(alloc: Global, verified: &Verified) -> Result<Reply, AllocError>
    ensures answer { IfOk result
        (λ answer. bounds_spec.IsBoundJson verified.now answer.is_good answer.text.items) }
{
    let answer = bound(alloc, verified)?;
    document_of(alloc, verified, answer)
}

/// The same for the image of a source text, whose line has the position of a loop.
pub fn bound_json_in(
    alloc: Global,
    lattice: &Lattice,
    source: &[u8],
    verified: &Verified,
) -> Result<Reply, AllocError>
    ensures answer { IfOk result
        (λ answer. bounds_spec.IsBoundJson verified.now answer.is_good answer.text.items) }
{
    let answer = bound_in(alloc, lattice, source, verified)?;
    document_of(alloc, verified, answer)
}

/// The answer of `vsi run` to an image and words for its globals as a line of JSON: an object with
/// `halted`, whether the run halts within the budget, `instructions`, how many it executes, and, if
/// it halts, `globals`, an array with an object for each global, which has its `name` and its
/// `word`. The answer is good if the run halts. An error means that memory ran out.
pub fn run_json(
    alloc: Global,
    verified: &Verified,
    words: &[i64],
    budget: u64,
) -> Result<Reply, AllocError>
    requires { length words.now ≡ length verified.now.globals.items }
    ensures answer { IfOk result (λ answer. runs_spec.TellsRun verified.now words.now budget
        answer.is_good answer.text.items) }
{
    let Ok(count) = counted(alloc, verified, words, budget) else {
        return Err(AllocError);
    };
    match count.outcome {
        Outcome::Halted => {
            let (image, last) = (verified.image(), count.machine.store());
            let objects = word_objects(alloc, image.globals.as_slice(), last)?;
            let text = end_object(alloc, true, count.instructions)?
                .array("globals", objects)?
                .line()?;
            let is_good = true;
            Ok(Reply { is_good, text })
        }
        Outcome::OutOfBudget => {
            let text = end_object(alloc, false, count.instructions)?.line()?;
            let is_good = false;
            Ok(Reply { is_good, text })
        }
    }
}

/// The answer of `vsi compare` to an image and words for two runs as a line of JSON: an object with
/// `class`, the name of the class, `same`, whether it sees the same after both runs, `before` and,
/// if both halt, `after`, arrays with an object for each global that it sees, which has its `name`
/// and its words in the `first` and the `second` run, and `first` and `second`, how the runs end,
/// as of `run_json`. The answer is good if the class sees the same.
pub fn compare_json(
    alloc: Global,
    lattice: &Lattice,
    verified: &Verified,
    class: Class,
    first: &[i64],
    second: &[i64],
    budget: u64,
) -> Result<Reply, Unanswered>
    requires class { IsClass (order lattice.now) class }
    requires first { length first.now ≡ length verified.now.globals.items }
    requires second { length second.now ≡ length verified.now.globals.items }
    ensures answer { comparisons_spec.ComparesJsonTo lattice.now class verified.now first.now
        second.now budget result }
{
    match vsi_answers::compare(alloc, lattice, verified, class, first, second, budget) {
        Ok(found) => {
            let image = verified.image();
            let (variables, to) = (image.globals.as_slice(), Some(class));
            let made = Object::new(alloc)
                .flag("same", found.is_same)?
                .text("class", lattice.name(class))?;
            let stores = (first, second);
            let made = with_pairs(alloc, made, "before", lattice, &to, variables, stores)?;
            let ends = (&found.first, &found.second);
            let text = runs_line(alloc, made, lattice, class, variables, budget, ends)?;
            let is_good = found.is_same;
            Ok(Reply { is_good, text })
        }
        Err(error) => Err(error),
    }
}

/// The answer of `vsi leak` to a text as a line of JSON: an object with `found`, whether a leak was
/// found. For a leak it has `class`, the name of its class, `before`, an array with an object for
/// each global at the start of both runs, `after`, the same for each global that the class sees at
/// their ends, if both halt, and `first` and `second`, how the runs end, as of `compare_json`.
/// Otherwise it has `pairs`, the number of pairs of runs. The answer is good if no leak was found.
pub fn leak_json(
    alloc: Global,
    lattice: &Lattice,
    text: &[u8],
    wanted: &Wanted,
) -> Result<Reply, CompileError>
    requires { IfSome wanted.now.class (IsClass (order lattice.now)) }
    ensures answer { IfOk result (λ answer. leaks_spec.TellsSearch lattice.now text.now wanted.now
        answer.is_good answer.text.items) }
    ensures refused { IfErr result (RefusesProgram (class_named lattice.now) text.now) }
    ensures exact { HasProgram (class_named lattice.now) text.now
        → IfErr result (λ e. e ≡ Memory) }
{
    let (verified, finding) = match leak_of_text(alloc, lattice, text, wanted) {
        Ok(found) => found,
        Err(error) => return Err(error),
    };
    match &finding {
        Finding::Leak(leak) => {
            let (image, budget) = (verified.image(), wanted.effort.budget);
            let variables = image.globals.as_slice();
            let stores = (leak.first.store.as_slice(), leak.second.store.as_slice());
            let made = Object::new(alloc)
                .flag("found", true)?
                .text("class", lattice.name(leak.class))?;
            let made = with_pairs(alloc, made, "before", lattice, &None, variables, stores)?;
            let ends = (&leak.first.ending, &leak.second.ending);
            let text = runs_line(alloc, made, lattice, leak.class, variables, budget, ends)?;
            let is_good = false;
            Ok(Reply { is_good, text })
        }
        Finding::Nothing { pairs } => {
            let made = Object::new(alloc).flag("found", false)?;
            let text = made.natural("pairs", *pairs as usize)?.line()?;
            let is_good = true;
            Ok(Reply { is_good, text })
        }
    }
}
