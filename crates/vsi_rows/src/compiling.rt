//! Calls of the compiler, calls that check flows, and calls about walks.

ghost use Rattle.std.specs.{Prelude.{◌≡◌, length, true}, List.{All}};
ghost use Rattle.vsi_drive.specs.Control.{control};
ghost use Rattle.vsi_lattice.specs.{Order.{IsClass}, LatticeView.{order}};

use crate::row::{Row, Wrong, bytes_of};
use std::alloc::Global;
use std::str::from_utf8;
use vsi_answers::refusal_text;
use vsi_compiler::{
    CompileError, RunError, Source, classes_text, classes_text_in, compile, compile_in,
    explanation_text, read_source, run_source,
};
use vsi_drive::Controller;
use vsi_image::{Verified, listing};
use vsi_infer::{InferError, Walk, check_walk, check_walk_in, check_walk_once, infer, infer_in};
use vsi_lattice::{Class, Classes, Lattice};
use vsi_scope::{Var, size};
use vsi_syntax::Span;
use vsi_types::{CheckError, Profile, Rule, Step, check, check_in};

/// `size LATTICE TEXT`: the size of the program, or the fault.
pub(crate) fn size_of(row: &mut Row<'_>, lattice: &Lattice) -> Result<(), Wrong> {
    let text = row.text()?;
    let source = read_source(row.alloc, lattice, &text)?;
    row.put_line(&size(source.resolved().body()))
}

/// The image of a text, by `compile` for the base profile.
fn compiled(
    alloc: Global,
    profile: Profile,
    lattice: &Lattice,
    text: &[u8],
) -> Result<Verified, CompileError> {
    match profile {
        Profile::Base => compile(alloc, lattice, text),
        Profile::Strict => compile_in(alloc, profile, lattice, text),
    }
}

/// `judge`, `sizes` or `compile`, then `PROFILE LATTICE TEXT`: that the text is accepted, the first
/// three and the last four lines of the listing, or the listing; or the fault.
pub(crate) fn image(row: &mut Row<'_>, lattice: &Lattice, call: &str) -> Result<(), Wrong> {
    let text = row.text()?;
    let verified = compiled(row.alloc, row.profile, lattice, &text)?;
    if call == "judge" {
        return row.put("accepted\n");
    }
    let listed = listing(row.alloc, verified.image())?;
    if call != "sizes" {
        return row.put_bytes(&listed);
    }
    let text = from_utf8(&listed).unwrap_or("");
    let count = text.lines().count();
    for (at, line) in text.lines().enumerate() {
        if at < 3 || at.saturating_add(4) >= count {
            writeln!(row.answer, "{line}")?;
        }
    }
    Ok(())
}

/// `classes PROFILE LATTICE TEXT`: the class lines, by `classes_text` for the base profile, or the
/// fault.
pub(crate) fn classes(row: &mut Row<'_>, lattice: &Lattice) -> Result<(), Wrong> {
    let text = row.text()?;
    let lines = match row.profile {
        Profile::Base => classes_text(row.alloc, lattice, &text)?,
        Profile::Strict => classes_text_in(row.alloc, row.profile, lattice, &text)?,
    };
    row.put_bytes(&lines)
}

/// `refusal PROFILE LATTICE TEXT | OTHER`: the report of the text's refusal, in terms of the other
/// text; without another text, in terms of the text itself.
pub(crate) fn refusal(row: &mut Row<'_>, lattice: &Lattice) -> Result<(), Wrong> {
    let (first, other) = row.rest.split_once(" | ").unwrap_or((row.rest, row.rest));
    let text = bytes_of(row.alloc, first)?;
    let other = bytes_of(row.alloc, other)?;
    match compiled(row.alloc, row.profile, lattice, &text) {
        Ok(_) => row.put("accepted\n"),
        Err(error) => {
            let report = refusal_text(row.alloc, lattice, &other, &error)?;
            row.put_bytes(&report)
        }
    }
}

/// `run LATTICE STORE BUDGET TEXT`: how a run of the text ends, and the last words of the globals;
/// or the fault.
pub(crate) fn ran(row: &mut Row<'_>, lattice: &Lattice) -> Result<(), Wrong> {
    let store = row.numbers()?;
    let budget = row.number()?;
    let text = row.text()?;
    match run_source(row.alloc, lattice, &text, &store, budget) {
        Ok((outcome, words)) => {
            write!(row.answer, "{outcome:?}")?;
            row.put_words(&words)
        }
        Err(RunError::Compile(error)) => Err(Wrong::Refused(error)),
        Err(RunError::Start(error)) => row.put_line(&error),
        Err(RunError::Memory) => Err(Wrong::Memory),
    }
}

/// Adds the output of a drive over lines, which are separated by `/`, and the store after it.
fn put_driven(
    row: &mut Row<'_>,
    controller: &Controller<'_>,
    lines: &str,
    store: &mut [i64],
) -> Result<(), Wrong>
    requires { length store.old ≡ length (control controller.now).image.globals.items }
{
    let mut list = Vec::new(row.alloc);
    for line in lines.split('/') {
        list.push(line.as_bytes())?;
    }
    let Ok(text) = controller.drive(row.alloc, &list, store) else {
        return Err(Wrong::Memory);
    };
    row.put_bytes(&text)?;
    row.put("store")?;
    row.put_words(store)
}

/// `drive LATTICE CLASS BUDGET STORE LINES | TEXT`: the output of the controller of the text that
/// the class with this name drives over lines from the store, and the store after it.
pub(crate) fn driven(row: &mut Row<'_>, lattice: &Lattice) -> Result<(), Wrong> {
    let Some(class) = lattice.class_named(row.field().as_bytes()) else {
        return Err(Wrong::Row);
    };
    let budget = row.number()?;
    let mut store = row.numbers()?;
    let (lines, text) = row.rest.split_once(" | ").unwrap_or(("", ""));
    let text = bytes_of(row.alloc, text)?;
    let verified = compile(row.alloc, lattice, &text)?;
    if store.len() != verified.image().globals.len() {
        return Err(Wrong::Row);
    }
    match Controller::new(lattice, &verified, class, budget) {
        Ok(controller) => put_driven(row, &controller, lines, store.as_mut_slice()),
        Err(_) => Err(Wrong::Row),
    }
}

/// Whether each given class is a class of the lattice.
fn are_chosen(lattice: &Lattice, choice: &[Class]) -> bool
    ensures { result ≡ true → All (IsClass (order lattice.now)) choice.now }
{
    for c in choice {
        if c.index() >= lattice.count() {
            return false;
        }
    }
    true
}

/// The answer of the check, by `check` for the base profile; none for classes of no lattice.
fn checked(
    alloc: Global,
    profile: Profile,
    source: &Source<'_>,
    choice: &[Class],
) -> Option<Result<(), CheckError>> {
    let lattice = source.lattice();
    let program = source.resolved();
    if !are_chosen(lattice, choice) {
        return None;
    }
    Some(match profile {
        Profile::Base => check(alloc, lattice, program, choice),
        Profile::Strict => check_in(alloc, profile, lattice, program, choice),
    })
}

/// `check PROFILE LATTICE CLASSES TEXT`: whether the program is typable with these classes of its
/// `letvar`s, or the first flow that isn't allowed: its rule, the variable that is read and its
/// position, and the variable that is written.
pub(crate) fn typed(row: &mut Row<'_>, lattice: &Lattice) -> Result<(), Wrong> {
    let choice = row.classes()?;
    let text = row.text()?;
    let source = read_source(row.alloc, lattice, &text)?;
    match checked(row.alloc, row.profile, &source, &choice) {
        Some(Ok(())) => row.put("accepted\n"),
        Some(Err(error)) => row.put_line(&error),
        None => Err(Wrong::Row),
    }
}

/// The least classes of a program, by `infer` for the base profile.
fn inferred(
    alloc: Global,
    profile: Profile,
    source: &Source<'_>,
) -> Result<Vec<Class>, InferError> {
    let lattice = source.lattice();
    let program = source.resolved();
    match profile {
        Profile::Base => infer(alloc, lattice, program),
        Profile::Strict => infer_in(alloc, profile, lattice, program),
    }
}

/// `infer PROFILE LATTICE TEXT`: the numbers of the least classes of the `letvar`s, or the lines of
/// the walk that refuses it.
pub(crate) fn least_classes(row: &mut Row<'_>, lattice: &Lattice) -> Result<(), Wrong> {
    let text = row.text()?;
    let source = read_source(row.alloc, lattice, &text)?;
    match inferred(row.alloc, row.profile, &source) {
        Ok(classes) => {
            row.put("classes")?;
            for class in &classes {
                let number = class.index();
                write!(row.answer, " {number}")?;
            }
            row.put("\n")
        }
        Err(InferError::Refused(walk)) => {
            let lines = explanation_text(row.alloc, lattice, &text, &walk)?;
            row.put_bytes(&lines)
        }
        Err(InferError::Memory) => Err(Wrong::Memory),
    }
}

/// The next field as the first byte of a name of one byte.
fn place(row: &mut Row<'_>) -> Result<Span, Wrong> {
    let start = usize::from(row.small()?);
    let stop = start + 1;
    Ok(Span { start, stop })
}

/// The next fields as a number of steps and the steps, each of five fields.
fn walk(row: &mut Row<'_>) -> Result<Walk, Wrong> {
    let mut steps = Vec::new(row.alloc);
    for _ in 0..row.small()? {
        steps.push(Step {
            rule: match row.field() {
                "ASSIGN" => Rule::Assign,
                "LETVAR" => Rule::Letvar,
                "IF" => Rule::If,
                "WHILE" => Rule::While,
                _ => Rule::Loop,
            },
            source: Var(row.small()?),
            target: Var(row.small()?),
            read: place(row)?,
            written: place(row)?,
        })?;
    }
    Ok(Walk { steps })
}

/// Whether a walk is bad, by `check_walk` for the base profile; none if `check_walk_once`
/// disagrees.
fn is_bad(alloc: Global, profile: Profile, source: &Source<'_>, walk: &Walk) -> Option<bool> {
    let lattice = source.lattice();
    let program = source.resolved();
    let is_bad = match profile {
        Profile::Base => check_walk(lattice, program, walk),
        Profile::Strict => check_walk_in(profile, lattice, program, walk),
    };
    match check_walk_once(alloc, profile, lattice, program, walk) {
        Ok(is_once) if is_once == is_bad => Some(is_bad),
        _ => None,
    }
}

/// `walk PROFILE LATTICE COUNT STEPS TEXT`: whether this many steps are a bad walk. A step is
/// `RULE SOURCE TARGET READ WRITTEN`, by the numbers of variables and the first bytes of names of
/// one byte.
pub(crate) fn walked(row: &mut Row<'_>, lattice: &Lattice) -> Result<(), Wrong> {
    let walk = walk(row)?;
    let text = row.text()?;
    let source = read_source(row.alloc, lattice, &text)?;
    match is_bad(row.alloc, row.profile, &source, &walk) {
        Some(is_bad) => row.put(if is_bad { "bad\n" } else { "not bad\n" }),
        None => Err(Wrong::Memory),
    }
}
