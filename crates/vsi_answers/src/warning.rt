//! All warnings about a text, and their lines.

use crate::indented::put_indented;
use crate::loops::unchanged_guards;
use crate::uses::{is_unused_global, unread_letvars};
use std::alloc::{AllocError, Global};
use vsi_compiler::Source;
use vsi_opt::optimise;
use vsi_scope::{Cmd, Ex, Resolved};
use vsi_syntax::{Kind, LexError, Op, Span, Token, lex, put_line_column};

/// The sentence about a command after a loop that is indented as if the loop had it.
pub(crate) const AFTER_LOOP: &[u8] =
    b"this comes after the loop above it; only braces put several commands into a loop";

/// The sentence about a command after an `if` that is indented as if the `if` had it.
pub(crate) const AFTER_CHOICE: &[u8] =
    b"this comes after the `if` above it; only braces put several commands into a branch";

/// The sentence about a loop whose body assigns no variable that its guard reads.
const UNCHANGED_GUARD: &[u8] = b"nothing in the body of this loop changes its guard";

/// The sentence about a letvar whose variable no expression reads.
const UNREAD_LETVAR: &[u8] = b" is never read";

/// The sentence about a global that is neither read nor assigned.
const UNUSED_GLOBAL: &[u8] = b" is never used";

/// The sentence about an assignment that the optimiser removes.
const REMOVED_ASSIGNMENT: &[u8] =
    b"the image has no code for this assignment: its value is never used";

/// The sentence about a letvar that has the name of a variable in scope.
const HIDING_LETVAR: &[u8] = b" hides a variable of the same name";

/// The sentence about a comparison of a comparison with something else.
const CHAINED_COMPARISON: &[u8] = b"this compares the answer of a comparison, which is 0 or 1";

/// A warning: its sentence, which begins with a space if a name comes before it, and the part of
/// the text to which it points, which is that name.
#[derive(Clone, Copy, Debug)]
pub struct Warning {
    pub sentence: &'static [u8],
    pub span: Span,
}

/// Adds the sentence of a warning about a source text.
pub fn put_message(text: &mut Vec<u8>, source: &[u8], warning: Warning) -> Result<(), AllocError> {
    if warning.sentence.starts_with(b" ")
        && let Some(name) = source.get(warning.span.start..warning.span.stop)
    {
        text.extend_from_slice(name)?;
    }
    text.extend_from_slice(warning.sentence)
}

/// The findings of a walk over a program, the names in scope, and those of all letvars.
#[derive(Drop)]
struct Found<'a> {
    names: Vec<&'a [u8]>,
    letvars: Vec<&'a [u8]>,
    /// For each letvar, whether its name is in scope there.
    hiding: Vec<bool>,
    /// For each comparison, whether exactly one of its operands is a comparison and the other one
    /// is neither 0 nor 1.
    chained: Vec<bool>,
    /// The name that each assignment has in the text.
    assigned: Vec<Span>,
}

/// Whether an expression is a comparison.
fn is_comparison(e: &Ex) -> bool {
    matches!(e, Ex::Op(Op::Eq | Op::Lt, _, _))
}

/// Whether an expression is the answer of no comparison: neither a comparison nor 0 nor 1.
fn is_other(e: &Ex) -> bool {
    !matches!(e, Ex::Num(0) | Ex::Num(1)) && !is_comparison(e)
}

/// Adds an answer for each comparison of an expression, in the order of the text.
fn put_comparisons(e: &Ex, chained: &mut Vec<bool>) -> Result<(), AllocError> {
    match e {
        Ex::Num(_) | Ex::Loc(_, _) => Ok(()),
        Ex::Op(_, a, b) => {
            put_comparisons(a, chained)?;
            if is_comparison(e) {
                let is_left = is_comparison(a) && is_other(b);
                chained.push(is_left || (is_comparison(b) && is_other(a)))?;
            }
            put_comparisons(b, chained)
        }
    }
}

/// Walks over a list of commands.
fn walk_all(body: &[Cmd], found: &mut Found<'_>) -> Result<(), AllocError> {
    for c in body {
        match c {
            Cmd::Assign { span, value, .. } => {
                found.assigned.push(*span)?;
                put_comparisons(value, &mut found.chained)?;
            }
            Cmd::If { guard, yes, no } => {
                put_comparisons(guard, &mut found.chained)?;
                walk_all(yes, found)?;
                walk_all(no, found)?;
            }
            Cmd::While { guard, body } => {
                put_comparisons(guard, &mut found.chained)?;
                walk_all(body, found)?;
            }
            Cmd::Letvar { value, body } => {
                put_comparisons(value, &mut found.chained)?;
                let outside = found.names.len();
                if let Some(name) = found.letvars.get(found.hiding.len()).copied() {
                    found.hiding.push(found.names.contains(&name))?;
                    found.names.push(name)?;
                }
                walk_all(body, found)?;
                found.names.truncate(outside);
            }
        }
    }
    Ok(())
}

/// The findings of a walk over a program, in the order of its text.
fn walk<'a>(alloc: Global, program: &Resolved<'a>) -> Result<Found<'a>, AllocError> {
    let globals = program.globals().iter().map(|global| global.name);
    let letvars = program.letvars().iter().map(|entry| entry.name);
    let mut found = Found {
        names: globals.collect(alloc)?,
        letvars: letvars.collect(alloc)?,
        hiding: Vec::new(alloc),
        chained: Vec::new(alloc),
        assigned: Vec::new(alloc),
    };
    walk_all(program.body(), &mut found)?;
    Ok(found)
}

/// Adds a warning at each part whose answer is yes.
fn put(
    found: &mut Vec<Warning>,
    sentence: &'static [u8],
    parts: &[Span],
    answers: &[bool],
) -> Result<(), AllocError> {
    for (part, answer) in parts.iter().zip(answers.iter()) {
        if *answer {
            let span = *part;
            found.push(Warning { sentence, span })?;
        }
    }
    Ok(())
}

/// The parts of the tokens of these kinds.
fn parts_of(alloc: Global, tokens: &[Token<'_>], kinds: &[Kind]) -> Result<Vec<Span>, AllocError> {
    let tokens = tokens.iter().filter(|token| kinds.contains(&token.kind));
    tokens.map(|token| token.span).collect(alloc)
}

/// Adds the warnings about the commands and the letvars of a program.
fn put_program(
    alloc: Global,
    source: &Source<'_>,
    tokens: &[Token<'_>],
    found: &mut Vec<Warning>,
) -> Result<(), AllocError> {
    let program = source.resolved();
    let walked = walk(alloc, program)?;
    let parts = parts_of(alloc, tokens, &[Kind::While])?;
    let unchanged = unchanged_guards(alloc, program)?;
    put(found, UNCHANGED_GUARD, &parts, &unchanged)?;
    let parts = parts_of(alloc, tokens, &[Kind::Equal, Kind::Less])?;
    put(found, CHAINED_COMPARISON, &parts, &walked.chained)?;
    let letvars = program.letvars().iter().map(|entry| entry.span);
    let parts: Vec<Span> = letvars.collect(alloc)?;
    let unread = unread_letvars(alloc, program)?;
    put(found, UNREAD_LETVAR, &parts, &unread)?;
    put(found, HIDING_LETVAR, &parts, &walked.hiding)?;
    // The optimiser keeps the order of the assignments that it doesn't remove.
    let kept = walk(alloc, &optimise(alloc, program)?)?;
    let mut rest = kept.assigned.as_slice();
    for span in &walked.assigned {
        match rest {
            [first, more @ ..] if *first == *span => rest = more,
            _ => found.push(Warning {
                sentence: REMOVED_ASSIGNMENT,
                span: *span,
            })?,
        }
    }
    Ok(())
}

/// The warnings about a text, in the order of the parts to which they point.
///
/// # Errors
///
/// Only if memory runs out.
pub fn warnings_of(alloc: Global, source: &Source<'_>) -> Result<Vec<Warning>, AllocError> {
    let mut found = Vec::new(alloc);
    match lex(alloc, source.text()) {
        Ok(tokens) => {
            put_indented(alloc, source.text(), &tokens, &mut found)?;
            for (number, declaration) in source.globals().iter().enumerate() {
                let Ok(global) = u16::try_from(number) else {
                    continue;
                };
                if is_unused_global(source.resolved(), global) {
                    let (sentence, span) = (UNUSED_GLOBAL, declaration.name.span);
                    found.push(Warning { sentence, span })?;
                }
            }
            put_program(alloc, source, &tokens, &mut found)?;
        }
        Err(LexError::Memory) => return Err(AllocError),
        // The text of a source has tokens.
        Err(_) => {}
    }
    found.sort_by_key(|warning: &Warning| warning.span.start)?;
    Ok(found)
}

/// The warnings about a text, a line `LINE:COLUMN warning: ` and its sentence for each, in the
/// order of `warnings_of`.
///
/// # Errors
///
/// Only if memory runs out.
pub fn warning_lines(alloc: Global, source: &Source<'_>) -> Result<Vec<u8>, AllocError> {
    let text = source.text();
    let mut lines = Vec::new(alloc);
    let (mut at, mut line, mut start) = (0usize, 1usize, 0usize);
    for warning in &warnings_of(alloc, source)? {
        for byte in text.get(at..warning.span.start).unwrap_or(b"") {
            at = at.saturating_add(1);
            if *byte == b'\n' {
                line = line.saturating_add(1);
                start = at;
            }
        }
        let column = warning.span.start.saturating_sub(start).saturating_add(1);
        put_line_column(&mut lines, line, column)?;
        lines.extend_from_slice(b" warning: ")?;
        put_message(&mut lines, text, *warning)?;
        lines.extend_from_slice(b"\n")?;
    }
    Ok(lines)
}
