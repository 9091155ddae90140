//! The commands of code as a list of events: where each begins and ends.

use crate::flow::Unread;
use std::alloc::Global;
use vsi_image::Instr;
use vsi_scope::Ex;
use vsi_syntax::{MAX_DEPTH, Op, Span};

/// A command that contains commands and ends after them.
#[derive(Clone, Copy, PartialEq, Eq)]
pub(crate) enum Part {
    If,
    While,
}

/// An event in the order of the code. `place` is the number of the instruction that ends the
/// expression, and `reads` is the number of slots that must exist to evaluate it.
#[derive(Drop)]
pub(crate) enum Event {
    /// The value is stored in the slot.
    Store {
        slot: u16,
        place: usize,
        reads: u16,
        value: Ex,
    },
    /// A conditional with its first branch, or a loop, begins.
    Begin {
        part: Part,
        place: usize,
        reads: u16,
        guard: Ex,
    },
    /// The second branch of a conditional begins.
    Else,
    /// A conditional or a loop ends.
    End(Part),
}

/// The facts about the slots at an event.
#[derive(Clone, Copy)]
pub(crate) struct Need {
    /// The number of slots that must be in scope at the event, so that everything after it in the
    /// same sequence finds its slots.
    pub scope: u16,
    /// Whether a store begins a `letvar` if its slot is above all slots in scope.
    pub begins: bool,
}

/// An operand that the code has made, with its levels.
#[derive(Drop)]
struct Operand {
    value: Ex,
    depth: u16,
}

/// A part of the code that has begun but not ended.
#[derive(Clone, Copy)]
enum Region {
    /// A first branch; the jump at `jump` to `end` ends it.
    Yes { jump: usize, end: usize },
    /// A second branch; it ends before `end`.
    No { end: usize },
    /// The body of a loop; the jump at `jump` ends it.
    Body { jump: usize },
}

/// A reader of code.
#[derive(Drop)]
struct Reader {
    events: Vec<Event>,
    operands: Vec<Operand>,
    regions: Vec<Region>,
    /// The start of the expression whose operands are on the stack.
    start: usize,
    /// The number of slots that must exist to evaluate that expression.
    reads: u16,
}

/// The events of a code.
///
/// # Errors
///
/// `At` with the number of the first instruction that doesn't belong to commands.
pub(crate) fn events_of(alloc: Global, code: &[Instr]) -> Result<Vec<Event>, Unread> {
    let mut reader = Reader {
        events: Vec::new(alloc),
        operands: Vec::new(alloc),
        regions: Vec::new(alloc),
        start: 0,
        reads: 0,
    };
    // The place of the first HALT, or the number of instructions.
    let first = code.iter().position(|instr| matches!(instr, Instr::Halt));
    let halt = first.unwrap_or(code.len());
    for place in 0..halt {
        end_branches(&mut reader, place)?;
        put_instruction(&mut reader, alloc, code, place)?;
    }
    end_branches(&mut reader, halt)?;
    let Reader {
        events,
        operands,
        regions,
        ..
    } = reader;
    // The code ends where it halts, with nothing open.
    if operands.is_empty() && regions.is_empty() && halt.saturating_add(1) == code.len() {
        Ok(events)
    } else {
        Err(Unread::At(halt))
    }
}

/// Reads one more instruction.
fn put_instruction(
    reader: &mut Reader,
    alloc: Global,
    code: &[Instr],
    place: usize,
) -> Result<(), Unread> {
    let Some(instr) = code.get(place) else {
        return Err(Unread::At(place));
    };
    match instr {
        Instr::Push(n) => put_operand(reader, place, Ex::Num(*n), 0),
        Instr::Load(slot) => {
            reader.reads = reader.reads.max(slot.saturating_add(1));
            put_operand(reader, place, Ex::Loc(*slot, span_at(place)), 0)
        }
        Instr::Add => put_operator(reader, alloc, place, Op::Add),
        Instr::Sub => put_operator(reader, alloc, place, Op::Sub),
        Instr::Mul => put_operator(reader, alloc, place, Op::Mul),
        Instr::Eq => put_operator(reader, alloc, place, Op::Eq),
        Instr::Lt => put_operator(reader, alloc, place, Op::Lt),
        Instr::Store(slot) => {
            let slot = *slot;
            let (value, reads) = only_operand(reader, place)?;
            reader.events.push(Event::Store {
                slot,
                place,
                reads,
                value,
            })?;
            Ok(())
        }
        Instr::Jz(target) => begin_region(reader, code, place, *target as usize),
        Instr::Jmp(_) => end_region(reader, place),
        Instr::Halt => Err(Unread::At(place)),
    }
}

/// The place of an instruction, as a span.
pub(crate) fn span_at(place: usize) -> Span {
    Span {
        start: place,
        stop: place,
    }
}

/// Ends the second branches that end before this place.
fn end_branches(reader: &mut Reader, place: usize) -> Result<(), Unread> {
    for _ in 0..reader.regions.len() {
        match reader.regions.last() {
            Some(Region::No { end }) if *end == place => {}
            _ => return Ok(()),
        }
        let _ended = reader.regions.pop();
        reader.events.push(Event::End(Part::If))?;
    }
    Ok(())
}

/// Adds an operand.
fn put_operand(reader: &mut Reader, place: usize, value: Ex, depth: u16) -> Result<(), Unread> {
    if reader.operands.is_empty() {
        reader.start = place;
    }
    if depth > MAX_DEPTH as u16 {
        return Err(Unread::At(place));
    }
    reader.operands.push(Operand { value, depth })?;
    Ok(())
}

/// Applies an operator to the two operands on top.
fn put_operator(reader: &mut Reader, alloc: Global, place: usize, op: Op) -> Result<(), Unread> {
    let start = reader.start;
    let right = reader.operands.pop().ok_or(Unread::At(place))?;
    let left = reader.operands.pop().ok_or(Unread::At(place))?;
    let depth = left.depth.max(right.depth).saturating_add(1);
    let left = Box::new(alloc, left.value)?;
    let right = Box::new(alloc, right.value)?;
    put_operand(reader, place, Ex::Op(op, left, right), depth)?;
    reader.start = start;
    Ok(())
}

/// The only operand, and the number of slots that it reads.
fn only_operand(reader: &mut Reader, place: usize) -> Result<(Ex, u16), Unread> {
    if reader.operands.len() > 1 {
        return Err(Unread::At(place));
    }
    let operand = reader.operands.pop().ok_or(Unread::At(place))?;
    let reads = reader.reads;
    reader.reads = 0;
    Ok((operand.value, reads))
}

/// Reads a jump on 0, which begins a part of the code. The jump before its target leads back to the
/// start of the guard of a loop, or ahead to the end of a conditional.
fn begin_region(
    reader: &mut Reader,
    code: &[Instr],
    place: usize,
    target: usize,
) -> Result<(), Unread> {
    let (guard, reads) = only_operand(reader, place)?;
    let jump = target.saturating_sub(1);
    let end = match code.get(jump) {
        Some(Instr::Jmp(end)) if jump > place => *end as usize,
        _ => return Err(Unread::At(place)),
    };
    if end != reader.start && end < target {
        return Err(Unread::At(jump));
    }
    let (part, region) = if end == reader.start {
        (Part::While, Region::Body { jump })
    } else {
        (Part::If, Region::Yes { jump, end })
    };
    reader.regions.push(region)?;
    reader.events.push(Event::Begin {
        part,
        place,
        reads,
        guard,
    })?;
    Ok(())
}

/// Reads a jump, which ends the innermost part of the code. Its target is checked by the jump on 0
/// that began the part and by the comparison of the whole code.
fn end_region(reader: &mut Reader, place: usize) -> Result<(), Unread> {
    let (jump, event) = match reader.regions.pop() {
        Some(Region::Yes { jump, end }) => {
            reader.regions.push(Region::No { end })?;
            (jump, Event::Else)
        }
        Some(Region::Body { jump }) => (jump, Event::End(Part::While)),
        _ => return Err(Unread::At(place)),
    };
    if jump != place {
        return Err(Unread::At(place));
    }
    reader.events.push(event)?;
    Ok(())
}
