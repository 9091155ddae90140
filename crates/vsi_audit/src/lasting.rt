//! Reads commands back from their code. Each letvar lasts to the end of its branch or body, so the
//! code alone decides how it is read.

ghost use Rattle.std.specs.Prelude.{◌≡◌, ℕ, ◌+◌, ◌-◌, ◌<◌, ◌≤◌, None, Some, true, IfSome, IfOk, IfErr, length, slice_get};
ghost use Rattle.vsi_scope.specs.{Language.{expression_size, letvars}, View.{expression, command, sequence}};
ghost use Rattle.vsi_syntax.specs.declared.tree.Op.{Op as Operator};
ghost use Rattle.vsi_code.specs.Layout.{expression_code};
ghost use Rattle.vsi_audit.specs.{Coding.{StandsAt}, Fitting.{FitsExpression}, Reading.{IsStop, IsValue, Readable, Begins, IsRead, Leaves}, Unread.{AreRead, IsUnread}, Steps.{IsStep}, declared.flow.Unread.TheVariants.{Memory}};
ghost use Rattle.vsi_image.specs.Valid.{IsValid};
ghost use Rattle.vsi_code.specs.Layout as layout;
ghost use Rattle.vsi_audit.specs.Reading as reading;

use crate::builder::{Commands, MAX_DECLARATIONS};
use crate::flow::Unread;
use crate::reading::{Event, Need, Part, span_at};
use std::alloc::{AllocError, Global};
use vsi_image::{Image, Instr};
use vsi_scope::{Cmd, Ex};
use vsi_syntax::Op;

/// The deepest nesting of operators in an expression.
const MAX_ROOM: u16 = 200;

/// What commands may use: the slots below `scope`, letvars with slots below `limit`, and this many
/// further choices and loops around them.
#[derive(Clone, Copy)]
pub(crate) struct Room {
    pub scope: u16,
    pub limit: u16,
    pub blocks: u16,
}

/// The instruction at a place.
fn instr_at(code: &[Instr], place: usize) -> Option<Instr>
    ensures { result ≡ slice_get code.now place }
{
    if place < code.len() {
        Some(code[place])
    } else {
        None
    }
}

/// Whether an instruction makes an operand.
fn is_operand(instr: Option<Instr>) -> bool
    ensures { result ≡ reading.is_operand instr }
{
    let Some(instr) = instr else {
        return false;
    };
    match instr {
        Instr::Push(_) => true,
        Instr::Load(_) => true,
        Instr::Add => true,
        Instr::Sub => true,
        Instr::Mul => true,
        Instr::Eq => true,
        Instr::Lt => true,
        Instr::Store(_) => false,
        Instr::Jz(_) => false,
        Instr::Jmp(_) => false,
        Instr::Halt => false,
    }
}

/// The operator of an instruction.
fn operator_of(instr: Instr) -> Option<Op>
    ensures found { IfSome result (λ o. layout.op_code o ≡ instr) }
    ensures none { (o : Operator) → layout.op_code o ≡ instr → result ≡ Some o }
{
    match instr {
        Instr::Add => Some(Op::Add),
        Instr::Sub => Some(Op::Sub),
        Instr::Mul => Some(Op::Mul),
        Instr::Eq => Some(Op::Eq),
        Instr::Lt => Some(Op::Lt),
        _ => None,
    }
}

/// The place of the instruction that follows the expression at a place.
fn stop_of(code: &[Instr], place: usize) -> usize
    ensures { (stop : ℕ) → IsStop code.now place stop → result ≡ stop }
{
    let mut stop = place;
    while is_operand(instr_at(code, stop)) {
        stop += 1;
    }
    stop
}

/// The expression whose code ends at a place, and where that code begins.
fn value_before(
    alloc: Global,
    code: &[Instr],
    end: usize,
    scope: u16,
    room: u16,
) -> Result<(Ex, usize), Unread>
    ensures stands { IfOk result (λ r. StandsAt code.now (expression_code (expression r.0)) r.1
        (expression_size (expression r.0)) end) }
    ensures fits { IfOk result (λ r. FitsExpression scope room (expression r.0)) }
    ensures read { (start : ℕ) → IsValue code.now scope start end room →
        IfErr result (λ u. u ≡ Memory) }
    ensures start { (start : ℕ) → IsValue code.now scope start end room →
        IfOk result (λ r. r.1 ≡ start) }
{
    let Some(last) = end.checked_sub(1) else {
        return Err(Unread::At(end));
    };
    let Some(instr) = instr_at(code, last) else {
        return Err(Unread::At(last));
    };
    match instr {
        Instr::Push(n) => Ok((Ex::Num(n), last)),
        Instr::Load(slot) => {
            if slot < scope {
                Ok((Ex::Loc(slot, span_at(last)), last))
            } else {
                Err(Unread::At(last))
            }
        }
        _ => {
            let Some(op) = operator_of(instr) else {
                return Err(Unread::At(last));
            };
            if room == 0 {
                return Err(Unread::At(last));
            }
            let (right, middle) = value_before(alloc, code, last, scope, room - 1)?;
            let (left, start) = value_before(alloc, code, middle, scope, room - 1)?;
            let left = Box::new(alloc, left)?;
            let right = Box::new(alloc, right)?;
            Ok((Ex::Op(op, left, right), start))
        }
    }
}

/// The expression whose code begins at a place and ends at another one.
fn value_at(
    alloc: Global,
    code: &[Instr],
    from: usize,
    stop: usize,
    scope: u16,
) -> Result<Ex, Unread>
    ensures stands { IfOk result (λ e. StandsAt code.now (expression_code (expression e)) from
        (expression_size (expression e)) stop) }
    ensures fits { IfOk result (λ e. FitsExpression scope 200 (expression e)) }
    ensures read { IsValue code.now scope from stop 200 → IfErr result (λ u. u ≡ Memory) }
{
    let (value, start) = value_before(alloc, code, stop, scope, MAX_ROOM)?;
    if start == from {
        Ok(value)
    } else {
        Err(Unread::At(from))
    }
}

/// A step of the code after an expression.
#[derive(Clone, Copy)]
pub(crate) enum Step {
    /// A store to a slot in scope.
    Assign(u16),
    /// A store to the next slot.
    Letvar,
    /// A jump on 0 to the place after `jump`, where the code has a jump to `join`.
    Part { jump: usize, join: usize },
    /// No command.
    Stuck,
}

/// The step after an expression, at `stop`.
fn step_of(code: &[Instr], stop: usize, room: Room) -> Step
    ensures { IsStep code.now room.limit stop room.scope room.blocks result }
{
    let Some(instr) = instr_at(code, stop) else {
        return Step::Stuck;
    };
    match instr {
        Instr::Store(slot) => {
            if slot < room.scope {
                return Step::Assign(slot);
            }
            if slot > room.scope {
                return Step::Stuck;
            }
            if room.scope < room.limit {
                Step::Letvar
            } else {
                Step::Stuck
            }
        }
        Instr::Jz(target) => {
            if room.blocks == 0 {
                return Step::Stuck;
            }
            let Some(jump) = (target as usize).checked_sub(1) else {
                return Step::Stuck;
            };
            let Some(Instr::Jmp(join)) = instr_at(code, jump) else {
                return Step::Stuck;
            };
            let join = join as usize;
            Step::Part { jump, join }
        }
        _ => Step::Stuck,
    }
}

/// The commands between two places; `starts` gets the place of the store that begins each letvar.
#[cycle(lasting)]
pub(crate) fn read_all(
    alloc: Global,
    code: &[Instr],
    from: usize,
    to: usize,
    room: Room,
    starts: &mut Vec<usize>,
) -> Result<Vec<Cmd>, Unread>
    requires { room.scope ≤ room.limit }
    ensures read { IfOk result
        (λ b. IsRead code.now room.limit room.scope from to (sequence b.items)) }
    ensures count { IfOk result (λ b. length starts.new.items ≡
        length starts.old.items + letvars (sequence b.items)) }
    ensures found { (n : ℕ) → Readable code.now room.limit from to room.scope room.blocks n →
        IfErr result (λ u. u ≡ Memory) }
    ensures few { (n : ℕ) → Readable code.now room.limit from to room.scope room.blocks n →
        IfOk result (λ b. letvars (sequence b.items) ≤ n) }
{
    let mut body = Vec::new(alloc);
    let mut place = from;
    while place < to {
        let (c, next) = read_one(alloc, code, place, to, room, starts)?;
        body.push(c)?;
        place = next;
    }
    if place == to {
        Ok(body)
    } else {
        Err(Unread::At(place))
    }
}

/// The command at a place, and the place after it.
#[cycle(lasting)]
fn read_one(
    alloc: Global,
    code: &[Instr],
    from: usize,
    to: usize,
    room: Room,
    starts: &mut Vec<usize>,
) -> Result<(Cmd, usize), Unread>
    requires { room.scope ≤ room.limit }
    ensures read { IfOk result
        (λ r. IsRead code.now room.limit room.scope from r.1 (command r.0)) }
    ensures onwards { IfOk result (λ r. from < r.1) }
    ensures count { IfOk result (λ r. length starts.new.items ≡
        length starts.old.items + letvars (command r.0)) }
    ensures found { (n : ℕ) → Begins code.now room.limit from to room.scope room.blocks n →
        IfErr result (λ u. u ≡ Memory) }
    ensures rest { (n : ℕ) → Begins code.now room.limit from to room.scope room.blocks n →
        IfOk result (λ r. Leaves code.now room.limit r.1 to room.scope room.blocks n
        (letvars (command r.0))) }
{
    // The result isn't used; the contract of `len` bounds the places.
    let _length = code.len();
    let stop = stop_of(code, from);
    let value = value_at(alloc, code, from, stop, room.scope)?;
    match step_of(code, stop, room) {
        Step::Assign(loc) => {
            let span = span_at(stop);
            Ok((Cmd::Assign { loc, span, value }, stop + 1))
        }
        Step::Letvar => {
            starts.push(stop)?;
            let inner = Room {
                scope: room.scope + 1,
                ..room
            };
            let body = read_all(alloc, code, stop + 1, to, inner, starts)?;
            Ok((Cmd::Letvar { value, body }, to))
        }
        Step::Part { jump, join } => {
            let inner = Room {
                blocks: room.blocks - 1,
                ..room
            };
            let body = read_all(alloc, code, stop + 1, jump, inner, starts)?;
            if join == from {
                return Ok((Cmd::While { guard: value, body }, jump + 1));
            }
            let (guard, yes) = (value, body);
            let no = read_all(alloc, code, jump + 1, join, inner, starts)?;
            Ok((Cmd::If { guard, yes, no }, join))
        }
        Step::Stuck => Err(Unread::At(stop)),
    }
}

/// The commands of an image's code in which each letvar lasts to the end of its branch or body.
pub(crate) fn lasting_commands(alloc: Global, image: &Image) -> Result<Commands, Unread>
    requires { IsValid image.now }
    ensures read { IfOk result (AreRead image.now) }
    ensures unread { IfErr result (IsUnread image.now) }
{
    let globals = image.globals.len();
    let Some(halt) = image.code.len().checked_sub(1) else {
        return Err(Unread::At(0));
    };
    let Some(Instr::Halt) = instr_at(&image.code, halt) else {
        return Err(Unread::At(halt));
    };
    let scope = globals as u16;
    let room = Room {
        scope,
        limit: scope + 200,
        blocks: 200,
    };
    let mut starts = Vec::new(alloc);
    let body = read_all(alloc, &image.code, 0, halt, room, &mut starts)?;
    if starts.len() > MAX_DECLARATIONS - globals {
        return Err(Unread::At(0));
    }
    Ok(Commands {
        letvars: starts,
        body,
    })
}

/// The needs at the events, in reverse order.
pub(crate) fn needs_of(
    alloc: Global,
    globals: u16,
    events: &[Event],
) -> Result<Vec<Need>, AllocError> {
    let mut needs = Vec::new(alloc);
    // The needs after the parts of the code that enclose the event.
    let mut saved: Vec<u16> = Vec::new(alloc);
    // The number of slots needed after the event.
    let mut after: u16 = 0;
    for place in (0..events.len()).rev() {
        let mut begins = false;
        after = match &events[place] {
            Event::Store { slot, reads, .. } => {
                let above = slot.saturating_add(1);
                // The store begins a `letvar` if its value reads no slot at or above its own, and
                // nothing after it needs an older value of a slot above.
                begins = *slot >= globals && *reads <= *slot && after <= above;
                if begins {
                    *slot
                } else {
                    after.max(*reads).max(above)
                }
            }
            Event::Begin { part, reads, .. } => {
                let behind = saved.pop().unwrap_or(0);
                let other = match part {
                    Part::If => saved.pop().unwrap_or(0),
                    Part::While => 0,
                };
                other.max(behind).max(after).max(*reads)
            }
            Event::Else | Event::End(_) => {
                saved.push(after)?;
                0
            }
        };
        needs.push(Need {
            scope: after,
            begins,
        })?;
    }
    Ok(needs)
}
