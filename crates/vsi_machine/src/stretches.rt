//! Stretches of code: their cost, and the facts about words after them.

ghost use Rattle.std.specs.Prelude.{◌≡◌, ◌<◌, ◌≤◌, [], ◌∷◌, IfOk, IfSome, OnOk, Some, length, reverse, ◌+◌, IfErr, slice_get, true};
ghost use Rattle.vsi_machine.specs.{declared.loops.Known.{Known}, Stretch.{Evaluates, Leads, IsTest, Stores}, Transfer.{IsValue, Puts, on_two, put as put_fact}, Values.{Acts, IsOperator, Operates}, Search.{Fails, IsChoice, Passes, Reaches, Stuck}, Stopping.{OnEndless}};

use crate::bound::{Cost, Fault, Stop, Test, exactly, finish, guard_at, sum};
use crate::loops::{Known, applied, entry_of, join};
use std::alloc::Global;
use vsi_image::Instr;
use vsi_syntax::Op;

/// Applies an operator to the two facts on top; the top one is about the right operand.
fn operate(operands: &mut Vec<Known>, op: Op, place: usize) -> Result<(), Fault>
    ensures acts { OnOk result (Operates op operands.old.items operands.new.items) }
    ensures takes { OnOk result
        (on_two op (reverse operands.old.items) ≡ Some (reverse operands.new.items)) }
{
    let Some(right) = operands.pop() else {
        return Err(Fault::Unread(place));
    };
    let Some(left) = operands.pop() else {
        return Err(Fault::Unread(place));
    };
    operands.push(applied(op, left, right))?;
    Ok(())
}

/// Handles one instruction of an expression.
fn put(operands: &mut Vec<Known>, facts: &[Known], instr: Instr, place: usize) -> Result<(), Fault>
    ensures acts { OnOk result (Acts instr facts.now operands.old.items operands.new.items) }
    ensures puts { OnOk result (Puts facts.now operands.old.items instr operands.new.items) }
{
    match instr {
        Instr::Push(n) => {
            operands.push(Known::Number(n))?;
            Ok(())
        }
        Instr::Load(slot) => {
            if slot as usize >= facts.len() {
                return Err(Fault::Unread(place));
            }
            operands.push(facts[slot as usize])?;
            Ok(())
        }
        Instr::Add => operate(operands, Op::Add, place),
        Instr::Sub => operate(operands, Op::Sub, place),
        Instr::Mul => operate(operands, Op::Mul, place),
        Instr::Eq => operate(operands, Op::Eq, place),
        Instr::Lt => operate(operands, Op::Lt, place),
        _ => Err(Fault::Unread(place)),
    }
}

/// Whether an instruction ends an expression.
fn is_end(instr: Instr) -> bool {
    matches!(
        instr,
        Instr::Store(_) | Instr::Jz(_) | Instr::Jmp(_) | Instr::Halt
    )
}

/// The only fact of a list.
fn only(operands: &[Known], place: usize) -> Result<Known, Fault>
    ensures { IfOk result (λ known. operands.now ≡ known ∷ []) }
{
    if operands.len() == 1 {
        Ok(operands[0])
    } else {
        Err(Fault::Unread(place))
    }
}

/// The end of an expression's code, and the fact about its value, if these facts hold at its start.
pub(crate) fn evaluate(
    alloc: Global,
    code: &[Instr],
    facts: &[Known],
    start: usize,
) -> Result<(usize, Known), Fault>
    ensures value { IfOk result (λ r. Evaluates code.now facts.now start r.0 r.1) }
    ensures exact { IfOk result (λ r. IsValue code.now facts.now start r.0 r.1) }
    ensures within { IfOk result (λ r. r.0 < length code.now) }
    ensures after { IfOk result (λ r. start ≤ r.0) }
{
    let mut operands = Vec::new(alloc);
    for place in start..code.len() {
        let instr = code[place];
        if is_end(instr) {
            let value = only(&operands, place)?;
            return Ok((place, value));
        }
        put(&mut operands, facts, instr, place)?;
    }
    Err(Fault::Unread(code.len()))
}

/// Whether the instruction at this position is this one.
pub(crate) fn is_at(code: &[Instr], place: usize, instr: Instr) -> bool
    ensures { result ≡ true → slice_get code.now place ≡ Some instr }
{
    if place >= code.len() {
        return false;
    }
    code[place] == instr
}

/// The test at a position, whose guard begins at the start and which leads to the target.
fn test_at(code: &[Instr], start: usize, place: usize, target: u32) -> Result<Test, Fault>
    requires { start ≤ place }
    ensures test { IfOk result (λ t. IsTest code.now t) }
    ensures start { IfOk result (λ t. t.start ≡ start) }
    ensures place { IfOk result (λ t. t.place ≡ place) }
{
    if !is_at(code, place, Instr::Jz(target)) || target as usize <= place + 1 {
        return Err(Fault::Unread(place));
    }
    let jump = target as usize - 1;
    let Some(Instr::Jmp(end)) = code.get(jump) else {
        return Err(Fault::Unread(place));
    };
    Ok(Test {
        start,
        place,
        target: target as usize,
        jump,
        end: *end as usize,
    })
}

/// Writes the fact about a word to a slot.
fn store(facts: &mut [Known], slot: u16, value: Known, place: usize) -> Result<(), Fault>
    ensures { OnOk result (Stores slot value facts.old facts.new) }
{
    if slot as usize >= facts.len() {
        return Err(Fault::Unread(place));
    }
    facts[slot as usize] = value;
    Ok(())
}

/// The commands from one position to another.
#[cycle(stretches)]
pub(crate) fn stretch(
    alloc: Global,
    code: &[Instr],
    facts: &mut [Known],
    from: usize,
    to: usize,
    room: u16,
) -> Result<Cost, Stop>
    requires { length facts.old ≤ 65535 }
    ensures leads { IfOk result (λ cost. Leads code.now facts.old from to cost facts.new) }
    ensures reaches { OnOk result (Reaches code.now facts.old from to facts.new) }
    ensures stuck { IfErr result (OnEndless (Stuck code.now facts.old from to)) }
{
    let mut place = from;
    let mut cost = exactly(0);
    for _turn in from..to {
        if place >= to {
            break;
        }
        let (next, more) = command(alloc, code, facts, place, room)?;
        place = next;
        cost = sum(cost, more)?;
    }
    if place == to {
        Ok(cost)
    } else {
        Err(Stop::Other(Fault::Unread(to)))
    }
}

/// The command at a position, the position after it, and its cost.
#[cycle(stretches)]
fn command(
    alloc: Global,
    code: &[Instr],
    facts: &mut [Known],
    start: usize,
    room: u16,
) -> Result<(usize, Cost), Stop>
    requires { length facts.old ≤ 65535 }
    ensures leads { IfOk result (λ r. Leads code.now facts.old start r.0 r.1 facts.new) }
    ensures passes { IfOk result (λ r. Passes code.now facts.old start r.0 facts.new) }
    ensures fails { IfErr result (OnEndless (Fails code.now facts.old start)) }
{
    let (place, value) = evaluate(alloc, code, facts, start)?;
    let taken = exactly((place - start + 1) as u64);
    match code[place] {
        Instr::Store(slot) => {
            store(facts, slot, value, place)?;
            Ok((place + 1, taken))
        }
        Instr::Jz(target) => {
            let test = test_at(code, start, place, target)?;
            if room == 0 {
                return Err(Stop::Other(Fault::Unread(place)));
            }
            if test.end == start {
                let rounds = turns(alloc, code, facts, test, room - 1)?;
                return Ok((test.target, rounds));
            }
            let ways = branches(alloc, code, facts, test, room - 1)?;
            let whole = sum(taken, ways)?;
            Ok((test.end, whole))
        }
        _ => Err(Stop::Other(Fault::Unread(place))),
    }
}

/// Both branches of a conditional, after its test.
#[cycle(stretches)]
fn branches(
    alloc: Global,
    code: &[Instr],
    facts: &mut [Known],
    test: Test,
    room: u16,
) -> Result<Cost, Stop>
    requires small { length facts.old ≤ 65535 }
    requires choice { IsChoice code.now facts.old test }
    ensures first { IfOk result
        (λ cost. Leads code.now facts.old (test.place + 1) test.end cost facts.new) }
    ensures second { IfOk result
        (λ cost. Leads code.now facts.old test.target test.end cost facts.new) }
    ensures passes { OnOk result (Passes code.now facts.old test.start test.end facts.new) }
    ensures fails { IfErr result (OnEndless (Fails code.now facts.old test.start)) }
{
    let mut other = facts.to_vec(alloc)?;
    let first = stretch(alloc, code, facts, test.place + 1, test.jump, room)?;
    let more = sum(first, exactly(1))?;
    let second = stretch(alloc, code, &mut other, test.target, test.end, room)?;
    join(facts, &other);
    Ok(Cost {
        least: more.least.min(second.least),
        most: more.most.max(second.most),
    })
}

/// All turns of a loop.
#[cycle(stretches)]
fn turns(
    alloc: Global,
    code: &[Instr],
    facts: &mut [Known],
    test: Test,
    room: u16,
) -> Result<Cost, Stop>
    requires small { length facts.old ≤ 65535 }
    requires test { IsTest code.now test }
    requires back { test.end ≡ test.start }
    ensures leads { IfOk result
        (λ cost. Leads code.now facts.old test.start test.target cost facts.new) }
    ensures passes { OnOk result (Passes code.now facts.old test.start test.target facts.new) }
    ensures fails { IfErr result (OnEndless (Fails code.now facts.old test.start)) }
{
    let entry = entry_of(alloc, facts, &code[test.place + 1..test.jump])?;
    let guard = guard_at(alloc, code, &entry, test)?;
    let mut turned = entry.as_slice().to_vec(alloc)?;
    let body = stretch(alloc, code, &mut turned, test.place + 1, test.jump, room)?;
    let cost = finish(facts, test, &entry, guard, &turned, body)?;
    Ok(cost)
}
