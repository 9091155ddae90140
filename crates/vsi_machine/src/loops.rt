//! The facts about words at the turns of a loop, and how many turns it has.

ghost use Rattle.std.specs.Prelude.{◌≡◌, ℤ, List, ◌≢◌, ◌≤◌, ◌⊎◌, [], ◌∷◌, ◌++◌, IfOk, Some, false, length, slice_get, true, ◌<ℤ◌, ◌+ℤ◌, ◌+◌, ◌*◌, ◌^◌, ◌<◌, IfErr, IfNone, IfSome, negsuc, pos, ℕ, Bool};
ghost use Rattle.vsi_syntax.specs.{Operators.{apply, less_of}, declared.tree.Op.TheVariants.{Add, Sub, Lt}};
ghost use Rattle.vsi_machine.specs.{Known.{Means}, Transfer.{fact_of}, Loops.{Enters, IsEntry, Keeps, Remain, Joined}, declared.loops.Known.TheVariants.{Any, Number}, Counters.{Counts}, Reasons.{Uncounted, HasNoCounter}, Looping.{IsCounter, guard_value}};
ghost use Rattle.vsi_image.specs.declared.instr.{Instr.{Instr}, Instr.TheVariants.{Store}};
ghost use Rattle.vsi_machine.specs.declared.loops.Known.TheVariants as spec;
ghost use Rattle.vsi_machine.specs.Looping as looping;

use crate::bound::Reason;
use std::alloc::{AllocError, Global};
use vsi_image::Instr;
use vsi_syntax::Op;

/// A fact about a word, in terms of the slots at an earlier position.
#[derive(Clone, Copy, PartialEq, Eq)]
pub(crate) enum Known {
    /// It is this number.
    Number(i64),
    /// It is the word that this slot had.
    Same(u16),
    /// It is the sum of that word and this number.
    Moved(u16, i64),
    /// It is 1 if the word that this slot had is below this number, and 0 otherwise.
    Below(u16, i64),
    /// It is 1 if that word is above this number, and 0 otherwise.
    Above(u16, i64),
    /// Nothing is known.
    Any,
}

/// The fact about the result of an operator.
pub(crate) fn applied(op: Op, left: Known, right: Known) -> Known
    ensures means { (m : List ℤ) (a b : ℤ) → Means m left a → Means m right b
        → Means m result (apply op a b) }
    ensures exact { result ≡ fact_of op left right }
{
    match op {
        Op::Add => match (left, right) {
            (Known::Same(slot), Known::Number(n)) => Known::Moved(slot, n),
            (Known::Number(n), Known::Same(slot)) => Known::Moved(slot, n),
            _ => Known::Any,
        },
        Op::Sub => match (left, right) {
            (Known::Same(slot), Known::Number(n)) if n != i64::MIN => Known::Moved(slot, -n),
            _ => Known::Any,
        },
        Op::Lt => match (left, right) {
            (Known::Same(slot), Known::Number(n)) => Known::Below(slot, n),
            (Known::Number(n), Known::Same(slot)) => Known::Above(slot, n),
            _ => Known::Any,
        },
        Op::Mul | Op::Eq => Known::Any,
    }
}

/// A number, or that the slot's word is the one for comparison.
fn number_or_same(known: Known, slot: u16) -> Known
    ensures { (facts : List Known) → slice_get facts slot ≡ Some known
        → Enters [] facts slot result }
{
    match known {
        Known::Number(n) => Known::Number(n),
        _ => Known::Same(slot),
    }
}

/// Keeps the numbers; the fact about each other slot is that it has its own word.
fn compare_with(entry: &mut [Known])
    requires { length entry.old ≤ 65535 }
    ensures { IsEntry [] entry.old entry.new }
{
    for slot in 0..entry.len() {
        entry[slot] = number_or_same(entry[slot], slot as u16);
    }
}

/// Forgets the number of the slot that one more instruction stores into, if it does.
fn forget_by(entry: &mut [Known], instr: Instr)
    ensures { (body : List Instr) (facts : List Known) → IsEntry body facts entry.old
        → IsEntry (body ++ instr ∷ []) facts entry.new }
{
    if let Instr::Store(slot) = instr {
        if (slot as usize) < entry.len() {
            entry[slot as usize] = Known::Same(slot);
        }
    }
}

/// Forgets the numbers of slots that the code stores into.
fn forget_stored(entry: &mut [Known], code: &[Instr])
    ensures { (facts : List Known) → IsEntry [] facts entry.old
        → IsEntry code.now facts entry.new }
{
    for instr in code {
        forget_by(entry, *instr);
    }
}

/// The facts at the start of each turn of a loop with this body, if these facts hold before it.
pub(crate) fn entry_of(
    alloc: Global,
    facts: &[Known],
    body: &[Instr],
) -> Result<Vec<Known>, AllocError>
    requires { length facts.now ≤ 65535 }
    ensures { IfOk result (λ entry. IsEntry body.now facts.now entry.items) }
{
    let mut entry = facts.to_vec(alloc)?;
    compare_with(&mut entry);
    forget_stored(&mut entry, body);
    Ok(entry)
}

/// Whether a turn keeps the number of a slot, if it has one.
fn is_kept(entry: Known, turned: Known) -> bool
    ensures kept { result ≡ true → (n : ℤ) → entry ≡ Number n → turned ≡ Number n }
    ensures changed { result ≡ false → (n : ℤ) × (entry ≡ Number n) × (turned ≢ Number n) }
{
    match entry {
        Known::Number(_) => turned == entry,
        _ => true,
    }
}

/// Whether a turn keeps each number.
pub(crate) fn keeps(entry: &[Known], turned: &[Known]) -> bool
    requires { length turned.now ≡ length entry.now }
    ensures kept { result ≡ true → Keeps entry.now turned.now }
    ensures changed { result ≡ false → Keeps entry.now turned.now → ⊥ }
{
    for slot in 0..entry.len() {
        if !is_kept(entry[slot], turned[slot]) {
            return false;
        }
    }
    true
}

/// Whether two facts are the same.
fn are_same(first: Known, second: Known) -> bool
    ensures same { result ≡ true → first ≡ second }
    ensures other { result ≡ false → first ≢ second }
{
    first == second
}

/// The fact about a slot after a loop: the last word for the loop's variable, the fact from before
/// the loop for a slot that no turn changes, and nothing for any other.
fn left(before: Known, is_same: bool, k: usize, slot: u16, last: i64) -> Known
    ensures { ((k ≡ slot) × (result ≡ Number last))
        ⊎ (((k ≢ slot) × (is_same ≡ true) × (result ≡ before))
        ⊎ ((k ≢ slot) × (is_same ≡ false) × (result ≡ Any))) }
{
    if k == slot as usize {
        Known::Number(last)
    } else if is_same {
        before
    } else {
        Known::Any
    }
}

/// Leaves the facts that hold after a loop whose variable has this last word.
pub(crate) fn leave(facts: &mut [Known], entry: &[Known], turned: &[Known], slot: u16, last: i64)
    requires entry { length entry.now ≡ length facts.old }
    requires turned { length turned.now ≡ length facts.old }
    ensures { Remain facts.old entry.now turned.now slot last facts.new }
{
    for k in 0..facts.len() {
        let is_same = are_same(entry[k], turned[k]);
        facts[k] = left(facts[k], is_same, k, slot, last);
    }
}

/// The fact about a word after either of two branches.
fn met(first: Known, second: Known) -> Known
    ensures { ((result ≡ first) × (result ≡ second)) ⊎ ((result ≡ Any) × (first ≢ second)) }
{
    if first == second { first } else { Known::Any }
}

/// Updates the facts to those that hold after both branches.
pub(crate) fn join(facts: &mut [Known], other: &[Known])
    requires { length other.now ≡ length facts.old }
    ensures { Joined facts.old other.now facts.new }
{
    for slot in 0..facts.len() {
        facts[slot] = met(facts[slot], other[slot]);
    }
}

/// The number of turns of a loop, and the word of its variable after them.
#[derive(Clone, Copy)]
pub(crate) struct Turns {
    pub turns: u64,
    pub last: i64,
}

/// The fewest turns whose steps of this size cover the gap, and the distance that they cover.
fn cover(gap: u64, size: u64) -> (u64, u128)
    requires some { 0 < gap }
    requires moves { 0 < size }
    ensures way { result.1 ≡ result.0 * size }
    ensures enough { gap ≤ result.1 }
    ensures fewest { result.1 < gap + size }
    ensures some { 0 < result.0 }
    ensures small { result.1 < 2 ^ 65 }
{
    let turns = (gap - 1) / size + 1;
    (turns, turns as u128 * size as u128)
}

/// The turns of a loop whose variable goes up to a limit.
pub(crate) fn turns_up(start: i64, step: i64, limit: i64) -> Result<Turns, Reason>
    ensures counts { IfOk result
        (λ t. Counts (λ now. less_of now limit) step t.turns start t.last) }
    ensures fails { IfErr result (λ reason. Uncounted reason true limit step start) }
{
    if start >= limit {
        return Ok(Turns {
            turns: 0,
            last: start,
        });
    }
    if step <= 0 {
        return Err(Reason::Step);
    }
    let gap = (limit as i128 - start as i128) as u64;
    let (turns, way) = cover(gap, step as u64);
    let last = start as i128 + way as i128;
    if last > i64::MAX as i128 {
        return Err(Reason::Wraps);
    }
    Ok(Turns {
        turns,
        last: last as i64,
    })
}

/// The word at this distance below a start, unless it is below the least word.
fn lowered(start: i64, way: u128) -> Option<i64>
    requires { way < 2 ^ 65 }
    ensures some { IfSome result (λ last. last +ℤ pos way ≡ start) }
    ensures none { IfNone result (start <ℤ (negsuc 9223372036854775807 +ℤ pos way)) }
{
    let last = start as i128 - way as i128;
    if last < i64::MIN as i128 {
        return None;
    }
    Some(last as i64)
}

/// The turns of a loop whose variable goes down to a limit.
pub(crate) fn turns_down(start: i64, step: i64, limit: i64) -> Result<Turns, Reason>
    ensures counts { IfOk result
        (λ t. Counts (λ now. less_of limit now) step t.turns start t.last) }
    ensures fails { IfErr result (λ reason. Uncounted reason false limit step start) }
{
    if start <= limit {
        return Ok(Turns {
            turns: 0,
            last: start,
        });
    }
    if step >= 0 {
        return Err(Reason::Step);
    }
    let gap = (start as i128 - limit as i128) as u64;
    let (turns, way) = cover(gap, (0 - step as i128) as u64);
    match lowered(start, way) {
        Some(last) => Ok(Turns { turns, last }),
        None => Err(Reason::Wraps),
    }
}

/// The variable of a loop, its turns, and its word after them.
#[derive(Clone, Copy)]
pub(crate) struct Counter {
    pub slot: u16,
    pub turns: u64,
    pub last: i64,
}

/// The number that a slot has.
fn number_at(facts: &[Known], slot: u16) -> Option<i64>
    ensures some { IfSome result (λ n. slice_get facts.now slot ≡ Some (spec.Number n)) }
    ensures none { IfNone result ((n : ℤ) → slice_get facts.now slot ≢ Some (spec.Number n)) }
{
    if slot as usize >= facts.len() {
        return None;
    }
    match facts[slot as usize] {
        Known::Number(n) => Some(n),
        _ => None,
    }
}

/// The number that a turn adds to a slot.
fn step_at(turned: &[Known], slot: u16) -> Option<i64>
    ensures some { IfSome result (λ d. slice_get turned.now slot ≡ Some (spec.Moved slot d)) }
    ensures none { IfNone result
        ((d : ℤ) → slice_get turned.now slot ≢ Some (spec.Moved slot d)) }
{
    if slot as usize >= turned.len() {
        return None;
    }
    match turned[slot as usize] {
        Known::Moved(from, d) => { if from == slot { Some(d) } else { None } }
        _ => None,
    }
}

/// The turns of a loop that goes up or down to a limit, or the reason why there are none.
fn counted(start: i64, step: i64, limit: i64, up: bool) -> Result<Turns, Reason>
    ensures counts { IfOk result
        (λ t. Counts (guard_value up limit) step t.turns start t.last) }
    ensures fails { IfErr result (λ reason. Uncounted reason up limit step start) }
{
    if up {
        turns_up(start, step, limit)
    } else {
        turns_down(start, step, limit)
    }
}

/// The slot, the limit and the direction of a guard.
fn guard_of(guard: Known) -> Option<(u16, i64, bool)>
    ensures some { IfSome result (λ g. guard ≡ looping.guard_of g.2 g.0 g.1) }
    ensures none { IfNone result ((up : Bool) (slot : ℕ) (limit : ℤ)
        → guard ≢ looping.guard_of up slot limit) }
{
    match guard {
        Known::Below(slot, limit) => Some((slot, limit, true)),
        Known::Above(slot, limit) => Some((slot, limit, false)),
        _ => None,
    }
}

/// The variable by which a loop counts, from the facts before the loop, the fact about its guard,
/// and the facts after each turn.
pub(crate) fn counter_of(facts: &[Known], guard: Known, turned: &[Known]) -> Result<Counter, Reason>
    ensures counter { IfOk result
        (λ c. IsCounter facts.now guard turned.now c.slot c.turns c.last) }
    ensures none { IfErr result (λ reason. HasNoCounter reason facts.now guard turned.now) }
{
    let Some((slot, limit, up)) = guard_of(guard) else {
        return Err(Reason::Guard);
    };
    let Some(start) = number_at(facts, slot) else {
        return Err(Reason::Start);
    };
    let Some(step) = step_at(turned, slot) else {
        return Err(Reason::Step);
    };
    let turns = counted(start, step, limit, up)?;
    Ok(Counter {
        slot,
        turns: turns.turns,
        last: turns.last,
    })
}
