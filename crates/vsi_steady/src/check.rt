//! The judgement of an image: the least classes of slots, and the first instruction that fails.

ghost use Rattle.std.specs.{Prelude.{◌≡◌, ◌≤◌, ◌<◌, None, false, true, [], length, reverse, take, ℕ, IfOk, IfErr, ◌+◌, ◌-◌, ◌∷◌, OnOk}, List.{All}};
ghost use Rattle.vsi_steady.specs.{declared.check.SteadyError.TheVariants.{Memory}, Least.{AreLeast, FindsRaised, RisesBy, Finds, Joins, Leads}, Steady.{GoesThrough, HaveClasses, IsSteady, Operates, Passes}, Refusal.{Refuses}, Laws.{RunsAlike, ViewsAlike}};
ghost use Rattle.vsi_image.specs.{Valid.{IsFine, IsValid}, Effects.{left}};
ghost use Rattle.vsi_infer.specs.Ranks.{distance};
ghost use Rattle.vsi_lattice.specs.{LatticeView.{class_named, order}, Order.{IsClass, Below, IsJoin}};

use std::alloc::{AllocError, AllocFailed, Global};
use thiserror::Error;
use vsi_image::{Image, Instr, Verified};
use vsi_lattice::{Class, Classes, Lattice};

/// The reason why an image isn't steady.
#[derive(Clone, Copy, PartialEq, Eq, Debug, Drop, Error)]
pub enum SteadyError {
    /// The lattice has no class with this global's class name; globals are numbered from 0, and
    /// this is the first such global.
    #[error("the class of global {0} is not in the lattice")]
    UnknownClass(usize),
    /// The instruction with this number brings something above the bottom class into a jump, or
    /// brings something into a global whose class it isn't at or below.
    #[error("instruction {0} brings something into a jump or a global where it may not flow")]
    Flow(usize),
    #[error("out of memory")]
    Memory,
}

impl From<AllocError> for SteadyError {
    ghost from_gives = { λ _ e. e ≡ Memory };

    fn from(_error: AllocError) -> SteadyError {
        SteadyError::Memory
    }
}

impl<T: Drop> From<AllocFailed<T>> for SteadyError {
    ghost from_gives = { λ _ e. e ≡ Memory };

    fn from(_error: AllocFailed<T>) -> SteadyError {
        SteadyError::Memory
    }
}

/// Raises the class of a STORE's slot above the globals by the class of the stored word, and says
/// whether it changed.
fn raise_by(
    lattice: &Lattice,
    image: &Image,
    classes: &mut [Class],
    instr: Instr,
    held: &Held,
    depth: usize,
) -> bool
    requires fine { IsFine image.now instr depth }
    requires within { depth ≤ CAPACITY }
    requires classes { HaveClasses (class_named lattice.now) (order lattice.now) image.now
        classes.old }
    requires held { All (IsClass (order lattice.now)) held.now }
    ensures classes { HaveClasses (class_named lattice.now) (order lattice.now) image.now
        classes.new }
    ensures found { FindsRaised (order lattice.now) (length image.now.globals.items) classes.new
        instr (reverse (take depth held.now)) }
    ensures same { result ≡ false → classes.new ≡ classes.old }
    ensures risen { result ≡ true
        → RisesBy (order lattice.now) classes.old instr (reverse (take depth held.now))
        classes.new }
{
    let Instr::Store(slot) = instr else {
        return false;
    };
    let slot = slot as usize;
    let class = top(lattice, held, depth);
    if slot < image.globals.len() {
        return false;
    }
    if lattice.leq(class, classes[slot]) {
        return false;
    }
    classes[slot] = joined(lattice, classes[slot], class);
    true
}

/// The first instruction up to this one that didn't find the classes that it requires.
fn noted(flow: Option<usize>, place: usize, is_met: bool) -> Option<usize>
    ensures met { is_met ≡ true → result ≡ flow }
    ensures all { result ≡ None → (is_met ≡ true) × (flow ≡ None) }
{
    if is_met {
        return flow;
    }
    match flow {
        Some(first) => Some(first),
        None => Some(place),
    }
}

/// The result of a sweep: whether the class of a slot has risen, and the first instruction that
/// didn't find the classes that it requires.
#[derive(Clone, Copy)]
struct Swept {
    has_risen: bool,
    flow: Option<usize>,
}

/// Raises the classes of the slots above the globals by the classes of the words stored in them,
/// once over the code.
fn sweep(lattice: &Lattice, image: &Image, classes: &mut [Class]) -> Swept
    requires valid { IsValid image.now }
    requires classes { HaveClasses (class_named lattice.now) (order lattice.now) image.now
        classes.old }
    requires least { AreLeast (class_named lattice.now) (order lattice.now) image.now classes.old }
    ensures classes { HaveClasses (class_named lattice.now) (order lattice.now) image.now
        classes.new }
    ensures least { AreLeast (class_named lattice.now) (order lattice.now) image.now classes.new }
    ensures through { result.has_risen ≡ false → result.flow ≡ None
        → GoesThrough (order lattice.now) classes.new image.now.code.items [] }
    ensures flow { IsSteady (class_named lattice.now) (order lattice.now) image.now
        → result.flow ≡ None }
    ensures nearer { result.has_risen ≡ true
        → distance (order lattice.now).leq (order lattice.now).count classes.new
        < distance (order lattice.now).leq (order lattice.now).count classes.old }
{
    let mut held: Held = [lattice.bottom(); CAPACITY];
    let mut depth = 0;
    let mut has_risen = false;
    let mut flow: Option<usize> = None;
    for (pc, instr) in image.code.iter().enumerate() {
        let is_raised = raise_by(lattice, image, classes, *instr, &held, depth);
        has_risen = has_risen | is_raised;
        let after = pass(lattice, image, classes, *instr, &mut held, depth);
        flow = noted(flow, pc, after.is_met);
        depth = after.depth;
    }
    Swept { has_risen, flow }
}

/// Raises the classes of the slots above the globals until nothing changes, and returns the first
/// instruction that then doesn't find the classes that it requires. A class reaches a slot through
/// at most as many STOREs as there are such slots, so there is at most one sweep more than slots.
pub(crate) fn settle(lattice: &Lattice, image: &Image, classes: &mut [Class]) -> Option<usize>
    requires valid { IsValid image.now }
    requires classes { HaveClasses (class_named lattice.now) (order lattice.now) image.now
        classes.old }
    requires least { AreLeast (class_named lattice.now) (order lattice.now) image.now classes.old }
    ensures classes { HaveClasses (class_named lattice.now) (order lattice.now) image.now
        classes.new }
    ensures through { result ≡ None
        → GoesThrough (order lattice.now) classes.new image.now.code.items [] }
    ensures flow { IsSteady (class_named lattice.now) (order lattice.now) image.now
        → result ≡ None }
{
    loop {
        let swept = sweep(lattice, image, classes);
        if !swept.has_risen {
            return swept.flow;
        }
    }
}

/// The classes of the globals by their class names, and the bottom class for each other slot.
pub(crate) fn first_classes(
    alloc: Global,
    lattice: &Lattice,
    image: &Image,
) -> Result<Vec<Class>, SteadyError>
    requires { IsValid image.now }
    ensures classes { IfOk result
        (λ cs. HaveClasses (class_named lattice.now) (order lattice.now) image.now cs.items) }
    ensures least { IfOk result
        (λ cs. AreLeast (class_named lattice.now) (order lattice.now) image.now cs.items) }
    ensures refused { IfErr result (Refuses (class_named lattice.now) (order lattice.now)
        image.now) }
{
    let globals = image.globals.as_slice();
    let mut classes = Vec::new(alloc);
    for (i, global) in globals.iter().enumerate() {
        match lattice.class_named(global.1.as_slice()) {
            Some(class) => classes.push(class)?,
            None => return Err(SteadyError::UnknownClass(i)),
        }
    }
    classes.resize(image.slots as usize, lattice.bottom())?;
    Ok(classes)
}

/// The least class at or above both.
pub(crate) fn joined(lattice: &Lattice, a: Class, b: Class) -> Class
    requires first { IsClass (order lattice.now) a }
    requires second { IsClass (order lattice.now) b }
    ensures class { IsClass (order lattice.now) result }
    ensures first { Below (order lattice.now) a result }
    ensures second { Below (order lattice.now) b result }
    ensures join { IsJoin (order lattice.now).count (Below (order lattice.now)) a b result }
{
    if lattice.leq(a, b) {
        return b;
    }
    lattice.join(a, b)
}

/// The largest number of operands of a verified image.
pub(crate) const CAPACITY: usize = 256;

/// The classes of the operands, with the top one last; entries above the depth have no meaning.
pub(crate) type Held = [Class; CAPACITY];

/// The class of the top operand.
#[inline(always)]
pub(crate) fn top(lattice: &Lattice, held: &Held, depth: usize) -> Class
    requires some { 0 < depth }
    requires within { depth ≤ CAPACITY }
    requires held { All (IsClass (order lattice.now)) held.now }
    ensures top { reverse (take depth held.now) ≡ result ∷ reverse (take (depth - 1) held.now) }
    ensures class { IsClass (order lattice.now) result }
{
    // The contract of `bottom` says that it is a class, and the proofs need that.
    let _bottom = lattice.bottom();
    held[depth - 1]
}

/// Writes a class above the operands.
#[inline(always)]
fn put(lattice: &Lattice, held: &mut Held, depth: usize, class: Class)
    requires room { depth < CAPACITY }
    requires class { IsClass (order lattice.now) class }
    requires held { All (IsClass (order lattice.now)) held.old }
    ensures top { reverse (take (depth + 1) held.new) ≡ class ∷ reverse (take depth held.old) }
    ensures held { All (IsClass (order lattice.now)) held.new }
{
    // The contract of `bottom` says that it is a class, and the proofs need that.
    let _bottom = lattice.bottom();
    held[depth] = class;
}

/// Replaces the classes of two operands by one above both.
fn operate(lattice: &Lattice, held: &mut Held, depth: usize)
    requires operands { 2 ≤ depth }
    requires within { depth ≤ CAPACITY }
    requires held { All (IsClass (order lattice.now)) held.old }
    ensures operates { Operates (order lattice.now) (reverse (take depth held.old))
        (reverse (take (depth - 1) held.new)) }
    ensures joins { Joins (order lattice.now) (reverse (take depth held.old))
        (reverse (take (depth - 1) held.new)) }
    ensures held { All (IsClass (order lattice.now)) held.new }
{
    let class = joined(
        lattice,
        top(lattice, held, depth - 1),
        top(lattice, held, depth),
    );
    put(lattice, held, depth - 2, class);
}

/// The result of an instruction: the number of operands, and whether it found the classes that it
/// requires.
#[derive(Clone, Copy)]
pub(crate) struct Shift {
    pub(crate) depth: usize,
    pub(crate) is_met: bool,
}

/// The operands that an instruction leaves. A STORE requires one of a class at or below that of its
/// slot, and a JZ one of the bottom class.
pub(crate) fn pass(
    lattice: &Lattice,
    image: &Image,
    classes: &[Class],
    instr: Instr,
    held: &mut Held,
    depth: usize,
) -> Shift
    requires fine { IsFine image.now instr depth }
    requires room { image.now.stack ≤ CAPACITY }
    requires within { depth ≤ CAPACITY }
    requires classes { HaveClasses (class_named lattice.now) (order lattice.now) image.now
        classes.now }
    requires held { All (IsClass (order lattice.now)) held.old }
    ensures passes { result.is_met ≡ true
        → Passes (order lattice.now) classes.now instr (reverse (take depth held.old))
        (reverse (take result.depth held.new)) }
    ensures leads { Leads (order lattice.now) classes.now instr (reverse (take depth held.old))
        (reverse (take result.depth held.new)) }
    ensures found { Finds (order lattice.now) classes.now instr (reverse (take depth held.old))
        → result.is_met ≡ true }
    ensures depth { result.depth ≡ left instr depth }
    ensures held { All (IsClass (order lattice.now)) held.new }
{
    let mut is_met = true;
    let after = match instr {
        Instr::Push(_) => {
            put(lattice, held, depth, lattice.bottom());
            depth + 1
        }
        Instr::Load(slot) => {
            put(lattice, held, depth, classes[slot as usize]);
            depth + 1
        }
        Instr::Store(slot) => {
            is_met = lattice.leq(top(lattice, held, depth), classes[slot as usize]);
            depth - 1
        }
        Instr::Jz(_) => {
            is_met = top(lattice, held, depth) == lattice.bottom();
            depth - 1
        }
        Instr::Jmp(_) => depth,
        Instr::Halt => depth,
        _ => {
            operate(lattice, held, depth);
            depth - 1
        }
    };
    Shift {
        depth: after,
        is_met,
    }
}

/// Judges an image by the policy that its class names give; the image is accepted exactly if it is
/// steady. Then nothing above a class shows in the number of instructions, in the writes or at the
/// end.
///
/// # Errors
///
/// `UnknownClass` first, then `Flow` with the first instruction that requires lower classes than
/// there are. `Memory` can replace any answer.
pub fn steady_in(alloc: Global, lattice: &Lattice, image: &Verified) -> Result<(), SteadyError>
    ensures steady { OnOk result
        (IsSteady (class_named lattice.now) (order lattice.now) image.now) }
    ensures alike { OnOk result
        (RunsAlike (class_named lattice.now) (order lattice.now) image.now) }
    ensures views { OnOk result
        (ViewsAlike (class_named lattice.now) (order lattice.now) image.now) }
    ensures refused { IfErr result
        (Refuses (class_named lattice.now) (order lattice.now) image.now) }
    ensures exact { IsSteady (class_named lattice.now) (order lattice.now) image.now
        → IfErr result (λ e. e ≡ Memory) }
{
    let image = image.image();
    let mut classes = first_classes(alloc, lattice, image)?;
    match settle(lattice, image, &mut classes) {
        None => Ok(()),
        Some(place) => Err(SteadyError::Flow(place)),
    }
}
