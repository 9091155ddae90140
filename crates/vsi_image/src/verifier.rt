//! The verifier, which allocates no memory: it passes once over the code with a row of bits.

ghost use Rattle.std.specs.{Prelude.{◌≡◌, ◌≢◌, ℕ, ◌<◌, ◌*◌, length, true, false, ◌↔◌, ◌≤◌, ◌-◌, IfOk, IfErr, IsOk, Some, IsNone, slice_get}, Option.{option_map_or}};
ghost use Rattle.vsi_image.specs.{Marks.{marked, AreMarked, MarkDepths}, Effects.{goes_off, target_of}, Valid.{IsValid}, Fields.{max_operands, max_instructions}};
ghost use Rattle.vsi_image.specs.Faults as spec;

use crate::encoder::{Limit, limit_of};
use crate::instr::{
    Image, Instr, depth_after, gives, goes_off, leaves_none, slot_of, takes, target_of,
};
use std::marker::Model;
use thiserror::Error;

/// The number of words in the row.
pub(crate) const WORDS: usize = 1024;

/// A row with no bit set.
pub(crate) fn blank() -> [u64; WORDS]
    ensures { (k : ℕ) → marked result k ≡ false }
{
    [0; WORDS]
}

/// Sets the bit at an index.
pub(crate) fn mark(words: &mut [u64], at: usize)
    requires { at < 64 * length words.old }
    ensures here { marked words.new at ≡ true }
    ensures others { (k : ℕ) → k ≢ at → marked words.new k ≡ marked words.old k }
{
    words[at / 64] |= 1 << (at % 64);
}

/// Sets the bit at an index, which isn't set, if the test succeeds.
pub(crate) fn mark_if(yes: bool, words: &mut [u64], at: usize)
    requires within { at < 64 * length words.old }
    requires unset { marked words.old at ≡ false }
    ensures here { marked words.new at ≡ yes }
    ensures others { (k : ℕ) → k ≢ at → marked words.new k ≡ marked words.old k }
{
    if yes {
        mark(words, at);
    }
}

/// Whether the bit at an index is set.
pub(crate) fn is_marked(words: &[u64], at: usize) -> bool
    requires { at < 64 * length words.now }
    ensures { result ≡ marked words.now at }
{
    (words[at / 64] >> (at % 64)) & 1 == 1
}

/// A valid image, which the machine runs without checking slots, targets or operands.
#[derive(Drop)]
pub struct Verified {
    image: Image,
}

impl Model for Verified {
    ghost use Rattle.vsi_image.specs.{declared.instr.Image.{Image}, Valid.{IsValid}};

    ghost Value = { Image };

    ghost view = { λ v. v.image };

    ghost invariant = { λ v. IsValid v.image };
}

impl Verified {
    ghost use Rattle.std.specs.Prelude.{◌≡◌};
    ghost use Rattle.vsi_image.specs.Valid.{IsValid};

    /// An image that is proved to be valid, such as that of a code generator; an image from
    /// elsewhere goes through `verify`.
    pub fn of(image: Image) -> Verified
        requires { IsValid image }
        ensures { result ≡ image }
    {
        Verified { image }
    }

    /// The image.
    pub fn image(&self) -> &Image
        ensures same { result.now ≡ self.now }
        ensures valid { IsValid self.now }
    {
        &self.image
    }
}

/// Why an image is refused; a number is an instruction's, from 0.
#[derive(Clone, Copy, PartialEq, Eq, Debug, Error)]
pub enum VerifyError {
    /// The image exceeds a limit, the same one that `encode` reports.
    #[error("the image is past a limit: {0}")]
    Unencodable(Limit),
    /// The instruction names a slot that the image doesn't have.
    #[error("instruction {0} names a slot that the image lacks")]
    BadSlot(usize),
    /// The instruction names a target that isn't below the number of instructions.
    #[error("instruction {0} names a target that is no instruction")]
    BadTarget(usize),
    /// The instruction takes more operands than are on the stack.
    #[error("instruction {0} takes more operands than there are")]
    Underflow(usize),
    /// The instruction leaves more operands than the stack has room for.
    #[error("instruction {0} leaves more operands than the stack has room for")]
    Overflow(usize),
    /// A jump or a halt leaves operands, or a jump's target is reached with operands.
    #[error("instruction {0} leaves operands, or its target is met with operands")]
    NotEmpty(usize),
    /// There is no instruction, or the last one continues to the next.
    #[error("there is no instruction, or the last one goes on to the next")]
    RunsOff,
}

/// The first fault of an instruction that is reached with this many operands, apart from the depth
/// at its target.
fn fault_at(image: &Image, pc: usize, depth: usize, instr: Instr) -> Option<VerifyError>
    requires { depth ≤ 65535 }
    ensures { result ≡ spec.fault_at image.now pc depth instr }
{
    if let Some(slot) = slot_of(instr) {
        if slot >= image.slots {
            return Some(VerifyError::BadSlot(pc));
        }
    }
    if let Some(target) = target_of(instr) {
        if target as usize >= image.code.len() {
            return Some(VerifyError::BadTarget(pc));
        }
    }
    if depth < takes(instr) {
        return Some(VerifyError::Underflow(pc));
    }
    let left = depth - takes(instr) + gives(instr);
    if left > image.stack as usize {
        return Some(VerifyError::Overflow(pc));
    }
    if leaves_none(instr) && left > 0 {
        return Some(VerifyError::NotEmpty(pc));
    }
    None
}

/// The first fault of an instruction; marks every instruction that is reached without operands.
fn check_each(image: &Image, marks: &mut [u64; WORDS]) -> Option<VerifyError>
    requires short { length image.now.code.items ≤ max_instructions }
    requires stack { image.now.stack ≤ max_operands }
    requires blank { (k : ℕ) → marked marks.old k ≡ false }
    ensures fault { result ≡ spec.first_from (spec.own_fault image.now) 0 image.now.code.items }
    ensures marks { IsNone result → MarkDepths image.now.code.items (marked marks.new) }
{
    let mut depth = 0;
    for (pc, instr) in image.code.iter().enumerate() {
        if let Some(fault) = fault_at(image, pc, depth, *instr) {
            return Some(fault);
        }
        mark_if(depth == 0, marks, pc);
        depth = depth_after(depth, *instr);
    }
    None
}

/// Whether the instruction has no target, or a target with a mark.
fn is_target_fine(instr: Instr, marks: &[u64; WORDS]) -> bool
    requires { (t : ℕ) → target_of instr ≡ Some t → t < 65536 }
    ensures { result ≡ option_map_or (marked marks.now) (target_of instr) true }
{
    match target_of(instr) {
        Some(target) => is_marked(marks, target as usize),
        None => true,
    }
}

/// The first jump to an instruction that is reached with operands.
fn check_targets(code: &[Instr], marks: &[u64; WORDS]) -> Option<VerifyError>
    requires { AreMarked code.now (marked marks.now) }
    ensures { result ≡ spec.first_from (spec.target_fault code.now) 0 code.now }
{
    for (pc, instr) in code.iter().enumerate() {
        if !is_target_fine(*instr, marks) {
            return Some(VerifyError::NotEmpty(pc));
        }
    }
    None
}

/// Whether there is a last instruction that never continues to the next.
fn ends_well(code: &[Instr]) -> bool
    ensures { result ≡ option_map_or goes_off (slice_get code.now (length code.now - 1)) false }
{
    match code.last() {
        Some(instr) => goes_off(*instr),
        None => false,
    }
}

/// The image's first fault.
fn fault_of(image: &Image) -> Option<VerifyError>
    ensures { result ≡ spec.first_fault image.now }
{
    if let Some(limit) = limit_of(image) {
        return Some(VerifyError::Unencodable(limit));
    }
    let mut marks = blank();
    if let Some(fault) = check_each(image, &mut marks) {
        return Some(fault);
    }
    if !ends_well(&image.code) {
        return Some(VerifyError::RunsOff);
    }
    check_targets(&image.code, &marks)
}

/// The same image, known to be valid, or the image with its first fault: a limit, then the
/// instructions' faults in turn, then a code that runs past its end, then the jumps to instructions
/// that are reached with operands.
pub fn verify(image: Image) -> Result<Verified, (Image, VerifyError)>
    // The image is verified exactly if it is valid.
    ensures valid { IsOk result ↔ IsValid image }
    // A verified image is unchanged.
    ensures same { IfOk result (λ verified. verified ≡ image) }
    // A refused image is returned unchanged.
    ensures back { IfErr result (λ e. e.0 ≡ image) }
    // The error is the first fault.
    ensures first { IfErr result (λ e. spec.first_fault image ≡ Some e.1) }
{
    match fault_of(&image) {
        None => Ok(Verified::of(image)),
        Some(fault) => Err((image, fault)),
    }
}
