//! From a source text to a verified image.

ghost use Rattle.std.specs.Prelude.{All, ◌≡◌, IfOk, IfErr};
ghost use Rattle.vsi_image.specs.Fields.{HasOpcode};
ghost use Rattle.vsi_lattice.specs.LatticeView.{class_named, order};
ghost use Rattle.vsi_types.specs.declared.rules.{Profile.{Profile}, Profile.TheVariants.{Strict, Base}};
ghost use Rattle.vsi_compiler.specs.{Acceptance.{IsAccepted}, Headline.{HasGlobals, KeepsMeaning, IsCoded, IsImageOf, IsNoLarger}, Observation.{IsNoninterfering, EndsAlike}, declared.source.CompileError.TheVariants.{Memory}, Refusal.{Refuses, RefusesProgram}, Readable.{HasProgram}};

use crate::source::{CompileError, Source, judge, read_source};
use std::alloc::{AllocError, Global};
use vsi_code::generate;
use vsi_image::{Instr, Verified};
use vsi_lattice::Lattice;
use vsi_opt::optimise;
use vsi_types::Profile;

/// The operand of an instruction fits its width.
fn has_opcode(instr: Instr)
    ensures { HasOpcode 2 instr }
{
    match instr {
        Instr::Push(_n) => {}
        Instr::Load(_s) => {}
        Instr::Store(_s) => {}
        Instr::Add => {}
        Instr::Sub => {}
        Instr::Mul => {}
        Instr::Eq => {}
        Instr::Lt => {}
        Instr::Jz(_t) => {}
        Instr::Jmp(_t) => {}
        Instr::Halt => {}
    }
}

/// The operand of each instruction of a code fits its width.
pub(crate) fn have_opcodes(code: &[Instr])
    ensures { All (HasOpcode 2) code.now }
{
    for instr in code {
        has_opcode(*instr);
    }
}

/// The only image of a source text, whether its flows are allowed or not. If they are allowed under
/// a profile, the image lets no information flow where the lattice forbids it.
pub fn image_of(alloc: Global, source: &Source<'_>) -> Result<Verified, AllocError>
    ensures globals { IfOk result (HasGlobals source.now.text) }
    ensures meaning { IfOk result
        (KeepsMeaning (class_named source.now.lattice) source.now.text) }
    ensures noninterference { (P : Profile) → IsAccepted
        (class_named source.now.lattice) (order source.now.lattice) P source.now.text
        → IfOk result
        (IsNoninterfering (class_named source.now.lattice) (order source.now.lattice)) }
    ensures endings { IsAccepted
        (class_named source.now.lattice) (order source.now.lattice) Strict source.now.text
        → IfOk result (EndsAlike (class_named source.now.lattice) (order source.now.lattice)) }
    ensures coded { IfOk result IsCoded }
    ensures image { IfOk result (IsImageOf (class_named source.now.lattice) source.now.text) }
    ensures size { IfOk result (IsNoLarger (class_named source.now.lattice) source.now.text) }
{
    let resolved = source.resolved();
    let optimised = optimise(alloc, resolved)?;
    let verified = generate(alloc, &optimised)?;
    // Called for its contract alone: each operand fits its width, so the image has bytes.
    have_opcodes(&verified.image().code);
    Ok(verified)
}

/// The image of a source text whose flows are allowed under a profile.
///
/// # Errors
///
/// The errors of `judge`.
pub fn compile_source(
    alloc: Global,
    profile: Profile,
    source: &Source<'_>,
) -> Result<Verified, CompileError>
    ensures accepted { IfOk result (λ _. IsAccepted
        (class_named source.now.lattice) (order source.now.lattice) profile source.now.text) }
    ensures refused { IfErr result (Refuses
        (class_named source.now.lattice) (order source.now.lattice) profile source.now.text) }
    ensures exact { IsAccepted
        (class_named source.now.lattice) (order source.now.lattice) profile source.now.text
        → IfErr result (λ e. e ≡ Memory) }
    ensures globals { IfOk result (HasGlobals source.now.text) }
    ensures meaning { IfOk result
        (KeepsMeaning (class_named source.now.lattice) source.now.text) }
    ensures noninterference { IfOk result
        (IsNoninterfering (class_named source.now.lattice) (order source.now.lattice)) }
    ensures endings { profile ≡ Strict → IfOk result
        (EndsAlike (class_named source.now.lattice) (order source.now.lattice)) }
    ensures coded { IfOk result IsCoded }
    ensures image { IfOk result
        (IsImageOf (class_named source.now.lattice) source.now.text) }
    ensures size { IfOk result
        (IsNoLarger (class_named source.now.lattice) source.now.text) }
{
    let _classes = judge(alloc, profile, source)?;
    let verified = image_of(alloc, source)?;
    Ok(verified)
}

/// The image of a text that is accepted under a profile.
///
/// # Errors
///
/// The first refusal in the order text, tokens, tree, scope, size, flow. `Memory` is possible in
/// place of any answer.
pub fn compile_in(
    alloc: Global,
    profile: Profile,
    lattice: &Lattice,
    text: &[u8],
) -> Result<Verified, CompileError>
    ensures accepted { IfOk result
        (λ _. IsAccepted (class_named lattice.now) (order lattice.now) profile text.now) }
    ensures refused { IfErr result
        (Refuses (class_named lattice.now) (order lattice.now) profile text.now) }
    ensures exact { IsAccepted (class_named lattice.now) (order lattice.now) profile text.now
        → IfErr result (λ e. e ≡ Memory) }
    ensures globals { IfOk result (HasGlobals text.now) }
    ensures meaning { IfOk result (KeepsMeaning (class_named lattice.now) text.now) }
    ensures noninterference { IfOk result
        (IsNoninterfering (class_named lattice.now) (order lattice.now)) }
    ensures endings { profile ≡ Strict →
        IfOk result (EndsAlike (class_named lattice.now) (order lattice.now)) }
    ensures coded { IfOk result IsCoded }
    ensures image { IfOk result (IsImageOf (class_named lattice.now) text.now) }
    ensures size { IfOk result (IsNoLarger (class_named lattice.now) text.now) }
{
    let source = read_source(alloc, lattice, text)?;
    compile_source(alloc, profile, &source)
}

/// The image of a text that is accepted: `compile_in` for the base profile.
pub fn compile(alloc: Global, lattice: &Lattice, text: &[u8]) -> Result<Verified, CompileError>
    ensures accepted { IfOk result
        (λ _. IsAccepted (class_named lattice.now) (order lattice.now) Base text.now) }
    ensures refused { IfErr result
        (Refuses (class_named lattice.now) (order lattice.now) Base text.now) }
    ensures exact { IsAccepted (class_named lattice.now) (order lattice.now) Base text.now
        → IfErr result (λ e. e ≡ Memory) }
    ensures globals { IfOk result (HasGlobals text.now) }
    ensures meaning { IfOk result (KeepsMeaning (class_named lattice.now) text.now) }
    ensures noninterference { IfOk result
        (IsNoninterfering (class_named lattice.now) (order lattice.now)) }
    ensures coded { IfOk result IsCoded }
    ensures image { IfOk result (IsImageOf (class_named lattice.now) text.now) }
    ensures size { IfOk result (IsNoLarger (class_named lattice.now) text.now) }
{
    compile_in(alloc, Profile::Base, lattice, text)
}

/// The image of a text, whether its flows are allowed or not. If `compile` accepts the text, it
/// returns the same image.
///
/// # Errors
///
/// The first refusal in the order text, tokens, tree, scope, size, never one of a flow.
pub fn unjudged_image(
    alloc: Global,
    lattice: &Lattice,
    text: &[u8],
) -> Result<Verified, CompileError>
    ensures found { IfOk result (λ _. HasProgram (class_named lattice.now) text.now) }
    ensures refused { IfErr result (RefusesProgram (class_named lattice.now) text.now) }
    ensures exact { HasProgram (class_named lattice.now) text.now
        → IfErr result (λ e. e ≡ Memory) }
    ensures globals { IfOk result (HasGlobals text.now) }
    ensures meaning { IfOk result (KeepsMeaning (class_named lattice.now) text.now) }
    ensures image { IfOk result (IsImageOf (class_named lattice.now) text.now) }
    ensures accepted { (P : Profile) →
        IsAccepted (class_named lattice.now) (order lattice.now) P text.now
        → IfOk result (IsNoninterfering (class_named lattice.now) (order lattice.now)) }
{
    let source = read_source(alloc, lattice, text)?;
    let verified = image_of(alloc, &source)?;
    Ok(verified)
}
