//! A source text, read once under a lattice, whether its flows are allowed, and why it is refused.

ghost use Rattle.std.specs.Prelude.{◌≡◌, ℕ, List, IfOk, IfErr, MatchResult};
ghost use Rattle.vsi_compiler.specs.{declared.source.CompileError.TheVariants.{Memory}, Source.{Reads}, SourceView.{IsSource}, Refusal.{RefusesTree, RefusesProgram, Refuses, RefusesFlow}, Stands.{Stands}, Acceptance.{IsAccepted}, Explaining.{ExplainsWalk}};
ghost use Rattle.vsi_syntax.specs.{Tree.{Whole}, ProgramView.{whole}};
ghost use Rattle.vsi_lattice.specs.LatticeView.{class_named, order};
ghost use Rattle.vsi_scope.specs.{Language.{Command}, Program.{IsResolved}, Resolving.{AreBelow, HasClassesBelow, IsResolution}};
ghost use Rattle.vsi_infer.specs.Inference.{IsLeast};
ghost use Rattle.vsi_types.specs.Security.{program as program_of};

use std::alloc::{AllocError, AllocFailed, Global};
use std::marker::Model;
use thiserror::Error;
use vsi_infer::{InferError, Walk, check_walk_once, explain, infer_in};
use vsi_lattice::{Class, Lattice};
use vsi_scope::{Resolved, ScopeError, resolve};
use vsi_syntax::{Declaration, LexError, ParseError, Program, lex, parse};
use vsi_types::Profile;

/// Why a text is refused. A lack of memory is always `Memory`, never the `Memory` of an inner
/// error.
#[derive(Debug, Drop, Error)]
pub enum CompileError {
    #[error("the text has no tokens")]
    Lex(LexError),
    #[error("the tokens are no program")]
    Parse(ParseError),
    #[error("the program is out of its limits, or a name stands for nothing")]
    Scope(ScopeError),
    #[error("a flow breaks the policy")]
    Flow(Walk),
    #[error("out of memory")]
    Memory,
}

impl From<AllocError> for CompileError {
    ghost from_gives = { λ _ e. e ≡ Memory };

    fn from(_error: AllocError) -> CompileError {
        CompileError::Memory
    }
}

impl<T: Drop> From<AllocFailed<T>> for CompileError {
    ghost from_gives = { λ _ e. e ≡ Memory };

    fn from(_error: AllocFailed<T>) -> CompileError {
        CompileError::Memory
    }
}

impl From<LexError> for CompileError {
    ghost use Rattle.vsi_compiler.specs.Errors.{lexical};

    ghost from_gives = { λ inner e. e ≡ lexical inner };

    fn from(error: LexError) -> CompileError {
        match error {
            LexError::Memory => CompileError::Memory,
            other => CompileError::Lex(other),
        }
    }
}

impl From<ParseError> for CompileError {
    ghost use Rattle.vsi_compiler.specs.Errors.{syntactic};

    ghost from_gives = { λ inner e. e ≡ syntactic inner };

    fn from(error: ParseError) -> CompileError {
        match error {
            ParseError::Memory => CompileError::Memory,
            other => CompileError::Parse(other),
        }
    }
}

impl From<ScopeError> for CompileError {
    ghost use Rattle.vsi_compiler.specs.Errors.{scoping};

    ghost from_gives = { λ inner e. e ≡ scoping inner };

    fn from(error: ScopeError) -> CompileError {
        match error {
            ScopeError::Memory => CompileError::Memory,
            other => CompileError::Scope(other),
        }
    }
}

impl From<InferError> for CompileError {
    ghost use Rattle.vsi_compiler.specs.Errors.{flowing};

    ghost from_gives = { λ inner e. e ≡ flowing inner };

    fn from(error: InferError) -> CompileError {
        match error {
            InferError::Memory => CompileError::Memory,
            InferError::Refused(walk) => CompileError::Flow(walk),
        }
    }
}

/// A source text, read under a lattice. Every layer above the reader borrows it.
///
/// Its program is the program of the text, and each class in it is a class of the lattice. Its
/// flows may be allowed or not: `judge` decides that.
#[derive(Drop)]
pub struct Source<'a> {
    lattice: &'a Lattice,
    text: &'a [u8],
    tree: Program<'a>,
    resolved: Resolved<'a>,
}

impl<'a> Model for Source<'a> {
    ghost use Rattle.std.specs.Coded.{codes};
    ghost use Rattle.vsi_lattice.specs.contracts.lattice.Lattice as policy;
    ghost use Rattle.vsi_scope.specs.contracts.program.Cmd as cmd;
    ghost use Rattle.vsi_syntax.specs.ProgramView.{whole};
    ghost use Rattle.vsi_compiler.specs.SourceView as spec;
    ghost use Rattle.vsi_compiler.specs.SourceView.{source_of, IsSource, IsOnlyTree};

    ghost Value = { spec.Source };

    ghost coded = { Prim.hlevel (codes, policy.the_row.coded, cmd.the_row.coded) };

    ghost view = { λ s. source_of s.lattice.now s.text.now s.resolved };

    ghost invariant = { λ s. IsSource (source_of s.lattice.now s.text.now s.resolved)
        × IsOnlyTree s.text.now (whole s.tree) };
}

impl<'a> Source<'a> {
    ghost use Rattle.std.specs.Prelude.{◌≡◌, map};
    ghost use Rattle.vsi_lattice.specs.LatticeView.{class_named, order};
    ghost use Rattle.vsi_syntax.specs.{CommandView.{declared}, ProgramView.{whole}, Tree.{Whole}};
    ghost use Rattle.vsi_scope.specs.{Program.{IsResolved}, Resolving.{HasClassesBelow, Resolves}};
    ghost use Rattle.vsi_compiler.specs.{Source.{Reads}, SourceView.{source_of, IsSource, IsOnlyTree}};

    /// The source of a text, its tree and its program.
    pub(crate) fn new(
        lattice: &'a Lattice,
        text: &'a [u8],
        tree: Program<'a>,
        resolved: Resolved<'a>,
    ) -> Source<'a>
        requires reads { Reads text.now (whole tree) }
        requires only { IsOnlyTree text.now (whole tree) }
        requires resolves { Resolves (class_named lattice.now) (whole tree) resolved }
        requires kept { IsResolved resolved }
        requires classes { HasClassesBelow (order lattice.now).count resolved }
        ensures { result ≡ source_of lattice.entry.now text.entry.now resolved.entry }
    {
        Source {
            lattice,
            text,
            tree,
            resolved,
        }
    }

    /// The lattice.
    pub fn lattice(&self) -> &'a Lattice
        ensures { result.now ≡ self.now.lattice }
    {
        self.lattice
    }

    /// The text.
    pub fn text(&self) -> &'a [u8]
        ensures { result.now ≡ self.now.text }
    {
        self.text
    }

    /// The declarations of the globals, in order.
    pub fn globals(&self) -> &[Declaration<'a>]
        ensures { (tree : Whole) → Reads self.now.text tree
            → map declared result.now ≡ tree.globals }
    {
        self.tree.globals()
    }

    /// The program over locations.
    pub fn resolved(&self) -> &Resolved<'a>
        ensures value { result.now ≡ self.now.resolved }
        ensures kept { IsSource self.now }
    {
        &self.resolved
    }
}

/// The tree that writes the text.
pub(crate) fn read_program<'a>(alloc: Global, text: &'a [u8]) -> Result<Program<'a>, CompileError>
    ensures reads { IfOk result (λ p. Reads text.now (whole p)) }
    ensures refused { IfErr result (RefusesTree text.now) }
    ensures exact { (tree : Whole) → Reads text.now tree →
        MatchResult result (λ p. whole p ≡ tree) (λ e. e ≡ Memory) }
{
    let tokens = lex(alloc, text)?;
    let program = parse(alloc, &tokens)?;
    Ok(program)
}

/// Reads a text under a lattice, once for every layer above.
///
/// # Errors
///
/// The first refusal in the order text, tokens, tree, scope, size, never one of a flow.
pub fn read_source<'a>(
    alloc: Global,
    lattice: &'a Lattice,
    text: &'a [u8],
) -> Result<Source<'a>, CompileError>
    ensures lattice { IfOk result (λ s. s.lattice ≡ lattice.now) }
    ensures text { IfOk result (λ s. s.text ≡ text.now) }
    ensures kept { IfOk result IsSource }
    ensures refused { IfErr result (RefusesProgram (class_named lattice.now) text.now) }
    ensures exact { (tree : Whole) (commands : List Command) → Reads text.now tree
        → IsResolution (class_named lattice.now) tree commands → IfErr result (λ e. e ≡ Memory) }
{
    let tree = read_program(alloc, text)?;
    let resolved = resolve(alloc, &tree, lattice)?;
    // `body` ensures that the program is resolved, which the proofs need.
    let _body = resolved.body();
    Ok(Source::new(lattice, text, tree, resolved))
}

/// The text over locations.
pub fn resolved_program<'a>(
    alloc: Global,
    lattice: &Lattice,
    text: &'a [u8],
) -> Result<Resolved<'a>, CompileError>
    ensures stands { IfOk result (Stands (class_named lattice.now) text.now) }
    ensures kept { IfOk result IsResolved }
    ensures classes { (n : ℕ) → AreBelow n (class_named lattice.now) →
        IfOk result (HasClassesBelow n) }
    ensures refused { IfErr result (RefusesProgram (class_named lattice.now) text.now) }
    ensures exact { (tree : Whole) (commands : List Command) → Reads text.now tree
        → IsResolution (class_named lattice.now) tree commands → IfErr result (λ e. e ≡ Memory) }
{
    let program = read_program(alloc, text)?;
    let resolved = resolve(alloc, &program, lattice)?;
    // `body` ensures that the program is resolved, which the proofs need.
    let _body = resolved.body();
    Ok(resolved)
}

/// The least classes that type a source text under a profile, one for each `letvar` in the order of
/// the text.
///
/// # Errors
///
/// `Flow` with a bad walk, such that no bad walk has fewer steps, or `Memory`.
pub fn judge(
    alloc: Global,
    profile: Profile,
    source: &Source<'_>,
) -> Result<Vec<Class>, CompileError>
    ensures accepted { IfOk result (λ _. IsAccepted
        (class_named source.now.lattice) (order source.now.lattice) profile source.now.text) }
    ensures least { IfOk result (λ s. IsLeast
        (order source.now.lattice) profile (program_of source.now.resolved) s.items) }
    ensures refused { IfErr result (Refuses
        (class_named source.now.lattice) (order source.now.lattice) profile source.now.text) }
    ensures flow { IfErr result
        (RefusesFlow (order source.now.lattice) profile (program_of source.now.resolved)) }
    ensures exact { IsAccepted
        (class_named source.now.lattice) (order source.now.lattice) profile source.now.text
        → IfErr result (λ e. e ≡ Memory) }
{
    let resolved = source.resolved();
    Ok(infer_in(alloc, profile, source.lattice(), resolved)?)
}

/// The explanation of a walk: a line for each step, and one for the classes of its ends. It is
/// empty if the walk isn't a bad walk of the source under the strict profile.
pub fn walk_explanation(
    alloc: Global,
    source: &Source<'_>,
    walk: &Walk,
) -> Result<Vec<u8>, AllocError>
    ensures { IfOk result (λ out. ExplainsWalk
        source.now.lattice source.now.text walk.now.steps.items out.items) }
{
    let lattice = source.lattice();
    let resolved = source.resolved();
    let is_bad = check_walk_once(alloc, Profile::Strict, lattice, resolved, walk)?;
    if is_bad {
        explain(alloc, source.text(), lattice, resolved, walk)
    } else {
        Ok(Vec::new(alloc))
    }
}

/// The explanation of a walk of a text, by `walk_explanation`. It is empty if the text has no
/// program.
pub fn explanation_text(
    alloc: Global,
    lattice: &Lattice,
    text: &[u8],
    walk: &Walk,
) -> Result<Vec<u8>, AllocError>
    ensures { IfOk result
        (λ out. ExplainsWalk lattice.now text.now walk.now.steps.items out.items) }
{
    match read_source(alloc, lattice, text) {
        Ok(source) => walk_explanation(alloc, &source, walk),
        Err(CompileError::Memory) => Err(AllocError),
        Err(_) => Ok(Vec::new(alloc)),
    }
}
