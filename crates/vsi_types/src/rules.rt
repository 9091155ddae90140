//! Rules, flow steps and profiles, choices of classes, and why a choice is refused.

ghost use Rattle.std.specs.{Prelude.{◌≡◌, ◌++◌, true, false, map, IfOk}, List.{AllZip}};
ghost use Rattle.vsi_types.specs.{Security.{Keeps}, declared.rules.CheckError.TheVariants.{Memory, Flow}};

use std::alloc::{AllocError, AllocFailed, Global as Heap};
use thiserror::Error;
use vsi_lattice::Class;
use vsi_scope::{Entry, Global, Var};
use vsi_syntax::Span;

/// The sink for flows into the ending of loops. It has the bottom class, and its number is not that
/// of any declaration.
pub const LOOP: Var = Var(65535);

/// The flows that are checked.
#[derive(Clone, Copy, Debug, PartialEq, Eq)]
pub enum Profile {
    /// Flows into variables.
    Base,
    /// Flows into variables, and flows into the ending of loops.
    Strict,
}

/// The rule by which a variable flows into another.
#[derive(Clone, Copy, Debug, PartialEq, Eq)]
pub enum Rule {
    /// The value of an assignment flows into the assigned variable.
    Assign,
    /// The guard of an `if` flows into the variables that its branches assign.
    If,
    /// The guard of a `while` flows into the variables that its body assigns.
    While,
    /// The initial value of a `letvar` flows into its variable.
    Letvar,
    /// A guard that decides whether a loop ends flows into `LOOP`.
    Loop,
}

/// A flow from a variable that is read to a variable that is written.
#[derive(Clone, Copy, Debug, PartialEq, Eq)]
pub struct Step {
    pub rule: Rule,
    pub source: Var,
    pub target: Var,
    /// The span at which the source is read.
    pub read: Span,
    /// The span of the target's name; under `Rule::Loop` the same as `read`.
    pub written: Span,
}

/// A variable that is read, and the span of its name there.
#[derive(Clone, Copy, Debug, PartialEq, Eq)]
pub struct Read {
    pub variable: Var,
    pub place: Span,
}

/// A variable that a guard reads, and the rule of that guard.
#[derive(Clone, Copy, Debug, PartialEq, Eq)]
pub struct Guard {
    pub rule: Rule,
    pub read: Read,
}

/// A flow step that isn't in order.
#[derive(Clone, Copy, Debug, PartialEq, Eq)]
pub struct FlowFault {
    pub rule: Rule,
    /// The span at which the source is read.
    pub span: Span,
    pub source: Var,
    pub target: Var,
}

/// Whether a class is the declared one, if one is declared.
fn keeps(declared: Option<Class>, class: Class) -> bool
    ensures chosen { result ≡ true → Keeps declared class }
    ensures changed { result ≡ false → Keeps declared class → ⊥ }
{
    match declared {
        Some(kept) => kept == class,
        None => true,
    }
}

/// Whether there is one class for each entry, and every declared class is kept.
pub(crate) fn is_choice(entries: &[Entry<'_>], choice: &[Class]) -> bool
    ensures chosen { result ≡ true → AllZip Keeps (map (λ e. e.class) entries.now) choice.now }
    ensures changed { result ≡ false → AllZip Keeps (map (λ e. e.class) entries.now) choice.now →
        ⊥ }
{
    if entries.len() != choice.len() {
        return false;
    }
    for i in 0..entries.len() {
        if !keeps(entries[i].class, choice[i]) {
            return false;
        }
    }
    true
}

/// The class of each declaration, globals first.
pub(crate) fn class_table(
    alloc: Heap,
    globals: &[Global<'_>],
    choice: &[Class],
) -> Result<Vec<Class>, AllocError>
    ensures { IfOk result (λ t. t.items ≡ map (λ g. g.class) globals.now ++ choice.now) }
{
    let mut table = Vec::new(alloc);
    for g in globals {
        table.push(g.class)?;
    }
    table.extend_from_slice(choice)?;
    Ok(table)
}

/// Why a choice of classes is refused.
#[derive(Debug, Drop, Error)]
pub enum CheckError {
    /// The check ran out of memory.
    #[error("out of memory")]
    Memory,
    /// The choice doesn't have one class for each `letvar`, or changes a declared one.
    #[error("the choice has not one class for each letvar, or changes a declared one")]
    WrongChoice,
    /// The first flow step that isn't in order.
    #[error("the flow from byte {start} is not in order", start = .0.span.start)]
    Flow(FlowFault),
}

impl From<AllocError> for CheckError {
    ghost from_gives = { λ _ e. e ≡ Memory };

    fn from(_e: AllocError) -> CheckError {
        CheckError::Memory
    }
}

impl<T: Drop> From<AllocFailed<T>> for CheckError {
    ghost from_gives = { λ _ e. e ≡ Memory };

    fn from(_e: AllocFailed<T>) -> CheckError {
        CheckError::Memory
    }
}

impl From<FlowFault> for CheckError {
    ghost from_gives = { λ f e. e ≡ Flow f };

    fn from(f: FlowFault) -> CheckError {
        CheckError::Flow(f)
    }
}
