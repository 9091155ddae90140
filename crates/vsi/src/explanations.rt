//! Explanations of failures, made from the files that were read, and why a file can't be used.

ghost use Rattle.std.specs.Prelude.{◌≡◌, ◌⊎◌, ◌≤◌, Contains, IfOk, IfSome, false};
ghost use Rattle.vsi_syntax.specs.Lines.{breaks};
ghost use Rattle.vsi_subject.specs.Objections.{MayObject, OBJECTIONS, objection_line};
ghost use Rattle.vsi_subject.specs.Objections as spec;

use crate::advice::{Refusal, advice};
use crate::refusals::cause_diagnostic;
use crate::shortening::{Explained, shortened};
use std::alloc::{AllocError, Global};
use vsi_answers::{Cause, Fault};
use vsi_arguments::{Colour, Manner};
use vsi_compiler::{CompileError, read_source};
use vsi_conform::{
    InterfaceError, Judgement, Policy, audit_diagnostic, flows_profile, judged, read_interface,
    steady_diagnostic,
};
use vsi_drive::{LineFault, StartFault};
use vsi_image::{Image, decode};
use vsi_lattice::{Lattice, read_lattice};
use vsi_steady::{SteadyError, UnsteadyError};
use vsi_subject::{
    Failure, Files, InputKind, Inputs, Kept, STREAM, TWO_CLASSES, profile, source_of,
};
use vsi_telling::{ColourMode, Reason, class_list, explanation, flows_explanation, put_safe};
use vsi_types::Profile;

/// The advice for a run that is out of budget.
const SPENT: &[u8] = b"\
The run did not halt within its budget. Give a larger --budget, or look for a
loop whose guard never becomes 0.
";

/// The advice for a text that has grown too long by the names of its raised classes.
const TOO_LONG: &[u8] = b"\
With the names of the new classes the text is longer than a text may be. Shorten
a comment, or give the classes shorter names in the lattice file.
";

/// The advice for a text whose image isn't steady.
const UNSTEADY: &[u8] = b"\
With --steady each `if` counts as a `while`: a variable that a guard reads must
have the least class. Compute both results and select one by arithmetic, as in
`out := g * a + (1 - g) * b` for a guard g that is 0 or 1.
";

/// The settings of an explanation: its colours, the profile that judges a source text, and whether
/// all lines are requested.
#[derive(Clone, Copy)]
pub(crate) struct Explaining {
    pub(crate) mode: ColourMode,
    pub(crate) profile: Profile,
    pub(crate) is_whole: bool,
}

impl Explaining {
    /// The settings for explaining the refusal of a request that is carried out in this manner.
    pub(crate) fn new<F: Files>(manner: Manner, colour: Colour, files: &F) -> Self {
        let mode = match colour {
            Colour::Never => ColourMode::Plain,
            Colour::Auto if !files.wants_colour() => ColourMode::Plain,
            Colour::Always | Colour::Auto => ColourMode::Coloured,
        };
        Explaining {
            mode,
            profile: profile(manner.is_strict),
            is_whole: manner.is_whole,
        }
    }

    /// The explanation of a failure, with the page that says more about a refusal that has a
    /// number.
    pub(crate) fn of_failure<F: Files>(
        self,
        inputs: &Inputs,
        files: &F,
        failure: &Failure<'_>,
    ) -> Explained
        ensures short { self.is_whole ≡ false → IfOk result (λ text. breaks text.items ≤ 40) }
    {
        let lines = match failure {
            Failure::Refused(_, Some(cause)) => self.of_cause(inputs, cause)?,
            Failure::Interface(_, error) => self.of_interface(inputs, error)?,
            Failure::Audit(_, _) | Failure::Unsteady(_, _) => self.of_audit(inputs, failure)?,
            Failure::FileFault(path) => of_fault(inputs, files, path)?,
            Failure::LostFile(path) => of_fault(inputs, files, path.as_str())?,
            Failure::OutOfBudget => Vec::from_slice(inputs.alloc, SPENT)?,
            Failure::NoClass(_) => {
                let lattice = policy(inputs).ok_or(AllocError)?;
                class_list(inputs.alloc, &lattice)?
            }
            Failure::Differs => self.of_difference(inputs)?,
            Failure::Refused(_, None) | Failure::Usage(_) | Failure::Memory => {
                Vec::new(inputs.alloc)
            }
        };
        let diagnostic = match failure {
            Failure::Refused(_, Some(cause)) => cause_diagnostic(source_of(inputs), cause),
            Failure::Audit(_, error) => audit_diagnostic(error),
            Failure::Unsteady(_, error) => steady_diagnostic(error),
            _ => None,
        };
        let code = diagnostic.map(|diagnostic| diagnostic.code);
        shortened(inputs.alloc, &lines, code, self.is_whole)
    }

    /// The explanation of a source text that isn't accepted as its interface requires, with the
    /// page that says more. There is none if no text was read beside an interface, or if it is
    /// accepted.
    fn of_difference(self, inputs: &Inputs) -> Explained {
        let interface = inputs.last(InputKind::Interface);
        let (Some(kept), Some(asked)) = (inputs.last(InputKind::Source), interface) else {
            return Ok(Vec::new(inputs.alloc));
        };
        let asked = read_interface(inputs.alloc, &asked.bytes).map_err(|_| AllocError)?;
        let lattice = policy(inputs).ok_or(AllocError)?;
        let judgement = asked.interface.judgement;
        let Err(error) = judged(inputs.alloc, judgement, &lattice, &kept.bytes)? else {
            return Ok(Vec::new(inputs.alloc));
        };
        let is_flow = matches!(&error, UnsteadyError::Compile(CompileError::Flow(_)));
        let explaining = Explaining {
            profile: flows_profile(judgement),
            ..self
        };
        let cause = Cause::Steady(error);
        let lines = if is_flow && !matches!(judgement, Judgement::Steady) {
            explaining.of_flow(inputs.alloc, &lattice, kept)?
        } else {
            explaining.of_cause(inputs, &cause)?
        };
        let code = cause_diagnostic(&kept.bytes, &cause).map(|diagnostic| diagnostic.code);
        shortened(inputs.alloc, &lines, code, self.is_whole)
    }

    /// The explanation of a refusal with this cause.
    fn of_cause(self, inputs: &Inputs, cause: &Cause) -> Explained {
        match cause {
            Cause::Source(error) => self.of_source(inputs, error),
            Cause::Steady(UnsteadyError::Compile(CompileError::Flow(_))) => {
                Vec::from_slice(inputs.alloc, UNSTEADY)
            }
            Cause::Steady(UnsteadyError::Compile(error)) => self.of_source(inputs, error),
            Cause::Steady(UnsteadyError::Image(error)) => self.of_text_image(inputs, error),
            Cause::File(Fault::Store(error)) => {
                let Some(kept) = inputs.last(InputKind::Store) else {
                    return Ok(Vec::new(inputs.alloc));
                };
                let image = read_image(inputs).ok_or(AllocError)?;
                let reason = Reason::Store(&image, error);
                explanation(inputs.alloc, self.mode, &kept.path, &kept.bytes, reason)
            }
            Cause::File(fault) => self.of_file(inputs, fault),
            Cause::Start(fault) => {
                let Some(kept) = faulty_start(inputs, *fault) else {
                    return Ok(Vec::new(inputs.alloc));
                };
                let image = read_image(inputs).ok_or(AllocError)?;
                let reason = Refusal::Start(&image, *fault);
                advice(inputs.alloc, self.mode, &kept.path, &kept.bytes, reason)
            }
            Cause::Raised(_) => Vec::from_slice(inputs.alloc, TOO_LONG),
            Cause::Steady(UnsteadyError::Memory) => Ok(Vec::new(inputs.alloc)),
        }
    }

    /// The explanation of a refused source text.
    fn of_source(self, inputs: &Inputs, error: &CompileError) -> Explained {
        let Some(kept) = inputs.last(InputKind::Source) else {
            return Ok(Vec::new(inputs.alloc));
        };
        if let Some(lines) = inputs.flow_lines() {
            return lines;
        }
        let lattice = policy(inputs).ok_or(AllocError)?;
        if let CompileError::Flow(_) = error {
            return self.of_flow(inputs.alloc, &lattice, kept);
        }
        let reason = Reason::Source(&lattice, error);
        explanation(inputs.alloc, self.mode, &kept.path, &kept.bytes, reason)
    }

    /// The explanation of a source text whose image isn't steady.
    fn of_text_image(self, inputs: &Inputs, error: &SteadyError) -> Explained {
        let Some(kept) = inputs.last(InputKind::Source) else {
            return Ok(Vec::new(inputs.alloc));
        };
        let lattice = policy(inputs).ok_or(AllocError)?;
        let reason = Refusal::Text(&lattice, error);
        advice(inputs.alloc, self.mode, &kept.path, &kept.bytes, reason)
    }

    /// The explanation of a source text that is refused for a flow, which is read once more.
    fn of_flow(self, alloc: Global, lattice: &Lattice, kept: &Kept) -> Explained {
        let source = read_source(alloc, lattice, &kept.bytes).map_err(|_| AllocError)?;
        flows_explanation(alloc, self.mode, self.profile, &kept.path, &source)
    }

    /// The explanation of a refused lattice file or image.
    fn of_file(self, inputs: &Inputs, fault: &Fault) -> Explained {
        let interface = inputs.last(InputKind::Interface);
        let kept = match fault {
            // An interface that has its own classes counts as a lattice file.
            Fault::Lattice(_) => inputs.last(InputKind::Lattice).or(interface),
            Fault::Store(_) => inputs.last(InputKind::Store),
            Fault::Decode(_) | Fault::Verify(_) | Fault::View(_) => inputs.last(InputKind::Image),
        };
        let Some(kept) = kept else {
            return Ok(Vec::new(inputs.alloc));
        };
        let reason = Reason::File(fault);
        explanation(inputs.alloc, self.mode, &kept.path, &kept.bytes, reason)
    }

    /// The explanation of a refused interface.
    fn of_interface(self, inputs: &Inputs, error: &InterfaceError) -> Explained {
        let Some(kept) = inputs.last(InputKind::Interface) else {
            return Ok(Vec::new(inputs.alloc));
        };
        let lattice = match inputs.last(InputKind::Lattice) {
            Some(kept) => Some(read_lattice(inputs.alloc, &kept.bytes).map_err(|_| AllocError)?),
            None => None,
        };
        self.interface_advice(inputs.alloc, kept, lattice.as_ref(), error)
    }

    /// The explanation of a refused interface with this lattice.
    fn interface_advice<'d>(
        self,
        alloc: Global,
        kept: &'d Kept,
        lattice: Option<&'d Lattice>,
        error: &'d InterfaceError,
    ) -> Explained {
        let reason = Refusal::Interface(lattice, error);
        advice(alloc, self.mode, &kept.path, &kept.bytes, reason)
    }

    /// The explanation of an image that an audit refuses.
    fn of_audit(self, inputs: &Inputs, failure: &Failure<'_>) -> Explained {
        let kept = inputs.last(InputKind::Image).ok_or(AllocError)?;
        let image = read_image(inputs).ok_or(AllocError)?;
        let lattice = policy(inputs).ok_or(AllocError)?;
        let reason = match failure {
            Failure::Audit(_, error) => Refusal::Audit(&lattice, &image, error),
            Failure::Unsteady(_, error) => Refusal::Steady(&lattice, &image, error),
            _ => return Ok(Vec::new(inputs.alloc)),
        };
        advice(inputs.alloc, self.mode, &kept.path, b"", reason)
    }
}

/// The lattice that was read or that an interface has, or `L` below `H` if there is none.
fn policy(inputs: &Inputs) -> Option<Lattice> {
    if let Some(kept) = inputs.last(InputKind::Lattice) {
        return read_lattice(inputs.alloc, kept.bytes.as_slice()).ok();
    }
    let Some(kept) = inputs.last(InputKind::Interface) else {
        return read_lattice(inputs.alloc, TWO_CLASSES).ok();
    };
    let asked = read_interface(inputs.alloc, &kept.bytes);
    let text = match &asked {
        Err(InterfaceError::Memory) => return None,
        Ok(asked) => match &asked.policy {
            Policy::Tables(text) => text.as_slice(),
            _ => TWO_CLASSES,
        },
        Err(_) => TWO_CLASSES,
    };
    read_lattice(inputs.alloc, text).ok()
}

/// The image that was read.
fn read_image(inputs: &Inputs) -> Option<Image> {
    let kept = inputs.last(InputKind::Image)?;
    decode(inputs.alloc, kept.bytes.as_slice()).ok()
}

/// The text that keeps a run from beginning: a setting, a list of names, the store file, or else
/// the image.
fn faulty_start<'d>(inputs: &'d Inputs, fault: StartFault) -> Option<&'d Kept> {
    let image = inputs.last(InputKind::Image);
    match fault {
        StartFault::Setting(
            LineFault::BadSetting(number)
            | LineFault::UnknownGlobal(number)
            | LineFault::AboveClass(number)
            | LineFault::NotAnInput(number)
            | LineFault::NotANumber(number),
        ) => inputs.behind(InputKind::Setting, number),
        StartFault::Setting(LineFault::TooLong) => None,
        StartFault::Boundary(_) => inputs.last(InputKind::Names),
        StartFault::Unnamed(_) => inputs.last(InputKind::Store).or(image),
    }
}

/// The sentence about a store file with a wrong checksum.
const BROKEN: &str = "the file was changed or cut short: its first line isn't the checksum of the \
rest. To use it all the same, delete that line.";

/// The reason why a file can't be used.
fn of_fault<F: Files>(inputs: &Inputs, files: &F, path: &str) -> Explained {
    if path == STREAM {
        return Vec::from_slice(
            inputs.alloc,
            b"A standard stream can't be read or written.\n",
        );
    }
    if let Some(sentence) = objection_to(inputs, files).or_else(|| files.trouble(path)) {
        return sentence_line(inputs.alloc, path, sentence);
    }
    let mut lines = Vec::new(inputs.alloc);
    put_safe(&mut lines, path.as_bytes())?;
    lines.extend_from_slice(b" can't be opened, read or written.\n")?;
    Ok(lines)
}

/// Why a file isn't used, where each user has to know: its checksum is wrong, or it would be
/// replaced and is of another kind.
fn objection_to<F: Files>(inputs: &Inputs, files: &F) -> Option<&'static str>
    ensures { IfSome result (λ sentence. Contains OBJECTIONS sentence.now
        ⊎ (sentence.now ≡ spec.BROKEN)) }
{
    if inputs.is_broken {
        return Some(BROKEN);
    }
    files.objection()
}

/// The line with the path and a sentence about its file.
fn sentence_line(alloc: Global, path: &str, sentence: &str) -> Explained
    ensures { IfOk result (λ line. line.items ≡ objection_line path.now sentence.now) }
{
    let mut line = Vec::new(alloc);
    put_safe(&mut line, path.as_bytes())?;
    line.extend_from_slice(b": ")?;
    line.extend_from_slice(sentence.as_bytes())?;
    line.extend_from_slice(b"\n")?;
    Ok(line)
}

/// The line about such a file, if it is the reason for the failure.
pub(crate) fn objection<F: Files>(inputs: &Inputs, files: &F, failure: &Failure<'_>) -> Explained
    ensures { IfOk result (λ line. MayObject failure.now line.items) }
{
    let Failure::FileFault(path) = failure else {
        return Ok(Vec::new(inputs.alloc));
    };
    let Some(sentence) = objection_to(inputs, files) else {
        return Ok(Vec::new(inputs.alloc));
    };
    let line = sentence_line(inputs.alloc, path, sentence)?;
    Ok(line)
}
