//! The programs that a project file names, and those of them that are judged.

ghost use Rattle.std.specs.Prelude.{◌≡◌, ◌∷◌, [], IfErr, IfOk, IfSome};
ghost use Rattle.vsi_project.specs.declared.reader.Program.{Program};
ghost use Rattle.vsi_subject.specs.{Projects.{AreChosen, IsFaulty, IsNamedIn}, Refusals.{FailsBy, NoOther}};

use std::alloc::Global;
use std::slice;
use vsi_arguments::Projecting;
use vsi_project::{Program, Project, ProjectError, read_project};
use vsi_subject::{Failure, Fallible};

/// The project of a file, or the failure of one that is refused.
pub(crate) fn project_in<'a>(alloc: Global, path: &str, bytes: &[u8]) -> Fallible<'a, Project>
    ensures { IfErr result (FailsBy (λ reason. ⊥) IsFaulty) }
{
    let error = match read_project(alloc, path, bytes) {
        Ok(project) => return Ok(project),
        Err(error) => error,
    };
    if let ProjectError::Memory = &error {
        return Err(Failure::Memory);
    }
    let mut line = error.line(alloc, path)?;
    line.extend_from_slice(b"\n")?;
    Err(Failure::Refused(line, None))
}

/// The program of this name, if there is one.
fn named<'p>(programs: &'p [Program], name: &str) -> Option<&'p Program>
    ensures { IfSome result (λ p. IsNamedIn name.now programs.now p.now) }
{
    for program in programs {
        if program.name.as_bytes() == name.as_bytes() {
            return Some(program);
        }
    }
    None
}

/// The one program of the project file at a path that has this name.
fn one_named<'a, 'p>(
    alloc: Global,
    path: &str,
    programs: &'p [Program],
    name: &str,
) -> Fallible<'a, &'p [Program]>
    ensures one { IfOk result (λ found.
        (p : Program) × IsNamedIn name.now programs.now p × (found.now ≡ p ∷ [])) }
    ensures failed { IfErr result (FailsBy (λ reason. ⊥) NoOther) }
{
    match named(programs, name) {
        Some(program) => Ok(slice::from_ref(program)),
        None => {
            let text = format!(in alloc; "error: {path} has no program `{name}`\n")?;
            Err(Failure::Usage(text))
        }
    }
}

/// The programs of the project file that are judged: all, or the one of the name.
pub(crate) fn chosen<'a, 'p>(
    alloc: Global,
    programs: &'p [Program],
    asked: Projecting<'a>,
) -> Fallible<'a, &'p [Program]>
    ensures chosen { IfOk result (λ found. AreChosen asked.entry.name programs.now found.now) }
    ensures failed { IfErr result (FailsBy (λ reason. ⊥) NoOther) }
{
    let Some(name) = asked.name else {
        return Ok(programs);
    };
    one_named(alloc, asked.project, programs, name)
}
