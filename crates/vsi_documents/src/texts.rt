//! The classes, flows and raises of a source text as lines of JSON.

ghost use Rattle.std.specs.{Prelude.{◌≡◌, IfOk}, List.{All}};
ghost use Rattle.vsi_lattice.specs.{LatticeView.{order}, Order.{IsClass}};
ghost use Rattle.vsi_types.specs.Security.{program as program_of};
ghost use Rattle.vsi_infer.specs.Inference.{AreClasses};
ghost use Rattle.vsi_flows.specs.Answers.{HasClassesIn};
ghost use Rattle.vsi_documents.specs.{Answers.{TellsMended}, Classes.{TellsClasses}, Flows.{TellsFlows, are_allowed as are_allowed_of}};

use crate::answer::{Made, Reply, refused, verdict_line};
use std::alloc::{AllocError, Global};
use vsi_answers::{Object, Objects};
use vsi_compiler::{CompileError, Source, judge, read_source};
use vsi_conform::{check_json, check_json_of, judgement_by, unread_json};
use vsi_flows::{FlowsError, Pair, Raise, Raising, flows_in, name_start, raises_of};
use vsi_infer::{class_name, declared_class, variable_name};
use vsi_lattice::Lattice;
use vsi_scope::{Resolved, Var};
use vsi_syntax::{Span, line_column};
use vsi_types::Profile;

/// The object of a declaration.
fn class_object(alloc: Global, text: &[u8], span: Span, name: &[u8], class: &[u8]) -> Made<Object> {
    let (line, column) = line_column(text, span.start);
    Object::new(alloc)
        .natural("line", line)?
        .natural("column", column)?
        .text("name", name)?
        .text("class", class)
}

/// The answer for a source text that was read.
fn source_classes(alloc: Global, profile: Profile, source: &Source<'_>) -> Result<Reply, AllocError>
    ensures { IfOk result (λ answer. TellsClasses source.now.lattice profile source.now.text
        answer.is_good answer.text.items) }
{
    let lattice = source.lattice();
    let letvars = source.resolved().letvars();
    match judge(alloc, profile, source) {
        Ok(classes) => {
            let text = source.text();
            let mut objects = Objects::new(alloc);
            for global in source.globals() {
                let (span, name) = (global.name.span, global.name.text);
                objects.push(class_object(alloc, text, span, name, global.class.text)?)?;
            }
            for (i, entry) in letvars.iter().enumerate() {
                let class = lattice.name(classes[i]);
                objects.push(class_object(alloc, text, entry.span, entry.name, class)?)?;
            }
            let text = verdict_line(alloc, true, "classes", objects)?;
            let is_good = true;
            Ok(Reply { is_good, text })
        }
        Err(_) => refused(check_json_of(alloc, judgement_by(profile), source)?),
    }
}

/// The answer of `vsi classes` to a text as a line of JSON: an object with `accepted`, which is
/// true, and `classes`, an array with an object for each declaration, in the order of the lines of
/// `classes_text_in`. For a refused text it is the line of `check_json`. An error means that
/// memory ran out.
pub fn classes_json(
    alloc: Global,
    profile: Profile,
    lattice: &Lattice,
    text: &[u8],
) -> Result<Reply, AllocError>
    ensures answer { IfOk result (λ answer. TellsClasses lattice.now profile text.now
        answer.is_good answer.text.items) }
{
    match read_source(alloc, lattice, text) {
        Ok(source) => source_classes(alloc, profile, &source),
        Err(_) => refused(check_json(alloc, judgement_by(profile), lattice, text)?),
    }
}

/// The object with the name of a variable and the name of its declared class at two keys.
fn with_variable(
    made: Object,
    keys: (&str, &str),
    lattice: &Lattice,
    program: &Resolved<'_>,
    variable: Var,
) -> Result<Object, AllocError>
    requires globals { All (IsClass (order lattice.now)) (program_of program.now).globals }
    requires declared { AreClasses (order lattice.now) (program_of program.now).declared }
{
    let class = declared_class(lattice, program, variable);
    made.text(keys.0, variable_name(program, variable))?
        .text(keys.1, class_name(lattice, class))
}

/// The objects of pairs, in their order.
fn pair_objects(
    alloc: Global,
    lattice: &Lattice,
    program: &Resolved<'_>,
    pairs: &[Pair],
) -> Result<Objects, AllocError>
    requires globals { All (IsClass (order lattice.now)) (program_of program.now).globals }
    requires declared { AreClasses (order lattice.now) (program_of program.now).declared }
{
    let (from, to) = (("from", "from_class"), ("to", "to_class"));
    let mut found = Objects::new(alloc);
    for pair in pairs {
        let made = with_variable(Object::new(alloc), from, lattice, program, pair.source)?;
        let made = with_variable(made, to, lattice, program, pair.target)?
            .flag("allowed", pair.allowed)?
            .natural("steps", pair.steps as usize)?;
        found.push(made)?;
    }
    Ok(found)
}

/// Whether each pair is allowed.
fn are_allowed(pairs: &[Pair]) -> bool
    ensures { result ≡ are_allowed_of pairs.now }
{
    let mut rest = pairs;
    while let [pair, behind @ ..] = rest {
        if !pair.allowed {
            return false;
        }
        rest = behind;
    }
    true
}

/// The answer of `vsi flows` to a text as a line of JSON: an object with `accepted`, whether no
/// pair is refused, and `flows`, an array with an object for each pair, in the order of the lines
/// of `flows_text_in`. For a text without a program it is the line of `check_json`. An error means
/// that memory ran out.
pub fn flows_json(
    alloc: Global,
    profile: Profile,
    lattice: &Lattice,
    text: &[u8],
) -> Result<Reply, AllocError>
    ensures answer { IfOk result (λ answer. TellsFlows lattice.now profile text.now
        answer.is_good answer.text.items) }
{
    match read_source(alloc, lattice, text) {
        Ok(source) => {
            let lattice = source.lattice();
            let resolved = source.resolved();
            let pairs = match flows_in(alloc, profile, lattice, resolved) {
                Ok(pairs) => pairs,
                Err(FlowsError::Memory) => return Err(AllocError),
            };
            let objects = pair_objects(alloc, lattice, resolved, &pairs)?;
            let text = verdict_line(alloc, are_allowed(&pairs), "flows", objects)?;
            let is_good = true;
            Ok(Reply { is_good, text })
        }
        Err(CompileError::Memory) => Err(AllocError),
        Err(_) => refused(check_json(alloc, judgement_by(profile), lattice, text)?),
    }
}

/// The objects of raises of a source text, in their order.
fn raise_objects(alloc: Global, source: &Source<'_>, raises: &[Raise]) -> Made<Objects>
    requires { HasClassesIn (order source.now.lattice) raises.now }
{
    let lattice = source.lattice();
    let program = source.resolved();
    let mut found = Objects::new(alloc);
    for raise in raises {
        let start = name_start(source.globals(), program.letvars(), raise.variable);
        let (line, column) = line_column(source.text(), start);
        let made = Object::new(alloc)
            .natural("line", line)?
            .natural("column", column)?;
        let made = with_variable(made, ("name", "from"), lattice, program, raise.variable)?
            .text("to", lattice.name(raise.new))?
            .text("because", variable_name(program, raise.cause))?;
        found.push(made)?;
    }
    Ok(found)
}

/// The answer for a source text that was read.
fn source_mended(alloc: Global, profile: Profile, source: &Source<'_>) -> Result<Reply, AllocError>
    ensures { IfOk result (λ mended. TellsMended source.now.lattice profile source.now.text
        mended.is_good mended.text.items) }
{
    // The contract of `resolved` says that the source is one; the proofs need that.
    let _program = source.resolved();
    let checked = check_json_of(alloc, judgement_by(profile), source)?;
    let raising = raises_of(alloc, profile, source)?;
    match raising {
        Raising::Raised(raises) => {
            let objects = raise_objects(alloc, source, &raises)?;
            let text = verdict_line(alloc, checked.is_accepted, "raises", objects)?;
            let is_good = true;
            Ok(Reply { is_good, text })
        }
        Raising::Refused(_walk) => refused(checked),
    }
}

/// The answer of `vsi mend` to a text as a line of JSON: an object with `accepted`, whether the
/// text is accepted as it is, and `raises`, an array with an object for each of the least raises,
/// in the order of the lines of `raise_lines_in`. Where no raise serves, or the text has no
/// program, it is the line of `check_json`. The text is read once.
pub fn mend_json(
    alloc: Global,
    profile: Profile,
    lattice: &Lattice,
    text: &[u8],
) -> Result<Reply, AllocError>
    ensures answer { IfOk result (λ mended.
        TellsMended lattice.now profile text.now mended.is_good mended.text.items) }
{
    match read_source(alloc, lattice, text) {
        Ok(source) => source_mended(alloc, profile, &source),
        Err(CompileError::Memory) => Err(AllocError),
        Err(error) => {
            let text = unread_json(alloc, judgement_by(profile), lattice, text, error)?;
            let is_good = false;
            Ok(Reply { is_good, text })
        }
    }
}
