//! The explanation of an image that is refused, or isn't steady though its flows are allowed.

use std::alloc::{AllocError, Global};
use vsi_audit::AuditError;
use vsi_compiler::{CompileError, Source, image_of, read_source};
use vsi_image::{Image, Instr};
use vsi_lattice::{Classes, Lattice};
use vsi_opt::optimise;
use vsi_scope::{Cmd, Ex, Resolved};
use vsi_steady::{SteadyError, chain_source};
use vsi_syntax::{Span, line_column};
use vsi_telling::Part::{Names, Number, Quoted, Text};
use vsi_telling::{Part, Telling, Told, class_names, part_of, say};

/// A refused image, and the lattice by which it was judged.
#[derive(Clone, Copy)]
pub(crate) struct Judged<'a> {
    pub(crate) lattice: &'a Lattice,
    pub(crate) image: &'a Image,
}

/// The sentences about an image whose fields aren't those of its commands.
const WRONG_FIELDS: &str = "The image has the fields slots % and stack %, but its commands need \
    another number for one of them.\nHint: `vsi source IMAGE` prints the commands as a text; build \
    an image from that.\n";
/// The sentences about commands that no text has.
const NO_TEXT: &str = "The code has more commands, or nests them deeper, than a text may.\n\
    Hint: `vsi list IMAGE` shows the instructions.\n";

/// The rule for an instruction in an image's commands.
fn rule_of(instruction: Option<&Instr>) -> &'static [u8] {
    match instruction {
        Some(Instr::Jz(_)) => {
            b"A JZ belongs to an `if` or a `while`: the instruction before its target is a JMP, \
            which ends the first branch or the body.\n"
        }
        Some(Instr::Jmp(_)) => {
            b"A JMP ends the first branch of an `if`, or leads from the end of a body back to the \
            guard of its `while`, and is nowhere else.\n"
        }
        Some(Instr::Halt) => b"HALT is the last instruction, and is nowhere else.\n",
        Some(Instr::Load(_)) => {
            b"A LOAD reads a global, or a local that an earlier STORE has set in the same branch \
            or around it; an expression is nested at most 200 deep.\n"
        }
        Some(Instr::Store(_)) => {
            b"A STORE ends an assignment. It takes the only operand on the stack, which reads no \
            local that isn't set; locals are first set in the order of their slots.\n"
        }
        _ => {
            b"An operand is used within its command, and an expression is nested at most 200 \
            deep.\n"
        }
    }
}

impl Judged<'_> {
    /// Adds a sentence, and the line of an instruction as a listing has it, if there is one with
    /// this number.
    fn put_at(
        self,
        telling: &mut Telling<'_>,
        sentence: &str,
        parts: &[Part<'_>],
        number: usize,
    ) -> Result<(), AllocError> {
        telling.say(sentence, parts)?;
        let Some(instruction) = self.image.code.get(number) else {
            return Ok(());
        };
        telling.say("  %: ", &[Number(number)])?;
        instruction.write_to(&mut telling.words)?;
        telling.add("\n")
    }

    /// Explains a global whose class the lattice lacks.
    fn bad_class(self, telling: &mut Telling<'_>, number: usize) -> Told {
        let Some((name, class)) = self.image.globals.get(number) else {
            return Ok(None);
        };
        let classes = class_names(telling.alloc, self.lattice)?;
        let sentence = "The global % has the class %, which the lattice file lacks: its classes \
            are %.\nHint: give the lattice file with which the image was built; `vsi list IMAGE` \
            shows each global with its class.\n";
        let parts = [Quoted(name), Quoted(class), Names(&classes)];
        telling.tell(None, sentence, &parts)
    }

    /// Adds the explanation of an image whose commands are judged.
    pub(crate) fn of_audit(self, telling: &mut Telling<'_>, error: &AuditError) -> Told {
        match error {
            AuditError::Memory => Err(AllocError),
            AuditError::UnknownClass(number) => self.bad_class(telling, *number),
            AuditError::Unstructured(number) => {
                let sentence = "The image is valid, but its code isn't that of commands from here \
                    on:\n";
                self.put_at(telling, sentence, &[], *number)?;
                let sentence = "%Hint: build the image again from its source text. Code without \
                    commands is judged by `vsi audit LATTICE IMAGE --steady`.\n";
                let parts = [Text(rule_of(self.image.code.get(*number)))];
                telling.tell(None, sentence, &parts)
            }
            AuditError::WrongFields => {
                let slots = Number(self.image.slots as usize);
                let stack = Number(self.image.stack as usize);
                telling.tell(None, WRONG_FIELDS, &[slots, stack])
            }
            AuditError::NoText => telling.tell(None, NO_TEXT, &[]),
            AuditError::Flow(walk) => {
                let (Some(first), Some(last)) = (walk.steps.first(), walk.steps.last()) else {
                    return Ok(None);
                };
                let (from, to) = (first.read.start, last.written.start);
                let sentence = "The numbers are those of instructions. The flow begins at\n";
                self.put_at(telling, sentence, &[], from)?;
                if to != from {
                    self.put_at(telling, "and ends at\n", &[], to)?;
                }
                let sentence = "Hint: `vsi source IMAGE` prints the image as a text, and `vsi \
                    check LATTICE TEXT --explain` shows each step of the flow in that text.\n";
                telling.tell(None, sentence, &[])
            }
        }
    }

    /// Adds the explanation of an image that isn't steady.
    pub(crate) fn of_steady(self, telling: &mut Telling<'_>, error: &SteadyError) -> Told {
        match error {
            SteadyError::Memory => Err(AllocError),
            SteadyError::UnknownClass(number) => self.bad_class(telling, *number),
            SteadyError::Flow(number) => {
                let slot = chain_source(telling.alloc, self.lattice, self.image, *number)?;
                let mut source = Vec::new(telling.alloc);
                let slot = slot.map_or(usize::MAX, |slot| slot as usize);
                match self.image.globals.get(slot) {
                    Some((name, class)) => say(&mut source, "% : %", &[Text(name), Text(class)])?,
                    None => source.extend_from_slice(b"(something)")?,
                }
                let source = Quoted(&source);
                if let Some(Instr::Store(_)) = self.image.code.get(*number) {
                    let sentence = "This instruction writes a value that depends on %:\n";
                    self.put_at(telling, sentence, &[source], *number)?;
                    let sentence = "Hint: give the global that it writes a class at or above that \
                        one, or write a value there that doesn't depend on it.\n";
                    return telling.tell(None, sentence, &[]);
                }
                self.put_at(telling, "This jump depends on %:\n", &[source], *number)?;
                let sentence = "With --steady a jump depends on nothing above the least class, \
                    which is %.\nHint: compute both results and select one by arithmetic, as in \
                    `out := g * a + (1 - g) * b` for a guard g that is 0 or 1, and build the image \
                    again.\n";
                let parts = [Quoted(self.lattice.name(self.lattice.bottom()))];
                telling.tell(None, sentence, &parts)
            }
        }
    }
}

/// The flows of a program by assignments and guards. Variables have numbers, globals first.
#[derive(Drop)]
struct Flows {
    globals: usize,
    /// The flows, each from a variable to another one, or to a jump.
    steps: Vec<(usize, Option<usize>)>,
    /// The slot of each variable.
    slots: Vec<usize>,
    /// The variables in scope, by their slots.
    scope: Vec<usize>,
}

/// How a variable is reached: from another one, and whether it has the slot of that one. The first
/// variable is reached from itself.
type Reached = Option<(usize, bool)>;

/// Adds the flows from the variables of an expression.
fn put_reads(e: &Ex, to: Option<usize>, flows: &mut Flows) -> Result<(), AllocError> {
    match e {
        Ex::Num(_) => Ok(()),
        Ex::Loc(slot, _) => {
            if let Some(from) = flows.scope.get(*slot as usize).copied() {
                flows.steps.push((from, to))?;
            }
            Ok(())
        }
        Ex::Op(_, left, right) => {
            put_reads(left, to, flows)?;
            put_reads(right, to, flows)
        }
    }
}

/// Brings the variable of a `letvar` into scope.
fn begin(flows: &mut Flows) -> Result<(), AllocError> {
    let (number, slot) = (flows.slots.len(), flows.scope.len());
    flows.slots.push(slot)?;
    flows.scope.push(number)?;
    Ok(())
}

/// Adds the flows of commands.
#[cycle(flowing)]
fn put_all(body: &[Cmd], flows: &mut Flows) -> Result<(), AllocError> {
    for c in body {
        put_one(c, flows)?;
    }
    Ok(())
}

/// Adds the flows of a command.
#[cycle(flowing)]
fn put_one(c: &Cmd, flows: &mut Flows) -> Result<(), AllocError> {
    match c {
        Cmd::Assign { loc, value, .. } => match flows.scope.get(*loc as usize).copied() {
            Some(to) => put_reads(value, Some(to), flows),
            None => Ok(()),
        },
        Cmd::If { guard, yes, no } => {
            put_reads(guard, None, flows)?;
            put_all(yes, flows)?;
            put_all(no, flows)
        }
        Cmd::While { guard, body } => {
            put_reads(guard, None, flows)?;
            put_all(body, flows)
        }
        Cmd::Letvar { value, body } => {
            let number = flows.slots.len();
            put_reads(value, Some(number), flows)?;
            begin(flows)?;
            put_all(body, flows)?;
            let _ended = flows.scope.pop();
            Ok(())
        }
    }
}

/// Whether a variable is reached.
fn is_reached(reached: &[Reached], variable: usize) -> bool {
    matches!(reached.get(variable), Some(Some(_)))
}

/// Marks a local variable that isn't reached yet, and says whether it was one.
fn mark(flows: &Flows, reached: &mut [Reached], variable: usize, how: (usize, bool)) -> bool {
    if variable < flows.globals || is_reached(reached, variable) || variable >= reached.len() {
        return false;
    }
    reached[variable] = Some(how);
    true
}

/// Goes on along the flows until nothing changes, or a flow reaches the target: then returns the
/// variable that it comes from.
fn follow(flows: &Flows, reached: &mut [Reached], target: Option<usize>) -> Option<usize> {
    for _ in 0..=flows.slots.len() {
        let mut has_changed = false;
        for step in &flows.steps {
            let (from, to) = *step;
            if !is_reached(reached, from) {
                continue;
            }
            if to == target {
                return Some(from);
            }
            if let Some(to) = to {
                has_changed = mark(flows, reached, to, (from, false)) || has_changed;
            }
        }
        if !has_changed {
            return None;
        }
    }
    None
}

/// The last two variables with the same slot on the way to a variable.
fn pair_before(reached: &[Reached], variable: usize) -> Option<(usize, usize)> {
    let mut at = variable;
    for _ in 0..reached.len() {
        let (before, is_shared) = reached.get(at).copied().flatten()?;
        if is_shared {
            return Some((before, at));
        }
        at = before;
    }
    None
}

/// Two variables with the same slot, by which a global reaches the target.
fn shared_pair(
    alloc: Global,
    flows: &Flows,
    first: usize,
    target: Option<usize>,
) -> Result<Option<(usize, usize)>, AllocError> {
    let mut reached: Vec<Reached> = Vec::new(alloc);
    reached.resize(flows.slots.len(), None)?;
    if first < reached.len() {
        reached[first] = Some((first, false));
    }
    for _ in 0..=flows.slots.len() {
        if let Some(last) = follow(flows, &mut reached, target) {
            return Ok(pair_before(&reached, last));
        }
        // Goes on from each local variable to those with the same slot.
        let mut has_changed = false;
        for variable in flows.globals..flows.slots.len() {
            if !is_reached(&reached, variable) {
                continue;
            }
            for other in flows.globals..flows.slots.len() {
                if flows.slots.get(other) == flows.slots.get(variable) {
                    has_changed = mark(flows, &mut reached, other, (variable, true)) || has_changed;
                }
            }
        }
        if !has_changed {
            return Ok(None);
        }
    }
    Ok(None)
}

/// The names of the two variables that share a slot, in the order of the text, where its image is
/// refused at an instruction.
fn sharers(
    alloc: Global,
    source: &Source<'_>,
    place: usize,
) -> Result<Option<(Span, Span)>, AllocError> {
    let verified = image_of(alloc, source)?;
    let image = verified.image();
    let Some(first) = chain_source(alloc, source.lattice(), image, place)? else {
        return Ok(None);
    };
    let target = match image.code.get(place) {
        Some(Instr::Store(slot)) => Some(*slot as usize),
        _ => None,
    };
    let program = optimise(alloc, source.resolved())?;
    let mut flows = Flows {
        globals: program.globals().len(),
        steps: Vec::new(alloc),
        slots: Vec::new(alloc),
        scope: Vec::new(alloc),
    };
    for _ in program.globals() {
        begin(&mut flows)?;
    }
    put_all(program.body(), &mut flows)?;
    let Some((one, other)) = shared_pair(alloc, &flows, first as usize, target)? else {
        return Ok(None);
    };
    let entries = program.letvars();
    let first = entries.get(one.min(other).saturating_sub(flows.globals));
    let second = entries.get(one.max(other).saturating_sub(flows.globals));
    Ok(first.zip(second).map(|pair| (pair.0.span, pair.1.span)))
}

/// Adds the explanation of a text whose flows are allowed, but whose image isn't steady, and
/// returns the position of the second variable that has the slot.
pub(crate) fn of_shared(telling: &mut Telling<'_>, lattice: &Lattice, error: &SteadyError) -> Told {
    let SteadyError::Flow(place) = error else {
        return Ok(None);
    };
    let text = telling.bytes;
    let source = match read_source(telling.alloc, lattice, text) {
        Ok(source) => source,
        Err(CompileError::Memory) => return Err(AllocError),
        Err(_) => return Ok(None),
    };
    let Some((first, second)) = sharers(telling.alloc, &source, *place)? else {
        return Ok(None);
    };
    let sentence = "The flows of the text are allowed, but its image isn't steady: % (line %) and \
        % (line %) have the same slot of the image, one after the other, and a slot has one class \
        for the whole code.\nHint: nest one `letvar` in the other, and each has a slot of its \
        own.\n";
    let name = |span: Span| Quoted(part_of(text, span));
    let line = |span: Span| Number(line_column(text, span.start).0);
    let parts = [name(first), line(first), name(second), line(second)];
    telling.tell(Some(second), sentence, &parts)
}
