//! The globals of an image as declarations, and their names.

ghost use Rattle.std.specs.Prelude.{◌≡◌, ◌++◌, true, OnOk, ℕ, map, IfOk, IfErr, IfSome};
ghost use Rattle.vsi_audit.specs.{MadeNames.{IsForm}, Telling.{local_name, class_name}, Text.{words}, Refusal.{IsUnknownAt}, Standing.{HaveClasses}, Unread.{IsUnread}};
ghost use Rattle.vsi_lattice.specs.LatticeView.{class_named};
ghost use Rattle.vsi_scope.specs.{Program.{IsResolved}, Resolving.{AreBelow, HasClassesBelow}};
ghost use Rattle.vsi_image.specs.declared.instr.Image.{Image as ImageValue};
ghost use Rattle.vsi_image.specs.Fields as fields;
ghost use Rattle.vsi_audit.specs.MadeNames as spec;
ghost use Rattle.vsi_syntax.specs.CommandView as syntax;

use crate::flow::{AuditError, Unread};
use crate::source::read;
use std::alloc::{AllocError, Global};
use vsi_image::Image;
use vsi_lattice::Lattice;
use vsi_scope::{Resolved, ScopeError, resolve};
use vsi_syntax::{Declaration, put_number};

/// The beginning of made-up names: a letter and a number of `_`.
#[derive(Clone, Copy)]
pub(crate) struct Form {
    letter: u8,
    bars: usize,
}

/// The names of the variables in scope.
#[derive(Drop)]
pub(crate) struct Names<'a> {
    globals: &'a [(Vec<u8>, Vec<u8>)],
    form: Form,
    /// The numbers of the locals in scope, from 1; `count` is the number of locals so far.
    pub scope: Vec<usize>,
    pub count: usize,
}

/// Whether a text is `bars` times `_`, followed by digits.
fn is_numbered(text: &[u8], bars: usize) -> bool
    ensures { result ≡ spec.is_numbered bars text.now }
{
    let [first, rest @ ..] = text else {
        return bars == 0;
    };
    if bars == 0 {
        if first.is_ascii_digit() {
            return is_numbered(rest, 0);
        }
        return false;
    }
    if *first == b'_' {
        return is_numbered(rest, bars - 1);
    }
    false
}

/// Whether one of the globals has a name of this form.
fn is_taken(globals: &[(Vec<u8>, Vec<u8>)], form: Form) -> bool
    ensures { result ≡ spec.is_taken form (fields.globals globals.now) }
{
    for global in globals {
        let [first, rest @ ..] = global.0.as_slice() else {
            continue;
        };
        if *first == form.letter && is_numbered(rest, form.bars) {
            return true;
        }
    }
    false
}

/// The form of the made-up names for these globals: the first that no global has, of `t1`, then
/// `a1`, `a_1` and so on, then `b1`. Each global takes at most one form, so of 260 forms at least
/// one is free with 256 globals.
fn form_beside(globals: &[(Vec<u8>, Vec<u8>)]) -> Form
    ensures { IsForm (fields.globals globals.now) result }
{
    let plain = Form {
        letter: b't',
        bars: 0,
    };
    if !is_taken(globals, plain) {
        return plain;
    }
    // 123 is the byte after `z`.
    for letter in b'a'..123 {
        for bars in 0..10 {
            let form = Form { letter, bars };
            if !is_taken(globals, form) {
                return form;
            }
        }
    }
    Form {
        letter: b't',
        bars: 10,
    }
}

impl<'a> Names<'a> {
    /// The names with no local in scope.
    pub(crate) fn of(alloc: Global, globals: &'a [(Vec<u8>, Vec<u8>)]) -> Names<'a>
        ensures globals { result.globals.now ≡ globals.entry.now }
        ensures form { IsForm (fields.globals result.globals.now) result.form }
    {
        Names {
            globals,
            form: form_beside(globals),
            scope: Vec::new(alloc),
            count: 0,
        }
    }

    /// Adds the made-up name with a number.
    pub(crate) fn put_made(&self, out: &mut Vec<u8>, number: usize) -> Result<(), AllocError>
        ensures { OnOk result (out.new.items ≡ out.old.items ++ spec.made self.now.form number) }
    {
        out.push(self.form.letter)?;
        for _ in 0..self.form.bars {
            out.push(b'_')?;
        }
        put_number(out, number)
    }

    /// Adds the name of a location.
    pub(crate) fn put(&self, out: &mut Vec<u8>, location: u16) -> Result<(), AllocError> {
        let location = location as usize;
        if location < self.globals.len() {
            return out.extend_from_slice(&self.globals[location].0);
        }
        let number = self.scope.get(location - self.globals.len()).copied();
        self.put_made(out, number.unwrap_or(0))
    }

    /// Adds the name of a variable: the globals come first, then the locals in the order of the
    /// code.
    pub(crate) fn put_variable(&self, out: &mut Vec<u8>, variable: u16) -> Result<(), AllocError>
        ensures { OnOk result (out.new.items ≡ out.old.items ++
            local_name (fields.globals self.now.globals.now) self.now.form variable) }
    {
        let place = variable as usize;
        if place < self.globals.len() {
            return out.extend_from_slice(&self.globals[place].0);
        }
        self.put_made(out, place - self.globals.len() + 1)
    }

    /// Adds the class name of a variable; a local has none.
    pub(crate) fn put_class(&self, out: &mut Vec<u8>, variable: u16) -> Result<(), AllocError>
        ensures { OnOk result (out.new.items ≡ out.old.items ++
            class_name (fields.globals self.now.globals.now) variable) }
    {
        let place = variable as usize;
        if place < self.globals.len() {
            return out.extend_from_slice(&self.globals[place].1);
        }
        Ok(())
    }
}

/// The number of the first global whose class name isn't in the lattice.
pub(crate) fn unknown_class(lattice: &Lattice, globals: &[(Vec<u8>, Vec<u8>)]) -> Option<usize>
    ensures { IfSome result (IsUnknownAt (class_named lattice.now) (fields.globals globals.now)) }
{
    for i in 0..globals.len() {
        let class = lattice.class_named(&globals[i].1);
        match class {
            Some(_) => {}
            None => return Some(i),
        }
    }
    None
}

/// Adds the declarations of an image's globals, one line each.
pub(crate) fn put_declarations(text: &mut Vec<u8>, image: &Image) -> Result<(), AllocError> {
    for global in &image.globals {
        text.extend_from_slice(b"var ")?;
        text.extend_from_slice(&global.0)?;
        text.extend_from_slice(b" : ")?;
        text.extend_from_slice(&global.1)?;
        text.extend_from_slice(b";\n")?;
    }
    Ok(())
}

/// Whether a declaration has the name and the class name of a global.
fn is_declared(declared: &Declaration<'_>, global: &(Vec<u8>, Vec<u8>)) -> bool
    ensures { result ≡ true → words (syntax.declared declared.now) ≡ fields.global global.now }
{
    if declared.name.text == global.0.as_slice() {
        declared.class.text == global.1.as_slice()
    } else {
        false
    }
}

/// Whether declarations are those of these globals, in order.
pub(crate) fn declares(declared: &[Declaration<'_>], globals: &[(Vec<u8>, Vec<u8>)]) -> bool
    ensures { result ≡ true →
        map words (map syntax.declared declared.now) ≡ fields.globals globals.now }
{
    if declared.len() != globals.len() {
        return false;
    }
    let mut place = 0;
    for global in globals {
        if !is_declared(&declared[place], global) {
            return false;
        }
        place += 1;
    }
    true
}

/// A text that declares an image's globals and does nothing with them.
pub(crate) fn declarations(alloc: Global, image: &Image) -> Result<Vec<u8>, AllocError> {
    let mut text = Vec::new(alloc);
    put_declarations(&mut text, image)?;
    text.extend_from_slice(b"letvar t := 0 in t := 0")?;
    Ok(text)
}

/// The program of a text that declares globals.
pub(crate) fn declared_program<'a>(
    alloc: Global,
    lattice: &Lattice,
    text: &'a [u8],
) -> Result<Resolved<'a>, Unread>
    ensures kept { IfOk result IsResolved }
    ensures classes { (n : ℕ) → AreBelow n (class_named lattice.now) →
        IfOk result (HasClassesBelow n) }
    ensures named { IfOk result (λ r. HaveClasses (class_named lattice.now) r.globals) }
    ensures unread { (im : ImageValue) → IfErr result (IsUnread im) }
{
    let program = match read(alloc, text) {
        Ok(program) => program,
        Err(AuditError::Memory) => return Err(Unread::Memory),
        Err(_) => return Err(Unread::Fields),
    };
    let resolved = match resolve(alloc, &program, lattice) {
        Ok(resolved) => resolved,
        Err(ScopeError::Memory) => return Err(Unread::Memory),
        Err(_) => return Err(Unread::Fields),
    };
    // The contract of `body` says that the program is resolved, and the proofs need that.
    let _body = resolved.body();
    Ok(resolved)
}
