//! Resolves a whole program: its names in scope, its globals and its body.

ghost use Rattle.std.specs.Prelude.{◌≡◌, ◌+◌, ◌<◌, ◌≤◌, length, map, IfSome, [], ◌∷◌, Some, None, IfOk, ℕ, List, IfErr};
ghost use Rattle.vsi_scope.specs.{Places.{place_of}, Limits.{max_declarations, max_globals}, Faults.{global_marks, first_fault, Judged}, Resolver.{names_of, HasRead}, declared.resolution.ScopeError.TheVariants.{Memory}, Language.{Command, depth}, View.{sequence}, Resolving.{Resolves, AreBelow, HasClassesBelow, IsResolution, ExplainsScope}};
ghost use Rattle.vsi_lattice.specs.LatticeView.{class_named};
ghost use Rattle.vsi_syntax.specs.{Limits.{max_depth}, ProgramView.{whole}};
ghost use Rattle.vsi_syntax.specs.CommandView as syntax;

use crate::measure::size;
use crate::resolution::command::{Resolver, sequence};
use crate::resolution::{MAX_GLOBALS, MAX_SIZE, ScopeError};
use crate::resolved;
use crate::resolved::Resolved;
use indexmap::IndexSet;
use std::alloc::Global;
use vsi_lattice::{Class, Lattice};
use vsi_syntax::{Declaration, Program};

/// The names in scope. Globals are looked up by key; letvars, of which at most 200 enclose any
/// command, are searched from the innermost outwards.
#[derive(Drop)]
pub(crate) struct Names<'a> {
    /// The names of the globals, in order.
    pub(crate) globals: IndexSet<&'a [u8]>,
    /// The names of the letvars in scope, the innermost last.
    pub(crate) locals: Vec<&'a [u8]>,
}

impl<'a> Names<'a> {
    /// The last position of a name: that of the innermost letvar, counted after the globals, or the
    /// number of the global.
    pub(crate) fn find(&self, name: &[u8]) -> Option<u16>
        requires { length self.now.globals.keys + length self.now.locals.items ≤ max_declarations }
        ensures { result ≡ place_of (names_of self.now) name.now }
    {
        let globals = self.globals.len();
        if let Some(at) = innermost(&self.locals, name) {
            return Some((globals + at) as u16);
        }
        match self.globals.get_index_of(name) {
            Some(at) => Some(at as u16),
            None => None,
        }
    }
}

/// The last position of a name, found by comparing every name from the last to the first.
fn innermost(names: &[&[u8]], name: &[u8]) -> Option<usize>
    ensures place { result ≡ place_of (map (λ x. x.now) names.now) name.now }
    ensures within { IfSome result (λ at. at < length names.now) }
{
    let mut at = names.len();
    while at > 0 {
        at -= 1;
        if names[at] == name {
            return Some(at);
        }
    }
    None
}

/// The globals, and their names.
#[derive(Drop)]
pub(crate) struct Globals<'a> {
    pub(crate) list: Vec<resolved::Global<'a>>,
    pub(crate) names: Names<'a>,
}

/// The class of a declaration after these names. The name is judged before the class.
fn class_below<'a>(
    lattice: &Lattice,
    names: &Names<'a>,
    d: &Declaration<'a>,
) -> Result<Class, ScopeError>
    requires outer { names.now.locals.items ≡ [] }
    requires few { length names.now.globals.keys ≤ max_globals }
    ensures class { IfOk result (λ c. class_named lattice.now d.now.class.text.now ≡ Some c) }
    ensures fresh { IfOk result (λ _. place_of (names_of names.now) d.now.name.text.now ≡ None) }
    ensures few { IfOk result (λ _. length names.now.globals.keys < max_globals) }
    ensures fault { Judged result (first_fault (class_named lattice.now)
        (global_marks (names_of names.now) (syntax.declared d.now ∷ []))) }
{
    let None = names.find(d.name.text) else {
        return Err(ScopeError::Duplicate(d.name.span));
    };
    if names.globals.len() >= MAX_GLOBALS {
        return Err(ScopeError::TooManyGlobals(d.name.span));
    }
    match lattice.class_named(d.class.text) {
        Some(class) => Ok(class),
        None => Err(ScopeError::UnknownClass(d.class.span)),
    }
}

/// The globals in order.
pub(crate) fn read_globals<'a>(
    alloc: Global,
    lattice: &Lattice,
    declarations: &[Declaration<'a>],
) -> Result<Globals<'a>, ScopeError>
    ensures read { IfOk result
        (HasRead (class_named lattice.now) (map syntax.declared declarations.now)) }
    ensures fault { Judged result
        (first_fault (class_named lattice.now)
        (global_marks [] (map syntax.declared declarations.now))) }
{
    let mut globals = Globals {
        list: Vec::new(alloc),
        names: Names {
            globals: IndexSet::new(alloc),
            locals: Vec::new(alloc),
        },
    };
    for d in declarations {
        let class = class_below(lattice, &globals.names, d)?;
        let global = resolved::Global {
            name: d.name.text,
            class,
            class_name: d.class.text,
        };
        let Ok(()) = globals.list.push(global) else {
            return Err(ScopeError::Memory);
        };
        globals.names.globals.insert(d.name.text)?;
    }
    Ok(globals)
}

/// The program over locations, with the classes that the lattice has for the class names in the
/// text.
///
/// # Errors
///
/// The first fault in source order; of two faults at one name, the one listed first in
/// [`ScopeError`]. A `letvar` is checked in the order of its name (`TooManyDeclarations`), its
/// class (`UnknownClass`) and its initial value (`Unbound`). A program without such a fault is
/// `TooLarge` if its size is above 65,534. `Memory` may replace any answer.
pub fn resolve<'a>(
    alloc: Global,
    program: &Program<'a>,
    lattice: &Lattice,
) -> Result<Resolved<'a>, ScopeError>
    ensures resolved { IfOk result (λ r. Resolves (class_named lattice.now) (whole program.now) r) }
    // Each choice, loop, letvar and operator of the body counts as a level.
    ensures shallow { IfOk result (λ r. depth (sequence r.body) ≤ max_depth) }
    ensures classes { (n : ℕ) → AreBelow n (class_named lattice.now) →
        IfOk result (λ r. HasClassesBelow n r) }
    ensures refused { IfErr result
        (λ e. ExplainsScope (class_named lattice.now) (whole program.now) e) }
    ensures exact { (cs : List Command) →
        IsResolution (class_named lattice.now) (whole program.now) cs →
        IfErr result (λ e. e ≡ Memory) }
{
    let Globals { list, names } = read_globals(alloc, lattice, program.globals())?;
    let mut resolver = Resolver {
        names,
        letvars: Vec::new(alloc),
    };
    let mut body = Vec::new(alloc);
    sequence(alloc, lattice, &mut resolver, &mut body, program.body())?;
    if size(&body) > MAX_SIZE {
        return Err(ScopeError::TooLarge);
    }
    let Resolver { letvars, .. } = resolver;
    Ok(Resolved::new(list, letvars, body))
}
