//! A resolved program: its globals, the entries of its letvars and its body.

ghost use Rattle.std.specs.Prelude.{◌≡◌, List, ℕ, IfOk, IfErr};

use crate::program::Cmd;
use std::alloc::{AllocError, Global as Heap};
use std::marker::Model;
use vsi_lattice::Class;
use vsi_syntax::Span;

/// A variable: the number of its declaration, globals first, then letvars in text order.
#[derive(Clone, Copy, Debug, PartialEq, Eq)]
pub struct Var(pub u16);

impl Model for Var {
    ghost Value = { ℕ };

    ghost view = { λ v. v.0 };

    ghost inverse = { λ n. record { 0 = n } };
}

/// A global variable: its name, its class, and the name of the class.
#[derive(Clone, Copy)]
pub struct Global<'a> {
    pub name: &'a [u8],
    pub class: Class,
    pub class_name: &'a [u8],
}

/// The entry of a letvar: its name, its class if one is written, and the span of its name.
#[derive(Clone, Copy)]
pub struct Entry<'a> {
    pub name: &'a [u8],
    pub class: Option<Class>,
    pub span: Span,
}

/// A program over locations. It has at most 256 globals with distinct names, at most 1,024
/// declarations, one entry for each `letvar`, and a body of size at most 65,534. All locations of
/// the body exist, and its `letvar`s and the operators of each expression nest at most 200 deep.
/// The body that `resolve` makes from a text is at most 200 deep as a whole; one that is passed to
/// `rebuilt` may nest its `if`s and `while`s deeper.
#[derive(Drop)]
pub struct Resolved<'a> {
    globals: Vec<Global<'a>>,
    letvars: Vec<Entry<'a>>,
    body: Vec<Cmd>,
}

impl<'a> Model for Resolved<'a> {
    ghost use Rattle.vsi_scope.specs.Program as spec;
    ghost use Rattle.vsi_scope.specs.Program.{IsResolved, resolved_of};
    ghost use Rattle.vsi_scope.specs.contracts.program.Cmd as cmd;
    ghost use Rattle.std.specs.Coded.{codes};

    ghost Value = { spec.Resolved };

    ghost coded = { Prim.hlevel (codes, cmd.the_row.coded) };

    ghost view = { λ r. resolved_of r.globals.items r.letvars.items r.body.items };

    ghost invariant = { λ r. IsResolved
        (resolved_of r.globals.items r.letvars.items r.body.items) };
}

impl<'a> Resolved<'a> {
    ghost use Rattle.vsi_scope.specs.Program.{IsResolved, resolved_of};

    /// The program with these globals, entries and commands.
    pub(crate) fn new(
        globals: Vec<Global<'a>>,
        letvars: Vec<Entry<'a>>,
        body: Vec<Cmd>,
    ) -> Resolved<'a>
        requires { IsResolved (resolved_of globals.items letvars.items body.items) }
        ensures { result ≡ resolved_of globals.entry.items letvars.entry.items body.items }
    {
        Resolved {
            globals,
            letvars,
            body,
        }
    }

    /// The globals, in order.
    pub fn globals(&self) -> &[Global<'a>]
        ensures { result.now ≡ self.now.globals }
    {
        &self.globals
    }

    /// The entries of the letvars, in text order.
    pub fn letvars(&self) -> &[Entry<'a>]
        ensures { result.now ≡ self.now.letvars }
    {
        &self.letvars
    }

    /// A program with the same globals, and with these entries and this body. If memory runs out,
    /// both are returned.
    pub fn rebuilt(
        &self,
        alloc: Heap,
        letvars: Vec<Entry<'a>>,
        body: Vec<Cmd>,
    ) -> Result<Resolved<'a>, (AllocError, Vec<Entry<'a>>, Vec<Cmd>)>
        requires { IsResolved (resolved_of self.now.globals letvars.items body.items) }
        ensures rebuilt { IfOk result
            (λ r. r ≡ resolved_of self.now.globals letvars.entry.items body.items) }
        ensures back { IfErr result (λ e. (e.1 ≡ letvars.entry) × (e.2 ≡ body)) }
    {
        match self.globals.as_slice().to_vec(alloc) {
            Ok(globals) => Ok(Resolved {
                globals,
                letvars,
                body,
            }),
            Err(e) => Err((e, letvars, body)),
        }
    }

    /// The commands.
    pub fn body(&self) -> &[Cmd]
        ensures value { result.now ≡ self.now.body }
        ensures resolved { IsResolved self.now }
    {
        &self.body
    }
}
