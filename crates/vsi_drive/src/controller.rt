//! A controller and its cycles.

ghost use Rattle.std.specs.Prelude.{◌≡◌, ◌++◌, ℕ, [], length, Some, None, IfOk, IfErr, OnOk, OnErr, MatchResult, option_map, unwrap_or};
ghost use Rattle.vsi_image.specs.Fields.{global, globals};
ghost use Rattle.vsi_lattice.specs.{LatticeView.{class_named, order}, NamePlaces.{texts}, Order.{IsClass}};
ghost use Rattle.vsi_store.specs.{View.{first_unknown, is_seen}, declared.views.ViewError.TheVariants.{Memory}};

use crate::boundary::{Boundary, BoundaryFault, Role, StartFault, is_among, is_listed};
use crate::settings::{LineFault, words_set};
use crate::texts::start_fault_line;
use std::alloc::{AllocError, Global};
use vsi_image::Verified;
use vsi_lattice::{Class, Classes, Lattice};
use vsi_machine::{Machine, Outcome};
use vsi_store::{ViewError, sees};
use vsi_syntax::put_word;

/// How a cycle ends.
#[derive(Clone, Copy, PartialEq, Eq, Debug)]
pub enum CycleEnding {
    /// The run halted, and its last words are the store.
    Halted,
    /// The budget was spent before a HALT, and the store is as it was.
    OutOfBudget,
    /// The line is faulty, and the store is as it was.
    Refused(LineFault),
}

/// An image that runs once per cycle, the budget of a cycle, the class that sets and sees its
/// globals, and the boundary.
#[derive(Drop)]
pub struct Controller<'a> {
    lattice: &'a Lattice,
    verified: &'a Verified,
    class: Class,
    budget: u64,
    boundary: Boundary<'a>,
    pub ghost within: { IsClass (order lattice.now) class },
}

impl<'a> Controller<'a> {
    ghost use Rattle.vsi_drive.specs.{Boundary.{boundary_of, listed, no_boundary}, BoundaryFaults.{boundary_fault, class_of, name_fault, names_fault}, declared.boundary.Role.TheVariants.{Input, Output, Released}, Control.{control, controlled, is_input, is_written}, Views.{global_written, globals_written, view_of}};
    ghost use Rattle.vsi_drive.specs.Cycles as spec;

    /// A controller of this image.
    ///
    /// # Errors
    ///
    /// `ClassNotInLattice`, with the number of the first global whose class name is no class.
    pub fn new(
        lattice: &'a Lattice,
        verified: &'a Verified,
        class: Class,
        budget: u64,
    ) -> Result<Controller<'a>, ViewError>
        requires { IsClass (order lattice.now) class }
        ensures known { IfOk result (λ c. (control c).known ≡ class_named lattice.now) }
        ensures order { IfOk result (λ c. (control c).order ≡ order lattice.now) }
        ensures class { IfOk result (λ c. (control c).class ≡ class) }
        ensures image { IfOk result (λ c. (control c).image ≡ verified.now) }
        ensures budget { IfOk result (λ c. (control c).budget ≡ budget) }
        ensures boundary { IfOk result (λ c. (control c).boundary ≡ no_boundary) }
        ensures all { OnOk result
            (first_unknown (class_named lattice.now) 0 (globals verified.now.globals.items)
            ≡ None) }
        ensures unknown { IfErr result (λ e. (i : ℕ)
            × (first_unknown (class_named lattice.now) 0 (globals verified.now.globals.items)
            ≡ Some i)
            × (e ≡ ViewError.ClassNotInLattice i)) }
    {
        for (i, variable) in verified.image().globals.as_slice().iter().enumerate() {
            if lattice.class_named(variable.1.as_slice()).is_none() {
                return Err(ViewError::ClassNotInLattice(i));
            }
        }
        Ok(Controller {
            lattice,
            verified,
            class,
            budget,
            boundary: Boundary::none(),
        })
    }

    /// A controller of this image with a boundary, or the first fault of the boundary: of its
    /// inputs, then of its outputs, then of its released names.
    ///
    /// # Errors
    ///
    /// `ClassNotInLattice`, as for `new`.
    pub fn within(
        lattice: &'a Lattice,
        verified: &'a Verified,
        class: Class,
        budget: u64,
        boundary: Boundary<'a>,
    ) -> Result<Result<Controller<'a>, BoundaryFault>, ViewError>
        requires { IsClass (order lattice.now) class }
        ensures control { IfOk result (λ answer. IfOk answer (λ c. control c
            ≡ controlled lattice.now class verified.now budget (boundary_of boundary.entry))) }
        ensures sound { IfOk result (λ answer. IfOk answer (λ c. boundary_fault (control c) ≡ None)) }
        ensures fault { IfOk result (λ answer. IfErr answer (λ f.
            boundary_fault (controlled lattice.now class verified.now budget (boundary_of boundary.entry))
            ≡ Some f)) }
        ensures all { OnOk result
            (first_unknown (class_named lattice.now) 0 (globals verified.now.globals.items)
            ≡ None) }
        ensures unknown { IfErr result (λ e. (i : ℕ)
            × (first_unknown (class_named lattice.now) 0 (globals verified.now.globals.items)
            ≡ Some i)
            × (e ≡ ViewError.ClassNotInLattice i)) }
    {
        if let Err(error) = Controller::new(lattice, verified, class, budget) {
            return Err(error);
        }
        let controller = Controller {
            lattice,
            verified,
            class,
            budget,
            boundary,
        };
        match controller.boundary_fault() {
            Some(fault) => Ok(Err(fault)),
            None => Ok(Ok(controller)),
        }
    }

    /// The first fault of the boundary.
    fn boundary_fault(&self) -> Option<BoundaryFault>
        ensures { result ≡ boundary_fault (control self.now) }
    {
        if let Some(fault) = self.names_fault(Role::Input, self.boundary.inputs.unwrap_or(&[])) {
            return Some(fault);
        }
        if let Some(fault) = self.names_fault(Role::Output, self.boundary.outputs.unwrap_or(&[])) {
            return Some(fault);
        }
        self.names_fault(Role::Released, self.boundary.released)
    }

    /// The first fault of the names of a role.
    fn names_fault(&self, role: Role, names: &[&[u8]]) -> Option<BoundaryFault>
        ensures { result ≡ names_fault (control self.now) role 0 (texts names.now) }
    {
        for (number, name) in names.iter().enumerate() {
            if let Some(fault) = self.name_fault(role, number, name) {
                return Some(fault);
            }
        }
        None
    }

    /// The fault of a name with this number in the list of a role.
    fn name_fault(&self, role: Role, number: usize, name: &[u8]) -> Option<BoundaryFault>
        ensures { result ≡ name_fault (control self.now) role number name.now }
    {
        match role {
            Role::Input => match self.class_of(name) {
                None => Some(BoundaryFault::UnknownInput(number)),
                Some(class) if self.sees(class) => None,
                Some(_) => Some(BoundaryFault::InputAboveClass(number)),
            },
            Role::Output => match self.class_of(name) {
                None => Some(BoundaryFault::UnknownOutput(number)),
                Some(class) if self.sees(class) || is_among(self.boundary.released, name) => None,
                Some(_) => Some(BoundaryFault::OutputAboveClass(number)),
            },
            Role::Released => match self.class_of(name) {
                Some(_) if is_listed(self.boundary.outputs, name) => None,
                _ => Some(BoundaryFault::NotAnOutput(number)),
            },
        }
    }

    /// The name of the class of the global with this name.
    fn class_of(&self, name: &[u8]) -> Option<&[u8]>
        ensures { option_map (λ class. class.now) result
            ≡ class_of (globals (control self.now).image.globals.items) name.now }
    {
        let variables = self.globals();
        for variable in variables {
            if variable.0.as_slice() == name {
                return Some(variable.1.as_slice());
            }
        }
        None
    }

    /// Whether a global of this name is an input.
    pub(crate) fn takes(&self, name: &[u8]) -> bool
        ensures { result ≡ is_input (control self.now) name.now }
    {
        is_listed(self.boundary.inputs, name)
    }

    /// The names of the globals and of their classes.
    pub(crate) fn globals(&self) -> &[(Vec<u8>, Vec<u8>)]
        ensures { result.now ≡ (control self.now).image.globals.items }
    {
        self.verified.image().globals.as_slice()
    }

    /// Whether the class is at or above the class of this name.
    pub(crate) fn sees(&self, name: &[u8]) -> bool
        ensures { result
            ≡ is_seen (control self.now).known (control self.now).order (control self.now).class
            name.now }
    {
        sees(self.lattice, self.class, name)
    }

    /// Whether a cycle writes a global.
    fn writes(&self, variable: &(Vec<u8>, Vec<u8>)) -> bool
        ensures { result ≡ is_written (control self.now) (global variable.now) }
    {
        let name = variable.0.as_slice();
        is_listed(self.boundary.outputs, name)
            && (self.sees(variable.1.as_slice()) || is_among(self.boundary.released, name))
    }

    /// Adds `NAME = NUMBER` and this byte, if the global is written.
    fn put_written(
        &self,
        text: &mut Vec<u8>,
        variable: &(Vec<u8>, Vec<u8>),
        word: i64,
        end: u8,
    ) -> Result<(), AllocError>
        ensures { OnOk result (text.new.items ≡ text.old.items
            ++ global_written (control self.now) end (global variable.now) word) }
    {
        if self.writes(variable) {
            text.extend_from_slice(variable.0.as_slice())?;
            text.extend_from_slice(b" = ")?;
            put_word(text, word)?;
            text.push(end)?;
        }
        Ok(())
    }

    /// The globals of a store that are written, with this byte after each.
    fn written(&self, alloc: Global, words: &[i64], end: u8) -> Result<Vec<u8>, AllocError>
        requires { length words.now ≡ length (control self.now).image.globals.items }
        ensures { IfOk result (λ text. text.items ≡ globals_written (control self.now) end
            (globals (control self.now).image.globals.items) words.now) }
    {
        let variables = self.globals();
        let mut text = Vec::new(alloc);
        for (i, variable) in variables.iter().enumerate() {
            self.put_written(&mut text, variable, words[i], end)?;
        }
        Ok(text)
    }

    /// Does a cycle: sets the globals that the line names, runs the image, and returns the line of
    /// the globals that the class sees. For a faulty line or a spent budget it returns the line for
    /// that. The store has a word for each global.
    pub fn cycle(
        &self,
        alloc: Global,
        line: &[u8],
        store: &mut [i64],
    ) -> Result<(CycleEnding, Vec<u8>), ViewError>
        requires { length store.old ≡ length (control self.now).image.globals.items }
        ensures ending { IfOk result
            (λ r. r.0 ≡ (spec.cycle (control self.now) store.old line.now).ending) }
        ensures line { IfOk result
            (λ r. r.1.items ≡ (spec.cycle (control self.now) store.old line.now).line) }
        ensures store { OnOk result
            (store.new ≡ (spec.cycle (control self.now) store.old line.now).store) }
        ensures kept { OnErr result (store.new ≡ store.old) }
        ensures only { IfErr result (λ e. e ≡ Memory) }
    {
        let words = match words_set(alloc, self, line, store)? {
            Ok(words) => words,
            Err(fault) => {
                let text = start_fault_line(alloc, StartFault::Setting(fault))?;
                return Ok((CycleEnding::Refused(fault), text));
            }
        };
        let Ok(mut machine) = Machine::new(alloc, self.verified, words.as_slice()) else {
            return Err(ViewError::Memory);
        };
        match machine.run(self.budget) {
            Outcome::Halted => {
                let mut text = self.written(alloc, machine.store(), b' ')?;
                text.pop();
                text.push(b'\n')?;
                store.copy_from_slice(machine.store());
                Ok((CycleEnding::Halted, text))
            }
            Outcome::OutOfBudget => {
                let text = Vec::from_slice(alloc, b"out of budget\n")?;
                Ok((CycleEnding::OutOfBudget, text))
            }
        }
    }

    /// Runs the image from these words, and returns the lines of the globals that the class sees of
    /// its last words, or that are released; nothing if the run is out of budget.
    #[tactic(auto, using(crate::proofs::Shown::shown_lines))]
    pub fn view(&self, alloc: Global, words: &[i64]) -> Result<Option<Vec<u8>>, ViewError>
        requires { length words.now ≡ length (control self.now).image.globals.items }
        ensures view { IfOk result (λ view. option_map (λ text. text.items) view
            ≡ view_of (control self.now) (control self.now).budget words.now) }
        ensures only { IfErr result (λ e. e ≡ Memory) }
    {
        let Ok(mut machine) = Machine::new(alloc, self.verified, words) else {
            return Err(ViewError::Memory);
        };
        match machine.run(self.budget) {
            Outcome::Halted => Ok(Some(self.written(alloc, machine.store(), b'\n')?)),
            Outcome::OutOfBudget => Ok(None),
        }
    }

    /// Does a cycle for each line, and returns their output. If memory runs out, the store is the
    /// store after the last whole cycle: no cycle is left half done, though the output is lost.
    pub fn drive(
        &self,
        alloc: Global,
        lines: &[&[u8]],
        store: &mut [i64],
    ) -> Result<Vec<u8>, ViewError>
        requires { length store.old ≡ length (control self.now).image.globals.items }
        ensures text { IfOk result (λ text.
            text.items ≡ spec.text_of (control self.now) store.old (texts lines.now)) }
        ensures store { OnOk result
            (store.new ≡ spec.store_behind (control self.now) store.old (texts lines.now)) }
        ensures whole { OnErr result
            (spec.StandsBehind (control self.now) store.old (texts lines.now) store.new) }
        ensures only { IfErr result (λ e. e ≡ Memory) }
    {
        let mut text = Vec::new(alloc);
        for line in lines {
            let (_ending, written) = self.cycle(alloc, line, store)?;
            text.extend_from_slice(&written)?;
        }
        Ok(text)
    }
}
