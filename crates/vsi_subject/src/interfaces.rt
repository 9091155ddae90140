//! Interfaces, with the lattices that they name.

ghost use Rattle.std.specs.{Prelude.{◌<◌, ◌≤◌, IfErr, IfOk, IfSome, OnOk}, Str.Lossy.{utf8_lossy}};
ghost use Rattle.vsi_subject.specs.{Holding.{IsReadAt}, Interfaces.{ArePolicyBytes, IsAskedAt, IsPolicyAt}, Refusals.{FailsBy}, Undriven.{IsUnusable, RefusesAsked}, Failures.{status_of}};
ghost use Rattle.vsi_conform.specs.{Beside.{IsInside, beside}, Reading.{IsReadAs}, Totals.{total_of}};
ghost use Rattle.vsi_answers.specs.Judged.{Declares};

use crate::failure::{Failure, Fallible};
use crate::files::Files;
use crate::inputs::InputKind;
use crate::subject::{Subject, declared_lattice};
use std::alloc::Global;
use vsi_conform::{
    Interface, InterfaceError, InterfaceFile, Policy, interface_text, is_within, path_beside,
    read_interface, unknown_class, unknown_cycle,
};
use vsi_lattice::Lattice;

/// The failure for a refused interface file.
pub fn unusable<'a>(alloc: Global, error: InterfaceError) -> Failure<'a>
    ensures { FailsBy (λ reason. ⊥) IsUnusable result }
{
    if let InterfaceError::Memory = &error {
        return Failure::Memory;
    }
    match interface_text(alloc, &error) {
        Ok(text) => Failure::Interface(text, error),
        Err(_) => Failure::Memory,
    }
}

impl<F: Files> Subject<'_, F> {
    /// The bytes of a lattice file that an interface or a source text names. It must be a regular
    /// file.
    pub fn named_bytes<'a>(&self, interface: &str, path: &[u8]) -> Fallible<'a, Vec<u8>>
        ensures read { IfOk result (λ bytes. IsReadAt (F.holds self.now.files.now)
            (utf8_lossy (beside interface.now path.now)) bytes.items) }
        ensures failed { IfErr result (λ failure. 3 < status_of failure) }
    {
        self.named_file(InputKind::Lattice, interface, path)
    }

    /// The bytes of a file of this kind that another file names. It must be a regular file.
    pub fn named_file<'a>(
        &self,
        kind: InputKind,
        interface: &str,
        path: &[u8],
    ) -> Fallible<'a, Vec<u8>>
        ensures read { IfOk result (λ bytes. IsReadAt (F.holds self.now.files.now)
            (utf8_lossy (beside interface.now path.now)) bytes.items) }
        ensures failed { IfErr result (λ failure. 3 < status_of failure) }
    {
        let beside = path_beside(self.alloc, interface, path)?;
        if self.files.may_wait(beside.as_str()) {
            return Err(Failure::LostFile(beside));
        }
        match self.bytes_in(kind, beside.as_str()) {
            Ok(bytes) => return Ok(bytes),
            Err(Failure::FileFault(_)) => {}
            Err(_) => return Err(Failure::Memory),
        }
        Err(Failure::LostFile(beside))
    }

    /// The bytes of the lattice of an interface.
    fn policy_bytes<'a>(&self, interface: &str, policy: &Policy) -> Fallible<'a, Vec<u8>>
        ensures are { IfOk result (λ bytes.
            ArePolicyBytes (F.holds self.now.files.now) interface.now policy.now bytes.items) }
        ensures failed { IfErr result (λ failure. 3 < status_of failure) }
    {
        match policy {
            Policy::File(path) => self.named_bytes(interface, path),
            Policy::Tables(text) => Ok(Vec::from_slice(self.alloc, text)?),
        }
    }

    /// The interface of a file and its lattice, which has all classes that the interface names. Its
    /// runs take together at most the budget, if one is given.
    pub fn asked_in<'a>(
        &self,
        path: &'a str,
        budget: Option<u64>,
    ) -> Fallible<'a, (InterfaceFile, Lattice)>
        ensures asked { IfOk result
            (λ pair. IsAskedAt (F.holds self.now.files.now) path.now pair.0) }
        ensures declared { IfOk result
            (λ pair. IsPolicyAt (F.holds self.now.files.now) path.now pair.0.policy pair.1) }
        ensures within { IfOk result
            (λ pair. IfSome budget (λ most. total_of pair.0.interface ≤ most)) }
        ensures failed { IfErr result
            (FailsBy (RefusesAsked (F.holds self.now.files.now) path.now) IsUnusable) }
    {
        let asked = self.asked_files(path, budget)?;
        Ok((asked.found, asked.lattice))
    }
}

/// Judges the budgets of an interface's runs, if one is given for them.
fn know_budgets<'a>(alloc: Global, interface: &Interface, budget: Option<u64>) -> Fallible<'a, ()>
    ensures within { OnOk result (IfSome budget (λ most. total_of interface.now ≤ most)) }
    ensures failed { IfErr result (FailsBy (λ reason. ⊥) IsUnusable) }
{
    let Some(most) = budget else {
        return Ok(());
    };
    if is_within(interface, most) {
        return Ok(());
    }
    Err(unusable(alloc, InterfaceError::AboveBudget(most)))
}

/// An interface and its lattice, with the bytes that declare them.
#[derive(Drop)]
pub struct AskedFiles {
    pub bytes: Vec<u8>,
    pub found: InterfaceFile,
    pub policy: Vec<u8>,
    pub lattice: Lattice,
}

impl<F: Files> Subject<'_, F> {
    /// The interface of a file and its lattice, which has all classes that the interface names. Its
    /// runs take together at most the budget, if one is given.
    pub fn asked_files<'a>(&self, path: &'a str, budget: Option<u64>) -> Fallible<'a, AskedFiles>
        ensures read { IfOk result (λ asked. IsReadAt (F.holds self.now.files.now) path.now
            asked.bytes.items) }
        ensures is { IfOk result (λ asked. IsReadAs asked.bytes.items asked.found) }
        ensures inside { IfOk result (λ asked. IsInside asked.found.policy) }
        ensures policy { IfOk result (λ asked. ArePolicyBytes (F.holds self.now.files.now) path.now
            asked.found.policy asked.policy.items) }
        ensures declared { IfOk result (λ asked. Declares asked.policy.items asked.lattice) }
        ensures within { IfOk result
            (λ asked. IfSome budget (λ most. total_of asked.found.interface ≤ most)) }
        ensures failed { IfErr result
            (FailsBy (RefusesAsked (F.holds self.now.files.now) path.now) IsUnusable) }
    {
        let alloc = self.alloc;
        let bytes = self.bytes_in(InputKind::Interface, path)?;
        let found = match read_interface(alloc, &bytes) {
            Ok(found) => found,
            Err(error) => return Err(unusable(alloc, error)),
        };
        let policy = self.policy_bytes(path, &found.policy)?;
        let lattice = declared_lattice(alloc, &policy)?;
        if let Some(number) = unknown_class(&lattice, &found.interface) {
            let mut name = Vec::new(alloc);
            if let Some(entry) = found.interface.globals.get(number) {
                name.extend_from_slice(&entry.0)?;
            }
            return Err(unusable(alloc, InterfaceError::UnknownClass(name)));
        }
        know_budgets(alloc, &found.interface, budget)?;
        if let Some(place) = unknown_cycle(&lattice, &found.cycles) {
            let mut name = Vec::new(alloc);
            if let Some(cycle) = found.cycles.get(place) {
                name.extend_from_slice(&cycle.class)?;
            }
            let number = place.saturating_add(1);
            return Err(unusable(alloc, InterfaceError::UnknownInCycle(number, name)));
        }
        Ok(AskedFiles {
            bytes,
            found,
            policy,
            lattice,
        })
    }
}
