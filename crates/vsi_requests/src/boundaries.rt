//! The controller of a drive or of a view, with the boundary that the request gives it.

ghost use Rattle.std.specs.Prelude.{◌≡◌, [], None, Some, IfOk, IfErr, option_map, unwrap_or, length, OnOk};
ghost use Rattle.vsi_conform.specs.Reading.{bytes_of};
ghost use Rattle.vsi_drive.specs.{Boundary.{boundary_of, listed}, BoundaryFaults.{boundary_fault}, Control.{control, controlled}, Settings.{settings_of}};
ghost use Rattle.vsi_answers.specs.{Answers.{Because}, Judged.{TellsStartFault}};
ghost use Rattle.vsi_lattice.specs.{LatticeView.{order}, NamePlaces.{texts}, Order.{IsClass}};
ghost use Rattle.vsi_subject.specs.{Boundaries.{boundary_for, given_names}, Undriven.{RefusesControl}, Refusals.{NoOther, FailsBy}, Feeding.{AreFed, IsUnfed, at_number, fault_of, unfed}};
ghost use Rattle.vsi_requests.specs.ReadNames.{boundary_in, read_names};

use crate::findings::Made;
use crate::steering::Steering;
use std::alloc::{AllocError, Global};
use vsi_answers::{Fault, refused_start};
use vsi_arguments::DrivePolicy;
use vsi_conform::Cycle;
use vsi_drive::{
    Boundary, BoundaryFault, Controller, CycleEnding, LineFault, StartFault, names_of,
};
use vsi_subject::{Failure, Fallible, InputCache, InputKind, faulty};

/// The names in the lists of a request, or in a table of an interface.
#[derive(Drop)]
pub(crate) struct Names<'a> {
    inputs: Option<Vec<&'a [u8]>>,
    outputs: Option<Vec<&'a [u8]>>,
    released: Vec<&'a [u8]>,
}

/// The names in a list, if it is given.
fn given_names<'a>(
    alloc: Global,
    list: Option<&'a str>,
) -> Result<Option<Vec<&'a [u8]>>, AllocError>
    ensures { IfOk result (λ names. option_map (λ ns. texts ns.items) names
        ≡ given_names list.entry) }
{
    match list {
        Some(text) => Ok(Some(names_of(alloc, text.as_bytes())?)),
        None => Ok(None),
    }
}

/// The names in the list of released outputs, which has none if it isn't given.
fn released_names<'a>(alloc: Global, list: Option<&'a str>) -> Result<Vec<&'a [u8]>, AllocError>
    ensures { IfOk result (λ names. texts names.items ≡ unwrap_or (given_names list.entry) []) }
{
    match list {
        Some(text) => names_of(alloc, text.as_bytes()),
        None => Ok(Vec::new(alloc)),
    }
}

/// The names that a table has.
fn shown_names<'c>(alloc: Global, owned: &'c [Vec<u8>]) -> Result<Vec<&'c [u8]>, AllocError>
    ensures { IfOk result (λ names. texts names.items ≡ bytes_of owned.now) }
{
    let mut names = Vec::new(alloc);
    for name in owned {
        names.push(name.as_slice())?;
    }
    Ok(names)
}

/// The names of a list that a table may have.
fn shown_list<'c>(
    alloc: Global,
    list: &'c Option<Vec<Vec<u8>>>,
) -> Result<Option<Vec<&'c [u8]>>, AllocError>
    ensures { IfOk result (λ names. option_map (λ ns. texts ns.items) names
        ≡ option_map (λ ns. bytes_of ns.items) list.now) }
{
    match list {
        Some(owned) => Ok(Some(shown_names(alloc, owned)?)),
        None => Ok(None),
    }
}

/// The names that bound a drive or a view.
pub(crate) fn names_in<'c>(
    alloc: Global,
    policy: DrivePolicy<'c>,
    cycle: &'c Option<Cycle>,
) -> Result<Names<'c>, AllocError>
    ensures { IfOk result (λ names.
        boundary_in names ≡ boundary_for policy.entry cycle.now) }
{
    match policy {
        DrivePolicy::Lattice(_, lists) => {
            let inputs = given_names(alloc, lists.inputs)?;
            let outputs = given_names(alloc, lists.outputs)?;
            let released = released_names(alloc, lists.released)?;
            Ok(Names {
                inputs,
                outputs,
                released,
            })
        }
        DrivePolicy::Interface(_) => match cycle {
            Some(cycle) => {
                let inputs = shown_list(alloc, &cycle.inputs)?;
                let outputs = shown_list(alloc, &cycle.outputs)?;
                let released = shown_names(alloc, &cycle.released)?;
                Ok(Names {
                    inputs,
                    outputs,
                    released,
                })
            }
            None => Ok(Names {
                inputs: None,
                outputs: None,
                released: Vec::new(alloc),
            }),
        },
    }
}

/// The names of a list that has been read.
fn names_listed<'c, 'a>(list: &'c Option<Vec<&'a [u8]>>) -> Option<&'c [&'a [u8]]>
    ensures { listed result ≡ read_names list.now }
{
    match list {
        Some(names) => Some(names.as_slice()),
        None => None,
    }
}

impl<'a> Names<'a> {
    /// The boundary with these names.
    pub(crate) fn boundary<'c>(&'c self) -> Boundary<'c>
        ensures { boundary_of result ≡ boundary_in self.now }
    {
        let inputs = names_listed(&self.inputs);
        let outputs = names_listed(&self.outputs);
        let released = self.released.as_slice();
        Boundary {
            inputs,
            outputs,
            released,
        }
    }
}

/// Keeps the list at fault for an explanation, if it was given on the command line.
fn keep_list(cache: &InputCache, policy: DrivePolicy<'_>, fault: BoundaryFault) -> Made<()> {
    let DrivePolicy::Lattice(_, lists) = policy else {
        return Ok(());
    };
    let (option, list) = match fault {
        BoundaryFault::UnknownInput(_) | BoundaryFault::InputAboveClass(_) => {
            ("--inputs", lists.inputs)
        }
        BoundaryFault::UnknownOutput(_) | BoundaryFault::OutputAboveClass(_) => {
            ("--outputs", lists.outputs)
        }
        BoundaryFault::NotAnOutput(_) => ("--release", lists.released),
    };
    cache.keep(InputKind::Names, option, list.unwrap_or("").as_bytes())
}

/// A controller of an image with the boundary of its drive or of its view.
pub(crate) fn controller_of<'a, 'c>(
    cache: &InputCache,
    policy: DrivePolicy<'a>,
    names: &'c Names<'_>,
    steering: &'c Steering,
    budget: u64,
) -> Fallible<'a, Controller<'c>>
    requires class { IsClass (order steering.now.lattice) steering.now.driver }
    requires names { boundary_in names.now ≡ boundary_for policy steering.now.cycle }
    ensures control { IfOk result (λ c. control c ≡ controlled steering.now.lattice
        steering.now.driver steering.now.verified budget
        (boundary_for policy.entry steering.now.cycle)) }
    ensures sound { IfOk result (λ c. boundary_fault (control c) ≡ None) }
    ensures failed { IfErr result (FailsBy (RefusesControl
        (boundary_for policy.entry steering.now.cycle) steering.now.lattice steering.now.driver
        steering.now.verified budget) NoOther) }
{
    let driver = steering.driver;
    match Controller::within(
        &steering.lattice,
        &steering.verified,
        driver,
        budget,
        names.boundary(),
    ) {
        Ok(Ok(controller)) => Ok(controller),
        Ok(Err(fault)) => {
            if keep_list(cache, policy, fault).is_err() {
                return Err(Failure::Memory);
            }
            let reason = StartFault::Boundary(fault);
            Err(Failure::from(refused_start(cache.alloc, reason)))
        }
        Err(error) => Err(faulty(cache.alloc, Fault::View(error))),
    }
}

/// The fault of a setting, with its number among the settings.
fn numbered(number: usize, fault: LineFault) -> LineFault
    ensures { result ≡ at_number number fault }
{
    match fault {
        LineFault::AboveClass(_) => LineFault::AboveClass(number),
        LineFault::NotAnInput(_) => LineFault::NotAnInput(number),
        other => other,
    }
}

/// The fault of the setting with this number as a line of the controller, which runs nothing.
fn judged(
    alloc: Global,
    controller: &Controller<'_>,
    words: &[i64],
    number: usize,
    setting: &[u8],
) -> Result<Option<LineFault>, AllocError>
    requires { length words.now ≡ length (control controller.now).image.globals.items }
    ensures { IfOk result (λ fault.
        fault ≡ fault_of number (settings_of (control controller.now) setting.now)) }
{
    let mut store = words.to_vec(alloc)?;
    let Ok((ending, _line)) = controller.cycle(alloc, setting, &mut store) else {
        return Err(AllocError);
    };
    match ending {
        CycleEnding::Refused(fault) => Ok(Some(numbered(number, fault))),
        CycleEnding::Halted | CycleEnding::OutOfBudget => Ok(None),
    }
}

/// The fault of the first setting that the class of the controller may not make.
fn first_unfed(
    alloc: Global,
    controller: &Controller<'_>,
    words: &[i64],
    settings: &[&[u8]],
) -> Result<Option<LineFault>, AllocError>
    requires { length words.now ≡ length (control controller.now).image.globals.items }
    ensures { IfOk result (λ fault.
        fault ≡ unfed (control controller.now) 0 (texts settings.now)) }
{
    for (number, setting) in settings.iter().enumerate() {
        if let Some(fault) = judged(alloc, controller, words, number, setting)? {
            return Ok(Some(fault));
        }
    }
    Ok(None)
}

/// Refuses settings that set anything but inputs, if an interface lists those.
pub(crate) fn feed<'a>(
    alloc: Global,
    policy: DrivePolicy<'_>,
    steering: &Steering,
    names: &Names<'_>,
    words: &[i64],
    settings: &[&[u8]],
) -> Fallible<'a, ()>
    requires class { IsClass (order steering.now.lattice) steering.now.driver }
    requires words { length words.now ≡ length steering.now.verified.globals.items }
    ensures fed { OnOk result (AreFed policy.entry steering.now.lattice steering.now.driver
        steering.now.verified (boundary_in names.now) (texts settings.now)) }
    ensures failed { IfErr result (FailsBy (Because (TellsStartFault (IsUnfed
        (controlled steering.now.lattice steering.now.driver steering.now.verified 0
        (boundary_in names.now)) (texts settings.now))) ⊥) NoOther) }
{
    match policy {
        DrivePolicy::Lattice(_, _) => Ok(()),
        DrivePolicy::Interface(_) => {
            // With no budget, a cycle of the controller judges its line and runs nothing.
            let Ok(Ok(controller)) = Controller::within(
                &steering.lattice,
                &steering.verified,
                steering.driver,
                0,
                names.boundary(),
            ) else {
                return Err(Failure::Memory);
            };
            match first_unfed(alloc, &controller, words, settings) {
                Ok(None) => Ok(()),
                Ok(Some(fault)) => {
                    Err(Failure::from(refused_start(alloc, StartFault::Setting(fault))))
                }
                Err(_) => Err(Failure::Memory),
            }
        }
    }
}
