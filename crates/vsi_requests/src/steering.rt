//! The class that drives or views an image, by a lattice file or by an interface with boundaries.

ghost use Rattle.std.specs.Prelude.{◌≡◌, ◌⊎◌, Some, false, map, option_map, true, IfErr, IfOk, OnOk, [], None};
ghost use Rattle.vsi_conform.specs.{Bounded.{demands_bound}, ImageConforms.{Conforms}};
ghost use Rattle.vsi_lattice.specs.{Order.{IsClass}, LatticeView.{order}};
ghost use Rattle.vsi_subject.specs.{Boundaries.{boundary_at, boundary_for, bound_by, table_of}, Holding.{IsImageAt}, Reached.{AllowsReleases}, Undriven.{LacksCycle, LacksGoverned, LacksPolicy, RefusesAsked, RefusesSteering, SaysDiffering, SaysLine, LacksView}, Refusals.{RefusesImage, FailsBy}, Steering.{IsGoverned, IsSteeredBy, insisting_line}, Noted.{NotesView}, Viewing.{ViewsWithin}, Reasons.{WhyViewWithin}};
ghost use Rattle.vsi_conform.specs.Reading as reading;

use crate::boundaries::{controller_of, feed, names_in};
use crate::drives::{admit, budget_of};
use crate::running::words_in;
use crate::viewers::policy_and_image;
use std::alloc::Global;
use vsi_arguments::{DrivePolicy, RUNS_BUDGET, Viewing};
use vsi_conform::{
    Conformity, Cycle, Interface, InterfaceFile, conform_image, image_reaches, image_rows,
};
use vsi_image::Verified;
use vsi_lattice::{Class, Lattice};
use vsi_subject::{Failure, Fallible, Files, Subject, class_in};

/// The class that drives or views an image by a lattice, and the table with its boundary, if an
/// interface has one.
#[derive(Drop)]
pub(crate) struct Steering {
    pub(crate) lattice: Lattice,
    pub(crate) driver: Class,
    pub(crate) verified: Verified,
    pub(crate) cycle: Option<Cycle>,
}

/// The line of `--unbounded` with an interface that requires a bound.
const INSISTING: &[u8] = b"--unbounded refused: the interface requires a bound\n";

/// Refuses `--unbounded` with an interface that requires a bound.
fn insist<'a>(alloc: Global, is_unbounded: bool, interface: &Interface) -> Fallible<'a, ()>
    ensures insists { OnOk result (is_unbounded ≡ true → demands_bound interface.now.bounded ≡
        false) }
    ensures failed { IfErr result (FailsBy (λ reason. ⊥) (λ failure. (is_unbounded ≡ true)
        × (demands_bound interface.now.bounded ≡ true) × SaysLine insisting_line failure)) }
{
    if !is_unbounded {
        return Ok(());
    }
    if !interface.demands_bound() {
        return Ok(());
    }
    let line = Vec::from_slice(alloc, INSISTING)?;
    Err(Failure::Refused(line, None))
}

/// Judges an image by an interface. The failure has the lines of `conform`.
fn know_image<'a>(
    alloc: Global,
    lattice: &Lattice,
    verified: &Verified,
    asked: &InterfaceFile,
) -> Fallible<'a, ()>
    ensures conforms { OnOk result (Conforms lattice.now verified.now asked.now.interface) }
    ensures allows { OnOk result (AllowsReleases lattice.now verified.now asked.now) }
    ensures failed { IfErr result
        (FailsBy (λ reason. ⊥) (SaysDiffering lattice.now verified.now asked.now)) }
{
    let interface = &asked.interface;
    let answer = conform_image(alloc, lattice, verified, interface)?;
    let judgement = interface.judgement;
    let reaches = image_reaches(alloc, lattice, verified, judgement, &asked.cycles)?;
    let fits = answer.conforms();
    let rows = image_rows(alloc, lattice, verified.image(), interface, &answer)?;
    let said = Conformity {
        fits,
        rows,
        reaches,
        tried: None,
    };
    if said.conforms() {
        return Ok(());
    }
    let lines = said.lines(alloc)?;
    Err(Failure::Refused(lines, None))
}

/// The boundary of a class.
fn own_cycle(cycles: Vec<Cycle>, class: &[u8]) -> Option<Cycle>
    ensures { option_map reading.cycle result
        ≡ table_of (map reading.cycle cycles.items) class.now }
{
    for cycle in cycles {
        if cycle.class.as_slice() == class {
            return Some(cycle);
        }
    }
    None
}

/// The boundary of a class among those of an interface; without any, no class needs one.
fn cycle_for<'a>(alloc: Global, cycles: Vec<Cycle>, class: &'a str) -> Fallible<'a, Option<Cycle>>
    ensures bounded { IfOk result (λ cycle.
        boundary_at (map reading.cycle cycles.items) class.now
        ≡ Some (bound_by (option_map reading.cycle cycle))) }
    ensures failed { IfErr result
        (FailsBy (λ reason. ⊥) (LacksCycle (map reading.cycle cycles.items) class.now)) }
{
    if cycles.is_empty() {
        return Ok(None);
    }
    match own_cycle(cycles, class.as_bytes()) {
        Some(cycle) => Ok(Some(cycle)),
        None => {
            let mut line = Vec::from_slice(alloc, b"no cycle of class ")?;
            line.extend_from_slice(class.as_bytes())?;
            line.extend_from_slice(b"\n")?;
            Err(Failure::Refused(line, None))
        }
    }
}

/// The class that drives or views an image by an interface, to which the image conforms.
fn by_interface<'a, F: Files>(
    subject: &Subject<'_, F>,
    interface: &'a str,
    class: &'a str,
    image: &'a str,
    is_unbounded: bool,
) -> Fallible<'a, Steering>
    ensures governed { IfOk result (λ steering. IsGoverned (F.holds subject.now.files.now)
        interface.now class.now is_unbounded steering.lattice steering.driver steering.verified
        (bound_by (option_map reading.cycle steering.cycle))) }
    ensures held { IfOk result
        (λ steering. IsImageAt (F.holds subject.now.files.now) image.now steering.verified) }
    ensures failed { IfErr result (FailsBy (λ reason. RefusesAsked (F.holds subject.now.files.now)
        interface.now reason ⊎ RefusesImage (F.holds subject.now.files.now) image.now reason)
        (LacksGoverned (F.holds subject.now.files.now) interface.now class.now image.now
        is_unbounded)) }
{
    let (asked, lattice) = subject.asked_in(interface, Some(RUNS_BUDGET))?;
    insist(subject.alloc, is_unbounded, &asked.interface)?;
    let driver = class_in(&lattice, class)?;
    let verified = subject.image_in(image)?;
    know_image(subject.alloc, &lattice, &verified, &asked)?;
    let cycle = cycle_for(subject.alloc, asked.cycles, class)?;
    Ok(Steering {
        lattice,
        driver,
        verified,
        cycle,
    })
}

/// The class that drives or views an image by a policy, its lattice and its boundary.
pub(crate) fn steered<'a, F: Files>(
    subject: &Subject<'_, F>,
    policy: DrivePolicy<'a>,
    class: &'a str,
    image: &'a str,
    is_drive: bool,
    is_unbounded: bool,
) -> Fallible<'a, Steering>
    ensures class { IfOk result (λ steering. IsClass (order steering.lattice) steering.driver) }
    ensures steered { IfOk result (λ steering. IsSteeredBy (F.holds subject.now.files.now)
        class.now policy.entry is_unbounded steering.lattice steering.driver steering.verified
        (boundary_for policy.entry steering.cycle)) }
    ensures held { IfOk result
        (λ steering. IsImageAt (F.holds subject.now.files.now) image.now steering.verified) }
    ensures failed { IfErr result (FailsBy (λ reason. RefusesSteering (F.holds
        subject.now.files.now) policy.entry reason ⊎ RefusesImage (F.holds subject.now.files.now)
        image.now reason) (LacksPolicy (F.holds subject.now.files.now) class.now image.now
        policy.entry is_unbounded)) }
{
    match policy {
        DrivePolicy::Lattice(path, _) => {
            let (lattice, driver, verified) = policy_and_image(
                subject, path, class, image, is_drive,
            )?;
            Ok(Steering {
                lattice,
                driver,
                verified,
                cycle: None,
            })
        }
        DrivePolicy::Interface(path) => { by_interface(subject, path, class, image, is_unbounded) }
    }
}

/// The lines of the final store of a run of an image file that are written within its boundary.
/// The note gets a line if the budget isn't enough and is taken all the same.
pub fn view_within<'a, F: Files>(
    subject: &Subject<'_, F>,
    asked: &Viewing<'a>,
    note: &mut Vec<u8>,
) -> Fallible<'a, Vec<u8>>
    ensures told { IfOk result (ViewsWithin (F.holds subject.now.files.now) asked.now) }
    ensures noted { note.old.items ≡ [] → OnOk result
        (NotesView (F.holds subject.now.files.now) asked.now note.new.items) }
    ensures hushed { note.old.items ≡ [] → IfErr result (λ _. (note.new.items ≡ []) ⊎ NotesView
        (F.holds subject.now.files.now) asked.now note.new.items) }
    ensures failed { IfErr result (FailsBy (WhyViewWithin (F.holds subject.now.files.now)
        asked.now) (LacksView (F.holds subject.now.files.now) asked.now)) }
{
    let policy = asked.policy;
    let class = asked.class;
    let image = asked.execution.image;
    let is_unbounded = asked.is_unbounded;
    let steering = steered(subject, policy, class, image, false, is_unbounded)?;
    let file = subject.store_in(asked.execution.store)?;
    let words = words_in(
        subject.cache,
        &steering.verified,
        &file,
        &asked.initial_store,
    )?;
    let budget = budget_of(subject.alloc, asked.execution.budget, &steering.verified)?;
    let names = names_in(subject.alloc, asked.policy, &steering.cycle)?;
    let controller = controller_of(subject.cache, asked.policy, &names, &steering, budget)?;
    let settings = asked.initial_store.settings.as_slice();
    feed(subject.alloc, policy, &steering, &names, &words, settings)?;
    admit(
        subject.alloc,
        is_unbounded,
        &steering.lattice,
        &steering.verified,
        budget,
        note,
    )?;
    let text = match controller.view(subject.alloc, &words) {
        Ok(Some(text)) => text,
        Ok(None) => return Err(Failure::OutOfBudget),
        Err(_) => return Err(Failure::Memory),
    };
    Ok(text)
}
