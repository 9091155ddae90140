//! The files that a request reads, each once, and the answers and images that they give.

ghost use Rattle.std.specs.Prelude.{◌≡◌, Ok, Err, MatchResult, IfErr, IfOk, ◌<◌, false, Some, IfSome};
ghost use Rattle.vsi_subject.specs.{Works.{good_reply}, Refusals.{NoOther, FailsBy, IsUnbounded, IsNoMemory, LacksClass, LacksGiven, RefusesImage, RefusesLattice}, Tried.{IsMade}, Holding.{IsImageAt, IsLatticeAt, IsReadAt, IsStoreAt}, Input.{two_classes}, Files.{LooksFor}, Failures.{status_of, failure_of}, Performed.{profile_of}, declared.failure.Failure.TheVariants.{Memory}};
ghost use Rattle.vsi_answers.specs.{Bounds.{IsBound}, Requests.{BuildsTo, ReadsLattice}, Answers.{Because}, Judged.{Declares, TellsFault, TellsSource}};
ghost use Rattle.vsi_types.specs.declared.rules.Profile.TheVariants.{Base};
ghost use Rattle.vsi_drive.specs.declared.engine.EngineError.TheVariants.{ReadFault, WriteFault, Memory};
ghost use Rattle.vsi_lattice.specs.{LatticeView.{class_named, order}, Order.{IsClass}};
ghost use Rattle.vsi_subject.specs.declared.failure.Failure.TheVariants as fails;

use crate::failure::{Failure, Fallible, STREAM};
use crate::files::Files;
use crate::inputs::{FlowObserver, InputCache, InputKind};
use std::alloc::Global;
use vsi_answers::{Fault, Unanswered, enough_budget, judged_image, refused_file, refused_source};
use vsi_compiler::CompileError;
use vsi_documents::Reply;
use vsi_drive::{Counted, EngineError, READ_LIMIT, read_all};
use vsi_image::{DecodeError, Image, Verified};
use vsi_lattice::{Class, Lattice, LatticeError};
use vsi_store::{StoreError, ViewError, is_whole};
use vsi_types::Profile;

/// Where a good answer goes.
#[derive(Clone, Copy)]
pub enum Place<'a> {
    /// To the image file at this path.
    Image(&'a str),
    /// To the file at this path, or to standard output without one.
    Out(Option<&'a str>),
}

/// A text that says that all is well, or why there is none.
pub fn good<'a>(answer: Fallible<'a, Vec<u8>>) -> Fallible<'a, Reply>
    ensures { MatchResult answer.entry (λ text. result ≡ Ok (good_reply text))
        (λ failure. result ≡ Err failure) }
{
    match answer {
        Ok(text) => Ok(Reply {
            text,
            is_good: true,
        }),
        Err(failure) => Err(failure),
    }
}

/// The most instructions of an image's runs, or the failure with the line of `bound` that says why
/// there is no such number.
pub fn most_of<'a>(alloc: Global, verified: &Verified) -> Fallible<'a, u64>
    ensures told { IfOk result (IsBound verified.now) }
    ensures failed { IfErr result (FailsBy (λ reason. ⊥) (IsUnbounded verified.now)) }
{
    match enough_budget(alloc, verified)? {
        Ok(most) => Ok(most),
        Err(line) => Err(Failure::Refused(line, None)),
    }
}

/// The image made from a text, whose bytes are kept for an explanation.
pub fn made_image<'a>(
    cache: &InputCache,
    lattice: &Lattice,
    source: &str,
    text: &[u8],
) -> Fallible<'a, Verified>
    ensures made { IfOk result (IsMade lattice.now text.now) }
    ensures failed { IfErr result
        (FailsBy (λ reason. BuildsTo lattice.now Base text.now (Err reason)) NoOther) }
{
    let alloc = cache.alloc;
    let mut observer = FlowObserver { cache };
    let bytes = answered(vsi_answers::build(alloc, Profile::Base, lattice, text, &mut observer))?;
    let image = bytes.as_slice();
    cache.keep(InputKind::Image, source, image)?;
    match judged_image(cache.alloc, image) {
        Ok(verified) => Ok(verified),
        // The bytes just built are an image's, so only memory can run out.
        Err(_) => Err(Failure::Memory),
    }
}

/// The files that a request reads, and the cache that keeps them.
#[derive(Drop)]
pub struct Subject<'s, F> {
    pub alloc: Global,
    pub cache: &'s InputCache,
    pub files: &'s F,
}

/// The lattice of a run without arguments.
pub const TWO_CLASSES: &[u8] = b"classes = [\"L\", \"H\"]\nbelow = [[\"L\", \"H\"]]\n";

/// The failure for an error of a call that reads the file at the path, or judges its bytes. No such
/// call compiles.
pub fn device_failure<'a>(alloc: Global, error: EngineError, path: &'a str) -> Failure<'a>
    ensures read { error ≡ ReadFault → status_of result ≡ 4 }
    ensures write { error ≡ WriteFault → status_of result ≡ 4 }
    ensures path { error ≡ ReadFault → result ≡ fails.FileFault path.entry }
    ensures memory { error ≡ Memory → result ≡ fails.Memory }
{
    match error {
        EngineError::ReadFault => Failure::FileFault(path),
        EngineError::WriteFault => Failure::FileFault(STREAM),
        EngineError::Decode(inner) => faulty(alloc, Fault::Decode(inner)),
        EngineError::Verify(inner) => faulty(alloc, Fault::Verify(inner)),
        EngineError::Store(inner) => faulty(alloc, Fault::Store(inner)),
        EngineError::Compile(_) | EngineError::Memory => Failure::Memory,
    }
}

/// The failure for a refused source text.
pub fn refused<'a>(
    alloc: Global,
    lattice: &Lattice,
    source: &[u8],
    error: CompileError,
) -> Failure<'a>
    ensures { FailsBy (Because (TellsSource (λ e. e ≡ error) lattice.now source.now) ⊥) NoOther
        result }
{
    Failure::from(refused_source(alloc, lattice, source, error))
}

/// The answer for a source text, or the failure for the reason why there is none.
pub fn answered<'a>(answer: Result<Vec<u8>, Unanswered>) -> Fallible<'a, Vec<u8>>
    ensures { MatchResult answer (λ text. result ≡ Ok text)
        (λ reason. result ≡ Err (failure_of reason)) }
{
    match answer {
        Ok(text) => Ok(text),
        Err(reason) => Err(Failure::from(reason)),
    }
}

/// Whether the fault is lack of memory.
fn wants_memory(fault: &Fault) -> bool
    ensures { result ≡ false → IsNoMemory fault.now }
{
    matches!(
        fault,
        Fault::Lattice(LatticeError::Memory)
            | Fault::Decode(DecodeError::Memory)
            | Fault::Store(StoreError::Memory)
            | Fault::View(ViewError::Memory)
    )
}

/// The failure for another refused file.
pub fn faulty<'a>(alloc: Global, fault: Fault) -> Failure<'a>
    ensures { FailsBy (Because (TellsFault (λ f. (f ≡ fault) × IsNoMemory f)) ⊥) NoOther result }
{
    if wants_memory(&fault) {
        return Failure::Memory;
    }
    Failure::from(refused_file(alloc, fault))
}

/// A whole file, or its first `READ_LIMIT` bytes.
pub fn whole_in<'a, F: Files>(alloc: Global, path: &'a str, files: &F) -> Fallible<'a, Vec<u8>>
    ensures read { IfOk result
        (λ bytes. IsReadAt (F.holds files.now) path.now bytes.items) }
    ensures failed { IfErr result (λ failure. 3 < status_of failure) }
{
    let Some(file) = files.open_file(path) else {
        return Err(Failure::FileFault(path));
    };
    let mut reader = Counted::new(file);
    read_all(alloc, &mut reader).map_err(|error| device_failure(alloc, error, path))
}

impl<F: Files> Subject<'_, F> {
    /// The bytes of a file of this kind. A file as long as `READ_LIMIT` is a file fault if only a
    /// whole file is useful.
    pub fn bytes_in<'a>(&self, kind: InputKind, path: &'a str) -> Fallible<'a, Vec<u8>>
        ensures read { IfOk result
            (λ bytes. IsReadAt (F.holds self.now.files.now) path.now bytes.items) }
        ensures failed { IfErr result (λ failure. 3 < status_of failure) }
    {
        let bytes = whole_in(self.alloc, path, self.files)?;
        self.cache.keep(kind, path, bytes.as_slice())?;
        let must_end = matches!(
            kind,
            InputKind::Lattice | InputKind::Store | InputKind::Interface
        );
        if must_end && bytes.len() >= READ_LIMIT {
            return Err(Failure::FileFault(path));
        }
        Ok(bytes)
    }

    /// The bytes of a store file; without one there are none. A file that begins with another
    /// checksum than that of the rest is a file fault.
    pub fn store_in<'a>(&self, path: Option<&'a str>) -> Fallible<'a, Vec<u8>>
        ensures read { IfOk result
            (λ bytes. IsStoreAt (F.holds self.now.files.now) path.entry bytes.items) }
        ensures failed { IfErr result (λ failure. 3 < status_of failure) }
    {
        let Some(path) = path else {
            return Ok(Vec::new(self.alloc));
        };
        let bytes = self.bytes_in(InputKind::Store, path)?;
        if !is_whole(self.alloc, &bytes)? {
            self.cache.note_broken();
            return Err(Failure::FileFault(path));
        }
        Ok(bytes)
    }

    /// The lattice of a file.
    pub fn lattice_in<'a>(&self, path: &'a str) -> Fallible<'a, Lattice>
        ensures read { IfOk result (IsLatticeAt (F.holds self.now.files.now) path.now) }
        ensures failed { IfErr result
            (FailsBy (RefusesLattice (F.holds self.now.files.now) path.now) NoOther) }
    {
        let bytes = self.bytes_in(InputKind::Lattice, path)?;
        declared_lattice(self.alloc, bytes.as_slice())
    }

    /// The bytes of a lattice file, and its lattice.
    pub fn policy_in<'a>(&self, path: &'a str) -> Fallible<'a, (Vec<u8>, Lattice)>
        ensures read { IfOk result
            (λ pair. IsReadAt (F.holds self.now.files.now) path.now pair.0.items) }
        ensures declared { IfOk result (λ pair. Declares pair.0.items pair.1) }
        ensures failed { IfErr result
            (FailsBy (RefusesLattice (F.holds self.now.files.now) path.now) NoOther) }
    {
        let bytes = self.bytes_in(InputKind::Lattice, path)?;
        let lattice = declared_lattice(self.alloc, bytes.as_slice())?;
        Ok((bytes, lattice))
    }

    /// The verified image of a file.
    pub fn image_in<'a>(&self, path: &'a str) -> Fallible<'a, Verified>
        ensures read { IfOk result (IsImageAt (F.holds self.now.files.now) path.now) }
        ensures failed { IfErr result
            (FailsBy (RefusesImage (F.holds self.now.files.now) path.now) NoOther) }
    {
        let bytes = self.bytes_in(InputKind::Image, path)?;
        let verified = judged_image(self.alloc, bytes.as_slice())?;
        Ok(verified)
    }
}

/// The lattice that a text declares.
pub fn declared_lattice<'a>(alloc: Global, text: &[u8]) -> Fallible<'a, Lattice>
    ensures declared { IfOk result (Declares text.now) }
    ensures failed { IfErr result
        (FailsBy (λ reason. ReadsLattice text.now (Err reason)) NoOther) }
{
    Ok(vsi_answers::declared_lattice(alloc, text)?)
}

/// The lattice of `L` below `H`.
pub fn two_classes<'a>(alloc: Global) -> Fallible<'a, Lattice>
    ensures declared { IfOk result (Declares two_classes) }
    ensures memory { IfErr result (λ failure. failure ≡ fails.Memory) }
{
    match declared_lattice(alloc, TWO_CLASSES) {
        Ok(lattice) => Ok(lattice),
        Err(_) => Err(Failure::Memory),
    }
}

/// The class of this name.
pub fn class_in<'a>(lattice: &Lattice, name: &'a str) -> Fallible<'a, Class>
    ensures within { IfOk result (IsClass (order lattice.now)) }
    ensures named { IfOk result (λ class. class_named lattice.now name.now ≡ Some class) }
    ensures failed { IfErr result (FailsBy (λ reason. ⊥) (LacksClass lattice.now name.now)) }
{
    match lattice.class_named(name.as_bytes()) {
        Some(class) => Ok(class),
        None => Err(Failure::NoClass(name)),
    }
}

/// The class of the viewer, if one is named.
pub fn viewer_of<'a>(lattice: &Lattice, name: Option<&'a str>) -> Fallible<'a, Option<Class>>
    ensures within { IfOk result (λ class. IfSome class (IsClass (order lattice.now))) }
    ensures looks { IfOk result (LooksFor lattice.now name.entry) }
    ensures failed { IfErr result (FailsBy (λ reason. ⊥) (LacksGiven lattice.now name.entry)) }
{
    let Some(name) = name else {
        return Ok(None);
    };
    Ok(Some(class_in(lattice, name)?))
}

/// The profile that judges a text or an image.
pub fn profile(is_strict: bool) -> Profile
    ensures { result ≡ profile_of is_strict }
{
    if is_strict {
        Profile::Strict
    } else {
        Profile::Base
    }
}
