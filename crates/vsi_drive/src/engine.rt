//! Whole texts from readers and to writers whose failed calls are counted, and images built so.

ghost use Rattle.std.specs.{Prelude.{◌≡◌, ◌+◌, ◌<◌, min, length, take, ◌≤◌, ◌↔◌, ℕ, List, IfOk, IfErr, OnOk, IsErrOf, vec_len, ◌≢◌}, Io.{ReadsAtMost, WritesAtMost}, Io.KnownBytes.{Keeps, ReadConsumes, WriteAppends, Appends, Consumes}};
ghost use Rattle.vsi_drive.specs.{Counted.{device_of, faults_of, CountsReads, CountsWrites}, Engine.{IsOfReading, IsReadFrom, TakesFew, max_read}, declared.engine.EngineError.TheVariants.{Memory}, Building.{Builds, IsBuilt, WrittenCut}, Refusing.{RefusesRead, RefusesText}, Running.{WrittenSome}};
ghost use Rattle.vsi_lattice.specs.LatticeView.{class_named, order};
ghost use Rattle.vsi_types.specs.declared.rules.Profile.TheVariants.{Base};

use std::alloc::{AllocError, AllocFailed, Global};
use std::io;
use std::io::{Read, Write};
use thiserror::Error;
use vsi_compiler::{CompileError, Source, image_of, judge, read_source};
use vsi_image::{DecodeError, EncodeError, VerifyError, encode};
use vsi_lattice::Lattice;
use vsi_store::StoreError;
use vsi_types::Profile;

/// A reader or a writer, with the number of its calls that failed. The number stops at its greatest
/// value.
#[derive(Drop)]
pub struct Counted<D> {
    device: D,
    faults: u64,
}

impl<D> Counted<D> {
    /// Wraps a device, with a count of 0.
    pub fn new(device: D) -> Counted<D>
        ensures device { device_of result ≡ device }
        ensures faults { faults_of result ≡ 0 }
    {
        Counted { device, faults: 0 }
    }

    /// The device without the count.
    pub fn into_inner(self) -> D
        ensures { result ≡ device_of self }
    {
        self.device
    }

    /// The number of calls that returned an error, or accepted no byte of some.
    pub fn faults(&self) -> u64
        ensures { result ≡ faults_of self.now }
    {
        self.faults
    }
}

impl<R: Read> Read for Counted<R> {
    ghost remaining = { λ c. R.remaining (device_of c) };

    fn read(&mut self, buf: &mut [u8]) -> io::Result<usize>
        ensures bound { ReadsAtMost result buf.new }
        ensures bytes { ReadConsumes (R.remaining (device_of self.old))
            (R.remaining (device_of self.new)) result buf.new }
        ensures counts { CountsReads result (faults_of self.old) (faults_of self.new) }
    {
        let result = self.device.read(buf);
        if result.is_err() {
            self.faults = self.faults.saturating_add(1);
        }
        result
    }
}

impl<W: Write> Write for Counted<W> {
    ghost contents = { λ c. W.contents (device_of c) };

    fn write(&mut self, buf: &[u8]) -> io::Result<usize>
        ensures bound { WritesAtMost result buf.now }
        ensures bytes { WriteAppends (W.contents (device_of self.old))
            (W.contents (device_of self.new)) result buf.now }
        ensures counts { CountsWrites result (length buf.now) (faults_of self.old)
            (faults_of self.new) }
    {
        let result = self.device.write(buf);
        let is_fault = match &result {
            Ok(count) => *count == 0 && !buf.is_empty(),
            Err(_) => true,
        };
        if is_fault {
            self.faults = self.faults.saturating_add(1);
        }
        result
    }

    fn flush(&mut self) -> io::Result<()>
        ensures bytes { Keeps (W.contents (device_of self.old)) (W.contents (device_of self.new)) }
        ensures counts { CountsReads result (faults_of self.old) (faults_of self.new) }
    {
        let result = self.device.flush();
        if result.is_err() {
            self.faults = self.faults.saturating_add(1);
        }
        result
    }
}

/// One byte more than the longest source text.
pub const READ_LIMIT: usize = 1_048_577;

/// The size of the buffer for a read.
const CHUNK: usize = 4096;

/// The bytes of a reader to its end, or its first `READ_LIMIT` bytes.
///
/// # Errors
///
/// `ReadFault` at the first failed call of the reader, which is not retried; `Memory`. The bytes
/// read so far are lost.
pub fn read_all<R: Read>(alloc: Global, reader: &mut Counted<R>) -> Result<Vec<u8>, EngineError>
    requires { faults_of reader.old < u64.MAX }
    ensures fault { IsErrOf result EngineError.ReadFault
        ↔ faults_of reader.old < faults_of reader.new }
    ensures count { faults_of reader.old ≤ faults_of reader.new }
    ensures once { faults_of reader.new ≤ faults_of reader.old + 1 }
    ensures only { IfErr result IsOfReading }
    ensures bytes { IfOk result
        (λ bytes. IsReadFrom (R.remaining (device_of reader.old)) bytes.items) }
    ensures read { IfOk result (λ bytes.
        Consumes (R.remaining (device_of reader.old)) (R.remaining (device_of reader.new))
        bytes.items) }
    ensures limit { IfOk result (λ bytes. length bytes.items ≤ max_read) }
    ensures bound { TakesFew (R.remaining (device_of reader.old))
        (R.remaining (device_of reader.new)) }
{
    let mut bytes = Vec::new(alloc);
    let mut chunk = [0; CHUNK];
    while bytes.len() < READ_LIMIT {
        let room = CHUNK.min(READ_LIMIT - bytes.len());
        match reader.read(&mut chunk[..room]) {
            Ok(0) => break,
            Ok(count) => bytes
                .extend_from_slice(&chunk[..count])
                .map_err(|_| EngineError::Memory)?,
            Err(_) => return Err(EngineError::ReadFault),
        }
    }
    Ok(bytes)
}

/// Writes the whole text, in as many calls as the writer needs, and doesn't flush.
///
/// # Errors
///
/// `WriteFault` at the first call of the writer that fails or accepts no byte, which is not
/// retried. A prefix of the text has then been written.
pub fn write_out<W: Write>(text: &[u8], writer: &mut Counted<W>) -> Result<(), EngineError>
    requires { faults_of writer.old < u64.MAX }
    ensures fault { IsErrOf result EngineError.WriteFault
        ↔ faults_of writer.old < faults_of writer.new }
    ensures count { faults_of writer.old ≤ faults_of writer.new }
    ensures once { faults_of writer.new ≤ faults_of writer.old + 1 }
    ensures only { IfErr result (λ e. e ≡ EngineError.WriteFault) }
    ensures whole { OnOk result
        (Appends (W.contents (device_of writer.old)) (W.contents (device_of writer.new)) text.now) }
    ensures prefix { (n : ℕ)
        × Appends (W.contents (device_of writer.old)) (W.contents (device_of writer.new))
        (take n text.now) }
{
    let mut done = 0;
    while done < text.len() {
        match writer.write(&text[done..]) {
            Ok(0) | Err(_) => return Err(EngineError::WriteFault),
            Ok(count) => done += count,
        }
    }
    Ok(())
}

/// Why a call over devices ended early. A lack of memory is always `Memory`, never the `Memory` of
/// an inner error.
#[derive(Debug, Drop, Error)]
pub enum EngineError {
    /// A read of the device failed.
    #[error("a read failed")]
    ReadFault,
    /// A write to the device failed, or accepted no byte of some.
    #[error("a write failed")]
    WriteFault,
    /// The text is refused.
    #[error("the text is refused")]
    Compile(CompileError),
    /// The bytes aren't an image.
    #[error("the bytes are no image")]
    Decode(DecodeError),
    /// The image isn't valid.
    #[error("the image is not valid")]
    Verify(VerifyError),
    /// The store file is refused.
    #[error("the store file is refused")]
    Store(StoreError),
    /// An allocation failed.
    #[error("out of memory")]
    Memory,
}

impl From<AllocError> for EngineError {
    ghost from_gives = { λ _ e. e ≡ Memory };

    fn from(_error: AllocError) -> EngineError {
        EngineError::Memory
    }
}

impl<T: Drop> From<AllocFailed<T>> for EngineError {
    ghost from_gives = { λ _ e. e ≡ Memory };

    fn from(_error: AllocFailed<T>) -> EngineError {
        EngineError::Memory
    }
}

impl From<CompileError> for EngineError {
    ghost use Rattle.vsi_drive.specs.Errors.{compiling};

    ghost from_gives = { λ inner e. e ≡ compiling inner };

    fn from(error: CompileError) -> EngineError {
        match error {
            CompileError::Memory => EngineError::Memory,
            other => EngineError::Compile(other),
        }
    }
}

impl From<DecodeError> for EngineError {
    ghost use Rattle.vsi_drive.specs.Errors.{decoding};

    ghost from_gives = { λ inner e. e ≡ decoding inner };

    fn from(error: DecodeError) -> EngineError {
        match error {
            DecodeError::Memory => EngineError::Memory,
            other => EngineError::Decode(other),
        }
    }
}

impl From<StoreError> for EngineError {
    ghost use Rattle.vsi_drive.specs.Errors.{storing};

    ghost from_gives = { λ inner e. e ≡ storing inner };

    fn from(error: StoreError) -> EngineError {
        match error {
            StoreError::Memory => EngineError::Memory,
            other => EngineError::Store(other),
        }
    }
}

/// Compiles the text that a reader supplies under a profile, and writes the bytes of its image. It
/// writes nothing before these are complete.
///
/// # Errors
///
/// `ReadFault` and `Compile`, in this order and before anything is written; `WriteFault` with a
/// prefix of the bytes written; `Memory` with nothing written.
pub fn build_in<R: Read, W: Write>(
    alloc: Global,
    profile: Profile,
    lattice: &Lattice,
    reader: &mut Counted<R>,
    writer: &mut Counted<W>,
) -> Result<(), EngineError>
    requires reads { faults_of reader.old < u64.MAX }
    requires writes { faults_of writer.old < u64.MAX }
    ensures read_fault { IsErrOf result EngineError.ReadFault
        ↔ faults_of reader.old < faults_of reader.new }
    ensures write_fault { IsErrOf result EngineError.WriteFault
        ↔ faults_of writer.old < faults_of writer.new }
    ensures read_count { faults_of reader.old ≤ faults_of reader.new }
    ensures write_count { faults_of writer.old ≤ faults_of writer.new }
    ensures read_once { faults_of reader.new ≤ faults_of reader.old + 1 }
    ensures write_once { faults_of writer.new ≤ faults_of writer.old + 1 }
    ensures bound { TakesFew (R.remaining (device_of reader.old))
        (R.remaining (device_of reader.new)) }
    ensures built { OnOk result (WrittenSome
        (Builds (class_named lattice.now) (order lattice.now) profile
        (R.remaining (device_of reader.old)))
        (W.contents (device_of writer.old)) (W.contents (device_of writer.new))) }
    ensures prefix { IsErrOf result EngineError.WriteFault →
        WrittenCut (Builds (class_named lattice.now) (order lattice.now) profile
        (R.remaining (device_of reader.old)))
        (W.contents (device_of writer.old)) (W.contents (device_of writer.new)) }
    ensures untouched { IfErr result (λ e. e ≢ EngineError.WriteFault
        → Keeps (W.contents (device_of writer.old)) (W.contents (device_of writer.new))) }
    ensures refused { IfErr result
        (RefusesRead (RefusesText (class_named lattice.now) (order lattice.now) profile)
        (R.remaining (device_of reader.old))) }
{
    let text = read_all(alloc, reader)?;
    let image = image_bytes(alloc, profile, lattice, &text)?;
    write_out(&image, writer)
}

/// Compiles the text that a reader supplies, and writes the bytes of its image: `build_in` for the
/// base profile.
pub fn build<R: Read, W: Write>(
    alloc: Global,
    lattice: &Lattice,
    reader: &mut Counted<R>,
    writer: &mut Counted<W>,
) -> Result<(), EngineError>
    requires reads { faults_of reader.old < u64.MAX }
    requires writes { faults_of writer.old < u64.MAX }
    ensures read_fault { IsErrOf result EngineError.ReadFault
        ↔ faults_of reader.old < faults_of reader.new }
    ensures write_fault { IsErrOf result EngineError.WriteFault
        ↔ faults_of writer.old < faults_of writer.new }
    ensures read_count { faults_of reader.old ≤ faults_of reader.new }
    ensures write_count { faults_of writer.old ≤ faults_of writer.new }
    ensures read_once { faults_of reader.new ≤ faults_of reader.old + 1 }
    ensures write_once { faults_of writer.new ≤ faults_of writer.old + 1 }
    ensures bound { TakesFew (R.remaining (device_of reader.old))
        (R.remaining (device_of reader.new)) }
    ensures built { OnOk result (WrittenSome
        (Builds (class_named lattice.now) (order lattice.now) Base
        (R.remaining (device_of reader.old)))
        (W.contents (device_of writer.old)) (W.contents (device_of writer.new))) }
    ensures prefix { IsErrOf result EngineError.WriteFault →
        WrittenCut (Builds (class_named lattice.now) (order lattice.now) Base
        (R.remaining (device_of reader.old)))
        (W.contents (device_of writer.old)) (W.contents (device_of writer.new)) }
    ensures untouched { IfErr result (λ e. e ≢ EngineError.WriteFault
        → Keeps (W.contents (device_of writer.old)) (W.contents (device_of writer.new))) }
    ensures refused { IfErr result
        (RefusesRead (RefusesText (class_named lattice.now) (order lattice.now) Base)
        (R.remaining (device_of reader.old))) }
{
    build_in(alloc, Profile::Base, lattice, reader, writer)
}

/// The bytes of the image of a source text that is accepted under a profile.
///
/// # Errors
///
/// `Compile` with the refusal of `judge`, or `Memory`.
pub fn image_bytes_of(
    alloc: Global,
    profile: Profile,
    source: &Source<'_>,
) -> Result<Vec<u8>, EngineError>
    ensures built { IfOk result (λ bytes. IsBuilt
        (class_named source.now.lattice) (order source.now.lattice) profile source.now.text
        bytes.items) }
    ensures refused { IfErr result (RefusesText
        (class_named source.now.lattice) (order source.now.lattice) profile source.now.text) }
{
    let _classes = judge(alloc, profile, source)?;
    let verified = image_of(alloc, source)?;
    match encode(alloc, verified.image()) {
        Ok(bytes) => Ok(bytes),
        Err(EncodeError::Memory) => Err(EngineError::Memory),
        Err(EncodeError::Unencodable(_)) => unreachable!(),
    }
}

/// The bytes of the image of a text, by `image_bytes_of`.
///
/// # Errors
///
/// `Compile` with the refusal of `compile_in`, or `Memory`.
pub fn image_bytes(
    alloc: Global,
    profile: Profile,
    lattice: &Lattice,
    text: &[u8],
) -> Result<Vec<u8>, EngineError>
    ensures built { IfOk result (λ bytes.
        IsBuilt (class_named lattice.now) (order lattice.now) profile text.now bytes.items) }
    ensures refused { IfErr result
        (RefusesText (class_named lattice.now) (order lattice.now) profile text.now) }
{
    let source = read_source(alloc, lattice, text)?;
    image_bytes_of(alloc, profile, &source)
}
