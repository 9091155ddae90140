//! The answer of `emit-c`: an image in C, or why there is none.

ghost use Rattle.std.specs.Prelude.{◌≡◌, ◌<◌, ◌≤◌, true, IfErr, IfOk, length, option_map};
ghost use Rattle.vsi_subject.specs.{Performed.{AreLatticeBytes, EmitsFile, IsEmittedAs, IsOurs, IsRequestedC, program_build}, Refusals.{IsUnbounded, NoOther, FailsBy}, Failures.{status_of}, Reasons.{LacksEmitBound, WhyEmit}};
ghost use Rattle.vsi_subject.specs.Naming as naming;

use crate::images::{bound, verified_in, version};
use crate::texts::built;
use std::alloc::Global;
use vsi_answers::{enough_budget, judged_image};
use vsi_arguments::{Bounding, Compilation, Emission};
use vsi_emit::{
    Build, Origin, emit_bounded, emit_bounded_header, emit_c, emit_header, is_function_name,
};
use vsi_image::Verified;
use vsi_subject::{Failure, Fallible, Files, InputKind, Subject, most_of};

/// The name in C if neither the given name nor that of the file is allowed.
const OTHERWISE: &[u8] = b"image";

/// The part of a path after its last slash.
pub(crate) fn file_name(path: &[u8]) -> &[u8]
    ensures { result.now ≡ naming.after_slash path.now path.now }
{
    let mut found = path;
    let mut rest = path;
    while let [byte, behind @ ..] = rest {
        if *byte == b'/' {
            found = behind;
        }
        rest = behind;
    }
    found
}

/// The number of bytes before the first dot of a name.
fn plain_length(name: &[u8]) -> usize
    ensures count { result ≡ naming.plain_length name.now }
    ensures within { result ≤ length name.now }
{
    let mut count = 0;
    let mut rest = name;
    while let [byte, behind @ ..] = rest {
        if *byte == b'.' {
            break;
        }
        count += 1;
        rest = behind;
    }
    count
}

/// The given name, or else that of the file without its folder, up to its first dot.
fn proposed<'a>(name: Option<&'a str>, path: &'a str) -> &'a [u8]
    ensures { result.now ≡ naming.proposed name.entry path.now }
{
    match name {
        Some(name) => name.as_bytes(),
        None => {
            let file = file_name(path.as_bytes());
            &file[..plain_length(file)]
        }
    }
}

/// The proposed name if functions may have it, and `image` if they may not.
fn function_name<'a>(name: Option<&'a str>, path: &'a str) -> &'a [u8]
    ensures { result.now ≡ naming.function_name name.entry path.now }
{
    let own = proposed(name, path);
    if is_function_name(own) {
        own
    } else {
        OTHERWISE
    }
}

/// The bytes of the image of the file and the image, or with a lattice those of the source
/// text.
fn emitted_image<'a, F: Files>(
    subject: &Subject<'_, F>,
    lattice: Option<&'a str>,
    source: &'a str,
) -> Fallible<'a, (Vec<u8>, Verified)>
    ensures told { IfOk result (λ pair. IsEmittedAs (F.holds subject.now.files.now) lattice.entry
        source.entry pair.1 pair.0.items) }
    ensures failed { IfErr result
        (FailsBy (WhyEmit (F.holds subject.now.files.now) lattice.entry source.entry) NoOther) }
{
    let Some(lattice) = lattice else {
        return verified_in(subject, source);
    };
    let compilation = Compilation {
        lattice,
        source,
        is_strict: false,
    };
    let bytes = built(subject, compilation)?;
    match judged_image(subject.alloc, bytes.as_slice()) {
        Ok(verified) => Ok((bytes, verified)),
        // The bytes just built are an image's, so only memory can run out.
        Err(_) => Err(Failure::Memory),
    }
}

/// The bytes of the lattice file, if there is one.
fn lattice_bytes<'a, F: Files>(
    subject: &Subject<'_, F>,
    lattice: Option<&'a str>,
) -> Fallible<'a, Option<Vec<u8>>>
    ensures read { IfOk result (λ found. AreLatticeBytes (F.holds subject.now.files.now)
        lattice.entry (option_map (λ b. b.items) found)) }
    ensures late { IfErr result (λ failure. 3 < status_of failure) }
{
    let Some(path) = lattice else {
        return Ok(None);
    };
    Ok(Some(subject.bytes_in(InputKind::Lattice, path)?))
}

/// The C of the requested image, or its header.
pub fn emit<'a, F: Files>(subject: &Subject<'_, F>, asked: Emission<'a>) -> Fallible<'a, Vec<u8>>
    ensures told { IfOk result (EmitsFile (F.holds subject.now.files.now) asked.entry) }
    ensures failed { IfErr result (FailsBy
        (WhyEmit (F.holds subject.now.files.now) asked.entry.lattice asked.entry.file)
        (LacksEmitBound (F.holds subject.now.files.now) asked.entry)) }
{
    // Without a bound for a function that has no budget, the line of `bound` is the failure.
    if asked.is_bounded {
        let sought = Bounding {
            lattice: asked.lattice,
            file: asked.file,
        };
        let found = bound(subject, sought, false)?;
        if !found.is_good {
            return Err(Failure::Refused(found.text, None));
        }
    }
    let (image, verified) = emitted_image(subject, asked.lattice, asked.file)?;
    let lattice = lattice_bytes(subject, asked.lattice)?;
    let origin = origin_of(&image, lattice.as_deref());
    let name = function_name(asked.name, asked.file);
    let alloc = subject.alloc;
    let is_header = asked.is_header;
    in_c(alloc, &verified, origin, name, is_header, asked.is_bounded)
}

/// How this program was built. An unproved build has another answer here: see `tools/build`.
fn build() -> Build
    ensures { result ≡ program_build }
{
    Build::Proved
}

/// The origin of C that this program makes of these bytes.
fn origin_of<'b>(image: &'b [u8], lattice: Option<&'b [u8]>) -> Origin<'b>
    ensures ours { IsOurs result }
    ensures image { result.image.now ≡ image.now }
    ensures lattice { result.lattice ≡ lattice.entry }
{
    Origin {
        version: version(),
        build: build(),
        image,
        lattice,
    }
}

/// The C of an image or its header, without a budget or with one.
fn in_c<'a>(
    alloc: Global,
    verified: &Verified,
    origin: Origin<'_>,
    name: &[u8],
    is_header: bool,
    is_bounded: bool,
) -> Fallible<'a, Vec<u8>>
    ensures told { IfOk result (λ text.
        IsRequestedC is_bounded is_header verified.now origin.entry name.now text.items) }
    ensures failed { IfErr result (FailsBy (λ reason. ⊥) (λ failure. (is_bounded ≡ true) ×
        IsUnbounded verified.now failure)) }
{
    // Functions may have this name, so only memory can run out as the text is made.
    if is_bounded {
        let most = most_of(alloc, verified)?;
        let answer = if is_header {
            emit_bounded_header(alloc, verified, origin, most, name)
        } else {
            emit_bounded(alloc, verified, origin, most, name)
        };
        return answer.map_err(|_| Failure::Memory);
    }
    let bound = enough_budget(alloc, verified)?.ok();
    let answer = if is_header {
        emit_header(alloc, verified, origin, bound, name)
    } else {
        emit_c(alloc, verified, origin, bound, name)
    };
    answer.map_err(|_| Failure::Memory)
}
