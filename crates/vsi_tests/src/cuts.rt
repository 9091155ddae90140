//! The output of `command` and of engines if a device fails, and files that are read once.

ghost use Rattle.std.specs.Prelude.{◌≡◌};
ghost use Rattle.vsi_drive.specs.Counted.{faults_of};

use crate::files::{
    AMPLE, Device, Drip, Failure, IMAGE, LEAK, SUM, Scant, Shelf, Shown, TWO, call, show_over,
    words_of,
};
use std::alloc::{AllocError, Global};
use std::cell::Cell;
use std::test::Fail;
use vsi::{Files, Lattice, load, read_lattice};
use vsi_drive::{Counted, EngineError, build, build_in, read_all, run_image, write_out};
use vsi_types::Profile;

/// The fault of a standard stream.
const STREAM: &[u8] = b"file fault: -\n";

/// The output for the words in a line if one device has this room.
fn show(alloc: Global, line: &str, device: Device, room: usize) -> Result<Shown, AllocError> {
    show_over(alloc, line, 1, device, room)
}

/// Whether a device with this much room took a prefix of its whole output, and the run ended with
/// this status and this error, unless standard error is the device that fails.
fn is_cut(
    cut: &Shown,
    whole: &Shown,
    device: Device,
    room: usize,
    status: u8,
    error: &[u8],
) -> bool {
    cut.status == status
        && cut.taken(device).len() == room
        && whole.taken(device).starts_with(cut.taken(device))
        && (device == Device::Error || cut.error.as_slice() == error)
}

/// Whether a run of a line ends with this status and reports this error wherever a device takes
/// less than the whole.
fn is_cut_anywhere(
    alloc: Global,
    line: &str,
    device: Device,
    status: u8,
    error: &[u8],
) -> Result<bool, AllocError> {
    let whole = show(alloc, line, device, AMPLE)?;
    for room in 0..whole.taken(device).len() {
        let cut = show(alloc, line, device, room)?;
        if !is_cut(&cut, &whole, device, room, status, error) {
            return Ok(false);
        }
    }
    Ok(!whole.taken(device).is_empty())
}

#[test]
fn reports_faults_of_output(rt: HostRuntime) -> Result<(), Fail> {
    for line in &[
        "check two sum",
        "classes two sum",
        "flows two leak",
        "flows --walks two leak",
        "list image",
        "run image --budget 3",
        "run image --budget 3 --trace",
        "view two image --class L --budget 3",
        "fmt sum",
        "--version",
    ] {
        assert!(rt;
            is_cut_anywhere(rt.alloc(), line, Device::Output, 4, STREAM)?,
            "at {line}"
        );
    }
    let error = b"file fault: made\n";
    assert!(rt; is_cut_anywhere(rt.alloc(), "build two sum made", Device::Image, 4, error)?);
    for (line, status) in &[
        ("check two leak", 1),
        ("solve", 2),
        ("view two image --class Q --budget 3", 2),
        ("run image --budget 2", 3),
        ("check gone leak", 4),
    ] {
        assert!(rt;
            is_cut_anywhere(rt.alloc(), line, Device::Error, *status, b"")?,
            "at {line}"
        );
    }
    Ok(())
}

/// The number of the lines of a text.
fn line_count(text: &[u8]) -> usize {
    let mut count: usize = 0;
    for byte in text {
        if *byte == b'\n' {
            count = count.saturating_add(1);
        }
    }
    count
}

// 25 variables in a chain are 300 pairs, and the walks have d * (25 - d) steps of pairs d apart:
// 2,600. The lines are more than 65,536 bytes, so they are written in two parts.
#[test]
fn writes_walks_as_they_are_made(rt: HostRuntime) -> Result<(), Fail> {
    let line = "flows --walks two chain";
    let whole = show(rt.alloc(), line, Device::Output, AMPLE)?;
    assert!(rt; whole.status == 0);
    assert!(rt; line_count(whole.output.as_slice()) == 2900);
    assert!(rt; whole.output.as_slice().ends_with(b"by ASSIGN at 1:460\n"));
    for room in [0, 1, 65_000, 66_000, 100_000] {
        let cut = show(rt.alloc(), line, Device::Output, room)?;
        assert!(rt;
            is_cut(&cut, &whole, Device::Output, room, 4, STREAM),
            "at {room}"
        );
    }
    Ok(())
}

/// Whether the run shows only this output and this fault.
fn is_fault(shown: &Shown, output: &[u8], error: &[u8]) -> bool {
    shown.status == 4 && shown.output.as_slice() == output && shown.error.as_slice() == error
}

#[test]
fn reports_faults_of_input(rt: HostRuntime) -> Result<(), Fail> {
    for line in &[
        "check torn sum",
        "check two torn",
        "list torn",
        "fmt torn",
        "run torn --budget 3",
        "run image --budget 3 --store torn",
        "view two image --class L --budget 3 --store torn",
    ] {
        let shown = show(rt.alloc(), line, Device::Output, AMPLE)?;
        assert!(rt; is_fault(&shown, b"", b"file fault: torn\n"), "at {line}");
    }
    for fails_at in 1..23 {
        let shown = show_over(rt.alloc(), "", fails_at, Device::Output, AMPLE)?;
        assert!(rt; is_fault(&shown, b"", STREAM), "at {fails_at}");
    }
    for begun in &["", "x", "x ", "x =", "x = ", "x = 3"] {
        let shown = show_over(rt.alloc(), "", 0, Device::Output, begun.len())?;
        assert!(rt; is_fault(&shown, begun.as_bytes(), STREAM), "at {begun}");
    }
    let unheard = show_over(rt.alloc(), "", 1, Device::Error, 0)?;
    assert!(rt; is_fault(&unheard, b"", b""));
    Ok(())
}

/// The text of a copy.
const TEXT: &[u8] = b"compiled";

/// The trace of the image, and its store.
const TRACE: &[u8] = b"0: PUSH 3 |\n1: STORE 0 | 3\n2: HALT |\nx = 3\n";

/// What is done with a reader and a writer: a text is copied, or built, under the base profile or
/// the strict one, or an image is run with its trace.
#[derive(Clone, Copy)]
enum Job {
    Copy,
    Build,
    BuildStrict,
    Run,
}

/// Does a job.
fn carry_out(
    alloc: Global,
    lattice: &Lattice,
    job: Job,
    reader: &mut Counted<Drip<'_>>,
    writer: &mut Counted<Scant>,
) -> Result<(), EngineError>
    requires reads { faults_of reader.old ≡ 0 }
    requires writes { faults_of writer.old ≡ 0 }
{
    match job {
        Job::Copy => {
            let bytes = read_all(alloc, reader)?;
            write_out(&bytes, writer)
        }
        Job::Build => build(alloc, lattice, reader, writer),
        Job::BuildStrict => build_in(alloc, Profile::Strict, lattice, reader, writer),
        Job::Run => {
            let _outcome = run_image(alloc, reader, b"", 3, true, writer)?;
            Ok(())
        }
    }
}

/// Whether a job ends with these numbers of calls and of faults of its reader and of its writer,
/// which is never flushed and takes a byte of the text at each other call. `faults` are the call at
/// which the reader fails, counted from 1, and the room and the behaviour of the writer.
fn ends(
    alloc: Global,
    lattice: &Lattice,
    job: Job,
    faults: (u64, usize, Failure),
    reads: (u64, u64),
    writes: (u64, u64),
) -> bool {
    let (given, wanted) = match job {
        Job::Copy => (TEXT, TEXT),
        Job::Build | Job::BuildStrict => (SUM, IMAGE),
        Job::Run => (IMAGE, TRACE),
    };
    let mut reader = Counted::new(Drip::new(given, faults.0));
    let mut writer = Counted::new(Scant::new(alloc, faults.1, faults.2));
    let is_so = match carry_out(alloc, lattice, job, &mut reader, &mut writer) {
        Ok(()) => reads.1 == 0 && writes.1 == 0,
        Err(EngineError::ReadFault) => reads.1 == 1,
        Err(EngineError::WriteFault) => writes.1 == 1,
        Err(_) => false,
    };
    let found = (reader.faults(), writer.faults());
    let calls = reader.into_inner().calls;
    let writer = writer.into_inner();
    let length = writer.bytes.len() as u64;
    is_so
        && (calls, found.0) == reads
        && (writer.calls, found.1) == writes
        && length.saturating_add(found.1) == writer.calls
        && writer.flushes == 0
        && wanted.starts_with(writer.bytes.as_slice())
}

// The last call of each reader reads nothing.
#[test]
fn jobs_end_at_the_first_fault(rt: HostRuntime) -> Result<(), Fail> {
    let alloc = rt.alloc();
    let lattice = read_lattice(alloc, TWO)?;
    for (job, reads, writes) in [
        (Job::Copy, 9, 8),
        (Job::Build, 22, 31),
        (Job::BuildStrict, 22, 31),
        (Job::Run, 32, 43),
    ] {
        for at in 1..=reads {
            let faults = (at, 64, Failure::Refuses);
            assert!(rt;
                ends(alloc, &lattice, job, faults, (at, 1), (0, 0)),
                "at {at}"
            );
        }
        for failure in [Failure::Refuses, Failure::TakesNothing] {
            let faults = (reads.saturating_add(1), writes, failure);
            assert!(rt; ends(alloc, &lattice, job, faults, (reads, 0), (writes as u64, 0)));
            for room in 0..writes {
                let calls = (room as u64).saturating_add(1);
                let faults = (0, room, failure);
                assert!(rt;
                    ends(alloc, &lattice, job, faults, (reads, 0), (calls, 1)),
                    "at {room}"
                );
            }
        }
    }
    Ok(())
}

/// Files in which `text` has another content from its second opening on.
#[derive(Drop)]
struct Turncoat {
    is_read: Cell<bool>,
}

impl Files for Turncoat {
    type Input = Drip<'static>;

    fn open_file(&self, path: &str) -> Option<Drip<'static>> {
        match path {
            "two" => Some(Drip::new(TWO, 0)),
            "text" if self.is_read.get() => Some(Drip::new(LEAK, 0)),
            "text" => {
                self.is_read.set(true);
                Some(Drip::new(SUM, 0))
            }
            _ => None,
        }
    }

    fn fill_file(&mut self, _path: &str, _bytes: &[u8]) -> Option<()> {
        None
    }
}

/// The output for the words in a line over files that are read once.
fn carried<F: Files + Drop>(alloc: Global, line: &str, system: F) -> Result<Shown, AllocError> {
    let words = words_of(alloc, line)?;
    let mut files = load(alloc, words.as_slice(), system)?;
    let input = Drip::new(b"", 1);
    Ok(call(alloc, words.as_slice(), &mut files, input, (AMPLE, AMPLE)))
}

#[test]
fn judges_the_text_that_was_read(rt: HostRuntime) -> Result<(), Fail> {
    let line = "check two text";
    let first = carried(
        rt.alloc(),
        line,
        Turncoat {
            is_read: Cell::new(false),
        },
    )?;
    assert!(rt; first.status == 0 && first.error.is_empty());
    assert!(rt; first.output.as_slice() == b"accepted\n".as_slice());
    let second = carried(
        rt.alloc(),
        line,
        Turncoat {
            is_read: Cell::new(true),
        },
    )?;
    assert!(rt; second.status == 1 && second.output.is_empty());
    let told = second.error.as_slice();
    assert!(rt; told.starts_with(b"refused: 25 Refused\n"));
    for (line, status, error) in &[
        ("run image --budget 3 --out image", 4, "file fault: image\n"),
        ("build two sum made", 0, ""),
        ("check two none", 4, "file fault: none\n"),
        ("check torn sum", 4, "file fault: torn\n"),
    ] {
        let shown = carried(rt.alloc(), line, Shelf::new(rt.alloc(), AMPLE))?;
        assert!(rt;
            shown.status == *status && shown.error.as_slice() == error.as_bytes(),
            "at {line}"
        );
    }
    Ok(())
}
