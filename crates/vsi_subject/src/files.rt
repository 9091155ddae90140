//! Files, and texts written to them as a whole.

ghost use Rattle.std.specs.{Prelude.{◌≡◌, ◌≢◌, ℕ, List, true, Contains, Option, Some, None, IfSome, ◌<◌, ◌++◌, IfErr, OnOk, codes}, Io.KnownBytes.{Appends}};
ghost use Rattle.vsi_subject.specs.{Holding.{HoldsAt, KeepsOthers, Delivers, Fills, Replaces}, Objections.{OBJECTIONS}, Partly.{WritesPart}, Files.{shown}, State.{StaysAt, Touches}, Failures.{TellsFault, status_of}};
ghost use Rattle.vsi_drive.specs.Counted.{device_of, faults_of};

use crate::failure::{Failure, Fallible, write};
use std::alloc::Global;
use std::io::{Read, Write};
use vsi_arguments::Manner;
use vsi_drive::Counted;

/// The kind of the file that a request writes.
#[derive(Clone, Copy, Debug, PartialEq, Eq)]
pub enum OutputKind {
    Image,
    Store,
    /// The store of a drive at another path than that of the store with which it began, whose place
    /// alone it takes.
    State,
    Source,
    /// C or a page, which isn't known by its bytes: only an empty file is of this kind.
    Text,
}

/// The output of a request, and the files that it may replace.
#[derive(Clone, Copy, Debug)]
pub struct Writing<'a> {
    pub kind: OutputKind,
    /// The path of a file that it reads and may replace: the store that a run begins with, or the
    /// source text that is laid out.
    pub replaced: Option<&'a str>,
    /// Whether it reads standard input, which may be a file.
    pub reads_input: bool,
    /// Whether a file of another kind may be replaced.
    pub is_forced: bool,
}

/// The files of a system. It counts as a device: `None` is a file fault, even if an implementation
/// ran out of memory.
pub trait Files {
    /// The reader of a file.
    type Input: Read + Drop;

    /// The bytes of the file at each path, if they are known.
    ghost holds: { Self → List ℕ → Option (List ℕ) } = { λ _ _. None };

    /// The file at the path to read from, or nothing if it doesn't open.
    fn open_file(&self, path: &str) -> Option<Self::Input>
        ensures { IfSome (holds self.now path.now)
            (λ bytes. IfSome result (λ input. Self.Input.remaining input ≡ Some bytes)) };

    /// Makes or empties the file at the path, and fills it with these bytes; nothing if that fails.
    fn fill_file(&mut self, path: &str, bytes: &[u8]) -> Option<()>
        ensures filled { IfSome result (λ _. HoldsAt (holds self.new) path.now bytes.now) }
        ensures others { KeepsOthers path.now (holds self.old) (holds self.new) };

    /// Fills a new file, at the path `fresh` or one beside it, with these bytes, and then moves it
    /// to `path`, over the file there if one exists; nothing if that fails, and then the file at
    /// `path` is as it was. A path that isn't a regular file, such as a device or a link, is
    /// neither filled nor replaced.
    fn replace_file(&mut self, _path: &str, _fresh: &str, _bytes: &[u8]) -> Option<()>
        ensures filled { IfSome result (λ _. HoldsAt (holds self.new) _path.now _bytes.now) }
        ensures stays { result ≡ None → holds self.new _path.now ≡ holds self.old _path.now }
        ensures others { (other : List ℕ) → other ≢ _path.now → other ≢ _fresh.now
            → holds self.new other ≡ holds self.old other }
    {
        None
    }

    /// Whether the file at the path may be one that isn't a regular file, such as a pipe, whose
    /// reader would wait.
    fn may_wait(&self, _path: &str) -> bool {
        false
    }

    /// Whether there is nothing at the path: no file, and no folder, pipe or link either, where it
    /// leads nowhere too. It isn't so if the system doesn't say what is there.
    fn lacks(&self, _path: &str) -> bool
        ensures { result ≡ true → holds self.now _path.now ≡ None }
    {
        false
    }

    /// Takes note of the file whose store a drive keeps, before anything is read. A file that
    /// another drive keeps isn't replaced.
    fn claim(&mut self, _path: &str)
        ensures kept { holds self.new ≡ holds self.old }
    {}

    /// Takes note of the output of a request, before its files are read.
    fn expect(&mut self, _writing: Writing<'_>)
        ensures kept { holds self.new ≡ holds self.old }
    {}

    /// Why a file wasn't replaced, in a sentence, if that is because it is of another kind.
    fn objection(&self) -> Option<&'static str>
        ensures { IfSome result (λ sentence. Contains OBJECTIONS sentence.now) }
    {
        None
    }

    /// Why the file at the path can't be used, in a sentence, if that is known.
    fn trouble(&self, _path: &str) -> Option<&'static str> {
        None
    }

    /// Whether the text on standard error may be coloured.
    fn wants_colour(&self) -> bool {
        false
    }

    /// How the request is carried out, if its arguments were judged when its files were read.
    fn manner(&self) -> Option<Manner> {
        None
    }
}

/// Makes or empties a file, and fills it with these bytes.
pub fn fill<'a, F: Files>(bytes: &[u8], path: &'a str, files: &mut F) -> Fallible<'a, ()>
    ensures failure { IfErr result (λ failure. 3 < status_of failure) }
    ensures filled { OnOk result
        (Fills path.now bytes.now (F.holds files.old) (F.holds files.new)) }
    ensures others { KeepsOthers path.now (F.holds files.old) (F.holds files.new) }
{
    match files.fill_file(path, bytes) {
        Some(()) => Ok(()),
        None => Err(Failure::FileFault(path)),
    }
}

/// Writes a whole text to a file: first to one beside it, whose name has `.new` appended.
pub fn replace<'a, F: Files>(
    alloc: Global,
    text: &[u8],
    path: &'a str,
    files: &mut F,
) -> Fallible<'a, ()>
    ensures failure { IfErr result (λ failure. 3 < status_of failure) }
    ensures replaced { OnOk result
        (Replaces path.now text.now (F.holds files.old) (F.holds files.new)) }
    ensures stays { IfErr result (λ _. F.holds files.new path.now ≡ F.holds files.old path.now) }
    ensures others { (other : List ℕ) → other ≢ path.now → other ≢ path.now ++ codes ".new"
        → F.holds files.new other ≡ F.holds files.old other }
{
    let fresh = format!(in alloc; "{path}.new")?;
    match files.replace_file(path, fresh.as_str(), text) {
        Some(()) => Ok(()),
        None => Err(Failure::FileFault(path)),
    }
}

/// Writes a whole text to the requested file, or else to standard output.
pub fn deliver<'a, F: Files, W: Write>(
    alloc: Global,
    text: &[u8],
    out: Option<&'a str>,
    files: &mut F,
    output: &mut Counted<W>,
) -> Fallible<'a, ()>
    requires { faults_of output.old < u64.MAX }
    ensures fault { TellsFault (faults_of output.old) (faults_of output.new) result }
    ensures failure { IfErr result (λ failure. 3 < status_of failure) }
    ensures whole { OnOk result (Appends (W.contents (device_of output.old))
        (W.contents (device_of output.new)) (shown out.entry text.now)) }
    ensures part { WritesPart (shown out.entry text.now)
        (W.contents (device_of output.old)) (W.contents (device_of output.new)) }
    ensures delivered { OnOk result
        (Delivers out.entry text.now (F.holds files.old) (F.holds files.new)) }
    ensures touched { Touches out.entry (F.holds files.old) (F.holds files.new) }
    ensures stays { IfErr result (λ _. StaysAt out.entry (F.holds files.old) (F.holds files.new)) }
{
    match out {
        Some(path) => replace(alloc, text, path, files),
        None => write(text, output),
    }
}
