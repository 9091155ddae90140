//! Files that are read once, before a request is carried out.

ghost use Rattle.std.specs.{Prelude.{◌≡◌, false, IfOk, Some, None}, Io.{ReadsAtMost}, Io.KnownBytes.{ReadConsumes}, Rc.{rc_slice_items}};
ghost use Rattle.vsi_subject.specs.Loading.{AreRead, held, left_of};

use crate::failure::Failure;
use crate::files::{Files, OutputKind, Writing};
use crate::subject::whole_in;
use std::alloc::{AllocError, Global};
use std::collections::BTreeMap;
use std::io;
use std::io::{AsBytes, Cursor, Read};
use std::rc::RcSlice;
use vsi_arguments::{
    ArgumentsError, Document, DrivePolicy, Manner, Request, manner_of, request_of,
};

/// The message of `trouble` about a file that this request would write over.
const SPARED: &str = "this request reads the file, so it doesn't write over it.";

/// The bytes of a file, which all its readers share.
#[derive(Drop)]
pub struct Shared {
    bytes: RcSlice<u8>,
}

impl AsBytes for Shared {
    ghost bytes = { λ shared. Some (rc_slice_items shared.bytes) };

    fn as_byte_slice(&self) -> &[u8] {
        self.bytes.as_slice()
    }
}

/// The files of a system, where those that a request names were read once: the request later reads
/// them from memory, and it writes over none of them.
#[derive(Drop)]
pub struct Loaded<F> {
    alloc: Global,
    /// The bytes of each file that was read, at its path.
    texts: BTreeMap<String, RcSlice<u8>>,
    /// The path of the first file that couldn't be read, and isn't read again.
    lost: Option<Vec<u8>>,
    is_spared: bool,
    /// How the request is carried out, if its arguments have no mistake.
    manner: Option<Manner>,
    system: F,
}

/// The reader of a file: from bytes in memory, or from the system.
#[derive(Drop)]
pub enum Opened<R> {
    Memory(Cursor<Shared>),
    System(R),
}

impl<R: Read> Read for Opened<R> {
    ghost remaining = { left_of R.remaining };

    fn read(&mut self, buf: &mut [u8]) -> io::Result<usize>
        ensures bound { ReadsAtMost result buf.new }
        ensures bytes { ReadConsumes (left_of R.remaining self.old) (left_of R.remaining self.new)
            result buf.new }
    {
        match self {
            Opened::Memory(bytes) => bytes.read(buf),
            Opened::System(reader) => reader.read(buf),
        }
    }
}

impl<F> Loaded<F> {
    /// Whether the file at the path was read, so that nothing is written over it.
    fn spares(&mut self, path: &str) -> bool
        ensures kept { self.new.texts ≡ self.old.texts }
        ensures read { result ≡ false → held self.old.texts path.now ≡ None }
    {
        let is_read = self.texts.contains_key(path);
        self.is_spared = self.is_spared || is_read;
        is_read
    }
}

impl<F: Files> Loaded<F> {
    /// Reads the file at the path, unless it was read or is one that the request replaces. It
    /// returns whether nothing is lost.
    fn take(&mut self, request: &Request<'_>, path: &str) -> Result<bool, AllocError>
        ensures kept { F.holds self.new.system ≡ F.holds self.old.system }
        ensures told { AreRead (F.holds self.old.system) self.old.texts
            → AreRead (F.holds self.old.system) self.new.texts }
    {
        if is_state(request, path) || self.texts.contains_key(path) {
            return Ok(true);
        }
        let bytes = match whole_in(self.alloc, path, &self.system) {
            Ok(bytes) => bytes,
            Err(Failure::Memory) => return Err(AllocError),
            Err(_) => {
                self.lost = Some(Vec::from_slice(self.alloc, path.as_bytes())?);
                return Ok(false);
            }
        };
        let path = String::from_str(self.alloc, path)?;
        let shared = RcSlice::from_vec(bytes)?;
        self.texts.insert(path, shared)?;
        Ok(true)
    }
}

/// Lets the files take note of what a drive keeps.
fn claim_kept<F: Files>(request: &Request<'_>, system: &mut F)
    ensures { F.holds system.new ≡ F.holds system.old }
{
    let Request::Drive(asked) = request else {
        return;
    };
    if let Some(path) = asked.save {
        system.claim(path);
    }
}

/// Lets the files take note of what a request keeps and writes.
fn prepare<F: Files>(request: &Request<'_>, manner: Manner, system: &mut F)
    ensures { F.holds system.new ≡ F.holds system.old }
{
    claim_kept(request, system);
    let (kind, replaced) = match request {
        Request::Run { execution, .. } | Request::View { execution, .. } => {
            (OutputKind::Store, execution.store)
        }
        Request::ViewWithin(asked) => (OutputKind::Store, asked.execution.store),
        // Any store at the path of the one that is read, and else the state alone.
        Request::Drive(asked) if asked.execution.store == asked.save => {
            (OutputKind::Store, asked.execution.store)
        }
        Request::Drive(asked) => (OutputKind::State, asked.execution.store),
        Request::Layout(asked) => (OutputKind::Source, Some(asked.source)),
        Request::EmitC(_) | Request::Report(_) => (OutputKind::Text, None),
        _ => (OutputKind::Image, None),
    };
    system.expect(Writing {
        kind,
        replaced,
        reads_input: matches!(request, Request::Drive(_)),
        is_forced: manner.is_forced,
    });
}

/// Reads each file that the arguments name and the request reads, in the order in which it does,
/// and none after the first one that can't be read. A file that the request replaces is left out.
///
/// # Errors
///
/// Out of memory.
pub fn load<F: Files + Drop>(
    alloc: Global,
    arguments: &[String],
    system: F,
) -> Result<Loaded<F>, AllocError>
    ensures told { IfOk result (λ loaded. AreRead (F.holds system) loaded.texts) }
{
    let mut loaded = Loaded {
        alloc,
        texts: BTreeMap::new(alloc),
        lost: None,
        is_spared: false,
        manner: None,
        system,
    };
    let manner = match manner_of(alloc, arguments) {
        Ok(manner) => manner,
        Err(ArgumentsError::Memory) => return Err(AllocError),
        Err(ArgumentsError::Help(_) | ArgumentsError::Mistake(_)) => return Ok(loaded),
    };
    loaded.manner = Some(manner);
    let Some(request) = request_of(alloc, arguments)? else {
        return Ok(loaded);
    };
    prepare(&request, manner, &mut loaded.system);
    for path in &paths_of(&request) {
        let Some(path) = *path else {
            continue;
        };
        if !loaded.take(&request, path)? {
            return Ok(loaded);
        }
    }
    for source in texts_of(&request) {
        if !loaded.take(&request, source)? {
            return Ok(loaded);
        }
    }
    Ok(loaded)
}

impl<F: Files> Files for Loaded<F> {
    type Input = Opened<F::Input>;

    ghost holds = { λ loaded. held loaded.texts };

    fn open_file(&self, path: &str) -> Option<Opened<F::Input>> {
        if let Some(lost) = &self.lost {
            if lost.as_slice() == path.as_bytes() {
                return None;
            }
        }
        match self.texts.get(path) {
            Some(bytes) => {
                let bytes = bytes.clone().ok()?;
                Some(Opened::Memory(Cursor::new(Shared { bytes })))
            }
            None => Some(Opened::System(self.system.open_file(path)?)),
        }
    }

    fn fill_file(&mut self, path: &str, bytes: &[u8]) -> Option<()> {
        if self.spares(path) {
            return None;
        }
        self.system.fill_file(path, bytes)
    }

    fn replace_file(&mut self, path: &str, fresh: &str, bytes: &[u8]) -> Option<()> {
        if self.spares(path) {
            return None;
        }
        self.system.replace_file(path, fresh, bytes)
    }

    fn may_wait(&self, path: &str) -> bool {
        self.system.may_wait(path)
    }

    fn lacks(&self, path: &str) -> bool {
        !self.texts.contains_key(path) && self.system.lacks(path)
    }

    fn claim(&mut self, path: &str) {
        self.system.claim(path)
    }

    fn expect(&mut self, writing: Writing<'_>) {
        self.system.expect(writing)
    }

    fn objection(&self) -> Option<&'static str> {
        self.system.objection()
    }

    fn trouble(&self, path: &str) -> Option<&'static str> {
        if self.is_spared {
            return Some(SPARED);
        }
        self.system.trouble(path)
    }

    fn wants_colour(&self) -> bool {
        self.system.wants_colour()
    }

    fn manner(&self) -> Option<Manner> {
        self.manner
    }
}

/// The most files that a request names to read, besides the source texts of a survey.
const MOST_READ: usize = 4;

/// The paths of the files that a request reads, in the order in which it does. The lattice file
/// that an interface or a text names isn't among them, nor is that of `lsp`, which reads it again
/// and again.
fn paths_of<'a>(request: &Request<'a>) -> [Option<&'a str>; MOST_READ] {
    match request {
        Request::Check(judging) | Request::Document(Document::Sarif(judging)) => {
            two(judging.compilation.lattice, judging.compilation.source)
        }
        Request::Survey(asked) => one(asked.lattice),
        Request::Classes(compilation)
        | Request::Document(Document::Classes(compilation))
        | Request::Document(Document::Flows(compilation))
        | Request::Build(compilation, _)
        | Request::Flows { compilation, .. } => two(compilation.lattice, compilation.source),
        Request::Mend(asked) => two(asked.compilation.lattice, asked.compilation.source),
        Request::Report(page) => two(page.compilation.lattice, page.compilation.source),
        Request::Project(asked) => one(asked.project),
        Request::Conform(asked) => two(asked.interface, asked.source),
        Request::List(image) | Request::Source(image) | Request::Document(Document::List(image)) =>
            one(image),
        Request::Format(source) | Request::Document(Document::Layout(source)) => one(source),
        Request::Layout(asked) => one(asked.source),
        Request::Audit(asked)
        | Request::Document(Document::Audit(asked))
        | Request::Document(Document::AuditSarif(asked)) => two(asked.lattice, asked.image),
        Request::EmitC(asked) => [asked.lattice, Some(asked.file), None, None],
        Request::Bound(asked) | Request::Document(Document::Bound(asked)) => {
            [asked.lattice, Some(asked.file), None, None]
        }
        Request::Run { execution, .. } | Request::Document(Document::Run { execution, .. }) => {
            [execution.store, Some(execution.image), None, None]
        }
        Request::View {
            lattice,
            execution,
            ..
        } => [Some(*lattice), Some(execution.image), execution.store, None],
        Request::ViewWithin(asked) => [
            Some(policy_path(asked.policy)),
            Some(asked.execution.image),
            asked.execution.store,
            None,
        ],
        Request::Drive(asked) => [
            Some(policy_path(asked.policy)),
            Some(asked.execution.image),
            asked.execution.store,
            None,
        ],
        Request::Compare(asked) | Request::Document(Document::Compare(asked)) => [
            Some(asked.lattice),
            Some(asked.image),
            Some(asked.stores.0),
            Some(asked.stores.1),
        ],
        Request::CompareSteps {
            comparison: asked,
            ..
        } => [
            Some(asked.lattice),
            Some(asked.source),
            Some(asked.stores.0),
            Some(asked.stores.1),
        ],
        Request::Steps {
            stepping: asked,
            ..
        }
        | Request::Monitor {
            stepping: asked,
            ..
        } => [Some(asked.lattice), Some(asked.source), asked.store, None],
        Request::Leak(asked) | Request::Document(Document::Leak(asked)) => {
            two(asked.lattice, asked.source)
        }
        Request::Draw(asked) => [Some(asked.lattice), asked.source, None, None],
        Request::Policy(asked) | Request::Document(Document::Policy(asked)) => {
            [Some(asked.lattice), asked.old, None, None]
        }
        Request::Visible(asked) | Request::Document(Document::Visible(asked)) => {
            [Some(asked.interface), asked.old, None, None]
        }
        Request::Try(asked) => [Some(asked.source), asked.lattice, None, None],
        Request::Lattice(_) | Request::Lsp(_) | Request::Explain(_) | Request::New(_) => {
            [None; MOST_READ]
        }
    }
}

/// The paths of the source texts that a survey reads after the lattice file.
fn texts_of<'r, 'a>(request: &'r Request<'a>) -> &'r [&'a str] {
    match request {
        Request::Survey(asked) => asked.sources.as_slice(),
        _ => &[],
    }
}

/// The path of the file with the policy of a drive or of a view.
fn policy_path<'a>(policy: DrivePolicy<'a>) -> &'a str {
    match policy {
        DrivePolicy::Lattice(path, _) | DrivePolicy::Interface(path) => path,
    }
}

/// Whether the file at the path is one that a request reads and then replaces: the store that it
/// begins with, or the source text that it lays out.
fn is_state(request: &Request<'_>, path: &str) -> bool {
    match request {
        Request::Run {
            execution,
            initial_store,
            ..
        }
        | Request::View {
            execution,
            initial_store,
            ..
        } => execution.store == Some(path) && initial_store.out == Some(path),
        Request::ViewWithin(asked) => {
            asked.execution.store == Some(path) && asked.initial_store.out == Some(path)
        }
        Request::Drive(asked) => asked.execution.store == Some(path) && asked.save == Some(path),
        Request::Layout(asked) => asked.is_written && asked.source == path,
        _ => false,
    }
}

/// One path.
fn one<'a>(path: &'a str) -> [Option<&'a str>; MOST_READ] {
    [Some(path), None, None, None]
}

/// Two paths.
fn two<'a>(first: &'a str, second: &'a str) -> [Option<&'a str>; MOST_READ] {
    [Some(first), Some(second), None, None]
}
