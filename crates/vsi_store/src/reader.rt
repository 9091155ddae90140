//! Reads store files, and the first line of one that is saved.

ghost use Rattle.std.specs.{Prelude.{◌≡◌, IfOk, IfErr, MatchResult, None, ◌++◌, OnOk, map}, List.{flat_map, list_any}};
ghost use Rattle.hex.specs.Hex.{encode_lower};
ghost use Rattle.sha2.specs.Sha256.{sha256};
ghost use Rattle.toml.specs.View.{table_view, view};
ghost use Rattle.vsi_image.specs.Fields.{globals};
ghost use Rattle.vsi_store.specs.{File.{Tells, Names, IsDocument, IsNameless, IsRefusal, IsEntryRefusal, entry_fault, has_name, number_in}, declared.reader.StoreError.TheVariants.{Memory}};
ghost use Rattle.vsi_store.specs.Seal as spec;
ghost use Rattle.vsi_store.specs.File as file_spec;
ghost use Rattle.vsi_store.specs.Evidence as evidence_spec;

use sha2::{Digest, Sha256};
use std::alloc::{AllocError, AllocFailed, Global};
use thiserror::Error;
use toml::{Table, Value};
use vsi_image::Image;
use vsi_syntax::put_number;

/// The beginning of the line.
const MARK: &[u8] = b"# sha256 ";

/// The number of bytes of the line: the mark, 64 digits and a line feed.
const LENGTH: usize = 74;

/// The line of a text.
fn seal(alloc: Global, text: &[u8]) -> Result<Vec<u8>, AllocError>
    ensures { IfOk result (λ line. line.items ≡ spec.seal text.now) }
{
    let digits = hex::encode(alloc, Sha256::digest(text))?;
    let mut line = Vec::from_slice(alloc, MARK)?;
    line.extend_from_slice(digits.as_bytes())?;
    line.extend_from_slice(b"\n")?;
    Ok(line)
}

/// The text after its line.
pub fn sealed(alloc: Global, text: &[u8]) -> Result<Vec<u8>, AllocError>
    ensures text { IfOk result (λ whole. whole.items ≡ spec.sealed text.now) }
{
    let mut whole = seal(alloc, text)?;
    whole.extend_from_slice(text)?;
    Ok(whole)
}

/// Whether the first line of bytes is that of all bytes after it.
fn has_own_line(alloc: Global, bytes: &[u8]) -> Result<bool, AllocError>
    ensures { IfOk result (λ is. is ≡ spec.has_own_line bytes.now) }
{
    if bytes.len() < LENGTH {
        return Ok(false);
    }
    let (first, rest) = bytes.split_at(LENGTH);
    let line = seal(alloc, rest)?;
    Ok(first == line.as_slice())
}

/// Whether bytes that begin with such a line have the one of the bytes after it. A mark that was cut
/// isn't whole, and all other bytes are.
pub fn is_whole(alloc: Global, bytes: &[u8]) -> Result<bool, AllocError>
    ensures whole { IfOk result (λ is. is ≡ spec.is_whole bytes.now) }
{
    if bytes.starts_with(MARK) {
        has_own_line(alloc, bytes)
    } else {
        Ok(bytes.is_empty() || !MARK.starts_with(bytes))
    }
}

/// The number of a global that a store file doesn't mention.
const UNNAMED: i64 = 0;

/// The words of the globals that a store file gives, in the order of the globals; a global without
/// a key is 0.
///
/// The file is a TOML document whose keys are globals and whose values are integers. A dotted key
/// counts as its first part, whose value is no integer.
///
/// # Errors
///
/// `NotToml` if the text isn't a document, isn't UTF-8, or has an integer beyond 64 bits. Otherwise
/// the fault of the first faulty key in byte order, with `NotANumber` before `UnknownGlobal` at one
/// key.
pub fn read_store(alloc: Global, image: &Image, text: &[u8]) -> Result<Vec<i64>, StoreError>
    ensures words { IfOk result
        (λ words. Tells text.now (globals image.now.globals.items) words.items) }
    ensures refused { IfErr result (IsRefusal (globals image.now.globals.items) text.now) }
{
    let variables = image.globals.as_slice();
    let table = table_in(alloc, text)?;
    for (key, value) in &table {
        judge(alloc, variables, key.as_str(), value)?;
    }
    let mut words = Vec::new(alloc);
    for variable in variables {
        words.push(number_of(&table, variable.0.as_slice()))?;
    }
    Ok(words)
}

/// The table of a document.
fn table_in(alloc: Global, text: &[u8]) -> Result<Table, StoreError>
    ensures { MatchResult result (λ t. IsDocument text.now (table_view t)) (IsNameless text.now) }
{
    match toml::table_from_slice(alloc, text) {
        Ok(table) => Ok(table),
        Err(error) => {
            if error.is_memory() {
                Err(StoreError::Memory)
            } else {
                Err(StoreError::NotToml)
            }
        }
    }
}

/// Whether the key is a global and its value a number.
fn judge(
    alloc: Global,
    variables: &[(Vec<u8>, Vec<u8>)],
    key: &str,
    value: &Value,
) -> Result<(), StoreError>
    ensures { MatchResult result
        (λ _. entry_fault (globals variables.now) key.now (view value.now) ≡ None)
        (IsEntryRefusal (globals variables.now) key.now (view value.now)) }
{
    if value.as_integer().is_none() {
        return Err(StoreError::NotANumber(Vec::from_slice(alloc, key.as_bytes())?));
    }
    if !is_global(variables, key.as_bytes()) {
        return Err(StoreError::UnknownGlobal(Vec::from_slice(alloc, key.as_bytes())?));
    }
    Ok(())
}

/// Whether a global has this name.
fn is_global(variables: &[(Vec<u8>, Vec<u8>)], key: &[u8]) -> bool
    ensures { result ≡ has_name (globals variables.now) key.now }
{
    for variable in variables {
        if variable.0.as_slice() == key {
            return true;
        }
    }
    false
}

/// The number at a key, or 0.
fn number_of(table: &Table, name: &[u8]) -> i64
    ensures { result ≡ number_in (table_view table.now) name.now }
{
    for (key, value) in table {
        if key.as_bytes() == name {
            return value.as_integer().unwrap_or(UNNAMED);
        }
    }
    UNNAMED
}

/// Whether each global, in order, has a key in a store file. The values of the keys aren't checked.
///
/// # Errors
///
/// `NotToml` if the text isn't a document, isn't UTF-8, or has an integer beyond 64 bits; `Memory`.
pub fn named_globals(alloc: Global, image: &Image, text: &[u8]) -> Result<Vec<bool>, StoreError>
    ensures named { IfOk result
        (λ named. Names text.now (globals image.now.globals.items) named.items) }
    ensures refused { IfErr result (IsNameless text.now) }
{
    let variables = image.globals.as_slice();
    let table = table_in(alloc, text)?;
    let mut named = Vec::new(alloc);
    for variable in variables {
        named.push(has_key(&table, variable.0.as_slice()))?;
    }
    Ok(named)
}

/// Whether the table has a key.
fn has_key(table: &Table, name: &[u8]) -> bool
    ensures { result ≡ file_spec.has_key (table_view table.now) name.now }
{
    for (key, _value) in table {
        if key.as_bytes() == name {
            return true;
        }
    }
    false
}

/// Why a store file is refused: it isn't TOML, or the first faulty key in byte order has no number
/// or isn't a global.
#[derive(Debug, Drop, Error)]
pub enum StoreError {
    /// The text isn't a TOML document.
    #[error("the store file is no TOML")]
    NotToml,
    /// The value of this key isn't an integer.
    #[error("the value of a key is no number")]
    NotANumber(Vec<u8>),
    /// The image has no global of this name.
    #[error("a key is no global")]
    UnknownGlobal(Vec<u8>),
    /// An allocation failed.
    #[error("out of memory")]
    Memory,
}

impl From<AllocError> for StoreError {
    ghost from_gives = { λ _ e. e ≡ Memory };

    fn from(_error: AllocError) -> StoreError {
        StoreError::Memory
    }
}

impl<T: Drop> From<AllocFailed<T>> for StoreError {
    ghost from_gives = { λ _ e. e ≡ Memory };

    fn from(_error: AllocFailed<T>) -> StoreError {
        StoreError::Memory
    }
}

/// How an audit judges an image, or an interface a text or an image.
#[derive(Clone, Copy, PartialEq, Eq, Debug)]
pub enum AuditProfile {
    /// Under the base profile.
    Base,
    /// Under the strict profile.
    Strict,
    /// By its jumps.
    Steady,
}

/// A file that was read: its path and its bytes.
#[derive(Clone, Copy)]
pub struct Filed<'a> {
    pub path: &'a [u8],
    pub bytes: &'a [u8],
}

/// The name of a profile.
fn profile_name(profile: AuditProfile) -> &'static [u8]
    ensures { result.now ≡ evidence_spec.profile_name profile }
{
    match profile {
        AuditProfile::Base => b"base",
        AuditProfile::Strict => b"strict",
        AuditProfile::Steady => b"steady",
    }
}

/// Whether a byte of a path has to be written as two.
fn has_special(path: &[u8]) -> bool
    ensures { result ≡ list_any evidence_spec.is_special path.now }
{
    for byte in path {
        if *byte == b'\\' || *byte == b'\n' || *byte == b'\r' {
            return true;
        }
    }
    false
}

/// Adds a path.
fn put_path(text: &mut Vec<u8>, path: &[u8]) -> Result<(), AllocError>
    ensures { OnOk result
        (text.new.items ≡ text.old.items ++ flat_map evidence_spec.escaped_byte path.now) }
{
    for byte in path {
        match *byte {
            b'\\' => text.extend_from_slice(b"\\\\")?,
            b'\n' => text.extend_from_slice(b"\\n")?,
            b'\r' => text.extend_from_slice(b"\\r")?,
            other => text.extend_from_slice(&[other])?,
        }
    }
    Ok(())
}

/// Adds the line of a file.
fn put_file(alloc: Global, text: &mut Vec<u8>, file: Filed<'_>) -> Result<(), AllocError>
    ensures { OnOk result (text.new.items
        ≡ text.old.items ++ evidence_spec.sum_line (file.entry.path.now, file.entry.bytes.now)) }
{
    if has_special(file.path) {
        text.extend_from_slice(b"\\")?;
    }
    let digits = hex::encode(alloc, Sha256::digest(file.bytes))?;
    text.extend_from_slice(digits.as_bytes())?;
    text.extend_from_slice(b"  ")?;
    put_path(text, file.path)?;
    text.extend_from_slice(b"\n")
}

/// Adds the lines of files.
fn put_files(alloc: Global, text: &mut Vec<u8>, files: &[Filed<'_>]) -> Result<(), AllocError>
    ensures { OnOk result (text.new.items
        ≡ text.old.items ++ flat_map evidence_spec.sum_line (map evidence_spec.filed files.now)) }
{
    for file in files {
        put_file(alloc, text, *file)?;
    }
    Ok(())
}

/// A block of evidence: comments with the version of the program and with a judgement, and a line
/// with the SHA-256 of each file.
fn block(
    alloc: Global,
    version: &[u8],
    judgement: &[u8],
    files: &[Filed<'_>],
) -> Result<Vec<u8>, AllocError>
    ensures { IfOk result (λ text. text.items
        ≡ evidence_spec.block_text version.now judgement.now (map evidence_spec.filed files.now)) }
{
    let mut text = Vec::from_slice(alloc, b"# vsi ")?;
    text.extend_from_slice(version)?;
    text.extend_from_slice(b"\n# ")?;
    text.extend_from_slice(judgement)?;
    text.extend_from_slice(b"\n")?;
    put_files(alloc, &mut text, files)?;
    Ok(text)
}

/// The evidence of an audit that has accepted an image: comments with the version of the program and
/// the profile of the audit, and a line with the SHA-256 of each file.
pub fn evidence(
    alloc: Global,
    version: &[u8],
    profile: AuditProfile,
    files: &[Filed<'_>],
) -> Result<Vec<u8>, AllocError>
    ensures text { IfOk result (λ text. text.items
        ≡ evidence_spec.evidence_text version.now profile (map evidence_spec.filed files.now)) }
{
    let mut judgement = Vec::from_slice(alloc, b"audit ")?;
    judgement.extend_from_slice(profile_name(profile))?;
    judgement.extend_from_slice(b": accepted")?;
    block(alloc, version, &judgement, files)
}

/// Adds the most instructions of a run.
fn put_most(text: &mut Vec<u8>, most: u64) -> Result<(), AllocError>
    ensures { OnOk result (text.new.items ≡ text.old.items ++ evidence_spec.most_text most) }
{
    text.extend_from_slice(b", halts within ")?;
    put_number(text, most as usize)?;
    text.extend_from_slice(b" instructions")
}

/// Adds the most instructions of a run, if a bound is named.
fn put_bound(text: &mut Vec<u8>, most: Option<u64>) -> Result<(), AllocError>
    ensures { OnOk result (text.new.items ≡ text.old.items ++ evidence_spec.bound_text most) }
{
    match most {
        Some(most) => put_most(text, most),
        None => Ok(()),
    }
}

/// The evidence of a text or an image that conforms to an interface: comments with the version of the
/// program, the profile that the interface requires and the bound that was found if one is named, and
/// a line with the SHA-256 of each file.
pub fn conformity(
    alloc: Global,
    version: &[u8],
    profile: AuditProfile,
    most: Option<u64>,
    files: &[Filed<'_>],
) -> Result<Vec<u8>, AllocError>
    ensures text { IfOk result (λ text. text.items
        ≡ evidence_spec.conformity_text version.now profile most (map evidence_spec.filed files.now)) }
{
    let mut judgement = Vec::from_slice(alloc, b"conform ")?;
    judgement.extend_from_slice(profile_name(profile))?;
    judgement.extend_from_slice(b": conforms")?;
    put_bound(&mut judgement, most)?;
    block(alloc, version, &judgement, files)
}
