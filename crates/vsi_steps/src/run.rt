//! The steps of a program from a store, each at a site of the program.

ghost use Rattle.std.specs.Prelude.{IfOk, ◌≡◌, ◌≤◌, length};
ghost use Rattle.vsi_scope.specs.{View.{command, sequence, expression}, Language.{While, HasLocations}, Limits.{max_size}, Meaning.{value}};
ghost use Rattle.vsi_steps.specs.{Extents.{AreParts, IsFilled}, Ran.{past, IsWithin, IsReady, Met, Ran}, Traced.{IsTraced}};

use std::alloc::{AllocError, Global};
use vsi_scope::{Cmd, Ex, Resolved};

/// Where the parts of a site end, in numbers of sites.
#[derive(Clone, Copy, Default)]
pub(crate) struct Extent {
    /// The first site of the second branch; without one, that after the parts.
    pub(crate) second: usize,
    /// The first site after the parts.
    pub(crate) after: usize,
}

/// Adds the extents of the sites of commands to a table.
#[cycle(extents)]
pub(crate) fn put_all(extents: &mut Vec<Extent>, body: &[Cmd]) -> Result<(), AllocError>
    ensures { IfOk result (λ _. IsFilled (sequence body.now) extents.old.items extents.new.items) }
{
    for c in body {
        let site = extents.len();
        extents.push(Extent::default())?;
        let second = put_parts(extents, c)?;
        let after = extents.len();
        extents[site] = Extent { second, after };
    }
    Ok(())
}

/// Adds the extents of the sites within a command, and returns the first site of its second branch
/// or, without one, that after its parts.
#[cycle(extents)]
fn put_parts(extents: &mut Vec<Extent>, c: &Cmd) -> Result<usize, AllocError>
    ensures { IfOk result
        (λ second. AreParts (command c.now) extents.old.items second extents.new.items) }
{
    match c {
        Cmd::Assign { .. } => Ok(extents.len()),
        Cmd::If { yes, no, .. } => {
            put_all(extents, yes)?;
            let second = extents.len();
            put_all(extents, no)?;
            Ok(second)
        }
        Cmd::While { body, .. } | Cmd::Letvar { body, .. } => {
            put_all(extents, body)?;
            Ok(extents.len())
        }
    }
}

/// A run so far.
#[derive(Drop)]
pub(crate) struct Run {
    /// The words of the locations in scope.
    pub(crate) words: Vec<i64>,
    /// The steps so far.
    pub(crate) steps: Vec<Step>,
    /// The most steps.
    pub(crate) limit: usize,
    /// The extents of the program's sites.
    pub(crate) extents: Vec<Extent>,
}

/// The value of an expression in a store.
pub fn value(e: &Ex, words: &[i64]) -> i64
    requires { HasLocations (length words.now) (expression e.now) }
    ensures { result ≡ value (expression e.now) words.now }
{
    match e {
        Ex::Num(n) => *n,
        Ex::Loc(l, _) => words[*l as usize],
        Ex::Op(op, a, b) => op.apply(value(a, words), value(b, words)),
    }
}

/// Takes the step of an expression at a site and returns its value, unless the limit is reached.
fn meet(run: &mut Run, site: usize, e: &Ex) -> Result<Option<i64>, AllocError>
    requires few { site ≤ max_size }
    requires within { IsWithin (past run.old) }
    requires places { HasLocations (length run.old.words.items) (expression e.now) }
    ensures { IfOk result (Met site (expression e.now) (past run.old) (past run.new)) }
{
    if run.steps.len() >= run.limit {
        return Ok(None);
    }
    let value = value(e, &run.words);
    let site = site as u32;
    run.steps.push(Step { site, value })?;
    Ok(Some(value))
}

/// Runs a loop, turn by turn.
#[cycle(run)]
fn run_while(run: &mut Run, site: usize, body: &[Cmd], e: &Ex) -> Result<bool, AllocError>
    requires { IsReady site (While (expression e.now) (sequence body.now)) (past run.old) }
    ensures { IfOk result (Ran site (While (expression e.now) (sequence body.now))
        (past run.old) (past run.new)) }
{
    loop {
        let Some(word) = meet(run, site, e)? else {
            return Ok(false);
        };
        if word == 0 {
            return Ok(true);
        }
        if !run_all(run, site + 1, body)? {
            return Ok(false);
        }
    }
}

/// Runs commands, one after another.
#[cycle(run)]
pub(crate) fn run_all(run: &mut Run, site: usize, body: &[Cmd]) -> Result<bool, AllocError>
    requires { IsReady site (sequence body.now) (past run.old) }
    ensures { IfOk result (Ran site (sequence body.now) (past run.old) (past run.new)) }
{
    let mut next = site;
    for c in body {
        if !run_one(run, next, c)? {
            return Ok(false);
        }
        next = run.extents[next].after;
    }
    Ok(true)
}

/// Runs one command.
#[cycle(run)]
fn run_one(run: &mut Run, site: usize, c: &Cmd) -> Result<bool, AllocError>
    requires { IsReady site (command c.now) (past run.old) }
    ensures { IfOk result (Ran site (command c.now) (past run.old) (past run.new)) }
{
    match c {
        Cmd::Assign { loc, value, .. } => {
            let Some(word) = meet(run, site, value)? else {
                return Ok(false);
            };
            run.words[*loc as usize] = word;
            Ok(true)
        }
        Cmd::If { guard, yes, no } => {
            let Some(word) = meet(run, site, guard)? else {
                return Ok(false);
            };
            if word != 0 {
                return run_all(run, site + 1, yes);
            }
            let second = run.extents[site].second;
            run_all(run, second, no)
        }
        Cmd::While { guard, body } => run_while(run, site, body, guard),
        Cmd::Letvar { value, body } => {
            let Some(word) = meet(run, site, value)? else {
                return Ok(false);
            };
            let outside = run.words.len();
            run.words.push(word)?;
            let is_done = run_all(run, site + 1, body)?;
            run.words.truncate(outside);
            Ok(is_done)
        }
    }
}

/// A step of a run: a guard that is tested, or a word that is stored.
#[derive(Clone, Copy, Debug, PartialEq, Eq)]
pub struct Step {
    /// The number of its site: of the assignment, `if`, `while` or `letvar`, in the order of the
    /// text and counted from 0.
    pub site: u32,
    /// The value of the guard, or the word.
    pub value: i64,
}

/// The steps of a run, and its last store.
#[derive(Drop)]
pub struct Trace {
    /// The steps, in order.
    pub steps: Vec<Step>,
    /// Whether the run halted. If not, it has more steps than the limit.
    pub halted: bool,
    /// The words of the globals after the last step.
    pub words: Vec<i64>,
}

/// The steps of a program from a store, but at most `limit` of them.
pub fn trace_of(
    alloc: Global,
    program: &Resolved<'_>,
    words: &[i64],
    limit: usize,
) -> Result<Trace, AllocError>
    requires { length words.now ≡ length program.now.globals }
    ensures { IfOk result (IsTraced program.now words.now limit) }
{
    let body = program.body();
    let mut run = Run {
        words: words.to_vec(alloc)?,
        steps: Vec::new(alloc),
        limit,
        extents: Vec::new(alloc),
    };
    put_all(&mut run.extents, body)?;
    let halted = run_all(&mut run, 0, body)?;
    Ok(Trace {
        steps: run.steps,
        halted,
        words: run.words,
    })
}
