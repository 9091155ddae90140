//! The program with its subcommands, for the command-line parser, and the parser's messages.

use crate::pages::PAGES;
use crate::programs::{IMAGES, TEXTS};
use crate::runs::RUNS;
use crate::subcommand::Subcommand;
use clap::Command;
use std::alloc::{AllocError, Global};

/// The subcommands that have the options of how a refusal is reported.
const MOST: &str =
    "every subcommand except lattice, lsp and explain, and comes after the subcommand";

/// Texts and tips, as rows.
macro_rules! tips {
    ($($part:literal => $tip:literal;)*) => { [$(($part, $tip)),*] };
}

/// A part of a mistake, and the tip that helps with it.
const TIPS: [(&str, &str); 4] = tips! {
    "  --class <C>" => "the observer: a class of the lattice file, as in `--class L`";
    "  --budget <N>" =>
    "how many instructions may be executed, as in `--budget 1000` or `--budget auto`";
    "`--init` needs" =>
    "write the path of the state twice, as in `--store state --init start.toml --save state`";
    ", in digits alone" => "write digits alone, as in 1000: no sign, no point and no `_`";
};

/// The gap between the paragraphs of a text.
const GAP: &str = "\n\n";

/// The beginning of a tip.
const TIP: &str = "  tip: ";

/// The beginning of a mistake in the subcommand, up to the quoted argument.
const UNRECOGNIZED: &str = "error: unrecognized subcommand '";

/// The beginning of a tip to write `--` before an argument. No argument of the program needs one.
const DASHES: &str = "  tip: to pass ";

/// Rewrites a message of the command-line parser. If it names an option of other subcommands, its
/// tip lists them. If arguments are missing or should be numbers, tips explain them. A tip to write
/// `--` is left out.
fn with_tips(alloc: Global, text: &str) -> Result<String, AllocError> {
    let mut told = String::new(alloc);
    let Some((mistake, rest)) = text.split_once(GAP) else {
        told.push_str(text)?;
        return Ok(told);
    };
    told.push_str(mistake)?;
    put_tips(&mut told, mistake)?;
    let is_owned = put_owners(alloc, &mut told, mistake)?;
    match tip_of(rest) {
        Some((tip, behind)) if is_owned || tip.starts_with(DASHES) => {
            write!(told, "{GAP}{behind}")?;
        }
        Some((tip, behind)) => write!(told, "{GAP}{tip}{GAP}{behind}")?,
        None => write!(told, "{GAP}{rest}")?,
    }
    Ok(told)
}

/// The first line of the tip at the beginning of the paragraphs, and the paragraphs after it.
fn tip_of(rest: &str) -> Option<(&str, &str)> {
    let (tips, behind) = rest.split_once(GAP)?;
    let (first, _) = tips.split_once("\n").unwrap_or((tips, ""));
    first.starts_with(TIP).then_some((first, behind))
}

/// Adds the tips for arguments that are missing or should be numbers, in a paragraph, and a tip
/// that shows `try` if the path of a source text is given in place of a subcommand.
fn put_tips(told: &mut String, mistake: &str) -> Result<(), AllocError> {
    let mut is_first = true;
    for (part, tip) in &TIPS {
        if mistake.contains(*part) {
            let gap = if is_first { GAP } else { "\n" };
            write!(told, "{gap}{TIP}{tip}")?;
            is_first = false;
        }
    }
    match mistake.strip_prefix(UNRECOGNIZED) {
        Some(rest) if rest.contains(".") || rest.contains("/") => {
            let path = rest.strip_suffix("'").unwrap_or(rest);
            write!(
                told,
                "{GAP}{TIP}`vsi try {path}` judges a source text and runs it"
            )
        }
        _ => Ok(()),
    }
}

/// The name of the first option that a mistake quotes, if it is about an unexpected argument.
fn unexpected_option(mistake: &str) -> Option<&str> {
    let argument = mistake.strip_prefix("error: unexpected argument ")?;
    let (_, quoted) = argument.split_once("'--")?;
    let (option, _) = quoted.split_once("'")?;
    Some(option)
}

/// Adds a tip that lists the subcommands with the option of the mistake, if there are any.
fn put_owners(alloc: Global, told: &mut String, mistake: &str) -> Result<bool, AllocError> {
    let Some(option) = unexpected_option(mistake) else {
        return Ok(false);
    };
    let owners = owners_of(alloc, option)?;
    let is_of_most = matches!(option, "all" | "color" | "explain");
    if owners.is_empty() && !is_of_most {
        return Ok(false);
    }
    write!(told, "{GAP}{TIP}'--{option}' is an option of ")?;
    match (option, owners.as_str().rsplit_once(", ")) {
        ("all" | "color", _) => told.push_str(MOST)?,
        ("explain", _) => write!(told, "{MOST}, as in `vsi try a.vsi --explain`")?,
        (_, Some((others, last))) => write!(told, "{others} and {last}")?,
        (_, None) => told.push_str(owners.as_str())?,
    }
    Ok(true)
}

/// The message for a mistake, with tips, and with each control character in it, except for line
/// feeds, as `\x` and two digits for each of its bytes: one that is no ASCII has two, and the first
/// is `C2`.
pub(crate) fn message(alloc: Global, text: &str) -> Result<String, AllocError> {
    let text = with_tips(alloc, text)?;
    let mut told = String::new(alloc);
    for character in text.as_str().chars() {
        let number = character as u32;
        if !character.is_control() || character == '\n' {
            told.push(character)?;
        } else if character.is_ascii() {
            write!(told, "\\x{number:02X}")?;
        } else {
            write!(told, "\\xC2\\x{number:02X}")?;
        }
    }
    Ok(told)
}

/// What `vsi --help` prints.
const PROGRAM: &str = "\
Compiles programs whose information flows are typed, and runs them.

A source text declares the security class of each global variable. The text is
accepted only if nothing can flow from a variable to one whose class isn't at or
above its own. An accepted text is compiled to an image, which a stack machine
runs.

Without arguments the program reads a source text from standard input, judges it
under the classes L and H, L below H, runs it from a store of zeros for at most
1000000 instructions, and prints each global.";

/// The end of the program's help: a text, if there is one, and an example.
macro_rules! ending {
    ($($text:literal)?) => {
        concat!($($text,)? "Example:\n  $ printf 'var x : L; x := 1 + 2' | vsi\n  x = 3")
    };
}

/// The end of the program's long help.
const PROGRAM_END: &str = ending! { "\
`vsi explain language` shows the language in one program; `vsi explain` also has
`lattice`, `store`, `interface`, `classes` and `profiles`.

Statuses, each but 0 with its cause on standard error or standard output:
  0  done
  1  refused: the lattice, the source text, the image or the store has a fault;
     or a difference or a leak was found, or no bound
  2  usage: the arguments are wrong, or the lattice lacks the observer's class
  3  out of budget: the run didn't halt within its budget
  4  file fault: a file or a standard stream can't be opened, read or written
  5  out of memory

" };

/// The version that `--version` prints after the program's name.
const VERSION: &str = "0.1.0";

/// The heading of the first group of subcommands.
const JUDGE: &str = "Judge a text or an image";

/// The groups of subcommands, in the order of the help: the heading of each, and its names.
const GROUPS: [(&str, &[&str]); 6] = [
    (
        JUDGE,
        &[
            "try", "check", "conform", "classes", "flows", "mend", "leak", "audit",
        ],
    ),
    (
        "Run a text or an image",
        &["run", "steps", "monitor", "compare"],
    ),
    (
        "Make and read images",
        &["build", "list", "source", "emit-c", "bound"],
    ),
    ("Serve observers and controllers", &["view", "drive"]),
    (
        "Show lattices and flows",
        &["lattice", "policy", "draw", "report"],
    ),
    ("Write programs", &["new", "fmt", "lsp", "explain"]),
];

/// The place of a subcommand in the help.
fn place_of(name: &str) -> usize {
    let mut place = 0;
    for (_, names) in &GROUPS {
        for other in *names {
            if *other == name {
                return place;
            }
            place = place.saturating_add(1);
        }
    }
    place
}

/// Adds a text up to a line, a heading and the line, and returns the text after it; or returns the
/// whole text if it has no such line.
fn put_heading<'t>(
    grouped: &mut String,
    text: &'t str,
    heading: &str,
    line: &str,
) -> Result<&'t str, AllocError> {
    let Some((before, behind)) = text.split_once(line) else {
        return Ok(text);
    };
    write!(grouped, "{before}\n\n{heading}:{line}")?;
    Ok(behind)
}

/// The help with a heading before each group of subcommands but the first, if it lists them.
pub(crate) fn grouped(alloc: Global, text: String) -> Result<String, AllocError> {
    if !text.as_str().contains(JUDGE) {
        return Ok(text);
    }
    let mut grouped = String::new(alloc);
    let mut rest = text.as_str();
    for (heading, names) in &GROUPS[1..] {
        let mut line = String::from_str(alloc, "\n  ")?;
        line.push_str(names.first().map_or("", |first| *first))?;
        rest = put_heading(&mut grouped, rest, heading, line.as_str())?;
    }
    grouped.push_str(rest)?;
    Ok(grouped)
}

/// The subcommand of a list with this name.
fn subcommand_of<'b>(list: &'b [Subcommand], name: &str) -> Option<&'b Subcommand> {
    for subcommand in list {
        if subcommand.name == name {
            return Some(subcommand);
        }
    }
    None
}

/// The program without its subcommands.
fn bare<'a>(alloc: Global) -> Result<Command<'a>, AllocError> {
    Command::new(alloc, "vsi")
        .about("Compiles programs whose information flows are typed, and runs them")
        .long_about(PROGRAM)
        .after_help(ending! {})
        .after_long_help(PROGRAM_END)
        .subcommand_help_heading(JUDGE)
        .no_binary_name(true)
        .version(VERSION)
        .bin_name("vsi")
}

/// Adds subcommands to the program.
fn having<'a>(
    alloc: Global,
    program: Command<'a>,
    subcommands: &[Subcommand],
) -> Result<Command<'a>, AllocError> {
    let mut program = program;
    for subcommand in subcommands {
        let made = subcommand.made(alloc)?;
        program = program.subcommand(made.display_order(place_of(subcommand.name)))?;
    }
    Ok(program)
}

/// The program with all its subcommands.
fn whole<'a>(alloc: Global) -> Result<Command<'a>, AllocError> {
    let program = having(alloc, bare(alloc)?, &TEXTS)?;
    let program = having(alloc, program, &IMAGES)?;
    let program = having(alloc, program, &RUNS)?;
    having(alloc, program, &PAGES)
}

/// Whether a subcommand has this name.
pub(crate) fn is_subcommand(name: &str) -> bool {
    GROUPS.iter().any(|(_, names)| names.contains(&name))
}

/// The program with the subcommands that the parser needs for arguments that begin with this one.
/// If it names a subcommand, this one reads all the others, and no message is about another one.
/// Building all subcommands would take most of the time of a short run.
pub(crate) fn program<'a>(alloc: Global, first: &str) -> Result<Command<'a>, AllocError> {
    if let Some(subcommand) = subcommand_of(&TEXTS, first)
        .or(subcommand_of(&IMAGES, first))
        .or(subcommand_of(&RUNS, first))
        .or(subcommand_of(&PAGES, first))
    {
        let command = subcommand.made(alloc)?;
        return bare(alloc)?.subcommand(command);
    }
    whole(alloc)
}

/// The names of the subcommands with this option of their own, as the help has them, with commas
/// between them.
pub(crate) fn owners_of(alloc: Global, option: &str) -> Result<String, AllocError> {
    let mut owners = String::new(alloc);
    add_owners(&mut owners, &TEXTS, option)?;
    add_owners(&mut owners, &IMAGES, option)?;
    add_owners(&mut owners, &RUNS, option)?;
    add_owners(&mut owners, &PAGES, option)?;
    Ok(owners)
}

/// Adds the names of the subcommands of a list that have the option.
fn add_owners(owners: &mut String, list: &[Subcommand], option: &str) -> Result<(), AllocError> {
    for subcommand in list {
        if subcommand.has_option(option) {
            let gap = if owners.is_empty() { "" } else { ", " };
            owners.push_str(gap)?;
            owners.push_str(subcommand.name)?;
        }
    }
    Ok(())
}
