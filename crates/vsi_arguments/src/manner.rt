//! How a request is carried out, or what is wrong with its arguments.

use crate::arguments::number_in;
use crate::explained::named_page;
use crate::request::{Colour, Manner, Reporting};
use crate::usage::{grouped, is_subcommand, message, program};
use clap::ArgMatches;
use clap::error::ErrorKind;
use clap::parser::ValueSource;
use std::alloc::Global;
use thiserror::Error;
use vsi_emit::is_function_name;

/// Why arguments make no request that the program can carry out.
#[derive(Debug, Drop, Error)]
pub enum ArgumentsError {
    /// The arguments ask for help or the version: the text for standard output.
    #[error("{0}")]
    Help(String),
    /// The arguments are wrong: the text for standard error.
    #[error("{0}")]
    Mistake(String),
    /// An allocation failed.
    #[error("out of memory")]
    Memory,
}

/// Reads the arguments after the program's name.
///
/// # Errors
///
/// `Help` if the arguments ask for help or the version, `Mistake` if they are wrong, `Memory`.
pub fn manner_of(alloc: Global, arguments: &[String]) -> Result<Manner, ArgumentsError> {
    match parsed(alloc, arguments) {
        Ok(manner) => Ok(manner),
        Err(error) => Err(told(alloc, &error).unwrap_or(ArgumentsError::Memory)),
    }
}

/// Turns an answer of the command-line parser into a text.
fn told(alloc: Global, error: &clap::Error) -> Option<ArgumentsError> {
    if error.kind() == ErrorKind::OutOfMemory {
        return None;
    }
    let text = error.to_string(alloc).ok()?;
    if error.use_stderr() {
        let text = message(alloc, text.as_str()).ok()?;
        return Some(ArgumentsError::Mistake(text));
    }
    Some(ArgumentsError::Help(grouped(alloc, text).ok()?))
}

/// The arguments that are parsed: those after `help`, if they begin with no subcommand's name, so
/// that the mistake is the one of a subcommand that there isn't, with the names that are similar.
fn sought(arguments: &[String]) -> &[String] {
    match arguments {
        [help, name, ..] if help.as_str() == "help" && is_misspelt(name.as_str()) =>
            &arguments[1..],
        _ => arguments,
    }
}

/// Whether a word after `help` should be the name of a subcommand and isn't.
fn is_misspelt(name: &str) -> bool {
    !(name == "help" || name.starts_with("-") || is_subcommand(name))
}

/// Parses the arguments.
fn parsed(alloc: Global, arguments: &[String]) -> Result<Manner, clap::Error> {
    let arguments = sought(arguments);
    let first = arguments.first().map_or("", |first| first.as_str());
    let mut command = program(alloc, first)?;
    let matches = command.try_get_matches_from_mut(arguments)?;
    match judged(&matches) {
        Ok(manner) => Ok(manner),
        Err(mistake) => Err(command.error(ErrorKind::ValueValidation, mistake)?),
    }
}

/// How the request is carried out, if its arguments have no mistake.
fn judged(matches: &ArgMatches<'_>) -> Result<Manner, &'static str> {
    let Some((name, inner)) = matches.subcommand() else {
        return Err("a subcommand is needed");
    };
    if let Some(mistake) = wrong_number(name, inner) {
        return Err(mistake);
    }
    for rule in &RULES {
        if rule.is_broken(name, inner) {
            return Err(rule.mistake);
        }
    }
    if let Some(mistake) = own_mistake(name, inner) {
        return Err(mistake);
    }
    let reporting = match (inner.get_flag("explain"), inner.get_str("color")) {
        (false, _) => Reporting::Fixed,
        (true, Some("always")) => Reporting::Explained(Colour::Always),
        (true, Some("never")) => Reporting::Explained(Colour::Never),
        (true, _) => Reporting::Explained(Colour::Auto),
    };
    Ok(Manner {
        reporting,
        is_whole: inner.get_flag("all"),
        is_strict: inner.get_flag("strict") || inner.get_flag("steady"),
        is_forced: inner.get_flag("force"),
    })
}

/// The options that take numbers, each with the message for a value that isn't such a number.
macro_rules! numbers {
    ($($name:literal from $least:literal),*) => {
        [$(($name, concat!("--", $name, " takes a number from ", $least,
            " to 18446744073709551615, in digits alone"))),*]
    };
}

/// The options that take numbers, each with the message for a value that isn't such a number.
const NUMBERS: [(&str, &str); 4] = numbers! {
    "budget" from "0", "tries" from "0", "seed" from "0", "save-every" from "1"
};

/// The message for a budget of a subcommand that runs an image, whose bound can be the budget.
const BUDGET_OR_AUTO: &str =
    "--budget takes `auto`, or a number from 0 to 18446744073709551615, in digits alone";

/// A rule about an argument of a subcommand, or of each one that has it, which is `*`: whether it
/// needs one of the others, or goes with none of them; and the mistake if the rule is broken.
struct Rule {
    subcommand: &'static str,
    argument: &'static str,
    needs: bool,
    others: &'static [&'static str],
    mistake: &'static str,
}

/// Rules, as rows.
macro_rules! rules {
    (@ needs) => { true };
    (@ without) => { false };
    ($($subcommand:literal $argument:literal $needs:ident
    [$($others:literal)*] $mistake:literal;)*) => {
        [$(Rule {
            subcommand: $subcommand,
            argument: $argument,
            needs: rules! { @ $needs },
            others: &[$($others),*],
            mistake: $mistake,
        }),*]
    };
}

/// The rules, in the order in which they are checked.
const RULES: [Rule; 24] = rules! {
    "check" "project" without ["strict" "steady" "format" "warnings" "explain"]
    "`--project` goes with `--json` or `--sarif` alone: the project file says how each program \
    is judged";
    "check" "project" without ["SOURCE"]
    "`--project` goes with at most one operand, the NAME of a program";
    "*" "all" needs ["explain"] "`--all` needs `--explain`: it writes all lines of an explanation";
    "*" "save-every" needs ["save"] "`--save-every` needs `--save`, which says where";
    "*" "flows" needs ["SOURCE"] "`--flows` needs a SOURCE, whose flows it draws";
    "view" "unbounded" needs ["interface" "outputs" "release"]
    "`--unbounded` of `view` needs `--interface`, `--outputs` or `--release`; without \
    them every budget is taken";
    "*" "json" without ["sarif"] "`--json` and `--sarif` don't go together";
    "*" "evidence" without ["json"] "`--evidence` and `--json` don't go together";
    "*" "evidence" without ["sarif"] "`--evidence` and `--sarif` don't go together";
    "*" "walks" without ["json"] "`--walks` and `--json` don't go together";
    "*" "apply" without ["json"] "`--apply` prints a text, so it doesn't go with `--json`";
    "*" "check" without ["write"] "`--check` writes nothing, so it doesn't go with `--write`";
    "fmt" "json" without ["keep-comments" "write"]
    "`--json` of `fmt` goes with `--check` alone";
    "fmt" "json" needs ["check"] "`--json` of `fmt` needs `--check`";
    "policy" "from" needs ["to" "interface"]
    "`--from` needs the newer file, by `--to` or `--interface`";
    "policy" "from" without ["LATTICE"]
    "`--from` names the older file, so it goes with no operand";
    "policy" "to" without ["interface"]
    "`--to` names a lattice file, so it doesn't go with `--interface`";
    "policy" "to" needs ["from"] "`--to` needs `--from`, which names the older file";
    "*" "json" without ["trace" "count" "out"]
    "`--json` of `run` doesn't go with `--trace`, `--count` and `--out`";
    "*" "interface" without ["IMAGE"]
    "`--interface` names the lattice, so it goes with one operand, the IMAGE";
    "*" "interface" without ["OLD"]
    "`--interface` names the lattice, so it goes with at most one operand, an older interface";
    "compare" "steps" without ["unbounded"]
    "`--steps` of `compare` doesn't go with `--unbounded`";
    "view" "interface" without ["outputs" "release"]
    "`--interface` names the outputs, so it doesn't go with `--outputs` and `--release`";
    "drive" "interface" without ["inputs" "outputs" "release"]
    "`--interface` names the inputs and outputs, so it doesn't go with `--inputs`, \
    `--outputs` and `--release`";
};

/// The message for the first value of a subcommand that should be a number and isn't one.
fn wrong_number(name: &str, matches: &ArgMatches<'_>) -> Option<&'static str> {
    for (id, text) in &NUMBERS {
        let Some(word) = matches.get_str(id) else {
            continue;
        };
        match (*id, name, number_in(word.as_bytes())) {
            ("budget", "run" | "view" | "drive" | "compare", None) if word == "auto" => {}
            ("budget", "run" | "view" | "drive" | "compare", None) => return Some(BUDGET_OR_AUTO),
            ("save-every", _, Some(0)) | (_, _, None) => return Some(*text),
            _ => {}
        }
    }
    None
}

impl Rule {
    /// Whether the arguments of a subcommand break the rule.
    fn is_broken(&self, name: &str, matches: &ArgMatches<'_>) -> bool {
        if self.subcommand != "*" && self.subcommand != name || !is_given(matches, self.argument) {
            return false;
        }
        for other in self.others {
            if is_given(matches, other) {
                return !self.needs;
            }
        }
        self.needs
    }
}

/// Whether an argument is given.
fn is_given(matches: &ArgMatches<'_>, id: &str) -> bool {
    matches.value_source(id) == Some(ValueSource::CommandLine)
}

/// The path that a required argument gives, without a leading `./`.
fn path_of<'a>(matches: &ArgMatches<'a>, id: &str) -> &'a str {
    let given = matches.get_str(id).unwrap_or("");
    given.strip_prefix("./").unwrap_or(given)
}

/// The mistake that no table has, of the arguments of a subcommand.
fn own_mistake(name: &str, matches: &ArgMatches<'_>) -> Option<&'static str> {
    let (is_right, mistake) = match name {
        "build" => (
            path_of(matches, "IMAGE") != path_of(matches, "LATTICE")
                && path_of(matches, "IMAGE") != path_of(matches, "SOURCE"),
            "the image would replace a file that is read",
        ),
        "check" => return survey_mistake(matches),
        "compare" if !matches!(matches.get_strs("store"), Some([_, _])) => {
            (false, "`compare` needs two stores")
        }
        "compare" => (
            !is_given(matches, "steps") || matches.get_str("budget") != Some("auto"),
            "`--budget` of `compare --steps` takes a number of steps",
        ),
        "drive" => (
            !is_given(matches, "init")
                || is_given(matches, "store")
                    && matches.get_str("store") == matches.get_str("save"),
            "`--init` needs `--store` and `--save` with the same path",
        ),
        "emit-c" => (
            is_function_name(matches.get_str("name")?.as_bytes()),
            "the name isn't an identifier of C, or it is a keyword",
        ),
        "policy" => (
            !is_given(matches, "deny")
                || is_given(matches, "from")
                || is_given(matches, "OLD")
                || is_given(matches, "interface") && is_given(matches, "LATTICE"),
            "`--deny` needs an older file: OLD or `--from`",
        ),
        "explain" => return named_page(matches.get_str("WHAT")?).err(),
        _ => return None,
    };
    (!is_right).then_some(mistake)
}

/// The mistake in the arguments of `check` for source texts that are judged each by itself, if
/// there is one.
fn survey_mistake(matches: &ArgMatches<'_>) -> Option<&'static str> {
    let is_several = matches!(matches.get_strs("SOURCE"), Some([_, _, ..]));
    let is_explained = is_given(matches, "explain") || is_given(matches, "warnings");
    match matches.get_str("format") {
        Some("line") if is_explained => {
            Some("`--explain` and `--warnings` don't go with `--format line`")
        }
        Some("text") if is_several => Some(
            "`--format text` takes one source text: the faults of several begin with \
            FILE:LINE:COLUMN",
        ),
        Some(_) if is_given(matches, "json") || is_given(matches, "sarif") => {
            Some("`--format` says how lines begin, so it doesn't go with `--json` and `--sarif`")
        }
        _ if is_several && is_explained => {
            Some("`--explain` and `--warnings` take one source text, and here are several")
        }
        _ => None,
    }
}
