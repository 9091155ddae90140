//! The subcommands of the program, each a row of a table with its arguments.

use clap::{Arg, ArgAction, Command};
use std::alloc::{AllocError, Global};

/// A subcommand: its name, its short and long help, an example, its usage, which is empty where the
/// parser's is right, and its arguments.
pub(crate) struct Subcommand {
    pub(crate) name: &'static str,
    pub(crate) line: &'static str,
    pub(crate) whole: &'static str,
    pub(crate) example: &'static str,
    pub(crate) usage: &'static str,
    pub(crate) arguments: &'static [Argument],
}

/// A subcommand, as a row: its name and its short help; its long help, without the first line if
/// that is the short help; its statuses; an example, and for whom; its usage, if the parser's is
/// wrong; and the rows of its arguments, in the order of the help.
macro_rules! subcommand {
    ($name:literal $line:literal whole $whole:literal $($rest:tt)*) => {
        subcommand! { @ $name, $line, [$whole] $($rest)* }
    };
    ($name:literal $line:literal $whole:literal $($rest:tt)*) => {
        subcommand! { @ $name, $line, [$line ".\n\n" $whole] $($rest)* }
    };
    (@ $name:literal, $line:literal, [$($whole:literal)*] statuses $statuses:literal
    example $(for $editor:literal)? $example:literal $(usage $usage:literal)?
    $({ $($argument:tt)* })*) => {
        Subcommand {
            name: $name,
            line: $line,
            whole: concat!($($whole,)* "\n\nStatuses: ", $statuses),
            example: concat!("Example", $(", for ", $editor,)? ":\n", $example),
            usage: concat!("" $(, $usage)?),
            arguments: &[$(argument! { $($argument)* }),*],
        }
    };
}

pub(crate) use subcommand;

impl Subcommand {
    /// Builds the subcommand for the command-line parser.
    pub(crate) fn made<'a>(&self, alloc: Global) -> Result<Command<'a>, AllocError> {
        let command = Command::new(alloc, self.name)
            .about(self.line)
            .long_about(self.whole)
            .after_help(self.example);
        let command = if self.usage.is_empty() {
            command
        } else {
            command.override_usage(self.usage)
        };
        let mut arguments = Vec::new(alloc);
        for argument in self.arguments {
            arguments.push(argument.made(alloc)?)?;
        }
        if !matches!(self.name, "new" | "lattice" | "lsp" | "explain") {
            for argument in [EXPLAIN, ALL, COLOR] {
                arguments.push(argument.made(alloc)?)?;
            }
        }
        command.args(arguments)
    }

    /// Whether one of its arguments is this option.
    pub(crate) fn has_option(&self, name: &str) -> bool {
        let is_it = |argument: &Argument| argument.is_option() && argument.name == name;
        self.arguments.iter().any(is_it)
    }
}

/// How an argument is given: by position, or by `--NAME`, with the name of its value in the help.
/// `Needed` forms are required, and plural ones may be given several times.
#[derive(Clone, Copy)]
pub(crate) enum Form {
    /// By position, required.
    Place,
    /// By position, optional.
    FreePlace,
    /// By position, required unless this option or one of the others is given.
    PlaceUnless(&'static str, &'static [&'static str]),
    /// By position, one or more.
    Places,
    /// By position, one or more unless this option is given.
    PlacesUnless(&'static str),
    Flag,
    Value(&'static str),
    NeededValue(&'static str),
    Values(&'static str),
    NeededValues(&'static str),
    /// The number is checked later, and its sign doesn't make it another argument.
    Number(&'static str),
    NeededNumber(&'static str),
    /// With one of these values.
    Choice(&'static str, &'static [&'static str]),
}

/// An argument: its name, how it is given, and its short and long help.
#[derive(Clone, Copy)]
pub(crate) struct Argument {
    pub(crate) name: &'static str,
    pub(crate) form: Form,
    pub(crate) line: &'static str,
    pub(crate) whole: &'static str,
}

/// An argument, as a row: its form, its name, and its short and long help; or a constant that has
/// the row.
macro_rules! argument {
    ($shared:ident) => { $shared };
    ($form:ident $(($value:literal $(, $choices:expr)?))? $name:literal $line:literal $whole:expr) => {
        Argument {
            name: $name,
            form: Form::$form $(($value $(, $choices)?))?,
            line: $line,
            whole: $whole,
        }
    };
}

pub(crate) use argument;

impl Argument {
    /// Whether it is given by its name.
    pub(crate) fn is_option(&self) -> bool {
        !matches!(
            self.form,
            Form::Place
                | Form::FreePlace
                | Form::PlaceUnless(_, _)
                | Form::Places
                | Form::PlacesUnless(_)
        )
    }

    /// Builds the argument for the command-line parser.
    pub(crate) fn made<'a>(&self, alloc: Global) -> Result<Arg<'a>, AllocError> {
        let told = Arg::new(alloc, self.name)
            .help(self.line)
            .long_help(self.whole);
        let told = if self.is_option() {
            told.long(self.name)
        } else {
            told
        };
        Ok(match self.form {
            Form::Place => told.required(true),
            Form::FreePlace => told,
            Form::PlaceUnless(option, others) => told
                .required_unless_present(option)?
                .required_unless_present_any(others)?,
            Form::Places => told.required(true).action(ArgAction::Append).num_args(1..),
            Form::PlacesUnless(option) => told
                .required_unless_present(option)?
                .action(ArgAction::Append)
                .num_args(1..),
            Form::Flag => told.action(ArgAction::SetTrue),
            Form::Value(value) => told.value_name(value),
            Form::NeededValue(value) => told.value_name(value).required(true),
            Form::Values(value) => appending(told, value),
            Form::NeededValues(value) => appending(told, value).required(true),
            Form::Number(value) => numeric(told, value),
            Form::NeededNumber(value) => numeric(told, value).required(true),
            Form::Choice(value, choices) => told
                .value_name(value)
                .value_parser(choices)
                .hide_possible_values(true),
        })
    }
}

/// Makes an option whose value is checked later.
fn numeric<'a>(option: Arg<'a>, value: &'a str) -> Arg<'a> {
    option.value_name(value).allow_hyphen_values(true)
}

/// Makes an option that may be repeated.
fn appending<'a>(option: Arg<'a>, value: &'a str) -> Arg<'a> {
    option.value_name(value).action(ArgAction::Append)
}

/// The long help of a source text.
pub(crate) const LONG_SOURCE: &str = "The path of the source text, of at most 1048576 bytes.";

/// The long help of an image.
pub(crate) const LONG_IMAGE: &str = "\
The path of the image, a file that `vsi build` writes. Any file may be
given: its bytes are verified before they are used.";

/// The long help of a lattice file, and more of it.
macro_rules! lattice_text {
    ($more:literal) => {
        concat!(
            "\
The path of the lattice file, a TOML document of at most 1048576 bytes
with two keys: `classes`, an array of 1 to 64 names, and `below`, an
array of pairs [low, high] of them. Every two classes must have a
least class above both and a greatest class below both.", $more)
    };
}

pub(crate) use lattice_text;

pub(crate) const LATTICE: Argument = argument! {
    Place "LATTICE" "The lattice file" lattice_text! { "" } };

pub(crate) const SOURCE: Argument = argument! { Place "SOURCE" "The source text" LONG_SOURCE };

pub(crate) const IMAGE: Argument = argument! { Place "IMAGE" "The image file" LONG_IMAGE };

pub(crate) const DRIVE_LATTICE: Argument = argument! {
    Place "LATTICE" "The lattice file; with --interface left out" lattice_text! { " With
--interface it is left out, and IMAGE is the only operand." } };

pub(crate) const DRIVEN_IMAGE: Argument = argument! {
    PlaceUnless("interface", &[]) "IMAGE" "The image file" LONG_IMAGE };

pub(crate) const COLOR: Argument = argument! {
    Choice("WHEN", &["auto", "always", "never"]) "color" "Colours an explanation: auto, always or never" "\
Colours an explanation: `always`, `never`, or `auto`, the default: if
standard error is a terminal and NO_COLOR is empty or not set." };

pub(crate) const ALL: Argument = argument! {
    Flag "all" "Writes all lines of an explanation" "\
Writes all lines of an explanation. Without this option it has at most
40; one of them says how many are left out." };

pub(crate) const CLASS: Argument = argument! { NeededValue("C") "class" "The observer's class" "\
The name of the observer's class, one of the classes of LATTICE." };

pub(crate) const STORE: Argument = argument! {
    Value("FILE") "store" "The store file; without one the run begins from zeros" "\
The path of the store file, a TOML document of at most 1048576 bytes
with a line `NAME = NUMBER` for each global that doesn't begin as 0. A
number is from -9223372036854775808 to 9223372036854775807. Without a
file each global begins as 0." };

pub(crate) const SET: Argument = argument! {
    Values("NAME=NUMBER") "set" "Sets a global after the store file; can be repeated" "\
Sets a global of any class after the store file is read: its name, `=`
and a number from -9223372036854775808 to 9223372036854775807. It can
be repeated; if a global is set twice, the second setting counts. With
--interface only the inputs of the class are set." };

pub(crate) const STEP_BUDGET: Argument = argument! {
    Number("N") "budget" "The maximum number of steps; default: 10000" "\
The maximum number of steps, each a guard that is tested or a word
that is stored: a whole number from 0 to 18446744073709551615, in
digits alone. Default: 10000." };

pub(crate) const OUT: Argument = argument! {
    Value("FILE") "out" "The file to write the store to, not standard output" "\
The path of a file that the store is written to, instead of standard
output. The file is replaced as a whole if the run halts, and is left
as it is otherwise, so it may be the store file that is read." };

pub(crate) const TEXT_OUT: Argument = argument! {
    Value("FILE") "out" "The file to write to, not standard output" "\
The path of a file that the text is written to, instead of standard
output. The file is replaced as a whole, if it is empty or with
--force, and is left as it is if the answer is a refusal." };

pub(crate) const TEXT_FORCE: Argument = argument! {
    Flag "force" "Replaces a file that isn't empty" "\
Replaces the file that --out names whatever is in it. Without this
option it is written only if there is none or it is empty. A file that
is read is never replaced." };

pub(crate) const OUTPUTS: Argument = argument! {
    Value("NAMES") "outputs" "The globals that are written; default: all C sees" "\
Names of globals with commas between them. These are written and no
others. Each is at or below the class, or named under --release.
Without this option all globals are written that the class sees, and
those that are released." };

pub(crate) const RELEASE: Argument = argument! {
    Value("NAMES") "release" "Outputs that are written although C doesn't see them" "\
Names of globals with commas between them, each that of an output.
They are written although the class doesn't see them: whoever reads
the output learns their values, and whatever follows from these." };

pub(crate) const STRICT: Argument = argument! {
    Flag "strict" "Also requires that the ending of loops reveals nothing" "\
Judges by the strict profile: each variable that the guard of a
`while` reads, or the guard of an `if` that contains one, must have
the least class, so that whether a run ends reveals nothing about the
classes above it." };

pub(crate) const EVIDENCE: Argument = argument! {
    Flag "evidence" "Adds the verdict and the files' checksums, to be filed" "\
Prints after `accepted` or `conforms` the version of the program, the
profile, the verdict and a required bound, as comments, and a line
with the SHA-256 of each file that was judged. `sha256sum -c` takes
the output from the second line on, and says later whether a file has
changed." };

pub(crate) const EXPLAIN: Argument = argument! {
    Flag "explain" "Explains a refusal on standard error" "\
Explains a refusal on standard error, after its fixed text: the file
and the place, the line with carets below the fault, what could be
there instead, and what to do. If nothing is refused it has no effect." };

pub(crate) const FULL_STORE: Argument = argument! {
    Flag "full-store" "Requires each global to be in the store file or set" "\
Refuses to begin if a global has no key in the store file and isn't
set, so that none begins as 0 by oversight." };

pub(crate) const FORCE: Argument = argument! { Flag "force" "Replaces a file of another kind too" "\
Replaces a file of any kind. Without this option a file that isn't
empty is replaced only if it is of the kind that is written, an image
or a store, and by the store of a drive only if the drive began with
it. A file that is read is never replaced, except for a store by the
one that follows it." };

pub(crate) const UNBOUNDED: Argument = argument! {
    Flag "unbounded" "Takes a budget that may reveal secrets" "\
Takes a --budget that the image may exceed for a reason that the class
doesn't see: whether a run is out of budget may then reveal secrets to
it. A line on standard error says so. An interface that requires a
bound excludes this option." };
