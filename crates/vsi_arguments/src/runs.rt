//! The subcommands that run an image or a text.

use crate::subcommand::{Argument, Form, Subcommand, argument, subcommand, *};

/// The subcommands that run an image or a text, in the order of the help.
pub(crate) const RUNS: [Subcommand; 7] = [
    subcommand! { "run" "Runs an image and prints its final store" "\
Reads the store file, if one is given, then the image, verifies the image,
judges the store file, sets globals, and runs the image until it halts or its
budget is spent. If it halts, a line `NAME = NUMBER` is printed for each global,
or written to a file, which may be the store file itself."
    statuses "0 halted, 1 refused, 2 usage, 3 out of budget, 4 file fault,
5 out of memory."
    example "  $ vsi run sum.image --budget 3 --trace
  0: PUSH 3 |
  1: STORE 0 | 3
  2: HALT |
  x = 3"
    { IMAGE }
    { NeededNumber("N") "budget" "The maximum number of instructions, or `auto`" "\
The maximum number of instructions, the halt included: a whole number
from 0 to 18446744073709551615, in digits alone; or `auto`, the number
that `vsi bound` prints for the image, within which every run halts.
If no bound is found, `auto` runs nothing: the line of `vsi bound`
goes to standard error, and the status is 1." }
    { STORE } { SET } { FULL_STORE } { OUT } { FORCE }
    { Flag "trace" "Prints each instruction before it is executed" "\
Prints a line before each instruction is executed: its number, its
text, and after a bar the operands on the stack, the lowest first." }
    { Flag "count" "Prints how many instructions were executed" "\
If the run halts, prints on standard error how many instructions were
executed, the halt included: the least budget within which it halts.
The image is run again to count them." }
    { Flag "json" "Writes the answer as JSON" "\
Writes the answer as a line of JSON: an object with `halted`, the
number of `instructions` and, if the run halts, `globals`, an array
with an object for each global. It doesn't go with `--trace`,
`--count` and `--out`." } },
    subcommand! { "view" "Runs an image and prints what a class may see" "\
Reads the lattice file, looks for the class in it, reads and verifies the image,
reads the store file, if one is given, sets globals, and runs the image. If it
halts within its budget, a line `NAME = NUMBER` is printed, or written to a
file, for each global whose class is at or below the observer's, or that
--outputs and --release name instead. Otherwise nothing is printed or written.
Without --interface and these lists any budget is taken, and whether the image
halts within it may reveal secrets to the class.
With --interface FILE the lattice and these lists are those of an interface, to
which the image must conform, and IMAGE is the only operand."
    statuses "0 halted, 1 refused, 2 usage or no such class, 3 out of budget,
4 file fault, 5 out of memory."
    example "  $ cat add.vsi
  var h : H; var l : L; l := l + 1; h := l
  $ cat start.toml
  h = 5
  l = 1
  $ vsi build two.toml add.vsi add.image
  $ vsi view two.toml add.image --class L --budget 7 --store start.toml
  l = 2
  $ vsi view two.toml add.image --class L --budget 7 --release h
  h = 1
  l = 1
  $ vsi view --interface door.toml door.image --class user --budget auto"
    usage "vsi view [OPTIONS] --class <C> --budget <N> <LATTICE> <IMAGE>
       vsi view [OPTIONS] --class <C> --budget <N> --interface <FILE> <IMAGE>"
    { DRIVE_LATTICE } { CLASS } { DRIVEN_IMAGE }
    { Value("FILE") "interface" "The interface that bounds the view" "\
The path of an interface file, in place of LATTICE, --outputs and
--release. The lattice is that of the interface, and an image that
doesn't conform to it, as `vsi conform` judges, isn't run. A table
`[[cycle]]` with the name of the class lists the outputs and released
names, and the inputs, which alone --set sets. If there are such
tables, a class without one views nothing." }
    { NeededNumber("N") "budget" "The maximum number of instructions, or `auto`" "\
The maximum number of instructions, the halt included: a whole number
from 0 to 18446744073709551615, in digits alone; or `auto`, the number
that `vsi bound` prints for the image, within which every run halts.
If no bound is found, `auto` runs nothing: the line of `vsi bound`
goes to standard error, and the status is 1. With --interface,
--outputs or --release a smaller number is refused, unless the image
is steady, and so is any number if no bound is found; --unbounded
takes both." }
    { UNBOUNDED } { STORE } { SET } { FULL_STORE } { OUT } { FORCE } { OUTPUTS } { RELEASE } },
    subcommand! { "drive" "Runs an image once for each line of standard input" "\
Reads the lattice file, looks for the class in it, reads and verifies the image,
and reads the store file, if one is given. Then each line of standard input sets
globals at or below the class, the image runs, and the globals that the class
sees are written as one line of the same form, or those that --inputs, --outputs
and --release name instead. The final store of a run is the initial store of the
next. A faulty line, or a run that is out of budget, is answered by a line that
says so, and leaves the store as it was. Before each answer the store is written
to the file that --save gives, if any. Without --budget each run has the bound
of the image as its budget, and so it halts.
With --interface FILE the lattice and these lists are those of an interface, to
which the image must conform, and IMAGE is the only operand."
    statuses "0 standard input has ended, 1 refused, 2 usage or no such class,
4 file fault, 5 out of memory."
    example "  $ printf 'l = 4\\n\\nh = 1\\n' > lines
  $ vsi drive two.toml add.image --class L < lines
  l = 5
  l = 6
  refused: 47 AboveClass 0
  $ vsi drive --interface door.toml door.image --class user < codes"
    usage "vsi drive [OPTIONS] --class <C> <LATTICE> <IMAGE>
       vsi drive [OPTIONS] --class <C> --interface <FILE> <IMAGE>"
    { DRIVE_LATTICE } { CLASS } { DRIVEN_IMAGE }
    { Value("FILE") "interface" "The interface that bounds the controller" "\
The path of an interface file, in place of LATTICE, --inputs,
--outputs and --release. The lattice is that of the interface, and an
image that doesn't conform to it, as `vsi conform` judges, isn't
driven. A table `[[cycle]]` with the name of the class lists the
inputs, outputs and released names. If there are such tables, a class
without one drives nothing." }
    { Number("N") "budget" "The maximum number of instructions; default: auto" "\
The maximum number of instructions of a cycle, the halt included: a
whole number from 0 to 18446744073709551615, in digits alone; or
`auto`, as without this option: the number that `vsi bound` prints for
the image, within which every cycle halts. Refused are a smaller
number, unless the image is steady, and any number if no bound is
found; --unbounded takes both." }
    { UNBOUNDED } { STORE }
    { Value("START") "init" "The store to begin with if there is no store file yet" "\
The path of a store file for the first start of a device. If there is
no file at the path that --store gives, the drive begins with this
store; otherwise it isn't read. --store and --save must give the same
path, so that the next start goes on from the saved store. A file at
that path that can't be read is a file fault, not a first start." }
    { Flag "full-store" "Requires each global to be in the store file" "\
Refuses to begin if a global has no key in the store file, so that
none begins as 0 because the file is empty or has been cut short." }
    { Value("FILE") "save" "The file to write the store to, after each line" "\
The path of a file that the store is written to: before the first
cycle, after each line, before its answer is written, and at the end.
So the file is never older than the last answer, even after a cut of
power, if the disk keeps what it confirms; --save-every makes it older
and the lines quicker. The file is replaced as a whole each time, so
it may be the store file that is read. Any other file with bytes is
replaced only with --force." }
    { Number("N") "save-every" "After how many lines the store is saved; default: 1" "\
After how many lines the store is written to the file that --save
gives, in digits alone: 1 after each line, 100 after each hundredth.
After a cut of power the file may then be older than the last answer,
by at most N - 1 lines." }
    { FORCE }
    { Value("NAMES") "inputs" "The globals that a line may set; default: all C sees" "\
Names of globals with commas between them, as in `typed,code`. A line
may set these and no others. Each is at or below the class. Without
this option a line may set every global at or below the class." }
    { OUTPUTS } { RELEASE } },
    subcommand! { "compare" "Runs an image from two stores and prints what a class sees of both" "\
Reads the lattice file, looks for the class in it, reads and verifies the image,
reads and judges both store files, and runs the image from each. Prints a row
for each global whose class is at or below the observer's, before the runs and,
if both halt, after them, and a row for how they end. A row with a star shows
both sides, the first run's first; in a row without one they are equal. The
class sees the same if both runs halt and no row after them has a star, except
the row for how they end, or if neither run halts. How they end may depend on
what the class doesn't see, so a --budget below the bound of the image is
refused, unless the image is steady.
With --steps the second operand is a source text, accepted or not, and both runs
are shown in step, as `vsi steps` shows one: a step of one run alone has a mark,
`<` for the first run and `>` for the second."
    statuses "0 the class sees the same after both runs, 1 it doesn't, or refused,
2 usage or no such class, 3 out of budget, with --steps, 4 file fault, 5 out of
memory."
    example "  $ printf 'h = 5\\nl = 1\\n' > a
  $ printf 'h = 9\\nl = 1\\n' > b
  $ vsi compare two.toml add.image --class H --budget 7 --store a --store b
  H sees before
  * h = 5 | h = 9
    l = 1
  H sees after
    h = 2
    l = 2
    after 7 instructions"
    { LATTICE }
    { Place "IMAGE" "The image file; with --steps a source text" LONG_IMAGE }
    { CLASS }
    { NeededNumber("N") "budget" "The maximum number of instructions, or `auto`" "\
The maximum number of instructions of each run, the halt included: a
whole number from 0 to 18446744073709551615, in digits alone; or
`auto`, the number that `vsi bound` prints for the image, within which
every run halts. Refused are a smaller number, unless the image is
steady, and any number if no bound is found; --unbounded takes both.
With --steps it is the maximum number of steps of each run." }
    { Flag "steps" "Compares the steps of a source text instead" "\
Runs a source text from both stores in step, and prints a line for
each guard that is tested and each word that is stored." }
    { Flag "unbounded" "Takes a budget that may reveal secrets" "\
Takes a --budget that the image may exceed for a reason that the class
doesn't see: whether a run is out of budget may then reveal secrets to
it. A line on standard error says so." }
    { NeededValues("FILE") "store" "A store file, given twice" "\
The path of a store file, as `vsi help run` describes it, given twice:
the first run begins from the first file, the second from the second." }
    { Flag "json" "Writes the answer as JSON" "\
Writes the answer as a line of JSON: an object with `class`, `same`,
the words that the class sees `before` and `after` both runs, and how
the `first` and the `second` run end; with --steps the steps of both
runs in their place." } },
    subcommand! { "leak" "Searches a source text for a leak, and shows it" "\
Reads the lattice file, looks for the class in it, reads the source text, and
runs it, accepted or not, from pairs of stores that agree on each global whose
class is at or below the observer's. If the final stores of two runs differ on
such a global, both initial stores and what the class sees of both final stores
are written to standard error. Otherwise `no leak in N pairs of runs` is
printed, which says nothing about other pairs. The same arguments give the same
answer."
    statuses "0 none found, 1 refused or a leak, 2 usage or no such class,
4 file fault, 5 out of memory."
    example "  $ cat lamp.vsi
  var h : H; var l : L; if h then l := 1 else l := 0
  $ vsi leak two.toml lamp.vsi
  leak at L
  * h = 0                 h = 1
    l = 0                 l = 0
  L sees
  * l = 0                 l = 1
  * after 5 instructions  after 6 instructions"
    { LATTICE } { SOURCE }
    { Value("C") "class" "The observer's class; default: each class in turn" "\
The name of the observer's class, one of the classes of LATTICE.
Without it each class is the observer's in turn, after those below it." }
    { Number("N") "budget" "The maximum number of instructions per run; default: 10000" "\
The maximum number of instructions of each run, the halt included: a
whole number from 0 to 18446744073709551615, in digits alone. Default:
10000." }
    { Number("N") "tries" "The maximum number of pairs of runs; default: 10000" "\
The maximum number of pairs of runs that are tried for a class, and
again for --endings and for --steps: a whole number from 0 to
18446744073709551615, in digits alone. Default: 10000." }
    { Number("S") "seed" "The seed for the stores that are drawn; default: 0" "\
The seed for the stores that are drawn: a whole number from 0 to
18446744073709551615, in digits alone. Default: 0." }
    { Flag "endings" "Also looks for runs that are out of budget" "\
If no final stores differ, looks for two stores such that the run from
one halts within the budget and the run from the other doesn't." }
    { Flag "steps" "Also looks for runs of different numbers of instructions" "\
If nothing else is found, looks for two stores whose runs halt after
different numbers of instructions." }
    { Flag "json" "Writes the answer as JSON" "\
Writes the answer as a line of JSON: an object with `found`. For a
leak it also has its `class`, the words `before` and `after` both
runs, and how they end; otherwise the number of `pairs` of runs." } },
    subcommand! { "steps" "Runs a source text, and prints each step" "\
Reads the lattice file, the source text and the store file, if one is given,
sets globals, and runs the text as it is written, accepted or not. Prints a line
for each guard that is tested and each word that is stored, in order: its place,
its text, and the value with the class of the guard or of the variable. If the
run ends within the budget, a line `NAME = NUMBER` follows for each global."
    statuses "0 the run has ended, 1 refused, 2 usage, 3 out of budget,
4 file fault, 5 out of memory."
    example "  $ vsi steps two.toml lamp.vsi --set h=1
  1:23  if h    is 1 : H
  1:33  l := 1  l = 1 : L
  h = 1
  l = 1"
    { LATTICE } { SOURCE } { STEP_BUDGET } { STORE } { SET } { FULL_STORE }
    { Flag "json" "Writes the answer as JSON" "\
Writes the answer as a line of JSON: an object with `steps`, an array
with an object for each step, whether the run has `halted`, and
`store`, an array with an object for each global." } },
    subcommand! { "monitor" "Runs a source text under a monitor of flows" "\
Reads the lattice file, the source text and the store file, if one is given,
sets globals, and runs the text as it is written, accepted or not, under a
monitor. Each word has a class as its label, at first that of its variable. The
run is stopped before an assignment in a branch or a loop whose guard depends on
a class that isn't at or below the label of the variable. If the run ends within
the budget, a line `NAME = NUMBER : CLASS` is printed for each global, with the
label of its word. A text that `vsi check` accepts is never stopped. With --rule
permissive-upgrade the run goes on there, and is stopped later if a guard reads
the variable."
    statuses "0 the run has ended, 1 it was stopped, or refused, 2 usage, 3 out of
budget, 4 file fault, 5 out of memory."
    example "  $ vsi monitor two.toml lamp.vsi --set h=1
  1:33 l : L may not be assigned under H"
    { LATTICE } { SOURCE } { STEP_BUDGET } { STORE } { SET } { FULL_STORE }
    { Choice("RULE", &["no-sensitive-upgrade", "permissive-upgrade"]) "rule"
    "no-sensitive-upgrade (default), permissive-upgrade" "\
The rule for an assignment in a branch or a loop whose guard depends
on a class that isn't at or below the label of the variable. With
`no-sensitive-upgrade`, the default, the run is stopped before it.
With `permissive-upgrade` the run goes on, and is stopped before a
guard that reads the variable." }
    { Flag "json" "Writes the answer as JSON" "\
Writes the answer as a line of JSON: an object with the `outcome`,
`halted` or `stopped`, and with `store`, an array with an object for
each global, or with the assignment or guard before which the run
was stopped." } },
];
