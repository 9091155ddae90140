//! The subcommands that judge a source text or compile it, and those about an image.

use crate::subcommand::{Argument, Form, Subcommand, argument, subcommand, *};

/// The subcommands that judge a source text or compile it, in the order of the help.
pub(crate) const TEXTS: [Subcommand; 8] = [
    subcommand! { "try" "Judges a source text and runs it" "\
Reads the source text, then the lattice file that --lattice gives, or the one
that the text names in its first comment, `# policy: FILE`. Without either the
classes are L and H, L below H. Judges both, compiles the text, sets globals,
with all others at 0, and runs the image. If the run halts, a line
`NAME = NUMBER` is printed for each global, or with --class for each one at or
below that class. No file is written."
    statuses "0 halted, 1 refused, 2 usage or no such class, 3 out of budget,
4 file fault, 5 out of memory."
    example "  $ cat add.vsi
  var h : H; var l : L; l := l + 1; h := l
  $ vsi try add.vsi --set l=4
  h = 5
  l = 5
  $ vsi try add.vsi --set l=4 --class L
  l = 5"
    { Place "SOURCE" "The source text, which may name its lattice file" "\
The path of the source text, of at most 1048576 bytes. If its first
comment is `# policy: FILE`, FILE is the path of its lattice file,
relative to the folder of SOURCE." }
    { Value("LATTICE") "lattice" "The lattice file; default: the one named by the text" "\
The path of the lattice file, in place of the one that the text names.
`vsi explain lattice` shows one, `vsi lattice` prints some." }
    { Value("C") "class" "Prints only the globals that this class may see" "\
The name of a class of the lattice. Only the globals at or below it
are printed." }
    { Number("N") "budget" "The maximum number of instructions; default: 1000000" "\
The maximum number of instructions, the halt included: a whole number
from 0 to 18446744073709551615, in digits alone. Default: 1000000." }
    { Values("NAME=NUMBER") "set" "Sets a global before the run; can be repeated" "\
Sets a global of any class before the run: its name, `=` and a number
from -9223372036854775808 to 9223372036854775807. If a global is set
twice, the second setting counts." } },
    subcommand! { "check" "Says whether a source text is accepted" "\
Reads and judges the lattice file, then the source text, and prints `accepted`.
A refusal is reported on standard error: its number, its name and its place, and
for a refused flow each step and the two classes. With --steady the image of the
text is judged too. No file is written.

With several source texts each is judged by itself, and its line on standard
output begins with its path, or in a refusal with its place, FILE:LINE:COLUMN.
The last line counts the texts. A folder stands for each `.vsi` file below it.
Explanations and warnings are for one text.

With --project the programs of a project file are judged, or the one named NAME.
Without operands, or with one name, `check` judges the programs of the project
file `vsi.toml` in the working folder or the nearest one above it, of which a
folder `out` keeps the images."
    statuses "0 accepted, 1 refused, 2 usage, 4 file fault, 5 out of memory."
    example "  $ cat two.toml
  classes = [\"L\", \"H\"]
  below = [[\"L\", \"H\"]]
  $ cat leak.vsi
  var h : H; var l : L; l := h
  $ vsi check two.toml leak.vsi
  refused: 25 Refused
  1:28 h flows to l by ASSIGN at 1:23
  h : H may not flow to l : L
  $ cat branch.vsi
  var h : H; if h then h := 0 else h := 1
  $ vsi check --steady two.toml branch.vsi
  refused: 25 Refused
  1:15 h flows to (loop) by LOOP at 1:15
  h : H may not flow to (loop) : L"
    usage "vsi check [OPTIONS] <LATTICE> <SOURCE>...
       vsi check [--json | --sarif] --project <FILE> [NAME]"
    { PlaceUnless("project", &[]) "LATTICE" "The lattice file; with --project left out"
    lattice_text! { " With
--project it is left out, and the name of one program may be there." } }
    { PlacesUnless("project") "SOURCE" "The source text, or several, each judged by itself" "\
The path of the source text, of at most 1048576 bytes, or of each of
several source texts." }
    { Value("FILE") "project" "The project file whose programs are judged" "\
The path of a project file, as `vsi.toml`, in place of LATTICE and
SOURCE. It says how each of its programs is judged. With a NAME after
it that program alone is judged." }
    { Choice("FORM", &["text", "line"]) "format"
    "How each fault begins: text or line; default: text" "\
How each fault begins: `line`, with FILE:LINE:COLUMN, as those of
compilers do, on standard output; or `text`, the default for one
source text. The faults of several always begin as those of `line`." }
    { STRICT }
    { Flag "steady" "Requires that the number of instructions reveals nothing" "\
Judges by the strict profile as if each `if` were a `while`: each
variable that a guard reads must have the least class. Then judges
the image as `vsi audit --steady` does: two runs from stores that
agree at and below a class execute the same instructions and write the
same values there. --strict adds nothing to it." }
    { Flag "json" "Writes the answer as JSON" "\
Writes the answer as a line of JSON on standard output: an object with
`accepted`, and for a refusal its number, its name, its place, its
text and the steps of its flow. For several texts and for a project
it has such an object for each, with all faults in `errors`." }
    { Flag "sarif" "Writes the answer as SARIF" "\
Writes the answer as a document of SARIF 2.1.0 on standard output,
which services that check changes show on the lines of the texts. For
one text a refusal is its one result; for several texts and for a
project it has a result for each fault. What is accepted has none." }
    { Flag "warnings" "Adds warnings about the text" "\
Writes warnings about the text to standard error, a line each: loops
whose guard nothing changes, variables that nothing reads, assignments
without effect, hidden names, chained comparisons, and commands that
are indented as if a loop or an `if` had them. A text with a fault of
its tokens, its tree or its names has none. The status and the answer
stay." } },
    subcommand! { "conform" "Says whether a text or an image conforms to an interface" whole "\
Says whether a source text or an image conforms to an interface.

Reads and judges the interface file and its lattice, then reads the source text,
or an image in its place. Prints `conforms` if the text has the globals of the
interface, is accepted under the interface's profile, and halts in each run of
the interface within the budget and with the expected values. Otherwise prints a
line for each point that differs, the lines of a refusal first. An image is
judged in the same way, as by `audit` under the interface's lattice; its lines
have no positions."
    statuses "0 conforms, 1 refused, or it doesn't conform, 2 usage, 4 file fault,
5 out of memory."
    example "  $ cat lock.toml
  lattice = \"two.toml\"
  profile = \"strict\"
  globals = [[\"key\", \"H\"], [\"out\", \"L\"]]
  [[runs]]
  store = { key = 7 }
  budget = 1000
  expect = { out = 3 }
  $ cat lock.vsi
  var key : L; var out : L; out := 4
  $ vsi conform lock.toml lock.vsi
  1:11 class key : L, expected H
  run 1 out = 4, expected 3
  $ vsi build two.toml lock.vsi lock.image
  $ vsi conform lock.toml lock.image
  class key : L, expected H
  run 1 out = 4, expected 3"
    { Place "INTERFACE" "The interface file" "\
The path of the interface file, a TOML document with these keys:
`lattice`, the path of a lattice file, or the keys of one instead;
`profile`, \"base\", \"strict\" or \"steady\"; `globals`, an array of pairs
of a name and a class; `order`, \"exact\" or \"set\"; `bounded`, true if
the image must have a bound; and `runs`, each with a `budget`, a
`store`, and `expect` or `halts = true`." }
    { Place "SOURCE" "The source text, or the image file" "\
The path of the source text, or of an image: a file that begins as an
image does, with the bytes 56 53 49 and one below 09." }
    { Number("N") "budget" "The most instructions of all runs; default: 1000000000" "\
The most instructions of all runs of the interface
together, the halts included: a whole number from 0 to
18446744073709551615, in digits alone. An interface whose budgets add
up to more is refused before anything runs. Default: 1000000000." }
    { Flag "json" "Writes the answer as JSON" "\
Writes the answer as a line of JSON: an object with `conforms` and
`points`." }
    { Flag "sarif" "Writes the answer as SARIF" "\
Writes the answer as a document of SARIF 2.1.0, which services that
check changes show on the lines of the text: a result for each point,
whose rule is the kind of the point." }
    { EVIDENCE } },
    subcommand! { "classes" "Prints the class of each declaration, declared or inferred" "\
Reads the lattice file and the source text as `check` does, and prints a line
`LINE:COLUMN NAME : CLASS` for each declaration, globals first. A `letvar`
without a class has the least one with which the text is accepted."
    statuses "0 accepted, 1 refused, 2 usage, 4 file fault, 5 out of memory."
    example "  $ cat copy.vsi
  var h : H; letvar t := h in h := t
  $ vsi classes two.toml copy.vsi
  1:5 h : H
  1:19 t : H"
    { LATTICE } { SOURCE } { STRICT }
    { Flag "json" "Writes the answer as JSON" "\
Writes the answer as a line of JSON: an object with `accepted` and
`classes`, an array with an object for each declaration. For a refused
text it is the line of `check --json`." } },
    subcommand! { "flows" "Lists every pair of declared variables joined by a chain of flows" "\
Reads the lattice file and the source text as `check` does, and prints a line
`NAME : CLASS flows to NAME : CLASS VERDICT STEPS` for every two different
variables with declared classes that a chain of flow steps joins. VERDICT is
`allowed` if the first class is at or below the second, otherwise `refused`, and
STEPS is the length of a shortest chain. The lines are in the order of
declarations. With --walks the steps of a shortest chain follow each line. The
text is accepted if no line is refused; the status is 0 in both cases."
    statuses "0 printed, 1 refused for a cause other than a flow, 2 usage,
4 file fault, 5 out of memory."
    example "  $ cat three.vsi
  var h : H; var l : L; var m : L; letvar t := l in { m := t; l := h }
  $ vsi flows two.toml three.vsi
  h : H flows to l : L refused 1
  h : H flows to m : L refused 3
  l : L flows to m : L allowed 2
  $ vsi flows --walks two.toml three.vsi | tail -n 3
  l : L flows to m : L allowed 2
  1:46 l flows to t by LETVAR at 1:41
  1:58 t flows to m by ASSIGN at 1:53"
    { LATTICE } { SOURCE } { STRICT }
    { Flag "walks" "Prints the steps of a shortest chain below each line" "\
Prints the steps of a shortest chain below each line, in the form that
a refusal has: where a name is read, what it flows to, by which rule,
and where that is written. Of all shortest chains it is the first in
the order of the program's steps." }
    { Flag "json" "Writes the answer as JSON" "\
Writes the answer as a line of JSON: an object with `accepted` and
`flows`, an array with an object for each pair. If the text has no
program, it is the line of `check --json`." } },
    subcommand! { "mend" "Prints which classes have to rise for the text to be accepted" whole "\
Prints which classes have to rise for a source text to be accepted.

Reads the lattice file and the source text as `check` does, and prints a line
`LINE:COLUMN NAME : OLD -> NEW, since CAUSE reaches it` for each declaration
whose class is too low: whoever sees OLD but not NEW no longer sees the variable
then. No class is lowered, and none rises further than it has to. An accepted
text has no line. With --apply the source text is printed with the new classes.
With --strict no classes may help: then the refusal is that of `check`."
    statuses "0 printed, 1 refused, 2 usage, 4 file fault, 5 out of memory."
    example "  $ cat leak.vsi
  var h : H; var l : L; l := h
  $ vsi mend two.toml leak.vsi
  1:16 l : L -> H, since h reaches it
  $ vsi mend --apply two.toml leak.vsi
  var h : H; var l : H; l := h
  $ vsi mend --json two.toml up.vsi
  {\"accepted\":true,\"raises\":[]}"
    { LATTICE } { SOURCE } { STRICT }
    { Flag "apply" "Prints the text with the new classes instead" "\
Prints the source text with the new class in place of the old one in
each declaration whose class has to rise. Comments and layout stay.
The new text is accepted: it has been judged. One that has grown too
long is refused." }
    { Flag "json" "Writes the answer as JSON" "\
Writes the answer as a line of JSON: an object with `accepted` and
`raises`, or the line of `check --json` if no classes help." } },
    subcommand! { "build" "Compiles a source text to an image" "\
Reads the lattice file and the source text as `check` does, compiles the text,
and writes the image file. A file that is already at the path of the image isn't
touched until all bytes of the image are known. A file that is read stays, and
so does one that is no image, without --force. Nothing is printed.

Without operands, or with the name of one program, `build` does this for the
programs of `vsi.toml`, into the folder `out` beside it, and prints each path."
    statuses "0 written, 1 refused, 2 usage, 4 file fault, 5 out of memory."
    example "  $ cat sum.vsi
  var x : L; x := 1 + 2
  $ vsi build two.toml sum.vsi sum.image
  $ vsi run sum.image --budget 3
  x = 3"
    { LATTICE } { SOURCE } { STRICT }
    { Place "IMAGE" "The image file to write" "\
The path that the image is written to. A file that is already there is
replaced, or left as it is if the text is refused." }
    { FORCE } },
    subcommand! { "new" "Makes a folder with a project: a program and its files" "\
Makes a folder NAME with a project file `vsi.toml`, a lattice file, a program,
an interface and a start store, which `vsi check` accepts, and prints the paths
of the files. Nothing that is already there is touched."
    statuses "0 made, 2 usage, or NAME is there already, 4 file fault,
5 out of memory."
    example "  $ vsi new lock && cd lock && vsi check"
    { Place "NAME" "The folder to make" "\
The name of the folder that is made in the working folder: a letter,
then letters, digits, `_` and `-`, at most 64 in all." } },
];

/// The subcommands about an image, in the order of the help.
pub(crate) const IMAGES: [Subcommand; 5] = [
    subcommand! { "list" "Prints the instructions of an image" "\
Reads the image, verifies it, and prints the numbers of its globals, slots and
places for operands, each global with its class, and each instruction with its
number."
    statuses "0 printed, 1 refused, 2 usage, 4 file fault, 5 out of memory."
    example "  $ vsi list sum.image
  globals 1
  slots 1
  stack 1
  x : L
  0: PUSH 3
  1: STORE 0
  2: HALT"
    { IMAGE }
    { Flag "json" "Writes the answer as JSON" "\
Writes the answer as a line of JSON: an object with `globals`, `slots`
and `stack`, and with `instructions`, an array of their texts." } },
    subcommand! { "audit" "Says whether an image is accepted, whoever made it" "\
Reads and judges the lattice file, reads and verifies the image, reads the
commands back from its code, and judges their flows. Prints `accepted`: two runs
from stores that agree at and below a class end in agreement there if both halt.
A refused flow is reported with instruction numbers as places, and with made-up
names for the locals, which are those that `vsi source` prints. A few images
with more than 1024 places at which a variable may begin are refused, although
`check` accepts their texts.

With --steady the code itself is judged, even if no commands can be read back
from it: its jumps may depend on nothing above the least class."
    statuses "0 accepted, 1 refused, 2 usage, 4 file fault, 5 out of memory."
    example "  $ vsi audit two.toml leak.image
  refused: 25 Refused
  0 h flows to l by ASSIGN at 1
  h : H may not flow to l : L
  $ vsi audit two.toml sum.image --evidence > evidence
  $ sed 1d evidence | sha256sum -c
  two.toml: OK
  sum.image: OK"
    { LATTICE } { IMAGE } { STRICT }
    { Flag "steady" "Requires that the number of instructions reveals nothing" "\
Accepts only an image whose jumps depend on nothing above the least
class. Two runs from stores that agree at and below a class then
execute the same instructions within any budget, and write the same
values there. Their times in seconds may differ. --strict adds nothing
to it." }
    { Flag "json" "Writes the answer as JSON" "\
Writes the answer as a line of JSON: an object with `accepted`, and
for a refusal its number, its name and its text." }
    { Flag "sarif" "Writes the answer as SARIF" "\
Writes the answer as a document of SARIF 2.1.0 on standard output: a
refusal is its one result, and an accepted image has none." }
    { EVIDENCE } },
    subcommand! { "source" "Prints an image as a source text" "\
Reads the image, verifies it, reads the commands back from its code, and prints
them as a text that `check` and `build` can read. The locals have made-up names.
Where there is no command the text has a `letvar` with the number 0."
    statuses "0 printed, 1 refused, 2 usage, 4 file fault, 5 out of memory."
    example "  $ vsi source sum.image
  var x : L;
  x := 3"
    { IMAGE } },
    subcommand! { "emit-c" "Prints an image as a function in C" "\
Reads and verifies the image, and prints a file in C99 that needs <stdint.h> and
no library: the numbers of the globals, and a function
`int NAME_run(int64_t globals[N], uint64_t budget)`. It returns 0 if the run
halts within the budget, and the globals then hold the final store; otherwise it
returns 1 and leaves the globals as they were. With --bounded the function takes
no budget and always leaves the final store, and an image without a bound is
refused. With --lattice a source text is read, judged and compiled first.

Without operands, or with the name of one program, `emit-c` does this for the
programs of `vsi.toml`, into the folder `out` beside it."
    statuses "0 printed, 1 refused, 2 usage, 4 file fault, 5 out of memory."
    example "  $ vsi emit-c sum.image --header
  #ifndef VSI_sum_H
  #define VSI_sum_H

  #include <stdint.h>

  #ifdef __cplusplus
  extern \"C\" {
  #endif

  enum {
      sum_at_x = 0, /* L */
      sum_globals = 1
  };

  int sum_run(int64_t globals[1], uint64_t budget);

  #ifdef __cplusplus
  }
  #endif

  #endif"
    { Place "FILE" "The image file; with --lattice the source text" "\
The path of the image, a file that `vsi build` writes, or with
--lattice the path of a source text. Any file may be given: its bytes
are verified before they are used." }
    { Value("NAME") "name" "The prefix of each name in the C code" "\
A letter, then letters, digits and underscores, but not a keyword of C
or C++. Each name in the C code begins with it. Default: the name of
FILE up to its first dot, or `image` if that can't be used." }
    { Flag "header" "Prints the header instead" "\
Prints the header for the file that is printed without --header: the
numbers of the globals, and the declaration of the function." }
    { Flag "bounded" "Leaves the budget out, where each run halts" "\
Prints a function `void NAME_run(int64_t globals[N])`, which takes no
budget and counts no instructions. The image must have a bound, as
`vsi bound` finds it; a comment of the C names it. An image without a
bound is refused." }
    { Value("LATTICE") "lattice" "The lattice file of a source text" "\
The path of the lattice file. With it FILE is a source text, which is
judged as `vsi build` judges it." }
    { TEXT_OUT } { TEXT_FORCE } },
    subcommand! { "bound" "Prints a number of instructions within which every run halts" "\
Reads and verifies the image, or with a lattice file reads, judges and compiles
the source text. If there is a bound, prints `halts within N instructions`: with
a budget of N or more the run from every store halts. Otherwise the line begins
with `no bound: ` and names a loop for which none was found, and why. A bound is
found only for loops that count from a known number to a known limit by the same
step at each turn."
    statuses "0 there is a bound, 1 refused, or no bound was found, 2 usage,
4 file fault, 5 out of memory."
    example "  $ cat count.vsi
  var n : L; letvar i := 0 in while i < 3 do { n := n + i; i := i + 1 }
  $ vsi bound two.toml count.vsi
  halts within 46 instructions
  $ vsi bound two.toml count.vsi --json
  {\"bounded\":true,\"least\":46,\"most\":46,\"text\":\"halts within 46 instructions\"}
  $ cat wait.vsi
  var n : L; while n < 3 do n := n + 1
  $ vsi bound two.toml wait.vsi
  no bound: 1:12: the loop's variable begins with a number that isn't known"
    { Place "FILE" "The image file, or the lattice file of SOURCE" "\
The path of the image, the bytes that `vsi build` writes, or with
SOURCE the path of the lattice file. Any bytes may be given: they are
verified before they are used." }
    { FreePlace "SOURCE" "The source text" "\
The path of the source text, which is judged and compiled under the
lattice file FILE. The image isn't written." }
    { Flag "json" "Writes the answer as JSON" "\
Writes the answer as a line of JSON: an object with `bounded`, `text`,
and the two numbers between which the number of instructions of every
run lies, or the instruction for which no bound was found." } },
];
