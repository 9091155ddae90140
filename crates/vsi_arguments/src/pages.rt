//! The subcommands that print a page, a graph or a text, or serve an editor.

use crate::subcommand::{Argument, Form, Subcommand, argument, subcommand, *};

/// The subcommands that print a page, a graph or a text, or serve an editor, as the help has them.
pub(crate) const PAGES: [Subcommand; 7] = [
    subcommand! { "report" "Prints a page on a source text, its lattice and its flows" "\
Reads and judges the lattice file, then the source text, and prints a page in
HTML that needs no other file: the verdict, the source with the class of each
name, pictures of the lattice and of the flows, and a list of all flows. For an
accepted text the page shows the image; for a refused one, why it is refused,
and a leak if one is found. Every text has a page: the status is 0 even if the
text is refused.

Without operands, or with the name of one program, `report` writes the pages of
the programs of `vsi.toml` into the folder `out` beside it, with an index."
    statuses "0 printed, 1 the lattice is refused, 2 usage, 4 file fault,
5 out of memory."
    example "  $ vsi report two.toml leak.vsi > page.html
  $ grep '<title>Refused' page.html
  <title>Refused: a report of its flows, leak.vsi</title>"
    { LATTICE } { SOURCE } { STRICT } { TEXT_OUT } { TEXT_FORCE } },
    subcommand! { "draw" "Prints a lattice, and the flows of a source text, as a graph" "\
Reads and judges the lattice file, and prints a graph in the language of
Graphviz with an edge from each class to each one directly above it. With a
source text, which is read and judged except for its flows, the graph has two
boxes: in the second are a node for each variable, in the colour of its class
and above those of lower classes, and an edge for each rule by which one flows
to another in one step. The steps of a refused flow are thick, red and numbered.
With --flows the second box is the whole graph."
    statuses "0 printed, 1 refused for a cause other than a flow, 2 usage,
4 file fault, 5 out of memory."
    example "  $ vsi draw two.toml leak.vsi | dot -Tsvg > leak.svg"
    { LATTICE }
    { FreePlace "SOURCE" "The source text, whose flows are drawn too" LONG_SOURCE }
    { STRICT }
    { Flag "flows" "Draws the flows without the lattice" "\
Draws the flows of SOURCE without the lattice. Without SOURCE the
lattice is drawn alone." } },
    subcommand! { "policy" "Prints who sees what under a lattice, or what changed" "\
Reads and judges the lattice file, and prints a row for each class with exactly
the classes that it sees: those at or below it. With an older lattice file,
which is judged too, prints a line for each class that another now sees, and
then one for each that it no longer sees, by their names. Standard error has a
warning if there is only one class, if two classes have names that look alike,
or if a class with a name for secrets is below one with a name for the public.

With --interface, prints the globals of an interface instead: for each class of
its lattice those whose class is at or below it, and those that its table of
`cycle` sets, reads and releases; or what an edit of the file made visible, and
to whom. A program isn't read: what a released global reveals isn't known.
Standard error then also has a warning for each class that no global has."
    statuses "0 printed, 1 refused, or --deny and a class sees more, 2 usage,
4 file fault, 5 out of memory."
    example "  $ vsi policy two.toml
  L sees L
  H sees L H
  $ cat lock.toml
  lattice = \"two.toml\"
  profile = \"strict\"
  globals = [[\"key\", \"H\"], [\"out\", \"L\"]]
  $ vsi policy --interface lock.toml
  L sees out
  H sees key out
  $ sed 's/\"H\"/\"L\"/' lock.toml > open.toml
  $ vsi policy --deny --interface open.toml --from lock.toml
  L now sees key
  warning: no global has the class H"
    usage "vsi policy [OPTIONS] <LATTICE> [OLD]
       vsi policy [OPTIONS] --from <OLD> --to <NEW>
       vsi policy [OPTIONS] --interface <FILE> [OLD]
       vsi policy [OPTIONS] --interface <FILE> --from <OLD>"
    { PlaceUnless("interface", &["from", "to"]) "LATTICE"
    "The lattice file; with --interface left out"
    lattice_text! { " With
--interface it is left out, and OLD is the only operand." } }
    { FreePlace "OLD" "An older file of the same kind, to show what changed" "\
The path of an older lattice file or, with --interface, of an older
interface file. With it the answer has what each class sees now and
didn't see then, and what it sees no longer." }
    { Value("FILE") "interface" "The interface whose globals are shown" "\
The path of an interface file, in place of LATTICE. The lattice is
that of the interface, and the answer has the globals that each class
sees in place of the classes. A program isn't read: `vsi conform` says
whether one has these globals." }
    { Value("OLD") "from" "The older file, in place of the operand OLD" "\
The path of the older lattice file, with --to, or of the older
interface file, with --interface. Then there is no operand." }
    { Value("NEW") "to" "The newer lattice file, in place of LATTICE" "\
The path of the lattice file, with --from." }
    { Flag "deny" "Has status 1 if a class sees more than before" "\
Prints the same, and has status 1 if some class sees or reads what it
neither saw nor read under the older file: if `sees_more` is true in
the answer of --json. Otherwise the status is 0." }
    { Flag "json" "Writes the answer as JSON" "\
Writes the answer as a line of JSON: an object with an entry for each
class, or for each change and `sees_more`, which says whether a class
sees more than before." } },
    subcommand! { "fmt" "Prints a source text in its canonical form" "\
Reads the source text and prints it with a command on each line, two spaces for
each block around it, and one space around each operator. Comments are dropped,
except with --keep-comments, --check or --write. Names and flows aren't judged.

Several files may be given, with --check or --write, and folders, each of which
stands for the `.vsi` files below it: `fmt` does this for one after another."
    statuses "0 printed, written or nothing to change, 1 refused or --check found a
difference, 2 usage, 4 file fault, 5 out of memory."
    example "  $ cat short.vsi
  var x:L;x:=01+(2)# 3
  $ vsi fmt short.vsi
  var x : L;
  x := 1 + (2)
  $ vsi fmt --check short.vsi
  1:6 differs
  $ vsi fmt --write short.vsi
  $ cat short.vsi
  var x : L;
  x := 1 + (2) # 3"
    { SOURCE }
    { Flag "keep-comments" "Keeps the comments, each between the same tokens" "\
Keeps each comment, between the same two tokens as before. One at the
end of a line stays there, and others get lines of their own. One
blank line between two commands stays, too." }
    { Flag "check" "Prints where the layout differs, and writes nothing" "\
Compares the text with its layout, in which comments are kept. If they
differ, the status is 1, and a line `LINE:COLUMN differs` is printed
for each line of the text on which they begin to differ." }
    { Flag "write" "Replaces the file by its layout" "\
Puts the layout into the file, with comments kept, if the text isn't
laid out so already: first into a new file beside it, which then takes
its place. Nothing is printed, and a refused text stays as it is." }
    { Flag "json" "Writes the answer of --check as JSON" "\
Writes the answer of --check as a line of JSON for each text: an
object with its `file` and whether it is `formatted`." } },
    subcommand! { "lattice"
    "Prints a lattice file: two classes, levels, a diamond or a power set" whole "\
Prints a lattice file of a usual shape.

The shapes are
  two                L below H
  levels A B ..      each name below the next, 1 to 64 names
  diamond L A B H    L below A and B, which are below H
  powerset A B ..    a class for each set of the names, 1 to 6 names, each set
                     below those that contain it: `none`, `A`, `B`, `A_B`"
    statuses "0 printed, 2 usage, 4 file fault, 5 out of memory."
    example "  $ vsi lattice diamond L A B H
  classes = [\"L\", \"A\", \"B\", \"H\"]
  below = [
    [\"L\", \"A\"],
    [\"L\", \"B\"],
    [\"A\", \"H\"],
    [\"B\", \"H\"],
  ]"
    { Places "SHAPE" "The shape, followed by its names" "\
One of two, levels, diamond and powerset, followed by its names: none
for two, 1 to 64 for levels, 4 for diamond, 1 to 6 for powerset. A
name begins with a letter, has at most 32 letters, digits and
underscores, and isn't a keyword." } },
    subcommand! { "lsp" "Serves an editor: shows errors while a source text is typed" whole "\
Serves an editor: shows errors while a source text is typed, and more.

Speaks the Language Server Protocol over standard input and standard output, to
which nothing else is written, until the editor says `exit` or standard input
ends. The lattice file of a text is the one that its first comment names, as
`# policy: FILE`, otherwise the one that --lattice gives, otherwise that of the
nearest project file vsi.toml in the folder of the text or above it. Without any
the classes are L and H, L below H. Files are read whenever the text changes. No
file is written."
    statuses "0 the editor has said `shutdown` and `exit`, 1 it hasn't, 2 usage,
4 standard input or output failed, 5 out of memory."
    example for "Neovim with a source text open"
    "  :lua vim.lsp.start({ name = 'vsi', cmd = { 'vsi', 'lsp' } })
Neovim then runs this command and sends messages to it:
  $ vsi lsp"
    { Value("FILE") "lattice" "The lattice file of texts that name none" "\
The path of the lattice file of each text whose first comment names
none. Without it such a text is judged as its project requires, or
with the classes L and H, L below H." }
    { STRICT }
    { Flag "stdio" "Changes nothing, and is there for editors that add it" "\
Changes nothing: the server always speaks over standard input and
standard output. Some editors add this option." } },
    subcommand! { "explain"
    "Explains a refusal by its number, or the language and its files" whole "\
Explains a refusal by its number, or a subject.

Prints the meaning of the refusal with this number, what to do, and an example
if the program can be made to print the refusal. A refusal is reported as a line
`refused: NUMBER NAME`, with its place or other fields after it.

The subjects are
  language   the whole language, in one program
  lattice    lattice files: the classes, and which is below which
  store      store files: the initial values of globals
  interface  interface files, for `vsi conform`
  classes    which flows are accepted, and which aren't
  profiles   base, strict and steady"
    statuses "0 printed, 2 usage or nothing to explain, 4 file fault, 5 out of
memory."
    example "  $ printf 'x := 1' | vsi
  refused: 19 Unbound 1:1
  $ vsi explain 19 | head -n 3
  19 Unbound LINE:COLUMN

  The name at LINE:COLUMN isn't declared there."
    { Place "WHAT" "The number of a refusal, or a subject" "\
The number after `refused:`, in digits alone, or one of the subjects
language, lattice, store, interface, classes and profiles." } },
];
