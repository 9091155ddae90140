//! The pages of the refusals of an image and of a lattice file.

use crate::explained::pages;

/// The pages of the refusals from 26 on, and then of those from 49 on.
pub(crate) const IMAGE: [&str; 16] = pages! {
    { "26 Unencodable FIELD

A caller of the library has built an image that no file can hold: it has too
many globals, slots, places for operands or instructions, or a global whose name
or class isn't a valid name, or a name that is repeated. The program never
prints this, since the images that it reads come from files.

What to do: keep to 256 globals, 512 slots, 256 operands and 65535
instructions, and to names that the language allows." }
    { "27 BadMagic

The file doesn't begin with the three bytes `VSI`, so it isn't an image.

What to do: make an image with `vsi build LATTICE SOURCE IMAGE`. Perhaps a
source text was given in its place, or the files are in the wrong order.

  $ printf 'var x : L; x := 1' > text.vsi
  $ vsi list text.vsi
  refused: 27 BadMagic
  [1]" }
    { "28 BadVersion

The byte after `VSI` isn't a version that this program knows: 1 or 2.

What to do: build the image again from its source text, or use the newer
program that made it.

  $ printf 'VSI\\003' > new.image
  $ vsi list new.image
  refused: 28 BadVersion
  [1]" }
    { "29 BadField PLACE

The field of the image at byte PLACE, counted from 0, has a value above its
limit, or isn't a valid name of a global or a class, or repeats a name.

What to do: build the image again. Bytes were changed, or it was made by
another program with other limits.

  $ printf 'VSI\\002\\001\\001' > field.image
  $ vsi list field.image
  refused: 29 BadField 4
  [1]" }
    { "30 BadOpcode PLACE

No instruction begins with the byte at PLACE, counted from 0. The byte 11, MUL,
begins one only in images of version 2.

What to do: build the image again; bytes were changed.

  $ printf 'VSI\\002\\000\\000\\000\\000\\000\\000\\000\\000\\000\\001\\377' > code.image
  $ vsi list code.image
  refused: 30 BadOpcode 14
  [1]" }
    { "31 Truncated PLACE

The image ends in the middle of the field that begins at byte PLACE, counted
from 0.

What to do: copy the image again, or build it again; a part is missing.

  $ printf 'VSI\\002\\000' > short.image
  $ vsi list short.image
  refused: 31 Truncated 4
  [1]" }
    { "32 Trailing PLACE

There are bytes after the last instruction, the first of them at PLACE, counted
from 0.

What to do: build the image again. Perhaps two files were joined, or a line feed
was added.

  $ printf 'VSI\\002\\000\\000\\000\\000\\000\\000' > long.image
  $ printf '\\000\\000\\000\\001\\012\\012' >> long.image
  $ vsi list long.image
  refused: 32 Trailing 15
  [1]" }
    { "33 BadSlot NUMBER

The instruction with this number, counted from 0, reads or writes a slot that
the image doesn't have. A run could reach beyond its own memory, so the image
isn't run.

What to do: build the image again. If it came from someone else, don't trust it.

  $ printf 'VSI\\002\\000\\000\\000\\000\\000\\001' > slot.image
  $ printf '\\000\\000\\000\\002\\002\\000\\000\\012' >> slot.image
  $ vsi list slot.image
  refused: 33 BadSlot 0
  [1]" }
    { "34 BadTarget NUMBER

The instruction with this number, counted from 0, jumps to a place where there
is no instruction.

What to do: build the image again. If it came from someone else, don't trust it.

  $ printf 'VSI\\002\\000\\000\\000\\000\\000\\000' > jump.image
  $ printf '\\000\\000\\000\\002\\011\\000\\000\\000\\005\\012' >> jump.image
  $ vsi list jump.image
  refused: 34 BadTarget 0
  [1]" }
    { "35 Underflow NUMBER

The instruction with this number, counted from 0, takes more operands than are
there.

What to do: build the image again. If it came from someone else, don't trust it.

  $ printf 'VSI\\002\\000\\000\\000\\000\\000\\001' > under.image
  $ printf '\\000\\000\\000\\002\\004\\012' >> under.image
  $ vsi list under.image
  refused: 35 Underflow 0
  [1]" }
    { "36 Overflow NUMBER

After the instruction with this number, counted from 0, there are more operands
than the image has places for.

What to do: build the image again. If it came from someone else, don't trust it.

  $ printf 'VSI\\002\\000\\000\\000\\000\\000\\000' > over.image
  $ printf '\\000\\000\\000\\002\\001' >> over.image
  $ printf '\\000\\000\\000\\000\\000\\000\\000\\001\\012' >> over.image
  $ vsi list over.image
  refused: 36 Overflow 0
  [1]" }
    { "37 NotEmpty NUMBER

Operands are left on the stack at the jump or the HALT with this number, counted
from 0, or at the place that it jumps to.

What to do: build the image again. If it came from someone else, don't trust it.

  $ printf 'VSI\\002\\000\\000\\000\\000\\000\\001' > left.image
  $ printf '\\000\\000\\000\\002\\001' >> left.image
  $ printf '\\000\\000\\000\\000\\000\\000\\000\\001\\012' >> left.image
  $ vsi list left.image
  refused: 37 NotEmpty 1
  [1]" }
    { "38 RunsOff

The image has no instruction, or a run could go on past its last one, which is
neither HALT nor JMP.

What to do: build the image again. If it came from someone else, don't trust it.

  $ printf 'VSI\\002\\000\\000\\000\\000\\000\\000\\000\\000\\000\\000' > none.image
  $ vsi list none.image
  refused: 38 RunsOff
  [1]" }
    { "49 NoCommands NUMBER

The image is valid, but no commands of the language can be read back from its
code: the instruction with this number doesn't fit. So `vsi audit` and `vsi
source` have nothing to judge or to print.

What to do: ask for an image that a compiler of this language made, or for the
source text. `vsi audit --steady` judges the code itself.

  $ printf 'VSI\\002\\000\\000\\000\\000\\000\\000' > loop.image
  $ printf '\\000\\000\\000\\001\\011\\000\\000\\000\\000' >> loop.image
  $ vsi source loop.image
  refused: 49 NoCommands 0
  [1]" }
    { "50 WrongFields

The image is valid and its commands were read back, but its number of slots or
of places for operands isn't the one that its commands need. `vsi source` prints
its commands all the same.

What to do: ask for an image as a compiler of this language makes it.

  $ printf 'VSI\\002\\000\\000\\000\\001\\000\\001\\000\\000\\000\\001\\012' > wide.image
  $ printf 'classes = [\"L\", \"H\"]\\nbelow = [[\"L\", \"H\"]]\\n' > two.toml
  $ vsi audit two.toml wide.image
  refused: 50 WrongFields
  [1]" }
    { "51 NoText

The commands of the image have no source text within the limits on texts: it
would be too long, too deep or too large.

What to do: `vsi list IMAGE` prints the instructions, and `vsi audit` judges the
image all the same." }
};

/// The pages of the refusals from 1 on.
pub(crate) const LATTICE: [&str; 10] = pages! {
    { "1 NotToml

The lattice file isn't a TOML document: a quote or a bracket isn't closed, a key
is given twice, or it isn't a TOML file at all.

What to do: compare it with the file that the last line of the example below
writes. Perhaps the files are in the wrong order: the lattice file comes before
the source text.

  $ printf 'classes = [\"L\", \"H\"\\nbelow = [[\"L\", \"H\"]]\\n' > open.toml
  $ vsi check open.toml text.vsi
  refused: 1 NotToml
  [1]
  $ printf 'classes = [\"L\", \"H\"]\\nbelow = [[\"L\", \"H\"]]\\n' > two.toml" }
    { "2 BadShape

The lattice file is a TOML document, but it doesn't have exactly the two keys
`classes`, an array of strings, and `below`, an array of pairs of strings.

What to do: write both keys, even if no class is below another, and no third
one. Each pair has two strings, the lower class first. A store file in place of
a lattice file is also refused with this number.

  $ printf 'classes = [\"L\"]\\n' > shape.toml
  $ vsi check shape.toml text.vsi
  refused: 2 BadShape
  [1]" }
    { "3 NoClass

The list of classes is empty. Each variable has a class, so there must be at
least one.

What to do: name the classes of your policy in `classes`.

  $ printf 'classes = []\\nbelow = []\\n' > empty.toml
  $ vsi check empty.toml text.vsi
  refused: 3 NoClass
  [1]" }
    { "4 TooManyClasses

There are more than 64 classes.

What to do: leave out classes that no program uses, or give one name to
classes that the policy treats alike.

  $ seq -s, -f '\"C%g\"' 65 > names
  $ (printf 'below = []\\nclasses = ['; cat names; printf ']') > many.toml
  $ vsi check many.toml text.vsi
  refused: 4 TooManyClasses
  [1]" }
    { "5 BadName NUMBER

A class has a name that isn't valid. NUMBER counts the classes from 0.

What to do: begin the name with a letter, continue with letters, digits and `_`,
at most 32 characters in all, and don't use a keyword of the language (var,
letvar, in, if, then, else, while, do).

  $ printf 'classes = [\"L\", \"7up\"]\\nbelow = []\\n' > name.toml
  $ vsi check name.toml text.vsi
  refused: 5 BadName 1
  [1]" }
    { "6 DuplicateName NUMBER

A class has the name of an earlier class in the list. NUMBER is that of the
second one, counted from 0.

What to do: leave out one of the two, or give it a name of its own. Upper and
lower case differ: `l` and `L` are two names.

  $ printf 'classes = [\"L\", \"L\"]\\nbelow = []\\n' > twice.toml
  $ vsi check twice.toml text.vsi
  refused: 6 DuplicateName 1
  [1]" }
    { "7 UnknownName NUMBER

A pair of `below` names a class that isn't in `classes`. NUMBER counts the
pairs from 0.

What to do: add the class to `classes`, or fix its spelling in the pair.

  $ printf 'classes = [\"L\", \"H\"]\\nbelow = [[\"L\", \"M\"]]\\n' > pair.toml
  $ vsi check pair.toml text.vsi
  refused: 7 UnknownName 0
  [1]" }
    { "8 Cycle NUMBER NUMBER

Two different classes are each below the other, by one pair or by several. The
numbers count the classes from 0.

What to do: decide which of the two is the lower one, and remove the pairs that
lead the other way from `below`. If information may flow both ways, declare one
class in place of the two.

  $ printf 'classes = [\"L\", \"H\"]\\n' > round.toml
  $ printf 'below = [[\"L\", \"H\"], [\"H\", \"L\"]]\\n' >> round.toml
  $ vsi check round.toml text.vsi
  refused: 8 Cycle 0 1
  [1]" }
    { "9 NoJoin NUMBER NUMBER

Two classes have no least class above both, so there is no class for a value
made from both. The numbers count the classes from 0.

What to do: declare a class above both. If several classes are above both, one
of them must be below all the others. Often a class `Top` above all classes is
enough.

  $ printf 'classes = [\"A\", \"B\"]\\nbelow = []\\n' > apart.toml
  $ vsi check apart.toml text.vsi
  refused: 9 NoJoin 0 1
  [1]" }
    { "10 NoMeet NUMBER NUMBER

Two classes have no greatest class below both, so there is no class for a
command that writes variables of both. The numbers count the classes from 0.

What to do: declare a class below both. If several classes are below both, one
of them must be above all the others. Often a class `Bottom` below all classes
is enough.

  $ printf 'classes = [\"A\", \"B\", \"C\"]\\n' > roof.toml
  $ printf 'below = [[\"A\", \"C\"], [\"B\", \"C\"]]\\n' >> roof.toml
  $ vsi check roof.toml text.vsi
  refused: 10 NoMeet 0 1
  [1]" }
};
