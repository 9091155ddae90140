//! The pages of the refusals of a store, of the lines and arguments that set globals, and of a
//! controller's inputs, outputs and released names.

use crate::explained::pages;

/// The pages of the refusals from 39 on, that of 56, and then of those from 60 on.
pub(crate) const STORE: [&str; 17] = pages! {
    { "39 WrongStore NUMBER

A caller of the library has started an image with a store of NUMBER words, and
the image doesn't have that many globals. The program never prints this: it
gives each global a word.

What to do: pass one word for each global, in the order of declarations." }
    { add "40 NotToml

The store file isn't a TOML document.

What to do: write a line `NAME = NUMBER` for each global that doesn't begin as
0, in the form in which the program prints a store." "
  $ printf 'x = one\\n' > store.toml
  $ vsi run add.image --budget 9 --store store.toml
  refused: 40 NotToml
  [1]" }
    { add "41 NotANumber KEY

The value of this key of the store file isn't a whole number.

What to do: write digits, after a `-` if the number is below 0, without quotes
and without a decimal point." "
  $ printf 'x = \"1\"\\n' > store.toml
  $ vsi run add.image --budget 9 --store store.toml
  refused: 41 NotANumber x
  [1]" }
    { add "42 UnknownGlobal KEY

The image has no global of this name.

What to do: see `vsi list IMAGE` for its globals; local variables aren't among
them. Upper and lower case differ." "
  $ printf 'y = 1\\n' > store.toml
  $ vsi run add.image --budget 9 --store store.toml
  refused: 42 UnknownGlobal y
  [1]" }
    { add "43 ClassNotInLattice NUMBER

A global of the image has a class that the lattice file lacks. NUMBER counts
the globals from 0.

What to do: give the lattice file with which the image was built; `vsi list
IMAGE` shows each global with its class." "
  $ printf 'classes = [\"L\"]\\nbelow = []\\n' > one.toml
  $ vsi view one.toml add.image --class L --budget 9
  refused: 43 ClassNotInLattice 1
  [1]" }
    { add "44 LineTooLong

A line of `vsi drive` has more than 65536 bytes. The image wasn't run for it,
and the store is as it was.

What to do: end each cycle's settings with a line feed, and set each global
once." "
  $ printf '%065537d\\n' 0 | vsi drive two.toml add.image --class L --budget 9
  refused: 44 LineTooLong" }
    { add "45 BadSetting NUMBER

A setting isn't of the form `NAME = NUMBER`. NUMBER counts the settings of the
line, or those of --set, from 0.

What to do: put a `=` between each name and its number; blanks around it don't
matter. Separate two settings by a blank alone." "
  $ vsi run add.image --budget 9 --set x:5
  refused: 45 BadSetting 0
  [1]" }
    { add "46 NoGlobal NUMBER

A setting doesn't name a global of the image. NUMBER counts the settings of the
line, or those of --set, from 0.

What to do: see `vsi list IMAGE` for its globals. Upper and lower case differ." "
  $ vsi run add.image --budget 9 --set y=5
  refused: 46 NoGlobal 0
  [1]" }
    { add "47 AboveClass NUMBER

A line of `vsi drive` sets a global that the class of --class can't see. NUMBER
counts the settings of the line from 0. The image wasn't run for the line.

What to do: set only globals at or below the class of --class; put the others
into the store file, once, before the drive begins." "
  $ printf 'h = 1\\n' > lines
  $ vsi drive two.toml add.image --class L --budget 9 < lines
  refused: 47 AboveClass 0" }
    { add "48 NoNumber NUMBER

The text after the `=` of a setting isn't a number. NUMBER counts the settings
of the line, or those of --set, from 0.

What to do: write digits, after a `-` if the number is below 0. A number is from
-9223372036854775808 to 9223372036854775807." "
  $ vsi run add.image --budget 9 --set x=1.5
  refused: 48 NoNumber 0
  [1]" }
    { add "56 GlobalNotNamed NUMBER

Under --full-store each global needs a value, and the one with this number,
counted from 0, is neither in the store file nor set by --set.

What to do: add the global to the store file or set it. Without --full-store it
begins as 0." "
  $ vsi run add.image --budget 9 --set x=5 --full-store
  refused: 56 GlobalNotNamed 1
  [1]" }
    { sum "60 NotAnInput NUMBER

A line of `vsi drive` sets a global that isn't named under --inputs. NUMBER
counts the settings of the line from 0. The image wasn't run for the line.

What to do: set only the inputs. If this global is one too, add its name to
--inputs." "
  $ printf 'y = 1\\nx = 5\\n' > lines
  $ vsi drive two.toml sum.image --class L --inputs y < lines
  x = 1 y = 1
  refused: 60 NotAnInput 0" }
    { sum "61 UnknownInput NUMBER

A name under --inputs isn't that of a global of the image. NUMBER counts the
names from 0.

What to do: see `vsi list IMAGE` for its globals. Write commas between the names
and nothing else. Upper and lower case differ." "
  $ vsi drive two.toml sum.image --class L --inputs y,z < sum.vsi
  refused: 61 UnknownInput 1
  [1]" }
    { sum "62 InputAboveClass NUMBER

The class of an input isn't at or below the class of --class. NUMBER counts the
names under --inputs from 0.

What to do: leave the name out of --inputs, or drive the image for a class that
may set this global." "
  $ vsi drive two.toml sum.image --class L --inputs h,y < sum.vsi
  refused: 62 InputAboveClass 0
  [1]" }
    { sum "63 UnknownOutput NUMBER

A name under --outputs isn't that of a global of the image. NUMBER counts the
names from 0.

What to do: see `vsi list IMAGE` for its globals. Write commas between the names
and nothing else. Upper and lower case differ." "
  $ vsi drive two.toml sum.image --class L --outputs X < sum.vsi
  refused: 63 UnknownOutput 0
  [1]" }
    { sum "64 OutputAboveClass NUMBER

The class of an output isn't at or below the class of --class, and the output
isn't named under --release. NUMBER counts the names under --outputs from 0.

What to do: leave the name out of --outputs. Or name it under --release, too, if
whoever reads the output may learn its value, and all that follows from it." "
  $ vsi drive two.toml sum.image --class L --outputs x,h < sum.vsi
  refused: 64 OutputAboveClass 1
  [1]" }
    { sum "65 NotAnOutput NUMBER

A name under --release isn't named under --outputs, or isn't that of a global of
the image. NUMBER counts the names under --release from 0.

What to do: add the name to --outputs if its global is to be shown; else leave
it out of --release." "
  $ vsi drive two.toml sum.image --class L --outputs x --release h < sum.vsi
  refused: 65 NotAnOutput 0
  [1]" }
};
