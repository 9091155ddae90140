//! The pages of the subjects: the language, its files, and the judgements.

ghost use Rattle.std.specs.Prelude.{◌≡◌, ◌↔◌, IsSome, option_map, true};
ghost use Rattle.vsi_arguments.specs.Subjects as spec;

/// The page of a subject, by its name: a line that says what it is about, the subject by an
/// example, and a transcript. Each line ends with a line feed and has at most 80 bytes of ASCII.
pub fn subject_page(name: &[u8]) -> Option<&'static str>
    ensures known { IsSome result ↔ (spec.is_subject name.now ≡ true) }
    ensures exact { option_map (λ page. page.now) result ≡ spec.subject_page name.now }
{
    match name {
        _ if name == b"language".as_slice() => Some(LANGUAGE),
        _ if name == b"lattice".as_slice() => Some(LATTICE),
        _ if name == b"store".as_slice() => Some(STORE),
        _ if name == b"interface".as_slice() => Some(INTERFACE),
        _ if name == b"classes".as_slice() => Some(CLASSES),
        _ if name == b"profiles".as_slice() => Some(PROFILES),
        _ => None,
    }
}

/// The page of the language: a program that uses each part of it.
const LANGUAGE: &str = "The language, in a program that uses all of it

  var high : H; var low : L;        # globals come first, each with a class
  low := 1 + 2 * 3 - (4 - 5);       # no division; `0 - 1` in place of -1
  low := (1 < 2) * (low = 8);       # 1 if true, 0 if not; `*` serves as \"and\"
  if low then high := 5             # a guard is true unless it is 0
  else {                            # every `if` has an `else`
    high := 6;                      # { } enclose two commands or more
    low := 7                        # `;` goes between commands only
  };
  while 0 < high do                 # the only loop
    high := high - 1;
  letvar t := low + 1 in            # a local variable, for this one command;
    high := t * t;                  # its class is inferred
  letvar u : H := high in           # or written
    high := u + u

Numbers are whole, from -9223372036854775808 to 9223372036854775807. A name
begins with a letter and has at most 32 letters, digits and `_`. There are no
functions, arrays, strings, input or output: globals begin with the values of a
store file (`vsi explain store`), and their values at the end are the result.

  elsewhere          here
  x == 1             x = 1
  x > 1              1 < x
  x <= 1             1 - (1 < x)
  x >= 1             1 - (x < 1)
  x != 1             1 - (x = 1)
  !p, not p          1 - p              where p is 0 or 1
  p && q, p and q    (p) * (q)          where p and q are 0 or 1
  p || q, p or q     0 < (p) + (q)      where p and q are 0 or 1
  if p then x := 1   if p then x := 1 else x := x

  $ vsi explain language | sed -n '3,17p' > all.vsi
  $ vsi < all.vsi
  high = 8
  low = 1
";

/// The page of lattice files.
const LATTICE: &str = "Lattice files: the classes, and which is below which

A lattice file is a TOML file with two keys. `classes` names the classes, at
most 64 of them. `below` lists pairs of classes: the first class of a pair is
below the second one, so values may flow from it up to the second one.

  classes = [\"Public\", \"Staff\", \"Board\"]
  below = [[\"Public\", \"Staff\"], [\"Staff\", \"Board\"]]

`Public` is below `Board` too, and needs no pair for that. Two classes that
must not learn from each other are side by side, with one class below both and
one above both:

  classes = [\"Low\", \"Alice\", \"Bob\", \"High\"]
  below = [
    [\"Low\", \"Alice\"], [\"Low\", \"Bob\"], [\"Alice\", \"High\"], [\"Bob\", \"High\"],
  ]

Every two classes need a least class above both (their join), for a value made
from both, and a greatest class below both (their meet). `vsi lattice` prints
lattice files of usual shapes, and `vsi draw` makes a picture of a lattice.

  $ printf 'classes = [\"L\", \"H\"]\\nbelow = [[\"L\", \"H\"]]\\n' > two.toml
  $ printf 'var h : H; var l : L; h := l' > up.vsi
  $ vsi check two.toml up.vsi
  accepted
  $ printf 'classes = [\"A\", \"B\"]\\nbelow = []\\n' > apart.toml
  $ vsi check apart.toml up.vsi
  refused: 9 NoJoin 0 1
  [1]
";

/// The page of store files.
const STORE: &str = "Store files: the initial values of globals

A declaration has no initial value. Each global begins as 0, or with the value
that a store file or `--set` gives it. A store file is a TOML file with a line
for each global that doesn't begin as 0:

  x = 5
  y = -3

A run prints its final store in the same form, so `--out FILE` makes a file that
the next run can begin with. `--set x=7` sets one global, and takes precedence
over the file. With `--full-store` no global may be left out.

  $ printf 'classes = [\"L\", \"H\"]\\nbelow = [[\"L\", \"H\"]]\\n' > two.toml
  $ printf 'var x : L; var y : L; y := x + 1' > add.vsi
  $ vsi build two.toml add.vsi add.image
  $ printf 'x = 5\\n' > five.toml
  $ vsi run add.image --budget 100 --store five.toml
  x = 5
  y = 6
  $ vsi run add.image --budget 100 --store five.toml --set x=-7
  x = -7
  y = -6
";

/// The page of interface files.
const INTERFACE: &str = "Interface files: what `vsi conform` requires of a text

An interface is a TOML file that says which globals a text must have, of which
classes, under which profile it must be accepted, and how some runs must end:

  classes = [\"L\", \"H\"]
  below = [[\"L\", \"H\"]]
  profile = \"base\"
  globals = [[\"key\", \"H\"], [\"out\", \"L\"]]

  [[runs]]
  store = { key = 7 }
  budget = 100
  expect = { out = 3 }

`lattice = \"two.toml\"` can take the place of `classes` and `below`. The profile
is one of those of `vsi explain profiles`. With `order = \"set\"` the globals may
be in any order. With `bounded = true` the image must have a bound: `vsi bound`
must find a number of instructions within which every run halts. A run begins
with the values of `store`, and must halt within `budget` instructions with the
values of `expect`; `halts = true` in place of `expect` requires only that it
halts.

  $ vsi explain interface | sed -n '6,14s/^  //p' > asked.toml
  $ printf 'var key : H; var out : L; out := 1 + 2' > right.vsi
  $ vsi conform asked.toml right.vsi
  conforms
  $ printf 'var key : H; var out : L; out := 2' > wrong.vsi
  $ vsi conform asked.toml wrong.vsi
  run 1 out = 2, expected 3
  [1]
";

/// The page of classes and flows.
const CLASSES: &str = "Classes: what the compiler checks

The class of a variable says who may learn its value: whoever sees a class sees
the variables of that class and of the classes below it. A text is accepted only
if values flow to the same class or a higher one.

A value flows from `a` to `b` by

  b := a + 1                           the assignment
  if a then b := 1 else b := 2         the branch, since `b` shows which one ran
  while a do { b := b + 1; a := a - 1 }
                                       the loop, since `b` counts it
  letvar t := a in b := t              two steps, through `t`

The text is judged, not a run: a flow in a branch that never runs counts too.
Nothing lowers a class: there is no declassification, since a text that could
make a secret public would promise nothing. Give the result a higher class, or
compute it from variables of lower ones.

A global has the class that its declaration gives it. A `letvar` has the class
written after its name, or else the least one that fits, as `vsi classes` shows.
`vsi flows` lists which variable reaches which.

  $ printf 'var h : H; var l : L; if h < 5 then l := 1 else l := 0' | vsi
  refused: 25 Refused
  1:26 h flows to l by IF at 1:37
  h : H may not flow to l : L
  [1]
  $ printf 'var h : H; var l : L; if l < 5 then h := 1 else h := 0' | vsi
  h = 1
  l = 0
";

/// The page of the profiles.
const PROFILES: &str = "Profiles: how much of a run must reveal nothing

  base      the final values of globals, if runs halt: the default profile
  strict    also whether the run ends: no loop depends on a variable above the
            bottom class, or is under a guard that does
  steady    also how many instructions it takes: no branch depends on such a
            variable either, in the image as built

`vsi check` judges by the base profile. `--strict` selects the strict one, also
for `classes`, `flows`, `build`, `audit`, `report` and `draw`. `--steady`
selects the steady one, also for `audit`. In an interface the key `profile`
names one.

  $ printf 'classes = [\"L\", \"H\"]\\nbelow = [[\"L\", \"H\"]]\\n' > two.toml
  $ printf 'var h : H; while h do h := h - 1' > loop.vsi
  $ vsi check two.toml loop.vsi
  accepted
  $ vsi check two.toml loop.vsi --strict
  refused: 25 Refused
  1:18 h flows to (loop) by LOOP at 1:18
  h : H may not flow to (loop) : L
  [1]
  $ printf 'var h : H; var k : H; if h then k := 1 else k := 2' > branch.vsi
  $ vsi check two.toml branch.vsi --strict
  accepted
  $ vsi check two.toml branch.vsi --steady
  refused: 25 Refused
  1:26 h flows to (loop) by LOOP at 1:26
  h : H may not flow to (loop) : L
  [1]
";
