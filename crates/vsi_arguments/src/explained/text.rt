//! The pages of the refusals of a text for its tokens and its tree, and of a program for its names,
//! its size and its flows.

use crate::explained::pages;

/// The pages of the refusals from 11 on, and that of 25.
pub(crate) const TEXT: [&str; 13] = pages! {
    { "11 TooLong

The source text has more than 1048576 bytes. Nothing else in it was checked.

What to do: check that the file is the one you meant. A long table of numbers
can come in through globals of a store file.

  $ head -c 1048577 /dev/zero | vsi
  refused: 11 TooLong
  [1]" }
    { "12 BadByte LINE:COLUMN

No token, blank or comment begins with the byte at LINE:COLUMN. Columns count
bytes from 1.

What to do: the language has the symbols := : ; + - * = < ( ) { } and no
others. Write `1 - a` for not-a where a is 0 or 1, `b < a` for a > b,
`1 - (b < a)` for a <= b, and `a * b` for a and b where both are 0 or 1.
There is no division. A comment begins with `#`. A quote, a letter with an
accent or a byte order mark may have come in by copying.

  $ printf 'var x : L; x := x > 1' | vsi
  refused: 12 BadByte 1:19
  [1]" }
    { "13 BadWord LINE:COLUMN

The token at LINE:COLUMN isn't a name, a keyword or a number.

What to do: a name begins with a letter, continues with letters, digits and `_`,
and has at most 32 of them. A number is digits alone: no `1_000`, no `0x1F`.

  $ printf 'var x : L; x := 1_000' | vsi
  refused: 13 BadWord 1:17
  [1]" }
    { "14 BadNumber LINE:COLUMN

The number at LINE:COLUMN is above 9223372036854775807, the largest one.

What to do: use a smaller number. Numbers are from -9223372036854775808 to
9223372036854775807; one below 0 is written as `0 - 5`.

  $ printf 'var x : L; x := 9223372036854775808' | vsi
  refused: 14 BadNumber 1:17
  [1]" }
    { "15 Unexpected LINE:COLUMN

The token at LINE:COLUMN can't be there, or the text ends there before the
program is complete.

What to do: look at that place and at what comes before it. The most common
causes: a `;` after the last command, or before `}` or `else` (it goes between
two commands only); an `if` without `else`; no `;` after a `var` line; `=` in
place of `:=`; a minus sign before a number (write `0 - 1`); more than one
command after `then`, `else`, `do` or `in` without { } around them; a `var`
after the first command; an empty { }; a comparison of a comparison without
brackets; a program without a command.

  $ printf 'var x : L; x := 1;' | vsi
  refused: 15 Unexpected 1:19
  [1]
  $ printf 'var x : L; if x then x := 0' | vsi
  refused: 15 Unexpected 1:28
  [1]
  $ printf 'var x : L; x = 1' | vsi
  refused: 15 Unexpected 1:14
  [1]
  $ printf 'var x : L; x := -1' | vsi
  refused: 15 Unexpected 1:17
  [1]" }
    { "16 TooDeep LINE:COLUMN

At LINE:COLUMN the program is nested more than 200 deep: in brackets, blocks,
`if`, `while` and `letvar`, and in chains of operators.

What to do: put a part into a variable of its own: by `letvar part := .. in ..`
where the nesting is less deep, or by an assignment before it. A sum of more
than 200 parts needs two assignments.

  $ printf 'var x : L; x := %s' $(printf '%0201d' 0 | tr 0 '(') | vsi
  refused: 16 TooDeep 1:217
  [1]" }
    { "17 Duplicate LINE:COLUMN

The global at LINE:COLUMN has the name of an earlier global.

What to do: leave one out, or give it another name. A `letvar` may repeat the
name of a global, which isn't visible inside the `letvar`.

  $ printf 'var x : L; var x : H; x := 1' | vsi
  refused: 17 Duplicate 1:16
  [1]" }
    { "18 UnknownClass LINE:COLUMN

The class at LINE:COLUMN isn't in the lattice.

What to do: use a class of the lattice file, or add this one there. Without a
lattice file, as in `vsi < text`, the classes are L and H. Upper and lower case
differ.

  $ printf 'var x : Low; x := 1' | vsi
  refused: 18 UnknownClass 1:9
  [1]" }
    { "19 Unbound LINE:COLUMN

The name at LINE:COLUMN isn't declared there.

What to do: declare it at the head, `var NAME : CLASS;`, or by a `letvar` around
the place; or fix its spelling. A `letvar x := e in c` declares `x` in `c` only:
not in `e`, and not after a `;` that follows. If `c` is several commands, write
{ } around them.

  $ printf 'var x : L; letvar y := 1 in x := y; x := y' | vsi
  refused: 19 Unbound 1:42
  [1]" }
    { "20 TooManyGlobals LINE:COLUMN

The global at LINE:COLUMN is the 257th.

What to do: use `letvar` for values that aren't needed at the end of the run.

  $ (seq -f 'var x%g : L;' 257; printf 'x1 := 1') | vsi
  refused: 20 TooManyGlobals 257:5
  [1]" }
    { "21 TooManyDeclarations LINE:COLUMN

The declaration at LINE:COLUMN is the 1025th, globals and `letvar`s together.

What to do: reuse a local variable whose earlier value isn't needed any more.

  $ seq -f 'letvar v%g := 0 in x := 1;' 1024 > lines
  $ (printf 'var x : L;\\n'; cat lines; printf 'x := 1') | vsi
  refused: 21 TooManyDeclarations 1025:8
  [1]" }
    { "22 TooLarge

The size of the program is above 65534. A number, a name that is read, an
operator, an assignment and a `letvar` count 1 each, an `if` or a `while` 2.

What to do: put repeated commands into a loop, or split the program in two.

  $ (printf 'var x : L;\\n'; seq -f 'x := %g;' 32767; printf 'x := 1') | vsi
  refused: 22 TooLarge
  [1]" }
    { "25 Refused

Information could flow from a variable to one whose class isn't at or above
its own. The lines below the first show how, step by step: where a name is
read, where its information goes, by which rule, and where that is written. The
last line names both ends. The rules:

- ASSIGN: the name is in the value that is assigned.
- LETVAR: the name is in the initial value of a local variable.
- IF: the name is in a guard, and the assignment in one of its branches, so the
  branch that runs reveals something about the guard.
- WHILE: the same for the guard and the body of a loop.
- LOOP, under --strict: the name is in the guard of a loop, or in a guard around
  a loop, so whether the run ends reveals something about it.

What to do: break one of the steps. Move the assignment out of the branch, or
compute its value from variables that may flow there; replace a local variable
in the middle of the chain by two, one for each use; or raise the class of the
variable at the end, if the policy allows that. Don't lower the class of the
first one: it says what must stay secret. The text is judged, not a run: a flow
in a branch that never runs counts too, and so does one that a later assignment
overwrites.

  $ printf 'var h : H; var l : L; if h then l := 1 else l := 0' | vsi
  refused: 25 Refused
  1:26 h flows to l by IF at 1:33
  h : H may not flow to l : L
  [1]" }
};
