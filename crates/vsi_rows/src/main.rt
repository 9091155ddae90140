//! Reads rows from standard input, each a call of the library with its input, and prints each
//! call's answer.
//!
//! A line that is empty or begins with `#` is printed unchanged. Any other line is a row: the name
//! of a call, its fields and the text, each after a space. `calls` lists the calls by name, and the
//! comment of a call describes its fields and its answer. The row is printed too, followed by the
//! lines of the answer, each after two spaces. The file `stdout` has the expected answer of each
//! row; `row` defines the notation for texts.
//!
//! To add a row, write it into `stdin`, and write it into `stdout` with the answer that the
//! language's pages define, worked by hand; `rt run < stdin` should then print `stdout`. Where a
//! command of the program shows the same answer, write a transcript in `cases` instead.
#![tactic(auto)]

mod calls;
mod compiling;
mod images;
mod lattices;
mod requests;
mod row;
mod texts;

use crate::calls::answered;
use crate::row::Row;
use std::io;

/// Prints a row and its answer.
fn show(rt: &impl Print, row: &Row<'_>) -> io::Result<()> {
    if row.answer.is_empty() {
        println!(rt; "  nothing")?;
    } else {
        let answer = row.answer.as_str();
        for line in answer.lines() {
            println!(rt; "  {line}")?;
        }
        if !answer.ends_with('\n') {
            println!(rt; "  (without a line feed)")?;
        }
    }
    match &row.wrong {
        Some(wrong) => println!(rt; "  no answer: {wrong:?}"),
        None => Ok(()),
    }
}

fn main(rt: HostRuntime) -> io::Result<()> {
    for line in rt.lines(rt.alloc()) {
        let line = line?;
        println!(rt; "{line}")?;
        if !line.is_empty() && !line.starts_with('#') {
            show(&rt, &answered(rt.alloc(), line.as_str()))?;
        }
    }
    Ok(())
}
