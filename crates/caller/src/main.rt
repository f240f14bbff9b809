// The call program, for tests: each line of standard input is a call with a record and sheets, all as numbers. It performs the
// call by crates/calls and prints the answer, the record and every word of every sheet, so that any record and any sheet can
// be tried. A line that is no case is answered by BAD. A line ends at LF or at the end of the input, an empty rest giving none.
#![tactic(auto)]

use crate::cases::Case;
use crate::numbers::Line;
use printout::print_bad;
use std::io;
use std::io::{Read, Write};

mod cases;
mod numbers;

// The case of a line, which ends here, if it is one.
fn case_of(line: &mut Line) -> Option<Case<'_>> {
    Case::of(line.end()?)
}

// Answers the line, which ends here, and begins the next one.
fn answer_line(to: &mut impl Write, line: &mut Line) -> io::Result<()> {
    match case_of(line) {
        Some(case) => case.answer(to)?,
        None => print_bad(to)?,
    }
    line.clear();
    Ok(())
}

// Answers each line that ends in the chunk, and keeps the rest: the line that is begun after it.
fn feed(to: &mut impl Write, line: &mut Line, chunk: &[u8]) -> io::Result<()> {
    for &byte in chunk {
        if byte == b'\n' {
            answer_line(to, line)?;
        } else {
            line.take_byte(byte);
        }
    }
    Ok(())
}

// The end of the input: a rest without LF is a line too, and an empty rest is none.
fn finish(to: &mut impl Write, line: &mut Line) -> io::Result<()> {
    if !line.is_empty() {
        answer_line(to, line)?;
    }
    Ok(())
}

// Answers the whole input. A proved loop has to end, and nothing says that the input does: it takes as many turns as no run
// uses up.
fn main(rt: HostRuntime) -> io::Result<()> {
    let mut from = rt.stdin();
    let mut to = rt.stdout();
    let mut line = Line::new();
    let mut chunk = [0u8; 4096];
    for _ in 0..u64::MAX {
        let count = from.read(&mut chunk)?;
        if count == 0 {
            return finish(&mut to, &mut line);
        }
        feed(&mut to, &mut line, &chunk[..count])?;
    }
    Ok(())
}
