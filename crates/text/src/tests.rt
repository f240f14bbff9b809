// How a caller with a lent buffer puts a text into it, and gathers a line there. What is put behind the text of an `ArrayVec`
// the programs print.
ghost use Rattle.std.specs.Prelude.{◌+◌, ◌-◌, ◌*◌, ◌≤◌, length};
ghost use Rattle.text.specs.Gathering.{fitting, behind_lf, Lent};
ghost use Rattle.text.specs.Putting.{line_need, lines_text, rows_in};
ghost use Rattle.text.specs.Texts.{Put};

use crate::gathering::take_line;
use crate::putting::put_rows;
use crate::texts::Placed;
use std::test::Fail;

fn put_rows_at(
    buf: &mut [u8],
    at: usize,
    word: &[u8],
    table: &[u32],
    width: usize,
    n: usize,
) -> usize
    requires { (at + line_need (length word.now) width * n ≤ length buf.old) × (width * n ≤ length table.now) }
    ensures { Put buf.old at (lines_text word.now (rows_in width table.now 0 n)) result buf.new × (result ≤ at + line_need (length word.now) width * n) }
{
    let mut place = Placed { buf, at };
    put_rows(&mut place, word, table, width, n);
    place.at
}

#[test]
fn rows_at_a_place() -> Result<(), Fail> {
    let mut buf = [b'.'; 54];
    let end = put_rows_at(&mut buf, 2, b"ROW", &[7, 10, 200, 0, 5], 2, 2);
    let right = end == 21 && &buf[..24] == b"..ROW 7 10\nROW 200 0\n...".as_slice();
    Ok(right.then_some(()).ok_or("another text or place")?)
}

fn take_line_at<'i>(buf: &mut [u8], at: usize, input: &'i [u8]) -> (usize, Option<&'i [u8]>)
    ensures line { Put buf.old at (fitting (length buf.old - at) input.now) result.0 buf.new }
    ensures rest { Lent (behind_lf input.now) result.1 }
{
    let mut place = Placed { buf, at };
    let rest = take_line(&mut place, input);
    (place.at, rest)
}

#[test]
fn line_at_a_place() -> Result<(), Fail> {
    let mut buf = [b'.'; 6];
    let (begun, none) = take_line_at(&mut buf, 1, b"RO");
    let (end, rest) = take_line_at(&mut buf, begun, b"W 7 10\nROW");
    let (past, next) = take_line_at(&mut buf, 9, b"RUN\n");
    let ends = begun == 3 && end == 6 && past == 9;
    let rests = none == None && rest == Some(b"ROW".as_slice()) && next == Some(b"".as_slice());
    let right = ends && rests && &buf == b".ROW 7";
    Ok(right.then_some(()).ok_or("another line, place or rest")?)
}
