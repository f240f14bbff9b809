// Texts put behind others: bytes, decimals, and lines of a word and numbers.
ghost use Rattle.std.specs.Prelude.{◌+◌, ◌*◌, ◌≤◌, length};
ghost use Rattle.text.specs.Putting.{number_most, decimal, numbers_text, line_need, line_text, lines_text, rows_in, said};

use crate::texts::Text;
use itoa::Buffer;

// The bytes of another text.
pub fn put_text<T: Text>(text: &mut T, more: &[u8])
    requires { T.at text.old + length more.now ≤ T.most text.old }
    ensures { T.Puts text.old more.now text.new }
{
    text.put(more);
}

// The decimals of a number.
#[tactic(auto, using(crate::proofs::PutTurns::decimal_std))]
pub fn put_number<T: Text>(text: &mut T, n: u32)
    requires { T.at text.old + number_most ≤ T.most text.old }
    ensures put { T.Puts text.old (decimal n) text.new }
    ensures fits { T.at text.new ≤ T.at text.old + number_most }
{
    put_text(text, Buffer::new().format(n).as_bytes());
}

// Numbers, each behind a space.
pub fn put_numbers<T: Text>(text: &mut T, numbers: &[u32])
    requires { T.at text.old + (1 + number_most) * length numbers.now ≤ T.most text.old }
    ensures put { T.Puts text.old (numbers_text numbers.now) text.new }
    ensures fits { T.at text.new ≤ T.at text.old + (1 + number_most) * length numbers.now }
{
    for &n in numbers {
        text.put_byte(b' ');
        put_number(text, n);
    }
}

// A line: a word and numbers.
#[tactic(auto, unfolding(crate::specs::Putting::line_text))]
pub fn put_line<T: Text>(text: &mut T, word: &[u8], numbers: &[u32])
    requires { T.at text.old + line_need (length word.now) (length numbers.now) ≤ T.most text.old }
    ensures put { T.Puts text.old (line_text word.now numbers.now) text.new }
    ensures fits { T.at text.new ≤ T.at text.old + line_need (length word.now) (length numbers.now) }
{
    put_text(text, word);
    put_numbers(text, numbers);
    text.put_byte(b'\n');
}

// A line of a row. That it has so many numbers is known of one row by its type, but not of a slice's elements.
fn put_row<T: Text, const WIDTH: usize>(text: &mut T, word: &[u8], row: &[u32; WIDTH])
    requires { T.at text.old + line_need (length word.now) WIDTH ≤ T.most text.old }
    ensures put { T.Puts text.old (line_text word.now row.now) text.new }
    ensures fits { T.at text.new ≤ T.at text.old + line_need (length word.now) WIDTH }
{
    put_line(text, word, row);
}

// A line for each row of a table.
pub fn put_lines<T: Text, const WIDTH: usize>(text: &mut T, word: &[u8], table: &[[u32; WIDTH]])
    requires { T.at text.old + line_need (length word.now) WIDTH * length table.now ≤ T.most text.old }
    ensures put { T.Puts text.old (lines_text word.now table.now) text.new }
    ensures fits { T.at text.new ≤ T.at text.old + line_need (length word.now) WIDTH * length table.now }
{
    for row in table {
        put_row(text, word, row);
    }
}

// A line for each of the first n rows of a table, whose rows are of so many numbers, known only as the program runs: of none too,
// which `chunks_exact` would not take.
pub fn put_rows<T: Text>(text: &mut T, word: &[u8], table: &[u32], width: usize, n: usize)
    requires room { T.at text.old + line_need (length word.now) width * n ≤ T.most text.old }
    requires rows { width * n ≤ length table.now }
    ensures put { T.Puts text.old (lines_text word.now (rows_in width table.now 0 n)) text.new }
    ensures fits { T.at text.new ≤ T.at text.old + line_need (length word.now) width * n }
{
    for row in 0..n {
        let from = width * row;
        put_line(text, word, &table[from..from + width]);
    }
}

// A line of a word and one number.
pub fn put_said<T: Text>(text: &mut T, word: &[u8], n: u32)
    requires { T.at text.old + line_need (length word.now) 1 ≤ T.most text.old }
    ensures put { T.Puts text.old (said word.now n) text.new }
    ensures fits { T.at text.new ≤ T.at text.old + line_need (length word.now) 1 }
{
    put_line(text, word, &[n]);
}
