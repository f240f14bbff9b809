// What an answer is printed as, as bytes put into a text.
#![tactic(auto)]

ghost use Rattle.std.specs.Prelude.{◌≡◌, ◌+◌, ◌≤◌, length};
ghost use Rattle.sheets.specs.Layout.{pairs_need, singles_need};
ghost use Rattle.replies.specs.Printing.{code_of, no_text, answer_most, answer_text, pairs_of, singles_of, written_of, reply_most, reply_text};

use rules::{Answer, Why};
use sheets::layout::{PAIR, SINGLE};
use text::putting::{put_line, put_lines, put_said};
use text::texts::Text;

// The number that document 01 gives a refusal. No `From`: it would stand in `rules`, which holds types alone.
pub fn code_of(why: Why) -> u32
    ensures { result ≡ code_of why }
{
    match why {
        Why::BadSheet => 1,
        Why::BadKey => 2,
        Why::BadPart => 3,
        Why::Closed => 4,
        Why::SheetFull => 5,
        Why::ListFull => 6,
        Why::StillOpen => 7,
        Why::RoomShort(_) => 8,
        Why::BadLine => 9,
        Why::NoStart => 10,
    }
}

// A refusal: its number, and the count that it names, where it names one.
fn put_no<T: Text>(text: &mut T, why: Why)
    requires { T.at text.old + answer_most ≤ T.most text.old }
    ensures put { T.Puts text.old (no_text why) text.new }
    ensures fits { T.at text.new ≤ T.at text.old + answer_most }
{
    let code = code_of(why);
    match why {
        Why::RoomShort(need) => put_line(text, b"NO", &[code, need]),
        _ => put_said(text, b"NO", code),
    }
}

// The line of an answer.
pub fn put_answer<T: Text>(text: &mut T, answer: Answer)
    requires { T.at text.old + answer_most ≤ T.most text.old }
    ensures put { T.Puts text.old (answer_text answer) text.new }
    ensures fits { T.at text.new ≤ T.at text.old + answer_most }
{
    match answer {
        Answer::Opened | Answer::Shut => put_said(text, b"OK", 0),
        Answer::Taken(n)
        | Answer::Flushed(n)
        | Answer::Ran(n)
        | Answer::More(n)
        | Answer::MoreLone(n) => put_said(text, b"OK", n),
        Answer::Done(n) | Answer::DoneLone(n) => put_said(text, b"DONE", n),
        Answer::Refused(why) => put_no(text, why),
    }
}

// The pairs that an answer says were written.
pub fn pairs_of(answer: Answer) -> u32
    ensures { result ≡ pairs_of answer }
{
    match answer {
        Answer::Taken(n) | Answer::Ran(n) | Answer::More(n) | Answer::Done(n) => n,
        _ => 0,
    }
}

// The rows without partner that an answer says were written.
fn singles_of(answer: Answer) -> u32
    ensures { result ≡ singles_of answer }
{
    match answer {
        Answer::MoreLone(n) | Answer::DoneLone(n) => n,
        _ => 0,
    }
}

// A whole reply: the pairs, the rows without partner, then the answer.
pub fn put_reply<T: Text>(text: &mut T, out: &[u32], answer: Answer)
    requires room { T.at text.old + reply_most (written_of answer) ≤ T.most text.old }
    requires pairs { pairs_need (pairs_of answer) ≤ length out.now }
    requires singles { singles_need (singles_of answer) ≤ length out.now }
    ensures put { T.Puts text.old (reply_text out.now answer) text.new }
    ensures fits { T.at text.new ≤ T.at text.old + reply_most (written_of answer) }
{
    let (pairs, _) = out.as_chunks::<PAIR>();
    let (singles, _) = out.as_chunks::<SINGLE>();
    put_lines(text, b"PAIR", &pairs[..pairs_of(answer) as usize]);
    put_lines(text, b"LONE", &singles[..singles_of(answer) as usize]);
    put_answer(text, answer);
}
