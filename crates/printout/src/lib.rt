// What is printed: an answer, a session record and every word of the sheets, each as a line of a word and numbers. What a failed
// write leaves is the writer's: it may have some of the bytes. Nothing else is changed, and there is no other error.
#![tactic(auto)]

ghost use Rattle.std.specs.Prelude.{◌≡◌, ◌≤◌, ◌++◌, length, OnOk};
ghost use Rattle.std.specs.Io.KnownBytes.{Appends};
ghost use Rattle.text.specs.Putting.{LF, numbers_text, line_text};
ghost use Rattle.printout.specs.Printed.{BAD, told_of, answer_line, session_line, reply_lines};

use arrayvec::ArrayVec;
use replies::code_of;
use rules::{Answer, Reply, Session, Why};
use std::io;
use std::io::Write;
use text::putting::put_numbers;

// The numbers that are put into a buffer and written at a time, each with a space and ten digits at most.
const PIECE: usize = 256;

const TEXT: usize = 11 * PIECE;

pub fn print_bad<W: Write>(out: &mut W) -> io::Result<()>
    ensures { OnOk result (Appends (W.contents out.old) (W.contents out.new) (BAD ++ LF)) }
{
    out.write_all(b"BAD\n")
}

fn print_piece<W: Write>(out: &mut W, numbers: &[u32]) -> io::Result<()>
    requires { length numbers.now ≤ PIECE }
    ensures { OnOk result (Appends (W.contents out.old) (W.contents out.new) (numbers_text numbers.now)) }
{
    let mut text = ArrayVec::<u8, TEXT>::new();
    put_numbers(&mut text, numbers);
    out.write_all(text.as_slice())
}

// Numbers, each after a space. Not one with text's put_numbers, by which it puts each piece: that puts into a text with room and cannot fail;
// this writes, may fail, and says nothing where the writer's bytes are unknown.
fn print_numbers<W: Write>(out: &mut W, numbers: &[u32]) -> io::Result<()>
    ensures { OnOk result (Appends (W.contents out.old) (W.contents out.new) (numbers_text numbers.now)) }
{
    for piece in numbers.chunks(PIECE) {
        print_piece(out, piece)?;
    }
    Ok(())
}

pub fn print_line<W: Write>(out: &mut W, word: &[u8], numbers: &[u32]) -> io::Result<()>
    ensures { OnOk result (Appends (W.contents out.old) (W.contents out.new) (line_text word.now numbers.now)) }
{
    out.write_all(word)?;
    print_numbers(out, numbers)?;
    out.write_all(b"\n")
}

// An answer's kind, and its own number; a refusal's is its code. The line has numbers alone, so it is a number that tells the kind.
fn told_of(answer: Answer) -> (u32, u32)
    ensures { result ≡ told_of answer }
{
    match answer {
        Answer::Opened => (0, 0),
        Answer::Taken(n) => (1, n),
        Answer::Flushed(n) => (2, n),
        Answer::Ran(n) => (3, n),
        Answer::Shut => (4, 0),
        Answer::More(n) => (5, n),
        Answer::Done(n) => (6, n),
        Answer::MoreLone(n) => (7, n),
        Answer::DoneLone(n) => (8, n),
        Answer::Refused(why) => (9, code_of(why)),
    }
}

// The answer, with the count that a refusal needs where it names one.
fn print_answer<W: Write>(out: &mut W, answer: Answer) -> io::Result<()>
    ensures { OnOk result (Appends (W.contents out.old) (W.contents out.new) (answer_line answer)) }
{
    let (kind, n) = told_of(answer);
    if let Answer::Refused(Why::RoomShort(need)) = answer {
        return print_line(out, b"ANSWER", &[kind, n, need]);
    }
    print_line(out, b"ANSWER", &[kind, n])
}

// A record's numbers, in the order of a case.
fn print_session<W: Write>(out: &mut W, session: Session) -> io::Result<()>
    ensures { OnOk result (Appends (W.contents out.old) (W.contents out.new) (session_line session)) }
{
    out.write_all(b"SESSION")?;
    print_numbers(
        out,
        &[
            session.parts,
            session.slots,
            session.limit,
            session.clock,
            session.feeds.a.rows,
            session.feeds.b.rows,
            u32::from(session.feeds.a.closed),
            u32::from(session.feeds.b.closed),
        ],
    )?;
    print_numbers(out, &session.counts)?;
    print_numbers(out, &[session.next, session.lone.a, session.lone.b])?;
    out.write_all(b"\n")
}

// The answer and the record that a call handed back.
pub fn print_reply<W: Write>(out: &mut W, reply: Reply) -> io::Result<()>
    ensures { OnOk result (Appends (W.contents out.old) (W.contents out.new) (reply_lines reply)) }
{
    print_answer(out, reply.answer)?;
    print_session(out, reply.session)
}
