// How a caller with lent arrays has the lines of an input gathered in one of them and answered in the other, whatever it says of
// how much of the line's array is used: past its end that is all of it. Lines and replies in an `ArrayVec` the program has.
ghost use Rattle.std.specs.Prelude.{◌≡◌, ◌+◌, ◌-◌, ◌≤◌, cond, eqb, length, take, Some, None};
ghost use Rattle.text.specs.Gathering.{gather, fitting, behind_lf, Took};
ghost use Rattle.text.specs.Texts.{Put};
ghost use Rattle.rules.specs.World.{bundle};
ghost use Rattle.reading.specs.Reading.{line_most, room_most};
ghost use Rattle.replies.specs.Printing.{reply_most};
ghost use Rattle.answering.specs.Answering.{left, answered, silent};
ghost use Rattle.lines.specs.Serving.{served};

use crate::serving::{finish, serve};
use answering::{OUTPUT, REPLY, answer_line};
use reading::BUFFER;
use rules::Session;
use sheets::layout::{LISTS, ROW};
use std::test::Fail;
use text::texts::Placed;

// How much of the line's array is used, the bytes of the reply, and what is left of the input.
#[derive(Clone, Copy)]
struct Served<'i> {
    have: usize,
    bytes: usize,
    rest: Option<&'i [u8]>,
}

fn serve_at<'i>(
    state: &mut Option<Session>,
    line: &mut [u8; BUFFER],
    have: usize,
    input: &'i [u8],
    a: &mut [u32],
    b: &mut [u32],
    probe: &mut [u32],
    out: &mut [u32; OUTPUT],
    reply: &mut [u8; REPLY],
) -> Served<'i>
    ensures says { let x = served (gather line_most (take have line.old) input.now) state.old (bundle a.old b.old probe.old) out.old in
        (left state.new (bundle a.new b.new probe.new) out.new x.text ≡ x) × Put reply.old 0 x.text result.bytes reply.new × (result.bytes ≤ reply_most room_most) }
    ensures line { Put line.old have (fitting (line_most - have) input.now) (have + length (fitting (line_most - have) input.now)) line.new }
    ensures have { result.have ≡ elim (behind_lf input.now) [ Some rest ↦ 0 | None ↦ have + length (fitting (line_most - have) input.now) ] }
    ensures rest { Took (gather line_most (take have line.old) input.now) result.rest }
{
    let mut text = Placed {
        buf: line,
        at: have,
    };
    let mut said = Placed { buf: reply, at: 0 };
    let rest = serve(state, &mut text, input, a, b, probe, out, &mut said);
    Served {
        have: text.at,
        bytes: said.at,
        rest,
    }
}

// Where some are said to be used and there are none, the line is an empty one.
fn finish_at(
    state: &mut Option<Session>,
    line: &[u8],
    have: usize,
    a: &mut [u32],
    b: &mut [u32],
    probe: &mut [u32],
    out: &mut [u32; OUTPUT],
    reply: &mut [u8; REPLY],
) -> usize
    ensures { let x = cond (eqb have 0) (silent state.old (bundle a.old b.old probe.old) out.old) (answered (take have line.now) state.old (bundle a.old b.old probe.old) out.old) in
        (left state.new (bundle a.new b.new probe.new) out.new x.text ≡ x) × Put reply.old 0 x.text result reply.new × (result ≤ reply_most room_most) }
{
    let mut said = Placed { buf: reply, at: 0 };
    let used = &line[..have.min(line.len())];
    if have != 0 && used.is_empty() {
        answer_line(state, used, a, b, probe, out, &mut said);
    } else {
        finish(state, used, a, b, probe, out, &mut said);
    }
    said.at
}

// What a caller lends, for a session of one row a source.
#[derive(Drop)]
struct Desk {
    state: Option<Session>,
    line: [u8; BUFFER],
    a: [u32; ROW],
    b: [u32; ROW],
    probe: [u32; LISTS],
    out: [u32; OUTPUT],
    reply: [u8; REPLY],
}

impl Desk {
    fn new() -> Desk {
        Desk {
            state: None,
            line: [b'.'; BUFFER],
            a: [0; ROW],
            b: [0; ROW],
            probe: [0; LISTS],
            out: [0; OUTPUT],
            reply: [b'.'; REPLY],
        }
    }

    fn look<'i>(&mut self, have: usize, input: &'i [u8]) -> Served<'i> {
        serve_at(
            &mut self.state,
            &mut self.line,
            have,
            input,
            &mut self.a,
            &mut self.b,
            &mut self.probe,
            &mut self.out,
            &mut self.reply,
        )
    }

    fn end(&mut self, have: usize) -> usize {
        finish_at(
            &mut self.state,
            &self.line,
            have,
            &mut self.a,
            &mut self.b,
            &mut self.probe,
            &mut self.out,
            &mut self.reply,
        )
    }

    fn end_none(&mut self, have: usize) -> usize {
        finish_at(
            &mut self.state,
            b"",
            have,
            &mut self.a,
            &mut self.b,
            &mut self.probe,
            &mut self.out,
            &mut self.reply,
        )
    }
}

fn is_served(served: Served, have: usize, bytes: usize, rest: Option<&[u8]>) -> bool {
    served.have == have && served.bytes == bytes && served.rest == rest
}

#[test]
fn lines_at_a_place() -> Result<(), Fail> {
    let mut desk = Desk::new();
    desk.line[..4].copy_from_slice(b"STAR");
    let start = desk.look(4, b"T,1,1,1\nA,1,7,12");
    let ok = is_served(start, 0, 5, Some(b"A,1,7,12")) && desk.reply.starts_with(b"OK 0\n..");
    let begun = is_served(desk.look(0, b"A,1,7,12"), 8, 0, None);
    let over = desk.line.starts_with(b"A,1,7,121,1..");
    let taken = desk.end(8) == 5 && desk.a[0] == 1007012;
    Ok(
        (ok && begun && over && taken)
            .then_some(())
            .ok_or("another line, reply, place or rest")?,
    )
}

// 81 bytes are a bad line, however many there are said to be, and what comes behind them is dropped. So are none, if some are said to be used.
#[test]
fn lines_past_the_end() -> Result<(), Fail> {
    let mut desk = Desk::new();
    let silent = is_served(desk.look(200, b"LONG"), 200, 0, None);
    let told = desk.end(200) == 5 && desk.reply.starts_with(b"NO 9\n..");
    desk.reply = [b'.'; REPLY];
    let ended = is_served(desk.look(200, b"LONG\nSTART"), 0, 5, Some(b"START"));
    let again = desk.reply.starts_with(b"NO 9\n..") && desk.line == [b'.'; BUFFER];
    let empty = desk.end_none(0) == 0 && desk.end_none(3) == 5;
    Ok(
        (silent && told && ended && again && empty)
            .then_some(())
            .ok_or("another line, reply, place or rest")?,
    )
}
