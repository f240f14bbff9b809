// One line answered: what it asks for is done on the lent sheets, and its reply is put into a lent text.
#![tactic(auto)]

ghost use Rattle.std.specs.Prelude.{◌≡◌, ◌≤◌, length, Option};
ghost use Rattle.text.specs.Texts.{Anew};
ghost use Rattle.rules.specs.World.{bundle};
ghost use Rattle.reading.specs.Reading.{room_most, read_line};
ghost use Rattle.replies.specs.Printing.{reply_most};
ghost use Rattle.answering.specs.Answering.{began, turned, asks, asks_in, turn_of, left, answered};

use calls::opening::open;
use calls::performing::perform;
use reading::{Line, ROOM, read_line};
use replies::put_reply;
use rules::{Answer, Call, Reply, Session, Why};
use sheets::layout::{PAIR, SINGLE, words_of};
use text::texts::Text;

#[cfg(test)]
mod tests;

// The words of the output.
pub const OUTPUT: usize = ROOM as usize * PAIR;

// The bytes of the longest reply: 38 for each pair, which a row without partner does not use up, and 25 for the answer.
pub const REPLY: usize = 38 * ROOM as usize + 25;

// The session that a START opened goes on, or the old one where it was refused.
fn begin(state: &mut Option<Session>, reply: Reply) -> Answer
    ensures answer { result ≡ reply.answer }
    ensures state { state.new ≡ began state.old reply }
{
    if !matches!(reply.answer, Answer::Refused(_)) {
        *state = Some(reply.session);
    }
    reply.answer
}

// A call in a session; without one, before any accepted START, it is refused. The sheets and the output stay apart here and
// above: document 01 lends each as a slice, and a struct that held them would need a clause on each one's ghost name in every function.
#[tactic(auto, unfolding(crate::specs::Answering::asks))]
fn ask(
    state: &mut Option<Session>,
    call: Call,
    a: &mut [u32],
    b: &mut [u32],
    probe: &mut [u32],
    out: &mut [u32],
) -> Answer
    ensures { turned result state.new (bundle a.new b.new probe.new) out.new ≡ asks call state.old (bundle a.old b.old probe.old) out.old }
{
    let Some(session) = *state else {
        return Answer::Refused(Why::NoStart);
    };
    let reply = perform(session, call, a, b, probe, out);
    *state = Some(reply.session);
    reply.answer
}

// The same of a call that is lent the first words of the output.
#[tactic(auto, unfolding(crate::specs::Answering::asks_in))]
fn ask_in(
    state: &mut Option<Session>,
    call: Call,
    words: usize,
    a: &mut [u32],
    b: &mut [u32],
    probe: &mut [u32],
    out: &mut [u32],
) -> Answer
    requires { words ≤ length out.old }
    ensures { turned result state.new (bundle a.new b.new probe.new) out.new ≡ asks_in words call state.old (bundle a.old b.old probe.old) out.old }
{
    ask(state, call, a, b, probe, &mut out[..words])
}

// What a line is told.
fn respond(
    state: &mut Option<Session>,
    line: &[u8],
    a: &mut [u32],
    b: &mut [u32],
    probe: &mut [u32],
    out: &mut [u32; OUTPUT],
) -> Answer
    ensures { turned result state.new (bundle a.new b.new probe.new) out.new ≡ turn_of (read_line line.now) state.old (bundle a.old b.old probe.old) out.old }
{
    let Some(asked) = read_line(line) else {
        return Answer::Refused(Why::BadLine);
    };
    match asked {
        Line::Start(parts, slots, limit) => begin(state, open(parts, slots, limit, a, b, probe)),
        Line::Ask(call) => ask(state, call, a, b, probe, out),
        Line::Drain(room) => ask_in(state, Call::Drain, words_of::<PAIR>(room), a, b, probe, out),
        Line::Lone(source, room) => {
            let words = words_of::<SINGLE>(room);
            ask_in(state, Call::Lone(source), words, a, b, probe, out)
        }
    }
}

// Does what a line asks for, and leaves its reply alone in the text.
pub fn answer_line<R: Text>(
    state: &mut Option<Session>,
    line: &[u8],
    a: &mut [u32],
    b: &mut [u32],
    probe: &mut [u32],
    out: &mut [u32; OUTPUT],
    reply: &mut R,
)
    requires { reply_most room_most ≤ R.most reply.old }
    ensures says { left state.new (bundle a.new b.new probe.new) out.new (R.held reply.new) ≡ answered line.now state.old (bundle a.old b.old probe.old) out.old }
    ensures reply { Anew R.Clears R.Puts reply.old (R.held reply.new) reply.new }
    ensures fits { R.at reply.new ≤ reply_most room_most }
{
    let answer = respond(state, line, a, b, probe, out);
    reply.clear();
    put_reply(reply, out, answer);
}
