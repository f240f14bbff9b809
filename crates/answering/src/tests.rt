// How a caller with a lent array has a reply put into it, from its start on, over what stood there.
ghost use Rattle.std.specs.Prelude.{◌≡◌, ◌≤◌};
ghost use Rattle.text.specs.Texts.{Put};
ghost use Rattle.rules.specs.World.{bundle};
ghost use Rattle.reading.specs.Reading.{room_most};
ghost use Rattle.replies.specs.Printing.{reply_most};
ghost use Rattle.answering.specs.Answering.{left, answered};

use crate::{OUTPUT, REPLY, answer_line};
use rules::Session;
use sheets::layout::{LISTS, ROW};
use std::test::Fail;
use text::texts::Placed;

// The bytes of the reply.
fn answer_at(
    state: &mut Option<Session>,
    line: &[u8],
    a: &mut [u32],
    b: &mut [u32],
    probe: &mut [u32],
    out: &mut [u32; OUTPUT],
    reply: &mut [u8; REPLY],
) -> usize
    ensures { let x = answered line.now state.old (bundle a.old b.old probe.old) out.old in
        (left state.new (bundle a.new b.new probe.new) out.new x.text ≡ x) × Put reply.old 0 x.text result reply.new × (result ≤ reply_most room_most) }
{
    // Wherever its place is, a reply begins anew.
    let mut text = Placed {
        buf: reply,
        at: REPLY,
    };
    answer_line(state, line, a, b, probe, out, &mut text);
    text.at
}

#[test]
fn replies_at_the_start() -> Result<(), Fail> {
    let mut state = None;
    let mut a = [0; 8 * ROW];
    let mut b = [0; 8 * ROW];
    let mut probe = [0; 2 * LISTS];
    let mut out = [0; OUTPUT];
    let mut reply = [b'.'; REPLY];
    let (line, none) = (b"START,2,3,8", b"CLOSE,C");
    let begun = answer_at(
        &mut state, line, &mut a, &mut b, &mut probe, &mut out, &mut reply,
    );
    let ok = begun == 5 && reply.starts_with(b"OK 0\n..");
    let bad = answer_at(
        &mut state, none, &mut a, &mut b, &mut probe, &mut out, &mut reply,
    );
    let right = ok && bad == 5 && reply.starts_with(b"NO 9\n..");
    Ok(right.then_some(()).ok_or("another reply or place")?)
}
