// An arrival: room for the row, its pairs, and the row itself.
ghost use Rattle.std.specs.Prelude.{◌≡◌, ℕ, ◌+◌, ◌≤◌, length};
ghost use Rattle.stamps.specs.Sources.{pick};
ghost use Rattle.sheets.specs.Layout.{rows_need, pairs_need};
ghost use Rattle.rules.specs.Calls.{leaves, joins, after_call};
ghost use Rattle.rules.specs.Refusals.{make_room, arrived};
ghost use Rattle.rules.specs.World.{world, store, Sheets, bundle, with_rows, given};
ghost use Rattle.rules.specs.declared.Call.TheVariants.{Arrive};
ghost use Rattle.checks.specs.Passed.{Rows, settled};

use crate::evicting::clear;
use crate::looking::RowsView;
use checks::refusals::{BoxView, settled};
use rules::{Answer, Feed, Reply, Session, Why};
use sheets::layout::{PAIR, put_row, room_in};
use sheets::rows::Victim;
use stamps::{Item, Message, Row, Source};

// Makes room by flushing the victim, if there has to be one, and hands back the session with its clock.
fn make_room(session: Session, victim: Option<Victim>, a: &mut [u32], b: &mut [u32]) -> Session
    requires { Rows session (length a.old) (length b.old) }
    ensures { (x : Sheets) → world result (with_rows a.new b.new x) ≡ make_room victim (world session (with_rows a.old b.old x)) }
{
    match victim {
        None => session,
        Some(victim) => clear(session, victim.source, victim.part, a, b).session,
    }
}

// Stores the row, and hands back the session with its clock and the row counted. Each source has an arm of its own: a choice between two
// `&mut` sheets has no name in a proof.
fn store_row(session: Session, source: Source, item: Item, a: &mut [u32], b: &mut [u32]) -> Session
    requires { Rows session (length a.old) (length b.old) × (rows_need ((pick source session.feeds.a session.feeds.b).rows + 1) ≤ length (pick source a.old b.old)) }
    ensures { (x : Sheets) → world result (with_rows a.new b.new x) ≡ store source item (world session (with_rows a.old b.old x)) }
{
    let feed = session.feeds.of(source);
    let clock = session.clock + 1;
    let row = Row {
        item,
        ats: clock,
        dts: 0,
    };
    let taken = Feed {
        rows: feed.rows + 1,
        ..feed
    };
    let feeds = session.feeds.with(source, taken);
    match source {
        Source::A => put_row(a, feed.rows as usize, row),
        Source::B => put_row(b, feed.rows as usize, row),
    }
    Session {
        clock,
        feeds,
        ..session
    }
}

// An arrival in a box that has room, and the number of its pairs.
fn take_row(
    session: Session,
    source: Source,
    item: Item,
    count: u32,
    a: &mut [u32],
    b: &mut [u32],
    probe: &[u32],
    out: &mut [u32],
) -> Reply
    requires rows { Rows session (length a.old) (length b.old) }
    requires space { rows_need ((pick source session.feeds.a session.feeds.b).rows + 1) ≤ length (pick source a.old b.old) }
    requires count { count ≡ length (arrived source item (world session (bundle a.old b.old probe.now))) }
    requires room { pairs_need count ≤ length out.old }
    ensures { leaves result (bundle a.new b.new probe.now) out.new ≡ joins source item (world session (bundle a.old b.old probe.now)) out.old }
{
    let view = BoxView {
        session,
        a,
        b,
        probe,
    };
    RowsView { view }.write_pairs(source, item, count, out);
    let stored = store_row(session, source, item, a, b);
    Reply {
        answer: Answer::Taken(count),
        session: stored,
    }
}

// What comes of an arrival: the answer, or why it is refused.
fn try_arrive(
    session: Session,
    source: Source,
    message: Message,
    a: &mut [u32],
    b: &mut [u32],
    probe: &[u32],
    out: &mut [u32],
) -> Result<Reply, Why>
    ensures { leaves (settled session result) (bundle a.new b.new probe.now) out.new ≡ after_call (world session (bundle a.old b.old probe.now)) (given (Arrive source message) out.old) }
{
    let view = BoxView {
        session,
        a,
        b,
        probe,
    };
    let item = view.admit(source, message)?;
    let rows = RowsView { view };
    let victim = rows.find_room();
    let count = rows.count_pairs(source, item, victim);
    if room_in::<PAIR>(out.len()) < count as usize {
        return Err(Why::RoomShort(count));
    }
    let cleared = make_room(session, victim, a, b);
    Ok(take_row(cleared, source, item, count, a, b, probe, out))
}

// A row arrives: it is joined with the rows in memory, and stored.
pub fn arrive(
    session: Session,
    source: Source,
    message: Message,
    a: &mut [u32],
    b: &mut [u32],
    probe: &[u32],
    out: &mut [u32],
) -> Reply
    ensures { leaves result (bundle a.new b.new probe.now) out.new ≡ after_call (world session (bundle a.old b.old probe.now)) (given (Arrive source message) out.old) }
{
    settled(
        session,
        try_arrive(session, source, message, a, b, probe, out),
    )
}
