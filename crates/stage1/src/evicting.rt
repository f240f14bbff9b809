// The flush of a named portion.
ghost use Rattle.std.specs.Prelude.{◌≡◌, List, ℕ, length};
ghost use Rattle.rules.specs.Calls.{leaves, after_call};
ghost use Rattle.rules.specs.World.{world, bundle, given};
ghost use Rattle.rules.specs.declared.Call.TheVariants.{Evict};
ghost use Rattle.checks.specs.Passed.{Rows, settled};
ghost use Rattle.stage1.specs.Work.{Clears};

use checks::refusals::{BoxView, settled};
use rules::{Answer, Reply, Session, Why};
use sheets::parts::Parts;
use sheets::rows::flush;
use stamps::Source;

// The session after a flush, and the rows flushed.
#[derive(Clone, Copy)]
pub struct Cleared {
    pub session: Session,
    pub rows: u32,
}

// Flushes a portion, and moves the clock. The sheets that are written stay two slices beside the session: in a struct each would need a clause on
// its loan in every contract, and a choice between the two has no name in a proof.
pub fn clear(session: Session, source: Source, part: u32, a: &mut [u32], b: &mut [u32]) -> Cleared
    requires { Rows session (length a.old) (length b.old) }
    ensures { Clears source part session a.old b.old result.session result.rows a.new b.new }
{
    let parts = Parts {
        count: session.parts,
    };
    let held = session.feeds.of(source).rows as usize;
    let rows = match source {
        Source::A => flush(a, held, parts, part, session.clock),
        Source::B => flush(b, held, parts, part, session.clock),
    };
    let session = Session {
        clock: session.clock + rows,
        ..session
    };
    Cleared { session, rows }
}

// What comes of a flush that was asked for: the answer, or why it is refused.
fn try_evict(
    session: Session,
    source: Source,
    part: u32,
    a: &mut [u32],
    b: &mut [u32],
    probe: &[u32],
) -> Result<Reply, Why>
    ensures { (out : List ℕ) → leaves (settled session result) (bundle a.new b.new probe.now) out ≡ after_call (world session (bundle a.old b.old probe.now)) (given (Evict source part) out) }
{
    let view = BoxView {
        session,
        a,
        b,
        probe,
    };
    view.check_portion(part)?;
    let Cleared { session, rows } = clear(session, source, part, a, b);
    Ok(Reply {
        answer: Answer::Flushed(rows),
        session,
    })
}

// A portion that the caller names is flushed.
pub fn evict(
    session: Session,
    source: Source,
    part: u32,
    a: &mut [u32],
    b: &mut [u32],
    probe: &[u32],
) -> Reply
    ensures { (out : List ℕ) → leaves result (bundle a.new b.new probe.now) out ≡ after_call (world session (bundle a.old b.old probe.now)) (given (Evict source part) out) }
{
    settled(session, try_evict(session, source, part, a, b, probe))
}
