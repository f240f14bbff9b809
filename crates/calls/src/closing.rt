// The closing of a source.
ghost use Rattle.std.specs.Prelude.{◌≡◌, List, ℕ};
ghost use Rattle.rules.specs.Calls.{leaves, after_call};
ghost use Rattle.rules.specs.World.{world, bundle, given};
ghost use Rattle.rules.specs.declared.Call.TheVariants.{Close};
ghost use Rattle.checks.specs.Passed.{settled};

use checks::refusals::{BoxView, settled};
use rules::{Answer, Feed, Reply, Session, Why};
use stamps::Source;

// What comes of a close: the answer, or why it is refused.
fn try_close(
    session: Session,
    source: Source,
    a: &[u32],
    b: &[u32],
    probe: &[u32],
) -> Result<Reply, Why>
    ensures { (out : List ℕ) → leaves (settled session result) (bundle a.now b.now probe.now) out ≡ after_call (world session (bundle a.now b.now probe.now)) (given (Close source) out) }
{
    let view = BoxView {
        session,
        a,
        b,
        probe,
    };
    view.check_close(source)?;
    let shut = Feed {
        closed: true,
        ..session.feeds.of(source)
    };
    Ok(Reply {
        answer: Answer::Shut,
        session: Session {
            feeds: session.feeds.with(source, shut),
            ..session
        },
    })
}

// A source that is closed takes no more rows.
pub fn close(session: Session, source: Source, a: &[u32], b: &[u32], probe: &[u32]) -> Reply
    ensures { (out : List ℕ) → leaves result (bundle a.now b.now probe.now) out ≡ after_call (world session (bundle a.now b.now probe.now)) (given (Close source) out) }
{
    settled(session, try_close(session, source, a, b, probe))
}
