// A drain: the pairs that are still owed, as many as the room holds.
ghost use Rattle.std.specs.Prelude.{◌≡◌, length};
ghost use Rattle.rules.specs.Calls.{leaves, after_call};
ghost use Rattle.rules.specs.World.{world, given, bundle};
ghost use Rattle.rules.specs.declared.Call.TheVariants.{Drain};
ghost use Rattle.checks.specs.Passed.{settled};

use checks::refusals::{BoxView, settled};
use pairs::walks::Scope;
use rules::{Answer, Reply, Session, Why};
use sheets::layout::{PAIR, room_in};
use stamps::Source;

// What comes of a drain.
#[tactic(auto, using(checks::proofs::Passing::good_rows, checks::proofs::Passing::good_probes))]
fn try_drain(
    session: Session,
    a: &[u32],
    b: &[u32],
    probe: &[u32],
    out: &mut [u32],
) -> Result<Reply, Why>
    ensures { leaves (settled session result) (bundle a.now b.now probe.now) out.new ≡ after_call (world session (bundle a.now b.now probe.now)) (given Drain out.old) }
{
    let room = room_in::<PAIR>(out.len());
    let view = BoxView {
        session,
        a,
        b,
        probe,
    };
    view.check_drain(room)?;
    let job = view.job(Source::A, Scope::All);
    let written = job.write_from(session.next as usize, out, room);
    let pairs = written.count as u32;
    let answer = if written.more {
        Answer::More(pairs)
    } else {
        Answer::Done(pairs)
    };
    let next = written.next as u32;
    Ok(Reply {
        answer,
        session: Session { next, ..session },
    })
}

// A drain, with the parameters of every call (`perform` of calls).
pub fn drain(session: Session, a: &[u32], b: &[u32], probe: &[u32], out: &mut [u32]) -> Reply
    ensures { leaves result (bundle a.now b.now probe.now) out.new ≡ after_call (world session (bundle a.now b.now probe.now)) (given Drain out.old) }
{
    settled(session, try_drain(session, a, b, probe, out))
}
