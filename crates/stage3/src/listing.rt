// A lone call: the rows of a source that match no row of the other, as many as the room holds.
ghost use Rattle.std.specs.Prelude.{◌≡◌, length};
ghost use Rattle.rules.specs.Calls.{leaves, after_call};
ghost use Rattle.rules.specs.World.{world, bundle, given};
ghost use Rattle.rules.specs.declared.Call.TheVariants.{Lone};
ghost use Rattle.checks.specs.Passed.{settled};

use checks::refusals::{BoxView, settled};
use pairs::lones::write_lones;
use rules::{Answer, Reply, Session, Why};
use sheets::layout::{SINGLE, room_in};
use stamps::Source;

// What comes of a lone call.
#[tactic(auto, using(checks::proofs::Passing::good_rows, checks::proofs::Passing::good_probes))]
fn try_lone(
    session: Session,
    source: Source,
    a: &[u32],
    b: &[u32],
    probe: &[u32],
    out: &mut [u32],
) -> Result<Reply, Why>
    ensures { leaves (settled session result) (bundle a.now b.now probe.now) out.new ≡ after_call (world session (bundle a.now b.now probe.now)) (given (Lone source) out.old) }
{
    let room = room_in::<SINGLE>(out.len());
    let view = BoxView {
        session,
        a,
        b,
        probe,
    };
    view.check_drain(room)?;
    let other = stamps::other_source(source);
    let (own, facing) = (view.sheet(source), view.sheet(other));
    let position = session.lone.of(source) as usize;
    let written = write_lones(&own, &facing, position, out, room);
    let count = written.count as u32;
    let answer = if written.more {
        Answer::MoreLone(count)
    } else {
        Answer::DoneLone(count)
    };
    let lone = session.lone.with(source, written.next as u32);
    Ok(Reply {
        answer,
        session: Session { lone, ..session },
    })
}

// A lone call, with the parameters of every call (`perform` of calls).
pub fn lone(
    session: Session,
    source: Source,
    a: &[u32],
    b: &[u32],
    probe: &[u32],
    out: &mut [u32],
) -> Reply
    ensures { leaves result (bundle a.now b.now probe.now) out.new ≡ after_call (world session (bundle a.now b.now probe.now)) (given (Lone source) out.old) }
{
    settled(session, try_lone(session, source, a, b, probe, out))
}
