// A run: a portion's spooled rows against the memory rows of the other source.
ghost use Rattle.std.specs.Prelude.{◌≡◌, ◌<◌, length};
ghost use Rattle.pairs.specs.Pairs.{table_of};
ghost use Rattle.rules.specs.Calls.{leaves, after_call};
ghost use Rattle.rules.specs.World.{world, note, Sheets, bundle, with_probe, given};
ghost use Rattle.rules.specs.declared.Call.TheVariants.{Run};
ghost use Rattle.checks.specs.Passed.{settled};
ghost use Rattle.stage2.specs.Work.{task_of, Listed};

use checks::refusals::{BoxView, settled};
use pairs::walks::{Job, Scope};
use rules::{Answer, Reply, Session, Why};
use sheets::layout::{PAIR, put_entry, room_in};
use sheets::lists::list_of;
use sheets::parts::Parts;
use stamps::{Entry, Source};

// What a run has to do: nothing, or the portion's spooled rows up to a DTS.
fn find_task(job: &Job, part: u32, clock: u32) -> Result<Option<u32>, Why>
    requires { part < job.now.lists.parts.count }
    ensures { result ≡ task_of (table_of job.now) clock part }
{
    let last = job.own.latest_dts(job.lists.parts, part);
    let list = job.lists.of(job.source, part);
    if last == 0 || list.probed_at(clock) {
        return Ok(None);
    }
    if 32 <= list.size {
        return Err(Why::ListFull);
    }
    Ok(Some(last))
}

// Adds an entry to the portion's list, and counts it.
fn add_entry(session: Session, source: Source, part: u32, last: u32, probe: &mut [u32]) -> Session
    requires { Listed session source part (length probe.old) }
    ensures { (x : Sheets) → world result (with_probe probe.new x) ≡ note source part last (world session (with_probe probe.old x)) }
{
    let parts = Parts {
        count: session.parts,
    };
    let (number, size) = list_of(&session.counts, parts, source, part);
    let entry = Entry {
        last,
        probe: session.clock,
    };
    put_entry(probe, number, size, entry);
    let mut counts = session.counts;
    counts[number] += 1;
    Session { counts, ..session }
}

// What comes of a run.
#[tactic(auto, using(checks::proofs::Passing::good_rows, checks::proofs::Passing::good_probes, crate::proofs::Runs::run_few))]
fn try_run(
    session: Session,
    source: Source,
    part: u32,
    a: &[u32],
    b: &[u32],
    probe: &mut [u32],
    out: &mut [u32],
) -> Result<Reply, Why>
    ensures { leaves (settled session result) (bundle a.now b.now probe.new) out.new ≡ after_call (world session (bundle a.now b.now probe.old)) (given (Run source part) out.old) }
{
    let view = BoxView {
        session,
        a,
        b,
        probe,
    };
    view.check_portion(part)?;
    let job = view.job(source, Scope::Portion(part));
    let Some(last) = find_task(&job, part, session.clock)? else {
        return Ok(Reply {
            answer: Answer::Ran(0),
            session,
        });
    };
    let pairs = job.count_due();
    let count = pairs as u32;
    if room_in::<PAIR>(out.len()) < pairs {
        return Err(Why::RoomShort(count));
    }
    job.write_from(0, out, pairs);
    Ok(Reply {
        answer: Answer::Ran(count),
        session: add_entry(session, source, part, last, probe),
    })
}

// A run. What it reads is one view inside; its own parameters are those of every call (`perform` of calls).
pub fn run(
    session: Session,
    source: Source,
    part: u32,
    a: &[u32],
    b: &[u32],
    probe: &mut [u32],
    out: &mut [u32],
) -> Reply
    ensures { leaves result (bundle a.now b.now probe.new) out.new ≡ after_call (world session (bundle a.now b.now probe.old)) (given (Run source part) out.old) }
{
    settled(session, try_run(session, source, part, a, b, probe, out))
}
