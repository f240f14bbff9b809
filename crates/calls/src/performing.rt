// Any call, given as one value.
ghost use Rattle.std.specs.Prelude.{◌≡◌};
ghost use Rattle.rules.specs.Calls.{leaves, after_call};
ghost use Rattle.rules.specs.World.{world, bundle, given};

use crate::closing::close;
use rules::{Call, Reply, Session};
use stage1::arriving::arrive;
use stage1::evicting::evict;
use stage2::running::run;
use stage3::draining::drain;
use stage3::listing::lone;

// A call, as it is named. The sheets and the output stay apart, as document 01 lends them: the calls below are lent as `&` what they only read,
// where a struct of `&mut`s would ask for more.
pub fn perform(
    session: Session,
    call: Call,
    a: &mut [u32],
    b: &mut [u32],
    probe: &mut [u32],
    out: &mut [u32],
) -> Reply
    ensures { leaves result (bundle a.new b.new probe.new) out.new ≡ after_call (world session (bundle a.old b.old probe.old)) (given call out.old) }
{
    match call {
        Call::Arrive(source, message) => arrive(session, source, message, a, b, probe, out),
        Call::Evict(source, part) => evict(session, source, part, a, b, probe),
        Call::Run(source, part) => run(session, source, part, a, b, probe, out),
        Call::Close(source) => close(session, source, a, b, probe),
        Call::Drain => drain(session, a, b, probe, out),
        Call::Lone(source) => lone(session, source, a, b, probe, out),
    }
}
