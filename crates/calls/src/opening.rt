// The opening of a session.
ghost use Rattle.std.specs.Prelude.{◌≡◌};
ghost use Rattle.rules.specs.Calls.{fresh, opens};
ghost use Rattle.rules.specs.World.{bundle};

use checks::refusals::sizes_fit;
use rules::{Answer, Feed, Reply, Session, Why};
use stamps::PerSource;

// A record with nothing in it yet.
pub fn new_session(parts: u32, slots: u32, limit: u32) -> Session
    ensures { result ≡ fresh parts slots limit }
{
    let feed = Feed {
        rows: 0,
        closed: false,
    };
    Session {
        parts,
        slots,
        limit,
        clock: 0,
        feeds: PerSource { a: feed, b: feed },
        counts: [0; 32],
        next: 0,
        lone: PerSource { a: 0, b: 0 },
    }
}

// Opens a session on sheets of any content. No Result inside: a refused opening hands back a record of zeros, so there is no
// session that `settled` could hand back. P, M and N stay three numbers: who opens a session has them so, and a struct of them would
// serve this one call.
#[tactic(auto, unfolding(rules::specs::Calls::opens))]
pub fn open(parts: u32, slots: u32, limit: u32, a: &[u32], b: &[u32], probe: &[u32]) -> Reply
    ensures { result ≡ opens parts slots limit (bundle a.now b.now probe.now) }
{
    if !sizes_fit(parts, slots, limit, a, b, probe) {
        return Reply {
            answer: Answer::Refused(Why::BadSheet),
            session: new_session(0, 0, 0),
        };
    }
    Reply {
        answer: Answer::Opened,
        session: new_session(parts, slots, limit),
    }
}
