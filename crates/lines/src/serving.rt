// The lines of an input, given in pieces: each is answered as soon as its LF is there, the last one at the end of the input.
ghost use Rattle.std.specs.Prelude.{◌≡◌, ◌-◌, ◌≤◌, Option};
ghost use Rattle.text.specs.Gathering.{gather, fitting, behind_lf, Took};
ghost use Rattle.text.specs.Texts.{Anew};
ghost use Rattle.rules.specs.World.{bundle};
ghost use Rattle.reading.specs.Reading.{room_most};
ghost use Rattle.replies.specs.Printing.{reply_most};
ghost use Rattle.answering.specs.Answering.{left};
ghost use Rattle.lines.specs.Serving.{served, finished, begun_after, BegunIn};

use answering::{OUTPUT, answer_line};
use rules::Session;
use text::gathering::take_line;
use text::texts::Text;

// Takes the input's bytes up to the end of a line, answers it, and hands back what stands behind it; or takes all of them, where
// the line does not end: then nothing is said.
#[tactic(auto, using(text::proofs::Laws::gather_fits))]
pub fn serve<'i, L: Text, R: Text>(
    state: &mut Option<Session>,
    line: &mut L,
    input: &'i [u8],
    a: &mut [u32],
    b: &mut [u32],
    probe: &mut [u32],
    out: &mut [u32; OUTPUT],
    reply: &mut R,
) -> Option<&'i [u8]>
    requires { reply_most room_most ≤ R.most reply.old }
    ensures says { left state.new (bundle a.new b.new probe.new) out.new (R.held reply.new) ≡ served (gather (L.most line.old) (L.held line.old) input.now) state.old (bundle a.old b.old probe.old) out.old }
    ensures reply { Anew R.Clears R.Puts reply.old (R.held reply.new) reply.new }
    ensures fits { R.at reply.new ≤ reply_most room_most }
    ensures line { L.held line.new ≡ begun_after (gather (L.most line.old) (L.held line.old) input.now) }
    ensures bytes { BegunIn L.Puts L.Clears line.old (fitting (L.most line.old - L.at line.old) input.now) (behind_lf input.now) line.new }
    ensures rest { Took (gather (L.most line.old) (L.held line.old) input.now) result }
{
    let Some(rest) = take_line(line, input) else {
        reply.clear();
        return None;
    };
    answer_line(state, line.held(), a, b, probe, out, reply);
    line.clear();
    Some(rest)
}

// Answers what is left of a line at the end of the input.
pub fn finish<R: Text>(
    state: &mut Option<Session>,
    line: &[u8],
    a: &mut [u32],
    b: &mut [u32],
    probe: &mut [u32],
    out: &mut [u32; OUTPUT],
    reply: &mut R,
)
    requires { reply_most room_most ≤ R.most reply.old }
    ensures says { left state.new (bundle a.new b.new probe.new) out.new (R.held reply.new) ≡ finished line.now state.old (bundle a.old b.old probe.old) out.old }
    ensures reply { Anew R.Clears R.Puts reply.old (R.held reply.new) reply.new }
    ensures fits { R.at reply.new ≤ reply_most room_most }
{
    if !line.is_empty() {
        return answer_line(state, line, a, b, probe, out, reply);
    }
    reply.clear();
}
