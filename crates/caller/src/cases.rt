// A case: what its numbers ask for, and the answer to it. In their order the numbers are the kind of the call and its four
// arguments; the record, as P, M, N, clock, rows of A and of B, closed A and B, 32 entry counts, position, lone positions
// of A and B; the lengths of the sheets A, B, probe and output; and then the words of these sheets.
ghost use Rattle.std.specs.Prelude.{◌≡◌, ◌+◌, ◌≤◌, ◌↔◌, [], ◌∷◌, ◌++◌, take, drop, length, IsSome, IfSome, OnOk};
ghost use Rattle.std.specs.Int.{from_bool};
ghost use Rattle.std.specs.Io.KnownBytes.{Appends};
ghost use Rattle.rules.specs.World.{bundle};
ghost use Rattle.rules.specs.Calls.{leaves};
ghost use Rattle.printout.specs.Printed.{session_numbers};
ghost use Rattle.caller.specs.Cases.{sheet_most, probe_most, output_most, number_of, AsksFor, Asks, left_by, text_of};

use calls::opening::open;
use calls::performing::perform;
use printout::{print_line, print_reply};
use rules::{Call, Feed, Reply, Session};
use stamps::{Message, PerSource, Source};
use std::io;
use std::io::Write;

// How many numbers ask for the call, are its record, and are the lengths of the sheets.
const ASKED: usize = 5;

const RECORD: usize = 43;

const LENGTHS: usize = 4;

// The most words of a sheet of rows, of probe lists, and of an output.
const SHEET_WORDS: usize = 12288;

const PROBE_WORDS: usize = 2048;

const OUTPUT_WORDS: usize = 1536;

// The most numbers of a case.
pub const LINE_WORDS: usize = ASKED
    + RECORD
    + LENGTHS
    + SHEET_WORDS
    + SHEET_WORDS
    + PROBE_WORDS
    + OUTPUT_WORDS;

// ---- the numbers before the sheets

// The flag of a number: 0 or 1. This and the source's are functions and no TryFrom, because an impl for `Source` would have to
// stand in `stamps`.
fn flag_of(word: u32) -> Option<bool>
    ensures known { IsSome result ↔ (word ≤ 1) }
    ensures value { IfSome result (λ flag. from_bool flag ≡ word) }
{
    match word {
        0 => Some(false),
        1 => Some(true),
        _ => None,
    }
}

// The source of a number: 0 for A, 1 for B.
fn source_of(word: u32) -> Option<Source>
    ensures known { IsSome result ↔ (word ≤ 1) }
    ensures value { IfSome result (λ source. number_of source ≡ word) }
{
    match word {
        0 => Some(Source::A),
        1 => Some(Source::B),
        _ => None,
    }
}

// The rows of a source, and whether it is closed.
fn feed_of(rows: u32, closed: u32) -> Option<Feed>
    ensures { IfSome result (λ feed. (feed.rows ≡ rows) × (from_bool feed.closed ≡ closed)) }
{
    Some(Feed {
        rows,
        closed: flag_of(closed)?,
    })
}

// The session record of these numbers, which printing it would give.
fn session_of(numbers: &[u32]) -> Option<Session>
    ensures { IfSome result (λ session. session_numbers session ≡ numbers.now) }
{
    let &[
        parts,
        slots,
        limit,
        clock,
        rows_a,
        rows_b,
        closed_a,
        closed_b,
        ref counts @ ..,
        next,
        lone_a,
        lone_b,
    ] = numbers
    else {
        return None;
    };
    let feeds = PerSource {
        a: feed_of(rows_a, closed_a)?,
        b: feed_of(rows_b, closed_b)?,
    };
    Some(Session {
        parts,
        slots,
        limit,
        clock,
        feeds,
        counts: *counts.as_array()?,
        next,
        lone: PerSource {
            a: lone_a,
            b: lone_b,
        },
    })
}

// The call that these numbers ask for: its kind, and as many arguments as it has; the others may be any. Kind 0 is an opening.
// Kinds are numbers here because a case's line has nothing else.
fn call_of(asked: &[u32; ASKED]) -> Option<Call>
    ensures { IfSome result (AsksFor asked.now) }
{
    match *asked {
        [1, source, heat, car, lap] => {
            Some(Call::Arrive(source_of(source)?, Message { heat, car, lap }))
        }
        [2, source, part, ..] => Some(Call::Evict(source_of(source)?, part)),
        [3, source, part, ..] => Some(Call::Run(source_of(source)?, part)),
        [4, source, ..] => Some(Call::Close(source_of(source)?)),
        [5, ..] => Some(Call::Drain),
        [6, source, ..] => Some(Call::Lone(source_of(source)?)),
        _ => None,
    }
}

// What a case asks for: an opening with P, M and N, or a call on a record.
#[derive(Clone, Copy)]
enum Request {
    Open(u32, u32, u32),
    Perform(Session, Call),
}

impl Request {
    // Performs the call, or the opening, on these sheets, lent as calls lends them on.
    fn perform(self, a: &mut [u32], b: &mut [u32], probe: &mut [u32], out: &mut [u32]) -> Reply
        ensures { leaves result (bundle a.new b.new probe.new) out.new ≡
            left_by self (bundle a.old b.old probe.old) out.old }
    {
        match self {
            Request::Open(parts, slots, limit) => open(parts, slots, limit, a, b, probe),
            Request::Perform(session, call) => perform(session, call, a, b, probe, out),
        }
    }
}

// What these numbers and those of a record ask for. An opening's record is read too: one that is none makes the case BAD.
fn request_of(asked: &[u32; ASKED], numbers: &[u32]) -> Option<Request>
    ensures { IfSome result (Asks asked.now numbers.now) }
{
    let session = session_of(numbers)?;
    if let [0, parts, slots, limit, _] = *asked {
        return Some(Request::Open(parts, slots, limit));
    }
    Some(Request::Perform(session, call_of(asked)?))
}

// ---- the sheets

// The sheet of this size that the words begin with, and the words behind it, if it is not too large.
fn sheet_of(words: &mut [u32], size: u32, most: usize) -> Option<(&mut [u32], &mut [u32])>
    ensures fits { IsSome result ↔ ((size ≤ most) × (size ≤ length words.old)) }
    ensures whole { IfSome result (λ parts. words.old ≡ parts.0.now ++ parts.1.now) }
    ensures size { IfSome result (λ parts. length parts.0.now ≡ size) }
{
    let size = size as usize;
    if most < size {
        return None;
    }
    words.split_at_mut_checked(size)
}

// A request with the sheets that it is performed on, which are parts of the line's numbers.
#[derive(Drop)]
pub struct Case<'w> {
    request: Request,
    a: &'w mut [u32],
    b: &'w mut [u32],
    probe: &'w mut [u32],
    out: &'w mut [u32],
}

impl<'w> Case<'w> {
    // The case of these numbers, if they are one: no sheet is too large, and no number is missing or left over.
    pub fn of(numbers: &'w mut [u32]) -> Option<Case<'w>>
        ensures asks { IfSome result (λ case.
            Asks (take ASKED numbers.old) (take RECORD (drop ASKED numbers.old)) case.request) }
        ensures sheets { IfSome result (λ case. drop (ASKED + RECORD + LENGTHS) numbers.old ≡
            case.a.now ++ case.b.now ++ case.probe.now ++ case.out.now) }
        ensures lengths { IfSome result (λ case. take LENGTHS (drop (ASKED + RECORD) numbers.old) ≡
            length case.a.now ∷ length case.b.now ∷ length case.probe.now ∷ length case.out.now ∷ []) }
        ensures limits { IfSome result (λ case. (length case.a.now ≤ sheet_most) × (length case.b.now ≤ sheet_most) ×
            (length case.probe.now ≤ probe_most) × (length case.out.now ≤ output_most)) }
    {
        let (asked, rest) = numbers.split_first_chunk_mut::<ASKED>()?;
        let (record, rest) = rest.split_at_mut_checked(RECORD)?;
        let (lengths, rest) = rest.split_first_chunk_mut::<LENGTHS>()?;
        let [length_a, length_b, length_probe, length_out] = *lengths;
        let (a, rest) = sheet_of(rest, length_a, SHEET_WORDS)?;
        let (b, rest) = sheet_of(rest, length_b, SHEET_WORDS)?;
        let (probe, rest) = sheet_of(rest, length_probe, PROBE_WORDS)?;
        let (out, rest) = sheet_of(rest, length_out, OUTPUT_WORDS)?;
        if !rest.is_empty() {
            return None;
        }
        let request = request_of(asked, record)?;
        Some(Case {
            request,
            a,
            b,
            probe,
            out,
        })
    }

    // Performs the request and prints what it leaves.
    pub fn answer<W: Write>(self, to: &mut W) -> io::Result<()>
        ensures { OnOk result (Appends (W.contents to.old) (W.contents to.new)
            (text_of (left_by self.entry.request (bundle self.entry.a.now self.entry.b.now self.entry.probe.now) self.entry.out.now))) }
    {
        let Case {
            request,
            a,
            b,
            probe,
            out,
        } = self;
        let reply = request.perform(a, b, probe, out);
        print_reply(to, reply)?;
        print_line(to, b"A", a)?;
        print_line(to, b"B", b)?;
        print_line(to, b"PROBE", probe)?;
        print_line(to, b"OUT", out)
    }
}
