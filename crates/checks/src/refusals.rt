// When the box says no: the checks that need no look at the rows, in the order of document 01's table.
ghost use Rattle.std.specs.Prelude.{◌≡◌, true, false, ◌∷◌, ◌≤◌, MatchResult};
ghost use Rattle.stamps.specs.Keys.{item_of};
ghost use Rattle.rules.specs.Refusals.{sizes_fit, numbers_fit, counts_fit, session_fits, both_closed, verdict, sheet_check, portion_checks, close_checks, drain_checks, row_checks};
ghost use Rattle.rules.specs.World.{bundle, lengths};
ghost use Rattle.rules.specs.declared.Why.TheVariants.{BadSheet};
ghost use Rattle.checks.specs.Passed.{admitted, settled};
ghost use Rattle.checks.specs.Viewed.{viewed};

use rules::{Answer, Reply, Session, Why};
use sheets::layout::{LISTS, ROW, words_of};
use stamps::{Item, Message, Source};

// P, M and N are in range, and the sheets are long enough for them. An opening asks this before there is a record, so there is no view yet.
pub fn sizes_fit(parts: u32, slots: u32, limit: u32, a: &[u32], b: &[u32], probe: &[u32]) -> bool
    ensures { result ≡ sizes_fit parts slots limit (lengths (bundle a.now b.now probe.now)) }
{
    let rows = words_of::<ROW>(limit);
    (1..=16).contains(&parts)
        && (1..=1024).contains(&slots)
        && (1..=4096).contains(&limit)
        && rows <= a.len()
        && rows <= b.len()
        && words_of::<LISTS>(parts) <= probe.len()
}

// No number of the record is above its limit.
fn numbers_fit(session: Session) -> bool
    ensures { result ≡ numbers_fit session }
{
    let a_rows = session.feeds.a.rows;
    let b_rows = session.feeds.b.rows;
    a_rows <= session.limit
        && b_rows <= session.limit
        && session.clock <= 16384
        && session.next as u64 <= a_rows as u64 * b_rows as u64
        && session.lone.a <= a_rows
        && session.lone.b <= b_rows
}

// No list of the first so many has more than 32 entries.
fn counts_fit(counts: &[u32; 32], lists: usize) -> bool
    requires { lists ≤ 32 }
    ensures { result ≡ counts_fit counts.now lists }
{
    counts[..lists].iter().all(|count| *count <= 32)
}

fn both_closed(session: Session) -> bool
    ensures { result ≡ both_closed session }
{
    session.feeds.a.closed && session.feeds.b.closed
}

// The box as a call finds it: the session, and the sheets that it is lent.
#[derive(Clone, Copy)]
pub struct BoxView<'s> {
    pub session: Session,
    pub a: &'s [u32],
    pub b: &'s [u32],
    pub probe: &'s [u32],
}

// The checks of each call that need no look at the rows.
impl BoxView<'_> {
    // Number 1, which every call but the opening tests first.
    #[tactic(auto, unfolding(rules::specs::Refusals::session_fits))]
    pub fn fits(&self) -> bool
        ensures { result ≡ session_fits (viewed self.now) }
    {
        let session = self.session;
        sizes_fit(
            session.parts,
            session.slots,
            session.limit,
            self.a,
            self.b,
            self.probe,
        ) && numbers_fit(session)
            && counts_fit(&session.counts, 2 * session.parts as usize)
    }

    // Number 1, as a check.
    fn check_sheets(&self) -> Result<(), Why>
        ensures { let fits = session_fits (viewed self.now) in MatchResult result (λ _. fits ≡ true) (λ why. (fits ≡ false) × (why ≡ BadSheet)) }
    {
        if !self.fits() {
            return Err(Why::BadSheet);
        }
        Ok(())
    }

    // Numbers 1, 3 and 4, for evict and run.
    #[tactic(auto, unfolding(rules::specs::Refusals::verdict))]
    pub fn check_portion(&self, part: u32) -> Result<(), Why>
        ensures { result ≡ verdict (sheet_check (session_fits (viewed self.now)) ∷ portion_checks self.now.session part) }
    {
        self.check_sheets()?;
        if self.session.parts <= part {
            return Err(Why::BadPart);
        }
        if both_closed(self.session) {
            return Err(Why::Closed);
        }
        Ok(())
    }

    // Numbers 1 and 4, for close.
    #[tactic(auto, unfolding(rules::specs::Refusals::verdict))]
    pub fn check_close(&self, source: Source) -> Result<(), Why>
        ensures { result ≡ verdict (sheet_check (session_fits (viewed self.now)) ∷ close_checks self.now.session source) }
    {
        self.check_sheets()?;
        if self.session.feeds.of(source).closed {
            return Err(Why::Closed);
        }
        Ok(())
    }

    // Numbers 1, 7 and 8, for drain and lone.
    #[tactic(auto, unfolding(rules::specs::Refusals::verdict))]
    pub fn check_drain(&self, room: usize) -> Result<(), Why>
        ensures { result ≡ verdict (sheet_check (session_fits (viewed self.now)) ∷ drain_checks self.now.session room) }
    {
        self.check_sheets()?;
        if !both_closed(self.session) {
            return Err(Why::StillOpen);
        }
        if room == 0 {
            return Err(Why::RoomShort(1));
        }
        Ok(())
    }

    // Numbers 1, 2, 4 and 5, for arrive: all but the last, for which its pairs have to be counted.
    #[tactic(auto, unfolding(rules::specs::Refusals::verdict))]
    pub fn admit(&self, source: Source, message: Message) -> Result<Item, Why>
        ensures { result ≡ admitted (verdict (sheet_check (session_fits (viewed self.now)) ∷ row_checks self.now.session source message)) (item_of message) }
    {
        self.check_sheets()?;
        let item = stamps::item_of(message).ok_or(Why::BadKey)?;
        let feed = self.session.feeds.of(source);
        if feed.closed {
            return Err(Why::Closed);
        }
        if self.session.limit <= feed.rows {
            return Err(Why::SheetFull);
        }
        Ok(item)
    }
}

// What a call hands back, for what came of it: a refusal leaves the session as it was.
pub fn settled(session: Session, outcome: Result<Reply, Why>) -> Reply
    ensures { result ≡ settled session outcome }
{
    outcome.unwrap_or_else(|why| Reply {
        answer: Answer::Refused(why),
        session,
    })
}
