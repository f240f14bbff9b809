// Probe lists: which pairs earlier runs have used.
ghost use Rattle.std.specs.Prelude.{◌≡◌, ◌+◌, ◌*◌, ◌/◌, ◌≤◌, ◌<◌, ℕ, length, get_or};
ghost use Rattle.std.specs.List.{list_any, range_with_len};
ghost use Rattle.sheets.specs.Layout.{list_no, list_need, probe_need, entry_at};

use crate::layout::entry_at;
use crate::parts::Parts;
use stamps::{Entry, Row, Source};

// The entries that are asked together, and those that may be once more behind them.
const BLOCK: usize = 16;

const HALF: usize = BLOCK / 2;

// The list of one portion: its number among the lists of the probe sheet, and how many entries it has. It keeps the whole sheet and a number:
// `entry_at`, of which document 01's words speak, counts from the sheet's beginning.
#[derive(Clone, Copy)]
pub struct ProbeList<'s> {
    pub probe: &'s [u32],
    pub number: usize,
    pub size: usize,
    pub ghost fits: { list_need number size ≤ length probe.now },
}

impl ProbeList<'_> {
    ghost use Rattle.stamps.specs.Stamps.{covers, used, done_before};
    ghost use Rattle.sheets.specs.Lists.{entries_of, probed_at};

    // Entry number e.
    fn entry(&self, e: usize) -> Entry
        requires { e < self.now.size }
        ensures { result ≡ entry_at self.now.probe.now self.now.number e }
    {
        entry_at(self.probe, self.number, e)
    }

    // Of x's list, one of N entries covers x and y. All of them are tested, by both tests: a loop that stops at the first, or at the first test, is
    // not vectorised.
    fn used_in<const N: usize>(&self, first: usize, x: Row, y: Row) -> bool
        requires { first + N ≤ self.now.size }
        ensures { result ≡ list_any (λ e. covers (entry_at self.now.probe.now self.now.number e) x y) (range_with_len first N) }
    {
        let mut found = false;
        for e in first..first + N {
            let entry = self.entry(e);
            found |= stamps::run_took(entry, x) & stamps::run_met(entry, y);
        }
        found
    }

    // Of x's list, one of the entries that are asked together covers x and y.
    fn used_in_blocks(&self, x: Row, y: Row) -> bool
        ensures { result ≡ list_any (λ e. covers (entry_at self.now.probe.now self.now.number e) x y) (range_with_len 0 (HALF * (self.now.size / HALF))) }
    {
        let blocks = self.size / BLOCK;
        if (0..blocks).any(|block| self.used_in::<BLOCK>(BLOCK * block, x, y)) {
            return true;
        }
        if self.size < BLOCK * blocks + HALF {
            return false;
        }
        self.used_in::<HALF>(BLOCK * blocks, x, y)
    }

    // `used` of a list with so many entries that some are asked together; the others are asked one by one.
    #[inline(never)]
    fn used_of_many(&self, x: &Row, y: &Row) -> bool
        ensures { result ≡ used (entries_of self.now) x.now y.now }
    {
        if self.used_in_blocks(*x, *y) {
            return true;
        }
        let together = HALF * (self.size / HALF);
        (together..self.size).any(|e| stamps::run_covers(self.entry(e), *x, *y))
    }

    // An entry of x's list covers x and y. Not inlined, so that a walk that asks this keeps its registers.
    #[inline(never)]
    pub fn used(&self, x: &Row, y: &Row) -> bool
        ensures { result ≡ used (entries_of self.now) x.now y.now }
    {
        if HALF <= self.size {
            return self.used_of_many(x, y);
        }
        (0..self.size).any(|e| stamps::run_covers(self.entry(e), *x, *y))
    }

    // Done before, by rules 1, 2 and 3: this is the list of x's portion, theirs that of y's. A walk asks this of one x and many y: so x is lent,
    // or it would be written down anew for each call.
    #[tactic(auto, using(stamps::proofs::StampsLaws::done_is))]
    pub fn done_before(&self, theirs: &ProbeList, x: &Row, y: Row) -> bool
        ensures { result ≡ done_before (entries_of self.now) (entries_of theirs.now) x.now y }
    {
        stamps::were_together(*x, y) || self.used(x, &y) || theirs.used(&y, x)
    }

    // The last run of the list's portion was at this clock.
    pub fn probed_at(&self, clock: u32) -> bool
        ensures { result ≡ probed_at clock (entries_of self.now) }
    {
        self.size != 0 && self.entry(self.size - 1).probe == clock
    }
}

// The number of a portion's list, and how many entries it has, which is all that adding an entry needs.
pub fn list_of(counts: &[u32; 32], parts: Parts, source: Source, part: u32) -> (usize, usize)
    requires { (part < parts.count) × (parts.count ≤ 16) }
    ensures number { result.0 ≡ list_no parts.count source part }
    ensures size { result.1 ≡ get_or counts.now (list_no parts.count source part) 0 }
{
    let number = parts.list_no(source, part);
    (number, counts[number] as usize)
}

// The probe sheet, and how many entries each of its lists has.
#[derive(Clone, Copy)]
pub struct Lists<'s> {
    pub probe: &'s [u32],
    pub counts: &'s [u32; 32],
    pub parts: Parts,
    pub ghost few_parts: { parts.count ≤ 16 },
    pub ghost fits: { probe_need parts.count ≤ length probe.now },
    pub ghost short: { (k : ℕ) → k < 2 * parts.count → get_or counts.now k 0 ≤ 32 },
}

impl<'s> Lists<'s> {
    ghost use Rattle.sheets.specs.Lists.{entries_of, list_of};

    // The list of a portion.
    pub fn of(&self, source: Source, part: u32) -> ProbeList<'s>
        requires { part < self.now.parts.count }
        ensures entries { entries_of result ≡ list_of self.now.parts.count self.now.counts.now self.now.probe.now source part }
        ensures probe { result.probe.now ≡ self.now.probe.now }
        ensures number { result.number ≡ list_no self.now.parts.count source part }
        ensures size { result.size ≡ get_or self.now.counts.now (list_no self.now.parts.count source part) 0 }
    {
        let (number, size) = list_of(self.counts, self.parts, source, part);
        ProbeList {
            probe: self.probe,
            number,
            size,
        }
    }
}
