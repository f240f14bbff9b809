// Stamps and keys: numbers only. What a feed sends, what is kept of it, and when two rows have met before.
#![tactic(auto)]

ghost use Rattle.std.specs.Prelude.{◌≡◌, ◌<◌, not};
ghost use Rattle.stamps.specs.Keys.{in_range, made, items_match, part_of};
ghost use Rattle.stamps.specs.Sources.{other, pick, put};
ghost use Rattle.stamps.specs.Stamps.{alive, present_at, had_left_when, together, covers};

// A: lap passings. B: pack fault notes.
#[derive(Clone, Copy, PartialEq, Eq)]
pub enum Source {
    A,
    B,
}

pub fn other_source(source: Source) -> Source
    ensures { result ≡ other source }
{
    match source {
        Source::A => Source::B,
        Source::B => Source::A,
    }
}

// One value for each source.
#[derive(Clone, Copy)]
pub struct PerSource<T> {
    pub a: T,
    pub b: T,
}

impl<T: Copy> PerSource<T> {
    // That of a source.
    pub fn of(&self, source: Source) -> T
        ensures { result ≡ pick source self.now.a self.now.b }
    {
        match source {
            Source::A => self.a,
            Source::B => self.b,
        }
    }

    // With another value for a source.
    pub fn with(self, source: Source, value: T) -> Self
        ensures { result ≡ put source value self }
    {
        match source {
            Source::A => PerSource { a: value, ..self },
            Source::B => PerSource { b: value, ..self },
        }
    }
}

// What a feed sends.
#[derive(Clone, Copy, PartialEq, Eq)]
pub struct Message {
    pub heat: u32,
    pub car: u32,
    pub lap: u32,
}

// What is kept of a message. Nobody above this crate looks into a key.
#[derive(Clone, Copy)]
pub struct Item {
    pub key: u32,
}

// A row: its item, the clock at its arrival, and the clock at its flush. That is 0 while the row is in memory, and no Option: document 01 keeps it so in the sheet's word.
#[derive(Clone, Copy)]
pub struct Row {
    pub item: Item,
    pub ats: u32,
    pub dts: u32,
}

// What a run leaves in a probe list: the largest DTS that it used, and the clock.
#[derive(Clone, Copy)]
pub struct Entry {
    pub last: u32,
    pub probe: u32,
}

#[tactic(auto, unfolding(crate::specs::Keys::in_range))]
fn in_range(message: Message) -> bool
    ensures { result ≡ in_range message }
{
    (1..=9).contains(&message.heat) && (1..=999).contains(&message.car) && message.lap <= 999
}

// The item of a message, if its numbers are in range.
#[tactic(auto, unfolding(crate::specs::Keys::in_range, crate::specs::Keys::item_of))]
pub fn item_of(message: Message) -> Option<Item>
    ensures { result ≡ made message }
{
    if !in_range(message) {
        return None;
    }
    Some(Item {
        key: message.heat * 1000000 + message.car * 1000 + message.lap,
    })
}

// Matching is a rule on keys, whatever else an item may hold, and so no `==` of items.
#[tactic(auto, unfolding(crate::specs::Keys::items_match))]
pub fn items_match(x: Item, y: Item) -> bool
    ensures { result ≡ items_match x y }
{
    x.key == y.key
}

#[tactic(auto, unfolding(crate::specs::Keys::part_of))]
pub fn part_of(parts: u32, item: Item) -> u32
    requires { 0 < parts }
    ensures { (result ≡ part_of parts item) × (result < parts) }
{
    item.key % parts
}

// The row was not yet flushed when the clock stood at t.
#[tactic(auto, unfolding(crate::specs::Stamps::alive))]
fn alive_at(t: u32, row: Row) -> bool
    ensures { result ≡ alive t row }
{
    row.dts == 0 || t < row.dts
}

#[tactic(auto, unfolding(crate::specs::Stamps::present_at))]
fn present_at(t: u32, row: Row) -> bool
    ensures { result ≡ present_at t row }
{
    row.ats <= t && alive_at(t, row)
}

// In figure 5 of the XJoin report: the range of a, ATS to DTS, ends before that of b begins, or where it begins. With DTS 0 it has not left.
fn had_left_when(a: Row, b: Row) -> bool
    ensures { result ≡ had_left_when a b }
{
    a.dts != 0 && a.dts <= b.ats
}

// Rule 1 of 'done before': a had left when b came, or b had left when a came, as in figure 5(b), otherwise together, as in 5(a).
#[tactic(auto, unfolding(crate::specs::Stamps::together))]
pub fn were_together(a: Row, b: Row) -> bool
    ensures { result ≡ together a b }
{
    !(had_left_when(a, b) || had_left_when(b, a))
}

// Rules 2 and 3 for one entry: the run that left it used the spooled x while y was in memory.
#[tactic(auto, unfolding(crate::specs::Stamps::covers))]
pub fn run_covers(entry: Entry, x: Row, y: Row) -> bool
    ensures { result ≡ covers entry x y }
{
    !alive_at(entry.last, x) && present_at(entry.probe, y)
}

// The half of rule 2 or 3 that is about x: the run that left the entry took it. Who tests many entries at once makes both tests of each, where
// `run_covers` makes the second only where it is needed.
pub fn run_took(entry: Entry, spooled: Row) -> bool
    ensures { result ≡ not (alive entry.last spooled) }
{
    !alive_at(entry.last, spooled)
}

// The half that is about y: it was in memory at the run.
pub fn run_met(entry: Entry, facing: Row) -> bool
    ensures { result ≡ present_at entry.probe facing }
{
    present_at(entry.probe, facing)
}
