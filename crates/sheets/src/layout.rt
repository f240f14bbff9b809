// Where rows, entries and pairs stand in 32-bit words. Nobody else knows how many words each has.
ghost use Rattle.std.specs.Prelude.{MatchOption, ◌≡◌, ◌+◌, ◌*◌, ◌/◌, ◌≤◌, ◌<◌, length, get_or};
ghost use Rattle.std.proofs.lemmas.List.Edits.{sets};
ghost use Rattle.stamps.specs.Stamps.{stamp};
ghost use Rattle.sheets.specs.Rows.{NoneMatches, FirstAt};
ghost use Rattle.sheets.specs.Layout.{rows_need, place_of, row_of, IsPlace, row_at, put_row, list_need, entry_at, put_entry, pairs_need, shows, tell, put_pair, singles_need, put_single};

use stamps::{Entry, Item, Row, Source};

// The words of a row: its key, ATS and DTS.
pub const ROW: usize = 3;

// The rows that a scan looks at in one turn.
const BLOCK: usize = 8;

// Of an entry: DTS-last and ProbeTS.
const ENTRY: usize = 2;

// The entries that a list has room for.
const ENTRIES: usize = 32;

// The words of a list.
pub const LIST: usize = ENTRIES * ENTRY;

// Of a partition's lists, one for each source.
pub const LISTS: usize = 2 * LIST;

// Of a pair: its row of A, its row of B and their key.
pub const PAIR: usize = 3;

// Of a row by itself, as lone calls write it: its number and key.
pub const SINGLE: usize = 2;

// The words that so many things of one width take.
pub fn words_of<const WIDTH: usize>(things: u32) -> usize
    requires { WIDTH ≤ LISTS }
    ensures { result ≡ WIDTH * things }
{
    WIDTH * (things as usize)
}

// The things of one width that so many words have room for.
pub fn room_in<const WIDTH: usize>(words: usize) -> usize
    requires { 0 < WIDTH }
    ensures { result ≡ words / WIDTH }
{
    words / WIDTH
}

// The rows of one source, in lent words. Words and rows stand side by side: the words lent may be more than the rows need.
#[derive(Clone, Copy)]
pub struct Sheet<'s> {
    pub words: &'s [u32],
    pub rows: usize,
    pub ghost fits: { rows_need rows ≤ length words.now },
}

#[tactic(auto, unfolding(crate::specs::Layout::row_at))]
impl Sheet<'_> {
    // What is kept of the message of the row that begins at a word.
    fn item_from(&self, word: usize) -> Item
        requires { word < length self.now.words.now }
        ensures { result.key ≡ get_or self.now.words.now word 0 }
    {
        Item {
            key: self.words[word],
        }
    }

    // What is kept of its message.
    pub fn item(&self, row: usize) -> Item
        requires { row < self.now.rows }
        ensures { result ≡ (row_at self.now.words.now row).item }
    {
        self.item_from(ROW * row)
    }

    // Where row number row begins, or where the rows end. A walk goes from place to place, since a row's number is a division away.
    pub fn place(&self, row: usize) -> usize
        requires { row ≤ self.now.rows }
        ensures { result ≡ place_of row }
    {
        ROW * row
    }

    // The place of the first row from a place on whose item matches: the inner loop of runs, drains and lone calls. It reads keys only. Where many
    // rows match, a call would take longer than the scan.
    #[inline(always)]
    pub fn seek(&self, place: usize, item: Item) -> Option<usize>
        requires { IsPlace self.now.rows place }
        ensures { MatchOption result (NoneMatches item (row_at self.now.words.now) (row_of place) self.now.rows) (FirstAt item (row_at self.now.words.now) (row_of place) self.now.rows) }
    {
        let end = ROW * self.rows;
        let mut word = place;
        while BLOCK * ROW <= end - word {
            let found = seek_in_block(self.words, word, item);
            if found.is_some() {
                return found;
            }
            word += BLOCK * ROW;
        }
        seek_in_rest(self.words, word, end, item)
    }

    // The place behind the row at a place.
    pub fn behind(&self, place: usize) -> usize
        requires { IsPlace self.now.rows place × (row_of place < self.now.rows) }
        ensures { IsPlace self.now.rows result × (row_of result ≡ row_of place + 1) }
    {
        place + ROW
    }

    // The row that begins at a place.
    pub fn row_from(&self, place: usize) -> Row
        requires { IsPlace self.now.rows place × (row_of place < self.now.rows) }
        ensures { result ≡ row_at self.now.words.now (row_of place) }
    {
        Row {
            item: self.item_from(place),
            ats: self.words[place + 1],
            dts: self.words[place + 2],
        }
    }

    // Its DTS.
    pub fn dts(&self, row: usize) -> u32
        requires { row < self.now.rows }
        ensures { result ≡ (row_at self.now.words.now row).dts }
    {
        self.words[ROW * row + 2]
    }

    // All of it.
    pub fn row(&self, row: usize) -> Row
        requires { row < self.now.rows }
        ensures { result ≡ row_at self.now.words.now row }
    {
        self.row_from(ROW * row)
    }
}

// Of a block of rows from a place on, the place of the first whose item matches. Its turns are few, and how many is known: so they are compiled one
// behind the other, and no loop of five instructions is left, which takes twice as long where it lies across two lines of the program.
#[inline(always)]
#[tactic(auto, unfolding(crate::specs::Layout::row_at))]
fn seek_in_block(words: &[u32], place: usize, item: Item) -> Option<usize>
    requires { IsPlace (row_of place) place × (place_of (row_of place + BLOCK) ≤ length words.now) }
    ensures { MatchOption result (NoneMatches item (row_at words.now) (row_of place) (row_of place + BLOCK)) (FirstAt item (row_at words.now) (row_of place) (row_of place + BLOCK)) }
{
    for row in 0..BLOCK {
        let word = place + ROW * row;
        let key = words[word];
        if stamps::items_match(item, Item { key }) {
            return Some(word);
        }
    }
    None
}

// The same of the rows up to the end, which are fewer than a block.
#[inline(never)]
#[tactic(auto, unfolding(crate::specs::Layout::row_at))]
fn seek_in_rest(words: &[u32], place: usize, end: usize, item: Item) -> Option<usize>
    requires { IsPlace (row_of end) place × IsPlace (row_of end) end × (end ≤ length words.now) }
    ensures { MatchOption result (NoneMatches item (row_at words.now) (row_of place) (row_of end)) (FirstAt item (row_at words.now) (row_of place) (row_of end)) }
{
    let mut word = place;
    while word < end {
        let key = words[word];
        if stamps::items_match(item, Item { key }) {
            return Some(word);
        }
        word += ROW;
    }
    None
}

// The number of the row at a place.
pub fn row_at_place(place: usize) -> usize
    ensures { result ≡ row_of place }
{
    place / ROW
}

// Writes a thing of so many words, from word number at on.
fn put<const WIDTH: usize>(words: &mut [u32], at: usize, thing: [u32; WIDTH])
    requires { at + WIDTH ≤ length words.old }
    ensures { words.new ≡ sets words.old at thing.entry }
{
    words[at..at + WIDTH].copy_from_slice(&thing);
}

// Row number row becomes x.
#[tactic(auto, unfolding(crate::specs::Layout::put_row))]
pub fn put_row(sheet: &mut [u32], row: usize, x: Row)
    requires { rows_need (row + 1) ≤ length sheet.old }
    ensures { sheet.new ≡ put_row row x sheet.old }
{
    put(sheet, ROW * row, [x.item.key, x.ats, x.dts]);
}

// The row's DTS becomes t.
#[tactic(auto, using(crate::proofs::LayoutMeaning::put_dts_is))]
pub fn put_dts(sheet: &mut [u32], row: usize, t: u32)
    requires { rows_need (row + 1) ≤ length sheet.old }
    ensures { sheet.new ≡ put_row row (stamp t (row_at sheet.old row)) sheet.old }
{
    sheet[ROW * row + 2] = t;
}

// Entry number e of a list.
#[tactic(auto, unfolding(crate::specs::Layout::entry_at))]
pub fn entry_at(probe: &[u32], list: usize, e: usize) -> Entry
    requires { list_need list (e + 1) ≤ length probe.now }
    ensures { result ≡ entry_at probe.now list e }
{
    let at = LIST * list + ENTRY * e;
    Entry {
        last: probe[at],
        probe: probe[at + 1],
    }
}

// Entry number e of a list becomes x.
#[tactic(auto, unfolding(crate::specs::Layout::put_entry))]
pub fn put_entry(probe: &mut [u32], list: usize, e: usize, x: Entry)
    requires { list_need list (e + 1) ≤ length probe.old }
    ensures { probe.new ≡ put_entry list e x probe.old }
{
    put(probe, LIST * list + ENTRY * e, [x.last, x.probe]);
}

// Pair number w, of rows of A and B with these items; the two have one key.
#[tactic(auto, unfolding(crate::specs::Layout::put_pair, crate::specs::Layout::shows))]
fn put_pair(out: &mut [u32], w: usize, a: u32, b: u32, of_a: Item, of_b: Item)
    requires { pairs_need (w + 1) ≤ length out.old }
    ensures { out.new ≡ put_pair w (record { a = a; b = b; shown = shows of_a of_b }) out.old }
{
    put(out, PAIR * w, [a, b, of_a.key]);
}

// Pair number w, of a row of the source and the row of the other source that faces it.
pub fn put_told(
    out: &mut [u32],
    w: usize,
    source: Source,
    own: u32,
    facing: u32,
    own_item: Item,
    facing_item: Item,
)
    requires { pairs_need (w + 1) ≤ length out.old }
    ensures { out.new ≡ put_pair w (tell source (record { a = own; b = facing }) own_item facing_item) out.old }
{
    match source {
        Source::A => put_pair(out, w, own, facing, own_item, facing_item),
        Source::B => put_pair(out, w, facing, own, facing_item, own_item),
    }
}

// Row by itself number w, with its item.
#[tactic(auto, unfolding(crate::specs::Layout::put_single))]
pub fn put_single(out: &mut [u32], w: usize, row: u32, item: Item)
    requires { singles_need (w + 1) ≤ length out.old }
    ensures { out.new ≡ put_single w (record { row = row; key = item.key }) out.old }
{
    put(out, SINGLE * w, [row, item.key]);
}
