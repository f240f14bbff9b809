// The pairs of an arrival: the new row with each matching memory row of the other source.
ghost use Rattle.std.specs.Prelude.{◌≡◌, ℕ, ◌+◌, ◌≤◌, ◌<◌, length};
ghost use Rattle.stamps.specs.Counting.{tally, span};
ghost use Rattle.sheets.specs.Layout.{pairs_need, row_at};
ghost use Rattle.pairs.specs.Pairs.{met, arrival_pairs, tell_all, put_from};
ghost use Rattle.sheets.specs.Rows.{flushed};

use sheets::layout::{Sheet, put_told};
use sheets::parts::Parts;
use stamps::{Item, Source};

// Row number row matches the item and is in memory.
fn is_met(sheet: &Sheet, row: usize, item: Item) -> bool
    requires { row < sheet.now.rows }
    ensures { result ≡ met item (row_at sheet.now.words.now row) }
{
    stamps::items_match(item, sheet.item(row)) && sheet.dts(row) == 0
}

// The number of memory rows that match the item, by a loop, as in sheets' count_memory.
pub fn count_met(sheet: &Sheet, item: Item) -> usize
    ensures { result ≡ tally (λ j. met item (row_at sheet.now.words.now j)) sheet.now.rows }
{
    let mut count = 0;
    for row in 0..sheet.rows {
        if is_met(sheet, row, item) {
            count += 1;
        }
    }
    count
}

// As count_met, after a flush of the sheet's portion part. Matching rows are of the item's own partition.
pub fn count_met_after(sheet: &Sheet, item: Item, parts: Parts, part: u32) -> usize
    ensures { (clock : ℕ) → result ≡ tally (λ j. met item (flushed parts.count part clock (row_at sheet.now.words.now) j)) sheet.now.rows }
{
    if parts.of(item) == part {
        return 0;
    }
    count_met(sheet, item)
}

// Writes the n pairs of row new of the source, whose item this is; sheet is the other source's. It counts what it has written, and stops with
// the last of them: a chain of `filter`, `take` and `enumerate`, with a closure that writes, would be no plainer.
pub fn write_met(sheet: &Sheet, item: Item, source: Source, new: u32, n: usize, out: &mut [u32])
    requires { (sheet.now.rows ≤ 4096) × (n ≡ length (arrival_pairs new item (row_at sheet.now.words.now) (span 0 sheet.now.rows))) × (pairs_need n ≤ length out.old) }
    ensures { out.new ≡ put_from 0 (tell_all source (λ i. item) (λ j. (row_at sheet.now.words.now j).item) (arrival_pairs new item (row_at sheet.now.words.now) (span 0 sheet.now.rows))) out.old }
{
    let mut written = 0;
    for row in 0..sheet.rows {
        if written == n {
            return;
        }
        if is_met(sheet, row, item) {
            put_told(out, written, source, new, row as u32, item, sheet.item(row));
            written += 1;
        }
    }
}
