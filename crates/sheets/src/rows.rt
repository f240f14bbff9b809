// The rows of one source: counting those in memory, choosing the victim, flushing a portion.
ghost use Rattle.std.specs.Prelude.{◌≡◌, ◌+◌, ◌^◌, ◌≤◌, ◌<◌, length, get_or};
ghost use Rattle.stamps.specs.Counting.{values};
ghost use Rattle.sheets.specs.Layout.{rows_need, row_at};
ghost use Rattle.sheets.specs.Rows.{hot, memory_rows, portion_rows, latest, Flushes, held_in, first_largest, largest_part, victim};

use crate::layout::{Sheet, put_dts};
use crate::parts::Parts;
use stamps::Source;

// The most partitions that there may be.
const PARTS: usize = 16;

impl Sheet<'_> {
    // The number of rows in memory. A scan whose turn is a test or two is written out: a chain (`filter`, `count`) is neither vectorised nor unrolled.
    pub fn count_memory(&self) -> usize
        ensures { result ≡ memory_rows (row_at self.now.words.now) self.now.rows }
    {
        let mut count = 0;
        for row in 0..self.rows {
            if self.dts(row) == 0 {
                count += 1;
            }
        }
        count
    }

    // The memory rows of each partition, in one pass: an array for as many as there may be, since there is no heap, of which `parts.count` are used.
    fn count_portions(&self, parts: Parts) -> [usize; PARTS]
        requires { parts.count ≤ 16 }
        ensures { result ≡ values (λ q. portion_rows parts.count q (row_at self.now.words.now) self.now.rows) 16 }
    {
        let mut sizes = [0; PARTS];
        for row in 0..self.rows {
            if self.dts(row) == 0 {
                sizes[parts.of(self.item(row)) as usize] += 1;
            }
        }
        sizes
    }

    // The partition of which the source has most rows in memory.
    fn largest_part(&self, parts: Parts) -> u32
        requires { parts.count ≤ 16 }
        ensures { result ≡ largest_part parts.count (held_in parts.count (row_at self.now.words.now) self.now.rows) }
    {
        let sizes = self.count_portions(parts);
        first_largest(&sizes[..parts.count as usize])
    }

    // Row number row is in memory and of the partition.
    fn is_hot(&self, row: usize, parts: Parts, part: u32) -> bool
        requires { row < self.now.rows }
        ensures { result ≡ hot parts.count part (row_at self.now.words.now row) }
    {
        self.dts(row) == 0 && parts.of(self.item(row)) == part
    }

    // The largest DTS in a portion's spooled rows: 0 exactly if it has none, since DTS 0 is that of a row in memory. No Option: `latest`, of which the
    // theorems on runs speak, is this number.
    pub fn latest_dts(&self, parts: Parts, part: u32) -> u32
        ensures { result ≡ latest parts.count part (row_at self.now.words.now) self.now.rows }
    {
        let mut last = 0;
        for row in 0..self.rows {
            let dts = self.dts(row);
            if last < dts && parts.of(self.item(row)) == part {
                last = dts;
            }
        }
        last
    }
}

// The portion to flush when memory is full. Where a portion is named, its source and its partition stay apart, as document 01's calls name them.
#[derive(Clone, Copy, PartialEq, Eq)]
pub struct Victim {
    pub source: Source,
    pub part: u32,
}

// The first of the largest sizes.
fn first_largest(sizes: &[usize]) -> u32
    requires { (0 < length sizes.now) × (length sizes.now ≤ 16) }
    ensures { result ≡ first_largest (λ q. get_or sizes.now q 0) (length sizes.now) }
{
    let mut best = 0;
    for (part, size) in sizes.iter().enumerate() {
        if sizes[best] < *size {
            best = part;
        }
    }
    best as u32
}

// Each source comes with the number of its rows in memory, so only the victim's sheet is gone over, and only once.
pub fn find_victim(a: &Sheet, a_held: usize, b: &Sheet, b_held: usize, parts: Parts) -> Victim
    requires few_parts { parts.count ≤ 16 }
    requires held { (a_held ≡ memory_rows (row_at a.now.words.now) a.now.rows) × (b_held ≡ memory_rows (row_at b.now.words.now) b.now.rows) }
    ensures { result ≡ victim parts.count (held_in parts.count (row_at a.now.words.now) a.now.rows) (held_in parts.count (row_at b.now.words.now) b.now.rows) }
{
    let (source, sheet) = if a_held < b_held {
        (Source::B, b)
    } else {
        (Source::A, a)
    };
    Victim {
        source,
        part: sheet.largest_part(parts),
    }
}

// Flushes a portion; the answer is the number of rows flushed, by which the clock goes up.
pub fn flush(words: &mut [u32], rows: usize, parts: Parts, part: u32, clock: u32) -> u32
    requires { (rows_need rows ≤ length words.old) × (clock + rows < 2 ^ 32) }
    ensures { Flushes parts.count part clock rows words.old result words.new }
{
    let mut done = 0;
    for row in 0..rows {
        let sheet = Sheet { words, rows };
        if sheet.is_hot(row, parts, part) {
            done += 1;
            put_dts(words, row, clock + done);
        }
    }
    done
}
