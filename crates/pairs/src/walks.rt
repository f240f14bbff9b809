// The pairs of runs and drains: a grid of two sources' rows, of which some pairs are wanted.
ghost use Rattle.std.specs.Prelude.{◌≡◌, ◌&&◌, not, ◌*◌, ◌+◌, ◌≤◌, ◌<◌, length};

use crate::due::Due;
pub use crate::lones::next_match;
use crate::rooms::Written;
use sheets::layout::{Sheet, put_told, row_at_place};
use sheets::lists::{Lists, ProbeList};
use sheets::parts::Parts;
use stamps::{Row, Source};

// The pairs looked at: all, as a drain does, or the spooled rows of a portion with memory rows, as a run does.
#[derive(Clone, Copy, PartialEq, Eq)]
pub enum Scope {
    All,
    Portion(u32),
}

impl Scope {
    ghost use Rattle.pairs.specs.Pairs.{takes, meets};

    // A row of the first source that is looked at.
    fn takes(self, parts: Parts, row: Row) -> bool
        ensures { result ≡ takes self parts.count row }
    {
        match self {
            Scope::All => true,
            Scope::Portion(part) => row.dts != 0 && parts.of(row.item) == part,
        }
    }

    // A row of the facing source that is looked at.
    fn meets(self, row: Row) -> bool
        ensures { result ≡ meets self row }
    {
        match self {
            Scope::All => true,
            Scope::Portion(_) => row.dts == 0,
        }
    }
}

// A row of the first source, and a row of the one that faces it.
#[derive(Clone, Copy)]
pub struct Spot {
    pub row: usize,
    pub facing: usize,
}

// The source that goes first with its rows, those of the source that faces it, the probe lists of both, the pairs looked at.
#[derive(Clone, Copy)]
pub struct Job<'s> {
    pub source: Source,
    pub own: Sheet<'s>,
    pub facing: Sheet<'s>,
    pub lists: Lists<'s>,
    pub scope: Scope,
    pub ghost own_few: { own.rows ≤ 4096 },
    pub ghost facing_few: { facing.rows ≤ 4096 },
}

impl Job<'_> {
    ghost use Rattle.stamps.specs.Stamps.{done_before};
    ghost use Rattle.sheets.specs.Layout.{pairs_need, row_at};
    ghost use Rattle.sheets.specs.Lists.{entries_of};
    ghost use Rattle.pairs.specs.Pairs.{meets, due, wanted, table_of, NextIs, left_from, wanted_pairs, pairs_from, Writes};

    // Of two matching rows: are they looked at, and not done before?
    fn is_open(&self, mine: &ProbeList, theirs: &ProbeList, x: &Row, y: Row) -> bool
        ensures { result ≡ (meets self.now.scope y && not (done_before (entries_of mine.now) (entries_of theirs.now) x.now y)) }
    {
        self.scope.meets(y) && !mine.done_before(theirs, x, y)
    }

    // The first facing row from `from` on that makes a wanted pair with x: of most rows only the keys are read.
    fn next_in_row(
        &self,
        mine: &ProbeList,
        theirs: &ProbeList,
        x: &Row,
        from: usize,
    ) -> Option<usize>
        ensures { NextIs (λ j. due self.now.scope (entries_of mine.now) (entries_of theirs.now) x.now (row_at self.now.facing.words.now j)) self.now.facing.rows from result }
    {
        let facing = &self.facing;
        let mut place = facing.place(from.min(facing.rows));
        while let Some(found) = facing.seek(place, x.item) {
            if self.is_open(mine, theirs, x, facing.row_from(found)) {
                return Some(row_at_place(found));
            }
            place = facing.behind(found);
        }
        None
    }

    // The first facing row from the spot on that makes a wanted pair with the spot's row.
    pub fn next_facing(&self, spot: Spot) -> Option<usize>
        requires { spot.row < self.now.own.rows }
        ensures { NextIs (λ j. wanted self.now.scope (table_of self.now) (record { a = spot.row; b = j })) self.now.facing.rows spot.facing result }
    {
        let x = self.own.row(spot.row);
        if !self.scope.takes(self.lists.parts, x) {
            return None;
        }
        let part = self.lists.parts.of(x.item);
        let mine = self.lists.of(self.source, part);
        let theirs = self.lists.of(stamps::other_source(self.source), part);
        self.next_in_row(&mine, &theirs, &x, spot.facing)
    }

    // The number of wanted pairs, without writing any.
    pub fn count_due(&self) -> usize
        ensures { result ≡ length (wanted_pairs self.now.scope (table_of self.now)) }
    {
        Due::all(self).count()
    }

    // Writes the wanted pairs from the spot on until the room is used up; position is the spot's.
    fn write_due(&self, from: Spot, position: usize, out: &mut [u32], room: usize) -> Written
        requires { (position ≤ self.now.own.rows * self.now.facing.rows) × (pairs_need room ≤ length out.old) }
        ensures { let t = table_of self.now in Writes self.now.source t (left_from self.now.scope t from.row from.facing) position room out.old out.new result }
    {
        let others = self.facing.rows;
        let mut count = 0;
        let mut next = position;
        for spot in (Due { job: *self, from }) {
            if count == room {
                return Written {
                    count,
                    more: true,
                    next,
                };
            }
            let (x, y) = (self.own.item(spot.row), self.facing.item(spot.facing));
            put_told(
                out,
                count,
                self.source,
                spot.row as u32,
                spot.facing as u32,
                x,
                y,
            );
            count += 1;
            next = spot.row * others + spot.facing + 1;
        }
        Written {
            count,
            more: false,
            next: self.own.rows * others,
        }
    }

    // Writes the wanted pairs from the position on until the room is used up.
    pub fn write_from(&self, position: usize, out: &mut [u32], room: usize) -> Written
        requires { (position ≤ self.now.own.rows * self.now.facing.rows) × (pairs_need room ≤ length out.old) }
        ensures { let t = table_of self.now in Writes self.now.source t (pairs_from self.now.scope position t) position room out.old out.new result }
    {
        let others = self.facing.rows;
        if others == 0 {
            return Written {
                count: 0,
                more: false,
                next: 0,
            };
        }
        let from = Spot {
            row: position / others,
            facing: position % others,
        };
        self.write_due(from, position, out, room)
    }
}
