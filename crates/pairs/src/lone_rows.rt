// The rows of a source that match no row of the other, one after the other.
ghost use Rattle.std.specs.Prelude.{◌≤◌};

use crate::lones::is_lone;
use sheets::layout::Sheet;

// Those from a row on. The count keeps the next row's number within its type.
#[derive(Clone, Copy)]
pub struct LoneRows<'s> {
    pub own: Sheet<'s>,
    pub facing: Sheet<'s>,
    pub from: usize,
    pub ghost few: { own.rows ≤ 4096 },
}

impl LoneRows<'_> {
    ghost use Rattle.pairs.specs.Lones.{is_lone, walked};
    ghost use Rattle.pairs.specs.Pairs.{NextIs};

    // The first of them.
    fn first(&self) -> Option<usize>
        ensures { NextIs (is_lone (walked self.now)) self.now.own.rows self.now.from result }
    {
        (self.from..self.own.rows).find(|&row| is_lone(&self.own, &self.facing, row))
    }
}

impl Iterator for LoneRows<'_> {
    ghost use Rattle.std.specs.Iterator.{item_count};
    ghost use Rattle.pairs.specs.Lones.{lones_left, LoneStep};

    type Item = usize;

    ghost next_gives = { LoneStep };

    ghost remaining = { item_count lones_left };

    fn next(&mut self) -> Option<usize> {
        let row = self.first()?;
        self.from = row + 1;
        Some(row)
    }
}
