// A job's wanted pairs, one after the other.
ghost use Rattle.std.specs.Prelude.{◌≡◌};
ghost use Rattle.std.specs.Iterator.{item_count};
ghost use Rattle.pairs.specs.Pairs.{due_left, DueStep};

use crate::walks::{Job, Spot};

// Those from a spot on.
#[derive(Clone, Copy)]
pub struct Due<'s> {
    pub job: Job<'s>,
    pub from: Spot,
}

impl<'s> Due<'s> {
    // All of them.
    pub fn all(job: &Job<'s>) -> Due<'s>
        ensures { result ≡ record { job = job.now; from = record { row = 0; facing = 0 } } }
    {
        Due {
            job: *job,
            from: Spot { row: 0, facing: 0 },
        }
    }
}

impl Iterator for Due<'_> {
    type Item = Spot;

    ghost next_gives = { DueStep };

    ghost remaining = { item_count due_left };

    // The spot is the walk's own state, and has to stand where the walk is left: a `for` over the rows would copy it out and back.
    fn next(&mut self) -> Option<Spot> {
        while self.from.row < self.job.own.rows {
            let row = self.from.row;
            if let Some(facing) = self.job.next_facing(self.from) {
                self.from.facing = facing + 1;
                return Some(Spot { row, facing });
            }
            self.from = Spot {
                row: row + 1,
                facing: 0,
            };
        }
        None
    }
}
