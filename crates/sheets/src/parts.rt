// P, the number of partitions, and where each portion's probe list stands.
ghost use Rattle.std.specs.Prelude.{◌≡◌, ◌≤◌, ◌<◌};
ghost use Rattle.stamps.specs.Keys.{part_of};
ghost use Rattle.sheets.specs.Layout.{list_no};

use stamps::{Item, Source};

// P. That it is at most 16 is asked by those functions alone that need it: most of them serve any number of partitions.
#[derive(Clone, Copy)]
pub struct Parts {
    pub count: u32,
    pub ghost some: { 0 < count },
}

impl Parts {
    // The partition of an item.
    pub fn of(self, item: Item) -> u32
        ensures { (result ≡ part_of self.count item) × (result < self.count) }
    {
        stamps::part_of(self.count, item)
    }

    // The number of a portion's list: A's lists stand before B's.
    pub fn list_no(self, source: Source, part: u32) -> usize
        requires { (part < self.count) × (self.count ≤ 16) }
        ensures { (result ≡ list_no self.count source part) × (result < 32) }
    {
        match source {
            Source::A => part as usize,
            Source::B => (self.count + part) as usize,
        }
    }
}
