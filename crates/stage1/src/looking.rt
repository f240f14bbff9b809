// What an arrival reads of the rows before it changes them: the portion that has to go, and the pairs of the new row.
ghost use Rattle.std.specs.Prelude.{◌≡◌, ℕ, ◌≤◌, length};
ghost use Rattle.stamps.specs.Counting.{tally};
ghost use Rattle.stamps.specs.Sources.{other};
ghost use Rattle.sheets.specs.Layout.{pairs_need, row_at};
ghost use Rattle.pairs.specs.Pairs.{met, tell_all, put_from};
ghost use Rattle.rules.specs.Refusals.{room_for, make_room, arrived};
ghost use Rattle.rules.specs.World.{rows_of};
ghost use Rattle.checks.specs.Passed.{Rows};
ghost use Rattle.checks.specs.Viewed.{viewed};
ghost use Rattle.stage1.specs.Work.{rows_after};

use checks::refusals::BoxView;
use pairs::arrivals::{count_met, count_met_after, write_met};
use sheets::layout::Sheet;
use sheets::parts::Parts;
use sheets::rows::{Victim, find_victim};
use stamps::{Item, Source, other_source};

// The box as it is read, once its sheets are known to be long enough for its rows.
#[derive(Clone, Copy)]
pub struct RowsView<'s> {
    pub view: BoxView<'s>,
    pub ghost rows: { Rows view.session (length view.a.now) (length view.b.now) },
}

// The pairs that the item will make once there is room, told before the flush. The sheet is that of source.
fn count_new(sheet: &Sheet, item: Item, source: Source, parts: Parts, room: Option<Victim>) -> usize
    ensures { (clock : ℕ) → result ≡ tally (λ j. met item (rows_after room source parts.count clock (row_at sheet.now.words.now) j)) sheet.now.rows }
{
    match room {
        Some(victim) if victim.source == source => {
            count_met_after(sheet, item, parts, victim.part)
        }
        _ => count_met(sheet, item),
    }
}

impl RowsView<'_> {
    // The portion to flush, where memory is full.
    #[tactic(auto, using(sheets::proofs::Laws::memory_few), unfolding(rules::specs::Refusals::room_for))]
    pub fn find_room(&self) -> Option<Victim>
        ensures { result ≡ room_for (viewed self.now.view) }
    {
        let session = self.view.session;
        let parts = Parts {
            count: session.parts,
        };
        let a = self.view.sheet(Source::A);
        let b = self.view.sheet(Source::B);
        let a_held = a.count_memory();
        let b_held = b.count_memory();
        if a_held + b_held < session.slots as usize {
            return None;
        }
        Some(find_victim(&a, a_held, &b, b_held, parts))
    }

    // The pairs that the item will make once there is room.
    pub fn count_pairs(&self, source: Source, item: Item, room: Option<Victim>) -> u32
        ensures { result ≡ length (arrived source item (make_room room (viewed self.now.view))) }
    {
        let parts = Parts {
            count: self.view.session.parts,
        };
        let facing = other_source(source);
        count_new(&self.view.sheet(facing), item, facing, parts, room) as u32
    }

    // Writes the count pairs of the item, where there is room in the box.
    pub fn write_pairs(&self, source: Source, item: Item, count: u32, out: &mut [u32])
        requires { (count ≡ length (arrived source item (viewed self.now.view))) × (pairs_need count ≤ length out.old) }
        ensures { let w = viewed self.now.view in out.new ≡ put_from 0 (tell_all source (λ i. item) (λ j. (rows_of w (other source) j).item) (arrived source item w)) out.old }
    {
        let sheet = self.view.sheet(other_source(source));
        let new = self.view.session.feeds.of(source).rows;
        write_met(&sheet, item, source, new, count as usize, out)
    }
}
