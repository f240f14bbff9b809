// The rows of a source that match no row of the other.
ghost use Rattle.std.specs.Prelude.{◌≡◌, ◌≤◌, ◌<◌, length};
ghost use Rattle.stamps.specs.Keys.{items_match};
ghost use Rattle.sheets.specs.Layout.{singles_need, row_at};
ghost use Rattle.pairs.specs.Pairs.{NextIs};
ghost use Rattle.pairs.specs.Lones.{items_in, is_lone, lones_from, Lists};

use crate::lone_rows::LoneRows;
use crate::rooms::Written;
use sheets::layout::{Sheet, put_single, row_at_place};
use stamps::Item;

// The first row from `from` on whose item matches.
pub fn next_match(sheet: &Sheet, from: usize, item: Item) -> Option<usize>
    ensures { NextIs (λ j. items_match item (row_at sheet.now.words.now j).item) sheet.now.rows from result }
{
    let place = sheet.place(from.min(sheet.rows));
    let found = sheet.seek(place, item)?;
    Some(row_at_place(found))
}

// Row number row matches no row across.
pub fn is_lone(own: &Sheet, facing: &Sheet, row: usize) -> bool
    requires { row < own.now.rows }
    ensures { result ≡ is_lone (items_in own.now.rows facing.now.rows own.now.words.now facing.now.words.now) row }
{
    next_match(facing, 0, own.item(row)).is_none()
}

// Writes the rows without partner from the position on until the room is used up. The loop is that of a job's pairs: a trait over both
// walks, with what each writes and where it stands, is longer than the two loops and no plainer. `LoneRows` is where the two sheets stand together.
pub fn write_lones(
    own: &Sheet,
    facing: &Sheet,
    position: usize,
    out: &mut [u32],
    room: usize,
) -> Written
    requires { (own.now.rows ≤ 4096) × (position ≤ own.now.rows) × (singles_need room ≤ length out.old) }
    ensures { let t = items_in own.now.rows facing.now.rows own.now.words.now facing.now.words.now in Lists t (lones_from position t) position room out.old out.new result }
{
    let mut count = 0;
    let mut next = position;
    for row in (LoneRows {
        own: *own,
        facing: *facing,
        from: position,
    }) {
        if count == room {
            return Written {
                count,
                more: true,
                next,
            };
        }
        put_single(out, count, row as u32, own.item(row));
        count += 1;
        next = row + 1;
    }
    Written {
        count,
        more: false,
        next: own.rows,
    }
}
