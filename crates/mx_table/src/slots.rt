//! Which slots the rows have.
ghost use Rattle.std.specs.Prelude.{◌≡◌, List, length};
ghost use Rattle.mx_history.specs.declared.row.Row.{Row};
ghost use Rattle.mx_history.specs.Slots.{lowest_free};
ghost use Rattle.mx_history.specs.Rows.{slots_in};
ghost use Rattle.mx_table.specs.Kept.{AreCounts};

use crate::places::place_of;
use mx_types::MOST_HANDLES;

// Counts, not bits: a removal may clear a bit only where no other row has the slot, and a count needs no proof of that.
// rule core-slots
/// The lowest slot that no row has, by how many rows have each; 255 where each is taken.
pub fn lowest_free(counts: &[u32]) -> u8
    requires { length counts.now ≡ MOST_HANDLES }
    ensures { (rows : List Row) → AreCounts counts.now rows → result ≡ lowest_free (slots_in rows) }
{
    match place_of(counts, 0) {
        Some(slot) => slot as u8,
        None => 255,
    }
}
