//! What puts the text of an entry of a certificate into memory that is there already, as `byte_putting` does it; and
//! the texts of lists of ids. An entry's room is the most bytes that its text needs.
ghost use Rattle.std.specs.Prelude.{◌≤◌, ◌+◌, ◌*◌, length};
ghost use Rattle.serde_json.specs.Written.{compact_text};
ghost use Rattle.ov_certfile.specs.DataOf.{ids_data};
ghost use Rattle.ov_certwriter.specs.Code.Blocks.{Puts};

use crate::byte_putting::{put_byte, put_comma, put_whole};
use ov_ids::NodeId;

/// An entry of a certificate, a pair or a fan.
pub(crate) trait Entry: Sync {
    ghost use Rattle.std.specs.Prelude.{◌≡◌, ◌<◌, ◌≤◌, ◌-◌, ◌^◌, List, ℕ, length, min};
    ghost use Rattle.serde_json.specs.Data.{Data};
    ghost use Rattle.serde_json.specs.Written.{compact_text};
    ghost use Rattle.ov_certwriter.specs.Code.Blocks.{Puts, entry_room};
    ghost use Rattle.ov_certwriter.specs.Length.{ids_on};

    ghost as_data: { Self → Data };

    ghost paths_of: { Self → List (List ℕ) };

    /// A number that the entry's room is not above; the largest number, if the room is so large.
    fn room(&self) -> usize
        ensures { result < usize.MAX → entry_room (paths_of self.now) ≤ result };

    /// How many ids the entry's paths have together, if these are so many; at most the largest number. The time does
    /// not depend on their lengths.
    fn ids(&self, paths: u64) -> u64
        requires { length (paths_of self.now) ≡ paths }
        ensures { result ≡ min (ids_on (paths_of self.now)) (2 ^ 64 - 1) };

    /// Puts the entry at a place. It needs less than its room.
    fn put_into(&self, out: &mut [u8], at: usize) -> usize
        ensures text { Puts (compact_text (as_data self.now)) out.old at out.new result }
        ensures short { length (compact_text (as_data self.now)) < entry_room (paths_of self.now) };
}

/// Puts the array of these ids.
pub(crate) fn put_ids(out: &mut [u8], at: usize, ids: &[NodeId]) -> usize
    ensures text { Puts (compact_text (ids_data ids.now)) out.old at out.new result }
    ensures short { length (compact_text (ids_data ids.now)) ≤ 11 * length ids.now + 2 }
{
    let mut end = put_byte(out, at, b'[');
    let mut later = false;
    for id in ids {
        let id_at = put_comma(out, end, later);
        end = put_whole(out, id_at, id.number());
        later = true;
    }
    put_byte(out, end, b']')
}
