// Room for the numbers of the longest buffers that the first check lets through, and no more: it is stack that each call takes.
ghost use Rattle.std.specs.Prelude.{◌≡◌, length};
ghost use Rattle.lent_bytes.specs.Exports.{most_bucket_bytes, most_entry_bytes};
ghost use Rattle.export_runs.specs.Numbers.{room_for};

use lent_bytes::check::MOST_CELLS;

const BUCKET_ROOM: usize = MOST_CELLS;

// An entry is three numbers.
const ENTRY_ROOM: usize = 3 * MOST_CELLS;

#[tactic(auto, unfolding(crate::specs::Numbers::room_for, lent_bytes::specs::Exports::most_bucket_bytes))]
pub fn bucket_room() -> [u32; BUCKET_ROOM]
    ensures { length result ≡ room_for most_bucket_bytes }
{
    [0; BUCKET_ROOM]
}

#[tactic(auto, unfolding(crate::specs::Numbers::room_for, lent_bytes::specs::Exports::most_entry_bytes))]
pub fn entry_room() -> [u32; ENTRY_ROOM]
    ensures { length result ≡ room_for most_entry_bytes }
{
    [0; ENTRY_ROOM]
}
