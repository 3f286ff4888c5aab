// A byte of each record, counted by its value.
ghost use Rattle.std.specs.Prelude.{◌≡◌, ◌*◌, ◌≤◌, ◌<◌, length};
ghost use Rattle.oamd.specs.Tables.{record_stride, room_bytes};
ghost use Rattle.summary.specs.Counting.{Low, bumped, Counted, columns_counted};

use crate::Summary;
use oamd::{RECORD_STRIDE, ROOM_BYTES};

// The bytes of a record that are counted.
const ACTIVE: usize = 0;

const CLASS: usize = 1;

const GAIN: usize = 2;

const ZONE: usize = 11;

// One more of a value; a value that has no count is not counted.
pub fn count_one(counts: &mut [u32], v: u8)
    requires { Low 1 counts.old }
    ensures { counts.new ≡ bumped v counts.old }
{
    let at = v as usize;
    if at < counts.len() {
        counts[at] += 1;
    }
}

// Byte k of each of n records.
pub fn count_column(room: &[u8; ROOM_BYTES], n: usize, k: usize, counts: &mut [u32])
    requires n_bound { (record_stride * n ≤ room_bytes) × (length room.now ≡ room_bytes) × (k < record_stride) }
    requires low { Low n counts.old }
    ensures { Counted k n room.now counts.old counts.new }
{
    for i in 0..n {
        count_one(counts, room[RECORD_STRIDE * i + k]);
    }
}

// Each byte that is counted, of each of n records.
pub fn count_records(s: &mut Summary, room: &[u8; ROOM_BYTES], n: usize)
    requires n_bound { (record_stride * n ≤ room_bytes) × (length room.now ≡ room_bytes) }
    requires low { Low n s.old.gains × Low n s.old.zones × Low n s.old.classes × Low n s.old.activity }
    ensures { s.new ≡ columns_counted n room.now s.old }
{
    count_column(room, n, GAIN, &mut s.gains);
    count_column(room, n, ZONE, &mut s.zones);
    count_column(room, n, CLASS, &mut s.classes);
    count_column(room, n, ACTIVE, &mut s.activity);
}
