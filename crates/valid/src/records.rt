// A record among all of them: they stand object by object, and of each object block by block.
ghost use Rattle.std.specs.Prelude.{◌≡◌, ◌+◌, ◌*◌, ◌<◌, ◌≤◌, length};
ghost use Rattle.oamd.specs.Tables.{record_stride};
ghost use Rattle.form.specs.Valid.{record_valid};
ghost use Rattle.valid.specs.Turns.{turn_behind};
ghost use Rattle.record.specs.Bytes.{record_at};

use crate::Turn;
use crate::scenes::{sent_valid, unsent_valid};

// The turn behind: the next block of the object, or the first of the next object.
pub fn next_turn(t: Turn, blocks: u32) -> Turn
    requires { (t.object ≤ 65025) × (t.block < blocks) }
    ensures { result ≡ turn_behind blocks t }
{
    if t.block + 1 < blocks {
        Turn {
            block: t.block + 1,
            ..t
        }
    } else {
        Turn {
            object: t.object + 1,
            block: 0,
        }
    }
}

// The record that begins at `at`, of an object of a class. Whether its render info is sent is told once, not at each value.
pub fn valid_at(class: u8, records: &[u8], at: usize) -> bool
    requires { at + record_stride ≤ length records.now }
    ensures { result ≡ record_valid class (record_at records.now at) }
{
    if record::carries_at(records, at) {
        return sent_valid(class, records, at);
    }
    unsent_valid(
        class,
        record::scene_at(records, at),
        record::divergence_at(records, at),
        record::precise_at(records, at),
    )
}

// How many records a programme and a timing ask for.
pub fn record_count(objects: u8, blocks: u8) -> usize
    ensures { (result ≡ objects * blocks) × (result ≤ 255 * blocks) }
{
    objects as usize * blocks as usize
}
