// A record's values, laid into the bytes that begin at `at`. There must be a whole record: a test would stand in the reader's inner loop.
ghost use Rattle.std.specs.Prelude.{◌≡◌, ◌+◌, ◌≤◌, length};
ghost use Rattle.oamd.specs.Tables.{record_bytes};
ghost use Rattle.oamd.specs.Record.{record_of, record_bytes_of, divergence_bytes, precise_bytes};
ghost use Rattle.oamd.specs.Extended.{no_divergence, no_precise};
ghost use Rattle.record.specs.Bytes.{divergence_byte, precise_byte, set_from};

use oamd::{Divergence, Precise, Scene};

// The record of a scene, with nothing from an extended element.
#[tactic(auto, unfolding(oamd::specs::Record::record_bytes_of))]
pub fn store_scene(records: &mut [u8], at: usize, r: Scene)
    requires { at + record_bytes ≤ length records.old }
    ensures { records.new ≡ set_from at 0 (record_bytes_of (record_of r no_divergence no_precise)) records.old }
{
    records[at + 0] = r.active;
    records[at + 1] = r.class;
    records[at + 2] = r.gain;
    records[at + 3] = r.priority;
    records[at + 4] = r.location.x;
    records[at + 5] = r.location.y;
    records[at + 6] = r.location.z;
    records[at + 7] = r.location.distance;
    records[at + 8] = r.volume.width;
    records[at + 9] = r.volume.depth;
    records[at + 10] = r.volume.height;
    records[at + 11] = r.zone.index;
    records[at + 12] = r.zone.elevation;
    records[at + 13] = r.screen.used;
    records[at + 14] = r.screen.factor;
    records[at + 15] = r.screen.depth;
    records[at + 16] = r.snap;
    records[at + 17] = 0;
    records[at + 18] = 0;
    records[at + 19] = 0;
    records[at + 20] = 0;
    records[at + 21] = 0;
    records[at + 22] = 0;
    records[at + 23] = 0;
}

// Bytes 17 to 19 of a record.
pub fn store_divergence(records: &mut [u8], at: usize, d: Divergence)
    requires { at + record_bytes ≤ length records.old }
    ensures { records.new ≡ set_from at divergence_byte (divergence_bytes d) records.old }
{
    records[at + 17] = d.used;
    records[at + 18] = d.mode;
    records[at + 19] = d.value;
}

// Bytes 20 to 23 of a record.
pub fn store_precise(records: &mut [u8], at: usize, p: Precise)
    requires { at + record_bytes ≤ length records.old }
    ensures { records.new ≡ set_from at precise_byte (precise_bytes p) records.old }
{
    records[at + 20] = p.presence;
    records[at + 21] = p.x;
    records[at + 22] = p.y;
    records[at + 23] = p.z;
}
