// A record's time: the eight bytes behind those that the payload gives, least byte first.
ghost use Rattle.std.specs.Prelude.{◌≡◌, ◌+◌, ◌*◌, ◌≤◌, ltb, length};
ghost use Rattle.bits.specs.Language.{pick};
ghost use Rattle.oamd.specs.Tables.{record_bytes, record_stride, frame_samples};
ghost use Rattle.oamd.specs.Time.{time_bytes_of};
ghost use Rattle.record.specs.Bytes.{set_from, time_at, same_bytes};

use crate::words::{eight_at, store_eight};
use oamd::{FRAME_SAMPLES, RECORD_BYTES};
use units::{SampleCount, SampleTime};

// When a block that starts at a sample of its frame does, by the number of the frame.
pub fn time_of(frame: u32, start: SampleCount) -> SampleTime
    ensures { result.0 ≡ frame * frame_samples + start.0 }
{
    SampleTime::in_frame(frame, SampleCount::new(FRAME_SAMPLES), start)
}

// The block of the next record: the next of the object, or the first of the next object.
pub fn next_block(blk: usize, blocks: usize) -> usize
    ensures { result ≡ pick (ltb (blk + 1) blocks) (blk + 1) 0 }
{
    if blk < blocks.saturating_sub(1) {
        blk + 1
    } else {
        0
    }
}

// Bytes 24 to 31 of the record that begins at `at`. There must be a whole record, as in laying.rt.
pub fn store_time(records: &mut [u8], at: usize, time: SampleTime)
    requires { at + record_stride ≤ length records.old }
    ensures { records.new ≡ set_from at record_bytes (time_bytes_of time.0) records.old }
{
    store_eight(records, at + RECORD_BYTES, time.raw());
}

// Whether bytes 24 to 31 of the record that begins at `at` are those of a time. There must be a whole record, as in laying.rt.
pub fn has_time(records: &[u8], at: usize, time: SampleTime) -> bool
    requires { at + record_stride ≤ length records.now }
    ensures { result ≡ same_bytes (time_at records.now at) (time_bytes_of time.0) }
{
    eight_at(records, at + RECORD_BYTES) == time.raw()
}
