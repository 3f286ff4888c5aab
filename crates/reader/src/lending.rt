// The records of an accepted payload, from the scratch into the lent buffer: behind each stands its time.
ghost use Rattle.std.specs.Prelude.{◌≡◌, ◌+◌, ◌≤◌, length};
ghost use Rattle.oamd.specs.Tables.{record_bytes, record_stride};
ghost use Rattle.record.specs.Bytes.{set_from, bytes_at};
ghost use Rattle.reader.specs.Lending.{Lent, Lending};

use oamd::{RECORD_BYTES, RECORD_STRIDE, Timing};

// A record without its time, by words of eight bytes: the bytes from `from` on, laid from `at` on.
fn copy_record(scratch: &[u8], from: usize, records: &mut [u8], at: usize)
    requires record_bytes_in_bounds { from + record_bytes ≤ length scratch.now }
    requires record_stride_in_bounds { at + record_stride ≤ length records.old }
    ensures { records.new ≡ set_from at 0 (bytes_at scratch.now record_bytes from) records.old }
{
    record::store_eight(records, at, record::eight_at(scratch, from));
    record::store_eight(records, at + 8, record::eight_at(scratch, from + 8));
    record::store_eight(records, at + 16, record::eight_at(scratch, from + 16));
}

// All of them, object by object and of each object block by block.
pub fn lend_records(scratch: &[u8], count: usize, frame: u32, timing: Timing, records: &mut [u8])
    requires { Lending count timing scratch.now records.old }
    ensures { Lent count frame timing scratch.now records.old records.new }
{
    let mut blk: usize = 0;
    for i in 0..count {
        let at = RECORD_STRIDE * i;
        copy_record(scratch, RECORD_BYTES * i, records, at);
        let u = timing.updates[blk];
        record::store_time(records, at, record::time_of(frame, u.start));
        blk = record::next_block(blk, timing.blocks as usize);
    }
}
