// A frame that was read back, laid into the lent buffers: its line, and its records with their times.
ghost use Rattle.std.specs.Prelude.{◌≡◌, ◌≤◌, ◌<◌, length};
ghost use Rattle.oamd.specs.Tables.{most_objects, most_blocks, scratch_bytes};
ghost use Rattle.oamd.specs.LeastFirst.{least_first};
ghost use Rattle.text.specs.Lines.{texts_for};
ghost use Rattle.text.specs.Laying.{Laid};
ghost use Rattle.catalogue.specs.BackCalls.{update_in, update_of, line_of, object_of, records_of};

use crate::Page;
use oamd::{MOST_BLOCKS, RECORD_BYTES, Timing, Update};
use text::{lay_byte, lay_bytes};
use units::SampleCount;

// The bytes of a record's time.
const TIME_BYTES: usize = 8;

// The low bytes of a number, the least first.
fn lay_least(buffer: &mut [u8], at: usize, bytes: usize, v: u64) -> usize
    requires { bytes ≤ 8 }
    ensures { Laid buffer.old buffer.new at result (least_first bytes v) }
{
    lay_bytes(buffer, at, &v.to_le_bytes()[..bytes])
}

// What block blk has, where there is one.
fn update_at(t: Timing, blk: usize) -> Update
    requires { blk < most_blocks }
    ensures { result ≡ update_in t blk }
{
    if blk < t.blocks as usize {
        t.updates[blk]
    } else {
        Update {
            start: SampleCount::new(0),
            ramp: SampleCount::new(0),
        }
    }
}

// Start and ramp of each update; of those that there are not, 0.
fn lay_updates(lines: &mut [u8], at: usize, p: Page) -> usize
    ensures { Laid lines.old lines.new at result (texts_for most_blocks (update_of p)) }
{
    let mut to = at;
    for blk in 0..MOST_BLOCKS {
        let u = update_at(p.timing, blk);
        to = lay_least(lines, to, 2, u.start.raw() as u64);
        to = lay_least(lines, to, 2, u.ramp.raw() as u64);
    }
    to
}

// The line of a frame.
pub fn lay_line(lines: &mut [u8], at: usize, p: Page) -> usize
    ensures { Laid lines.old lines.new at result (line_of p) }
{
    let to = lay_least(lines, at, 4, p.frame as u64);
    let to = lay_byte(lines, to, p.refusal);
    let to = lay_byte(lines, to, p.objects);
    let to = lay_byte(lines, to, p.timing.blocks);
    let to = lay_byte(lines, to, 0);
    lay_updates(lines, to, p)
}

// The records of an object, block by block.
fn lay_object(records: &mut [u8], at: usize, p: Page, store: &[u8], j: usize) -> usize
    requires { (j < p.objects) × (p.objects ≤ most_objects) × (p.timing.blocks ≤ most_blocks) × (length store.now ≡ scratch_bytes) }
    ensures { Laid records.old records.new at result (object_of p store.now j) }
{
    let step = RECORD_BYTES * p.objects as usize;
    let mut to = at;
    for blk in 0..p.timing.blocks as usize {
        let place = step * blk + RECORD_BYTES * j;
        let end = place + RECORD_BYTES;
        let time = record::time_of(p.frame, p.timing.updates[blk].start);
        to = lay_bytes(records, to, &store[place..end]);
        to = lay_least(records, to, TIME_BYTES, time.raw());
    }
    to
}

// The records of a frame, object by object.
pub fn lay_records(records: &mut [u8], at: usize, p: Page, store: &[u8]) -> usize
    requires { (p.objects ≤ most_objects) × (p.timing.blocks ≤ most_blocks) × (length store.now ≡ scratch_bytes) }
    ensures { Laid records.old records.new at result (records_of p store.now) }
{
    let mut to = at;
    for j in 0..p.objects as usize {
        to = lay_object(records, to, p, store, j);
    }
    to
}
