// The object element's fields: the timing, and the blocks of all objects, read from the records' bytes (5.5.5, 5.5.8).
ghost use Rattle.std.specs.Prelude.{◌+◌, ◌*◌, ◌≤◌, length};
ghost use Rattle.oamd.specs.Tables.{most_blocks, record_stride};
ghost use Rattle.record.specs.Bytes.{records_at};
ghost use Rattle.laying.specs.Laying.{Laid, most_position, reach};
ghost use Rattle.writer.specs.Most.{most_block, most_object_fields};
ghost use Rattle.writer.specs.Parts.{object_bits, Blocks};
ghost use Rattle.writer.specs.Survey.{blocks_bits};

use crate::blocks::put_block;
use crate::putting::put;
use crate::timing::put_timing;
use laying::Pen;
use oamd::{Programme, RECORD_STRIDE, Timing};
use record::{next_block, scene_at};
use valid::record_count;

// The blocks of all objects, one record behind the other.
fn put_blocks(out: &mut [u8], pen: Pen, records: &[u8], count: usize, blocks: usize) -> Pen
    requires count_bound { reach out.old pen + most_block * count ≤ most_position }
    requires count_in_bounds { (record_stride * count ≤ length records.now) × (count ≤ 255 * blocks) × (blocks ≤ most_blocks) }
    ensures { Laid (most_block * count) out.old out.new pen result (blocks_bits blocks 0 (records_at records.now count 0)) }
{
    let mut next = pen;
    let mut block = 0;
    for i in 0..count {
        let s = scene_at(records, RECORD_STRIDE * i);
        next = put_block(block == 0, out, next, s);
        block = next_block(block, blocks);
    }
    next
}

// The flag says that no reserved data is there.
pub fn put_object_fields(
    out: &mut [u8],
    pen: Pen,
    programme: Programme,
    timing: Timing,
    records: &[u8],
) -> Pen
    requires objects_bound { reach out.old pen + most_object_fields programme.objects ≤ most_position }
    requires blocks { Blocks programme.objects timing.blocks records.now }
    ensures { Laid (most_object_fields programme.objects) out.old out.new pen result (object_bits programme timing records.now) }
{
    let next = put_timing(out, pen, timing);
    let next = put(out, next, 1, 1);
    let count = record_count(programme.objects, timing.blocks);
    put_blocks(out, next, records, count, timing.blocks as usize)
}
