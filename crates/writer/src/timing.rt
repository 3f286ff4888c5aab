// The timing (5.5.6, 5.5.7).
ghost use Rattle.std.specs.Prelude.{◌+◌, ◌≤◌, take};
ghost use Rattle.bits.specs.Writes.{each_bits};
ghost use Rattle.oamd.specs.Tables.{most_blocks};
ghost use Rattle.form.specs.Coded.{coded_update};
ghost use Rattle.form.specs.Form.{update_bits, timing_bits};
ghost use Rattle.laying.specs.Laying.{Laid, most_position, reach};
ghost use Rattle.writer.specs.Most.{most_updates, most_timing};
ghost use Rattle.writer.specs.Parts.{Wide};

use crate::each::{each_width, put_each};
use crate::putting::put_packed;
use laying::Pen;
use oamd::{Timing, Update};
use units::BitCount;
use valid::sample_offset;

// The first n updates.
fn put_updates(out: &mut [u8], pen: Pen, n: u8, updates: [Update; oamd::MOST_BLOCKS]) -> Pen
    requires most_updates_bound { reach out.old pen + most_updates ≤ most_position }
    requires n_le_most_blocks { n ≤ most_blocks }
    ensures { Laid most_updates out.old out.new pen result (each_bits (λ i u. update_bits (coded_update u)) 0 (take n updates)) }
{
    put_each(out, pen, n as usize, |i| coding::update(updates[i]))
}

// One sample offset for all blocks.
pub fn put_timing(out: &mut [u8], pen: Pen, timing: Timing) -> Pen
    requires most_timing_bound { reach out.old pen + most_timing ≤ most_position }
    requires blocks_le_most_blocks { timing.blocks ≤ most_blocks }
    ensures { Laid most_timing out.old out.new pen result (timing_bits timing) }
{
    let first = sample_offset(timing.updates).raw();
    let next = put_packed(out, pen, coding::lead(first as u8, timing.blocks));
    put_updates(out, next, timing.blocks, timing.updates)
}

// How many bits the first n updates take.
fn updates_width(n: u8, updates: [Update; oamd::MOST_BLOCKS]) -> BitCount
    requires { n ≤ most_blocks }
    ensures { Wide most_updates result.0 (each_bits (λ i u. update_bits (coded_update u)) 0 (take n updates)) }
{
    each_width(n as usize, |i| coding::update(updates[i]))
}

// And the timing.
pub fn timing_width(timing: Timing) -> BitCount
    requires { timing.blocks ≤ most_blocks }
    ensures { Wide most_timing result.0 (timing_bits timing) }
{
    let first = sample_offset(timing.updates).raw();
    let lead = coding::lead(first as u8, timing.blocks).width;
    lead.plus(updates_width(timing.blocks, timing.updates))
}
