// The timing: one sample offset serves all blocks (5.5.6, 5.5.7).
ghost use Rattle.std.specs.Prelude.{◌≡◌, ◌%◌};
ghost use Rattle.bits.specs.Language.{pick};
ghost use Rattle.form.specs.Valid.{first_start, update_valid, timing_valid};
ghost use Rattle.valid.specs.Parts.{updates_valid};

use crate::ranges::between;
use crate::table::all_below;
use oamd::{MOST_BLOCKS, Timing, Update};
use units::SampleCount;

// Starts are a sample offset and a multiple of this.
const STEP: u16 = 32;

// The last start of 6 bits with the last offset, and the longest ramp.
const MOST_START: u16 = 2047;

const MOST_RAMP: u16 = 2048;

// The sample offset of a start.
fn offset_of(start: SampleCount) -> SampleCount
    ensures { result.0 ≡ start.0 % 32 }
{
    SampleCount::new(start.raw() % STEP)
}

// An entry of the updates: what its start leaves by 32 is the offset.
#[tactic(auto, unfolding(form::specs::Valid::update_valid, form::specs::Valid::between_if))]
fn update_valid(offset: SampleCount, used: bool, u: Update) -> bool
    ensures { result ≡ update_valid offset.0 used u }
{
    let start = u.start.raw();
    let ramp = u.ramp.raw();
    if !used {
        return start as u32 + ramp as u32 == 0;
    }
    let left = offset_of(u.start).raw();
    (start <= MOST_START) & (left == offset.raw()) & (ramp <= MOST_RAMP)
}

// The first `blocks` of the updates are used.
fn updates_valid(offset: SampleCount, updates: [Update; MOST_BLOCKS], blocks: u8) -> bool
    ensures { result ≡ updates_valid offset.0 blocks updates }
{
    let used = blocks as usize;
    all_below(MOST_BLOCKS, |i| update_valid(offset, i < used, updates[i]))
}

// The sample offset of all blocks: that of the first one.
pub fn sample_offset(updates: [Update; MOST_BLOCKS]) -> SampleCount
    ensures { result.0 ≡ first_start updates % 32 }
{
    offset_of(updates[0].start)
}

// A timing such as some accepted payload gives.
#[tactic(auto, unfolding(form::specs::Valid::timing_valid, form::specs::Valid::offset_in_samples, crate::specs::Parts::updates_valid))]
pub fn timing_valid(t: Timing) -> bool
    ensures { result ≡ timing_valid t }
{
    let blocks = between(0, MOST_BLOCKS as u8, t.blocks);
    blocks & updates_valid(sample_offset(t.updates), t.updates, t.blocks)
}
