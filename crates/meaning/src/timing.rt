// When updates start and how long they take (5.6.2).
ghost use Rattle.std.specs.Prelude.{◌≡◌, ◌≤◌};
ghost use Rattle.oamd.specs.Timing.{offset_of, ramp_of, start_of, update_of, no_update};
ghost use Rattle.oamd.specs.Payload.{no_timing};

use oamd::{BlockUpdate, MOST_BLOCKS, Offset, Timing, Update};
use units::SampleCount;

// Tables 22 and 23.
fn offset_of(o: Offset) -> SampleCount
    ensures { (result.0 ≡ offset_of o) × (result.0 ≤ 255) }
{
    if o.code == 0 {
        return SampleCount::new(0);
    }
    if o.code == 1 {
        return SampleCount::new(oamd::sample_offset(o.index) as u16);
    }
    SampleCount::new(o.bits as u16)
}

// Tables 24 and 25.
fn ramp_of(u: BlockUpdate) -> SampleCount
    ensures { result.0 ≡ ramp_of u }
{
    if u.code != 3 {
        return SampleCount::new(oamd::ramp_code(u.code));
    }
    if u.indexed == 1 {
        return SampleCount::new(oamd::ramp_duration(u.index));
    }
    SampleCount::new(u.bits)
}

// An update keeps its start, past the end of the frame too.
fn start_of(offset: SampleCount, factor: u8) -> SampleCount
    requires { offset.0 ≤ 255 }
    ensures { result.0 ≡ start_of offset.0 factor }
{
    offset.plus(SampleCount::new(32 * factor as u16))
}

// The timing of one block, by the sample offset of the frame.
pub fn update_of(o: Offset, u: BlockUpdate) -> Update
    ensures { result ≡ update_of (offset_of o) u }
{
    Update {
        start: start_of(offset_of(o), u.factor),
        ramp: ramp_of(u),
    }
}

// The timing of a payload without an object element.
pub fn no_timing() -> Timing
    ensures { result ≡ no_timing }
{
    let none = Update {
        start: SampleCount::new(0),
        ramp: SampleCount::new(0),
    };
    Timing {
        blocks: 0,
        updates: [none; MOST_BLOCKS],
    }
}
