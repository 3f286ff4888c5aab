// The timing of all blocks (5.5.6).
ghost use Rattle.bits.specs.Language.{bit};
ghost use Rattle.reader.specs.Steps.{TimingRead};

use bits::{Cur, Limit, Step};
use oamd::Timing;

pub fn read_timing(s: &[u8], l: Limit, c: Cur) -> Step<Timing>
    ensures { TimingRead (bit s.now) c l result }
{
    let start = syntax::read_offset(s, l, c);
    let count = bits::take(s, l, start.cur, 3);
    let n = count.v as usize + 1;
    let mut timing = meaning::no_timing();
    let mut cur = count;
    for i in 0..n {
        let step = syntax::read_update(s, l, cur);
        timing.updates[i] = meaning::update_of(start.value, step.value);
        cur = step.cur;
    }
    timing.blocks = n as u8;
    Step { value: timing, cur }
}
