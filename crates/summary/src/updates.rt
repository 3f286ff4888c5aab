// The blocks of a payload: how many start late, and the sum of their ramps.
ghost use Rattle.std.specs.Prelude.{◌≡◌, ◌≤◌, length};
ghost use Rattle.oamd.specs.Tables.{most_blocks};
ghost use Rattle.summary.specs.Summary.{total, is_late, ramp_length};

use oamd::{FRAME_SAMPLES, Update};

// Blocks that start behind the last sample of their frame.
pub fn late_blocks(updates: &[Update]) -> u32
    requires { length updates.now ≤ most_blocks }
    ensures { (result ≡ total is_late updates.now) × (result ≤ 8) }
{
    let late = updates.iter().filter(|u| FRAME_SAMPLES <= u.start.raw());
    late.count() as u32
}

pub fn all_ramps(updates: &[Update]) -> u32
    requires { length updates.now ≤ most_blocks }
    ensures { result ≡ total ramp_length updates.now }
{
    updates.iter().map(|u| u.ramp.raw() as u32).sum()
}
