// What is found out of the records before a bit is laid, in one pass: whether each is valid and has its time, what the extended element needs, and how many bits the blocks take.
ghost use Rattle.std.specs.Prelude.{◌*◌, ◌≤◌, length, IfOk, IfErr};
ghost use Rattle.oamd.specs.Tables.{most_blocks, record_stride};
ghost use Rattle.writer.specs.Survey.{Surveyed, Refused};

use crate::blocks::block_width;
use crate::{Found, Groups};
use oamd::{RECORD_STRIDE, Shares, Timing};
use record::{divergence_at, has_time, precise_at, scene_at, time_of};
use units::BitCount;
use valid::Turn;

// The first `count` records; or the place of the first that is refused.
pub fn survey(
    shares: Shares,
    t: Timing,
    frame: u32,
    records: &[u8],
    count: usize,
) -> Result<Found, u64>
    requires { (record_stride * count ≤ length records.now) × (count ≤ 255 * t.blocks) × (t.blocks ≤ most_blocks) }
    ensures found { IfOk result (λ found. Surveyed shares frame t records.now count found) }
    ensures refused { IfErr result (λ place. Refused shares frame t records.now count place) }
{
    let mut turn = Turn {
        object: 0,
        block: 0,
    };
    let mut diverges = false;
    let mut refines = false;
    let mut width = BitCount::new(0);
    for i in 0..count {
        let at = RECORD_STRIDE * i;
        let class = meaning::class_of(shares, turn.object);
        let valid = valid::valid_at(class, records, at);
        let u = t.updates[turn.block as usize];
        let timed = has_time(records, at, time_of(frame, u.start));
        let right = valid & timed;
        if !right {
            return Err(1 + i as u64);
        }
        let d = divergence_at(records, at);
        let p = precise_at(records, at);
        diverges |= d.used == 1;
        refines |= 0 < p.presence;
        width = width.plus(block_width(turn.block == 0, scene_at(records, at)));
        turn = valid::next_turn(turn, t.blocks as u32);
    }
    Ok(Found {
        groups: Groups { diverges, refines },
        width,
    })
}
