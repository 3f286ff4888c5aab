// The object element (5.5.5, 5.5.8), laid out as records while it is read.
ghost use Rattle.bits.specs.Language.{bit};
ghost use Rattle.reader.specs.Rooms.{ObjectRoom, ObjectsRoom, ElementRoom};
ghost use Rattle.reader.specs.Steps.{ObjectRead, ObjectsRead, ElementRead};

use crate::Scope;
use crate::layout::gain_of_object_before;
use crate::timing::read_timing;
use bits::{Cur, Limit, Step};
use oamd::{RECORD_BYTES, Timing};

// The blocks of one object, whose records begin at a place. The records of the object before it, if there is one, end there.
fn read_object(
    s: &[u8],
    l: Limit,
    c: Cur,
    class: u8,
    blocks: usize,
    from: usize,
    out: &mut [u8],
) -> Cur
    requires { ObjectRoom blocks from out.old }
    ensures { ObjectRead class blocks from (bit s.now) c l out.old result out.new }
{
    let back = RECORD_BYTES * blocks;
    let mut scene = meaning::idle(0);
    let mut cur = c;
    for i in 0..blocks {
        let at = from + RECORD_BYTES * i;
        let gain = gain_of_object_before(out, at, back);
        let step = scenes::read_scene(s, l, cur, class, i as u32, scene, gain);
        scene = step.value;
        record::store_scene(out, at, scene);
        cur = step.cur;
    }
    cur
}

// All objects, up to the first refusal.
fn read_objects(s: &[u8], l: Limit, c: Cur, scope: Scope, blocks: usize, out: &mut [u8]) -> Cur
    requires { ObjectsRoom scope.objects blocks out.old }
    ensures { ObjectsRead scope.objects scope.shares blocks (bit s.now) c l out.old result out.new }
{
    let mut cur = c;
    let mut at: usize = 0;
    for j in 0..scope.objects {
        if cur.no != 0 {
            return cur;
        }
        let class = meaning::class_of(scope.shares, j as u32);
        cur = read_object(s, l, cur, class, blocks, at, out);
        at += RECORD_BYTES * blocks;
    }
    cur
}

// The object element: the records stand at the front of out, unless it is refused.
pub fn read_object_element(s: &[u8], l: Limit, c: Cur, scope: Scope, out: &mut [u8]) -> Step<Timing>
    requires { ElementRoom scope.objects out.old }
    ensures { ElementRead scope.objects scope.shares (bit s.now) c l out.old result out.new }
{
    let step = read_timing(s, l, c);
    let timing = step.value;
    let absent = bits::take(s, l, step.cur, 1);
    let reserved = bits::take_if(absent.v == 0, s, l, absent, 5);
    let cur = read_objects(s, l, reserved, scope, timing.blocks as usize, out);
    Step { value: timing, cur }
}
