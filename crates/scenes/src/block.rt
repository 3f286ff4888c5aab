// A block of an object (5.5.9), resolved.
ghost use Rattle.std.specs.Prelude.{◌≡◌, ◌≤◌};
ghost use Rattle.bits.specs.Language.{bit};
ghost use Rattle.bits.specs.View.{Gave};
ghost use Rattle.scenes.specs.Found.{SceneFound};
ghost use Rattle.scenes.specs.Resolved.{active_scene, resolved_block};

use crate::Levels;
use crate::basic::levels_in;
use crate::render::shown_in;
use bits::{Cur, Limit, Step};
use meaning::Shown;
use oamd::Scene;
use syntax::Checked;
use units::BitPos;

fn active_scene(class: u8, levels: Levels, shown: Shown) -> Scene
    ensures { result ≡ active_scene class levels shown }
{
    Scene {
        active: 1,
        class,
        gain: levels.gain,
        priority: levels.priority,
        location: shown.location,
        volume: shown.volume,
        zone: shown.zone,
        screen: shown.screen,
        snap: shown.snap,
    }
}

// A block, looked at as if nothing could end. An object that is not active is answered at once.
fn look_scene(
    s: &[u8],
    at: BitPos,
    class: u8,
    blk: u32,
    before: Scene,
    gainbefore: u8,
) -> Checked<Scene>
    requires { at.0 ≤ 4000000000 }
    ensures { SceneFound class blk before gainbefore (bit s.now) at.0 result }
{
    let p = at.raw();
    let x = bits::window(s, at);
    let idle = bits::look(x, p % 8, 1);
    if idle.value == 1 {
        return Checked {
            value: meaning::idle(class),
            off: syntax::look_additional(s, p + 1),
            good: true,
        };
    }
    let first = blk == 0;
    let basic = syntax::look_status(x, idle.off, false, first);
    let b = levels_in(x, basic.off, basic.value, before, gainbefore);
    let render = syntax::look_status(x, b.off, class != 2, first);
    let n = shown_in(s, p - p % 8, x, render.off, render.value, first, before);
    Checked {
        value: active_scene(class, b.value, n.value),
        off: syntax::look_additional(s, n.off),
        good: n.good,
    }
}

// A block, field by field, each held to the end.
fn read_fields(
    s: &[u8],
    l: Limit,
    c: Cur,
    class: u8,
    blk: u32,
    before: Scene,
    gainbefore: u8,
) -> Step<Scene>
    ensures { Gave (resolved_block class blk before gainbefore) (bit s.now) c l result.value result.cur }
{
    let step = syntax::read_block(s, l, c, class, blk);
    Step {
        value: meaning::resolved(before, gainbefore, step.value),
        cur: step.cur,
    }
}

// Block blk of an object of a class, by the scene of the block before and the gain of the object before in the same block.
pub fn read_scene(
    s: &[u8],
    l: Limit,
    c: Cur,
    class: u8,
    blk: u32,
    blockbefore: Scene,
    gainbefore: u8,
) -> Step<Scene>
    ensures { Gave (resolved_block class blk blockbefore gainbefore) (bit s.now) c l result.value result.cur }
{
    if c.no == 0 && c.at.raw() <= 4000000000 {
        let look = look_scene(s, c.at, class, blk, blockbefore, gainbefore);
        if look.off <= l.end.raw() && look.good {
            return Step {
                value: look.value,
                cur: Cur {
                    missing: c.missing,
                    v: 0,
                    at: BitPos::new(look.off),
                    no: 0,
                },
            };
        }
    }
    read_fields(s, l, c, class, blk, blockbefore, gainbefore)
}
