// Gain and priority, by the status of object_basic_info (5.5.10, Table 28), looked at in a window as if nothing could end.
ghost use Rattle.std.specs.Prelude.{◌≤◌};
ghost use Rattle.oamd.specs.declared.Scene.{Scene};
ghost use Rattle.oamd.specs.declared.Status.TheVariants.{Full, Mixed};
ghost use Rattle.scenes.specs.Found.{LevelsFound};

use crate::Levels;
use bits::Sighted;
use oamd::{Scene, Status};

fn full_levels(x: u64, o: u32, gainbefore: u8) -> Sighted<Levels>
    requires { o ≤ 50 }
    ensures { (before : Scene) → LevelsFound Full before gainbefore x o result }
{
    let g = syntax::look_gain(x, o);
    let p = syntax::look_priority(x, g.off);
    Sighted {
        value: Levels {
            gain: meaning::gain_of(g.value, gainbefore),
            priority: meaning::priority_of(p.value),
        },
        off: p.off,
    }
}

// Each is looked at as if it were sent, and taken only where it is.
fn mixed_levels(x: u64, o: u32, before: Scene, gainbefore: u8) -> Sighted<Levels>
    requires { o ≤ 48 }
    ensures { LevelsFound Mixed before gainbefore x o result }
{
    let parts = bits::look(x, o, 2);
    let gained = oamd::has_gain(parts.value);
    let ranked = oamd::has_priority(parts.value);
    let g = syntax::look_gain(x, parts.off);
    let priority_off = bits::chosen(gained, g.off, parts.off);
    let p = syntax::look_priority(x, priority_off);
    Sighted {
        value: Levels {
            gain: bits::pick(gained, meaning::gain_of(g.value, gainbefore), before.gain),
            priority: bits::choice(ranked, meaning::priority_of(p.value), before.priority),
        },
        off: bits::chosen(ranked, p.off, priority_off),
    }
}

pub fn levels_in(x: u64, o: u32, status: Status, before: Scene, gainbefore: u8) -> Sighted<Levels>
    requires { o ≤ 48 }
    ensures { LevelsFound status before gainbefore x o result }
{
    match status {
        Status::Default => Sighted {
            value: Levels {
                gain: 0,
                priority: 0,
            },
            off: o,
        },
        Status::Full => full_levels(x, o, gainbefore),
        Status::Reuse => Sighted {
            value: Levels {
                gain: before.gain,
                priority: before.priority,
            },
            off: o,
        },
        Status::Mixed => mixed_levels(x, o, before, gainbefore),
    }
}
