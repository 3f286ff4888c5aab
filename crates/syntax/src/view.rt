// The groups of object_render_info (5.5.11), each looked at in a window as if nothing could end.
ghost use Rattle.std.specs.Prelude.{true, ◌≤◌};
ghost use Rattle.oamd.specs.Block.{differences, coordinates, position, distance, zone, extent, screen};
ghost use Rattle.syntax.specs.Looks.{Seen, SeenIf};

use crate::Checked;
use crate::glance::only;
use bits::Sighted;
use oamd::{Distance, Extent, Position, Screen, Zone};

fn look_differences(x: u64, o: u32) -> Sighted<Position>
    requires { o ≤ 55 }
    ensures { Seen differences 9 x o result.value result.off }
{
    let q = bits::look(x, o, 9);
    Sighted {
        value: Position::Moved(
            (q.value / 64 % 8) as u8,
            (q.value / 8 % 8) as u8,
            (q.value % 8) as u8,
        ),
        off: q.off,
    }
}

fn look_coordinates(x: u64, o: u32) -> Sighted<Position>
    requires { o ≤ 47 }
    ensures { Seen coordinates 17 x o result.value result.off }
{
    let q = bits::look(x, o, 17);
    Sighted {
        value: Position::Absolute(
            (q.value / 2048 % 64) as u8,
            (q.value / 32 % 64) as u8,
            (q.value / 16 % 2) as u8,
            (q.value % 16) as u8,
        ),
        off: q.off,
    }
}

// In the first block as coordinates, else as a flag says.
pub fn look_position(x: u64, o: u32, first: bool) -> Sighted<Position>
    requires { o ≤ 46 }
    ensures { Seen (position true first) 18 x o result.value result.off }
{
    let moved = bits::look_if(!first, x, o, 1);
    if moved.value == 1 {
        look_differences(x, moved.off)
    } else {
        look_coordinates(x, moved.off)
    }
}

pub fn look_distance(x: u64, o: u32) -> Sighted<Distance>
    requires { o ≤ 58 }
    ensures { Seen (distance true) 6 x o result.value result.off }
{
    let q = bits::look(x, o, 6);
    let given = q.value / 32 % 2;
    let infinite = q.value / 16 % 2;
    if given == 1 {
        if infinite == 0 {
            Sighted {
                value: Distance {
                    given: given as u8,
                    infinite: infinite as u8,
                    index: (q.value % 16) as u8,
                },
                off: q.off,
            }
        } else {
            Sighted {
                value: Distance {
                    given: given as u8,
                    infinite: infinite as u8,
                    index: 0,
                },
                off: o + 2,
            }
        }
    } else {
        Sighted {
            value: Distance {
                given: given as u8,
                infinite: 0,
                index: 0,
            },
            off: o + 1,
        }
    }
}

pub fn look_zone(x: u64, o: u32) -> Checked<Zone>
    requires { o ≤ 60 }
    ensures { SeenIf result.good (zone true) 4 x o result.value result.off }
{
    let q = bits::look(x, o, 4);
    let index = q.value / 2 % 8;
    Checked {
        value: Zone {
            index: index as u8,
            elevation: (q.value % 2) as u8,
        },
        off: q.off,
        good: index < 6,
    }
}

// One size for all, one for each, or none.
pub fn look_extent(x: u64, o: u32) -> Checked<Extent>
    requires { o ≤ 47 }
    ensures { SeenIf result.good (extent true) 17 x o result.value result.off }
{
    let q = bits::look(x, o, 17);
    let index = q.value / 32768 % 4;
    let even = index == 1;
    let each = index == 2;
    Checked {
        value: Extent {
            index: index as u8,
            all: only(even, q.value / 1024 % 32),
            width: only(each, q.value / 1024 % 32),
            depth: only(each, q.value / 32 % 32),
            height: only(each, q.value % 32),
        },
        off: bits::pick(each, q.off, bits::pick(even, o + 7, o + 2)),
        good: index < 3,
    }
}

pub fn look_screen(x: u64, o: u32) -> Sighted<Screen>
    requires { o ≤ 58 }
    ensures { Seen (screen true) 6 x o result.value result.off }
{
    let q = bits::look(x, o, 6);
    let used = q.value / 32 % 2;
    if used == 1 {
        return Sighted {
            value: Screen {
                used: used as u8,
                factor: (q.value / 4 % 8) as u8,
                depth: (q.value % 4) as u8,
            },
            off: q.off,
        };
    }
    Sighted {
        value: Screen {
            used: used as u8,
            factor: 0,
            depth: 0,
        },
        off: o + 1,
    }
}
