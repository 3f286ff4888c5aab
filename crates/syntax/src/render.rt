// object_render_info (5.5.11).
ghost use Rattle.bits.specs.Language.{bit};
ghost use Rattle.bits.specs.View.{Reads};
ghost use Rattle.std.specs.Prelude.{◌≡◌};
ghost use Rattle.oamd.specs.Block.{differences, coordinates, position, distance, zone, extent, screen, sends, object_render_info};

use crate::levels::read_parts;
use bits::{Cur, Limit, Step};
use oamd::{Distance, Extent, Position, Render, Screen, Status, Zone};

fn read_differences(s: &[u8], l: Limit, c: Cur) -> Step<Position>
    ensures { Reads differences (bit s.now) c l result.value result.cur }
{
    let x = bits::take(s, l, c, 3);
    let y = bits::take(s, l, x, 3);
    let z = bits::take(s, l, y, 3);
    Step {
        value: Position::Moved(x.v as u8, y.v as u8, z.v as u8),
        cur: z,
    }
}

fn read_coordinates(s: &[u8], l: Limit, c: Cur) -> Step<Position>
    ensures { Reads coordinates (bit s.now) c l result.value result.cur }
{
    let x = bits::take(s, l, c, 6);
    let y = bits::take(s, l, x, 6);
    let sign = bits::take(s, l, y, 1);
    let z = bits::take(s, l, sign, 4);
    Step {
        value: Position::Absolute(x.v as u8, y.v as u8, sign.v as u8, z.v as u8),
        cur: z,
    }
}

fn read_position(s: &[u8], l: Limit, c: Cur, on: bool, first: bool) -> Step<Position>
    ensures { Reads (position on first) (bit s.now) c l result.value result.cur }
{
    let moved = bits::take_if(on & !first, s, l, c, 1);
    if on {
        if moved.v == 1 {
            read_differences(s, l, moved)
        } else {
            read_coordinates(s, l, moved)
        }
    } else {
        Step {
            value: Position::Absolute(0, 0, 0, 0),
            cur: moved,
        }
    }
}

fn read_distance(s: &[u8], l: Limit, c: Cur, on: bool) -> Step<Distance>
    ensures { Reads (distance on) (bit s.now) c l result.value result.cur }
{
    let given = bits::take_if(on, s, l, c, 1);
    let infinite = bits::take_if(given.v == 1, s, l, given, 1);
    let index = bits::take_if((given.v == 1) & (infinite.v == 0), s, l, infinite, 4);
    Step {
        value: Distance {
            given: given.v as u8,
            infinite: infinite.v as u8,
            index: index.v as u8,
        },
        cur: index,
    }
}

fn read_zone(s: &[u8], l: Limit, c: Cur, on: bool) -> Step<Zone>
    ensures { Reads (zone on) (bit s.now) c l result.value result.cur }
{
    let index = bits::take_unless(on, s, l, c, 3, 6, 7);
    let elevation = bits::take_if(on, s, l, index, 1);
    Step {
        value: Zone {
            index: index.v as u8,
            elevation: elevation.v as u8,
        },
        cur: elevation,
    }
}

fn read_extent(s: &[u8], l: Limit, c: Cur, on: bool) -> Step<Extent>
    ensures { Reads (extent on) (bit s.now) c l result.value result.cur }
{
    let index = bits::take_unless(on, s, l, c, 2, 3, 3);
    let all = bits::take_if(index.v == 1, s, l, index, 5);
    let width = bits::take_if(index.v == 2, s, l, all, 5);
    let depth = bits::take_if(index.v == 2, s, l, width, 5);
    let height = bits::take_if(index.v == 2, s, l, depth, 5);
    Step {
        value: Extent {
            index: index.v as u8,
            all: all.v as u8,
            width: width.v as u8,
            depth: depth.v as u8,
            height: height.v as u8,
        },
        cur: height,
    }
}

fn read_screen(s: &[u8], l: Limit, c: Cur, on: bool) -> Step<Screen>
    ensures { Reads (screen on) (bit s.now) c l result.value result.cur }
{
    let used = bits::take_if(on, s, l, c, 1);
    let factor = bits::take_if(used.v == 1, s, l, used, 3);
    let depth = bits::take_if(used.v == 1, s, l, factor, 2);
    Step {
        value: Screen {
            used: used.v as u8,
            factor: factor.v as u8,
            depth: depth.v as u8,
        },
        cur: depth,
    }
}

// Whether anything is sent at all.
pub fn sends_any(status: Status) -> bool
    ensures { result ≡ sends status }
{
    match status {
        Status::Full | Status::Mixed => true,
        Status::Default | Status::Reuse => false,
    }
}

pub fn read_render(s: &[u8], l: Limit, c: Cur, status: Status, first: bool) -> Step<Render>
    ensures { Reads (object_render_info status first) (bit s.now) c l result.value result.cur }
{
    let parts = read_parts(s, l, c, status, 15, 4);
    let positioned = oamd::has_position(parts.v);
    let p = read_position(s, l, parts, positioned, first);
    let d = read_distance(s, l, p.cur, positioned);
    let z = read_zone(s, l, d.cur, oamd::has_zone(parts.v));
    let e = read_extent(s, l, z.cur, oamd::has_size(parts.v));
    let n = read_screen(s, l, e.cur, oamd::has_screen(parts.v));
    let snap = bits::take_if(sends_any(status), s, l, n.cur, 1);
    Step {
        value: Render {
            status,
            parts: parts.v as u8,
            position: p.value,
            distance: d.value,
            zone: z.value,
            extent: e.value,
            screen: n.value,
            snap: snap.v as u8,
        },
        cur: snap,
    }
}
