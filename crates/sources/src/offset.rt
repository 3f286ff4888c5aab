// Where a field stands in its clause: behind the widths of what was sent before it.
ghost use Rattle.std.specs.Prelude.{◌≡◌, ◌∷◌, [], ◌≤◌, get_or, sum, take};
ghost use Rattle.bits.specs.Language.{pick};
ghost use Rattle.sources.specs.Offsets.{no_more, span, offset_at, status_lines, is_mixed, basic_lines, coordinate_lines, position_lines, distance_lines, zone_lines};
ghost use Rattle.sources.specs.Offsets.{extent_lines, screen_lines, render_lines, divergence_lines, precise_lines, offset_in, offset_in_divergence, offset_in_precise};
ghost use Rattle.sources.specs.Offsets.{sum_to, span_to, spot_of, Offset};

use crate::{Field, Spot};
use oamd::{
    Basic, Block, Distance, Divergence, Extent, Position, Precise, Render, Screen, Status, Zone,
};

fn spot_of(f: Field) -> Spot
    ensures { result ≡ spot_of f }
{
    match f {
        Field::NotActive => Spot::InBlock,
        Field::GainIdx => Spot::InBasic(1),
        Field::GainBits => Spot::InBasic(2),
        Field::DefaultPriority => Spot::InBasic(3),
        Field::PriorityBits => Spot::InBasic(4),
        Field::DiffX => Spot::InRender(1, 1),
        Field::DiffY => Spot::InRender(1, 2),
        Field::DiffZ => Spot::InRender(1, 3),
        Field::PosX => Spot::InRender(1, 1),
        Field::PosY => Spot::InRender(1, 2),
        Field::PosZ => Spot::InRender(1, 4),
        Field::DistanceSpecified => Spot::InRender(2, 0),
        Field::AtInfinity => Spot::InRender(2, 1),
        Field::DistanceIdx => Spot::InRender(2, 2),
        Field::ZoneIdx => Spot::InRender(3, 0),
        Field::Elevation => Spot::InRender(3, 1),
        Field::SizeIdx => Spot::InRender(4, 0),
        Field::SizeBits => Spot::InRender(4, 1),
        Field::Width => Spot::InRender(4, 2),
        Field::Depth => Spot::InRender(4, 3),
        Field::Height => Spot::InRender(4, 4),
        Field::ScreenRef => Spot::InRender(5, 0),
        Field::ScreenFactor => Spot::InRender(5, 1),
        Field::DepthIdx => Spot::InRender(5, 2),
        Field::Snap => Spot::InRender(6, 0),
        Field::ObjectDivergence => Spot::InDivergence(0),
        Field::DivMode => Spot::InDivergence(1),
        Field::DivTable => Spot::InDivergence(2),
        Field::DivCode => Spot::InDivergence(3),
        Field::Presence => Spot::InPrecise(1),
        Field::PreciseX => Spot::InPrecise(2),
        Field::PreciseY => Spot::InPrecise(3),
        Field::PreciseZ => Spot::InPrecise(4),
    }
}

// ---- widths

fn width_if(on: bool, w: u32) -> u32
    ensures { Offset w (pick on w 0) result }
{
    if on { w } else { 0 }
}

// The flags of the parts of a group.
fn parts_width(status: Status, w: u32) -> u32
    ensures { Offset w (pick (is_mixed status) w 0) result }
{
    match status {
        Status::Mixed => w,
        Status::Default | Status::Full | Status::Reuse => 0,
    }
}

#[tactic(auto, unfolding(crate::specs::Offsets::span))]
fn status_width(none: bool, begins: bool) -> u32
    ensures { Offset 2 (span (status_lines none begins 0)) result }
{
    width_if(!none & !begins, 2)
}

fn sum_of(widths: &[u32]) -> u32
    requires { sum widths.now ≤ 1000 }
    ensures { result ≡ sum widths.now }
{
    widths.iter().sum()
}

// The first n of some widths together.
fn first_of(n: u32, widths: &[u32]) -> u32
    requires { sum widths.now ≤ 1000 }
    ensures { Offset (sum widths.now) (sum_to n widths.now) result }
{
    let n = (n as usize).min(widths.len());
    sum_of(&widths[..n])
}

// ---- the bits before a line of a clause; past the last line, those of the clause

#[tactic(auto, unfolding(crate::specs::Offsets::basic_lines, crate::specs::Offsets::span))]
fn in_basic(b: Basic, line: u32) -> u32
    ensures { Offset 16 (span_to line (basic_lines b)) result }
{
    let parts = b.parts as u32;
    let priority = oamd::has_priority(parts);
    first_of(
        line,
        &[
            parts_width(b.status, 2),
            width_if(oamd::has_gain(parts), 2),
            width_if(b.gain.index == 2, 6),
            width_if(priority, 1),
            width_if(priority & (b.priority.bydefault == 0), 5),
        ],
    )
}

#[tactic(auto, unfolding(crate::specs::Offsets::position_lines, crate::specs::Offsets::span))]
fn in_position(on: bool, begins: bool, p: Position, line: u32) -> u32
    ensures { Offset 18 (span_to line (position_lines on begins 0 p)) result }
{
    let moved = width_if(on & !begins, 1);
    match p {
        Position::Absolute(..) if on => first_of(line, &[moved, 6, 6, 1, 4]),
        Position::Moved(..) if on => first_of(line, &[moved, 3, 3, 3]),
        _ => first_of(line, &[moved]),
    }
}

#[tactic(auto, unfolding(crate::specs::Offsets::distance_lines, crate::specs::Offsets::span))]
fn in_distance(on: bool, d: Distance, line: u32) -> u32
    ensures { Offset 6 (span_to line (distance_lines on d)) result }
{
    let given = d.given == 1;
    first_of(
        line,
        &[
            width_if(on, 1),
            width_if(given, 1),
            width_if(given & (d.infinite == 0), 4),
        ],
    )
}

#[tactic(auto, unfolding(crate::specs::Offsets::zone_lines, crate::specs::Offsets::span))]
fn in_zone(on: bool, z: Zone, line: u32) -> u32
    ensures { Offset 4 (span_to line (zone_lines on z)) result }
{
    first_of(line, &[width_if(on, 3), width_if(on, 1)])
}

#[tactic(auto, unfolding(crate::specs::Offsets::extent_lines, crate::specs::Offsets::span))]
fn in_extent(on: bool, e: Extent, line: u32) -> u32
    ensures { Offset 22 (span_to line (extent_lines on e)) result }
{
    let own = width_if(e.index == 2, 5);
    let all = width_if(e.index == 1, 5);
    first_of(line, &[width_if(on, 2), all, own, own, own])
}

#[tactic(auto, unfolding(crate::specs::Offsets::screen_lines, crate::specs::Offsets::span))]
fn in_screen(on: bool, s: Screen, line: u32) -> u32
    ensures { Offset 6 (span_to line (screen_lines on s)) result }
{
    let used = s.used == 1;
    first_of(
        line,
        &[width_if(on, 1), width_if(used, 3), width_if(used, 2)],
    )
}

// In a group of object_render_info, which are 1 to 5.
fn in_group(begins: bool, n: Render, group: u32, line: u32) -> u32
    ensures { Offset 22 (offset_at (line ∷ []) (get_or (render_lines begins 0 n) group no_more)) result }
{
    let parts = n.parts as u32;
    match group {
        1 => in_position(oamd::has_position(parts), begins, n.position, line),
        2 => in_distance(oamd::has_position(parts), n.distance, line),
        3 => in_zone(oamd::has_zone(parts), n.zone, line),
        4 => in_extent(oamd::has_size(parts), n.extent, line),
        5 => in_screen(oamd::has_screen(parts), n.screen, line),
        _ => 0,
    }
}

// Before a group of object_render_info, or b_object_snap, which is 6.
fn groups_before(begins: bool, n: Render, group: u32) -> u32
    ensures { Offset 120 (span_to group (take 6 (render_lines begins 0 n))) result }
{
    first_of(
        group,
        &[
            parts_width(n.status, 4),
            in_group(begins, n, 1, 5),
            in_group(begins, n, 2, 3),
            in_group(begins, n, 3, 2),
            in_group(begins, n, 4, 5),
            in_group(begins, n, 5, 3),
        ],
    )
}

#[tactic(auto, unfolding(crate::specs::Offsets::divergence_lines, crate::specs::Offsets::span))]
fn in_divergence(d: Divergence, line: u32) -> u32
    ensures { Offset 11 (span_to line (divergence_lines d 0 0)) result }
{
    let used = d.used == 1;
    first_of(
        line,
        &[
            1,
            width_if(used, 2),
            width_if(used & (d.mode == 0), 2),
            width_if(d.mode == 2, 6),
        ],
    )
}

#[tactic(auto, unfolding(crate::specs::Offsets::precise_lines, crate::specs::Offsets::span))]
fn in_precise(p: Precise, line: u32) -> u32
    ensures { Offset 10 (span_to line (precise_lines p)) result }
{
    let presence = p.presence as u32;
    first_of(
        line,
        &[
            1,
            3,
            width_if(oamd::has_x(presence), 2),
            width_if(oamd::has_y(presence), 2),
            width_if(oamd::has_z(presence), 2),
        ],
    )
}

// ---- the bits before a field in its clause, 0 for a field of another clause

// In object_info_block, which is block 0 where begins says so.
pub fn offset_in_block(f: Field, begins: bool, b: Block) -> u32
    ensures { Offset 200 (offset_in f begins b) result }
{
    let idle = b.active == 0;
    let basic = 1 + status_width(idle, begins);
    match spot_of(f) {
        Spot::InBasic(line) => basic + in_basic(b.basic, line),
        Spot::InRender(group, line) => {
            let third = basic + in_basic(b.basic, 5);
            let fourth = third + status_width(idle | (b.class != 2), begins);
            let before = fourth + groups_before(begins, b.render, group);
            before + in_group(begins, b.render, group, line)
        }
        _ => 0,
    }
}

// In obj_div_block of a record that may carry divergence.
pub fn offset_in_divergence(f: Field, d: Divergence) -> u32
    ensures { Offset 11 (offset_in_divergence f d) result }
{
    match spot_of(f) {
        Spot::InDivergence(line) => in_divergence(d, line),
        _ => 0,
    }
}

// In ext_prec_pos_block of a record whose b_ext_prec_pos is set.
pub fn offset_in_precise(f: Field, p: Precise) -> u32
    ensures { Offset 10 (offset_in_precise f p) result }
{
    match spot_of(f) {
        Spot::InPrecise(line) => in_precise(p, line),
        _ => 0,
    }
}
