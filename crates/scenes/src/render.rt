// What object_render_info gives, by its status (5.5.11, Table 29), looked at in two windows as if nothing could end. Each look begins o bits behind the first of a
// window, which begins at base.
ghost use Rattle.std.specs.Prelude.{◌+◌};
ghost use Rattle.bits.specs.Language.{bit};
ghost use Rattle.oamd.specs.declared.Status.TheVariants.{Full, Mixed};
ghost use Rattle.scenes.specs.Found.{Opened, ShownFound};

use bits::pick;
use meaning::Shown;
use oamd::{Scene, Status};
use syntax::Checked;
use units::BitPos;

fn full_shown(s: &[u8], base: u32, x: u64, o: u32, first: bool, before: Scene) -> Checked<Shown>
    requires { Opened (bit s.now) x base o }
    ensures { ShownFound Full first before (bit s.now) (base + o) result }
{
    let p = syntax::look_position(x, o, first);
    let d = syntax::look_distance(x, p.off);
    let at = base + d.off;
    let y = bits::window(s, BitPos::new(at));
    let z = syntax::look_zone(y, at % 8);
    let e = syntax::look_extent(y, z.off);
    let n = syntax::look_screen(y, e.off);
    let snap = bits::look(y, n.off, 1);
    Checked {
        value: Shown {
            location: meaning::location_of(p.value, meaning::distance_of(d.value), before.location),
            volume: meaning::volume_of(e.value),
            zone: z.value,
            screen: n.value,
            snap: snap.value as u8,
        },
        off: at - at % 8 + snap.off,
        good: z.good & e.good,
    }
}

// Each group is looked at as if it were sent, and taken only where it is.
fn mixed_shown(s: &[u8], base: u32, x: u64, o: u32, first: bool, before: Scene) -> Checked<Shown>
    requires { Opened (bit s.now) x base o }
    ensures { ShownFound Mixed first before (bit s.now) (base + o) result }
{
    let parts = bits::look(x, o, 4);
    let p = syntax::look_position(x, parts.off, first);
    let d = syntax::look_distance(x, p.off);
    let at = base + pick(oamd::has_position(parts.value), d.off, parts.off);
    let y = bits::window(s, BitPos::new(at));
    let zoned = oamd::has_zone(parts.value);
    let z = syntax::look_zone(y, at % 8);
    let sized = oamd::has_size(parts.value);
    let extent_off = pick(zoned, z.off, at % 8);
    let e = syntax::look_extent(y, extent_off);
    let screen_off = pick(sized, e.off, extent_off);
    let n = syntax::look_screen(y, screen_off);
    let snap_off = pick(oamd::has_screen(parts.value), n.off, screen_off);
    let snap = bits::look(y, snap_off, 1);
    let sent = Shown {
        location: meaning::location_of(p.value, meaning::distance_of(d.value), before.location),
        volume: meaning::volume_of(e.value),
        zone: z.value,
        screen: n.value,
        snap: snap.value as u8,
    };
    Checked {
        value: meaning::mixed_shown(before, parts.value, sent),
        off: at - at % 8 + snap.off,
        good: (!zoned | z.good) & (!sized | e.good),
    }
}

pub fn shown_in(
    s: &[u8],
    base: u32,
    x: u64,
    o: u32,
    status: Status,
    first: bool,
    before: Scene,
) -> Checked<Shown>
    requires { Opened (bit s.now) x base o }
    ensures { ShownFound status first before (bit s.now) (base + o) result }
{
    match status {
        Status::Default => Checked {
            value: meaning::default_shown(),
            off: base + o,
            good: true,
        },
        Status::Full => full_shown(s, base, x, o, first, before),
        Status::Reuse => Checked {
            value: meaning::shown_before(before),
            off: base + o,
            good: true,
        },
        Status::Mixed => mixed_shown(s, base, x, o, first, before),
    }
}
