// What an object is from a block on: each group's value by its status (Tables 28 and 29).
ghost use Rattle.std.specs.Prelude.{◌≡◌};
ghost use Rattle.oamd.specs.Block.{has_gain, has_priority};
ghost use Rattle.oamd.specs.Meaning.{value_of, gain_of, priority_of, idle, resolve};
ghost use Rattle.meaning.specs.Shown.{default_shown, shown_before, shown_of, sent_of, mixed_of};

use crate::Shown;
use crate::values::{distance_of, gain_of, location_of, priority_of, volume_of};
use bits::pick;
use oamd::{Basic, Block, Location, Render, Scene, Screen, Status, Volume, Zone};

// The defaults of Table 29; what it does not name is 0.
const DEFAULT_LOCATION: Location = Location {
    x: 31,
    y: 31,
    z: 64,
    distance: 0,
};

const DEFAULT_VOLUME: Volume = Volume {
    width: 0,
    depth: 0,
    height: 0,
};

const DEFAULT_ZONE: Zone = Zone {
    index: 0,
    elevation: 1,
};

const DEFAULT_SCREEN: Screen = Screen {
    used: 0,
    factor: 0,
    depth: 0,
};

// What object_render_info gives by default.
pub fn default_shown() -> Shown
    ensures { result ≡ default_shown }
{
    Shown {
        location: DEFAULT_LOCATION,
        volume: DEFAULT_VOLUME,
        zone: DEFAULT_ZONE,
        screen: DEFAULT_SCREEN,
        snap: 0,
    }
}

// What it gives where nothing is sent: the groups of the block before.
pub fn shown_before(before: Scene) -> Shown
    ensures { result ≡ shown_before before }
{
    Shown {
        location: before.location,
        volume: before.volume,
        zone: before.zone,
        screen: before.screen,
        snap: before.snap,
    }
}

// What an inactive object of a class is.
pub fn idle(class: u8) -> Scene
    ensures { result ≡ idle class }
{
    Scene {
        active: 0,
        class,
        gain: 0,
        priority: 0,
        location: DEFAULT_LOCATION,
        volume: DEFAULT_VOLUME,
        zone: DEFAULT_ZONE,
        screen: DEFAULT_SCREEN,
        snap: 0,
    }
}

// A value by its status: the default; as sent; that of the block before; as sent, or else that of the block before.
fn by_status<T: Copy>(status: Status, sent: bool, default: T, valuebefore: T, value: T) -> T
    ensures { result ≡ value_of status sent default valuebefore value }
{
    match status {
        Status::Default => default,
        Status::Full => value,
        Status::Reuse => valuebefore,
        Status::Mixed => pick(sent, value, valuebefore),
    }
}

fn gain_after(valuebefore: u8, gainbefore: u8, b: Basic) -> u8
    ensures { result ≡ value_of b.status (has_gain b.parts) 0 valuebefore (gain_of b.gain gainbefore) }
{
    let sent = oamd::has_gain(b.parts as u32);
    by_status(b.status, sent, 0, valuebefore, gain_of(b.gain, gainbefore))
}

fn priority_after(valuebefore: u8, b: Basic) -> u8
    ensures { result ≡ value_of b.status (has_priority b.parts) 0 valuebefore (priority_of b.priority) }
{
    let sent = oamd::has_priority(b.parts as u32);
    by_status(b.status, sent, 0, valuebefore, priority_of(b.priority))
}

// What is sent, group by group.
fn sent_shown(locationbefore: Location, n: Render) -> Shown
    ensures { result ≡ sent_of locationbefore n }
{
    Shown {
        location: location_of(n.position, distance_of(n.distance), locationbefore),
        volume: volume_of(n.extent),
        zone: n.zone,
        screen: n.screen,
        snap: n.snap,
    }
}

// Each group as sent, or else that of the block before.
pub fn mixed_shown(before: Scene, parts: u32, sent: Shown) -> Shown
    ensures { result ≡ mixed_of before parts sent }
{
    Shown {
        location: pick(oamd::has_position(parts), sent.location, before.location),
        volume: pick(oamd::has_size(parts), sent.volume, before.volume),
        zone: pick(oamd::has_zone(parts), sent.zone, before.zone),
        screen: pick(oamd::has_screen(parts), sent.screen, before.screen),
        snap: sent.snap,
    }
}

// What object_render_info gives: one look at its status for all of its groups.
fn shown_after(before: Scene, n: Render) -> Shown
    ensures { result ≡ shown_of before n }
{
    match n.status {
        Status::Default => default_shown(),
        Status::Full => sent_shown(before.location, n),
        Status::Reuse => shown_before(before),
        Status::Mixed => mixed_shown(before, n.parts as u32, sent_shown(before.location, n)),
    }
}

// A block, by the scene of the block before and the gain of the object before in the same block.
pub fn resolved(blockbefore: Scene, gainbefore: u8, b: Block) -> Scene
    ensures { result ≡ resolve blockbefore gainbefore b }
{
    let shown = shown_after(blockbefore, b.render);
    Scene {
        active: b.active,
        class: b.class,
        gain: gain_after(blockbefore.gain, gainbefore, b.basic),
        priority: priority_after(blockbefore.priority, b.basic),
        location: shown.location,
        volume: shown.volume,
        zone: shown.zone,
        screen: shown.screen,
        snap: shown.snap,
    }
}
