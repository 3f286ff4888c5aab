// What coded fields mean (5.6): every function here is total, and equals its definition in oamd.
#![tactic(auto)]

use oamd::{Location, Screen, Volume, Zone};

mod programme; // programme.rt: how many objects of each class
mod timing; // timing.rt: starts and ramps
mod values; // values.rt: a group's value, by its own fields
mod scenes; // scenes.rt: a block, by the block before and the object before

pub use programme::{agrees, class_of, shares};
pub use scenes::{default_shown, idle, mixed_shown, resolved, shown_before};
pub use timing::{no_timing, update_of};
pub use values::{distance_of, gain_of, location_of, priority_of, volume_of};

// What object_render_info gives of a scene.
#[derive(Clone, Copy)]
pub struct Shown {
    pub location: Location,
    pub volume: Volume,
    pub zone: Zone,
    pub screen: Screen,
    pub snap: u8,
}
