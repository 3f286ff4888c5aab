// From bits to coded fields (5.5): each function reads exactly what its definition in oamd says, from a cursor, within a limit. Behind a refusal
// nothing is read, and the cursor keeps that refusal.
#![tactic(auto)]

use oamd::{Bed, MOST_BEDS};

mod header; // header.rt: what stands before the elements
mod programme; // programme.rt: the program assignment
mod timing; // timing.rt: sample offset and block updates
mod levels; // levels.rt: statuses and basic info
mod render; // render.rt: render info
mod glance; // glance.rt: statuses, gain and priority, looked at in a window
mod view; // view.rt: the groups of render info, looked at in a window
mod block; // block.rt: a block of an object
mod extended; // extended.rt: divergence and precise positions
mod trim; // trim.rt: a trim configuration
mod frame; // frame.rt: an element's frame, whatever it holds

pub use block::{look_additional, read_block};
pub use extended::{read_divergence, read_precise};
pub use frame::read_frame;
pub use glance::{look_gain, look_priority, look_status};
pub use header::{read_element_count, read_object_count, read_version};
pub use programme::read_assignment;
pub use timing::{read_offset, read_update};
pub use trim::read_trim_config;
pub use view::{look_distance, look_extent, look_position, look_screen, look_zone};

// The beds of a programme, as many of the array as the count says.
#[derive(Clone, Copy)]
pub struct Beds {
    pub distribute: u8,
    pub multiple: u8,
    pub instances: u8,
    pub count: u8,
    pub beds: [Bed; MOST_BEDS],
}

// A balance of a trim configuration.
#[derive(Clone, Copy)]
pub struct Balance {
    pub sign: u8,
    pub amount: u8,
}

// What was seen in a window, or in several, and where the next field begins; good, unless a reserved code was met.
// No Option: a group that is not sent is looked at all the same, and an Option would be branched to (measured: a mixed block takes up to a fifth longer, a full one 2 to 4 %).
#[derive(Clone, Copy)]
pub struct Checked<T> {
    pub value: T,
    pub off: u32,
    pub good: bool,
}

// A code, and what stands behind it.
#[derive(Clone, Copy)]
pub struct Coded {
    pub code: u8,
    pub more: u8,
}
