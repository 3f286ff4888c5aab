// A block of an object, looked at and resolved at once (5.5.9, 5.6.1): each group is found by its status, with no coded block between. What passes the end, or has a
// reserved code, is read field by field, and then resolved.
#![tactic(auto)]

mod basic; // basic.rt: object_basic_info, gain and priority
mod render; // render.rt: object_render_info, position, size, zone, screen and snap
mod block; // block.rt: the whole block

pub use block::read_scene;

// What object_basic_info gives of a scene.
#[derive(Clone, Copy)]
pub struct Levels {
    pub gain: u8,
    pub priority: u8,
}
