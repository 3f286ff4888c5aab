// Decides whether tables are valid (docs/DECISIONS.md, "The written form" and "The trim element"): every test here equals its definition in form, for all
// tables and all bytes.
#![tactic(auto)]

mod ranges; // ranges.rt: one value, by whether it is carried
mod table; // table.rt: all entries of a table
mod programme; // programme.rt: the program assignment
mod timing; // timing.rt: starts and ramps
mod scenes; // scenes.rt: one record
mod records; // records.rt: a record among all of them, in order
mod trim; // trim.rt: the trim table, out of its bytes

pub use programme::programme_valid;
pub use records::{next_turn, record_count, valid_at};
pub use timing::{sample_offset, timing_valid};
pub use trim::{config_at, trim_valid};

// Whose record it is: which block of which object.
#[derive(Clone, Copy)]
pub struct Turn {
    pub object: u32,
    pub block: u32,
}
