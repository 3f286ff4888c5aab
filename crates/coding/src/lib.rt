// The written form's choices: from a value of the tables to the coded fields that carry it, and the fields of a part packed into numbers. Each is total:
// what is not valid gets some code, too.
#![tactic(auto)]

use units::BitCount;

mod choices; // choices.rt: from a value to coded fields
mod packing; // packing.rt: bits packed into a number
mod parts; // parts.rt: the groups of a block, packed
mod block; // block.rt: a block, in two parts
mod heads; // heads.rt: what stands before the elements
mod timing; // timing.rt: the timing
mod frame; // frame.rt: what stands before an element's fields
mod extras; // extras.rt: a record's part of the extended element
mod trim; // trim.rt: a trim configuration

pub use block::{aft, fore, short};
pub use extras::{divergence, precise};
pub use frame::{front, size};
pub use heads::{bed, head, tail};
pub use packing::field;
pub use timing::{lead, update};
pub use trim::config;

// At most 56 bits: how many, and the number that they make.
#[derive(Clone, Copy)]
pub struct Packed {
    pub width: BitCount,
    pub value: u64,
}
