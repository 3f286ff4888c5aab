// A record's bytes, both ways: laid into a buffer, and taken out of one. Only this crate knows at which byte of a record a value stands.
#![tactic(auto)]

mod laying; // laying.rt: values into bytes
mod taking; // taking.rt: values out of bytes
mod carrying; // carrying.rt: whether a record can carry what the extended element has
mod words; // words.rt: eight bytes as a number
mod time; // time.rt: a record's time

pub use carrying::{DYNAMIC, carries, carries_at};
pub use laying::{store_divergence, store_precise, store_scene};
pub use taking::{divergence_at, gain_at, has_bytes, precise_at, scene_at};
pub use time::{has_time, next_block, store_time, time_of};
pub use words::{eight_at, store_eight};
