// Bit fields of a byte slice, read with a cursor that goes in and comes back by value and keeps the first refusal that it meets.
#![tactic(auto)]

ghost use Rattle.std.specs.Prelude.{◌≡◌, ◌<◌};
ghost use Rattle.bits.specs.Refusals.{number_of};

use units::BitPos;

mod leaf; // leaf.rt: a field of any width up to 24
mod sight; // sight.rt: eight bytes looked at once
mod cursor; // cursor.rt: fields that may be absent, runs, refusals, declared ends
mod sizes; // sizes.rt: an element's size
mod choices; // choices.rt: a flag of an array of flags, tests joined, a choice, a difference

pub use choices::{as_flag, both, choice, chosen, either, flag, less, minus, pick};
pub use cursor::{close, inner_of, open, refuse_if, skip_if, take_if, take_unless, with_value};
pub use leaf::{take, word};
pub use sight::{look, look_if, window};
pub use sizes::read_size;

// Where reading stands. While no is 0: the value of the last field, and the position after it; missing is as it came. Else the first refusal: its
// number, its place, and how many bits were missing.
#[derive(Clone, Copy)]
pub struct Cur {
    pub missing: u64,
    pub v: u32,
    pub at: BitPos,
    pub no: u8,
}

// What was read, and where reading stands behind it.
#[derive(Clone, Copy)]
pub struct Step<T> {
    pub value: T,
    pub cur: Cur,
}

// What was seen in a window, and where in it the next field begins.
#[derive(Clone, Copy)]
pub struct Sighted<T> {
    pub value: T,
    pub off: u32,
}

// How far may be read: up to the end of the payload, or, inside, up to the end that an element declares.
#[derive(Clone, Copy)]
pub struct Limit {
    pub end: BitPos,
    pub inner: bool,
}

// An element's size: its value, and the groups that it took.
#[derive(Clone, Copy)]
pub struct Size {
    pub value: u32,
    pub groups: u32,
}

// What a call can refuse, by the numbers of the table of docs/DECISIONS.md.
#[derive(Clone, Copy)]
pub enum Refusal {
    TooLong = 1,
    EndsEarly,
    Version,
    Counts,
    Reserved,
    Second,
    Early,
    PastElement,
    Room,
    NotValid,
    NoFit,
    Outside,
    Lists,
    NoSuch,
    Many = 16,
    BadLine,
    ShortText,
}

impl Refusal {
    pub fn number(self) -> u8
        ensures { (result ≡ number_of self) × (0 < result) }
    {
        number(self)
    }
}

// A refusal's number.
pub fn number(r: Refusal) -> u8
    ensures { (result ≡ number_of r) × (0 < result) }
{
    r as u8
}
