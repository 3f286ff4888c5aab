// Bits laid into a lent buffer, from its first bit on.
#![tactic(auto)]

use units::{BitCount, ByteCount};

mod putting; // putting.rt: a field

pub use putting::{finish, put, start};

// Where laying stands: so many bytes are stored for good; behind them so many bits are held, the first of `word`, whose others are 0.
#[derive(Clone, Copy)]
pub struct Pen {
    pub word: u64,
    pub held: BitCount,
    pub stored: ByteCount,
}
