// The pen: fields laid one behind the other. The bits behind the last byte that is stored for good stay in a number, so that nothing is ever read back from the buffer.
ghost use Rattle.std.specs.Prelude.{◌≡◌, ◌+◌, ◌^◌, ◌<◌, ◌≤◌, length, slice_set};
ghost use Rattle.laying.specs.Laying.{Put, place, reach, blank, joined, widest_put, most_position, set_wide, set_high, set_low};

use crate::Pen;
use units::{BitCount, ByteCount};

// The eight bytes of y from i on.
fn store_whole(out: &mut [u8], i: usize, y: u64)
    requires { i + 8 ≤ length out.old }
    ensures { out.new ≡ set_wide out.old i y }
{
    out[i] = (y / 72057594037927936) as u8;
    out[i + 1] = (y / 281474976710656 % 256) as u8;
    out[i + 2] = (y / 1099511627776 % 256) as u8;
    out[i + 3] = (y / 4294967296 % 256) as u8;
    out[i + 4] = (y / 16777216 % 256) as u8;
    out[i + 5] = (y / 65536 % 256) as u8;
    out[i + 6] = (y / 256 % 256) as u8;
    out[i + 7] = (y % 256) as u8;
}

// Stores a byte, where the buffer has it.
fn store(out: &mut [u8], i: usize, b: u64)
    requires { b < 256 }
    ensures { out.new ≡ slice_set out.old i b }
{
    if i < out.len() {
        out[i] = b as u8;
    }
}

// The first four bytes of y from i on, where the buffer has them.
fn store_high(out: &mut [u8], i: usize, y: u64)
    requires { i < 536870912 }
    ensures { out.new ≡ set_high out.old i y }
{
    store(out, i, y / 72057594037927936);
    store(out, i + 1, y / 281474976710656 % 256);
    store(out, i + 2, y / 1099511627776 % 256);
    store(out, i + 3, y / 4294967296 % 256);
}

// The last four.
fn store_low(out: &mut [u8], i: usize, y: u64)
    requires { i < 536870912 }
    ensures { out.new ≡ set_low out.old i y }
{
    store(out, i + 4, y / 16777216 % 256);
    store(out, i + 5, y / 65536 % 256);
    store(out, i + 6, y / 256 % 256);
    store(out, i + 7, y % 256);
}

// The same as store_whole near the end of the buffer: past it nothing is stored.
fn store_end(out: &mut [u8], i: usize, y: u64)
    requires { i < 536870912 }
    ensures { out.new ≡ set_wide out.old i y }
{
    store_high(out, i, y);
    store_low(out, i, y);
}

// Nothing is laid yet.
pub fn start() -> Pen
    ensures { result ≡ blank }
{
    Pen {
        word: 0,
        held: BitCount::new(0),
        stored: ByteCount::new(0),
    }
}

// Open bits and v behind them, n bits together.
#[tactic(auto, unfolding(crate::specs::Laying::joined))]
fn join(word: u64, n: u32, v: u64) -> u64
    requires { (1 ≤ n) × (n ≤ 64) }
    ensures { result ≡ joined word n v }
{
    word.wrapping_add(v << (64 - n))
}

// Lays a field of w bits, which hold all of v, behind what the pen has laid. Where eight bytes have room, the bits that are held are stored with it, and those that fill a byte are
// held no longer. Near the end of the buffer they are held, and not stored before `finish`. Past the end they are counted alone.
pub fn put(out: &mut [u8], pen: Pen, w: u32, v: u64) -> Pen
    requires le_w { (1 ≤ w) × (w ≤ widest_put) × (v < 2 ^ w) }
    requires w_bound { reach out.old pen + w ≤ most_position }
    ensures { Put w out.old out.new pen result v }
{
    let bytes = pen.stored.raw();
    let n = pen.held.raw() + w;
    if bytes as usize + 8 <= out.len() {
        let y = join(pen.word, n, v);
        store_whole(out, bytes as usize, y);
        return Pen {
            word: y << (n / 8 * 8),
            held: BitCount::new(n % 8),
            stored: ByteCount::new(bytes + n / 8),
        };
    }
    let held = BitCount::new(n);
    if 63 < n {
        return Pen { held, ..pen };
    }
    Pen {
        word: join(pen.word, n, v),
        held,
        ..pen
    }
}

// Stores what is held, up to the end of the buffer.
pub fn finish(out: &mut [u8], pen: Pen)
    requires { place pen ≤ most_position }
    ensures { out.new ≡ set_wide out.old pen.stored.0 pen.word }
{
    store_end(out, pen.stored.raw() as usize, pen.word);
}
