// All that is left: the header, the element count written anew, and the bits between the elements that go.
ghost use Rattle.std.specs.Prelude.{◌≡◌, ◌+◌, ◌-◌, ◌/◌, ◌≤◌, length};
ghost use Rattle.bits.specs.Writes.{to_bytes};
ghost use Rattle.oamd.specs.Tables.{most_elements};
ghost use Rattle.demands.specs.Assembly.{count_bits};
ghost use Rattle.laying.specs.Laying.{Laid, blank, most_position, reach};
ghost use Rattle.salvaging.specs.Parts.{most_count, most_left, left_by, Fair};

use crate::copying::copy_run;
use crate::runs::{put_runs, runs_width};
use laying::Pen;
use reader::Sifted;
use units::{BitCount, BitPos};

// From this count on a second field follows.
const LONG_COUNT: u32 = 15;

// How many bits an element count takes.
fn count_width(n: u32) -> BitCount
    ensures { result.0 ≡ length (count_bits n) }
{
    if n < LONG_COUNT {
        return BitCount::new(4);
    }
    BitCount::new(9)
}

// An element count.
fn put_count(out: &mut [u8], pen: Pen, n: u32) -> Pen
    requires n_le_most_elements { n ≤ most_elements }
    requires most_count_bound { reach out.old pen + most_count ≤ most_position }
    ensures { Laid most_count out.old out.new pen result (count_bits n) }
{
    if n < LONG_COUNT {
        return laying::put(out, pen, 4, n as u64);
    }
    let next = laying::put(out, pen, 4, LONG_COUNT as u64);
    laying::put(out, next, 5, (n - LONG_COUNT) as u64)
}

// How many elements stay.
fn kept(found: Sifted) -> u32
    requires { found.drops ≤ found.count }
    ensures { result ≡ found.count - found.drops }
{
    found.count - found.drops as u32
}

// How many bits are left.
pub fn left_width(payload: &[u8], found: Sifted) -> BitCount
    requires { Fair payload.now found }
    ensures { result.0 ≡ length (left_by payload.now found) }
{
    let before = found.head.since(BitPos::new(0));
    let count = count_width(kept(found));
    let behind = runs_width(payload, found);
    before.plus(count).plus(behind)
}

// Lays them from the buffer's first bit on.
fn put_left(out: &mut [u8], payload: &[u8], found: Sifted) -> Pen
    requires { Fair payload.now found }
    ensures { Laid most_left out.old out.new blank result (left_by payload.now found) }
{
    let first = BitPos::new(0);
    let start = laying::start();
    let next = copy_run(payload, first, found.head.since(first), out, start);
    let next = put_count(out, next, kept(found));
    put_runs(out, next, payload, found)
}

// Lays them into a buffer that has room for them and no more; the bits behind them, up to the end of its last byte, are 0.
pub fn fill(out: &mut [u8], payload: &[u8], found: Sifted)
    requires fair { Fair payload.now found }
    requires out_len { length out.old ≡ (length (left_by payload.now found) + 7) / 8 }
    ensures { out.new ≡ to_bytes (left_by payload.now found) }
{
    let end = put_left(out, payload, found);
    laying::finish(out, end);
}
