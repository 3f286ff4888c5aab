// Eight bytes looked at once: fields out of them are read without an end, and the end is held against what was read.
ghost use Rattle.std.specs.Prelude.{◌≡◌, ◌+◌, ◌*◌, ◌/◌, ◌^◌, ◌≤◌, ◌<◌};
ghost use Rattle.bits.specs.Language.{pick, bit, bits, bits_if, widest_field};
ghost use Rattle.bits.specs.View.{wide_at, Sees, looked, Looked, sight_of, no_sight};

use crate::Sighted;
use crate::leaf::{word_from, word_in};
use units::BitPos;

// Two words, the first the higher.
fn two(a: u32, b: u32) -> u64
    ensures { result ≡ a * 4294967296 + b }
{
    a as u64 * 4294967296 + b as u64
}

// The eight bytes from i as one number, bytes past the end as 0.
fn wide_from(s: &[u8], i: usize) -> u64
    requires { i < 536870912 }
    ensures { result ≡ wide_at s.now i }
{
    let j = i + 4;
    if i + 8 <= s.len() {
        two(word_in(s, i), word_in(s, j))
    } else {
        two(word_from(s, i), word_from(s, j))
    }
}

// The eight bytes from a position's byte on.
pub fn window(s: &[u8], at: BitPos) -> u64
    ensures { (result ≡ wide_at s.now (at.0 / 8)) × Sees result (bit s.now) (8 * (at.0 / 8)) }
{
    wide_from(s, (at.raw() / 8) as usize)
}

// n bits of a window, o bits behind its first.
fn peek(x: u64, o: u32, n: u32) -> u32
    requires { (1 ≤ n) × (n ≤ widest_field) × (o + n ≤ 64) }
    ensures { (result ≡ looked x o n) × (result < 2 ^ n) }
{
    ((x << o) >> (64 - n)) as u32
}

// A field of a window, and where the next begins.
pub fn look(x: u64, o: u32, n: u32) -> Sighted<u32>
    requires { (1 ≤ n) × (n ≤ widest_field) × (o + n ≤ 64) }
    ensures { (result ≡ sight_of x o n) × Looked (bits n) n x o result }
{
    let value = peek(x, o, n);
    Sighted { value, off: o + n }
}

// The same, where a flag says that it is there; else 0.
pub fn look_if(on: bool, x: u64, o: u32, n: u32) -> Sighted<u32>
    requires { (1 ≤ n) × (n ≤ widest_field) × (o + n ≤ 64) }
    ensures { (result ≡ pick on (sight_of x o n) (no_sight o)) × Looked (bits_if on n) n x o result }
{
    if on {
        look(x, o, n)
    } else {
        Sighted { value: 0, off: o }
    }
}
