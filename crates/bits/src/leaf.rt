// The one function that reads a field.
ghost use Rattle.std.specs.Prelude.{◌≡◌, ◌+◌, ◌/◌, ◌^◌, ◌≤◌, ◌<◌, get_or, length};
ghost use Rattle.bits.specs.Language.{bits, bit, widest_field};
ghost use Rattle.bits.specs.View.{word_at, over_of, Took};

use crate::cursor::with_value;
use crate::{Cur, Limit, Refusal};
use units::BitPos;

fn wide(x: u8) -> u32
    ensures { (result ≡ x) × (result < 256) }
{
    x as u32
}

// The byte at i, or 0 past the end.
fn byte(s: &[u8], i: usize) -> u32
    ensures { (result ≡ get_or s.now i 0) × (result < 256) }
{
    if i < s.len() { wide(s[i]) } else { 0 }
}

// The four bytes from i as one number.
pub fn word_in(s: &[u8], i: usize) -> u32
    requires { i + 4 ≤ length s.now }
    ensures { result ≡ word_at s.now i }
{
    ((wide(s[i]) * 256 + wide(s[i + 1])) * 256 + wide(s[i + 2])) * 256 + wide(s[i + 3])
}

// The same, bytes past the end as 0.
pub fn word_from(s: &[u8], i: usize) -> u32
    requires { i < 1000000000 }
    ensures { result ≡ word_at s.now i }
{
    if i + 4 <= s.len() {
        word_in(s, i)
    } else {
        ((byte(s, i) * 256 + byte(s, i + 1)) * 256 + byte(s, i + 2)) * 256 + byte(s, i + 3)
    }
}

// Four bytes as a number, from the byte on in which a position lies.
pub fn word(s: &[u8], at: BitPos) -> u32
    ensures { result ≡ word_at s.now (at.0 / 8) }
{
    word_from(s, (at.raw() / 8) as usize)
}

// The refusal for passing a limit's end.
pub fn over(inner: bool) -> u8
    ensures { result ≡ over_of inner }
{
    if inner {
        Refusal::PastElement.number()
    } else {
        Refusal::EndsEarly.number()
    }
}

// The next field of w bits. Behind a refusal nothing is read.
pub fn take(s: &[u8], l: Limit, c: Cur, w: u32) -> Cur
    requires { (1 ≤ w) × (w ≤ widest_field) }
    ensures { Took (bits w) (2 ^ w) (bit s.now) c l result }
{
    if c.no != 0 {
        return with_value(c, 0);
    }
    let at = c.at;
    let p = at.raw();
    let to = p as u64 + w as u64;
    let end = l.end.raw() as u64;
    if to <= end {
        let x = word(s, at);
        Cur {
            missing: c.missing,
            v: (x << (p % 8)) >> (32 - w),
            at: BitPos::new(to as u32),
            no: 0,
        }
    } else {
        Cur {
            missing: to - end,
            v: 0,
            at,
            no: over(l.inner),
        }
    }
}
