// What a cursor does besides reading a field.
ghost use Rattle.std.specs.Prelude.{◌≡◌, ◌-◌, ◌*◌, ◌^◌, ◌≤◌, ◌<◌};
ghost use Rattle.bits.specs.Language.{bit, between, bits_if, bits_unless, skip, when, refuse_if, widest_field};
ghost use Rattle.bits.specs.Refusals.{number_of};
ghost use Rattle.bits.specs.View.{Reads, Took, Gave, valued, open_at, inner_of, close_at};

use crate::leaf::{over, take};
use crate::{Cur, Limit, Refusal};
use units::{BitPos, ByteCount};

// The cursor with another value.
pub fn with_value(c: Cur, v: u32) -> Cur
    ensures { result ≡ valued c v }
{
    let at = c.at;
    Cur {
        missing: c.missing,
        v,
        at,
        no: c.no,
    }
}

// The next field, where a flag says that it is there; else 0.
pub fn take_if(on: bool, s: &[u8], l: Limit, c: Cur, w: u32) -> Cur
    requires { (1 ≤ w) × (w ≤ widest_field) }
    ensures { Took (bits_if on w) (2 ^ w) (bit s.now) c l result }
{
    if on {
        take(s, l, c, w)
    } else {
        with_value(c, 0)
    }
}

// The place back bits before a position.
fn place_before(at: BitPos, back: u32) -> BitPos
    ensures { result.0 ≡ at.0 - back }
{
    let p = at.raw();
    if p < back {
        BitPos::new(0)
    } else {
        BitPos::new(p - back)
    }
}

// Refuses with r, back bits before the cursor, where a flag says so. Nothing is read, and the cursor's value stays.
pub fn refuse_if(on: bool, s: &[u8], l: Limit, c: Cur, r: Refusal, back: u32) -> Cur
    ensures { (result.v ≡ c.v) × Reads (refuse_if on (number_of r) back c.v) (bit s.now) c l result.v result }
{
    if on {
        if c.no == 0 {
            let at = c.at;
            return Cur {
                missing: 0,
                v: c.v,
                at: place_before(at, back),
                no: r.number(),
            };
        }
    }
    c
}

// v is one of low to high.
fn in_range(low: u32, high: u32, v: u32) -> bool
    ensures { result ≡ between low high v }
{
    if low <= v { v <= high } else { false }
}

// The next field, where a flag says that it is there; else 0. The values from low to high are reserved: refused at the field's own first bit.
pub fn take_unless(on: bool, s: &[u8], l: Limit, c: Cur, w: u32, low: u32, high: u32) -> Cur
    requires { (1 ≤ w) × (w ≤ widest_field) }
    ensures { Took (when on (bits_unless (number_of Refusal.Reserved) w (between low high)) 0) (2 ^ w) (bit s.now) c l result }
{
    if on {
        let read = take(s, l, c, w);
        let reserved = in_range(low, high, read.v);
        refuse_if(reserved, s, l, read, Refusal::Reserved, w)
    } else {
        with_value(c, 0)
    }
}

// Passes over n bytes, which begin at any bit, where a flag says that they are there, without a look at them.
pub fn skip_if(on: bool, s: &[u8], l: Limit, c: Cur, n: ByteCount) -> Cur
    ensures { Gave (when on (skip (8 * n.0)) 0) (bit s.now) c l 0 result }
{
    let at = c.at;
    if on {
        if c.no == 0 {
            let to = at.raw() as u64 + n.bits();
            let end = l.end.raw() as u64;
            if end < to {
                return Cur {
                    missing: to - end,
                    v: 0,
                    at,
                    no: over(l.inner),
                };
            }
            return Cur {
                missing: c.missing,
                v: 0,
                at: BitPos::new(to as u32),
                no: 0,
            };
        }
    }
    with_value(c, 0)
}

// An element of n bytes, which begin at any bit, must fit: the cursor, or a refusal back bits before it.
pub fn open(l: Limit, c: Cur, n: ByteCount, back: u32) -> Cur
    ensures { result ≡ open_at l c (8 * n.0) back }
{
    if c.no == 0 {
        let at = c.at;
        let to = at.raw() as u64 + n.bits();
        let end = l.end.raw() as u64;
        if end < to {
            return Cur {
                missing: to - end,
                v: 0,
                at: place_before(at, back),
                no: over(l.inner),
            };
        }
    }
    c
}

// The limit of an element of n bytes that begins at the cursor.
pub fn inner_of(l: Limit, c: Cur, n: ByteCount) -> Limit
    ensures { result ≡ inner_of l c (8 * n.0) }
{
    let end = l.end;
    let to = c.at.raw() as u64 + n.bits();
    if to <= end.raw() as u64 {
        Limit {
            end: BitPos::new(to as u32),
            inner: true,
        }
    } else {
        Limit { end, inner: true }
    }
}

// Behind the element, whatever of it was read.
pub fn close(e: Cur, l: Limit) -> Cur
    ensures { result ≡ close_at e l }
{
    if e.no == 0 {
        let at = l.end;
        return Cur {
            missing: e.missing,
            v: 0,
            at,
            no: 0,
        };
    }
    e
}
