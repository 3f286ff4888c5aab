// A field, and what is made of it: laid into the lent buffer behind what a pen has laid.
ghost use Rattle.std.specs.Prelude.{◌+◌, ◌^◌, ◌≤◌, ◌<◌, replicate};
ghost use Rattle.bits.specs.Language.{widest_field};
ghost use Rattle.bits.specs.Writes.{to_bits};
ghost use Rattle.laying.specs.Laying.{Laid, most_position, widest_put, reach};

use coding::Packed;
use laying::Pen;
use units::BitCount;

// A field of w bits, the low bits of v.
pub fn put(out: &mut [u8], pen: Pen, w: u32, v: u32) -> Pen
    requires le_w { (1 ≤ w) × (w ≤ widest_field) }
    requires w_bound { reach out.old pen + w ≤ most_position }
    ensures { Laid w out.old out.new pen result (to_bits w v) }
{
    put_packed(out, pen, coding::field(w, v as u64))
}

// Packed bits.
pub fn put_packed(out: &mut [u8], pen: Pen, packed: Packed) -> Pen
    requires le_width { (1 ≤ packed.width.0) × (packed.width.0 ≤ widest_put) × (packed.value < 2 ^ packed.width.0) }
    requires width_bound { reach out.old pen + packed.width.0 ≤ most_position }
    ensures { Laid packed.width.0 out.old out.new pen result (to_bits packed.width.0 packed.value) }
{
    laying::put(out, pen, packed.width.raw(), packed.value)
}

// The same, or no bits at all.
pub fn put_some(out: &mut [u8], pen: Pen, packed: Packed) -> Pen
    requires width_le_widest_put { (packed.width.0 ≤ widest_put) × (packed.value < 2 ^ packed.width.0) }
    requires width_bound { reach out.old pen + packed.width.0 ≤ most_position }
    ensures { Laid packed.width.0 out.old out.new pen result (to_bits packed.width.0 packed.value) }
{
    if packed.width.raw() == 0 {
        pen
    } else {
        put_packed(out, pen, packed)
    }
}

// Fewer than 8 zeros.
pub fn put_zeros(out: &mut [u8], pen: Pen, n: BitCount) -> Pen
    requires n_bound { n.0 < 8 }
    requires n_bound_2 { reach out.old pen + n.0 ≤ most_position }
    ensures { Laid n.0 out.old out.new pen result (replicate n.0 0) }
{
    let w = n.raw();
    if w == 0 {
        return pen;
    }
    put(out, pen, w, 0)
}
