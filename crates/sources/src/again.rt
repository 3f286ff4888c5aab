// Divergence and precise positions (5.5.14, 5.5.15), read as `read` reads them (crates/syntax). They stand here a second time, so that those of `read` have one caller alone: with a second one the compiler keeps them out of its loop, and reading takes a tenth
// longer.
ghost use Rattle.bits.specs.Language.{bit};
ghost use Rattle.bits.specs.View.{Gave};
ghost use Rattle.oamd.specs.Extended.{obj_div_block, ext_prec_pos_block};

use bits::{Cur, Limit, Step};
use oamd::{Divergence, Precise};

pub fn read_divergence(s: &[u8], l: Limit, c: Cur, carries: bool) -> Step<Divergence>
    ensures { Gave (obj_div_block carries) (bit s.now) c l result.value result.cur }
{
    let used = bits::take_if(carries, s, l, c, 1);
    let mode = bits::take_unless(used.v == 1, s, l, used, 2, 3, 3);
    let table = bits::take_if((used.v == 1) & (mode.v == 0), s, l, mode, 2);
    let code = bits::take_unless(mode.v == 2, s, l, table, 6, 0, 0);
    Step {
        value: Divergence {
            used: used.v as u8,
            mode: mode.v as u8,
            value: (table.v + code.v) as u8,
        },
        cur: bits::with_value(code, 0),
    }
}

pub fn read_precise(s: &[u8], l: Limit, c: Cur, carries: bool) -> Step<Precise>
    ensures { Gave (ext_prec_pos_block carries) (bit s.now) c l result.value result.cur }
{
    let given = bits::take_if(carries, s, l, c, 1);
    let presence = bits::take_if(given.v == 1, s, l, given, 3);
    let x = bits::take_if(oamd::has_x(presence.v), s, l, presence, 2);
    let y = bits::take_if(oamd::has_y(presence.v), s, l, x, 2);
    let z = bits::take_if(oamd::has_z(presence.v), s, l, y, 2);
    Step {
        value: Precise {
            presence: presence.v as u8,
            x: x.v as u8,
            y: y.v as u8,
            z: z.v as u8,
        },
        cur: bits::with_value(z, 0),
    }
}
