// The extended object element's two groups of a record, packed; either may be no bits at all (5.5.14, 5.5.15).
ghost use Rattle.form.specs.Form.{divergence_bits, precise_bits};
ghost use Rattle.coding.specs.Packing.{PacksIn, Room, Behind, axes_bits};

use crate::Packed;
use bits::as_flag;
use oamd::{Divergence, Precise};

pub fn divergence(sent: bool, d: Divergence) -> Packed
    ensures { PacksIn 0 11 result (divergence_bits sent d) }
{
    Packed::nothing()
        .pack_if(sent, 1, d.used as u64)
        .pack_if(d.used == 1, 2, d.mode as u64)
        .pack_if((d.used == 1) & (d.mode == 0), 2, d.value as u64)
        .pack_if(d.mode == 2, 6, d.value as u64)
}

fn axes(p: Packed, precise: Precise) -> Packed
    requires { Room 6 p }
    ensures { Behind 0 6 p result (axes_bits precise) }
{
    let x = oamd::has_x(precise.presence as u32);
    let y = oamd::has_y(precise.presence as u32);
    let z = oamd::has_z(precise.presence as u32);
    p.pack_if(x, 2, precise.x as u64)
        .pack_if(y, 2, precise.y as u64)
        .pack_if(z, 2, precise.z as u64)
}

pub fn precise(sent: bool, d: Precise) -> Packed
    ensures { PacksIn 0 10 result (precise_bits sent d) }
{
    let some = as_flag(0 < d.presence);
    let p = Packed::nothing()
        .pack_if(sent, 1, some as u64)
        .pack_if(0 < d.presence, 3, d.presence as u64);
    axes(p, d)
}
