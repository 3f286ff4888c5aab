// A trim configuration, packed (5.5.12).
ghost use Rattle.std.specs.Prelude.{◌++◌};
ghost use Rattle.bits.specs.Writes.{to_bits, only};
ghost use Rattle.form.specs.Form.{config_bits};
ghost use Rattle.coding.specs.Packing.{PacksIn, Room, Behind, balances_bits, trims_bits};

use crate::Packed;
use oamd::TrimConfig;

// A balance: a sign and an amount (Table 34).
fn balance(on: bool, p: Packed, sign: u8, amount: u8) -> Packed
    requires { Room 5 p }
    ensures { Behind 0 5 p result (only on (to_bits 1 sign) ++ only on (to_bits 4 amount)) }
{
    p.pack_if(on, 1, sign as u64).pack_if(on, 4, amount as u64)
}

fn balances(p: Packed, c: TrimConfig) -> Packed
    requires { Room 10 p }
    ensures { Behind 0 10 p result (balances_bits c) }
{
    let tb = oamd::has_tb(c.presence as u32);
    let lis = oamd::has_lis(c.presence as u32);
    let p = balance(tb, p, c.tbsign, c.tbamount);
    balance(lis, p, c.lissign, c.lisamount)
}

// The three trims, and the balances.
fn trims(p: Packed, c: TrimConfig) -> Packed
    requires { Room 22 p }
    ensures { Behind 0 22 p result (trims_bits c) }
{
    let centre = oamd::has_centre(c.presence as u32);
    let surround = oamd::has_surround(c.presence as u32);
    let height = oamd::has_height(c.presence as u32);
    let p = p
        .pack_if(centre, 4, c.centre as u64)
        .pack_if(surround, 4, c.surround as u64)
        .pack_if(height, 4, c.height as u64);
    balances(p, c)
}

pub fn config(c: TrimConfig) -> Packed
    ensures { PacksIn 1 29 result (config_bits c) }
{
    let p = Packed::nothing()
        .pack(1, c.bydefault as u64)
        .pack_if(c.bydefault == 0, 1, c.disabled as u64)
        .pack_if((c.bydefault == 0) & (c.disabled == 0), 5, c.presence as u64);
    trims(p, c)
}
