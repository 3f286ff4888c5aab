// One trim configuration (5.5.12).
ghost use Rattle.bits.specs.Language.{bit};
ghost use Rattle.bits.specs.View.{Gave};
ghost use Rattle.oamd.specs.Trim.{trim_config};
ghost use Rattle.syntax.specs.Trim.{BalanceRead};

use crate::Balance;
use bits::{Cur, Limit, Step};
use oamd::TrimConfig;

// A balance, if it is sent: its sign and its amount.
fn read_balance(s: &[u8], l: Limit, c: Cur, on: bool) -> Step<Balance>
    ensures { BalanceRead on (bit s.now) c l result }
{
    let sign = bits::take_if(on, s, l, c, 1);
    let amount = bits::take_if(on, s, l, sign, 4);
    Step {
        value: Balance {
            sign: sign.v as u8,
            amount: amount.v as u8,
        },
        cur: amount,
    }
}

pub fn read_trim_config(s: &[u8], l: Limit, c: Cur) -> Step<TrimConfig>
    ensures { Gave trim_config (bit s.now) c l result.value result.cur }
{
    let bydefault = bits::take(s, l, c, 1);
    let disabled = bits::take_if(bydefault.v == 0, s, l, bydefault, 1);
    let sent = (bydefault.v == 0) & (disabled.v == 0);
    let presence = bits::take_if(sent, s, l, disabled, 5);
    let centre = bits::take_if(oamd::has_centre(presence.v), s, l, presence, 4);
    let surround = bits::take_unless(oamd::has_surround(presence.v), s, l, centre, 4, 0, 3);
    let height = bits::take_unless(oamd::has_height(presence.v), s, l, surround, 4, 0, 3);
    let tb = read_balance(s, l, height, oamd::has_tb(presence.v));
    let lis = read_balance(s, l, tb.cur, oamd::has_lis(presence.v));
    Step {
        value: TrimConfig {
            bydefault: bydefault.v as u8,
            disabled: disabled.v as u8,
            presence: presence.v as u8,
            centre: centre.v as u8,
            surround: surround.v as u8,
            height: height.v as u8,
            tbsign: tb.value.sign,
            tbamount: tb.value.amount,
            lissign: lis.value.sign,
            lisamount: lis.value.amount,
        },
        cur: bits::with_value(lis.cur, 0),
    }
}
