// Statuses, the parts of a group, and object_basic_info (5.5.9, 5.5.10).
ghost use Rattle.std.specs.Prelude.{◌≡◌, ◌^◌, ◌≤◌, ◌<◌};
ghost use Rattle.bits.specs.Language.{bit, widest_field};
ghost use Rattle.bits.specs.View.{Reads, Took};
ghost use Rattle.oamd.specs.Block.{status_of, status_idx, parts_of, object_basic_info};

use bits::{Cur, Limit, Step};
use oamd::{Basic, Gain, Priority, Status};

// No `From`: only numbers of 2 bits are codes.
pub fn status_of(code: u32) -> Status
    ensures { result ≡ status_of code }
{
    match code {
        0 => Status::Default,
        1 => Status::Full,
        2 => Status::Reuse,
        _ => Status::Mixed,
    }
}

// Default where nothing can be sent, full in the first block, else 2 bits.
pub fn read_status(s: &[u8], l: Limit, c: Cur, none: bool, first: bool) -> Step<Status>
    ensures { Reads (status_idx none first) (bit s.now) c l result.value result.cur }
{
    if none {
        return Step {
            value: Status::Default,
            cur: c,
        };
    }
    if first {
        return Step {
            value: Status::Full,
            cur: c,
        };
    }
    let code = bits::take(s, l, c, 2);
    Step {
        value: status_of(code.v),
        cur: code,
    }
}

// Which parts of a group are sent: all of them, as w bits say, or none.
pub fn read_parts(s: &[u8], l: Limit, c: Cur, status: Status, all: u32, w: u32) -> Cur
    requires { (1 ≤ w) × (w ≤ widest_field) × (all < 2 ^ w) }
    ensures { Took (parts_of all w status) (2 ^ w) (bit s.now) c l result }
{
    match status {
        Status::Full => bits::with_value(c, all),
        Status::Mixed => bits::take(s, l, c, w),
        Status::Default | Status::Reuse => bits::with_value(c, 0),
    }
}

pub fn read_basic(s: &[u8], l: Limit, c: Cur, status: Status) -> Step<Basic>
    ensures { Reads (object_basic_info status) (bit s.now) c l result.value result.cur }
{
    let parts = read_parts(s, l, c, status, 3, 2);
    let index = bits::take_if(oamd::has_gain(parts.v), s, l, parts, 2);
    let level = bits::take_if(index.v == 2, s, l, index, 6);
    let ranked = oamd::has_priority(parts.v);
    let bydefault = bits::take_if(ranked, s, l, level, 1);
    let rank = bits::take_if(ranked & (bydefault.v == 0), s, l, bydefault, 5);
    Step {
        value: Basic {
            status,
            parts: parts.v as u8,
            gain: Gain {
                index: index.v as u8,
                bits: level.v as u8,
            },
            priority: Priority {
                bydefault: bydefault.v as u8,
                bits: rank.v as u8,
            },
        },
        cur: rank,
    }
}
