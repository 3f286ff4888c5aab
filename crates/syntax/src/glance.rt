// Statuses, gain and priority (5.5.9, 5.5.10), looked at in a window as if nothing could end.
ghost use Rattle.std.specs.Prelude.{◌≡◌, ◌+◌, ◌≤◌, ◌<◌, eqb};
ghost use Rattle.bits.specs.Language.{pick, bits, bits_if};
ghost use Rattle.oamd.specs.Programme.{clear?};
ghost use Rattle.oamd.specs.Block.{status_idx};
ghost use Rattle.syntax.specs.Looks.{Seen, Pair};

use crate::Coded;
use crate::levels::status_of;
use bits::Sighted;
use oamd::{Gain, Priority, Status};

// Default where nothing can be sent, full in the first block, else 2 bits.
pub fn look_status(x: u64, o: u32, none: bool, first: bool) -> Sighted<Status>
    requires { o ≤ 62 }
    ensures { Seen (status_idx none first) 2 x o result.value result.off }
{
    if none {
        return Sighted {
            value: Status::Default,
            off: o,
        };
    }
    if first {
        return Sighted {
            value: Status::Full,
            off: o,
        };
    }
    let code = bits::look(x, o, 2);
    Sighted {
        value: status_of(code.value),
        off: code.off,
    }
}

// A number of a byte, where a test holds, else 0.
pub fn only(on: bool, v: u32) -> u8
    requires { v < 256 }
    ensures { result ≡ pick on v 0 }
{
    if on { v as u8 } else { 0 }
}

// A code of w bits, and behind it k bits more where it is a given one; else 0 stands for these.
fn look_pair(x: u64, o: u32, w: u32, k: u32, which: u32) -> Sighted<Coded>
    requires { (1 ≤ w) × (w + k ≤ 8) × (o + (w + k) ≤ 64) }
    ensures { Pair (bits w) (λ i. bits_if (eqb i which) k) (w + k) x o result.value.code result.value.more result.off }
{
    let q = bits::look(x, o, w + k);
    let code = q.value >> k;
    let sent = code == which;
    Sighted {
        value: Coded {
            code: code as u8,
            more: only(sent, q.value % (1 << k)),
        },
        off: bits::pick(sent, q.off, o + w),
    }
}

pub fn look_gain(x: u64, o: u32) -> Sighted<Gain>
    requires { o ≤ 56 }
    ensures { Pair (bits 2) (λ i. bits_if (eqb i 2) 6) 8 x o result.value.index result.value.bits result.off }
{
    let p = look_pair(x, o, 2, 6, 2);
    Sighted {
        value: Gain {
            index: p.value.code,
            bits: p.value.more,
        },
        off: p.off,
    }
}

pub fn look_priority(x: u64, o: u32) -> Sighted<Priority>
    requires { o ≤ 58 }
    ensures { Pair (bits 1) (λ d. bits_if (clear? d) 5) 6 x o result.value.bydefault result.value.bits result.off }
{
    let p = look_pair(x, o, 1, 5, 0);
    Sighted {
        value: Priority {
            bydefault: p.value.code,
            bits: p.value.more,
        },
        off: p.off,
    }
}
