// The update before, as it is lent from call to call: how many objects it has, and their rows.
ghost use Rattle.std.specs.Prelude.{◌≡◌, ◌≤◌, length};
ghost use Rattle.oamd.specs.Record.{onto};
ghost use Rattle.catalogue.specs.Answer.{before_bytes, rows_in, rows_laid};
ghost use Rattle.catalogue.specs.Parts.{front};

use crate::{Latest, MOST_OBJECTS, Objects, ROWS_BYTES};
use oamd::RECORD_BYTES;
use text::{lay_byte, lay_bytes};

// Its rows into an array; it has no more objects than there can be.
pub fn take_before(before: &[u8]) -> Latest
    requires { before_bytes ≤ length before.now }
    ensures { front result ≡ rows_in before.now }
{
    let n = before[0].min(MOST_OBJECTS) as usize;
    let end = 1 + RECORD_BYTES * n;
    // The rows are laid where they stay: an array of their own would be on the stack, too.
    let mut latest = Latest {
        count: Objects { n },
        bytes: [0u8; ROWS_BYTES],
    };
    lay_bytes(&mut latest.bytes, 0, &before[1..end]);
    latest
}

// And back, for the next call.
pub fn keep_before(before: &mut [u8], latest: &Latest)
    requires { before_bytes ≤ length before.old }
    ensures { before.new ≡ onto (rows_laid (front latest.now)) before.old }
{
    let n = latest.count.n;
    let to = lay_byte(before, 0, n as u8);
    lay_bytes(before, to, &latest.bytes[..RECORD_BYTES * n]);
}
