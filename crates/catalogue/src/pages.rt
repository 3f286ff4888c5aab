// All frames of a text, each laid into the lent buffers as it was read.
ghost use Rattle.std.specs.Prelude.{◌≡◌, MatchResult};
ghost use Rattle.catalogue.specs.Scan.{bad};
ghost use Rattle.catalogue.specs.Back.{back};
ghost use Rattle.catalogue.specs.Parts.{front};
ghost use Rattle.catalogue.specs.BackCalls.{Laying};

use crate::lending::{lay_line, lay_records};
use crate::sheets::read_sheet;
use crate::{BadLine, Latest, Reader, Tally};
use oamd::SCRATCH_BYTES;

// All frames. What falls behind the end of a buffer is not stored, so that short ones give the lengths.
pub fn read_frames(
    text: &[u8],
    rows: &mut Latest,
    lines: &mut [u8],
    records: &mut [u8],
) -> Result<Tally, BadLine>
    ensures { MatchResult result (λ t. Laying text.now (front rows.old) (front rows.new) lines.old lines.new records.old records.new t)
        (λ e. back (front rows.old) text.now ≡ bad e.line) }
{
    let mut store = [0u8; SCRATCH_BYTES];
    let mut r = Reader {
        rest: text,
        line: 1,
    };
    let mut t = Tally {
        frames: 0,
        lines: 0,
        records: 0,
    };
    while !r.rest.is_empty() {
        let page = read_sheet(&mut r, rows, &mut store)?;
        t = Tally {
            frames: t.frames + 1,
            lines: lay_line(lines, t.lines, page),
            records: lay_records(records, t.records, page, &store),
        };
    }
    Ok(t)
}
