// The lines of a catalogue, laid one after the other.
ghost use Rattle.std.specs.Prelude.{◌∷◌, [], ◌++◌};
ghost use Rattle.text.specs.Laying.{Laid};
ghost use Rattle.catalogue.specs.Text.{pair, refused_line, frame_line, update_line};

use text::{lay_bytes, lay_number};

// A key, its number, and a byte behind them.
fn lay_pair(text: &mut [u8], at: usize, key: &[u8], n: u64, end: u8) -> usize
    ensures { Laid text.old text.new at result (pair key.now n ++ (end ∷ [])) }
{
    let to = lay_bytes(text, at, key);
    lay_number(text, to, n, end)
}

pub fn lay_refused(text: &mut [u8], at: usize, frame: u32, refusal: u8) -> usize
    ensures { Laid text.old text.new at result (refused_line frame refusal) }
{
    let to = lay_pair(text, at, &keys::FRAME, frame as u64, b',');
    lay_pair(text, to, &keys::REFUSAL, refusal as u64, b'\n')
}

pub fn lay_accepted(text: &mut [u8], at: usize, frame: u32, objects: usize, blocks: usize) -> usize
    ensures { Laid text.old text.new at result (frame_line frame objects blocks) }
{
    let to = lay_pair(text, at, &keys::FRAME, frame as u64, b',');
    let to = lay_pair(text, to, &keys::OBJECTS, objects as u64, b',');
    lay_pair(text, to, &keys::BLOCKS, blocks as u64, b'\n')
}

pub fn lay_update_line(text: &mut [u8], at: usize, start: u16, ramp: u16) -> usize
    ensures { Laid text.old text.new at result (update_line start ramp) }
{
    let to = lay_pair(text, at, &keys::START, start as u64, b',');
    lay_pair(text, to, &keys::RAMP, ramp as u64, b'\n')
}
