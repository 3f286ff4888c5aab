// Text laid from a position on. What falls behind the end of the buffer is not stored, so that the same functions over a short buffer give a text's length;
// the last position that there is stays, so that no caller owes a bound. Buffer and position are two parameters and not one struct, since the position is a value that is
// handed on, as the laws of laying say it.
ghost use Rattle.std.specs.Prelude.{◌≡◌, ◌∷◌, [], ◌++◌, ◌+◌};
ghost use Rattle.text.specs.Numerals.{decimal, hex_byte};
ghost use Rattle.text.specs.Lines.{hex, number_line};
ghost use Rattle.text.specs.Laying.{Laid};

const HEX: [u8; 16] = *b"0123456789abcdef";

pub fn lay_byte(text: &mut [u8], at: usize, b: u8) -> usize
    ensures { Laid text.old text.new at result (b ∷ []) }
{
    // Within the buffer the next position is taken by itself: bounded in every case, it takes the texts of a listing a quarter longer.
    if at < text.len() {
        text[at] = b;
        return at + 1;
    }
    at.saturating_add(1)
}

pub fn lay_bytes(text: &mut [u8], at: usize, bytes: &[u8]) -> usize
    ensures { Laid text.old text.new at result bytes.now }
{
    let mut to = at;
    for b in bytes {
        to = lay_byte(text, to, *b);
    }
    to
}

// A number in decimal, without leading zeros.
pub fn lay_decimal(text: &mut [u8], at: usize, n: u64) -> usize
    ensures { Laid text.old text.new at result (decimal n) }
{
    if n < 10 {
        return lay_byte(text, at, b'0' + n as u8);
    }
    let to = lay_decimal(text, at, n / 10);
    lay_byte(text, to, b'0' + (n % 10) as u8)
}

fn lay_hex_byte(text: &mut [u8], at: usize, b: u8) -> usize
    ensures { Laid text.old text.new at result (hex_byte b) }
{
    let to = lay_byte(text, at, HEX[(b / 16) as usize]);
    lay_byte(text, to, HEX[(b % 16) as usize])
}

// Bytes as hex digits. A loop of its own: one function for this and lay_bytes, over the step, would be longer than the two.
pub fn lay_hex(text: &mut [u8], at: usize, bytes: &[u8]) -> usize
    ensures { Laid text.old text.new at result (hex bytes.now) }
{
    let mut to = at;
    for b in bytes {
        to = lay_hex_byte(text, to, *b);
    }
    to
}

// A number, and a byte behind it.
pub fn lay_number(text: &mut [u8], at: usize, n: u64, end: u8) -> usize
    ensures { Laid text.old text.new at result (decimal n ++ (end ∷ [])) }
{
    let to = lay_decimal(text, at, n);
    lay_byte(text, to, end)
}

// A line of a key and a number.
pub fn lay_line(text: &mut [u8], at: usize, key: &[u8], n: u64) -> usize
    ensures { Laid text.old text.new at result (number_line key.now n) }
{
    let to = lay_bytes(text, at, key);
    lay_number(text, to, n, b'\n')
}
