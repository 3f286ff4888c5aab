// Small steps that every crate above needs, each equal to its definition: a flag of an array of flags, tests joined, a choice, a difference.
ghost use Rattle.std.specs.Prelude.{◌≡◌, true, ◌-◌, eqb};
ghost use Rattle.bits.specs.Language.{flag, both, pick, as_flag};

// Index k of an array of n flags that was sent as the number v. Index 0 is sent first, so it is the top bit.
pub fn flag(n: u32, k: u32, v: u32) -> bool
    ensures { result ≡ eqb (flag n k v) 1 }
{
    let down = if k < n { n - 1 - k } else { 0 };
    if down < 32 {
        (v >> down) % 2 == 1
    } else {
        false
    }
}

// The first where a test holds, else the second. Neither is branched to: where both are there, that costs less than a branch that is guessed wrong.
pub fn pick<T: Copy>(t: bool, a: T, b: T) -> T
    ensures { result ≡ pick t a b }
{
    if t { a } else { b }
}

// The same of two bytes, and of larger numbers.
pub fn choice(t: bool, a: u8, b: u8) -> u8
    ensures { result ≡ pick t a b }
{
    pick::<u8>(t, a, b)
}

pub fn chosen(t: bool, a: u32, b: u32) -> u32
    ensures { result ≡ pick t a b }
{
    pick::<u32>(t, a, b)
}

pub fn both(a: bool, b: bool) -> bool
    ensures { result ≡ both a b }
{
    a & b
}

pub fn either(a: bool, b: bool) -> bool
    ensures { result ≡ pick a true b }
{
    pick(a, true, b)
}

pub fn as_flag(t: bool) -> u8
    ensures { result ≡ as_flag t }
{
    u8::from(t)
}

// a - b, or 0.
pub fn less(a: u8, b: u8) -> u8
    ensures { result ≡ a - b }
{
    u8::saturating_sub(a, b)
}

// a - b, or 0, of larger numbers.
pub fn minus(a: u32, b: u32) -> u32
    ensures { result ≡ a - b }
{
    u32::saturating_sub(a, b)
}
