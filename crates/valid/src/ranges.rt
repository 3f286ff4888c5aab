// One value: within its range; or, where it may not be carried, within its range where it is, and elsewhere 0.
ghost use Rattle.std.specs.Prelude.{◌≡◌};
ghost use Rattle.bits.specs.Language.{between};
ghost use Rattle.form.specs.Valid.{between_if};

use bits::both;

pub fn between(low: u8, high: u8, v: u8) -> bool
    ensures { result ≡ between low high v }
{
    both(low <= v, v <= high)
}

#[tactic(auto, unfolding(form::specs::Valid::between_if))]
pub fn wide_between_if(carried: bool, low: u32, high: u32, v: u32) -> bool
    ensures { result ≡ between_if carried low high v }
{
    if carried {
        both(low <= v, v <= high)
    } else {
        v == 0
    }
}

pub fn between_if(carried: bool, low: u8, high: u8, v: u8) -> bool
    ensures { result ≡ between_if carried low high v }
{
    wide_between_if(carried, low as u32, high as u32, v as u32)
}
