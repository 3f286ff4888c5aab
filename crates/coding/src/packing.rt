// Bits packed into a number, one field behind the other.
ghost use Rattle.std.specs.Prelude.{[], ◌≡◌, ◌≤◌};
ghost use Rattle.bits.specs.Language.{pick};
ghost use Rattle.bits.specs.Writes.{to_bits, only};
ghost use Rattle.coding.specs.Packing.{PacksIn, Room, Whole, Behind, widest_packed};

use crate::Packed;
use bits::pick;
use units::BitCount;

impl Packed {
    // No bits yet.
    pub(crate) fn nothing() -> Packed
        ensures { PacksIn 0 0 result [] }
    {
        Packed {
            width: BitCount::new(0),
            value: 0,
        }
    }

    // w bits that hold all of v, behind these.
    pub(crate) fn pack_whole(self, w: u32, v: u64) -> Packed
        requires { Whole w v self }
        ensures { Behind w w self result (to_bits w v) }
    {
        Packed {
            width: self.width.plus(BitCount::new(w)),
            value: (self.value << w) + v,
        }
    }

    // A field of w bits, the low bits of v, behind these.
    pub(crate) fn pack(self, w: u32, v: u64) -> Packed
        requires { Room w self }
        ensures { Behind w w self result (to_bits w v) }
    {
        self.pack_whole(w, (v << (64 - w)) >> (64 - w))
    }

    // A field where a test holds.
    pub(crate) fn pack_if(self, on: bool, w: u32, v: u64) -> Packed
        requires { Room w self }
        ensures { Behind 0 w self result (only on (to_bits w v)) }
    {
        self.kept_if(on, self.pack(w, v))
    }

    // The bits of more, which begin with these, where a test holds; else these. What is not kept is computed all the same: that costs less than a branch that is
    // guessed wrong. Field by field, so that nothing of it goes through memory.
    pub(crate) fn kept_if(self, on: bool, more: Packed) -> Packed
        ensures { result ≡ pick on more self }
    {
        Packed {
            width: pick(on, more.width, self.width),
            value: pick(on, more.value, self.value),
        }
    }
}

// A field of w bits, the low bits of v.
pub fn field(w: u32, v: u64) -> Packed
    requires { (1 ≤ w) × (w ≤ widest_packed) }
    ensures { PacksIn w w result (to_bits w v) }
{
    Packed::nothing().pack(w, v)
}
