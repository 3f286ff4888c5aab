// Five units that are never added to one another: a position in bits, a time in samples, and counts of bits, of bytes and of samples. Their numbers are private, so a
// sum across them does not compile; what leads from one unit to another has a name here. Every step is total: a sum that its unit does not hold wraps.
#![tactic(auto)]

ghost use Rattle.std.specs.Prelude.{◌≡◌, ◌+◌, ◌-◌, ◌*◌, ◌/◌, ◌%◌};

// A position in bits, counted from the top bit of a payload's first byte.
#[repr(C)]
#[derive(Clone, Copy, PartialEq, Eq)]
pub struct BitPos(u32);

// A number of bits.
#[derive(Clone, Copy, PartialEq, Eq)]
pub struct BitCount(u32);

// A number of whole bytes; in a payload they may begin at any bit.
#[repr(C)]
#[derive(Clone, Copy, PartialEq, Eq)]
pub struct ByteCount(u32);

// A number of audio samples.
#[repr(C)]
#[derive(Clone, Copy, PartialEq, Eq)]
pub struct SampleCount(u16);

// A time, in audio samples from the first sample of frame 0.
#[derive(Clone, Copy, PartialEq, Eq)]
pub struct SampleTime(u64);

impl BitPos {
    pub fn new(at: u32) -> BitPos
        ensures { result.0 ≡ at }
    {
        BitPos(at)
    }

    pub fn raw(self) -> u32
        ensures { result ≡ self.0 }
    {
        self.0
    }

    // The position n bits behind this one.
    pub fn after(self, n: BitCount) -> BitPos
        ensures { result.0 ≡ (self.0 + n.0) % 4294967296 }
    {
        BitPos(self.0.wrapping_add(n.0))
    }

    // The bits from an earlier position up to this one.
    pub fn since(self, from: BitPos) -> BitCount
        ensures { result.0 ≡ self.0 - from.0 }
    {
        BitCount(self.0.saturating_sub(from.0))
    }
}

impl BitCount {
    pub fn new(n: u32) -> BitCount
        ensures { result.0 ≡ n }
    {
        BitCount(n)
    }

    pub fn raw(self) -> u32
        ensures { result ≡ self.0 }
    {
        self.0
    }

    pub fn plus(self, n: BitCount) -> BitCount
        ensures { result.0 ≡ (self.0 + n.0) % 4294967296 }
    {
        BitCount(self.0.wrapping_add(n.0))
    }

    // What these bits have more than n; 0 where they are fewer.
    pub fn minus(self, n: BitCount) -> BitCount
        ensures { result.0 ≡ self.0 - n.0 }
    {
        BitCount(self.0.saturating_sub(n.0))
    }

    // The fewest bytes that hold these bits.
    pub fn bytes(self) -> ByteCount
        ensures { result.0 ≡ (self.0 + 7) / 8 }
    {
        ByteCount(((self.0 as u64 + 7) / 8) as u32)
    }
}

impl ByteCount {
    pub fn new(n: u32) -> ByteCount
        ensures { result.0 ≡ n }
    {
        ByteCount(n)
    }

    pub fn raw(self) -> u32
        ensures { result ≡ self.0 }
    {
        self.0
    }

    // How many bits these bytes take, as a number wide enough for all of them.
    pub fn bits(self) -> u64
        ensures { result ≡ 8 * self.0 }
    {
        8 * self.0 as u64
    }

    // The bits that so many bytes have, as a count.
    pub fn bit_count(self) -> BitCount
        ensures { result.0 ≡ (8 * self.0) % 4294967296 }
    {
        BitCount(self.0.wrapping_mul(8))
    }
}

impl SampleCount {
    pub fn new(n: u16) -> SampleCount
        ensures { result.0 ≡ n }
    {
        SampleCount(n)
    }

    pub fn raw(self) -> u16
        ensures { result ≡ self.0 }
    {
        self.0
    }

    pub fn plus(self, n: SampleCount) -> SampleCount
        ensures { result.0 ≡ (self.0 + n.0) % 65536 }
    {
        SampleCount(self.0.wrapping_add(n.0))
    }
}

impl SampleTime {
    // The sample that lies so far behind the first of a frame, where each frame has so many.
    pub fn in_frame(frame: u32, samples: SampleCount, behind: SampleCount) -> SampleTime
        ensures { result.0 ≡ frame * samples.0 + behind.0 }
    {
        SampleTime(frame as u64 * samples.0 as u64 + behind.0 as u64)
    }

    pub fn raw(self) -> u64
        ensures { result ≡ self.0 }
    {
        self.0
    }
}
