// Eight bytes as a number, the least first. Written so that the compiler makes one load of them and one store: a sum in one expression, and eight stores in a row.
ghost use Rattle.std.specs.Prelude.{◌≡◌, ◌+◌, ◌≤◌, ◌<◌, length};
ghost use Rattle.oamd.specs.LeastFirst.{least_first};
ghost use Rattle.record.specs.Bytes.{set_from};
ghost use Rattle.record.specs.Numbers.{Number};

// The number of the eight bytes from `at` on. They must be there, as in laying.rt.
pub fn eight_at(bytes: &[u8], at: usize) -> u64
    requires { at + 8 ≤ length bytes.now }
    ensures { Number 8 bytes.now at result }
{
    u64::from_le_bytes([
        bytes[at],
        bytes[at + 1],
        bytes[at + 2],
        bytes[at + 3],
        bytes[at + 4],
        bytes[at + 5],
        bytes[at + 6],
        bytes[at + 7],
    ])
}

// A number's eight bytes, from `at` on. They must be there, as in laying.rt.
pub fn store_eight(bytes: &mut [u8], at: usize, v: u64)
    requires { at + 8 ≤ length bytes.old }
    ensures { bytes.new ≡ set_from at 0 (least_first 8 v) bytes.old }
{
    bytes[at..at + 8].copy_from_slice(&v.to_le_bytes());
}
