// Whether a record can carry divergence and a precise position: an active block of a dynamic object.
ghost use Rattle.std.specs.Prelude.{◌≡◌, ◌+◌, ◌≤◌, length};
ghost use Rattle.oamd.specs.Tables.{record_bytes};
ghost use Rattle.oamd.specs.Record.{carries};
ghost use Rattle.record.specs.Bytes.{scene_at};

use oamd::Scene;

// The class of a dynamic object, the only one whose render info is sent.
pub const DYNAMIC: u8 = 2;

pub fn carries(s: Scene) -> bool
    ensures { result ≡ carries s }
{
    s.active == 1 && s.class == DYNAMIC
}

// Whether the record that begins at `at` can carry divergence and a precise position, by its first two bytes. There must be a whole record, as in laying.rt.
#[tactic(auto, unfolding(crate::specs::Bytes::scene_at))]
pub fn carries_at(records: &[u8], at: usize) -> bool
    requires { at + record_bytes ≤ length records.now }
    ensures { result ≡ carries (scene_at records.now at) }
{
    (records[at] == 1) & (records[at + 1] == DYNAMIC)
}
