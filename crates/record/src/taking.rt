// One record, out of the bytes that begin at `at`; where there is no whole one, an inactive record of a bed object.
ghost use Rattle.std.specs.Prelude.{◌≡◌, ◌+◌, ◌≤◌, ◌<◌, leb, length};
ghost use Rattle.oamd.specs.Tables.{record_bytes};
ghost use Rattle.oamd.specs.Meaning.{idle};
ghost use Rattle.oamd.specs.Extended.{no_divergence, no_precise};
ghost use Rattle.record.specs.Bytes.{scene_at, divergence_at, precise_at};

use oamd::{Divergence, Location, Precise, RECORD_BYTES, Scene, Screen, Volume, Zone};

// Whether there are n bytes from `at` on.
pub fn has_bytes(bytes: &[u8], at: usize, n: usize) -> bool
    ensures { result ≡ leb (at + n) (length bytes.now) }
{
    at <= bytes.len() && n <= bytes.len() - at
}

// The gain of the record that begins at `at`. There must be a whole record, as in laying.rt.
#[tactic(auto, unfolding(crate::specs::Bytes::scene_at))]
pub fn gain_at(records: &[u8], at: usize) -> u8
    requires { at + record_bytes ≤ length records.now }
    ensures { result ≡ (scene_at records.now at).gain }
{
    records[at + 2]
}

// What stands for a record that is not there: an inactive block of a bed object.
fn no_scene() -> Scene
    ensures { result ≡ idle 0 }
{
    Scene {
        active: 0,
        class: 0,
        gain: 0,
        priority: 0,
        location: Location {
            x: 31,
            y: 31,
            z: 64,
            distance: 0,
        },
        volume: Volume {
            width: 0,
            depth: 0,
            height: 0,
        },
        zone: Zone {
            index: 0,
            elevation: 1,
        },
        screen: Screen {
            used: 0,
            factor: 0,
            depth: 0,
        },
        snap: 0,
    }
}

#[tactic(auto, unfolding(crate::specs::Bytes::scene_at))]
pub fn scene_at(records: &[u8], at: usize) -> Scene
    ensures there { at + record_bytes ≤ length records.now → result ≡ scene_at records.now at }
    ensures absent { length records.now < at + record_bytes → result ≡ idle 0 }
{
    if !has_bytes(records, at, RECORD_BYTES) {
        return no_scene();
    }
    Scene {
        active: records[at],
        class: records[at + 1],
        gain: records[at + 2],
        priority: records[at + 3],
        location: Location {
            x: records[at + 4],
            y: records[at + 5],
            z: records[at + 6],
            distance: records[at + 7],
        },
        volume: Volume {
            width: records[at + 8],
            depth: records[at + 9],
            height: records[at + 10],
        },
        zone: Zone {
            index: records[at + 11],
            elevation: records[at + 12],
        },
        screen: Screen {
            used: records[at + 13],
            factor: records[at + 14],
            depth: records[at + 15],
        },
        snap: records[at + 16],
    }
}

#[tactic(auto, unfolding(crate::specs::Bytes::divergence_at))]
pub fn divergence_at(records: &[u8], at: usize) -> Divergence
    ensures there { at + record_bytes ≤ length records.now → result ≡ divergence_at records.now at }
    ensures absent { length records.now < at + record_bytes → result ≡ no_divergence }
{
    if !has_bytes(records, at, RECORD_BYTES) {
        return Divergence {
            used: 0,
            mode: 0,
            value: 0,
        };
    }
    Divergence {
        used: records[at + 17],
        mode: records[at + 18],
        value: records[at + 19],
    }
}

#[tactic(auto, unfolding(crate::specs::Bytes::precise_at))]
pub fn precise_at(records: &[u8], at: usize) -> Precise
    ensures there { at + record_bytes ≤ length records.now → result ≡ precise_at records.now at }
    ensures absent { length records.now < at + record_bytes → result ≡ no_precise }
{
    if !has_bytes(records, at, RECORD_BYTES) {
        return Precise {
            presence: 0,
            x: 0,
            y: 0,
            z: 0,
        };
    }
    Precise {
        presence: records[at + 20],
        x: records[at + 21],
        y: records[at + 22],
        z: records[at + 23],
    }
}
