// One record: each of its values by what the record itself carries (Tables 28 and 29, 5.5.14, 5.5.15).
ghost use Rattle.std.specs.Prelude.{true, false, ◌≡◌, ◌+◌, ◌≤◌, eqb, length};
ghost use Rattle.oamd.specs.Tables.{record_bytes};
ghost use Rattle.oamd.specs.Record.{record_of, carries};
ghost use Rattle.record.specs.Bytes.{scene_at, record_at};
ghost use Rattle.form.specs.Valid.{scene_valid, least_divergence, most_divergence, divergence_valid, precise_valid, record_valid};
ghost use Rattle.valid.specs.Parts.{within4, within_limits, rendered_valid};

use crate::ranges::{between, between_if};
use bits::less;
use oamd::{Divergence, Precise, Scene};
use record::DYNAMIC;

// x and y in 62nds: at the most, and the default.
const MOST_XY: u8 = 62;

const MIDDLE: u8 = 31;

// z in 15ths: the byte of 0, which is the default, and those of -15 and 15.
const LEVEL: u8 = 64;

const LEAST_Z: u8 = 49;

const MOST_Z: u8 = 79;

// The codes of Table 15, and 0 and 1 before them.
const MOST_DISTANCE: u8 = 17;

// Widths, depths and heights in 31sts.
const MOST_SIZE: u8 = 31;

// Five zones beside none.
const LAST_ZONE: u8 = 5;

// screen_factor of 3 bits, depth_factor of 2.
const MOST_FACTOR: u8 = 7;

const MOST_DEPTH: u8 = 3;

// +15 dB.
const MOST_GAIN: u8 = 65;

// The whole, in 32nds.
const MOST_PRIORITY: u8 = 32;

// object_div_mode 2 is the last.
const MOST_MODE: u8 = 2;

// A flag for each axis, and a code of 2 bits.
const ALL_AXES: u8 = 7;

const MOST_PRECISE: u8 = 3;

// What four bytes have too much, joined: 0 where each is at most its limit.
fn over(records: &[u8], at: usize, a: u8, b: u8, c: u8, d: u8) -> u8
    requires { at + 4 ≤ length records.now }
    ensures { eqb result 0 ≡ within4 records.now at a b c d }
{
    less(records[at], a)
        | less(records[at + 1], b)
        | less(records[at + 2], c)
        | less(records[at + 3], d)
}

// Whether bytes 2 to 17 are at most what they may be where render info is sent. They are 16, one behind the other, joined with no test between: so the machine
// looks at all of them at once. Those before are known by then, and those behind are 0 in most records.
fn within_limits(records: &[u8], at: usize) -> bool
    requires { at + record_bytes ≤ length records.now }
    ensures { result ≡ within_limits (record_at records.now at) }
{
    let all = over(records, at + 2, MOST_GAIN, MOST_PRIORITY, MOST_XY, MOST_XY)
        | over(records, at + 6, MOST_Z, MOST_DISTANCE, MOST_SIZE, MOST_SIZE)
        | over(records, at + 10, MOST_SIZE, LAST_ZONE, 1, 1)
        | over(records, at + 14, MOST_FACTOR, MOST_DEPTH, 1, 1);
    all == 0
}

// Bytes 4 to 16 where render info is not sent: the defaults.
fn default_valid(s: Scene) -> bool
    ensures { result ≡ rendered_valid false s }
{
    let l = s.location;
    let v = s.volume;
    let z = s.zone;
    let n = s.screen;
    let located = (l.x == MIDDLE) & (l.y == MIDDLE) & (l.z == LEVEL) & (l.distance == 0);
    let sized = v.width | v.depth | v.height == 0;
    let zoned = (z.index == 0) & (z.elevation == 1);
    let screened = n.used | n.factor | n.depth == 0;
    located & sized & zoned & screened & (s.snap == 0)
}

// Bytes 0 to 16, of an object of a class, where render info is not sent.
#[tactic(auto, unfolding(form::specs::Valid::scene_valid, crate::specs::Parts::rendered_valid))]
fn scene_valid(class: u8, s: Scene) -> bool
    requires { carries s ≡ false }
    ensures { result ≡ scene_valid class s }
{
    let active = between(0, 1, s.active);
    let gain = between_if(s.active == 1, 0, MOST_GAIN, s.gain);
    let priority = between_if(s.active == 1, 0, MOST_PRIORITY, s.priority);
    active & (s.class == class) & gain & priority & default_valid(s)
}

// The least value by object_div_mode: code 0 of mode 2 is reserved (5.5.14).
fn least_divergence(mode: u8) -> u8
    ensures { result ≡ least_divergence mode }
{
    if mode == 2 { 1 } else { 0 }
}

// The greatest: an index of 2 bits in mode 0, a code of 6 bits in mode 2 (5.5.14).
fn most_divergence(mode: u8) -> u8
    ensures { result ≡ most_divergence mode }
{
    match mode {
        0 => 3,
        2 => 63,
        _ => 0,
    }
}

// Bytes 17 to 19.
#[tactic(auto, unfolding(form::specs::Valid::divergence_valid))]
fn divergence_valid(sent: bool, d: Divergence) -> bool
    ensures { result ≡ divergence_valid sent d }
{
    let least = least_divergence(d.mode);
    let most = most_divergence(d.mode);
    let used = between_if(sent, 0, 1, d.used);
    let mode = between_if(d.used == 1, 0, MOST_MODE, d.mode);
    let value = between_if(d.used == 1, least, most, d.value);
    used & mode & value
}

// Bytes 20 to 23: a code for each axis that the presence names (Table 43).
#[tactic(auto, unfolding(form::specs::Valid::precise_valid))]
fn precise_valid(sent: bool, p: Precise) -> bool
    ensures { result ≡ precise_valid sent p }
{
    let has_x = oamd::has_x(p.presence as u32);
    let has_y = oamd::has_y(p.presence as u32);
    let has_z = oamd::has_z(p.presence as u32);
    let presence = between_if(sent, 0, ALL_AXES, p.presence);
    let x = between_if(has_x, 0, MOST_PRECISE, p.x);
    let y = between_if(has_y, 0, MOST_PRECISE, p.y);
    let z = between_if(has_z, 0, MOST_PRECISE, p.z);
    presence & x & y & z
}

// The same where it is sent; most are not used, and their zeros are looked at together.
fn diverging_valid(d: Divergence) -> bool
    ensures { result ≡ divergence_valid true d }
{
    if d.used == 0 {
        return d.mode | d.value == 0;
    }
    divergence_valid(true, d)
}

// And so those of a precise position without axes.
fn refining_valid(p: Precise) -> bool
    ensures { result ≡ precise_valid true p }
{
    if p.presence == 0 {
        return p.x | p.y | p.z == 0;
    }
    precise_valid(true, p)
}

// A record whose render info is sent: its limits, and what they do not tell, which is the class, the least z, and what stands only by a value before it. Its bytes
// are read where they stand: taken out of a scene, they would not be looked at all at once.
pub fn sent_valid(class: u8, records: &[u8], at: usize) -> bool
    requires { (at + record_bytes ≤ length records.now) × (carries (scene_at records.now at) ≡ true) }
    ensures { result ≡ record_valid class (record_at records.now at) }
{
    let limits = within_limits(records, at);
    let high = LEAST_Z <= records[at + 6];
    let screen = (records[at + 13] == 1) | (records[at + 14] | records[at + 15] == 0);
    let hanging = (DYNAMIC == class) & high & screen;
    let divergence = diverging_valid(record::divergence_at(records, at));
    let precise = refining_valid(record::precise_at(records, at));
    limits & hanging & divergence & precise
}

// A record whose render info is not sent.
#[tactic(auto, unfolding(form::specs::Valid::record_valid))]
pub fn unsent_valid(class: u8, s: Scene, d: Divergence, p: Precise) -> bool
    requires { carries s ≡ false }
    ensures { result ≡ record_valid class (record_of s d p) }
{
    scene_valid(class, s) & divergence_valid(false, d) & precise_valid(false, p)
}
