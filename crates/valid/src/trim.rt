// The trim table, out of its bytes: each field by what announces it (5.5.12, Tables 32 to 37).
ghost use Rattle.std.specs.Prelude.{◌≡◌, ◌+◌, ◌*◌, ◌≤◌, ◌<◌, leb, eqb, length};
ghost use Rattle.bits.specs.Language.{pick};
ghost use Rattle.oamd.specs.Tables.{trim_configs, config_bytes, trim_head, per_object_byte, trim_fixed, most_trim};
ghost use Rattle.oamd.specs.Trim.{no_config, trim_needed};
ghost use Rattle.form.specs.Valid.{◌and◌, between_if, entries_valid, config_valid, trim_valid};
ghost use Rattle.record.specs.Bytes.{bytes_at};
ghost use Rattle.form.specs.Answer.{config_at, configs_at, trim_at};
ghost use Rattle.valid.specs.Parts.{balances_valid, trims_valid, total};

use crate::ranges::{between, between_if};
use crate::table::all_below;
use oamd::{CONFIG_BYTES, PER_OBJECT_BYTE, TRIM_CONFIGS, TRIM_FIXED, TRIM_HEAD, TrimConfig};

// The least code of trim_surround and trim_height that is not reserved, and the greatest of any trim or balance.
const LEAST_TRIM: u8 = 4;

const MOST_TRIM_CODE: u8 = 15;

// A flag for each of the three trims and the two balances.
const ALL_PARTS: u8 = 31;

// The bytes before the configurations.
const PRESENT: usize = 0;

const WARP: usize = 1;

const MODE: usize = 2;

// global_trim_mode 2, the last: the configurations are sent.
const SENT: u8 = 2;

// The configuration that begins at `at`; where there is no whole one, one of zeros.
#[tactic(auto, unfolding(form::specs::Answer::config_at))]
pub fn config_at(trim: &[u8], at: usize) -> TrimConfig
    ensures there { at + config_bytes ≤ length trim.now → result ≡ config_at trim.now at }
    ensures absent { length trim.now < at + config_bytes → result ≡ no_config }
{
    if !record::has_bytes(trim, at, CONFIG_BYTES) {
        return TrimConfig {
            bydefault: 0,
            disabled: 0,
            presence: 0,
            centre: 0,
            surround: 0,
            height: 0,
            tbsign: 0,
            tbamount: 0,
            lissign: 0,
            lisamount: 0,
        };
    }
    TrimConfig {
        bydefault: trim[at],
        disabled: trim[at + 1],
        presence: trim[at + 2],
        centre: trim[at + 3],
        surround: trim[at + 4],
        height: trim[at + 5],
        tbsign: trim[at + 6],
        tbamount: trim[at + 7],
        lissign: trim[at + 8],
        lisamount: trim[at + 9],
    }
}

// The two balances: a sign and an amount each (Table 34).
#[tactic(auto, unfolding(crate::specs::Parts::balances_valid))]
fn balances_valid(c: TrimConfig) -> bool
    ensures { result ≡ balances_valid c }
{
    let has_tb = oamd::has_tb(c.presence as u32);
    let has_lis = oamd::has_lis(c.presence as u32);
    let tbsign = between_if(has_tb, 0, 1, c.tbsign);
    let tbamount = between_if(has_tb, 0, MOST_TRIM_CODE, c.tbamount);
    let lissign = between_if(has_lis, 0, 1, c.lissign);
    let lisamount = between_if(has_lis, 0, MOST_TRIM_CODE, c.lisamount);
    tbsign & tbamount & lissign & lisamount
}

// The three trims, 0 to 3 of the last two reserved (Tables 36 and 37), and the balances.
#[tactic(auto, unfolding(crate::specs::Parts::trims_valid))]
fn trims_valid(c: TrimConfig) -> bool
    ensures { result ≡ trims_valid c }
{
    let has_centre = oamd::has_centre(c.presence as u32);
    let has_surround = oamd::has_surround(c.presence as u32);
    let has_height = oamd::has_height(c.presence as u32);
    let centre = between_if(has_centre, 0, MOST_TRIM_CODE, c.centre);
    let surround = between_if(has_surround, LEAST_TRIM, MOST_TRIM_CODE, c.surround);
    let height = between_if(has_height, LEAST_TRIM, MOST_TRIM_CODE, c.height);
    centre & surround & height & balances_valid(c)
}

// A configuration, by whether it is sent.
#[tactic(auto, unfolding(form::specs::Valid::config_valid, crate::specs::Parts::trims_valid, crate::specs::Parts::balances_valid))]
fn config_valid(sent: bool, c: TrimConfig) -> bool
    ensures { result ≡ config_valid sent c }
{
    let chosen = sent & (c.bydefault == 0);
    let custom = chosen & (c.disabled == 0);
    let bydefault = between_if(sent, 0, 1, c.bydefault);
    let disabled = between_if(chosen, 0, 1, c.disabled);
    let presence = between_if(custom, 0, ALL_PARTS, c.presence);
    bydefault & disabled & presence & trims_valid(c)
}

// Whether n bytes are 0, one by one.
fn zero_bytes(bytes: &[u8], from: usize, n: usize) -> bool
    requires { from + n ≤ length bytes.now }
    ensures { result ≡ eqb (total bytes.now n from) 0 }
{
    all_below(n, |i| bytes[from + i] == 0)
}

// Whether n times eight bytes are 0, eight at once.
fn zero_words(bytes: &[u8], from: usize, n: usize) -> bool
    requires { from + 8 * n ≤ length bytes.now }
    ensures { result ≡ eqb (total bytes.now (8 * n) from) 0 }
{
    let mut seen: u64 = 0;
    for i in 0..n {
        seen |= record::eight_at(bytes, from + 8 * i);
    }
    seen == 0
}

// Whether n bytes are 0: most trim tables are absent, so that this is what is asked of most.
fn zeros(bytes: &[u8], from: usize, n: usize) -> bool
    requires { from + n ≤ length bytes.now }
    ensures { result ≡ eqb (total bytes.now n from) 0 }
{
    let words = n / 8;
    zero_words(bytes, from, words) & zero_bytes(bytes, from + 8 * words, n % 8)
}

// The configurations, all sent or none.
fn configs_valid(sent: bool, trim: &[u8]) -> bool
    requires { per_object_byte ≤ length trim.now }
    ensures { result ≡ entries_valid config_valid (pick sent trim_configs 0) (configs_at trim.now trim_configs trim_head) }
{
    if !sent {
        return zeros(trim, TRIM_HEAD, CONFIG_BYTES * TRIM_CONFIGS);
    }
    all_below(TRIM_CONFIGS, |i| {
        config_valid(sent, config_at(trim, TRIM_HEAD + CONFIG_BYTES * i))
    })
}

// The flags of the objects, all sent or none.
fn flags_valid(sent: bool, trim: &[u8], objects: u8) -> bool
    requires { trim_fixed + objects ≤ length trim.now }
    ensures { result ≡ entries_valid (λ used x. between_if used 0 1 x) (pick sent objects 0) (bytes_at trim.now objects trim_fixed) }
{
    all_below(
        objects as usize,
        |i| between_if(sent, 0, 1, trim[TRIM_FIXED + i]),
    )
}

// A table of which there is all.
fn table_valid(objects: u8, trim: &[u8]) -> bool
    requires { trim_fixed + objects ≤ length trim.now }
    ensures { result ≡ trim_valid objects (trim_at objects trim.now) }
{
    let there = trim[PRESENT] == 1;
    let present = between(0, 1, trim[PRESENT]);
    let warp = between_if(there, 0, 1, trim[WARP]);
    let mode = between_if(there, 0, SENT, trim[MODE]);
    let configs = configs_valid(trim[MODE] == SENT, trim);
    let per_object = between_if(there, 0, 1, trim[PER_OBJECT_BYTE]);
    let flags = flags_valid(trim[PER_OBJECT_BYTE] == 1, trim, objects);
    present & warp & mode & configs & per_object & flags
}

// A trim table such as some accepted payload with so many objects gives, and all of it.
pub fn trim_valid(objects: u8, trim: &[u8]) -> bool
    ensures { result ≡ (leb (trim_needed objects) (length trim.now) and trim_valid objects (trim_at objects trim.now)) }
{
    let needed = TRIM_FIXED + objects as usize;
    if trim.len() < needed {
        return false;
    }
    if trim[PRESENT] == 0 {
        return zeros(trim, PRESENT, needed);
    }
    table_valid(objects, trim)
}
