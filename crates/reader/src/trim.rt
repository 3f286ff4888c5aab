// The trim element (5.5.12), laid out as the trim table while it is read.
ghost use Rattle.std.specs.Prelude.{◌≡◌, true, ◌+◌, ◌≤◌, length};
ghost use Rattle.bits.specs.Language.{bit};
ghost use Rattle.oamd.specs.Tables.{most_objects, config_bytes, most_trim};
ghost use Rattle.oamd.specs.Trim.{config_bytes_of};
ghost use Rattle.reader.specs.Layout.{set_from, no_trim_bytes};
ghost use Rattle.reader.specs.Steps.{ConfigsRead, FlagsRead, TrimRead};

use bits::{Cur, Limit};
use oamd::{
    CONFIG_BYTES, MOST_TRIM, PER_OBJECT_BYTE, TRIM_CONFIGS, TRIM_FIXED, TRIM_HEAD, TrimConfig,
};

pub fn no_trim() -> [u8; MOST_TRIM]
    ensures { (result ≡ no_trim_bytes) × (length result ≡ most_trim) }
{
    [0u8; MOST_TRIM]
}

// A configuration's bytes, from a place on. One by one: a slice of the fields to copy from would take as many lines.
fn store_config(out: &mut [u8; MOST_TRIM], at: usize, config: TrimConfig)
    requires { at + config_bytes ≤ most_trim }
    ensures { out.new ≡ set_from at 0 (config_bytes_of config) out.old }
{
    out[at + 0] = config.bydefault;
    out[at + 1] = config.disabled;
    out[at + 2] = config.presence;
    out[at + 3] = config.centre;
    out[at + 4] = config.surround;
    out[at + 5] = config.height;
    out[at + 6] = config.tbsign;
    out[at + 7] = config.tbamount;
    out[at + 8] = config.lissign;
    out[at + 9] = config.lisamount;
}

// The configurations, behind the head.
fn read_configs(s: &[u8], l: Limit, c: Cur, out: &mut [u8; MOST_TRIM]) -> Cur
    requires { length out.old ≡ most_trim }
    ensures { ConfigsRead true (bit s.now) c l out.old result out.new }
{
    let mut cur = c;
    for i in 0..TRIM_CONFIGS {
        let step = syntax::read_trim_config(s, l, cur);
        store_config(out, TRIM_HEAD + CONFIG_BYTES * i, step.value);
        cur = step.cur;
    }
    cur
}

// The flag of each object.
fn read_flags(s: &[u8], l: Limit, c: Cur, objects: usize, out: &mut [u8; MOST_TRIM]) -> Cur
    requires { (objects ≤ most_objects) × (length out.old ≡ most_trim) }
    ensures { FlagsRead true objects (bit s.now) c l out.old result out.new }
{
    let mut cur = c;
    for i in 0..objects {
        cur = bits::take(s, l, cur, 1);
        out[TRIM_FIXED + i] = cur.v as u8;
    }
    cur
}

// The trim element of a programme of so many objects, laid out from the front of out, which is all 0 before: what is not carried stays 0.
pub fn read_trim(s: &[u8], l: Limit, c: Cur, objects: usize, out: &mut [u8; MOST_TRIM]) -> Cur
    requires { (objects ≤ most_objects) × (length out.old ≡ most_trim) }
    ensures { TrimRead objects (bit s.now) c l out.old result out.new }
{
    let warp = bits::take_unless(true, s, l, c, 2, 2, 3);
    let reserved = bits::take(s, l, warp, 2);
    let mode = bits::take_unless(true, s, l, reserved, 2, 3, 3);
    out[0] = 1;
    out[1] = warp.v as u8;
    out[2] = mode.v as u8;
    let behind = if mode.v == 2 {
        read_configs(s, l, mode, out)
    } else {
        mode
    };
    let flagged = bits::take(s, l, behind, 1);
    out[PER_OBJECT_BYTE] = flagged.v as u8;
    if flagged.v == 1 {
        read_flags(s, l, flagged, objects, out)
    } else {
        flagged
    }
}
