// The source of each byte of a record, from what was coded, and the numbers of sources and fields.
ghost use Rattle.std.specs.Prelude.{◌≡◌, ◌∷◌, [], eqb, get_or};
ghost use Rattle.bits.specs.Language.{pick, both};
ghost use Rattle.oamd.specs.Programme.{set?};
ghost use Rattle.oamd.specs.Meaning.{value_of};
ghost use Rattle.sources.specs.declared.Field.TheVariants.{DivTable, DivCode};
ghost use Rattle.sources.specs.declared.Source.TheVariants.{ByField, ByBasicDefault, ByRenderDefault, ByNothing, ByBlock};
ghost use Rattle.sources.specs.Sources.{gain_source, priority_source, x_source, y_source, z_source, distance_source, size_source, screen_source, if_sent};
ghost use Rattle.sources.specs.Sources.{scene_sources, divergence_sources, precise_sources, source_number, field_number};

use crate::{Field, Source};
use oamd::{
    Basic, Block, Distance, Divergence, Extent, Gain, Position, Precise, Priority, Render, Screen,
    Status,
};

// ---- the source of a part that is sent

#[tactic(auto, unfolding(crate::specs::Sources::gain_source))]
fn gain_source(firstobject: bool, g: Gain) -> Source
    ensures { result ≡ gain_source firstobject g }
{
    match g.index {
        0 | 1 => Source::ByField(Field::GainIdx),
        2 => Source::ByField(Field::GainBits),
        _ if firstobject => Source::ByField(Field::GainIdx),
        _ => Source::ByObject,
    }
}

#[tactic(auto, unfolding(crate::specs::Sources::priority_source))]
fn priority_source(p: Priority) -> Source
    ensures { result ≡ priority_source p }
{
    if p.bydefault == 1 {
        Source::ByField(Field::DefaultPriority)
    } else {
        Source::ByField(Field::PriorityBits)
    }
}

// Of x, y and z.
#[tactic(auto, unfolding(crate::specs::Sources::x_source, crate::specs::Sources::y_source, crate::specs::Sources::z_source))]
fn position_sources(p: Position) -> (Source, Source, Source)
    ensures { (result.0 ≡ x_source p) × (result.1 ≡ y_source p) × (result.2 ≡ z_source p) }
{
    match p {
        Position::Absolute(..) => (
            Source::ByField(Field::PosX),
            Source::ByField(Field::PosY),
            Source::ByField(Field::PosZ),
        ),
        Position::Moved(x, y, z) => (
            Source::ByMove(Field::DiffX, x),
            Source::ByMove(Field::DiffY, y),
            Source::ByMove(Field::DiffZ, z),
        ),
    }
}

#[tactic(auto, unfolding(crate::specs::Sources::distance_source))]
fn distance_source(d: Distance) -> Source
    ensures { result ≡ distance_source d }
{
    if d.given != 1 {
        Source::ByField(Field::DistanceSpecified)
    } else if d.infinite == 1 {
        Source::ByField(Field::AtInfinity)
    } else {
        Source::ByField(Field::DistanceIdx)
    }
}

#[tactic(auto, unfolding(crate::specs::Sources::size_source))]
fn size_source(own: Field, e: Extent) -> Source
    ensures { result ≡ size_source own e }
{
    match e.index {
        2 => Source::ByField(own),
        1 => Source::ByField(Field::SizeBits),
        _ => Source::ByField(Field::SizeIdx),
    }
}

#[tactic(auto, unfolding(crate::specs::Sources::screen_source))]
fn screen_source(own: Field, s: Screen) -> Source
    ensures { result ≡ screen_source own s }
{
    Source::ByField(if s.used == 1 { own } else { Field::ScreenRef })
}

// ---- by the status: x is the source if the part is sent

fn by_status(status: Status, sent: bool, default: Source, x: Source) -> Source
    ensures { result ≡ value_of status sent default ByBlock x }
{
    match status {
        Status::Default => default,
        Status::Full => x,
        Status::Mixed if sent => x,
        Status::Reuse | Status::Mixed => Source::ByBlock,
    }
}

fn basic_source(b: Basic, sent: bool, x: Source) -> Source
    ensures { result ≡ value_of b.status sent ByBasicDefault ByBlock x }
{
    by_status(b.status, sent, Source::ByBasicDefault, x)
}

fn render_source(n: Render, sent: bool, x: Source) -> Source
    ensures { result ≡ value_of n.status sent ByRenderDefault ByBlock x }
{
    by_status(n.status, sent, Source::ByRenderDefault, x)
}

// ---- the sources of the bytes

// Bytes 0 to 16.
#[tactic(auto, unfolding(crate::specs::Sources::scene_sources))]
pub fn scene_sources(firstobject: bool, b: Block) -> [Source; 17]
    ensures { result ≡ scene_sources firstobject b }
{
    let basic = b.basic;
    let n = b.render;
    let parts = n.parts as u32;
    let placed = oamd::has_position(parts);
    let (x, y, z) = position_sources(n.position);
    let sized = oamd::has_size(parts);
    let zoned = oamd::has_zone(parts);
    let screened = oamd::has_screen(parts);
    [
        Source::ByField(Field::NotActive),
        Source::ByProgramme,
        basic_source(
            basic,
            oamd::has_gain(basic.parts as u32),
            gain_source(firstobject, basic.gain),
        ),
        basic_source(
            basic,
            oamd::has_priority(basic.parts as u32),
            priority_source(basic.priority),
        ),
        render_source(n, placed, x),
        render_source(n, placed, y),
        render_source(n, placed, z),
        render_source(n, placed, distance_source(n.distance)),
        render_source(n, sized, size_source(Field::Width, n.extent)),
        render_source(n, sized, size_source(Field::Depth, n.extent)),
        render_source(n, sized, size_source(Field::Height, n.extent)),
        render_source(n, zoned, Source::ByField(Field::ZoneIdx)),
        render_source(n, zoned, Source::ByField(Field::Elevation)),
        render_source(n, screened, Source::ByField(Field::ScreenRef)),
        render_source(n, screened, screen_source(Field::ScreenFactor, n.screen)),
        render_source(n, screened, screen_source(Field::DepthIdx, n.screen)),
        render_source(n, true, Source::ByField(Field::Snap)),
    ]
}

fn if_sent(sent: bool, f: Field) -> Source
    ensures { result ≡ if_sent sent f }
{
    if sent {
        Source::ByField(f)
    } else {
        Source::ByNothing
    }
}

// Byte 19: by the mode.
fn value_source(d: Divergence) -> Source
    ensures { result ≡ pick (both (set? d.used) (eqb d.mode 0)) (ByField DivTable) (if_sent (eqb d.mode 2) DivCode) }
{
    if d.used == 1 && d.mode == 0 {
        Source::ByField(Field::DivTable)
    } else {
        if_sent(d.mode == 2, Field::DivCode)
    }
}

// Bytes 17 to 19; on says that b_object_divergence was sent.
#[tactic(auto, unfolding(crate::specs::Sources::divergence_sources))]
pub fn divergence_sources(on: bool, d: Divergence) -> [Source; 3]
    ensures { result ≡ divergence_sources on d }
{
    [
        if_sent(on, Field::ObjectDivergence),
        if_sent(d.used == 1, Field::DivMode),
        value_source(d),
    ]
}

// Bytes 20 to 23; on says that ext_prec_pos_presence[] was sent.
#[tactic(auto, unfolding(crate::specs::Sources::precise_sources))]
pub fn precise_sources(on: bool, p: Precise) -> [Source; 4]
    ensures { result ≡ precise_sources on p }
{
    let presence = p.presence as u32;
    [
        if_sent(on, Field::Presence),
        if_sent(oamd::has_x(presence), Field::PreciseX),
        if_sent(oamd::has_y(presence), Field::PreciseY),
        if_sent(oamd::has_z(presence), Field::PreciseZ),
    ]
}

// One of them, counted from 0.
pub fn source_in(sources: &[Source], k: u32) -> Source
    ensures { result ≡ get_or sources.now k ByNothing }
{
    sources
        .get(k as usize)
        .copied()
        .unwrap_or(Source::ByNothing)
}

// ---- numbers

impl Source {
    pub fn number(self) -> u8
        ensures { result ≡ source_number self }
    {
        match self {
            Source::ByField(_) => 1,
            Source::ByProgramme => 2,
            Source::ByBasicDefault => 3,
            Source::ByRenderDefault => 4,
            Source::ByNothing => 5,
            Source::ByBlock | Source::ByMove(..) => 6,
            Source::ByObject => 7,
        }
    }
}

impl Field {
    pub fn number(self) -> u8
        ensures { result ≡ field_number self }
    {
        self as u8
    }
}
