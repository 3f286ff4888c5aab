// Which fields are there, by the name of each flag: an array of flags is sent as one number, and these say which of its flags is which.
ghost use Rattle.std.specs.Prelude.{◌≡◌};
ghost use Rattle.oamd.specs.Programme.{has_beds, has_isf, has_dynamic, has_reserved};
ghost use Rattle.oamd.specs.Block.{has_gain, has_priority, has_position, has_zone, has_size, has_screen};
ghost use Rattle.oamd.specs.Extended.{has_x, has_y, has_z};
ghost use Rattle.oamd.specs.Trim.{has_centre, has_surround, has_height, has_tb, has_lis};

use bits::flag;

// ---- content_description[] (5.6.2.4)

pub fn has_beds(content: u32) -> bool
    ensures { result ≡ has_beds content }
{
    flag(4, 3, content)
}

pub fn has_isf(content: u32) -> bool
    ensures { result ≡ has_isf content }
{
    flag(4, 2, content)
}

pub fn has_dynamic(content: u32) -> bool
    ensures { result ≡ has_dynamic content }
{
    flag(4, 1, content)
}

pub fn has_reserved(content: u32) -> bool
    ensures { result ≡ has_reserved content }
{
    flag(4, 0, content)
}

// ---- the parts of object_basic_info() that are sent

pub fn has_gain(parts: u32) -> bool
    ensures { result ≡ has_gain parts }
{
    flag(2, 1, parts)
}

pub fn has_priority(parts: u32) -> bool
    ensures { result ≡ has_priority parts }
{
    flag(2, 0, parts)
}

// ---- the parts of object_render_info() that are sent

pub fn has_position(parts: u32) -> bool
    ensures { result ≡ has_position parts }
{
    flag(4, 3, parts)
}

pub fn has_zone(parts: u32) -> bool
    ensures { result ≡ has_zone parts }
{
    flag(4, 2, parts)
}

pub fn has_size(parts: u32) -> bool
    ensures { result ≡ has_size parts }
{
    flag(4, 1, parts)
}

pub fn has_screen(parts: u32) -> bool
    ensures { result ≡ has_screen parts }
{
    flag(4, 0, parts)
}

// ---- ext_prec_pos_presence[]

pub fn has_x(presence: u32) -> bool
    ensures { result ≡ has_x presence }
{
    flag(3, 2, presence)
}

pub fn has_y(presence: u32) -> bool
    ensures { result ≡ has_y presence }
{
    flag(3, 1, presence)
}

pub fn has_z(presence: u32) -> bool
    ensures { result ≡ has_z presence }
{
    flag(3, 0, presence)
}

// ---- the fields of a trim configuration that are sent

pub fn has_centre(presence: u32) -> bool
    ensures { result ≡ has_centre presence }
{
    flag(5, 4, presence)
}

pub fn has_surround(presence: u32) -> bool
    ensures { result ≡ has_surround presence }
{
    flag(5, 3, presence)
}

pub fn has_height(presence: u32) -> bool
    ensures { result ≡ has_height presence }
{
    flag(5, 2, presence)
}

pub fn has_tb(presence: u32) -> bool
    ensures { result ≡ has_tb presence }
{
    flag(5, 1, presence)
}

pub fn has_lis(presence: u32) -> bool
    ensures { result ≡ has_lis presence }
{
    flag(5, 0, presence)
}
