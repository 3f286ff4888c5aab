// What an element is known as: in one place.
ghost use Rattle.std.specs.Prelude.{◌≡◌};
ghost use Rattle.oamd.specs.Element.{kind};

use crate::Kind;

// Known are the object element (id 1) with no alternate id or with alternate id 0, the trim element (id 2) and the extended object element (id 5).
pub fn kind_of(id: u32, alternate: u32) -> Kind
    ensures { result ≡ kind id alternate }
{
    let other_data = (id == 1) & (alternate != 0);
    if other_data {
        return Kind::Unknown;
    }
    match id {
        1 => Kind::Object,
        2 => Kind::Trim,
        5 => Kind::Extended,
        _ => Kind::Unknown,
    }
}
