ghost use Rattle.std.specs.Prelude.{◌≡◌};
ghost use Rattle.ps_heard.specs.Roles.{role_of};

use crate::column::Role;
use mus_units::{Alter, Glyph, clef_drawn};

/// Returns what a glyph at a height means to a listener.
pub fn role_of(glyph: Glyph, dy: i32) -> Role
    ensures { result ≡ role_of glyph dy }
{
    match glyph {
        Glyph::Ag => Role::Sign(Alter::Flat2),
        Glyph::Af => Role::Sign(Alter::Flat),
        Glyph::An => Role::Sign(Alter::Natural),
        Glyph::As => Role::Sign(Alter::Sharp),
        Glyph::Ax => Role::Sign(Alter::Sharp2),
        Glyph::Hb | Glyph::Hw | Glyph::Hh | Glyph::Hq => Role::Head,
        Glyph::Gh => Role::Grace,
        Glyph::Bt | Glyph::Bw | Glyph::Bf | Glyph::Bi | Glyph::Bb | Glyph::Bo => Role::Bar,
        _ => clef_drawn(glyph, dy).map_or(Role::Quiet, Role::Clef),
    }
}
