ghost use Rattle.std.specs.Prelude.{◌≡◌};
ghost use Rattle.mus_ink.specs.Kinds.{deco_glyph, head_glyph, rest_row, sign_glyph};

use mus_units::{Alter, Base, Deco, Glyph};

/// How a rest is drawn: its glyph, and its height in steps above the bottom line.
#[derive(Clone, Copy, PartialEq, Eq)]
pub struct RestRow {
    pub glyph: Glyph,
    pub line: i32,
}

/// Returns the glyph of an accidental.
pub(crate) fn sign_glyph(alter: Alter) -> Glyph
    ensures { result ≡ sign_glyph alter }
{
    match alter {
        Alter::Flat2 => Glyph::Ag,
        Alter::Flat => Glyph::Af,
        Alter::Natural => Glyph::An,
        Alter::Sharp => Glyph::As,
        Alter::Sharp2 => Glyph::Ax,
    }
}

/// Returns the glyph of the heads of a base.
pub(crate) fn head_glyph(base: Base) -> Glyph
    ensures { result ≡ head_glyph base }
{
    match base {
        Base::Breve => Glyph::Hb,
        Base::Whole => Glyph::Hw,
        Base::Half => Glyph::Hh,
        _ => Glyph::Hq,
    }
}

/// Returns how a rest of a base is drawn. Rests shorter than a quarter have the glyph once for each flag.
pub(crate) fn rest_row(base: Base) -> RestRow
    ensures { result ≡ rest_row base }
{
    let (glyph, line) = match base {
        Base::Breve => (Glyph::R0, 4),
        Base::Whole => (Glyph::R1, 6),
        Base::Half => (Glyph::R2, 4),
        Base::Quarter => (Glyph::R4, 4),
        _ => (Glyph::R8, 4),
    };
    RestRow { glyph, line }
}

/// Returns the glyph of a decoration. `None` for dynamics, fingerings and decorations that draw nothing.
pub(crate) fn deco_glyph(deco: &Deco) -> Option<Glyph>
    ensures { result ≡ deco_glyph deco.now }
{
    match deco {
        Deco::Ks => Some(Glyph::Ks),
        Deco::Kr => Some(Glyph::Kr),
        Deco::Kf => Some(Glyph::Kf),
        Deco::Ka => Some(Glyph::Ka),
        Deco::Km => Some(Glyph::Km),
        Deco::Kc => Some(Glyph::Kc),
        Deco::Kp => Some(Glyph::Kp),
        Deco::Kg => Some(Glyph::Kg),
        Deco::Kt => Some(Glyph::Kt),
        Deco::Ku => Some(Glyph::Ku),
        Deco::Kd => Some(Glyph::Kd),
        Deco::Kn => Some(Glyph::Kn),
        Deco::Below(_) | Deco::Above(_) | Deco::Quiet(_) => None,
    }
}
