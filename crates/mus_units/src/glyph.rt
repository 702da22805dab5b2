/// The glyphs, in the order in which a page's prolog defines them. Each is named by the two letters of its procedure.
#[derive(Clone, Copy, PartialEq, Eq)]
pub enum Glyph {
    Hb,
    Hw,
    Hh,
    Hq,
    Gh,
    Dt,
    Lg,
    Fu,
    Fd,
    Gf,
    Gs,
    Sr,
    Sl,
    R0,
    R1,
    R2,
    R4,
    R8,
    Ax,
    As,
    An,
    Af,
    Ag,
    Cg,
    Cf,
    Cc,
    Bt,
    Bw,
    Bf,
    Bi,
    Bb,
    Bo,
    Dl,
    Dr,
    Nn,
    Ks,
    Kr,
    Kf,
    Ka,
    Km,
    Kc,
    Kp,
    Kg,
    Kt,
    Ku,
    Kd,
    Kn,
}

/// The size of drawn text: characters 540 u or 960 u wide.
#[derive(Clone, Copy, PartialEq, Eq)]
pub enum Size {
    Small,
    Big,
}

/// What a beam joins: stems that go up, stems that go down, or grace notes.
#[derive(Clone, Copy, PartialEq, Eq)]
pub enum Way {
    Up,
    Down,
    Grace,
}
