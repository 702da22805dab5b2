ghost use Rattle.std.specs.Prelude.{◌≡◌};
ghost use Rattle.glyph_paths.specs.{Rows.{glyph_name, outline_of, glyphs_in_order}, Bounds.bounds_in};

use crate::bounds::Bounds;
use crate::paths::PathOp;
use crate::paths::PathOp::{Curve, Fill, Line, Move, Stroke};
use mus_units::Glyph;

/// What the drawing rules say of a glyph: the name of the procedure that draws it, two letters; its outline; and the
/// bounds of its outline, so that none has to be walked.
pub(crate) struct GlyphRow {
    pub name: &'static [u8],
    pub outline: &'static [PathOp],
    pub bounds: Bounds,
}

const HB: GlyphRow = GlyphRow {
    name: b"hb",
    outline: &[
        Move(-360, -200),
        Line(360, -200),
        Line(360, 200),
        Line(-360, 200),
        Line(-360, -200),
        Stroke,
        Move(-420, -300),
        Line(-420, 300),
        Stroke,
        Move(420, -300),
        Line(420, 300),
        Stroke,
    ],
    bounds: Bounds {
        left: -420,
        low: -300,
        right: 420,
        high: 300,
    },
};

const HW: GlyphRow = GlyphRow {
    name: b"hw",
    outline: &[
        Move(-360, 0),
        Curve(-360, 240, 360, 240, 360, 0),
        Curve(360, -240, -360, -240, -360, 0),
        Stroke,
    ],
    bounds: Bounds {
        left: -360,
        low: -240,
        right: 360,
        high: 240,
    },
};

const HH: GlyphRow = GlyphRow {
    name: b"hh",
    outline: &[
        Move(-300, 0),
        Curve(-300, 130, -130, 240, 0, 240),
        Curve(130, 240, 300, 130, 300, 0),
        Curve(300, -130, 130, -240, 0, -240),
        Curve(-130, -240, -300, -130, -300, 0),
        Stroke,
    ],
    bounds: Bounds {
        left: -300,
        low: -240,
        right: 300,
        high: 240,
    },
};

const HQ: GlyphRow = GlyphRow {
    name: b"hq",
    outline: &[
        Move(-300, 0),
        Curve(-300, 130, -130, 240, 0, 240),
        Curve(130, 240, 300, 130, 300, 0),
        Curve(300, -130, 130, -240, 0, -240),
        Curve(-130, -240, -300, -130, -300, 0),
        Fill,
    ],
    bounds: Bounds {
        left: -300,
        low: -240,
        right: 300,
        high: 240,
    },
};

const GH: GlyphRow = GlyphRow {
    name: b"gh",
    outline: &[
        Move(-190, 0),
        Curve(-190, 150, 190, 150, 190, 0),
        Curve(190, -150, -190, -150, -190, 0),
        Fill,
    ],
    bounds: Bounds {
        left: -190,
        low: -150,
        right: 190,
        high: 150,
    },
};

const DT: GlyphRow = GlyphRow {
    name: b"dt",
    outline: &[
        Move(-60, -60),
        Line(60, -60),
        Line(60, 60),
        Line(-60, 60),
        Fill,
    ],
    bounds: Bounds {
        left: -60,
        low: -60,
        right: 60,
        high: 60,
    },
};

const LG: GlyphRow = GlyphRow {
    name: b"lg",
    outline: &[Move(-450, 0), Line(450, 0), Stroke],
    bounds: Bounds {
        left: -450,
        low: 0,
        right: 450,
        high: 0,
    },
};

const FU: GlyphRow = GlyphRow {
    name: b"fu",
    outline: &[
        Move(0, 0),
        Curve(0, -400, 450, -600, 350, -1200),
        Curve(400, -800, 150, -500, 0, -350),
        Fill,
    ],
    bounds: Bounds {
        left: 0,
        low: -1200,
        right: 450,
        high: 0,
    },
};

const FD: GlyphRow = GlyphRow {
    name: b"fd",
    outline: &[
        Move(0, 0),
        Curve(0, 400, 450, 600, 350, 1200),
        Curve(400, 800, 150, 500, 0, 350),
        Fill,
    ],
    bounds: Bounds {
        left: 0,
        low: 0,
        right: 450,
        high: 1200,
    },
};

const GF: GlyphRow = GlyphRow {
    name: b"gf",
    outline: &[
        Move(0, 0),
        Curve(0, -250, 300, -400, 250, -750),
        Curve(250, -500, 100, -350, 0, -250),
        Fill,
    ],
    bounds: Bounds {
        left: 0,
        low: -750,
        right: 300,
        high: 0,
    },
};

const GS: GlyphRow = GlyphRow {
    name: b"gs",
    outline: &[Move(-350, -700), Line(300, -150), Stroke],
    bounds: Bounds {
        left: -350,
        low: -700,
        right: 300,
        high: -150,
    },
};

const SR: GlyphRow = GlyphRow {
    name: b"sr",
    outline: &[Move(0, 0), Line(400, 0), Line(400, 250), Line(0, 250), Fill],
    bounds: Bounds {
        left: 0,
        low: 0,
        right: 400,
        high: 250,
    },
};

const SL: GlyphRow = GlyphRow {
    name: b"sl",
    outline: &[
        Move(0, 0),
        Line(-400, 0),
        Line(-400, 250),
        Line(0, 250),
        Fill,
    ],
    bounds: Bounds {
        left: -400,
        low: 0,
        right: 0,
        high: 250,
    },
};

const R0: GlyphRow = GlyphRow {
    name: b"r0",
    outline: &[
        Move(-300, 0),
        Line(300, 0),
        Line(300, 500),
        Line(-300, 500),
        Fill,
    ],
    bounds: Bounds {
        left: -300,
        low: 0,
        right: 300,
        high: 500,
    },
};

const R1: GlyphRow = GlyphRow {
    name: b"r1",
    outline: &[
        Move(-300, -250),
        Line(300, -250),
        Line(300, 0),
        Line(-300, 0),
        Fill,
    ],
    bounds: Bounds {
        left: -300,
        low: -250,
        right: 300,
        high: 0,
    },
};

const R2: GlyphRow = GlyphRow {
    name: b"r2",
    outline: &[
        Move(-300, 0),
        Line(300, 0),
        Line(300, 250),
        Line(-300, 250),
        Fill,
    ],
    bounds: Bounds {
        left: -300,
        low: 0,
        right: 300,
        high: 250,
    },
};

const R4: GlyphRow = GlyphRow {
    name: b"r4",
    outline: &[
        Move(-150, 700),
        Line(200, 300),
        Line(0, 50),
        Line(250, -350),
        Curve(-200, -200, -200, -500, 100, -700),
        Curve(-400, -500, -300, -100, 0, -200),
        Line(-200, 100),
        Line(50, 350),
        Fill,
    ],
    bounds: Bounds {
        left: -400,
        low: -700,
        right: 250,
        high: 700,
    },
};

const R8: GlyphRow = GlyphRow {
    name: b"r8",
    outline: &[
        Move(150, 300),
        Line(-50, -400),
        Stroke,
        Move(-200, 200),
        Curve(-200, 100, 0, 100, 150, 300),
        Stroke,
    ],
    bounds: Bounds {
        left: -200,
        low: -400,
        right: 150,
        high: 300,
    },
};

const AX: GlyphRow = GlyphRow {
    name: b"ax",
    outline: &[
        Move(-180, -180),
        Line(180, 180),
        Stroke,
        Move(-180, 180),
        Line(180, -180),
        Stroke,
    ],
    bounds: Bounds {
        left: -180,
        low: -180,
        right: 180,
        high: 180,
    },
};

const AS: GlyphRow = GlyphRow {
    name: b"as",
    outline: &[
        Move(-80, -500),
        Line(-80, 500),
        Stroke,
        Move(80, -450),
        Line(80, 550),
        Stroke,
        Move(-200, -200),
        Line(200, -100),
        Stroke,
        Move(-200, 100),
        Line(200, 200),
        Stroke,
    ],
    bounds: Bounds {
        left: -200,
        low: -500,
        right: 200,
        high: 550,
    },
};

const AN: GlyphRow = GlyphRow {
    name: b"an",
    outline: &[
        Move(-120, 600),
        Line(-120, -250),
        Line(120, -150),
        Stroke,
        Move(120, -600),
        Line(120, 250),
        Line(-120, 150),
        Stroke,
    ],
    bounds: Bounds {
        left: -120,
        low: -600,
        right: 120,
        high: 600,
    },
};

const AF: GlyphRow = GlyphRow {
    name: b"af",
    outline: &[
        Move(-150, 700),
        Line(-150, -250),
        Curve(250, 0, 200, 350, -150, 100),
        Stroke,
    ],
    bounds: Bounds {
        left: -150,
        low: -250,
        right: 250,
        high: 700,
    },
};

const AG: GlyphRow = GlyphRow {
    name: b"ag",
    outline: &[
        Move(-230, 700),
        Line(-230, -250),
        Curve(50, 0, 50, 350, -230, 100),
        Stroke,
        Move(20, 700),
        Line(20, -250),
        Curve(250, 0, 250, 350, 20, 100),
        Stroke,
    ],
    bounds: Bounds {
        left: -230,
        low: -250,
        right: 250,
        high: 700,
    },
};

const CG: GlyphRow = GlyphRow {
    name: b"cg",
    outline: &[
        Move(600, 0),
        Curve(800, 0, 900, 500, 500, 500),
        Curve(0, 500, 0, -400, 500, -400),
        Curve(1200, -400, 1100, 700, 600, 1000),
        Curve(300, 1300, 500, 2000, 700, 1700),
        Curve(800, 1400, 500, 0, 600, -700),
        Curve(600, -1000, 250, -1000, 300, -700),
        Stroke,
    ],
    bounds: Bounds {
        left: 0,
        low: -1000,
        right: 1200,
        high: 2000,
    },
};

const CF: GlyphRow = GlyphRow {
    name: b"cf",
    outline: &[
        Move(200, 0),
        Curve(200, 500, 900, 500, 900, 0),
        Curve(900, -500, 600, -900, 100, -1100),
        Stroke,
        Move(1100, 200),
        Line(1100, 300),
        Stroke,
        Move(1100, -200),
        Line(1100, -300),
        Stroke,
    ],
    bounds: Bounds {
        left: 100,
        low: -1100,
        right: 1100,
        high: 500,
    },
};

const CC: GlyphRow = GlyphRow {
    name: b"cc",
    outline: &[
        Move(0, -1000),
        Line(200, -1000),
        Line(200, 1000),
        Line(0, 1000),
        Fill,
        Move(350, -1000),
        Line(350, 1000),
        Stroke,
        Move(350, 0),
        Line(600, 300),
        Curve(1200, 500, 1200, 1100, 500, 1000),
        Stroke,
        Move(350, 0),
        Line(600, -300),
        Curve(1200, -500, 1200, -1100, 500, -1000),
        Stroke,
    ],
    bounds: Bounds {
        left: 0,
        low: -1100,
        right: 1200,
        high: 1100,
    },
};

const BT: GlyphRow = GlyphRow {
    name: b"bt",
    outline: &[Move(0, 0), Line(0, 2000), Stroke],
    bounds: Bounds {
        left: 0,
        low: 0,
        right: 0,
        high: 2000,
    },
};

const BW: GlyphRow = GlyphRow {
    name: b"bw",
    outline: &[
        Move(-150, 0),
        Line(-150, 2000),
        Stroke,
        Move(0, 0),
        Line(0, 2000),
        Stroke,
    ],
    bounds: Bounds {
        left: -150,
        low: 0,
        right: 0,
        high: 2000,
    },
};

const BF: GlyphRow = GlyphRow {
    name: b"bf",
    outline: &[
        Move(-300, 0),
        Line(-300, 2000),
        Stroke,
        Move(-150, 0),
        Line(0, 0),
        Line(0, 2000),
        Line(-150, 2000),
        Fill,
    ],
    bounds: Bounds {
        left: -300,
        low: 0,
        right: 0,
        high: 2000,
    },
};

const BI: GlyphRow = GlyphRow {
    name: b"bi",
    outline: &[
        Move(0, 0),
        Line(150, 0),
        Line(150, 2000),
        Line(0, 2000),
        Fill,
        Move(300, 0),
        Line(300, 2000),
        Stroke,
    ],
    bounds: Bounds {
        left: 0,
        low: 0,
        right: 300,
        high: 2000,
    },
};

const BB: GlyphRow = GlyphRow {
    name: b"bb",
    outline: &[
        Move(-225, 0),
        Line(-225, 2000),
        Stroke,
        Move(-75, 0),
        Line(75, 0),
        Line(75, 2000),
        Line(-75, 2000),
        Fill,
        Move(225, 0),
        Line(225, 2000),
        Stroke,
    ],
    bounds: Bounds {
        left: -225,
        low: 0,
        right: 225,
        high: 2000,
    },
};

const BO: GlyphRow = GlyphRow {
    name: b"bo",
    outline: &[
        Move(0, 0),
        Line(0, 400),
        Stroke,
        Move(0, 800),
        Line(0, 1200),
        Stroke,
        Move(0, 1600),
        Line(0, 2000),
        Stroke,
    ],
    bounds: Bounds {
        left: 0,
        low: 0,
        right: 0,
        high: 2000,
    },
};

const DL: GlyphRow = GlyphRow {
    name: b"dl",
    outline: &[
        Move(-560, 690),
        Line(-440, 690),
        Line(-440, 810),
        Line(-560, 810),
        Fill,
        Move(-560, 1190),
        Line(-440, 1190),
        Line(-440, 1310),
        Line(-560, 1310),
        Fill,
    ],
    bounds: Bounds {
        left: -560,
        low: 690,
        right: -440,
        high: 1310,
    },
};

const DR: GlyphRow = GlyphRow {
    name: b"dr",
    outline: &[
        Move(440, 690),
        Line(560, 690),
        Line(560, 810),
        Line(440, 810),
        Fill,
        Move(440, 1190),
        Line(560, 1190),
        Line(560, 1310),
        Line(440, 1310),
        Fill,
    ],
    bounds: Bounds {
        left: 440,
        low: 690,
        right: 560,
        high: 1310,
    },
};

const NN: GlyphRow = GlyphRow {
    name: b"nn",
    outline: &[],
    bounds: Bounds {
        left: 0,
        low: 0,
        right: 0,
        high: 0,
    },
};

const KS: GlyphRow = GlyphRow {
    name: b"ks",
    outline: &[
        Move(-70, 0),
        Line(70, 0),
        Line(70, 140),
        Line(-70, 140),
        Fill,
    ],
    bounds: Bounds {
        left: -70,
        low: 0,
        right: 70,
        high: 140,
    },
};

const KR: GlyphRow = GlyphRow {
    name: b"kr",
    outline: &[Move(-300, 0), Curve(-300, 300, 300, 300, 300, 0), Stroke],
    bounds: Bounds {
        left: -300,
        low: 0,
        right: 300,
        high: 300,
    },
};

const KF: GlyphRow = GlyphRow {
    name: b"kf",
    outline: &[
        Move(-400, 0),
        Curve(-400, 600, 400, 600, 400, 0),
        Stroke,
        Move(-60, 60),
        Line(60, 60),
        Line(60, 180),
        Line(-60, 180),
        Fill,
    ],
    bounds: Bounds {
        left: -400,
        low: 0,
        right: 400,
        high: 600,
    },
};

const KA: GlyphRow = GlyphRow {
    name: b"ka",
    outline: &[Move(-300, 300), Line(300, 150), Line(-300, 0), Stroke],
    bounds: Bounds {
        left: -300,
        low: 0,
        right: 300,
        high: 300,
    },
};

const KM: GlyphRow = GlyphRow {
    name: b"km",
    outline: &[
        Move(-400, 150),
        Line(-200, 300),
        Line(0, 100),
        Line(200, 300),
        Line(400, 150),
        Stroke,
        Move(0, -50),
        Line(0, 450),
        Stroke,
    ],
    bounds: Bounds {
        left: -400,
        low: -50,
        right: 400,
        high: 450,
    },
};

const KC: GlyphRow = GlyphRow {
    name: b"kc",
    outline: &[
        Move(-250, 300),
        Curve(-250, 600, 250, 600, 250, 300),
        Curve(250, 0, -250, 0, -250, 300),
        Stroke,
        Move(0, 0),
        Line(0, 600),
        Stroke,
        Move(-350, 300),
        Line(350, 300),
        Stroke,
    ],
    bounds: Bounds {
        left: -350,
        low: 0,
        right: 350,
        high: 600,
    },
};

const KP: GlyphRow = GlyphRow {
    name: b"kp",
    outline: &[
        Move(-400, 150),
        Line(-200, 300),
        Line(0, 100),
        Line(200, 300),
        Line(400, 150),
        Stroke,
    ],
    bounds: Bounds {
        left: -400,
        low: 100,
        right: 400,
        high: 300,
    },
};

const KG: GlyphRow = GlyphRow {
    name: b"kg",
    outline: &[
        Move(250, 500),
        Curve(-400, 700, -300, 300, 0, 300),
        Curve(300, 300, 400, -100, -250, 100),
        Stroke,
        Move(-300, 0),
        Line(300, 600),
        Stroke,
    ],
    bounds: Bounds {
        left: -400,
        low: -100,
        right: 400,
        high: 700,
    },
};

const KT: GlyphRow = GlyphRow {
    name: b"kt",
    outline: &[
        Move(-200, 600),
        Line(-200, 100),
        Line(-50, 0),
        Stroke,
        Move(-300, 400),
        Line(0, 400),
        Stroke,
        Move(100, 400),
        Line(100, 0),
        Stroke,
        Move(100, 250),
        Line(150, 400),
        Line(300, 400),
        Stroke,
    ],
    bounds: Bounds {
        left: -300,
        low: 0,
        right: 300,
        high: 600,
    },
};

const KU: GlyphRow = GlyphRow {
    name: b"ku",
    outline: &[Move(-200, 600), Line(0, 0), Line(200, 600), Stroke],
    bounds: Bounds {
        left: -200,
        low: 0,
        right: 200,
        high: 600,
    },
};

const KD: GlyphRow = GlyphRow {
    name: b"kd",
    outline: &[
        Move(-250, 0),
        Line(-250, 500),
        Line(250, 500),
        Line(250, 0),
        Stroke,
    ],
    bounds: Bounds {
        left: -250,
        low: 0,
        right: 250,
        high: 500,
    },
};

const KN: GlyphRow = GlyphRow {
    name: b"kn",
    outline: &[Move(-300, 100), Line(300, 100), Stroke],
    bounds: Bounds {
        left: -300,
        low: 100,
        right: 300,
        high: 100,
    },
};

/// Returns the row of a glyph.
#[tactic(auto, unfolding(crate::specs::Bounds::bounds_in, crate::specs::Bounds::extent, //
crate::specs::Bounds::coordinates, crate::specs::Bounds::coordinate, crate::specs::Bounds::further))]
pub(crate) fn row_of(g: Glyph) -> &'static GlyphRow
    ensures name { result.now.name.now ≡ glyph_name g }
    ensures outline { result.now.outline.now ≡ outline_of g }
    ensures bounds { result.now.bounds ≡ bounds_in g }
{
    match g {
        Glyph::Hb => &HB,
        Glyph::Hw => &HW,
        Glyph::Hh => &HH,
        Glyph::Hq => &HQ,
        Glyph::Gh => &GH,
        Glyph::Dt => &DT,
        Glyph::Lg => &LG,
        Glyph::Fu => &FU,
        Glyph::Fd => &FD,
        Glyph::Gf => &GF,
        Glyph::Gs => &GS,
        Glyph::Sr => &SR,
        Glyph::Sl => &SL,
        Glyph::R0 => &R0,
        Glyph::R1 => &R1,
        Glyph::R2 => &R2,
        Glyph::R4 => &R4,
        Glyph::R8 => &R8,
        Glyph::Ax => &AX,
        Glyph::As => &AS,
        Glyph::An => &AN,
        Glyph::Af => &AF,
        Glyph::Ag => &AG,
        Glyph::Cg => &CG,
        Glyph::Cf => &CF,
        Glyph::Cc => &CC,
        Glyph::Bt => &BT,
        Glyph::Bw => &BW,
        Glyph::Bf => &BF,
        Glyph::Bi => &BI,
        Glyph::Bb => &BB,
        Glyph::Bo => &BO,
        Glyph::Dl => &DL,
        Glyph::Dr => &DR,
        Glyph::Nn => &NN,
        Glyph::Ks => &KS,
        Glyph::Kr => &KR,
        Glyph::Kf => &KF,
        Glyph::Ka => &KA,
        Glyph::Km => &KM,
        Glyph::Kc => &KC,
        Glyph::Kp => &KP,
        Glyph::Kg => &KG,
        Glyph::Kt => &KT,
        Glyph::Ku => &KU,
        Glyph::Kd => &KD,
        Glyph::Kn => &KN,
    }
}

const ALL: [Glyph; 47] = [
    Glyph::Hb,
    Glyph::Hw,
    Glyph::Hh,
    Glyph::Hq,
    Glyph::Gh,
    Glyph::Dt,
    Glyph::Lg,
    Glyph::Fu,
    Glyph::Fd,
    Glyph::Gf,
    Glyph::Gs,
    Glyph::Sr,
    Glyph::Sl,
    Glyph::R0,
    Glyph::R1,
    Glyph::R2,
    Glyph::R4,
    Glyph::R8,
    Glyph::Ax,
    Glyph::As,
    Glyph::An,
    Glyph::Af,
    Glyph::Ag,
    Glyph::Cg,
    Glyph::Cf,
    Glyph::Cc,
    Glyph::Bt,
    Glyph::Bw,
    Glyph::Bf,
    Glyph::Bi,
    Glyph::Bb,
    Glyph::Bo,
    Glyph::Dl,
    Glyph::Dr,
    Glyph::Nn,
    Glyph::Ks,
    Glyph::Kr,
    Glyph::Kf,
    Glyph::Ka,
    Glyph::Km,
    Glyph::Kc,
    Glyph::Kp,
    Glyph::Kg,
    Glyph::Kt,
    Glyph::Ku,
    Glyph::Kd,
    Glyph::Kn,
];

/// Returns the name of the procedure that draws a glyph: two letters.
pub fn name_of(g: Glyph) -> &'static [u8]
    ensures { result.now ≡ glyph_name g }
{
    row_of(g).name
}

/// Returns the path of a glyph, in u from the point at which it is drawn. Takes no memory.
pub fn outline(g: Glyph) -> &'static [PathOp]
    ensures { result.now ≡ outline_of g }
{
    row_of(g).outline
}

/// Returns all glyphs, in the order in which a prolog defines them.
#[tactic(auto, unfolding(crate::specs::Rows::glyphs_in_order))]
pub fn all_glyphs() -> &'static [Glyph]
    ensures { result.now ≡ glyphs_in_order }
{
    &ALL
}
