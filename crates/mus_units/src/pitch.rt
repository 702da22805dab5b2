ghost use Rattle.std.specs.Prelude.{◌≡◌};
ghost use Rattle.mus_units.specs.Pitch.{height_of, letter_number, clef_row, clef_named, clef_drawn};

use crate::distances::STEP;
use crate::glyph::Glyph;

/// The letter of a pitch, from C up.
#[derive(Clone, Copy, PartialEq, Eq)]
pub enum Letter {
    C,
    D,
    E,
    F,
    G,
    A,
    B,
}

/// An alteration, from the double flat to the double sharp.
#[derive(Clone, Copy, PartialEq, Eq)]
pub enum Alter {
    Flat2,
    Flat,
    Natural,
    Sharp,
    Sharp2,
}

/// A letter in an octave. Octave 4 begins at middle C.
#[derive(Clone, Copy, PartialEq, Eq)]
pub struct Pitch {
    pub letter: Letter,
    pub octave: i32,
}

/// A clef.
#[derive(Clone, Copy, PartialEq, Eq)]
pub enum Clef {
    Treble,
    Bass,
    Alto,
    Tenor,
}

/// The heights of the entries of a signature by their letters, in steps above the bottom line.
#[derive(Clone, Copy, PartialEq, Eq)]
pub struct Entries {
    pub f: i32,
    pub c: i32,
    pub g: i32,
    pub d: i32,
    pub a: i32,
    pub e: i32,
    pub b: i32,
}

/// A clef: its name in a field; its glyph, and the height of the line that it names, in steps above the bottom line;
/// the steps from C0 to the bottom line; and the heights of the sharps and flats of a signature.
pub struct ClefRow {
    pub name: &'static [u8],
    pub glyph: Glyph,
    pub line: i32,
    pub bottom: u8,
    pub sharps: Entries,
    pub flats: Entries,
}

const TREBLE: ClefRow = ClefRow {
    name: b"treble",
    glyph: Glyph::Cg,
    line: 2,
    bottom: 30,
    sharps: Entries {
        f: 8,
        c: 5,
        g: 9,
        d: 6,
        a: 3,
        e: 7,
        b: 4,
    },
    flats: Entries {
        f: 1,
        c: 5,
        g: 2,
        d: 6,
        a: 3,
        e: 7,
        b: 4,
    },
};

const BASS: ClefRow = ClefRow {
    name: b"bass",
    glyph: Glyph::Cf,
    line: 6,
    bottom: 18,
    sharps: Entries {
        f: 6,
        c: 3,
        g: 7,
        d: 4,
        a: 1,
        e: 5,
        b: 2,
    },
    flats: Entries {
        f: -1,
        c: 3,
        g: 0,
        d: 4,
        a: 1,
        e: 5,
        b: 2,
    },
};

const ALTO: ClefRow = ClefRow {
    name: b"alto",
    glyph: Glyph::Cc,
    line: 4,
    bottom: 24,
    sharps: Entries {
        f: 7,
        c: 4,
        g: 8,
        d: 5,
        a: 2,
        e: 6,
        b: 3,
    },
    flats: Entries {
        f: 0,
        c: 4,
        g: 1,
        d: 5,
        a: 2,
        e: 6,
        b: 3,
    },
};

const TENOR: ClefRow = ClefRow {
    name: b"tenor",
    glyph: Glyph::Cc,
    line: 6,
    bottom: 22,
    sharps: Entries {
        f: 2,
        c: 6,
        g: 3,
        d: 7,
        a: 4,
        e: 8,
        b: 5,
    },
    flats: Entries {
        f: 2,
        c: 6,
        g: 3,
        d: 7,
        a: 4,
        e: 8,
        b: 5,
    },
};

/// Returns the row of a clef.
pub fn clef_row(clef: Clef) -> &'static ClefRow
    ensures name { result.now.name.now ≡ (clef_row clef).name }
    ensures glyph { result.now.glyph ≡ (clef_row clef).glyph }
    ensures line { result.now.line ≡ (clef_row clef).line }
    ensures bottom { result.now.bottom ≡ (clef_row clef).bottom }
    ensures sharps { result.now.sharps ≡ (clef_row clef).sharps }
    ensures flats { result.now.flats ≡ (clef_row clef).flats }
{
    match clef {
        Clef::Treble => &TREBLE,
        Clef::Bass => &BASS,
        Clef::Alto => &ALTO,
        Clef::Tenor => &TENOR,
    }
}

const CLEFS: [Clef; 4] = [Clef::Treble, Clef::Bass, Clef::Alto, Clef::Tenor];

/// Returns the clef of a name. `None` if no clef has it.
pub fn clef_named(name: &[u8]) -> Option<Clef>
    ensures { result ≡ clef_named name.now }
{
    CLEFS
        .iter()
        .copied()
        .find(|clef| clef_row(*clef).name == name)
}

/// Returns the clef that a glyph draws at a height `dy`, in u above the bottom line. `None` if it draws no clef. A C
/// clef that is on no line of its own is alto.
pub fn clef_drawn(glyph: Glyph, dy: i32) -> Option<Clef>
    ensures { result ≡ clef_drawn glyph dy }
{
    match glyph {
        Glyph::Cg => Some(Clef::Treble),
        Glyph::Cf => Some(Clef::Bass),
        Glyph::Cc => Some(if dy == STEP * clef_row(Clef::Tenor).line {
            Clef::Tenor
        } else {
            Clef::Alto
        }),
        _ => None,
    }
}

/// Returns how many steps a letter is above C.
fn number(letter: Letter) -> u8
    ensures { result ≡ letter_number letter }
{
    match letter {
        Letter::C => 0,
        Letter::D => 1,
        Letter::E => 2,
        Letter::F => 3,
        Letter::G => 4,
        Letter::A => 5,
        Letter::B => 6,
    }
}

/// Returns the height of a pitch in a clef: staff steps above the bottom line, negative below it. Takes no memory.
pub fn height(p: Pitch, c: Clef) -> i64
    ensures { result ≡ height_of p c }
{
    7 * i64::from(p.octave) + i64::from(number(p.letter)) - i64::from(clef_row(c).bottom)
}
