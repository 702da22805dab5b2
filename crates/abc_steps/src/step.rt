use crate::stored::StoredSound;
use abc_field::{KeyText, VoiceDef};
use abc_music::{Boxed, GraceChord};
use mus_units::{Bar, Clef, Deco, Few, Frac, Head, Meter, Row, Text};

/// A note, a chord or a rest as it is written; a rest has no heads. Its length is `num / den` units, not reduced;
/// `decos` are the decorations written inside a chord.
#[derive(Drop)]
pub struct WrittenSound {
    pub heads: Few<Head>,
    pub seen: bool,
    pub decos: Row<Deco>,
    pub num: u64,
    pub den: u64,
}

/// One item of a voice. `Clef` is the clef of a `V:` in the body; `Break` is a line break that is on, `LineEnd` the
/// end of a physical line.
#[derive(Drop)]
pub enum Step {
    Sound(StoredSound),
    Measures { seen: bool, count: u16 },
    Grace { slash: bool, body: Row<GraceChord> },
    Tuplet { p: u8, q: u8, r: u8 },
    SlurOn,
    SlurOff,
    Tie,
    Broken { right: bool, dots: u8 },
    Bar(Bar),
    Ending(Text),
    Deco(Boxed<Deco>),
    Says(Text),
    Key(Boxed<KeyText>),
    Meter(Meter),
    Unit(Frac),
    Clef(Clef),
    Break,
    Space,
    LineEnd,
}

/// A step with the line and the column of its first byte.
#[derive(Drop)]
pub struct PlacedStep {
    pub step: Step,
    pub line: u32,
    pub column: u32,
}

/// One item of a body: a step of the current voice, the end of a music line, a voice that becomes current, or the
/// text of a `w:` line. `joined` is true if the line ends in a backslash, `breaks` if its end is a line break.
#[derive(Drop)]
pub enum BodyItem {
    Step(PlacedStep),
    LineEnd {
        joined: bool,
        breaks: bool,
        line: u32,
        column: u32,
    },
    Voice {
        def: VoiceDef,
        line: u32,
        column: u32,
    },
    Words {
        text: Text,
        line: u32,
    },
}
