use mus_laid::{Bridge, LaneInk};
use mus_onsets::ColumnKey;
use mus_units::{Row, Text};

/// The words that a voice has in a column, without heights: a syllable for each of its verses from number `first` of
/// its staff on, and the printed texts above and below the staff, each side from the staff outwards.
#[derive(Drop)]
pub struct Written {
    pub first: u8,
    pub syllables: Row<Option<Text>>,
    pub above: Row<Text>,
    pub below: Row<Text>,
}

/// What a voice has in the column of a key: its marks, and its words.
#[derive(Drop)]
pub struct Slot {
    pub key: ColumnKey,
    pub drawn: Row<LaneInk>,
    pub written: Written,
}

/// What a voice has in a system: its slots, in the order of the score, and its beams and arcs.
#[derive(Drop)]
pub struct VoiceSlots {
    pub slots: Row<Slot>,
    pub bridges: Row<Bridge>,
}
