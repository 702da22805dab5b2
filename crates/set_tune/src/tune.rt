use abc_fields::Header;
use lay_breaks::{Breaking, Span};
use lay_pages::{Heights, TitleBlock};
use lay_springs::Placed;
use mus_laid::SystemMarks;
use mus_score::Score;
use mus_units::Row;

/// A tune that is set: its header and its score; the rows of its title block; the spans of its measures that fit a
/// system, each with its badness, and the breaking chosen among them. For each span of the breaking, in order, it has
/// the marks of the system, the places of its columns, in u from the left, and how its staves are stacked.
#[derive(Drop)]
pub struct SetTune {
    pub header: Header,
    pub score: Score,
    pub title: TitleBlock,
    pub breaking: Breaking,
    pub systems: Row<SystemMarks>,
    pub placed: Row<Placed>,
    pub spans: Row<Span>,
    pub heights: Row<Heights>,
}
