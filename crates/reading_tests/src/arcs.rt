ghost use Rattle.mus_score.specs.GoodScore.{IsGoodScore};

use crate::times::measures_named;
use case_texts::{CaseError, Report};
use mus_arcs::{Arc, arcs, pieces};
use mus_score::Score;

/// Adds a line for each slur and tie of each voice.
pub(crate) fn put_arcs(out: &mut Report, score: &Score) -> Result<(), CaseError>
    requires { IsGoodScore score.now }
{
    for voice in score.voices.as_slice() {
        let arcs = arcs(out.alloc, voice)?;
        put_all(out, arcs.as_slice())?;
    }
    Ok(())
}

fn put_all(out: &mut Report, arcs: &[Arc]) -> Result<(), CaseError> {
    for arc in arcs {
        out.line(if arc.tie { b"tie" } else { b"slur" })?;
        out.tell(format_args!("{} to {}", arc.first, arc.last))?;
        out.next_number(b"head ", arc.head)?;
        out.tell(format_args!("measures {} to {}", arc.from, arc.to))?;
    }
    Ok(())
}

/// Adds what a system of the measures a to b - 1, named by the argument, draws of a slur of the measures that the
/// input names.
pub(crate) fn put_piece(out: &mut Report, word: &str, input: &str) -> Result<(), CaseError> {
    let (a, b) = measures_named(word)?;
    let (from, to) = measures_named(input)?;
    let arc = Arc {
        tie: false,
        first: 8,
        last: 17,
        head: 0,
        from,
        to,
    };
    match pieces(&arc, a, b) {
        Some(piece) => {
            out.tell(if piece.cut_left { "cut" } else { "whole" })?;
            out.next(b"left")?;
            out.tell(if piece.cut_right { "cut" } else { "whole" })?;
            out.next(b"right")
        }
        None => out.next(b"none"),
    }
}
