ghost use Rattle.std.specs.Prelude.{◌≡◌, ◌++◌, List};
ghost use Rattle.abc_lines.specs.declared.fault.Fault.{Fault};
ghost use Rattle.abc_faults.specs.First.{kind_rank, is_before, earlier, IsFirstInOrder};

use abc_lines::{Fault, FaultKind};

/// Returns the rank of a kind in the order of faults at one place.
fn rank(kind: FaultKind) -> u8
    ensures { result ≡ kind_rank kind }
{
    match kind {
        FaultKind::NoKey => 0,
        FaultKind::BadMeter => 1,
        FaultKind::BadUnit => 2,
        FaultKind::BadKey => 3,
        FaultKind::BadVoice => 4,
        FaultKind::TooManyVoices => 5,
        FaultKind::BadByte => 6,
        FaultKind::Unclosed => 7,
        FaultKind::BadLength => 8,
        FaultKind::BadTuplet => 9,
        FaultKind::TooDeep => 10,
        FaultKind::TupletCrosses => 11,
        FaultKind::TupletShort => 12,
        FaultKind::BrokenAlone => 13,
        FaultKind::Undrawable => 14,
        FaultKind::StepRange => 15,
        FaultKind::RestWithoutMeter => 16,
        FaultKind::TooManyMeasures => 17,
        FaultKind::TooManyEvents => 18,
        FaultKind::TooManyVerses => 19,
        FaultKind::BadScore => 20,
        FaultKind::BadShare => 21,
        FaultKind::BadMove => 22,
        FaultKind::NoWay { reached: _ } => 23,
        FaultKind::TooTall { block: _ } => 24,
    }
}

/// Returns whether a fault comes before another: by line, then column, then kind.
#[tactic(auto, unfolding(crate::specs::First::is_before))]
fn is_before(f: Fault, g: Fault) -> bool
    ensures { result ≡ is_before f g }
{
    f.line < g.line
        || (f.line == g.line
            && (f.column < g.column || (f.column == g.column && rank(f.kind) < rank(g.kind))))
}

/// Returns the earlier of the first faults of two sets, which is the first fault of both together.
pub fn earlier(a: Option<Fault>, b: Option<Fault>) -> Option<Fault>
    ensures value { result ≡ earlier a b }
    ensures joined { (s t : List Fault) → IsFirstInOrder s a → IsFirstInOrder t b → IsFirstInOrder (s ++ t) result }
{
    match (a, b) {
        (None, other) => other,
        (Some(f), None) => Some(f),
        (Some(f), Some(g)) => { if is_before(g, f) { Some(g) } else { Some(f) } }
    }
}
