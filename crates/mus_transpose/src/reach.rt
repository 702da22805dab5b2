ghost use Rattle.std.specs.{Prelude.◌≡◌, List.list_all};
ghost use Rattle.{mus_score.specs.GoodScore.{clef_at}, mus_transpose.specs.Moved.{are_in_reach, in_reach}};

use mus_score::{Event, Flat, HIGHEST_HEAD, Head, LOWEST_HEAD};
use mus_units::{Clef, height};

fn is_in_reach(clef: Clef, head: Head) -> bool
    ensures { result ≡ in_reach clef head }
{
    let height = height(head.pitch, clef);
    i64::from(LOWEST_HEAD) <= height && height <= i64::from(HIGHEST_HEAD)
}

fn heads_in_reach(clef: Clef, heads: &[Head]) -> bool
    ensures { result ≡ list_all (in_reach clef) heads.now }
{
    heads.iter().all(|head| is_in_reach(clef, *head))
}

fn graces_in_reach(clef: Clef, graces: &[Event]) -> bool
    ensures { result ≡ list_all (λ g. list_all (in_reach clef) g.heads) graces.now }
{
    graces
        .iter()
        .all(|grace| heads_in_reach(clef, grace.heads.as_slice()))
}

/// Returns whether each head of some events is in reach, including grace heads.
pub(crate) fn are_in_reach(before: Clef, flats: &[Flat<'_>]) -> bool
    ensures { result ≡ are_in_reach before flats.now }
{
    let mut clef = before;
    for f in flats {
        clef = f.event().changes.clef.unwrap_or(clef);
        if !heads_in_reach(clef, f.event().heads.as_slice()) {
            return false;
        }
        if !graces_in_reach(clef, f.graces.as_slice()) {
            return false;
        }
    }
    true
}
