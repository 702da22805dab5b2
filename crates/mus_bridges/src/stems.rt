ghost use Rattle.std.specs.Prelude.{◌≡◌, ◌-◌, ◌++◌, map, OnOk};
ghost use Rattle.mus_bridges.specs.Beams.{stem_of, way_of, goes_on_at_level, last_at, level_from, levels_from};
ghost use Rattle.mus_bridges.specs.Beams.{levels_before, beams_at, beams_from, beam_marks};
ghost use Rattle.mus_bridges.specs.Bridges.{beam_stem_at};
ghost use Rattle.mus_bridges.specs.Ends.{ended_events, event_ended};

use crate::ends::{EndedEvents, end_at};
use mus_drawn::DrawnEvent;
use mus_ink::drawing::put_beam;
use mus_ink::stems::lower_edge;
use mus_laid::Bridge;
use mus_onsets::{ColumnKey, is_same};
use mus_time::note_key;
use mus_units::{Memory, Row, Way};

/// What beams need of an event: the key of its column, the direction of its stem and the dy of its end, the event at
/// which its beam begins, and how many levels its beam has there.
#[derive(Clone, Copy, PartialEq, Eq)]
pub struct BeamStem {
    pub key: ColumnKey,
    pub up: bool,
    pub to: i32,
    pub group: u32,
    pub flags: u8,
}

/// Returns what beams need of an event of a measure, whose stem ends at `to`.
#[tactic(auto, unfolding(crate::specs::Beams::stem_of))]
fn beam_stem_at(measure: u32, to: i32, e: &DrawnEvent<'_>) -> BeamStem
    ensures { result ≡ beam_stem_at measure (event_ended to e.now) }
{
    BeamStem {
        key: note_key(measure, e),
        up: e.plan.up,
        to,
        group: e.plan.group,
        flags: e.plan.flags,
    }
}

/// Sets `stems` to what beams need of the events of a measure.
pub(crate) fn set_stems(
    stems: &mut Row<BeamStem>,
    measure: u32,
    events: EndedEvents<'_>,
) -> Result<(), Memory>
    ensures { OnOk result (stems.new ≡ map (beam_stem_at measure) (ended_events events.entry)) }
{
    stems.items.clear();
    for (i, e) in events.events.iter().enumerate() {
        stems.push(beam_stem_at(measure, end_at(events.ends, i, e), e))?;
    }
    Ok(())
}

fn way(up: bool) -> Way
    ensures { result ≡ way_of up }
{
    if up { Way::Up } else { Way::Down }
}

#[tactic(auto, unfolding(crate::specs::Beams::goes_on_at_level))]
fn goes_on_at_level(level: u8, p: BeamStem, q: BeamStem) -> bool
    ensures { result ≡ goes_on_at_level level p q }
{
    q.group == p.group && level < q.flags
}

/// Returns the last stem of a stem's run at a level, looking through the stems after it.
fn last_at(level: u8, p: BeamStem, following: &[BeamStem]) -> BeamStem
    ensures { result ≡ last_at level p following.now }
{
    let mut last = p;
    for q in following {
        if !goes_on_at_level(level, last, *q) {
            return last;
        }
        last = *q;
    }
    last
}

/// Draws the beam at one level of the run from one event to another.
#[tactic(auto, unfolding(crate::specs::Beams::level_from))]
fn put_level(out: &mut Row<Bridge>, level: u8, p: BeamStem, q: BeamStem) -> Result<(), Memory>
    ensures { OnOk result (out.new ≡ out.old ++ level_from level p q) }
{
    if is_same(p.key, q.key) {
        return Ok(());
    }
    let from = lower_edge(p.up, p.to, level);
    let to = lower_edge(q.up, q.to, level);
    put_beam(out, way(p.up), p.key, q.key, from, to)
}

/// Draws the beams of the runs that begin at a stem, from `level` to `flags` - 1.
#[tactic(auto, using(crate::proofs::LevelLaws::levels_step, std::proofs::lemmas::Grind::common_steps))]
fn put_levels(
    out: &mut Row<Bridge>,
    level: u8,
    flags: u8,
    p: BeamStem,
    following: &[BeamStem],
) -> Result<(), Memory>
    ensures { OnOk result (out.new ≡ out.old ++ levels_from level (flags - level) p following.now) }
{
    for k in level..flags {
        put_level(out, k, p, last_at(k, p, following))?;
    }
    Ok(())
}

#[tactic(auto, unfolding(crate::specs::Beams::levels_before))]
fn levels_before(p: BeamStem, group: u32, flags: u8) -> u8
    ensures { result ≡ levels_before p group flags }
{
    if p.group == group { flags } else { 0 }
}

/// Draws the beams that begin at a stem; the stem before it is in `group` with `flags` levels.
#[tactic(auto, unfolding(crate::specs::Beams::beams_at))]
fn put_beams_at(
    out: &mut Row<Bridge>,
    group: u32,
    flags: u8,
    p: BeamStem,
    following: &[BeamStem],
) -> Result<(), Memory>
    ensures { OnOk result (out.new ≡ out.old ++ beams_at group flags p following.now) }
{
    let level = levels_before(p, group, flags);
    put_levels(out, level, p.flags, p, following)
}

/// Draws the beams of the stems of a measure: by the first event that each joins, then by level.
#[tactic(auto, unfolding(crate::specs::Beams::beam_marks))]
pub fn put_beams(out: &mut Row<Bridge>, stems: &[BeamStem]) -> Result<(), Memory>
    ensures { OnOk result (out.new ≡ out.old ++ beam_marks stems.now) }
{
    let mut rest = stems;
    let mut group = 0;
    let mut flags = 0;
    while let [p, following @ ..] = rest {
        put_beams_at(out, group, flags, *p, following)?;
        group = p.group;
        flags = p.flags;
        rest = following;
    }
    Ok(())
}
