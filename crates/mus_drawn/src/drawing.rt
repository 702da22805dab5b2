ghost use Rattle.mus_score.specs.Limits.{head_limit};
ghost use Rattle.std.specs.Prelude.{◌≡◌, ◌≤◌, ◌*◌, ◌++◌, ◌∷◌, [], All, IfOk, OnOk, length, sum_by};
ghost use Rattle.mus_units.specs.Good.{IsGoodKey};
ghost use Rattle.mus_score.specs.Good.{IsGoodBody, flat_count, IsGoodFlat, flat_weight, longest_ticks, total_ticks};
ghost use Rattle.mus_score.specs.Times.{flats_of};
ghost use Rattle.mus_score.specs.GoodScore.{AreInReach, IsGoodEvent, IsGoodVoice, events_of};
ghost use Rattle.mus_stems.specs.Plans.{stems_of, AllEndsNear};
ghost use Rattle.mus_drawn.specs.Drawn.{standing_after, staff_state_after, drawn_event, drawn_events, drawn_measure};
ghost use Rattle.mus_drawn.specs.Drawn.{drawn_measures, drawn_voice, raise_of, style_of, wish_in_seat};
ghost use Rattle.mus_drawn.specs.Good.{AllCanDraw, IsGoodMeasure, AreGoodMeasures};

use crate::drawn::{DrawnEvent, DrawnMeasure, DrawnVoice, Style};
use crate::standing::{StaffState, change, old_signs, opening_of, standing_of};
use mus_arcs::arcs;
use mus_score::{Flat, Measure, Seat, Voice, flatten};
use mus_stems::{StemPlan, stems};
use mus_units::{Memory, Row, Wish};
use std::alloc::Global;

/// So far above or below their usual height are the rests of voices that share a staff, in u.
const SHARED_REST_RAISE: i32 = 1000;

/// Returns the stem direction of a voice: on a shared staff up for the first voice and down for the others, unless
/// the voice asks for one.
fn wish_in_seat(seat: Seat, wish: Wish) -> Wish
    ensures { result ≡ wish_in_seat seat wish }
{
    match (seat, wish) {
        (Seat::Upper, Wish::Auto) => Wish::Up,
        (Seat::Lower, Wish::Auto) => Wish::Down,
        (_, wish) => wish,
    }
}

fn style_of(v: &Voice) -> Style
    ensures { result ≡ style_of v.now }
{
    Style {
        seat: v.seat,
        wish: wish_in_seat(v.seat, v.stem),
    }
}

/// Returns how far the rests of a voice are raised, by its seat, in u.
pub fn raise_of(seat: Seat) -> i32
    ensures { result ≡ raise_of seat }
{
    match seat {
        Seat::Alone => 0,
        Seat::Upper => SHARED_REST_RAISE,
        Seat::Lower => -SHARED_REST_RAISE,
    }
}

/// Returns a drawn event. `now` is what is in force before it, and on return after it.
fn draw_event<'a>(
    alloc: Global,
    style: Style,
    tick: u64,
    now: &mut StaffState,
    flat: Flat<'a>,
    plan: StemPlan,
) -> Result<DrawnEvent<'a>, Memory>
    ensures event { IfOk result (λ d. d ≡ drawn_event style tick now.old flat.entry plan) }
    ensures now { OnOk result (now.new ≡ standing_after now.old flat.entry.event.changes) }
{
    let old = old_signs(alloc, &now.key, &flat.event().changes.key)?;
    change(alloc, now, &flat.event().changes)?;
    Ok(DrawnEvent {
        seat: style.seat,
        tick,
        clef: now.clef,
        old,
        flat,
        plan,
    })
}

/// Returns the drawn events of a measure, each with its plan. `now` is what is in force before them, and on return
/// after them.
fn draw_events<'a>(
    alloc: Global,
    style: Style,
    now: &mut StaffState,
    flats: Row<Flat<'a>>,
    plans: Row<StemPlan>,
) -> Result<Row<DrawnEvent<'a>>, Memory>
    requires { total_ticks flats ≤ head_limit * longest_ticks }
    ensures events { IfOk result (λ r. r ≡ drawn_events style 0 now.old flats.entry plans) }
    ensures now { OnOk result (length flats.entry ≤ length plans → now.new ≡ staff_state_after now.old flats.entry) }
{
    let mut out = Row::with_room(alloc, flats.len())?;
    let mut tick: u64 = 0;
    let mut plans = plans.items.into_iter();
    for flat in flats.items {
        let Some(plan) = plans.next() else {
            return Ok(out);
        };
        let duration = flat.duration;
        out.push(draw_event(alloc, style, tick, now, flat, plan)?)?;
        tick += duration;
    }
    Ok(out)
}

/// Returns a drawn measure. `now` is what is in force before it, and on return after it.
#[tactic(auto, unfolding(crate::specs::Drawn::drawn_measure), using(crate::proofs::Reaches::can_stand))]
fn draw_measure<'a>(
    alloc: Global,
    style: Style,
    now: &mut StaffState,
    m: &'a Measure,
) -> Result<DrawnMeasure<'a>, Memory>
    requires body { IsGoodBody m.now.body }
    requires key { IsGoodKey now.old.key }
    requires reach { AreInReach now.old.clef (flats_of m.now.body) }
    requires events { AllCanDraw (flats_of m.now.body) }
    ensures good { IfOk result IsGoodMeasure }
    ensures key { OnOk result (IsGoodKey now.new.key) }
    ensures measure { IfOk result (λ r. r ≡ drawn_measure style now.old m.now) }
    ensures now { OnOk result (now.new ≡ staff_state_after now.old (flats_of m.now.body)) }
{
    let flats = flatten(alloc, m.body.as_slice())?;
    let opening = opening_of(alloc, now, flats.as_slice())?;
    let plans = stems(alloc, flats.as_slice(), now.clef, style.wish)?;
    Ok(DrawnMeasure {
        seat: style.seat,
        opening,
        events: draw_events(alloc, style, now, flats, plans)?,
        bar: m.bar,
    })
}

fn draw_measures<'a>(
    alloc: Global,
    style: Style,
    now: &mut StaffState,
    measures: &'a [Measure],
) -> Result<Row<DrawnMeasure<'a>>, Memory>
    requires bodies { All (λ m. IsGoodBody m.body) measures.now }
    requires key { IsGoodKey now.old.key }
    requires reach { AreInReach now.old.clef (events_of measures.now) }
    requires events { AllCanDraw (events_of measures.now) }
    ensures measures { IfOk result (λ r. r ≡ drawn_measures style now.old measures.now) }
    ensures good { IfOk result AreGoodMeasures }
{
    let mut out = Row::with_room(alloc, measures.len())?;
    for m in measures {
        out.push(draw_measure(alloc, style, now, m)?)?;
    }
    Ok(out)
}

/// Returns a drawn voice.
#[tactic(auto, unfolding(crate::specs::Drawn::drawn_voice))]
pub fn draw_voice(alloc: Global, v: &Voice) -> Result<DrawnVoice<'_>, Memory>
    requires { IsGoodVoice v.now }
    ensures voice { IfOk result (λ r. r ≡ drawn_voice v.now) }
    ensures good { IfOk result (λ r. AreGoodMeasures r.measures) }
{
    let mut now = standing_of(alloc, v)?;
    let measures = draw_measures(alloc, style_of(v), &mut now, v.measures.as_slice())?;
    Ok(DrawnVoice {
        seat: v.seat,
        first: v.first,
        measures,
        arcs: arcs(alloc, v)?,
        verses: v.verses,
    })
}
