ghost use Rattle.std.specs.Prelude.{◌≡◌, ◌++◌, ◌∷◌, [], ◌≤◌, length, IfOk, OnOk};
ghost use Rattle.mus_stems.specs.Stills.{IsGoodStill, AllGood, AllCanStand, clefs_from, stills};
ghost use Rattle.mus_stems.specs.Beams.{beams};
ghost use Rattle.mus_stems.specs.Plans.{first_event_id, plan_of, plans_along, run_plans, plans_of_runs, stems_of};
ghost use Rattle.mus_stems.specs.Plans.{ArePlans, AllEndsNear};

use crate::beams::more_in_run;
use crate::dots::{Spot, dot_dx, put_dots};
use crate::ends::{
    carries_stem, end_of_run, highest_head, lowest_head, own_end_of, run_points_up, stem_from,
};
use crate::heads::shifts_for;
use crate::ledgers::{put_above, put_below};
use crate::signs::{sign_dx, signs_for};
use crate::stills::{StemInput, flags_for, stills_for};
use mus_score::Flat;
use mus_units::{Clef, Few, Memory, Row, Wish};
use std::alloc::Global;

/// How an event is drawn besides its heads. Each dx and dy is in u, a dy counted up from the bottom line.
///
/// `up` is the direction of the stem and `has` whether there is one. It goes from dy `from` to dy `to`, the end that
/// the events of its beam share; `own` is the end that the event has by itself. `group` is the id of the event at
/// which its beam begins, its own id without a beam. `flags` is the number of its flags, or of the levels of its
/// beam. `shifts` has the dx of each head, `signs` the dx of the accidental before each head that has one, both in
/// the order of the text. `ledgers` has the dy of the ledger lines, below and then above, and `dots` the dots, head
/// by head.
///
/// A rest has no stem, begins and ends at 0, and has no heads, accidentals, ledger lines or dots; its `flags` depend
/// on its base.
#[derive(Drop)]
pub struct StemPlan {
    pub up: bool,
    pub has: bool,
    pub from: i32,
    pub to: i32,
    pub own: i32,
    pub group: u32,
    pub flags: u8,
    pub shifts: Few<i32>,
    pub signs: Few<Option<i32>>,
    pub ledgers: Row<i32>,
    pub dots: Row<Spot>,
}

/// Returns the id of the event at which a run begins.
fn id_of_run(run: &[StemInput]) -> u32
    ensures { result ≡ first_event_id run.now }
{
    match run {
        [] => 0,
        [e, ..] => e.id,
    }
}

/// Adds the plan of one event.
#[tactic(auto, unfolding(crate::specs::Plans::plan_of, crate::specs::Ledgers::ledgers_of))]
fn put_plan(
    alloc: Global,
    out: &mut Row<StemPlan>,
    up: bool,
    to: i32,
    group: u32,
    e: &StemInput,
) -> Result<(), Memory>
    requires { IsGoodStill e.now }
    ensures { OnOk result (out.new ≡ out.old ++ plan_of up to group e.now ∷ []) }
{
    let stands = e.stands.as_slice();
    let shifts = shifts_for(alloc, up, stands)?;
    let signs = signs_for(alloc, sign_dx(shifts.as_slice()), stands)?;
    let mut ledgers = Row::new(alloc);
    put_below(&mut ledgers, lowest_head(stands))?;
    put_above(&mut ledgers, highest_head(stands))?;
    let mut dots = Row::new(alloc);
    put_dots(&mut dots, dot_dx(shifts.as_slice()), e.dots, stands)?;
    out.push(StemPlan {
        up,
        has: carries_stem(e),
        from: stem_from(up, stands),
        to,
        own: own_end_of(up, stands),
        group,
        flags: flags_for(e.base),
        shifts,
        signs,
        ledgers,
        dots,
    })
}

/// Adds the plans of the events of a run.
fn put_plans(
    alloc: Global,
    out: &mut Row<StemPlan>,
    up: bool,
    to: i32,
    group: u32,
    run: &[StemInput],
) -> Result<(), Memory>
    requires { AllGood run.now }
    ensures { OnOk result (out.new ≡ out.old ++ plans_along up to group run.now) }
{
    for e in run {
        put_plan(alloc, out, up, to, group, e)?;
    }
    Ok(())
}

/// Adds the plans of a run.
#[tactic(auto, unfolding(crate::specs::Plans::run_plans))]
fn put_run(
    alloc: Global,
    out: &mut Row<StemPlan>,
    wish: Wish,
    run: &[StemInput],
) -> Result<(), Memory>
    requires { AllGood run.now }
    ensures { OnOk result (out.new ≡ out.old ++ run_plans wish run.now) }
{
    let up = run_points_up(wish, run);
    put_plans(alloc, out, up, end_of_run(up, run), id_of_run(run), run)
}

/// Adds the plans of all runs of events.
fn put_all_runs(
    alloc: Global,
    out: &mut Row<StemPlan>,
    wish: Wish,
    events: &[StemInput],
) -> Result<(), Memory>
    requires { AllGood events.now }
    ensures { OnOk result (out.new ≡ out.old ++ plans_of_runs wish (beams events.now)) }
{
    let mut rest = events;
    while let Some((d, more)) = rest.split_first() {
        let n = more_in_run(d, more);
        let (run, after) = rest.split_at(n + 1);
        put_run(alloc, out, wish, run)?;
        rest = after;
    }
    Ok(())
}

/// Returns the stem plans of the events of one measure of one voice, one for each event in their order.
///
/// `first` is the clef in force before them, `wish` the stem direction that the voice asks for. Each head is at a
/// height of -14 to 22 in its clef.
#[tactic(auto, using(crate::proofs::Taking::stills_are_good, crate::proofs::PlanLaws::are_plans, //
crate::proofs::EndLaws::ends_near, crate::proofs::EndLaws::plans_length), unfolding(crate::specs::Plans::stems_of))]
pub fn stems(
    alloc: Global,
    events: &[Flat<'_>],
    first: Clef,
    wish: Wish,
) -> Result<Row<StemPlan>, Memory>
    requires { AllCanStand events.now (clefs_from first events.now) }
    ensures value { IfOk result (λ plans. plans ≡ stems_of wish events.now (clefs_from first events.now)) }
    ensures each { IfOk result (λ plans. length plans ≡ length events.now) }
    ensures ends { IfOk result AllEndsNear }
    ensures plans { IfOk result (ArePlans wish (stills events.now (clefs_from first events.now))) }
{
    let stills = stills_for(alloc, events, first)?;
    let mut plans = Row::with_room(alloc, events.len())?;
    put_all_runs(alloc, &mut plans, wish, stills.as_slice())?;
    Ok(plans)
}
