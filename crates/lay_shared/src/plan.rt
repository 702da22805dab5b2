ghost use Rattle.std.specs.Prelude.{◌≡◌, ◌≢◌, ◌<◌, ◌^◌, ◌==◌, Some, [], length, AllPairs, IfOk, IfSome, map};
ghost use Rattle.std.specs.List.{list_any};
ghost use Rattle.mus_score.specs.{GoodScore.IsGoodScore, declared.score.Voice.Voice};
ghost use Rattle.lay_shared.specs.Plans.{IsPlanFor, SpellsPlan, score_ids, named};
ghost use Rattle.lay_shared.specs.Reading.{is_fair, is_once, plan_by, plan_signs_from};
ghost use Rattle.lay_shared.specs.declared.plan.Plan.{Plan};

use crate::reading::staves_by;
use crate::signs::{PlanSign, signs_of};
use mus_score::{Score, Voice};
use mus_units::{Memory, Row, Text};
use std::alloc::Global;

/// A staff of a plan: the indices of its voices in the score, in order. `leads` is true if it is the first of an
/// outermost group.
#[derive(Drop)]
pub struct PlannedStaff {
    pub leads: bool,
    pub voices: Row<u32>,
}

/// The staves that a `%%score` line asks for, from top to bottom.
#[derive(Drop)]
pub struct Plan {
    pub staves: Row<PlannedStaff>,
}

/// Returns the ids of a score's voices, in order.
pub fn score_ids(alloc: Global, s: &Score) -> Result<Row<Text>, Memory>
    requires { IsGoodScore s.now }
    ensures value { IfOk result (λ ids. ids ≡ score_ids s.now) }
    ensures few { IfOk result (λ ids. length ids < 2 ^ 32) }
    ensures apart { IfOk result (λ ids. AllPairs (λ i j. i ≢ j) ids) }
{
    ids_of_voices(alloc, s.voices.as_slice())
}

fn ids_of_voices(alloc: Global, voices: &[Voice]) -> Result<Row<Text>, Memory>
    ensures { IfOk result (λ ids. ids ≡ map (λ (v : Voice). v.id) voices.now) }
{
    let mut ids = Row::new(alloc);
    for voice in voices {
        ids.push(voice.id.copy(alloc)?)?;
    }
    Ok(ids)
}

/// Returns the plan that a text spells, for a score whose voices have these ids. `None` exactly when parentheses or
/// brackets don't pair, parentheses hold no voice or a sign that is not an id, an id is no voice's, an id occurs
/// twice, or no voice is named.
pub fn read_plan(alloc: Global, text: &[u8], ids: &[Text]) -> Result<Option<Plan>, Memory>
    requires few { length ids.now < 2 ^ 32 }
    requires apart { AllPairs (λ i j. i ≢ j) ids.now }
    ensures spells { IfOk result (λ read. IfSome read (SpellsPlan ids.now text.now)) }
    ensures only { IfOk result (λ read. (plan : Plan) → SpellsPlan ids.now text.now plan → read ≡ Some plan) }
    ensures good { IfOk result (λ read. IfSome read (IsPlanFor (length ids.now))) }
{
    read_by(alloc, text, ids)
}

fn read_by(alloc: Global, text: &[u8], ids: &[Text]) -> Result<Option<Plan>, Memory>
    requires { length ids.now < 2 ^ 32 }
    ensures { IfOk result (λ read. read ≡ plan_by (plan_signs_from ids.now [] text.now)) }
{
    let signs = signs_of(alloc, text, ids)?;
    plan_by(alloc, signs.as_slice())
}

fn plan_by(alloc: Global, signs: &[PlanSign]) -> Result<Option<Plan>, Memory>
    ensures { IfOk result (λ read. read ≡ plan_by signs.now) }
{
    let voices = named(alloc, signs)?;
    if !is_fair(voices.as_slice()) {
        return Ok(None);
    }
    match staves_by(alloc, signs)? {
        Some(staves) => Ok(Some(Plan { staves })),
        None => Ok(None),
    }
}

/// Returns the voices that signs name.
fn named(alloc: Global, signs: &[PlanSign]) -> Result<Row<u32>, Memory>
    ensures { IfOk result (λ voices. voices ≡ named signs.now) }
{
    let mut voices = Row::new(alloc);
    for sign in signs {
        if let PlanSign::Voice { place } = sign {
            voices.push(*place)?;
        }
    }
    Ok(voices)
}

/// Returns whether at least one voice is named, and none twice.
fn is_fair(voices: &[u32]) -> bool
    ensures { result ≡ is_fair voices.now }
{
    !voices.is_empty() && is_once(voices)
}

fn is_among(voice: u32, others: &[u32]) -> bool
    ensures { result ≡ list_any (λ w. w == voice) others.now }
{
    others.iter().any(|other| *other == voice)
}

fn is_once(voices: &[u32]) -> bool
    ensures { result ≡ is_once voices.now }
{
    let mut left = voices;
    'voices: while let Some((voice, others)) = left.split_first() {
        if is_among(*voice, others) {
            return false;
        }
        left = others;
    }
    true
}
