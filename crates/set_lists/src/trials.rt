ghost use Rattle.std.specs.Prelude.{◌≡◌, ◌++◌, OnOk};
ghost use Rattle.set_lists.specs.Trials.{fault_count, set_count, system_count, systems_in, total_in, total_of};
ghost use Rattle.set_lists.specs.Trials.{trial_text};

use crate::words::put_word;
use mus_units::{Memory, Text};
use set_book::Outcome;

/// The counts of a trial of a book: how many tunes it has, how many are set and how many refused, how many systems,
/// pages and bytes they make, and the total cost of all breakings.
#[derive(Clone, Copy, PartialEq, Eq)]
pub struct Trial {
    pub tunes: u64,
    pub set: u64,
    pub refused: u64,
    pub systems: u128,
    pub pages: u64,
    pub bytes: u64,
    pub total: u128,
}

/// Adds the line `trial N set s refused r systems y pages p bytes b total t` at the end of the text.
#[tactic(auto, unfolding(crate::specs::Trials::trial_text))]
pub fn put_trial(out: &mut Text, trial: &Trial) -> Result<(), Memory>
    ensures { OnOk result (out.new ≡ out.old ++ trial_text trial.now) }
{
    put_word(out, b"trial ", u128::from(trial.tunes))?;
    put_word(out, b" set ", u128::from(trial.set))?;
    put_word(out, b" refused ", u128::from(trial.refused))?;
    put_word(out, b" systems ", trial.systems)?;
    put_word(out, b" pages ", u128::from(trial.pages))?;
    put_word(out, b" bytes ", u128::from(trial.bytes))?;
    put_word(out, b" total ", trial.total)?;
    out.push(b'\n')
}

/// Returns how many tunes have no fault.
pub fn set_count(outcomes: &[Outcome]) -> u64
    ensures { result ≡ set_count outcomes.now }
{
    let mut count = 0;
    for outcome in outcomes {
        if outcome.result.is_ok() {
            count += 1;
        }
    }
    count
}

/// Returns how many tunes have a fault.
pub fn fault_count(outcomes: &[Outcome]) -> u64
    ensures { result ≡ fault_count outcomes.now }
{
    let mut count = 0;
    for outcome in outcomes {
        if outcome.result.is_err() {
            count += 1;
        }
    }
    count
}

fn systems_in(outcome: &Outcome) -> u64
    ensures { result ≡ systems_in outcome.now }
{
    match &outcome.result {
        Ok(tune) => tune.systems.len() as u64,
        Err(_) => 0,
    }
}

fn total_in(outcome: &Outcome) -> u64
    ensures { result ≡ total_in outcome.now }
{
    match &outcome.result {
        Ok(tune) => tune.breaking.total,
        Err(_) => 0,
    }
}

/// Returns how many systems the tunes without a fault have in total.
pub fn system_count(outcomes: &[Outcome]) -> u128
    ensures { result ≡ system_count outcomes.now }
{
    let mut count = 0;
    for outcome in outcomes {
        count += u128::from(systems_in(outcome));
    }
    count
}

/// Returns the total cost of the breakings of the tunes without a fault.
pub fn total_of(outcomes: &[Outcome]) -> u128
    ensures { result ≡ total_of outcomes.now }
{
    let mut total = 0;
    for outcome in outcomes {
        total += u128::from(total_in(outcome));
    }
    total
}
