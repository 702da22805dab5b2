ghost use Rattle.std.specs.Prelude.{◌≡◌, [], ◌++◌, OnOk};
ghost use Rattle.lay_cert.specs.Lines.{lines_then};
ghost use Rattle.lay_cert.specs.Listing.{entry_lines};
ghost use Rattle.set_lists.specs.Listing.{AreListable, CanBeListed, IsListable, entry_of, listing_text, outcome_text};
ghost use Rattle.set_lists.specs.Listing.{outcomes_text};

use lay_cert::{put_end, put_entry, put_heading};
use mus_units::{Memory, Text};
use set_book::Outcome;
use set_tune::SetTune;

fn put_tune(out: &mut Text, ordinal: u32, tune: &SetTune) -> Result<(), Memory>
    requires { CanBeListed tune.now }
    ensures { OnOk result (out.new ≡ out.old ++ lines_then (entry_lines (entry_of ordinal tune.now)) []) }
{
    let bars = tune.score.measures;
    put_entry(out, ordinal, bars, tune.spans.as_slice(), &tune.breaking)?;
    Ok(())
}

fn put_outcome(out: &mut Text, outcome: &Outcome) -> Result<(), Memory>
    requires { IsListable outcome.now.result }
    ensures { OnOk result (out.new ≡ out.old ++ outcome_text outcome.now) }
{
    match &outcome.result {
        Ok(tune) => put_tune(out, outcome.ordinal, tune),
        Err(_) => Ok(()),
    }
}

#[tactic(auto, unfolding(crate::specs::Listing::outcomes_text))]
fn put_outcomes(out: &mut Text, outcomes: &[Outcome]) -> Result<(), Memory>
    requires { AreListable outcomes.now }
    ensures { OnOk result (out.new ≡ out.old ++ outcomes_text outcomes.now) }
{
    for outcome in outcomes {
        put_outcome(out, outcome)?;
    }
    Ok(())
}

/// Adds the listing at the end of the text: its first line, the entry of each tune without a fault, and its last
/// line.
pub fn put_listing(out: &mut Text, outcomes: &[Outcome]) -> Result<(), Memory>
    requires { AreListable outcomes.now }
    ensures { OnOk result (out.new ≡ out.old ++ listing_text outcomes.now) }
{
    put_heading(out)?;
    put_outcomes(out, outcomes)?;
    put_end(out)?;
    Ok(())
}
