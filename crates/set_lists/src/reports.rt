ghost use Rattle.std.specs.Prelude.{◌≡◌, ◌++◌, OnOk};
ghost use Rattle.set_lists.specs.Reports.{fault_report, kind_name, report, reports, some_fault};

use crate::words::put_word;
use abc_lines::{Fault, FaultKind};
use mus_units::{Memory, Text};
use set_book::Outcome;

/// Adds the name of a kind of fault, followed by a space and its number if it has one.
fn put_kind(out: &mut Text, kind: FaultKind) -> Result<(), Memory>
    ensures { OnOk result (out.new ≡ out.old ++ kind_name kind) }
{
    match kind {
        FaultKind::NoKey => out.append(b"NoKey"),
        FaultKind::BadMeter => out.append(b"BadMeter"),
        FaultKind::BadUnit => out.append(b"BadUnit"),
        FaultKind::BadKey => out.append(b"BadKey"),
        FaultKind::BadVoice => out.append(b"BadVoice"),
        FaultKind::TooManyVoices => out.append(b"TooManyVoices"),
        FaultKind::BadByte => out.append(b"BadByte"),
        FaultKind::Unclosed => out.append(b"Unclosed"),
        FaultKind::BadLength => out.append(b"BadLength"),
        FaultKind::BadTuplet => out.append(b"BadTuplet"),
        FaultKind::TooDeep => out.append(b"TooDeep"),
        FaultKind::TupletCrosses => out.append(b"TupletCrosses"),
        FaultKind::TupletShort => out.append(b"TupletShort"),
        FaultKind::BrokenAlone => out.append(b"BrokenAlone"),
        FaultKind::Undrawable => out.append(b"Undrawable"),
        FaultKind::StepRange => out.append(b"StepRange"),
        FaultKind::RestWithoutMeter => out.append(b"RestWithoutMeter"),
        FaultKind::TooManyMeasures => out.append(b"TooManyMeasures"),
        FaultKind::TooManyEvents => out.append(b"TooManyEvents"),
        FaultKind::TooManyVerses => out.append(b"TooManyVerses"),
        FaultKind::BadScore => out.append(b"BadScore"),
        FaultKind::BadShare => out.append(b"BadShare"),
        FaultKind::BadMove => out.append(b"BadMove"),
        FaultKind::NoWay { reached } => put_word(out, b"NoWay ", u128::from(reached)),
        FaultKind::TooTall { block } => put_word(out, b"TooTall ", u128::from(block)),
    }
}

/// Adds the line of a tune's fault.
#[tactic(auto, unfolding(crate::specs::Reports::fault_report))]
fn put_fault(out: &mut Text, ordinal: u32, fault: &Fault) -> Result<(), Memory>
    ensures { OnOk result (out.new ≡ out.old ++ fault_report ordinal fault.now) }
{
    put_word(out, b"tune ", u128::from(ordinal))?;
    put_word(out, b" line ", u128::from(fault.line))?;
    put_word(out, b" column ", u128::from(fault.column))?;
    out.append(b": ")?;
    put_kind(out, fault.kind)?;
    out.push(b'\n')
}

fn put_report(out: &mut Text, outcome: &Outcome) -> Result<(), Memory>
    ensures { OnOk result (out.new ≡ out.old ++ report outcome.now) }
{
    match &outcome.result {
        Ok(_) => Ok(()),
        Err(fault) => put_fault(out, outcome.ordinal, fault),
    }
}

/// Adds the line `tune K line L column C: NAME` for each tune with a fault at the end of the text, in order. NAME is
/// the name of the kind, and its number if it has one.
#[tactic(auto, unfolding(crate::specs::Reports::reports))]
pub fn put_reports(out: &mut Text, outcomes: &[Outcome]) -> Result<(), Memory>
    ensures { OnOk result (out.new ≡ out.old ++ reports outcomes.now) }
{
    for outcome in outcomes {
        put_report(out, outcome)?;
    }
    Ok(())
}

/// Returns whether some tune has a fault.
pub fn has_fault(outcomes: &[Outcome]) -> bool
    ensures { result ≡ some_fault outcomes.now }
{
    outcomes.iter().any(|outcome| outcome.result.is_err())
}
