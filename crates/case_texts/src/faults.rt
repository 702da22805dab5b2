use crate::error::CaseError;
use crate::report::Report;
use abc_lines::{Fault, FaultKind, TuneError};

/// Adds a fault as its kind and its place, or passes out of memory on.
pub fn put_fault(out: &mut Report, error: TuneError) -> Result<(), CaseError> {
    match error {
        TuneError::Fault(fault) => put_placed(out, fault),
        TuneError::Memory => Err(CaseError::Memory),
    }
}

fn put_placed(out: &mut Report, fault: Fault) -> Result<(), CaseError> {
    out.next(b"fault ")?;
    put_kind(out, fault.kind)?;
    out.tell(format_args!("line {} column {}", fault.line, fault.column))
}

/// Adds the name of a kind of fault, and its number if it has one.
pub fn put_kind(out: &mut Report, kind: FaultKind) -> Result<(), CaseError> {
    out.append(name_of(kind))?;
    match kind {
        FaultKind::NoWay { reached: number } | FaultKind::TooTall { block: number } => {
            out.tell(number)
        }
        _ => Ok(()),
    }
}

fn name_of(kind: FaultKind) -> &'static [u8] {
    match kind {
        FaultKind::NoKey => b"NoKey",
        FaultKind::BadMeter => b"BadMeter",
        FaultKind::BadUnit => b"BadUnit",
        FaultKind::BadKey => b"BadKey",
        FaultKind::BadVoice => b"BadVoice",
        FaultKind::TooManyVoices => b"TooManyVoices",
        FaultKind::BadByte => b"BadByte",
        FaultKind::Unclosed => b"Unclosed",
        FaultKind::BadLength => b"BadLength",
        FaultKind::BadTuplet => b"BadTuplet",
        FaultKind::TooDeep => b"TooDeep",
        FaultKind::TupletCrosses => b"TupletCrosses",
        FaultKind::TupletShort => b"TupletShort",
        FaultKind::BrokenAlone => b"BrokenAlone",
        FaultKind::Undrawable => b"Undrawable",
        FaultKind::StepRange => b"StepRange",
        FaultKind::RestWithoutMeter => b"RestWithoutMeter",
        FaultKind::TooManyMeasures => b"TooManyMeasures",
        FaultKind::TooManyEvents => b"TooManyEvents",
        FaultKind::TooManyVerses => b"TooManyVerses",
        FaultKind::BadScore => b"BadScore",
        FaultKind::BadShare => b"BadShare",
        FaultKind::BadMove => b"BadMove",
        FaultKind::NoWay { .. } => b"NoWay",
        FaultKind::TooTall { .. } => b"TooTall",
    }
}
