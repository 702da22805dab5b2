use crate::error::CaseError;
use crate::report::Report;
use mus_onsets::{Class, ColumnKey};

/// Adds a key of a column: its class, its measure, its tick and its place.
pub fn put_key(out: &mut Report, key: ColumnKey) -> Result<(), CaseError> {
    out.next(class_name(key.class))?;
    out.next_number(b"measure ", key.measure)?;
    out.next_number(b"tick ", key.tick)?;
    out.next_number(b"place ", key.place)
}

fn class_name(class: Class) -> &'static [u8] {
    match class {
        Class::Head => b"head",
        Class::First => b"first",
        Class::Change => b"change",
        Class::Grace => b"grace",
        Class::Note => b"note",
        Class::Bar => b"bar",
    }
}
