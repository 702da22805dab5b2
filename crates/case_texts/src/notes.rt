use crate::error::CaseError;
use crate::report::Report;
use crate::values::put_letter;
use mus_units::{Alter, Bar, Base, Deco, Head, Pitch, Text, Value};

/// Adds a pitch as its letter and its octave: `F5`.
pub fn put_pitch(out: &mut Report, pitch: Pitch) -> Result<(), CaseError> {
    put_letter(out, pitch.letter)?;
    out.show(pitch.octave)
}

/// Adds a head as its letter, its octave and its sign, and `-` if it is tied: `F5^-`.
pub fn put_head(out: &mut Report, head: Head) -> Result<(), CaseError> {
    put_pitch(out, head.pitch)?;
    if let Some(sign) = head.sign {
        out.append(sign_name(sign))?;
    }
    if head.tied { out.push(b'-') } else { Ok(()) }
}

fn sign_name(sign: Alter) -> &'static [u8] {
    match sign {
        Alter::Flat2 => b"__",
        Alter::Flat => b"_",
        Alter::Natural => b"=",
        Alter::Sharp => b"^",
        Alter::Sharp2 => b"^^",
    }
}

/// Adds the features of a bar, a letter each: end, start, last, initial, double, dotted, unseen.
pub fn put_bar(out: &mut Report, bar: Bar) -> Result<(), CaseError> {
    let features = [
        (bar.end, b'E'),
        (bar.start, b'S'),
        (bar.last, b'L'),
        (bar.initial, b'I'),
        (bar.double, b'D'),
        (bar.dotted, b'o'),
        (bar.unseen, b'u'),
    ];
    for (there, letter) in features {
        if there {
            out.push(letter)?;
        }
    }
    Ok(())
}

/// Adds a decoration by the name of its glyph, or its place and its text.
pub fn put_deco(out: &mut Report, deco: &Deco) -> Result<(), CaseError> {
    match deco {
        Deco::Below(text) => put_named(out, b"below ", text),
        Deco::Above(text) => put_named(out, b"above ", text),
        Deco::Quiet(text) => put_named(out, b"quiet ", text),
        _ => out.append(glyph_name(deco)),
    }
}

fn put_named(out: &mut Report, place: &[u8], text: &Text) -> Result<(), CaseError> {
    out.append(place)?;
    out.append(text.as_slice())
}

fn glyph_name(deco: &Deco) -> &'static [u8] {
    match deco {
        Deco::Ks => b"ks",
        Deco::Kr => b"kr",
        Deco::Kf => b"kf",
        Deco::Ka => b"ka",
        Deco::Km => b"km",
        Deco::Kc => b"kc",
        Deco::Kp => b"kp",
        Deco::Kg => b"kg",
        Deco::Kt => b"kt",
        Deco::Ku => b"ku",
        Deco::Kd => b"kd",
        Deco::Kn => b"kn",
        Deco::Below(_) | Deco::Above(_) | Deco::Quiet(_) => b"",
    }
}

/// Adds a value as its base and its dots: `1/4..`.
pub fn put_value(out: &mut Report, value: Value) -> Result<(), CaseError> {
    out.append(base_name(value.base))?;
    for _ in 0..value.dots {
        out.push(b'.')?;
    }
    Ok(())
}

fn base_name(base: Base) -> &'static [u8] {
    match base {
        Base::Breve => b"2",
        Base::Whole => b"1",
        Base::Half => b"1/2",
        Base::Quarter => b"1/4",
        Base::Eighth => b"1/8",
        Base::N16 => b"1/16",
        Base::N32 => b"1/32",
        Base::N64 => b"1/64",
    }
}
