//! The signs of a `%%score` line.

ghost use Rattle.std.specs.Prelude.{◌≡◌, ◌<◌, ◌^◌, ◌++◌, [], length, IfOk, IfSome, OnOk};
ghost use Rattle.std.specs.Option.{option_to_list};
ghost use Rattle.lay_shared.specs.Reading.{place_of, plan_signs_from, voice_sign, word_signs};
ghost use Rattle.lay_shared.specs.Signs.{is_id, is_passed_in_plan, plan_sign_at};

use mus_units::bytes::is_same;
use mus_units::{Memory, Row, Text};
use std::alloc::Global;

/// The two kinds of brackets around staves, `[ ]` and `{ }`.
#[derive(Clone, Copy)]
pub enum Bracket {
    Square,
    Curly,
}

/// A sign of the text: a voice by its index, or an id that no voice has; `(` and `)` around voices of one staff; and
/// brackets around staves.
#[derive(Clone, Copy)]
pub enum PlanSign {
    Voice { place: u32 },
    UnknownVoice,
    StaffOpens,
    StaffEnds,
    Opens { bracket: Bracket },
    Ends { bracket: Bracket },
}

/// Returns the signs of a text, in order.
pub(crate) fn signs_of(alloc: Global, text: &[u8], ids: &[Text]) -> Result<Row<PlanSign>, Memory>
    requires { length ids.now < 2 ^ 32 }
    ensures { IfOk result (λ signs. signs ≡ plan_signs_from ids.now [] text.now) }
{
    let mut signs = Row::new(alloc);
    let mut word = Text::new(alloc);
    for byte in text {
        if is_id(*byte) {
            word.push(*byte)?;
        } else {
            put_word(&mut signs, word.as_slice(), ids)?;
            word = Text::new(alloc);
            put_sign(&mut signs, *byte)?;
        }
    }
    put_word(&mut signs, word.as_slice(), ids)?;
    Ok(signs)
}

/// Adds the voice that a word names; an empty word names none.
fn put_word(signs: &mut Row<PlanSign>, word: &[u8], ids: &[Text]) -> Result<(), Memory>
    requires { length ids.now < 2 ^ 32 }
    ensures { OnOk result (signs.new ≡ signs.old ++ word_signs ids.now word.now) }
{
    if word.is_empty() {
        return Ok(());
    }
    signs.push(voice_sign(place_of(word, ids)))
}

fn put_sign(signs: &mut Row<PlanSign>, byte: u8) -> Result<(), Memory>
    ensures { OnOk result (signs.new ≡ signs.old ++ option_to_list (plan_sign_at byte)) }
{
    match plan_sign_at(byte) {
        Some(sign) => signs.push(sign),
        None => Ok(()),
    }
}

fn voice_sign(place: Option<usize>) -> PlanSign
    requires { IfSome place (λ p. p < 2 ^ 32) }
    ensures { result ≡ voice_sign place }
{
    match place {
        Some(place) => PlanSign::Voice {
            place: place as u32,
        },
        None => PlanSign::UnknownVoice,
    }
}

fn place_of(word: &[u8], ids: &[Text]) -> Option<usize>
    ensures value { result ≡ place_of word.now ids.now }
    ensures within { IfSome result (λ p. p < length ids.now) }
{
    ids.iter().position(|id| is_same(id.as_slice(), word))
}

fn is_passed_in_plan(byte: u8) -> bool
    ensures { result ≡ is_passed_in_plan byte }
{
    matches!(byte, b' ' | b'\t' | b'|' | b'*' | b'+' | b'~')
}

fn plan_sign_at(byte: u8) -> Option<PlanSign>
    ensures { result ≡ plan_sign_at byte }
{
    match byte {
        b'(' => Some(PlanSign::StaffOpens),
        b')' => Some(PlanSign::StaffEnds),
        b'[' => Some(PlanSign::Opens {
            bracket: Bracket::Square,
        }),
        b']' => Some(PlanSign::Ends {
            bracket: Bracket::Square,
        }),
        b'{' => Some(PlanSign::Opens {
            bracket: Bracket::Curly,
        }),
        b'}' => Some(PlanSign::Ends {
            bracket: Bracket::Curly,
        }),
        _ => None,
    }
}

fn is_id(byte: u8) -> bool
    ensures { result ≡ is_id byte }
{
    !is_passed_in_plan(byte) && plan_sign_at(byte).is_none()
}
