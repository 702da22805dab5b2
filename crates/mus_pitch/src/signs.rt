ghost use Rattle.std.specs.Prelude.{◌≡◌, ℕ, ◌==◌, IfOk, map, take, reverse, not, filter};
ghost use Rattle.mus_units.specs.{Pitch.letter_number, Good.AreGoodSigns, Good.IsGoodKey, Good.same_letter};
ghost use Rattle.mus_units.specs.declared.pitch.Alter.TheVariants as alters;
ghost use Rattle.mus_pitch.specs.{Circle.{signs_of, signed, sharp_order}, Signs.{laid, with_sign}};

use mus_units::{Alter, Key, Letter, Memory, Row, Sign};
use std::alloc::Global;

/// The letters in the order in which sharps are added.
const SHARP_ORDER: [Letter; 7] = [
    Letter::F,
    Letter::C,
    Letter::G,
    Letter::D,
    Letter::A,
    Letter::E,
    Letter::B,
];

/// Returns the key with a number of sharps, negative for flats; it has at most seven entries.
pub fn key_of(alloc: Global, sharps: i8) -> Result<Key, Memory>
    ensures value { IfOk result (λ key. key.signs ≡ signs_of sharps) }
    ensures good { IfOk result (λ key. IsGoodKey key) }
{
    let signs = signs_for(alloc, sharps)?;
    Ok(Key { signs })
}

#[tactic(auto, unfolding(crate::specs::Circle::signs_of))]
fn signs_for(alloc: Global, sharps: i8) -> Result<Row<Sign>, Memory>
    ensures { IfOk result (λ row. row ≡ signs_of sharps) }
{
    let count = usize::from(sharps.unsigned_abs());
    if sharps >= 0 {
        first_sharps(alloc, count)
    } else {
        first_flats(alloc, count)
    }
}

fn first_sharps(alloc: Global, count: usize) -> Result<Row<Sign>, Memory>
    ensures { IfOk result (λ row. row ≡ map (signed alters.Sharp) (take count sharp_order)) }
{
    let items = SHARP_ORDER
        .iter()
        .take(count)
        .map(|letter| Sign {
            letter: *letter,
            alter: Alter::Sharp,
        })
        .collect(alloc)?;
    Ok(Row { items })
}

fn first_flats(alloc: Global, count: usize) -> Result<Row<Sign>, Memory>
    ensures { IfOk result (λ row. row ≡ map (signed alters.Flat) (take count (reverse sharp_order))) }
{
    let items = SHARP_ORDER
        .iter()
        .rev()
        .take(count)
        .map(|letter| Sign {
            letter: *letter,
            alter: Alter::Flat,
        })
        .collect(alloc)?;
    Ok(Row { items })
}

/// Returns a key with further accidentals added one by one: each replaces the entry of its letter and goes last.
pub fn with_signs(alloc: Global, key: &Key, adds: &[Sign]) -> Result<Key, Memory>
    requires { IsGoodKey key.now }
    ensures value { IfOk result (λ new. new.signs ≡ laid key.now.signs adds.now) }
    ensures good { IfOk result (λ new. IsGoodKey new) }
{
    let signs = laid_on(alloc, key.signs.as_slice(), adds)?;
    Ok(Key { signs })
}

fn laid_on(alloc: Global, signs: &[Sign], adds: &[Sign]) -> Result<Row<Sign>, Memory>
    ensures { IfOk result (λ row. row ≡ laid signs.now adds.now) }
{
    let mut items = Vec::from_slice(alloc, signs)?;
    for add in adds {
        items = with_sign(alloc, items.as_slice(), *add)?;
    }
    Ok(Row { items })
}

/// Returns the entries of the other letters, followed by this one.
fn with_sign(alloc: Global, signs: &[Sign], add: Sign) -> Result<Vec<Sign>, Memory>
    ensures { IfOk result (λ v. v.items ≡ with_sign signs.now add) }
{
    let mut items = without(alloc, signs, add.letter)?;
    items.push(add)?;
    Ok(items)
}

fn without(alloc: Global, signs: &[Sign], letter: Letter) -> Result<Vec<Sign>, Memory>
    ensures { IfOk result (λ v. v.items ≡ filter (λ s. not (same_letter s.letter letter)) signs.now) }
{
    let others = signs
        .iter()
        .copied()
        .filter(|sign| !same_letter(sign.letter, letter))
        .collect(alloc)?;
    Ok(others)
}

/// Returns whether two letters are the same.
pub(crate) fn same_letter(a: Letter, b: Letter) -> bool
    ensures { result ≡ same_letter a b }
{
    a == b
}
