ghost use Rattle.std.specs.Prelude.{◌≡◌, ◌++◌, ◌∷◌, [], List, IfOk, OnOk};
ghost use Rattle.mus_lyric.specs.declared.syllable.Syl.{Syl};
ghost use Rattle.mus_lyric.specs.Characters.{characters};
ghost use Rattle.mus_lyric.specs.Syllables.{AreSyllablesOf, after_run, run_ended, syllables_of};
ghost use Rattle.mus_lyric.specs.declared.syllable.Syl.TheVariants as syl;

use crate::character::{Character, first_character};
use mus_units::{Memory, Row, Text};
use std::alloc::Global;
use std::mem;

/// A printed syllable, a skipped note, or a bar sign.
#[derive(Drop)]
pub enum Syl {
    Print(Text),
    Skip,
    Bar,
}

/// Returns the syllables of a line of words.
///
/// A syllable runs up to a blank, `-`, `_`, `*` or `|`; a `-` directly after it is printed with it and ends it. Any
/// other `-` is a syllable, and so is `_`; `*` skips a note and `|` is a bar sign. `~` is printed as a space and `\-`
/// as a hyphen.
pub fn syllables(alloc: Global, words: &[u8]) -> Result<Row<Syl>, Memory>
    ensures spelt { IfOk result (λ syls. AreSyllablesOf words.now syls) }
    ensures one_list { IfOk result (λ syls. (other : List Syl) → AreSyllablesOf words.now other → other ≡ syls) }
    ensures value { IfOk result (λ syls. syls ≡ syllables_of words.now) }
{
    let mut syls = Row::new(alloc);
    let mut run = Text::new(alloc);
    let mut left = words;
    'characters: while let Some((character, rest)) = first_character(left) {
        put_character(alloc, character, &mut run, &mut syls)?;
        left = rest;
    }
    end_run(alloc, &mut run, &mut syls)?;
    Ok(syls)
}

/// Adds a character to the run before it, or ends that run and adds the meaning of the character by itself.
fn put_character(
    alloc: Global,
    character: Character,
    run: &mut Text,
    syls: &mut Row<Syl>,
) -> Result<(), Memory>
    ensures { OnOk result
        ((more : List Character)
        → syls.new ++ after_run run.new more ≡ syls.old ++ after_run run.old (character ∷ more)) }
{
    match character {
        Character::Printed(byte) => {
            run.push(byte)?;
        }
        Character::Hyphen => {
            run.push(b'-')?;
            let text = mem::replace(run, Text::new(alloc));
            syls.push(Syl::Print(text))?;
        }
        Character::Blank => end_run(alloc, run, syls)?,
        Character::Underscore => {
            end_run(alloc, run, syls)?;
            syls.push(Syl::Print(Text::from_slice(alloc, b"_")?))?;
        }
        Character::Star => {
            end_run(alloc, run, syls)?;
            syls.push(Syl::Skip)?;
        }
        Character::BarLine => {
            end_run(alloc, run, syls)?;
            syls.push(Syl::Bar)?;
        }
    }
    Ok(())
}

/// Adds the run as a syllable if it has a byte, and begins a new one.
fn end_run(alloc: Global, run: &mut Text, syls: &mut Row<Syl>) -> Result<(), Memory>
    ensures put { OnOk result (syls.new ≡ syls.old ++ run_ended run.old []) }
    ensures fresh { OnOk result (run.new ≡ []) }
{
    if run.len() > 0 {
        let text = mem::replace(run, Text::new(alloc));
        syls.push(Syl::Print(text))?;
    }
    Ok(())
}
