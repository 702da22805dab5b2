ghost use Rattle.std.specs.Prelude.{◌≡◌, ◌≤◌, ◌+◌, ◌*◌, ◌++◌, ◌-ℤ◌, pos, min, length, flat_map, IfOk, OnOk};
ghost use Rattle.mus_ink.specs.Distances.{text_step, verse_step};
ghost use Rattle.mus_words.specs.Texts.{shown_ending, shown_number, shown_deco, shown_mention, texts_above};
ghost use Rattle.mus_words.specs.Texts.{texts_below, above_dy, below_dy, above_from, below_from, text_marks};
ghost use Rattle.mus_words.specs.Texts.{place_past};
ghost use Rattle.mus_laid.specs.Ranked.{inked};

use crate::words::{add_shown, put_words};
use mus_ink::distances::{HALF_CHARACTER, TEXT_GAP, TEXT_STEP, VERSE_STEP};
use mus_ink::drawing::cut_dy;
use mus_laid::{Lane, MarkPen};
use mus_score::{Flat, Mention};
use mus_units::{Deco, Memory, Row, Text};
use std::alloc::Global;

/// Where the texts of an event go: outside of `low` and `high`, the least and the greatest dy that other marks of the
/// staff take, in u; texts below the staff go under all `verses` of the staff; and all go after the texts that are
/// already in the column, `above` and `below` in number.
#[derive(Clone, Copy, PartialEq, Eq)]
pub struct TextPlace {
    pub low: i32,
    pub high: i32,
    pub verses: u8,
    pub above: usize,
    pub below: usize,
}

fn add_ending(alloc: Global, out: &mut Row<Text>, ending: &Option<Text>) -> Result<(), Memory>
    ensures { OnOk result (out.new ≡ out.old ++ shown_ending ending.now) }
{
    match ending {
        None => Ok(()),
        Some(text) => add_shown(alloc, out, text.as_slice()),
    }
}

fn add_number(alloc: Global, out: &mut Row<Text>, number: u8) -> Result<(), Memory>
    ensures { OnOk result (out.new ≡ out.old ++ shown_number number) }
{
    let digits = format!(in alloc; "{number}")?;
    add_shown(alloc, out, digits.as_bytes())
}

fn add_numbers(alloc: Global, out: &mut Row<Text>, tuplets: &[u8]) -> Result<(), Memory>
    ensures { OnOk result (out.new ≡ out.old ++ flat_map shown_number tuplets.now) }
{
    for number in tuplets {
        add_number(alloc, out, *number)?;
    }
    Ok(())
}

/// Adds a decoration as a text, if it is one on that side of the staff.
fn add_deco(alloc: Global, out: &mut Row<Text>, below: bool, deco: &Deco) -> Result<(), Memory>
    ensures { OnOk result (out.new ≡ out.old ++ shown_deco below deco.now) }
{
    match (below, deco) {
        (false, Deco::Above(text)) | (true, Deco::Below(text)) => {
            add_shown(alloc, out, text.as_slice())
        }
        _ => Ok(()),
    }
}

fn add_decos(alloc: Global, out: &mut Row<Text>, below: bool, decos: &[Deco]) -> Result<(), Memory>
    ensures { OnOk result (out.new ≡ out.old ++ flat_map (shown_deco below) decos.now) }
{
    for deco in decos {
        add_deco(alloc, out, below, deco)?;
    }
    Ok(())
}

/// Adds a text between quotes, if it is on that side of the staff.
fn add_mention(
    alloc: Global,
    out: &mut Row<Text>,
    below: bool,
    mention: &Mention,
) -> Result<(), Memory>
    ensures { OnOk result (out.new ≡ out.old ++ shown_mention below mention.now) }
{
    if mention.below == below {
        add_shown(alloc, out, mention.text.as_slice())
    } else {
        Ok(())
    }
}

fn add_mentions(
    alloc: Global,
    out: &mut Row<Text>,
    below: bool,
    mentions: &[Mention],
) -> Result<(), Memory>
    ensures { OnOk result (out.new ≡ out.old ++ flat_map (shown_mention below) mentions.now) }
{
    for mention in mentions {
        add_mention(alloc, out, below, mention)?;
    }
    Ok(())
}

/// Returns the printed texts above an event, from the staff upwards: its ending, the numbers of the tuplets that
/// begin there, its fingerings, and the texts between quotes. Texts that print nothing are left out. The only error
/// is out of memory.
#[tactic(auto, unfolding(crate::specs::Texts::texts_above))]
fn texts_above(alloc: Global, flat: &Flat<'_>) -> Result<Row<Text>, Memory>
    ensures { IfOk result (λ texts. texts ≡ texts_above flat.now) }
{
    let mut out = Row::new(alloc);
    add_ending(alloc, &mut out, &flat.event().ending)?;
    add_numbers(alloc, &mut out, flat.tuplets.as_slice())?;
    add_decos(alloc, &mut out, false, flat.event().decos.as_slice())?;
    add_mentions(alloc, &mut out, false, flat.event().mentions.as_slice())?;
    Ok(out)
}

/// Returns the printed texts below an event, from the staff downwards: its dynamic marks, and the texts between
/// quotes. Texts that print nothing are left out. The only error is out of memory.
#[tactic(auto, unfolding(crate::specs::Texts::texts_below))]
fn texts_below(alloc: Global, flat: &Flat<'_>) -> Result<Row<Text>, Memory>
    ensures { IfOk result (λ texts. texts ≡ texts_below flat.now) }
{
    let mut out = Row::new(alloc);
    add_decos(alloc, &mut out, true, flat.event().decos.as_slice())?;
    add_mentions(alloc, &mut out, true, flat.event().mentions.as_slice())?;
    Ok(out)
}

/// Returns how many texts are nearer to the staff than the k-th of an event, given `before` texts before the event.
/// At most 2^32 of each are counted, since the dy after that many is clamped.
fn nearer(before: usize, k: usize) -> u64
    ensures value { result ≡ min before 4294967296 + min k 4294967296 }
    ensures most { result ≤ 8589934592 }
{
    before.min(1 << 32) as u64 + k.min(1 << 32) as u64
}

/// Returns the dy of a text above the staff, given how many texts are nearer.
#[tactic(auto, unfolding(crate::specs::Texts::above_dy))]
fn above_others(high: i32, others: u64) -> i32
    requires { others ≤ 8589934592 }
    ensures { result ≡ above_dy high others }
{
    cut_dy(i64::from(high) + TEXT_GAP + TEXT_STEP * others as i64)
}

/// Returns the dy of the k-th text above of an event.
#[tactic(auto, using(crate::proofs::Far::far_above))]
fn above_dy(high: i32, before: usize, k: usize) -> i32
    ensures { result ≡ above_dy high (before + k) }
{
    above_others(high, nearer(before, k))
}

/// Returns how far a text below is under the lowest mark, given how many texts are nearer.
fn under_verses(verses: u8, others: u64) -> u64
    requires { others ≤ 8589934592 }
    ensures value { result ≡ verse_step * verses + text_step * (1 + others) }
    ensures most { result ≤ 9000000000000 }
{
    VERSE_STEP as u64 * u64::from(verses) + TEXT_STEP as u64 * (1 + others)
}

fn lowered(low: i32, under: u64) -> i64
    requires { under ≤ 9000000000000 }
    ensures { result ≡ low -ℤ pos under }
{
    i64::from(low) - under as i64
}

/// Returns the dy of a text below the staff, given how many texts are nearer.
#[tactic(auto, unfolding(crate::specs::Texts::below_dy))]
fn below_others(low: i32, verses: u8, others: u64) -> i32
    requires { others ≤ 8589934592 }
    ensures { result ≡ below_dy low verses others }
{
    cut_dy(lowered(low, under_verses(verses, others)))
}

/// Returns the dy of the k-th text below of an event.
#[tactic(auto, using(crate::proofs::Far::far_below))]
fn below_dy(low: i32, verses: u8, before: usize, k: usize) -> i32
    ensures { result ≡ below_dy low verses (before + k) }
{
    below_others(low, verses, nearer(before, k))
}

fn put_above(pen: &mut MarkPen, high: i32, before: usize, texts: Row<Text>) -> Result<(), Memory>
    ensures { OnOk result (pen.new ≡ inked pen.old (above_from high before texts)) }
{
    for (k, text) in texts.items.into_iter().enumerate() {
        put_words(
            pen,
            Lane::Above,
            -HALF_CHARACTER,
            above_dy(high, before, k),
            text,
        )?;
    }
    Ok(())
}

fn put_below(
    pen: &mut MarkPen,
    low: i32,
    verses: u8,
    before: usize,
    texts: Row<Text>,
) -> Result<(), Memory>
    ensures { OnOk result (pen.new ≡ inked pen.old (below_from low verses before texts)) }
{
    for (k, text) in texts.items.into_iter().enumerate() {
        put_words(
            pen,
            Lane::Below,
            -HALF_CHARACTER,
            below_dy(low, verses, before, k),
            text,
        )?;
    }
    Ok(())
}

/// Returns the place of further texts in a column, after the texts that it has above and below.
fn place_past(place: TextPlace, above: usize, below: usize) -> Result<TextPlace, Memory>
    ensures { IfOk result (λ p. p ≡ place_past place above below) }
{
    Ok(TextPlace {
        low: place.low,
        high: place.high,
        verses: place.verses,
        above: place.above.checked_add(above).ok_or(Memory)?,
        below: place.below.checked_add(below).ok_or(Memory)?,
    })
}

/// Draws the texts of an event, 270 u to the left of its column: first those above, the first of a column at `high` +
/// 400 and each next one 1000 u higher, then those below, the first 1000 u under the last verse and each next one
/// 1000 u lower. A text that prints nothing is no mark and takes no place. Each dy is clamped to ±2^30 u. Returns the
/// place of further texts in the column. The only error is out of memory.
#[tactic(auto, unfolding(crate::specs::Texts::text_marks))]
pub fn put_texts(pen: &mut MarkPen, place: TextPlace, flat: &Flat<'_>) -> Result<TextPlace, Memory>
    ensures drawn { OnOk result (pen.new ≡ inked pen.old (text_marks place flat.now)) }
    ensures place { IfOk result
        (λ p. p ≡ place_past place (length (texts_above flat.now)) (length (texts_below flat.now))) }
{
    let above = texts_above(pen.alloc, flat)?;
    let below = texts_below(pen.alloc, flat)?;
    let further = place_past(place, above.len(), below.len())?;
    put_above(pen, place.high, place.above, above)?;
    put_below(pen, place.low, place.verses, place.below, below)?;
    Ok(further)
}
