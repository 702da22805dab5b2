ghost use Rattle.std.specs.Prelude.{◌≡◌, ◌≤◌, ◌++◌, ◌∷◌, ◌-ℤ◌, ◌≤ℤ◌, pos, negsuc, ℕ, ℤ, List, Some, true};
ghost use Rattle.std.specs.Prelude.{if◌then◌else◌, IfOk, IsTrue, MatchOption, length, ◌==◌, ◌↔◌};
ghost use Rattle.std.specs.List.{AllByRecursion, flat_map, list_all};
ghost use Rattle.std.specs.Str.{bytes_eq};
ghost use Rattle.glyph_paths.specs.Characters.{close_parenthesis, space};
ghost use Rattle.glyph_paths.specs.Names.{glyph_name};
ghost use Rattle.glyph_paths.specs.Procedure.{numbers};
ghost use Rattle.ps_text.specs.declared.marks.PageMark.{PageMark};
ghost use Rattle.ps_text.specs.Fields.{shown};
ghost use Rattle.ps_text.specs.Line.{mark_line};
ghost use Rattle.ps_text.specs.Range.{IsNumber, IsPageMark, is_shown};
ghost use Rattle.ps_text.specs.Scanning.{is_field_byte};
ghost use Rattle.ps_text.specs.Reading.{is_small, glyph_named, glyph_at, glyph_from, words_at, size_named, words_from};
ghost use Rattle.ps_text.specs.Reading.{stem_at, stem_from, offset_from, beam_at, beam_from, arc_at, arc_from};
ghost use Rattle.ps_text.specs.Reading.{mark_from};

use crate::marks::PageMark;
use crate::scanning::take_numbers;
use crate::words::take_words;
use crate::writing::write_op;
use glyph_paths::{all_glyphs, name_of};
use mus_units::bytes::is_same;
use mus_units::{Glyph, Memory, Size, Text, Way};
use std::alloc::Global;

/// Returns whether a number is a signed one of 32 bits.
#[tactic(auto, unfolding(crate::specs::Reading::is_small))]
fn is_small(z: i64) -> bool
    ensures { result ≡ is_small z }
{
    -2_147_483_648 <= z && z <= 2_147_483_647
}

/// Returns a number as a signed one of 32 bits, if it is one.
fn narrowed(z: i64) -> i32
    requires { is_small z ≡ true }
    ensures { result ≡ z }
{
    z as i32
}

/// Returns the glyph of a name.
#[tactic(auto, unfolding(crate::specs::Reading::glyph_named))]
fn glyph_named(name: &[u8]) -> Option<Glyph>
    ensures { result ≡ glyph_named name.now }
{
    all_glyphs()
        .iter()
        .copied()
        .find(|g| is_same(name_of(*g), name))
}

#[tactic(auto, unfolding(crate::specs::Reading::glyph_at))]
fn glyph_at(glyph: Glyph, dx: i64, dy: i64, x: i64) -> Option<PageMark>
    ensures { result ≡ glyph_at glyph dx dy x }
{
    if is_small(dx) && is_small(dy) {
        Some(PageMark::Glyph {
            glyph,
            x,
            dx: narrowed(dx),
            dy: narrowed(dy),
        })
    } else {
        None
    }
}

/// Returns the glyph that four numbers may place.
fn glyph_from(zs: &[i64], glyph: Option<Glyph>) -> Option<PageMark>
    ensures { result ≡ glyph_from zs.now glyph }
{
    let glyph = glyph?;
    if zs.len() == 4 {
        glyph_at(glyph, zs[0], zs[1], zs[2])
    } else {
        None
    }
}

#[tactic(auto, unfolding(crate::specs::Reading::words_at))]
fn words_at(size: Size, text: Text, dx: i64, dy: i64, x: i64) -> Option<PageMark>
    ensures { result ≡ words_at size text dx dy x }
{
    if is_small(dx) && is_small(dy) {
        Some(PageMark::Words {
            size,
            x,
            dx: narrowed(dx),
            dy: narrowed(dy),
            text,
        })
    } else {
        None
    }
}

fn size_named(name: &[u8]) -> Size
    ensures { result ≡ size_named name.now }
{
    if is_same(name, b"t2") {
        Size::Big
    } else {
        Size::Small
    }
}

/// Returns the words that four numbers and a name may place.
#[tactic(auto, unfolding(crate::specs::Reading::words_from))]
fn words_from(text: Text, zs: &[i64], name: &[u8]) -> Option<PageMark>
    ensures { result ≡ words_from text zs.now name.now }
{
    if zs.len() == 4 {
        words_at(size_named(name), text, zs[0], zs[1], zs[2])
    } else {
        None
    }
}

#[tactic(auto, unfolding(crate::specs::Reading::stem_at))]
fn stem_at(dx: i64, to: i64, from: i64, x: i64) -> Option<PageMark>
    ensures { result ≡ stem_at dx to from x }
{
    if is_small(dx) && is_small(to) && is_small(from) {
        Some(PageMark::Stem {
            x,
            dx: narrowed(dx),
            from: narrowed(from),
            to: narrowed(to),
        })
    } else {
        None
    }
}

/// Returns the stem that six numbers may be.
#[tactic(auto, unfolding(crate::specs::Reading::stem_from))]
fn stem_from(zs: &[i64]) -> Option<PageMark>
    ensures { result ≡ stem_from zs.now }
{
    if zs.len() == 6 {
        stem_at(zs[0], zs[1], zs[3], zs[4])
    } else {
        None
    }
}

/// Returns how far one number is above another, if that is a signed number of 32 bits.
#[tactic(auto, unfolding(crate::specs::Reading::offset_from))]
fn offset_from(z: i64, y: i64) -> Option<i32>
    ensures { result ≡ offset_from z y }
{
    let Some(offset) = z.checked_sub(y) else {
        return None;
    };
    if is_small(offset) {
        Some(narrowed(offset))
    } else {
        None
    }
}

fn beam_at(way: Way, x1: i64, x2: i64, from: Option<i32>, to: Option<i32>) -> Option<PageMark>
    ensures { result ≡ beam_at way x1 x2 from to }
{
    match (from, to) {
        (Some(from), Some(to)) => Some(PageMark::Beam {
            way,
            x1,
            x2,
            from,
            to,
        }),
        _ => None,
    }
}

/// Returns the beam that eight numbers may be on a staff at `y`.
#[tactic(auto, unfolding(crate::specs::Reading::beam_from))]
fn beam_from(way: Way, y: i64, zs: &[i64]) -> Option<PageMark>
    ensures { result ≡ beam_from way y zs.now }
{
    if zs.len() == 8 {
        beam_at(
            way,
            zs[6],
            zs[4],
            offset_from(zs[7], y),
            offset_from(zs[5], y),
        )
    } else {
        None
    }
}

fn arc_at(
    x1: i64,
    x2: i64,
    from: Option<i32>,
    to: Option<i32>,
    bulge: Option<i32>,
) -> Option<PageMark>
    ensures { result ≡ arc_at x1 x2 from to bulge }
{
    match (from, to, bulge) {
        (Some(from), Some(to), Some(bulge)) => Some(PageMark::Arc {
            x1,
            x2,
            from,
            to,
            bulge,
        }),
        _ => None,
    }
}

/// Returns the arc that eight numbers may be on a staff at `y`.
#[tactic(auto, unfolding(crate::specs::Reading::arc_from))]
fn arc_from(y: i64, zs: &[i64]) -> Option<PageMark>
    ensures { result ≡ arc_from y zs.now }
{
    if zs.len() == 8 {
        arc_at(
            zs[6],
            zs[4],
            offset_from(zs[7], y),
            offset_from(zs[5], y),
            offset_from(zs[1], zs[7]),
        )
    } else {
        None
    }
}

/// Returns the mark that numbers and a name may be on a staff at `y`.
#[tactic(auto, unfolding(crate::specs::Reading::mark_from))]
fn mark_from(y: i64, zs: &[i64], name: &[u8]) -> Option<PageMark>
    ensures { result ≡ mark_from y zs.now name.now }
{
    if is_same(name, b"st") {
        stem_from(zs)
    } else if is_same(name, b"ac") {
        arc_from(y, zs)
    } else if is_same(name, b"bu") {
        beam_from(Way::Up, y, zs)
    } else if is_same(name, b"bd") {
        beam_from(Way::Down, y, zs)
    } else if is_same(name, b"gb") {
        beam_from(Way::Grace, y, zs)
    } else {
        glyph_from(zs, glyph_named(name))
    }
}

/// Returns the mark that a line without words may be.
fn mark_without_words(alloc: Global, line: &[u8], y: i64) -> Result<Option<PageMark>, Memory>
    ensures { IfOk result (λ o.
        (zs : List ℤ) (name : List ℕ)
        → AllByRecursion IsNumber zs → list_all is_field_byte name ≡ true → line.now ≡ numbers zs ++ name
        → o ≡ mark_from y zs name) }
{
    let (zs, name) = take_numbers(alloc, line)?;
    Ok(mark_from(y, zs.as_slice(), name))
}

/// Returns the mark that a line may be, given its bytes after the opening parenthesis.
fn mark_of_words(alloc: Global, line: &[u8]) -> Result<Option<PageMark>, Memory>
    ensures { IfOk result (λ o.
        (words : List ℕ) (zs : List ℤ) (name : List ℕ)
        → IsTrue (list_all is_shown words) → AllByRecursion IsNumber zs → list_all is_field_byte name ≡ true
        → line.now ≡ flat_map shown words ++ close_parenthesis ∷ space ∷ (numbers zs ++ name)
        → o ≡ words_from words zs name) }
{
    let (text, rest) = take_words(alloc, line)?;
    let [_, _, rest @ ..] = rest else {
        return Ok(None);
    };
    let (zs, name) = take_numbers(alloc, rest)?;
    Ok(words_from(text, zs.as_slice(), name))
}

/// Returns the mark that a line may be. If a mark spells the line, it is that one.
fn mark_in(alloc: Global, line: &[u8], y: i64) -> Result<Option<PageMark>, Memory>
    ensures { IfOk result (λ o. (m : PageMark) → IsPageMark y m → mark_line y m ≡ line.now → o ≡ Some m) }
{
    let Some((first, words)) = line.split_first() else {
        return Ok(None);
    };
    if *first == b'(' {
        return mark_of_words(alloc, words);
    }
    mark_without_words(alloc, line, y)
}

/// Returns whether a mark may be on a staff at `y` and spells the line there.
fn is_spelled(alloc: Global, m: &PageMark, y: i64, line: &[u8]) -> Result<bool, Memory>
    ensures { IfOk result (λ is. IsTrue is ↔ (IsPageMark y m.now × (mark_line y m.now ≡ line.now))) }
{
    match write_op(alloc, m, y)? {
        Some(text) => Ok(is_same(text.as_slice(), line)),
        None => Ok(false),
    }
}

/// Returns the one mark that spells a line, without its LF, on a staff at `y`; `None` exactly when
/// no mark does.
pub fn read_op(alloc: Global, line: &[u8], y: i64) -> Result<Option<PageMark>, Memory>
    ensures mark { IfOk result (λ o.
        MatchOption o ((m : PageMark) → IsPageMark y m → mark_line y m ≡ line.now → ⊥)
        (λ m. IsPageMark y m × (mark_line y m ≡ line.now))) }
    ensures one { IfOk result (λ o. (m : PageMark) → IsPageMark y m → mark_line y m ≡ line.now → o ≡ Some m) }
{
    let Some(m) = mark_in(alloc, line, y)? else {
        return Ok(None);
    };
    if is_spelled(alloc, &m, y, line)? {
        Ok(Some(m))
    } else {
        Ok(None)
    }
}
