ghost use Rattle.std.specs.Prelude.{◌≡◌, ℕ, ℤ, pos, ◌+◌, ◌<◌, ◌≤◌, ◌^◌, List, [], ◌∷◌, Some, MatchOption, IfOk, IfSome};
ghost use Rattle.std.specs.Prelude.{Decides};
ghost use Rattle.mus_units.specs.Distances.{fourth_line, second_line, third_line, top_line};
ghost use Rattle.mus_units.specs.declared.glyph.Size.{Size};
ghost use Rattle.ps_text.specs.Document.{title_line, join_line, rules_line, heading_line, staff_line, count_line};
ghost use Rattle.ps_text.specs.Names.{size_name};
ghost use Rattle.ps_text.specs.Range.{IsNumber, IsTitle};
ghost use Rattle.ps_read.specs.Titles.{title_of, rules_of, joined_of, IsTitleRead, IsJoinRead, IsRulesRead};

use crate::state::Joined;
use eng_lines::strip;
use mus_units::{Memory, Size, Text};
use ps_text::document::{
    put_count_line, put_heading_line, put_join_line, put_rules, put_staff_line, put_title_line,
};
use ps_text::range::{are_page_numbers, can_show, is_page_number};
use ps_text::scanning::take_numbers;
use ps_text::words::take_words;
use std::alloc::Global;

/// A row of a title block.
#[derive(Drop)]
pub struct Title {
    pub x: i64,
    pub y: i64,
    pub size: Size,
    pub text: Text,
}

/// The five lines of a staff: their length and the height of the lowest.
#[derive(Clone, Copy, PartialEq, Eq)]
pub struct Rules {
    pub width: u32,
    pub y: i64,
}

/// Returns whether the line is this text.
pub fn is_text(raw: &[u8], text: &[u8]) -> bool
    ensures { Decides result (raw.now ≡ text.now) }
{
    raw == text
}

/// Returns whether the line begins page `k`.
pub fn is_heading(alloc: Global, raw: &[u8], k: u64) -> Result<bool, Memory>
    ensures { IfOk result (λ r. Decides r (raw.now ≡ heading_line k)) }
{
    let mut line = Text::new(alloc);
    put_heading_line(&mut line, k)?;
    Ok(line.as_slice() == raw)
}

/// Returns whether the line numbers staff `k`.
pub fn is_staff_line(alloc: Global, raw: &[u8], k: u64) -> Result<bool, Memory>
    ensures { IfOk result (λ r. Decides r (raw.now ≡ staff_line k)) }
{
    let mut line = Text::new(alloc);
    put_staff_line(&mut line, k)?;
    Ok(line.as_slice() == raw)
}

/// Returns whether the line says that there are `n` pages.
pub fn is_count(alloc: Global, raw: &[u8], n: u64) -> Result<bool, Memory>
    ensures { IfOk result (λ r. Decides r (raw.now ≡ count_line n)) }
{
    let mut line = Text::new(alloc);
    put_count_line(&mut line, n)?;
    Ok(line.as_slice() == raw)
}

fn title_of(text: Text, zs: &[i64], name: &[u8]) -> Option<Title>
    ensures { (x y : ℤ) (size : Size)
        → zs.now ≡ pos 0 ∷ pos 0 ∷ x ∷ y ∷ [] → name.now ≡ size_name size → result ≡ Some (title_of x y size text) }
{
    let [_, _, x, y] = zs else {
        return None;
    };
    let size = if name == b"t2".as_slice() {
        Size::Big
    } else {
        Size::Small
    };
    Some(Title {
        x: *x,
        y: *y,
        size,
        text,
    })
}

/// Returns the title that a line may spell.
fn scan_title(alloc: Global, raw: &[u8]) -> Result<Option<Title>, Memory>
    ensures { IfOk result (λ o.
        (x y : ℤ) (size : Size) (words : List ℕ)
        → IsTitle x y words → raw.now ≡ title_line x y size words → o ≡ Some (title_of x y size words)) }
{
    let Some(shown) = strip(b"(", raw) else {
        return Ok(None);
    };
    let (text, rest) = take_words(alloc, shown)?;
    let Some(numbers) = strip(b") ", rest) else {
        return Ok(None);
    };
    let (zs, name) = take_numbers(alloc, numbers)?;
    Ok(title_of(text, zs.as_slice(), name))
}

fn is_title(x: i64, y: i64, words: &[u8]) -> bool
    ensures { Decides result (IsTitle x y words.now) }
{
    are_page_numbers(x, y) && can_show(words)
}

fn is_title_line(alloc: Global, raw: &[u8], title: &Title) -> Result<bool, Memory>
    ensures { IfOk result
        (λ r. Decides r (raw.now ≡ title_line title.now.x title.now.y title.now.size title.now.text)) }
{
    let mut line = Text::new(alloc);
    put_title_line(
        &mut line,
        title.x,
        title.y,
        title.size,
        title.text.as_slice(),
    )?;
    Ok(line.as_slice() == raw)
}

/// Returns the title that the line spells.
pub fn read_title(alloc: Global, raw: &[u8]) -> Result<Option<Title>, Memory>
    ensures { IfOk result (IsTitleRead raw.now) }
{
    let Some(title) = scan_title(alloc, raw)? else {
        return Ok(None);
    };
    if !is_title(title.x, title.y, title.text.as_slice()) {
        return Ok(None);
    }
    if !is_title_line(alloc, raw, &title)? {
        return Ok(None);
    }
    Ok(Some(title))
}

fn joined_of(zs: &[i64]) -> Option<Joined>
    ensures { (top foot : ℤ) → zs.now ≡ pos 0 ∷ top ∷ pos 0 ∷ foot ∷ [] → result ≡ Some (joined_of top foot) }
{
    match zs {
        [_, top, _, foot] => Some(Joined {
            top: *top,
            foot: *foot,
        }),
        _ => None,
    }
}

/// Returns the joining line of staves that a line may spell.
fn scan_join(alloc: Global, raw: &[u8]) -> Result<Option<Joined>, Memory>
    ensures { IfOk result (λ o.
        (top foot : ℤ) → IsNumber top → IsNumber foot → raw.now ≡ join_line top foot → o ≡ Some (joined_of top foot)) }
{
    let (zs, _) = take_numbers(alloc, raw)?;
    Ok(joined_of(zs.as_slice()))
}

fn is_join_line(alloc: Global, raw: &[u8], join: Joined) -> Result<bool, Memory>
    ensures { IfOk result (λ r. Decides r (raw.now ≡ join_line join.top join.foot)) }
{
    let mut line = Text::new(alloc);
    put_join_line(&mut line, join.top, join.foot)?;
    Ok(line.as_slice() == raw)
}

/// Returns the joining line of staves that the line spells.
pub fn read_join(alloc: Global, raw: &[u8]) -> Result<Option<Joined>, Memory>
    ensures { IfOk result (IsJoinRead raw.now) }
{
    let Some(join) = scan_join(alloc, raw)? else {
        return Ok(None);
    };
    if !are_page_numbers(join.top, join.foot) {
        return Ok(None);
    }
    if !is_join_line(alloc, raw, join)? {
        return Ok(None);
    }
    Ok(Some(join))
}

fn rules_of(zs: &[i64]) -> Option<Rules>
    ensures right { (w : ℕ) (y : ℤ)
        → 1 ≤ w → w ≤ 2 ^ 31
        → zs.now
        ≡ pos w ∷ pos top_line ∷ pos w ∷ pos fourth_line ∷ pos w ∷ pos third_line ∷ pos w ∷ pos second_line ∷ pos w
        ∷ pos 0 ∷ pos 0 ∷ y ∷ []
        → result ≡ Some (rules_of w y) }
    ensures range { IfSome result (λ r. (1 ≤ r.width) × (r.width ≤ 2 ^ 31)) }
{
    match zs {
        [w, _, _, _, _, _, _, _, _, _, _, y] => {
            if *w < 1 || 1 << 31 < *w {
                return None;
            }
            Some(Rules {
                width: *w as u32,
                y: *y,
            })
        }
        _ => None,
    }
}

/// Returns the staff lines that a line may spell.
fn scan_rules(alloc: Global, raw: &[u8]) -> Result<Option<Rules>, Memory>
    ensures right { IfOk result
        (λ o. (w : ℕ) (y : ℤ) → 1 ≤ w → w ≤ 2 ^ 31 → IsNumber y → raw.now ≡ rules_line w y → o ≡ Some (rules_of w y)) }
    ensures range { IfOk result (λ o. IfSome o (λ r. (1 ≤ r.width) × (r.width ≤ 2 ^ 31))) }
{
    let (zs, _) = take_numbers(alloc, raw)?;
    Ok(rules_of(zs.as_slice()))
}

fn is_rules_line(alloc: Global, raw: &[u8], rules: Rules) -> Result<bool, Memory>
    ensures { IfOk result (λ r. Decides r (raw.now ≡ rules_line rules.width rules.y)) }
{
    let mut line = Text::new(alloc);
    put_rules(&mut line, rules.width, rules.y)?;
    Ok(line.as_slice() == raw)
}

/// Returns the staff lines that the line spells.
pub fn read_rules(alloc: Global, raw: &[u8]) -> Result<Option<Rules>, Memory>
    ensures { IfOk result (IsRulesRead raw.now) }
{
    let Some(rules) = scan_rules(alloc, raw)? else {
        return Ok(None);
    };
    if !is_page_number(rules.y) {
        return Ok(None);
    }
    if !is_rules_line(alloc, raw, rules)? {
        return Ok(None);
    }
    Ok(Some(rules))
}
