ghost use Rattle.std.specs.Prelude.{◌≡◌, ◌≤◌, ◌+◌, ◌*◌, ◌-◌, ◌/◌, ◌^◌, min, length, IfOk, OnOk, pos};
ghost use Rattle.std.specs.Option.{option_copied};
ghost use Rattle.mus_laid.specs.Boxes.{character_width};
ghost use Rattle.lay_pages.specs.Distances.{big_row, big_base};
ghost use Rattle.lay_pages.specs.Titles.{row_height, base_below, size_at, most_within, row_text, row_x, title_row_at};
ghost use Rattle.lay_pages.specs.Titles.{with_row, with_text, with_texts, tempo_texts, no_rows, title_block_of};

use crate::distances::{BIG_BASE, BIG_ROW, SMALL_BASE, SMALL_ROW};
use mus_laid::{character_width, printed_within};
use mus_units::{Memory, Row, Size, Text};
use std::alloc::Global;
use std::cmp::min;

/// The alignment of a row of a title block.
#[derive(Clone, Copy, PartialEq, Eq)]
pub enum Alignment {
    Middle,
    Right,
    Left,
}

/// A row of a title block: its text begins at `x`, its base line is `down` u below the top of the
/// block.
#[derive(Drop)]
pub struct TitleRow {
    pub size: Size,
    pub x: i64,
    pub down: i64,
    pub text: Text,
}

/// The rows above the first system of a tune, and their total height, in u.
#[derive(Drop)]
pub struct TitleBlock {
    pub rows: Row<TitleRow>,
    pub height: u64,
}

/// Returns the title block of a tune on a body that is `width` u wide: the titles in the middle,
/// big; the composers at the right; the tempo at the left. A row is cut to what the width holds and
/// to 60 characters. A text of which nothing is printed has no row.
pub fn title_block(
    alloc: Global,
    width: u32,
    titles: &[Text],
    composers: &[Text],
    tempo: Option<&Text>,
) -> Result<TitleBlock, Memory>
    requires titles { length titles.now ≤ 2 ^ 32 }
    requires composers { length composers.now ≤ 2 ^ 32 }
    ensures { IfOk result (λ block. block ≡ title_block_of width titles.now composers.now (option_copied tempo.entry)) }
{
    let mut block = TitleBlock {
        rows: Row::new(alloc),
        height: 0,
    };
    put_texts(alloc, width, Alignment::Middle, titles, &mut block)?;
    put_texts(alloc, width, Alignment::Right, composers, &mut block)?;
    if let Some(text) = tempo {
        put_text(alloc, width, Alignment::Left, text.as_slice(), &mut block)?;
    }
    Ok(block)
}

fn put_texts(
    alloc: Global,
    width: u32,
    place: Alignment,
    texts: &[Text],
    block: &mut TitleBlock,
) -> Result<(), Memory>
    requires few { length texts.now ≤ 2 ^ 32 }
    requires low { block.old.height ≤ 2 ^ 47 }
    ensures value { OnOk result (block.new ≡ with_texts width place block.old texts.now) }
    ensures within { OnOk result (block.new.height ≤ block.old.height + big_row * length texts.now) }
{
    for text in texts {
        put_text(alloc, width, place, text.as_slice(), block)?;
    }
    Ok(())
}

/// Adds a row for a text, unless nothing is printed of it.
fn put_text(
    alloc: Global,
    width: u32,
    place: Alignment,
    text: &[u8],
    block: &mut TitleBlock,
) -> Result<(), Memory>
    requires { block.old.height ≤ 2 ^ 50 }
    ensures value { OnOk result (block.new ≡ with_text width place block.old text.now) }
    ensures within { OnOk result (block.new.height ≤ block.old.height + big_row) }
{
    let text = row_text(alloc, width, place, text)?;
    put_row(width, place, text, block)
}

fn put_row(width: u32, place: Alignment, text: Text, block: &mut TitleBlock) -> Result<(), Memory>
    requires low { block.old.height ≤ 2 ^ 50 }
    requires short { length text ≤ most_within width (size_at place) }
    ensures value { OnOk result (block.new ≡ with_row width block.old place text) }
    ensures within { OnOk result (block.new.height ≤ block.old.height + big_row) }
{
    if text.len() == 0 {
        return Ok(());
    }
    let height = block.height;
    let size = size_at(place);
    block.rows.push(TitleRow {
        size,
        x: row_x(width, place, text.len()),
        down: (height + base_below(size)) as i64,
        text,
    })?;
    block.height = height + row_height(size);
    Ok(())
}

/// Returns the text of a row as printed, cut to what the width holds.
#[tactic(auto, unfolding(crate::specs::Titles::row_text))]
fn row_text(alloc: Global, width: u32, place: Alignment, text: &[u8]) -> Result<Text, Memory>
    ensures value { IfOk result (λ t. t ≡ row_text width place text.now) }
    ensures within { IfOk result (λ t. length t ≤ most_within width (size_at place)) }
{
    printed_within(alloc, most_within(width, size_at(place)), text)
}

fn size_at(place: Alignment) -> Size
    ensures { result ≡ size_at place }
{
    match place {
        Alignment::Middle => Size::Big,
        Alignment::Right => Size::Small,
        Alignment::Left => Size::Small,
    }
}

fn row_height(size: Size) -> u64
    ensures value { result ≡ row_height size }
    ensures most { result ≤ big_row }
{
    match size {
        Size::Big => BIG_ROW,
        Size::Small => SMALL_ROW,
    }
}

fn base_below(size: Size) -> u64
    ensures value { result ≡ base_below size }
    ensures most { result ≤ big_base }
{
    match size {
        Size::Big => BIG_BASE,
        Size::Small => SMALL_BASE,
    }
}

fn most_within(width: u32, size: Size) -> usize
    ensures { result ≡ most_within width size }
{
    min(60, width / character_width(size)) as usize
}

/// Returns where a row begins, from the left of the body.
fn row_x(width: u32, place: Alignment, count: usize) -> i64
    requires { count ≤ most_within width (size_at place) }
    ensures { result ≡ pos (row_x width place count) }
{
    match place {
        Alignment::Middle => i64::from((width - character_width(Size::Big) * count as u32) / 2),
        Alignment::Right => i64::from(width - character_width(Size::Small) * count as u32),
        Alignment::Left => 0,
    }
}
