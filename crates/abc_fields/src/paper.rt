ghost use Rattle.std.specs.Prelude.{◌≡◌, ◌≤◌, IfSome, codes, unwrap_or};
ghost use Rattle.abc_field.specs.Last.{last_of};
ghost use Rattle.abc_fields.specs.declared.paper.Paper.{Paper};
ghost use Rattle.abc_fields.specs.FileHeader.{IsPaperBy};
ghost use Rattle.abc_fields.specs.Papers.{line_length, line_scale, length_in, scale_in, default_paper, stated, left_by};
ghost use Rattle.abc_fields.specs.Papers.{body_width, body_height, is_wide_enough, paper_of, IsGoodPaper, IsSmallPaper};

use crate::defaults::said_by;
use crate::length::{read_length, read_scale};
use abc_lines::{Book, Line};

/// The paper: its size and margins in hundredths of a point, and the scale in percent.
#[derive(Clone, Copy, PartialEq, Eq)]
pub struct Paper {
    pub wide: u32,
    pub high: u32,
    pub left: u32,
    pub right: u32,
    pub top: u32,
    pub bottom: u32,
    pub scale: u16,
}

/// Returns the paper that the file header states: the last good value of each directive. If the body would be less
/// than 10,000 wide or high, all values are the defaults. Takes no memory.
pub fn read_paper(book: &Book) -> Paper
    ensures states { IsPaperBy book.now.header result }
    ensures only { (paper : Paper) → IsPaperBy book.now.header paper → paper ≡ result }
    ensures value { result ≡ paper_of book.now.header }
    ensures good { IsGoodPaper result }
{
    paper_of(book)
}

#[tactic(auto, unfolding(crate::specs::Papers::paper_of))]
fn paper_of(book: &Book) -> Paper
    ensures value { result ≡ paper_of book.now.header }
    ensures good { IsGoodPaper result }
{
    let paper = stated(book.header.as_slice());
    if is_wide_enough(&paper) {
        paper
    } else {
        default_paper()
    }
}

/// Returns the width and height of the body: what the margins leave, in hundredths of a point as scaled. Takes no
/// memory.
pub fn body_of(p: &Paper) -> (u32, u32)
    requires { IsGoodPaper p.now }
    ensures { result ≡ (body_width p.now, body_height p.now) }
{
    (body_width(p), body_height(p))
}

fn default_paper() -> Paper
    ensures value { result ≡ default_paper }
    ensures good { IsGoodPaper result }
{
    Paper {
        wide: 59_500,
        high: 84_200,
        left: 5_100,
        right: 5_100,
        top: 2_800,
        bottom: 2_800,
        scale: 100,
    }
}

fn stated(lines: &[Line]) -> Paper
    ensures value { result ≡ stated lines.now }
    ensures small { IsSmallPaper result }
{
    Paper {
        wide: length_in(b"pagewidth", 59_500, lines),
        high: length_in(b"pageheight", 84_200, lines),
        left: length_in(b"leftmargin", 5_100, lines),
        right: length_in(b"rightmargin", 5_100, lines),
        top: length_in(b"topmargin", 2_800, lines),
        bottom: length_in(b"botmargin", 2_800, lines),
        scale: scale_in(lines),
    }
}

fn is_wide_enough(p: &Paper) -> bool
    requires { IsSmallPaper p.now }
    ensures { result ≡ is_wide_enough p.now }
{
    10_000 <= body_width(p) && 10_000 <= body_height(p)
}

fn body_width(p: &Paper) -> u32
    requires { IsSmallPaper p.now }
    ensures { result ≡ body_width p.now }
{
    left_by(p.wide, p.left, p.right, p.scale)
}

fn body_height(p: &Paper) -> u32
    requires { IsSmallPaper p.now }
    ensures { result ≡ body_height p.now }
{
    left_by(p.high, p.top, p.bottom, p.scale)
}

/// Returns what two margins leave, in units of the scale.
fn left_by(whole: u32, one: u32, other: u32, scale: u16) -> u32
    requires whole { whole ≤ 100000 }
    requires one { one ≤ 100000 }
    requires other { other ≤ 100000 }
    requires scale { 40 ≤ scale }
    ensures { result ≡ left_by whole one other scale }
{
    whole.saturating_sub(one + other) * 100 / u32::from(scale)
}

/// Returns the last length that a directive of that name states, or the default.
#[tactic(auto, unfolding(crate::specs::Papers::length_in))]
fn length_in(name: &[u8], default: u32, lines: &[Line]) -> u32
    requires { default ≤ 100000 }
    ensures value { result ≡ length_in name.now default lines.now }
    ensures small { result ≤ 100000 }
{
    last_length(name, lines).unwrap_or(default)
}

fn last_length(name: &[u8], lines: &[Line]) -> Option<u32>
    ensures value { result ≡ last_of (line_length name.now) lines.now }
    ensures small { IfSome result (λ u. u ≤ 100000) }
{
    let mut last = None;
    for line in lines {
        last = line_length(name, line).or(last);
    }
    last
}

#[tactic(auto, unfolding(crate::specs::Papers::line_length))]
fn line_length(name: &[u8], line: &Line) -> Option<u32>
    ensures value { result ≡ line_length name.now line.now }
    ensures small { IfSome result (λ u. u ≤ 100000) }
{
    match said_by(name, line) {
        Some(rest) => read_length(rest),
        None => None,
    }
}

#[tactic(auto, unfolding(crate::specs::Papers::scale_in))]
fn scale_in(lines: &[Line]) -> u16
    ensures value { result ≡ scale_in lines.now }
    ensures low { 40 ≤ result }
    ensures high { result ≤ 150 }
{
    last_scale(lines).unwrap_or(100)
}

fn last_scale(lines: &[Line]) -> Option<u16>
    ensures value { result ≡ last_of line_scale lines.now }
    ensures low { IfSome result (λ v. 40 ≤ v) }
    ensures high { IfSome result (λ v. v ≤ 150) }
{
    let mut last = None;
    for line in lines {
        last = line_scale(line).or(last);
    }
    last
}

#[tactic(auto, unfolding(crate::specs::Papers::line_scale))]
fn line_scale(line: &Line) -> Option<u16>
    ensures value { result ≡ line_scale line.now }
    ensures low { IfSome result (λ v. 40 ≤ v) }
    ensures high { IfSome result (λ v. v ≤ 150) }
{
    match said_by(b"scale", line) {
        Some(rest) => read_scale(rest),
        None => None,
    }
}
