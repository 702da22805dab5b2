ghost use Rattle.mus_score.specs.Limits.{highest_head, lowest_head};
ghost use Rattle.std.specs.Prelude.{◌≡◌, ◌≤ℤ◌, ◌≤◌, ◌++◌, IfOk, OnOk};
ghost use Rattle.std.specs.List.{list_any};
ghost use Rattle.mus_stems.specs.Distances.{dot_column, outer_dot_column};
ghost use Rattle.mus_stems.specs.Heads.{AllNear};
ghost use Rattle.mus_stems.specs.Dots.{is_right, first_dot, dot_place, dot_at, dots_at, dot_height, dots_along};

use crate::distances::{BETWEEN_DOTS, DOT_COLUMN, OUTER_DOT_COLUMN, RIGHT_OF_STEM};
use crate::heads::HeadPosition;
use mus_units::distances::STEP;
use mus_units::{Memory, Row};

/// The position of a dot beside an event, in u.
#[derive(Clone, Copy, PartialEq, Eq)]
pub struct Spot {
    pub dx: i32,
    pub dy: i32,
}

/// Returns the dy of the dots of a head, in the space above if the head is on a line.
#[tactic(auto, unfolding(crate::specs::Dots::dot_height))]
fn dot_dy(height: i32) -> i32
    requires low { lowest_head ≤ℤ height }
    requires high { height ≤ℤ highest_head }
    ensures { result ≡ dot_height height }
{
    if height % 2 == 0 {
        STEP * height + STEP
    } else {
        STEP * height
    }
}

/// Returns whether a displaced head is right of its stem.
#[tactic(auto, unfolding(crate::specs::Dots::is_right))]
fn stands_right(dx: i32) -> bool
    ensures { result ≡ is_right dx }
{
    dx == RIGHT_OF_STEM
}

fn any_right(shifts: &[i32]) -> bool
    ensures { result ≡ list_any is_right shifts.now }
{
    shifts.iter().any(|dx| stands_right(*dx))
}

/// Returns the dx of the first dot of each head of an event, further right if a head is right of its stem.
#[tactic(auto, unfolding(crate::specs::Dots::first_dot))]
pub fn dot_dx(shifts: &[i32]) -> i32
    ensures value { result ≡ first_dot shifts.now }
    ensures low { dot_column ≤ℤ result }
    ensures high { result ≤ℤ outer_dot_column }
{
    if any_right(shifts) {
        OUTER_DOT_COLUMN
    } else {
        DOT_COLUMN
    }
}

/// Returns a dot by its number.
#[tactic(auto, unfolding(crate::specs::Dots::dot_at, crate::specs::Dots::dot_place))]
fn dot(first: i32, dy: i32, j: u8) -> Spot
    requires near { j ≤ 3 }
    requires low { dot_column ≤ℤ first }
    requires high { first ≤ℤ outer_dot_column }
    ensures { result ≡ dot_at first dy j }
{
    Spot {
        dx: first + BETWEEN_DOTS * i32::from(j),
        dy,
    }
}

/// Adds the dots of one head.
fn put_dots_of(out: &mut Row<Spot>, first: i32, dy: i32, n: u8) -> Result<(), Memory>
    requires near { n ≤ 3 }
    requires low { dot_column ≤ℤ first }
    requires high { first ≤ℤ outer_dot_column }
    ensures { OnOk result (out.new ≡ out.old ++ dots_at first dy 0 n) }
{
    for j in 0..n {
        out.push(dot(first, dy, j))?;
    }
    Ok(())
}

/// Adds the dots of the heads of an event, `n` for each.
pub fn put_dots(out: &mut Row<Spot>, dx: i32, n: u8, stands: &[HeadPosition]) -> Result<(), Memory>
    requires dots { n ≤ 3 }
    requires low { dot_column ≤ℤ dx }
    requires high { dx ≤ℤ outer_dot_column }
    requires near { AllNear stands.now }
    ensures { OnOk result (out.new ≡ out.old ++ dots_along dx n stands.now) }
{
    for s in stands {
        put_dots_of(out, dx, dot_dy(s.height), n)?;
    }
    Ok(())
}
