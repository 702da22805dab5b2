ghost use Rattle.mus_score.specs.Limits.{highest_head, lowest_head};
ghost use Rattle.std.specs.Prelude.{◌≡◌, ◌≤ℤ◌, ◌≤◌, ◌++◌, pos, negsuc, IfOk, OnOk};
ghost use Rattle.mus_stems.specs.Ledgers.{line_below, line_above, ledger_lines, lines_below, lines_above, ledgers_of};

use crate::distances::{BETWEEN_LINES, FIRST_ABOVE, FIRST_BELOW};
use mus_units::{Memory, Row};
use std::alloc::Global;

/// Returns how many ledger lines a head below the staff needs.
fn count_below(low: i32) -> u32
    requires near { lowest_head ≤ℤ low }
    ensures value { result ≡ lines_below low }
    ensures bound { result ≤ 7 }
{
    if low < 0 { (0 - low) as u32 / 2 } else { 0 }
}

/// Returns how many ledger lines a head above the staff needs.
fn count_above(high: i32) -> u32
    requires near { high ≤ℤ highest_head }
    ensures value { result ≡ lines_above high }
    ensures bound { result ≤ 7 }
{
    if 8 < high { (high - 8) as u32 / 2 } else { 0 }
}

/// Returns the dy of a ledger line below the staff by its number.
#[tactic(auto, unfolding(crate::specs::Ledgers::line_below))]
fn ledger_below(k: u32) -> i32
    requires { k ≤ 7 }
    ensures { result ≡ line_below k }
{
    FIRST_BELOW - BETWEEN_LINES * (k as i32)
}

/// Returns the dy of a ledger line above the staff by its number.
#[tactic(auto, unfolding(crate::specs::Ledgers::line_above))]
fn ledger_above(k: u32) -> i32
    requires { k ≤ 7 }
    ensures { result ≡ line_above k }
{
    FIRST_ABOVE + BETWEEN_LINES * (k as i32)
}

/// Adds the even heights from -2 down to the lowest head, as dy.
pub fn put_below(out: &mut Row<i32>, low: i32) -> Result<(), Memory>
    requires near { lowest_head ≤ℤ low }
    ensures { OnOk result (out.new ≡ out.old ++ ledger_lines line_below 0 (lines_below low)) }
{
    for k in 0..count_below(low) {
        out.push(ledger_below(k))?;
    }
    Ok(())
}

/// Adds the even heights from 10 up to the highest head, as dy.
pub fn put_above(out: &mut Row<i32>, high: i32) -> Result<(), Memory>
    requires near { high ≤ℤ highest_head }
    ensures { OnOk result (out.new ≡ out.old ++ ledger_lines line_above 0 (lines_above high)) }
{
    for k in 0..count_above(high) {
        out.push(ledger_above(k))?;
    }
    Ok(())
}

/// Returns the dy of the ledger lines from the first below the staff to the lowest head, and from the first above it
/// to the highest.
#[tactic(auto, unfolding(crate::specs::Ledgers::ledgers_of))]
pub fn ledgers_for(alloc: Global, low: i32, high: i32) -> Result<Row<i32>, Memory>
    requires low { lowest_head ≤ℤ low }
    requires high { high ≤ℤ highest_head }
    ensures { IfOk result (λ r. r ≡ ledgers_of low high) }
{
    let mut out = Row::new(alloc);
    put_below(&mut out, low)?;
    put_above(&mut out, high)?;
    Ok(out)
}
