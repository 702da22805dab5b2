ghost use Rattle.std.specs.Prelude.{◌≡◌, ◌∷◌, [], OnOk};
ghost use Rattle.{mus_onsets.specs.{Order.key_rank, Ranks.AreRanked}, mus_laid.specs.Ranked.{ink_at, inked}};

use crate::drawn::{Ink, LaneInk};
use crate::laid::{Laid, Mark};
use crate::ranking::found_at;
use mus_onsets::{ColumnKey, rank_of};
use mus_units::{Memory, Row};
use std::alloc::Global;

/// Draws marks column by column: holds the rank of the current column and the marks drawn so far.
#[derive(Drop)]
pub struct MarkPen {
    pub alloc: Global,
    pub rank: u32,
    pub marks: Row<Laid>,
}

/// Returns ink as a mark of a system in which its column has this rank.
fn ink_at(rank: u32, ink: Ink) -> Mark
    ensures { result ≡ ink_at rank ink }
{
    match ink {
        Ink::Glyph { glyph, dx, dy } => Mark::Glyph {
            glyph,
            rank,
            dx,
            dy,
        },
        Ink::Words { size, dx, dy, text } => Mark::Words {
            size,
            rank,
            dx,
            dy,
            text,
        },
        Ink::Stem { dx, from, to } => Mark::Stem { rank, dx, from, to },
    }
}

impl MarkPen {
    /// Returns a pen that has drawn nothing, at the first column.
    pub fn new(alloc: Global) -> MarkPen
        ensures { result.marks ≡ [] }
    {
        MarkPen {
            alloc,
            rank: 0,
            marks: Row::new(alloc),
        }
    }

    /// Moves to the column of a key.
    #[inline(always)]
    pub fn go_to(&mut self, keys: &[ColumnKey], key: ColumnKey)
        requires { AreRanked keys.now }
        ensures rank { self.new.rank ≡ key_rank keys.now key }
        ensures marks { self.new.marks ≡ self.old.marks }
    {
        let next = self.rank as usize + 1;
        self.rank = match found_at(keys, next, key) {
            Some(rank) => rank,
            None => rank_of(keys, key),
        };
    }

    /// Draws a mark in the current column. The only error is out of memory.
    #[inline(always)]
    pub fn put(&mut self, drawn: LaneInk) -> Result<(), Memory>
        ensures { OnOk result (self.new ≡ inked self.old (drawn ∷ [])) }
    {
        let mark = ink_at(self.rank, drawn.ink);
        let lane = drawn.lane;
        self.marks.push(Laid { mark, lane })
    }
}
