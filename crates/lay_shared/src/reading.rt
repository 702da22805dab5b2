//! Reading staves sign by sign.

ghost use Rattle.std.specs.Prelude.{◌≡◌, ◌∷◌, ◌++◌, [], None, Some, IfOk, OnOk, MatchOption, cond};
ghost use Rattle.lay_shared.specs.Reading.{staff_closed, ended, entered, has_no_bracket, left, staff_opened, run};
ghost use Rattle.lay_shared.specs.Reading.{same_bracket, start, after_sign, with_staff, with_voice};

use crate::plan::PlannedStaff;
use crate::signs::{Bracket, PlanSign};
use mus_units::{Memory, Row};
use std::alloc::Global;
use std::marker::Model;

/// The open brackets; contracts see the innermost first.
#[derive(Drop)]
pub struct Brackets {
    stack: Vec<Bracket>,
}

impl Model for Brackets {
    ghost use Rattle.std.specs.Prelude.{List, reverse};
    ghost use Rattle.lay_shared.specs.declared.signs.Bracket.{Bracket};

    ghost Value = { List Bracket };

    ghost view = { λ b. reverse b.stack.items };
}

impl Brackets {
    fn new(alloc: Global) -> Brackets
        ensures { result ≡ [] }
    {
        Brackets {
            stack: Vec::new(alloc),
        }
    }

    fn is_empty(&self) -> bool
        ensures { result ≡ has_no_bracket self.now }
    {
        self.stack.is_empty()
    }

    fn open(&mut self, bracket: Bracket) -> Result<(), Memory>
        ensures { OnOk result (self.new ≡ bracket ∷ self.old) }
    {
        self.stack.push(bracket)?;
        Ok(())
    }

    /// Removes and returns the innermost one.
    fn close(&mut self) -> Option<Bracket>
        ensures { MatchOption result ((self.old ≡ []) × (self.new ≡ [])) (λ b. self.old ≡ b ∷ self.new) }
    {
        self.stack.pop()
    }
}

/// The state of the reader: the open brackets, the voices since a `(` that is not closed, whether the next staff
/// leads an outermost group, and the staves.
#[derive(Drop)]
pub struct PlanReader {
    pub brackets: Brackets,
    pub inside: Option<Row<u32>>,
    pub leads: bool,
    pub staves: Row<PlannedStaff>,
}

impl PlanReader {
    fn new(alloc: Global) -> PlanReader
        ensures { result ≡ start }
    {
        PlanReader {
            brackets: Brackets::new(alloc),
            inside: None,
            leads: true,
            staves: Row::new(alloc),
        }
    }

    /// Adds a staff with these voices.
    fn put_staff(&mut self, voices: Row<u32>) -> Result<(), Memory>
        ensures { OnOk result (self.new ≡ with_staff self.old voices) }
    {
        self.inside = None;
        let leads = self.leads;
        self.staves.push(PlannedStaff { leads, voices })?;
        self.leads = self.brackets.is_empty();
        Ok(())
    }

    fn take_voice(&mut self, alloc: Global, voice: u32) -> Result<(), Memory>
        ensures { OnOk result (self.new ≡ with_voice self.old voice self.old.inside) }
    {
        if let Some(voices) = &mut self.inside {
            return voices.push(voice);
        }
        let mut voices = Row::new(alloc);
        voices.push(voice)?;
        self.put_staff(voices)
    }

    fn open_staff(&mut self, alloc: Global) -> bool
        ensures { cond result (staff_opened self.old self.old.inside ≡ Some self.new)
            (staff_opened self.old self.old.inside ≡ None) }
    {
        if self.inside.is_some() {
            return false;
        }
        self.inside = Some(Row::new(alloc));
        true
    }

    fn close_staff(&mut self) -> Result<bool, Memory>
        ensures { IfOk result (λ went.
            cond went (staff_closed self.old self.old.inside ≡ Some self.new)
            (staff_closed self.old self.old.inside ≡ None)) }
    {
        match self.inside.take() {
            Some(voices) if voices.len() > 0 => {
                self.put_staff(voices)?;
                Ok(true)
            }
            _ => Ok(false),
        }
    }

    fn enter(&mut self, bracket: Bracket) -> Result<bool, Memory>
        ensures { IfOk result (λ went.
            cond went (entered self.old bracket self.old.inside ≡ Some self.new)
            (entered self.old bracket self.old.inside ≡ None)) }
    {
        if self.inside.is_some() {
            return Ok(false);
        }
        self.brackets.open(bracket)?;
        Ok(true)
    }

    fn leave(&mut self, bracket: Bracket) -> bool
        ensures { cond result (left self.old bracket self.old.inside ≡ Some self.new)
            (left self.old bracket self.old.inside ≡ None) }
    {
        if self.inside.is_some() {
            return false;
        }
        match self.brackets.close() {
            Some(last) if is_same(bracket, last) => {
                self.leads = self.leads || self.brackets.is_empty();
                true
            }
            _ => false,
        }
    }

    /// Reads one more sign. Returns false if it can't be there.
    fn take_sign(&mut self, alloc: Global, sign: PlanSign) -> Result<bool, Memory>
        ensures { IfOk result
            (λ went. cond went (after_sign self.old sign ≡ Some self.new) (after_sign self.old sign ≡ None)) }
    {
        match sign {
            PlanSign::Voice { place } => {
                self.take_voice(alloc, place)?;
                Ok(true)
            }
            PlanSign::UnknownVoice => Ok(false),
            PlanSign::StaffOpens => Ok(self.open_staff(alloc)),
            PlanSign::StaffEnds => self.close_staff(),
            PlanSign::Opens { bracket } => self.enter(bracket),
            PlanSign::Ends { bracket } => Ok(self.leave(bracket)),
        }
    }

    /// Returns the staves if nothing is open.
    fn end(self) -> Option<Row<PlannedStaff>>
        ensures { result ≡ ended self }
    {
        if self.inside.is_none() && self.brackets.is_empty() {
            Some(self.staves)
        } else {
            None
        }
    }
}

fn is_same(bracket: Bracket, other: Bracket) -> bool
    ensures { result ≡ same_bracket bracket other }
{
    matches!(
        (bracket, other),
        (Bracket::Square, Bracket::Square) | (Bracket::Curly, Bracket::Curly)
    )
}

/// Returns the staves that signs ask for. `None` if the signs don't pair or are where they can't be.
pub(crate) fn staves_by(
    alloc: Global,
    signs: &[PlanSign],
) -> Result<Option<Row<PlannedStaff>>, Memory>
    ensures { IfOk result (λ read. read ≡ run start signs.now) }
{
    let mut at = PlanReader::new(alloc);
    for sign in signs {
        if !at.take_sign(alloc, *sign)? {
            return Ok(None);
        }
    }
    Ok(at.end())
}
