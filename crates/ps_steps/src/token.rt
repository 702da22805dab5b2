//! The tokens of the painting machine.

ghost use Rattle.std.specs.Prelude.{◌≡◌, ◌*ℤ◌, pos, true, false, MatchOption};
ghost use Rattle.ps_steps.specs.Near.{is_near, is_near_hundredths};

use mus_units::{Row, Text};
use std::marker::Model;

/// A whole number within 2^60 of 0.
#[derive(Drop)]
pub struct Number {
    value: i64,
}

impl Model for Number {
    ghost use Rattle.std.specs.Prelude.{◌≡◌, ℤ, true};
    ghost use Rattle.ps_steps.specs.Near.{is_near};

    ghost Value = { ℤ };

    ghost view = { λ n. n.value };

    ghost invariant = { λ n. is_near n.value ≡ true };
}

impl Number {
    /// Makes the number; `None` if it exceeds 2^60 in size.
    pub fn new(value: i128) -> Option<Number>
        ensures value { MatchOption result (is_near value ≡ false) (λ n. n ≡ value) }
        ensures near { MatchOption result (true ≡ true) (λ n. is_near value ≡ true) }
    {
        if -(1 << 60) <= value && value <= 1 << 60 {
            Some(Number {
                value: value as i64,
            })
        } else {
            None
        }
    }

    /// Returns 10000, the initial scale of a machine: a point.
    pub fn point() -> Number
        ensures { result ≡ pos 10000 }
    {
        Number { value: 10_000 }
    }

    /// Returns the value.
    pub fn get(&self) -> i64
        ensures value { result ≡ self.now }
        ensures near { is_near self.now ≡ true }
    {
        self.value
    }

    /// Returns a copy of the number.
    pub fn same(&self) -> Number
        ensures { result ≡ self.now }
    {
        Number { value: self.value }
    }

    /// Returns the number in hundredths.
    pub fn hundredths(&self) -> Hundredths
        ensures { result ≡ self.now *ℤ pos 100 }
    {
        Hundredths {
            count: i128::from(self.value) * 100,
        }
    }
}

/// A number with a point, counted in hundredths: within 2^60 of 0, so within 100 times that.
#[derive(Drop)]
pub struct Hundredths {
    count: i128,
}

impl Model for Hundredths {
    ghost use Rattle.std.specs.Prelude.{◌≡◌, ℤ, true};
    ghost use Rattle.ps_steps.specs.Near.{is_near_hundredths};

    ghost Value = { ℤ };

    ghost view = { λ h. h.count };

    ghost invariant = { λ h. is_near_hundredths h.count ≡ true };
}

impl Hundredths {
    /// Makes `count` hundredths; `None` if they exceed 100 times 2^60 in size.
    pub fn new(count: i128) -> Option<Hundredths>
        ensures value { MatchOption result (is_near_hundredths count ≡ false) (λ h. h ≡ count) }
        ensures near { MatchOption result (true ≡ true) (λ h. is_near_hundredths count ≡ true) }
    {
        if -(100 << 60) <= count && count <= 100 << 60 {
            Some(Hundredths { count })
        } else {
            None
        }
    }

    /// Returns the number of hundredths.
    pub fn get(&self) -> i128
        ensures value { result ≡ self.now }
        ensures near { is_near_hundredths self.now ≡ true }
    {
        self.count
    }

    /// Returns a copy of the number.
    pub fn same(&self) -> Hundredths
        ensures { result ≡ self.now }
    {
        Hundredths { count: self.count }
    }
}

/// A token that may be in a procedure. A number that exceeds 2^60 in size is `Far`, whatever its value.
#[derive(Drop)]
pub enum SimpleToken {
    /// A whole number.
    Whole(Number),
    /// A number with a point and two digits after it.
    Pointed(Hundredths),
    /// A number that exceeds 2^60 in size.
    Far,
    /// A string, as the bytes that it spells.
    Words(Text),
    /// A name after a slash, without the slash.
    Label(Text),
    /// A name.
    Name(Text),
    /// The line of a prolog that makes the font of the words.
    Font,
}

/// A token: one that may be in a procedure, or a procedure from its `{` to its `}`, with its tokens.
#[derive(Drop)]
pub enum MachineToken {
    Simple(SimpleToken),
    Procedure(Row<SimpleToken>),
}
