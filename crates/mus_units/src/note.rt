ghost use Rattle.std.specs.Prelude.{◌≡◌, ◌++◌, IfOk, OnOk};

use crate::pitch::{Alter, Pitch};
use crate::text::{Memory, Row, Text};
use std::alloc::Global;

/// A note head as written: its pitch, the accidental before it, and whether a tie begins at it.
#[derive(Clone, Copy, PartialEq, Eq)]
pub struct Head {
    pub pitch: Pitch,
    pub sign: Option<Alter>,
    pub tied: bool,
}

/// The features of a bar: `end` and `start` are repeat dots before and after it, `last` is the thick line of a final
/// bar.
#[derive(Clone, Copy, PartialEq, Eq)]
pub struct Bar {
    pub end: bool,
    pub start: bool,
    pub last: bool,
    pub initial: bool,
    pub double: bool,
    pub dotted: bool,
    pub unseen: bool,
}

/// A decoration: one that has a glyph, named by it; a dynamic mark below the staff; a fingering above it; or a name
/// that draws nothing.
#[derive(Drop)]
pub enum Deco {
    Ks,
    Kr,
    Kf,
    Ka,
    Km,
    Kc,
    Kp,
    Kg,
    Kt,
    Ku,
    Kd,
    Kn,
    Below(Text),
    Above(Text),
    Quiet(Text),
}

impl Deco {
    /// Returns the same decoration.
    pub fn copy(&self, alloc: Global) -> Result<Deco, Memory>
        ensures { IfOk result (λ it. it ≡ self.now) }
    {
        match self {
            Deco::Ks => Ok(Deco::Ks),
            Deco::Kr => Ok(Deco::Kr),
            Deco::Kf => Ok(Deco::Kf),
            Deco::Ka => Ok(Deco::Ka),
            Deco::Km => Ok(Deco::Km),
            Deco::Kc => Ok(Deco::Kc),
            Deco::Kp => Ok(Deco::Kp),
            Deco::Kg => Ok(Deco::Kg),
            Deco::Kt => Ok(Deco::Kt),
            Deco::Ku => Ok(Deco::Ku),
            Deco::Kd => Ok(Deco::Kd),
            Deco::Kn => Ok(Deco::Kn),
            Deco::Below(text) => Ok(Deco::Below(text.copy(alloc)?)),
            Deco::Above(text) => Ok(Deco::Above(text.copy(alloc)?)),
            Deco::Quiet(text) => Ok(Deco::Quiet(text.copy(alloc)?)),
        }
    }
}

/// Adds copies of decorations after others.
pub fn put_decos(alloc: Global, out: &mut Row<Deco>, decos: &[Deco]) -> Result<(), Memory>
    ensures { OnOk result (out.new ≡ out.old ++ decos.now) }
{
    for deco in decos {
        out.push(deco.copy(alloc)?)?;
    }
    Ok(())
}

/// Copies decorations.
pub fn copy_decos(alloc: Global, decos: &[Deco]) -> Result<Row<Deco>, Memory>
    ensures { IfOk result (λ it. it ≡ decos.now) }
{
    let mut copies = Row::new(alloc);
    put_decos(alloc, &mut copies, decos)?;
    Ok(copies)
}

/// The direction asked for the stems of a voice.
#[derive(Clone, Copy, PartialEq, Eq)]
pub enum Wish {
    Auto,
    Up,
    Down,
}
