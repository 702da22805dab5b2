ghost use Rattle.std.specs.Prelude.{◌≤◌};

/// Bars that follow each other: those from `from` up to, and without, `to`.
#[derive(Clone, Copy)]
pub(crate) struct BarRange {
    pub(crate) from: u32,
    pub(crate) to: u32,
    pub(crate) ghost order: { from ≤ to },
}
