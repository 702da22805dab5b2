ghost use Rattle.std.specs.Prelude.{◌≤◌};

/// The number of threads that may work in parallel: 1 to 64.
#[derive(Clone, Copy, PartialEq, Eq)]
pub struct Jobs {
    pub count: u8,
    pub ghost some: { 1 ≤ count },
    pub ghost few: { count ≤ 64 },
}
