/// A gate that each tune enters before it is set.
pub trait Gate {
    /// Reports that the tune with this ordinal is set next.
    fn enter(&self, tune: u32);
}

/// A gate that does nothing.
#[derive(Clone, Copy, PartialEq, Eq)]
pub struct NoGate;

impl Gate for NoGate {
    fn enter(&self, _tune: u32) {}
}
