ghost use Rattle.std.specs.Prelude.{ℕ, ◌≤◌, List, Option, length};
ghost use Rattle.std.specs.Io.{ReadsAtMost, WritesAtMost};
ghost use Rattle.std.specs.Io.KnownBytes.{ReadConsumes, WriteAppends};
ghost use Rattle.eng_io.specs.Causes.{ReadCause, WriteCause};

/// A read or write failed; no byte was taken.
#[derive(Clone, Copy, PartialEq, Eq)]
pub struct Failed;

/// Where bytes come from. A source states what is left, where that is known, and counts its faults. The count never
/// falls, and stays at 2^64 - 1 once it gets there.
pub trait Source {
    // what is left, where that is known
    ghost left: { Self → Option (List ℕ) };

    // the number of faults counted so far
    ghost faults: { Self → ℕ };

    /// Writes the next bytes to the start of `buf` and returns how many. No byte for a non-empty `buf` means the end
    /// of input. `Failed` takes nothing, and is returned only if the count rose.
    fn read(&mut self, buf: &mut [u8]) -> Result<usize, Failed>
        ensures bound { ReadsAtMost result buf.new }
        ensures bytes { ReadConsumes (left self.old) (left self.new) result buf.new }
        ensures never_falls { faults self.old ≤ faults self.new }
        ensures cause { ReadCause (faults self.old) (faults self.new) result };
}

/// Where bytes go. A sink states what it took, where that is known, and counts its faults. The count never falls, and
/// stays at 2^64 - 1 once it gets there.
pub trait Sink {
    // what was taken, where that is known
    ghost taken: { Self → Option (List ℕ) };

    // the number of faults counted so far
    ghost faults: { Self → ℕ };

    /// Takes a prefix of `b` and returns how many bytes it took. `Failed` took none. `Failed`, and no byte of a
    /// non-empty `b`, are returned only if the count rose.
    fn write(&mut self, b: &[u8]) -> Result<usize, Failed>
        ensures bound { WritesAtMost result b.now }
        ensures bytes { WriteAppends (taken self.old) (taken self.new) result b.now }
        ensures never_falls { faults self.old ≤ faults self.new }
        ensures cause { WriteCause (faults self.old) (faults self.new) result (length b.now) };
}
