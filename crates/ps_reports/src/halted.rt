//! The line for a run that halts.

ghost use Rattle.std.specs.Prelude.{◌≡◌, ◌++◌, OnOk};
ghost use Rattle.ps_reports.specs.PaintText.{cause_name, halt_line};

use eng_lines::put_number;
use mus_units::{Memory, Text};
use ps_steps::Cause;

/// Returns the name of a cause, as printed in the line.
pub fn cause_name(cause: Cause) -> &'static [u8]
    ensures { result.now ≡ cause_name cause }
{
    match cause {
        Cause::BadToken => b"BadToken",
        Cause::Unclosed => b"Unclosed",
        Cause::Stack => b"Stack",
        Cause::Kind => b"Kind",
        Cause::Name => b"Name",
        Cause::Point => b"Point",
        Cause::Restore => b"Restore",
        Cause::Scale => b"Scale",
        Cause::Range => b"Range",
        Cause::Budget => b"Budget",
    }
}

/// Adds the line `halt at token K: CAUSE` for a run that halts after `token` tokens. On an error, part of the line
/// was added.
pub fn put_halt(out: &mut Text, token: u64, cause: Cause) -> Result<(), Memory>
    ensures { OnOk result (out.new ≡ out.old ++ halt_line token cause) }
{
    out.append(b"halt at token ")?;
    put_number(out, token)?;
    out.append(b": ")?;
    out.append(cause_name(cause))?;
    out.append(b"\n")
}
