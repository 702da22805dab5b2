// Reads numbers and words of a line exactly as they are printed, and in no other form.

ghost use Rattle.std.specs.Prelude.{◌≡◌, ◌<◌, ◌^◌, ℕ, MatchOption};
ghost use Rattle.lay_cert.specs.Lines.{line_text};
ghost use Rattle.lay_cert.specs.declared.lines.ListingLine.TheVariants as line;
ghost use Rattle.lay_breaks.specs.declared.costs.Span.{Span};

use eng_lines::{number, number_after, number_and_rest, strip};
use lay_breaks::Span;

/// Returns the number and the bars in a tune's first line.
pub fn read_tune(bytes: &[u8]) -> Option<(u32, u32)>
    ensures { MatchOption result
        ((tune bars : ℕ) → tune < 2 ^ 32 → bars < 2 ^ 32 → bytes.now ≡ line_text (line.Tune tune bars) → ⊥)
        (λ z. (bytes.now ≡ line_text (line.Tune z.0 z.1)) × (z.0 < 2 ^ 32) × (z.1 < 2 ^ 32)) }
{
    let rest = strip(b"tune ", bytes)?;
    let (tune, rest) = number_and_rest(rest)?;
    Some((tune, number_after(b"measures ", rest)?))
}

/// Returns the span in a span's line.
pub fn read_span(bytes: &[u8]) -> Option<Span>
    ensures { MatchOption result
        ((s : Span) → s.a < 2 ^ 32 → s.b < 2 ^ 32 → s.badness < 2 ^ 64 → bytes.now ≡ line_text (line.OneSpan s) → ⊥)
        (λ s. (bytes.now ≡ line_text (line.OneSpan s)) × (s.a < 2 ^ 32) × (s.b < 2 ^ 32) × (s.badness < 2 ^ 64)) }
{
    let rest = strip(b"span ", bytes)?;
    let (a, rest) = number_and_rest(rest)?;
    let (b, rest) = number_and_rest(rest)?;
    let badness = number(rest)?;
    Some(Span { a, b, badness })
}

/// Returns the bar in a break's line.
pub fn read_choice(bytes: &[u8]) -> Option<u32>
    ensures { MatchOption result ((bar : ℕ) → bar < 2 ^ 32 → bytes.now ≡ line_text (line.Choose bar) → ⊥)
        (λ bar. (bytes.now ≡ line_text (line.Choose bar)) × (bar < 2 ^ 32)) }
{
    number_after(b"choose ", bytes)
}
