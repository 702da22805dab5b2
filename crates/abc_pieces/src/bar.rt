ghost use Rattle.std.specs.Prelude.{◌≡◌, option_map};
ghost use Rattle.abc_pieces.specs.Bars.{signs, bar_meant, form_at, bar_read};

use abc_notes::bytes::{run_off, skip};
use mus_units::Bar;

/// Returns the bar at the start, as long as it can be, and the rest after it.
#[tactic(auto, unfolding(crate::specs::Bars::form_at))]
pub fn read_bar(bytes: &[u8]) -> Option<(Bar, &[u8])>
    ensures { option_map (λ x. bar_read x.0 x.1.now) result
        ≡ option_map (λ z. bar_read (bar_meant z.0) z.1) (form_at bytes.now) }
{
    let (dotted, rest) = skip(b'.', bytes);
    let (before, colons_rest) = run_off(b':', rest);
    let (bracket, rest) = skip(b'[', colons_rest);
    let (lines, rest) = run_off(b'|', rest);
    if lines == 0 {
        if dotted || before < 2 {
            return None;
        }
        let bar = Bar {
            end: true,
            start: true,
            last: false,
            initial: false,
            double: false,
            dotted: false,
            unseen: false,
        };
        return Some((bar, colons_rest));
    }
    let (close, rest) = skip(b']', rest);
    let (after, rest) = run_off(b':', rest);
    Some((bar_of(dotted, before, bracket, lines, close, after), rest))
}

fn bar_of(
    dotted: bool,
    before: usize,
    bracket: bool,
    lines: usize,
    close: bool,
    after: usize,
) -> Bar
    ensures { result ≡ bar_meant (signs dotted before bracket lines close after) }
{
    let alone = !dotted && before == 0 && bracket && lines == 1 && close && after == 0;
    Bar {
        end: before > 0,
        start: after > 0,
        last: close && !alone,
        initial: bracket && !alone,
        double: lines > 1,
        dotted,
        unseen: alone,
    }
}
