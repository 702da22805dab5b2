ghost use Rattle.std.specs.Prelude.{◌≡◌, [], ◌++◌, ◌∷◌, codes, decimal, OnOk};
ghost use Rattle.lay_cert.specs.Reports.{bars_text, verdict_text};

use crate::check::{Judged, Verdict};
use eng_lines::{put_named, put_next};
use mus_units::{Memory, Text};

fn put_bars(out: &mut Text, bars: &[u32]) -> Result<(), Memory>
    ensures { OnOk result (out.new ≡ out.old ++ bars_text bars.now) }
{
    for bar in bars.iter() {
        put_next(out, *bar as u64)?;
    }
    Ok(())
}

fn put_least(out: &mut Text, tune: u32, total: u64) -> Result<(), Memory>
    ensures { OnOk result (out.new ≡ out.old ++ codes "least " ++ decimal tune ++ (codes " " ++ decimal total)) }
{
    put_named(out, b"least ", tune as u64)?;
    put_next(out, total)
}

fn put_not_least(
    out: &mut Text,
    tune: u32,
    total: u64,
    better: u64,
    breaks: &[u32],
) -> Result<(), Memory>
    ensures { OnOk result
        (out.new
        ≡ out.old ++ codes "notleast " ++ decimal tune
        ++ (codes " " ++ decimal total
        ++ (codes " " ++ decimal better ++ bars_text breaks.now ++ codes "\n"))) }
{
    put_named(out, b"notleast ", tune as u64)?;
    put_next(out, total)?;
    put_next(out, better)?;
    put_bars(out, breaks)?;
    out.push(b'\n')
}

/// Adds the line of a verdict and its line feed at the end of the text.
pub fn put_verdict(out: &mut Text, judged: &Judged) -> Result<(), Memory>
    ensures { OnOk result (out.new ≡ out.old ++ verdict_text judged.now.tune judged.now.verdict) }
{
    match &judged.verdict {
        Verdict::Least { total } => {
            put_least(out, judged.tune, *total)?;
            out.push(b'\n')
        }
        Verdict::NotLeast {
            total,
            better,
            breaks,
        } => put_not_least(out, judged.tune, *total, *better, breaks.as_slice()),
    }
}
