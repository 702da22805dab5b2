ghost use Rattle.std.specs.Prelude.{◌≡◌, OnOk};
ghost use Rattle.{abc_notes.specs.Runs.{maybe}, abc_tokens.specs.Plain.{PutsBytes, bar_then, signs_then, is_colons}};

use mus_units::{Bar, Memory, Text};

/// Adds the byte if the flag is set.
pub fn put_if(out: &mut Text, flag: bool, byte: u8) -> Result<(), Memory>
    ensures { OnOk result (PutsBytes out.old out.new (maybe flag byte)) }
{
    if flag { out.push(byte) } else { Ok(()) }
}

/// Returns whether a bar has repeat dots on both sides, and no other feature.
fn is_colons(bar: Bar) -> bool
    ensures { result ≡ is_colons bar }
{
    bar.end && bar.start && !bar.last && !bar.initial && !bar.double && !bar.dotted
}

fn put_signs(out: &mut Text, bar: Bar) -> Result<(), Memory>
    ensures { OnOk result (PutsBytes out.old out.new (signs_then bar)) }
{
    put_if(out, bar.dotted, b'.')?;
    put_if(out, bar.end, b':')?;
    put_if(out, bar.initial, b'[')?;
    out.push(b'|')?;
    put_if(out, bar.double, b'|')?;
    put_if(out, bar.last, b']')?;
    put_if(out, bar.start, b':')
}

/// Adds a bar, with as few colons and bar signs as its features allow.
pub fn put_bar(out: &mut Text, bar: Bar) -> Result<(), Memory>
    ensures { OnOk result (PutsBytes out.old out.new (bar_then bar)) }
{
    if bar.unseen {
        return out.append(b"[|]");
    }
    if is_colons(bar) {
        return out.append(b"::");
    }
    put_signs(out, bar)
}
