ghost use Rattle.std.specs.Prelude.{◌≡◌, OnOk};
ghost use Rattle.abc_pieces.specs.declared.token.Token.TheVariants.{Chord, Grace, Tuplet};
ghost use Rattle.abc_tokens.specs.Plain.{PutsBytes, all_then, deco_then, head_then, chord_head_then};
ghost use Rattle.abc_tokens.specs.Plain.{heads_then, grace_chord_then, colon_then, token_then};

use crate::bar::put_if;
use crate::note::{put_head, put_len, put_number_or_nothing};
use abc_music::{GraceChord, Len, WrittenChord};
use abc_notes::decoration::deco_name;
use eng_lines::put_number;
use mus_units::{Deco, Head, Memory, Text};

/// Adds a decoration: its plain name between exclamation marks.
pub fn put_deco(out: &mut Text, deco: &Deco) -> Result<(), Memory>
    ensures { OnOk result (PutsBytes out.old out.new (deco_then deco.now)) }
{
    out.push(b'!')?;
    out.append(deco_name(deco))?;
    out.push(b'!')
}

fn put_decos(out: &mut Text, decos: &[Deco]) -> Result<(), Memory>
    ensures { OnOk result (PutsBytes out.old out.new (all_then deco_then decos.now)) }
{
    for deco in decos {
        put_deco(out, deco)?;
    }
    Ok(())
}

fn put_chord_head(out: &mut Text, pair: &(Head, Len)) -> Result<(), Memory>
    ensures { OnOk result (PutsBytes out.old out.new (chord_head_then pair.now)) }
{
    let (head, len) = *pair;
    put_head(out, head)?;
    put_len(out, len)?;
    put_if(out, head.tied, b'-')
}

fn put_chord_heads(out: &mut Text, heads: &[(Head, Len)]) -> Result<(), Memory>
    ensures { OnOk result (PutsBytes out.old out.new (all_then chord_head_then heads.now)) }
{
    for pair in heads {
        put_chord_head(out, pair)?;
    }
    Ok(())
}

fn put_heads(out: &mut Text, heads: &[Head]) -> Result<(), Memory>
    ensures { OnOk result (PutsBytes out.old out.new (all_then head_then heads.now)) }
{
    for head in heads {
        put_head(out, *head)?;
    }
    Ok(())
}

fn put_grace_chord(out: &mut Text, heads: &[Head]) -> Result<(), Memory>
    ensures { OnOk result (PutsBytes out.old out.new (heads_then heads.now)) }
{
    if heads.len() == 1 {
        return put_heads(out, heads);
    }
    out.push(b'[')?;
    put_heads(out, heads)?;
    out.push(b']')
}

fn put_body(out: &mut Text, body: &[GraceChord]) -> Result<(), Memory>
    ensures { OnOk result (PutsBytes out.old out.new (all_then grace_chord_then body.now)) }
{
    for chord in body {
        put_grace_chord(out, chord.heads.as_slice())?;
    }
    Ok(())
}

fn put_colon(out: &mut Text, number: u8) -> Result<(), Memory>
    ensures { OnOk result (PutsBytes out.old out.new (colon_then number)) }
{
    out.push(b':')?;
    put_number_or_nothing(out, u64::from(number))
}

/// Adds a tuplet; a later number that is 0 adds nothing.
pub fn put_tuplet(out: &mut Text, p: u8, q: u8, r: u8) -> Result<(), Memory>
    ensures { OnOk result (PutsBytes out.old out.new (token_then (Tuplet p q r))) }
{
    out.push(b'(')?;
    put_number(out, u64::from(p))?;
    put_colon(out, q)?;
    put_colon(out, r)
}

/// Adds a chord: its decorations, its heads, and its length after the bracket.
pub fn put_chord(out: &mut Text, chord: &WrittenChord) -> Result<(), Memory>
    ensures { OnOk result (PutsBytes out.old out.new (token_then (Chord chord.now))) }
{
    out.push(b'[')?;
    put_decos(out, chord.decos.as_slice())?;
    put_chord_heads(out, chord.heads.as_slice())?;
    out.push(b']')?;
    put_len(out, chord.len)
}

/// Adds a grace group.
pub fn put_grace(out: &mut Text, slash: bool, body: &[GraceChord]) -> Result<(), Memory>
    ensures { OnOk result (PutsBytes out.old out.new (token_then (Grace slash body.now))) }
{
    out.push(b'{')?;
    put_if(out, slash, b'/')?;
    put_body(out, body)?;
    out.push(b'}')
}
