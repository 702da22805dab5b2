use abc_music::{Deco, GraceChord, Head, Len, Placed, Token, WrittenChord};
use case_texts::{CaseError, Report, put_bar, put_deco, put_head};
use mus_units::Text;

/// Adds tokens, each as its column, a colon and its text.
pub(crate) fn put_tokens(out: &mut Report, tokens: &[Placed]) -> Result<(), CaseError> {
    for placed in tokens {
        out.tell(placed.column)?;
        out.push(b':')?;
        put_token(out, &placed.token)?;
    }
    Ok(())
}

fn put_token(out: &mut Report, token: &Token) -> Result<(), CaseError> {
    match token {
        Token::Note { head, len } => put_note(out, *head, *len),
        Token::Rest { seen, len } => put_rest(out, *seen, *len),
        Token::Measures { seen, count } => put_measures(out, *seen, *count),
        Token::Chord(chord) => put_chord(out, chord.get()),
        Token::Grace { slash, body } => put_grace(out, *slash, body.as_slice()),
        Token::Tuplet { p, q, r } => out.show(format_args!("t{p}:{q}:{r}")),
        Token::Broken { right, dots } => put_broken(out, *right, *dots),
        Token::Deco(deco) => {
            out.push(b'd')?;
            put_deco(out, deco)
        }
        _ => put_plain(out, token),
    }
}

fn put_note(out: &mut Report, head: Head, len: Len) -> Result<(), CaseError> {
    out.push(b'n')?;
    put_head(out, head)?;
    put_len(out, len)
}

fn put_rest(out: &mut Report, seen: bool, len: Len) -> Result<(), CaseError> {
    out.push(if seen { b'z' } else { b'x' })?;
    put_len(out, len)
}

fn put_measures(out: &mut Report, seen: bool, count: u16) -> Result<(), CaseError> {
    out.push(if seen { b'Z' } else { b'X' })?;
    out.show(count)
}

fn put_broken(out: &mut Report, right: bool, dots: u8) -> Result<(), CaseError> {
    out.push(if right { b'>' } else { b'<' })?;
    out.show(dots)
}

/// Adds a token that is only a mark or a text.
fn put_plain(out: &mut Report, token: &Token) -> Result<(), CaseError> {
    match token {
        Token::Bar(bar) => {
            out.push(b'b')?;
            put_bar(out, *bar)
        }
        Token::Ending(text) => put_said(out, b'E', text),
        Token::Says(text) => put_said(out, b'q', text),
        Token::Inline { letter, text } => {
            out.push(b'i')?;
            put_said(out, *letter, text)
        }
        _ => out.append(mark_of(token)),
    }
}

fn mark_of(token: &Token) -> &'static [u8] {
    match token {
        Token::SlurOn => b"s",
        Token::SlurOff => b"e",
        Token::Tie => b"-",
        Token::Cut => b"$",
        Token::Space => b"_",
        _ => b"?",
    }
}

fn put_said(out: &mut Report, letter: u8, text: &Text) -> Result<(), CaseError> {
    out.push(letter)?;
    out.append(text.as_slice())
}

/// Adds a length, and nothing for a length of 1.
fn put_len(out: &mut Report, len: Len) -> Result<(), CaseError> {
    if len.num == 1 && len.den == 1 {
        return Ok(());
    }
    out.show(format_args!("*{}/{}", len.num, len.den))
}

fn put_chord(out: &mut Report, chord: &WrittenChord) -> Result<(), CaseError> {
    out.append(b"c(")?;
    put_chord_heads(out, chord.heads.as_slice())?;
    put_chord_decos(out, chord.decos.as_slice())?;
    out.push(b')')?;
    put_len(out, chord.len)
}

fn put_chord_heads(out: &mut Report, heads: &[(Head, Len)]) -> Result<(), CaseError> {
    for (head, len) in heads {
        put_head(out, *head)?;
        put_len(out, *len)?;
        out.push(b',')?;
    }
    Ok(())
}

fn put_chord_decos(out: &mut Report, decos: &[Deco]) -> Result<(), CaseError> {
    for deco in decos {
        out.push(b';')?;
        put_deco(out, deco)?;
    }
    Ok(())
}

fn put_grace(out: &mut Report, slash: bool, body: &[GraceChord]) -> Result<(), CaseError> {
    out.append(if slash { b"g/(" } else { b"g(" })?;
    for chord in body {
        put_grace_chord(out, chord.heads.as_slice())?;
    }
    out.push(b')')
}

fn put_grace_chord(out: &mut Report, heads: &[Head]) -> Result<(), CaseError> {
    for head in heads {
        put_head(out, *head)?;
    }
    out.push(b',')
}
