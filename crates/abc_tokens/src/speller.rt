ghost use Rattle.std.specs.Prelude.{◌≡◌, OnOk, IfOk, false};
ghost use Rattle.abc_notes.specs.Runs.{copies};
ghost use Rattle.abc_pieces.specs.Forms.{arrow};
ghost use Rattle.abc_pieces.specs.declared.token.Token.TheVariants.{Ending, Says, Inline};
ghost use Rattle.abc_tokens.specs.Again.{IsReadable, ReadsAs};
ghost use Rattle.abc_tokens.specs.Plain.{PutsBytes, token_then, next_then, plain_text};

use crate::bar::put_bar;
use crate::group::{put_chord, put_deco, put_grace, put_tuplet};
use crate::note::{put_copies, put_measures, put_note, put_rest};
use abc_music::Token;
use mus_units::{Memory, Text};
use std::alloc::Global;

/// Returns the tokens in their plain spelling, with a backquote between two. If some line reads as these tokens,
/// reading the returned text with `!` as no line break gives the tokens again.
pub fn spell(alloc: Global, tokens: &[Token]) -> Result<Text, Memory>
    ensures text { IfOk result (λ text. text ≡ plain_text tokens.now) }
    ensures again { IsReadable tokens.now → IfOk result (λ text. ReadsAs false text tokens.now) }
{
    plain_text(alloc, tokens)
}

fn plain_text(alloc: Global, tokens: &[Token]) -> Result<Text, Memory>
    ensures { IfOk result (λ text. text ≡ plain_text tokens.now) }
{
    let mut out = Text::new(alloc);
    let Some((first, others)) = tokens.split_first() else {
        return Ok(out);
    };
    put_token(&mut out, first)?;
    for token in others {
        put_next(&mut out, token)?;
    }
    Ok(out)
}

fn put_next(out: &mut Text, token: &Token) -> Result<(), Memory>
    ensures { OnOk result (PutsBytes out.old out.new (next_then token.now)) }
{
    out.push(b'`')?;
    put_token(out, token)
}

fn put_token(out: &mut Text, token: &Token) -> Result<(), Memory>
    ensures { OnOk result (PutsBytes out.old out.new (token_then token.now)) }
{
    match token {
        Token::Note { head, len } => put_note(out, *head, *len),
        Token::Rest { seen, len } => put_rest(out, *seen, *len),
        Token::Measures { seen, count } => put_measures(out, *seen, *count),
        Token::Chord(chord) => put_chord(out, chord.get()),
        Token::Grace { slash, body } => put_grace(out, *slash, body.as_slice()),
        Token::Tuplet { p, q, r } => put_tuplet(out, *p, *q, *r),
        Token::SlurOn => out.push(b'('),
        Token::SlurOff => out.push(b')'),
        Token::Tie => out.push(b'-'),
        Token::Broken { right, dots } => put_arrows(out, *right, *dots),
        Token::Bar(bar) => put_bar(out, *bar),
        Token::Ending(text) => put_ending(out, text.as_slice()),
        Token::Deco(deco) => put_deco(out, deco),
        Token::Says(text) => put_quoted(out, text.as_slice()),
        Token::Inline { letter, text } => put_inline(out, *letter, text.as_slice()),
        Token::Cut => out.push(b'$'),
        Token::Space => out.push(b' '),
    }
}

fn put_ending(out: &mut Text, text: &[u8]) -> Result<(), Memory>
    ensures { OnOk result (PutsBytes out.old out.new (token_then (Ending text.now))) }
{
    out.push(b'[')?;
    out.append(text)
}

fn put_quoted(out: &mut Text, text: &[u8]) -> Result<(), Memory>
    ensures { OnOk result (PutsBytes out.old out.new (token_then (Says text.now))) }
{
    out.push(b'"')?;
    out.append(text)?;
    out.push(b'"')
}

fn put_inline(out: &mut Text, letter: u8, text: &[u8]) -> Result<(), Memory>
    ensures { OnOk result (PutsBytes out.old out.new (token_then (Inline letter text.now))) }
{
    out.push(b'[')?;
    out.push(letter)?;
    out.push(b':')?;
    out.append(text)?;
    out.push(b']')
}

fn put_arrows(out: &mut Text, right: bool, count: u8) -> Result<(), Memory>
    ensures { OnOk result (PutsBytes out.old out.new (copies count (arrow right))) }
{
    put_copies(out, arrow_of(right), usize::from(count))
}

fn arrow_of(right: bool) -> u8
    ensures { result ≡ arrow right }
{
    if right { b'>' } else { b'<' }
}
