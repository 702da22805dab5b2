ghost use Rattle.std.specs.Prelude.{◌≡◌, ◌≢◌, ◌≤◌, ◌<◌, ◌+◌, ◌-◌, ◌^◌, ◌++◌, ◌∷◌, ℕ, length, IfOk, IfErr, OnOk};
ghost use Rattle.std.specs.Prelude.{[], None, Ok};
ghost use Rattle.{abc_lines.specs.{Kinds.code, Good.IsGoodLine}, abc_notes.specs.Chords.{chord_at}};
ghost use Rattle.abc_lines.specs.Results.{IsOnlyFault, IsOnlyResult};
ghost use Rattle.abc_pieces.specs.Forms.{opening, is_kept_field};
ghost use Rattle.abc_pieces.specs.declared.token.BracketOpening.TheVariants.{Chord};
ghost use Rattle.abc_pieces.specs.Reading.{piece_at, token_of, found_within};
ghost use Rattle.abc_music.specs.declared.token.Placed.{Placed};
ghost use Rattle.abc_music.specs.Good.{AreGoodTokens};
ghost use Rattle.abc_music.specs.Tokens.{TokensOf, IsErrorOf, GivesTokensOf, IsFull, IsStart, IsWithinLine, PartOf};
ghost use Rattle.abc_music.specs.Tokens.{IsLineResult, IsOnlyPrefix};
ghost use Rattle.abc_music.specs.Tokens.{column, with_token, fault_at, kind_after, kind_if, IsBracketFlaw, IsLineFlaw};
ghost use Rattle.abc_music.specs.Tokens.{IsOwnFlaw};

use crate::token::{LinePart, LineRest, Placed, TokenCursor, TokenPrefix};
use abc_lines::{Fault, FaultKind, Line, TuneError};
use abc_notes::chord::{chord_fault, goes_on_length, read_decos, read_heads};
use abc_notes::decoration::{deco_of_letter, deco_of_name};
use abc_notes::grace::{grace_fault, read_body};
use abc_pieces::piece::{opening, piece_at};
use abc_pieces::{BorrowedToken, Boxed, BracketOpening, Flaw, PieceBefore, Token, WrittenChord};
use mus_units::bytes::is_digit;
use mus_units::{Memory, Row, Text};
use std::alloc::Global;

/// The most tokens of a part.
const MOST: usize = 1000;

/// Returns the tokens of a music line with their columns, or the first fault of the line. If `bang` is set, `!` is a
/// line break.
pub fn read_music(alloc: Global, line: &Line, bang: bool) -> Result<Row<Placed>, TuneError>
    requires { IsGoodLine line.now }
    // The result is the list of tokens.
    ensures found { IfOk result (λ tokens. TokensOf bang line.now.text tokens) }
    // There is no other list, and no fault.
    ensures only { IfOk result (λ tokens. IsOnlyResult (IsLineResult bang line.now) (Ok tokens)) }
    // A fault is the first of the line, and is returned only if there is no list.
    ensures fault { IfErr result (λ e. IsErrorOf bang line.now e) }
    // There is no other first fault.
    ensures only_fault { IfErr result (λ e. IsOnlyFault (IsLineResult bang line.now) e) }
    ensures good { IfOk result (λ tokens. AreGoodTokens tokens) }
{
    let prefix = read_prefix(alloc, line, bang)?;
    match prefix.fault {
        Some(fault) => Err(TuneError::Fault(fault)),
        None => Ok(prefix.tokens),
    }
}

/// Returns the tokens of a music line up to its first fault, and that fault if it has one. If `bang` is set, `!` is a
/// line break.
pub fn read_prefix(alloc: Global, line: &Line, bang: bool) -> Result<TokenPrefix, Memory>
    requires { IsGoodLine line.now }
    ensures prefix { IfOk result (λ prefix. GivesTokensOf bang line.now prefix.tokens prefix.fault) }
    // There are no other tokens, and there is no other first fault.
    ensures only { IfOk result (λ prefix. IsOnlyPrefix bang line.now prefix.tokens prefix.fault) }
    ensures good { IfOk result (λ prefix. AreGoodTokens prefix.tokens) }
{
    let mut tokens = Row::new(alloc);
    let mut place = start(line);
    loop {
        let part = read_part(alloc, line, bang, place)?;
        tokens.append(part.tokens)?;
        match part.following {
            LineRest::More(next) => place = next,
            LineRest::End(fault) => return Ok(TokenPrefix { tokens, fault }),
        }
    }
}

/// Returns the cursor at the start of a music line.
pub fn start(line: &Line) -> TokenCursor<'_>
    ensures { IsStart line.now result }
{
    TokenCursor {
        rest: line.text.as_slice(),
        before: PieceBefore::Other,
        at: 0,
    }
}

/// Returns the tokens of a music line from a cursor on, up to its first fault or the thousandth token, and what
/// follows them. So a line can be read in parts, with only one part in memory at a time.
pub fn read_part<'a>(
    alloc: Global,
    line: &Line,
    bang: bool,
    place: TokenCursor<'a>,
) -> Result<LinePart<'a>, Memory>
    requires line { IsGoodLine line.now }
    requires place { IsWithinLine line.now place }
    ensures part { IfOk result (λ part. PartOf bang line.now place.entry part.tokens part.following) }
    ensures full { IfOk result (λ part. IsFull part.tokens part.following) }
    ensures good { IfOk result (λ part. AreGoodTokens part.tokens) }
{
    let mut tokens = Row::with_room(alloc, place.rest.len().min(MOST))?;
    let mut place = place;
    'pieces: while tokens.len() < MOST {
        let Some((first, following)) = place.rest.split_first() else {
            return Ok(LinePart {
                tokens,
                following: LineRest::End(None),
            });
        };
        let Some(piece) = piece_at(bang, place.before, place.rest) else {
            let flaw = line_flaw(bang, place.before, place.at, *first, following);
            return Ok(LinePart {
                tokens,
                following: LineRest::End(Some(fault_at(line, flaw))),
            });
        };
        let left = place.rest.len();
        let column = column(line.text.len(), left);
        add(alloc, &mut tokens, bang, piece.found, column)?;
        place = TokenCursor {
            rest: piece.rest,
            before: piece.after,
            at: left,
        };
    }
    Ok(LinePart {
        tokens,
        following: LineRest::More(place),
    })
}

fn column(n: usize, left: usize) -> u32
    requires short { n ≤ 2 ^ 30 }
    requires within { left ≤ n + 1 }
    ensures { result ≡ column n left }
{
    (n + 1 - left) as u32
}

fn fault_at(line: &Line, flaw: Flaw) -> Fault
    requires short { IsGoodLine line.now }
    requires within { flaw.left ≤ length line.now.text + 1 }
    ensures { result ≡ fault_at line.now flaw }
{
    Fault {
        kind: flaw.kind,
        line: line.number,
        column: column(line.text.len(), flaw.left),
    }
}

/// Returns the fault where there is no piece: `first` and then `following` are left, and the piece before begins `at`
/// bytes from the end.
fn line_flaw(bang: bool, before: PieceBefore, at: usize, first: u8, following: &[u8]) -> Flaw
    requires small { length following.now < 2 ^ 30 }
    requires none { piece_at bang before (first ∷ following.now) ≡ None }
    ensures flaw { IsLineFlaw bang before at first following.now result }
    ensures within { (n : ℕ) → at ≤ n → length following.now < n → result.left ≤ n }
{
    match kind_after(before, first) {
        Some(kind) => Flaw { kind, left: at },
        None => own_flaw(bang, before, first, following),
    }
}

fn kind_after(before: PieceBefore, byte: u8) -> Option<FaultKind>
    ensures { result ≡ kind_after before byte }
{
    match before {
        PieceBefore::Bar => None,
        PieceBefore::Broken { right } => {
            kind_if(
                byte == if right { b'>' } else { b'<' },
                FaultKind::BadLength,
            )
        }
        PieceBefore::Lengthy => kind_if(goes_on_length(byte), FaultKind::BadLength),
        PieceBefore::Paren => kind_if(is_digit(byte), FaultKind::BadTuplet),
        PieceBefore::Other => None,
    }
}

fn kind_if(goes_on: bool, kind: FaultKind) -> Option<FaultKind>
    ensures { result ≡ kind_if goes_on kind }
{
    if goes_on { Some(kind) } else { None }
}

fn own_flaw(bang: bool, before: PieceBefore, first: u8, following: &[u8]) -> Flaw
    requires small { length following.now < 2 ^ 30 }
    requires none { piece_at bang before (first ∷ following.now) ≡ None }
    ensures flaw { IsOwnFlaw bang first following.now result }
    ensures within { result.left ≤ length following.now + 1 }
{
    if first == b'"' {
        Flaw {
            kind: FaultKind::Unclosed,
            left: following.len() + 1,
        }
    } else if first == b'[' {
        bracket_flaw(bang, following)
    } else if first == b'{' {
        grace_fault(bang, following)
    } else {
        Flaw {
            kind: FaultKind::BadByte,
            left: following.len() + 1,
        }
    }
}

fn bracket_flaw(bang: bool, following: &[u8]) -> Flaw
    requires small { length following.now < 2 ^ 30 }
    requires none { opening following.now ≡ Chord → chord_at bang following.now ≡ None }
    ensures flaw { IsBracketFlaw (opening following.now) bang (code "[") following.now result }
    ensures within { result.left ≤ length following.now + 1 }
{
    match opening(following) {
        BracketOpening::Bar | BracketOpening::Ending => Flaw {
            kind: FaultKind::BadByte,
            left: following.len() + 1,
        },
        BracketOpening::Inline => Flaw {
            kind: FaultKind::Unclosed,
            left: following.len() + 1,
        },
        BracketOpening::Chord => chord_fault(bang, following),
    }
}

fn add(
    alloc: Global,
    out: &mut Row<Placed>,
    bang: bool,
    found: BorrowedToken<'_>,
    column: u32,
) -> Result<(), Memory>
    requires { found_within found (2 ^ 30) }
    ensures { OnOk result (out.new ≡ out.old ++ with_token (token_of bang found.entry) column []) }
{
    match token(alloc, bang, found)? {
        Some(token) => out.push(Placed { token, column }),
        None => Ok(()),
    }
}

fn token(alloc: Global, bang: bool, found: BorrowedToken<'_>) -> Result<Option<Token>, Memory>
    requires { found_within found (2 ^ 30) }
    ensures { IfOk result (λ t. t ≡ token_of bang found.entry) }
{
    Ok(Some(match found {
        BorrowedToken::Note { head, len } => Token::Note { head, len },
        BorrowedToken::Rest { seen, len } => Token::Rest { seen, len },
        BorrowedToken::Measures { seen, count } => Token::Measures { seen, count },
        BorrowedToken::Chord { inside, len } => {
            let chord = WrittenChord {
                heads: read_heads(alloc, bang, inside)?,
                decos: read_decos(alloc, bang, inside)?,
                len,
            };
            Token::Chord(Boxed::new(alloc, chord)?)
        }
        BorrowedToken::Grace { slash, inside } => {
            let body = read_body(alloc, bang, inside)?;
            Token::Grace { slash, body }
        }
        BorrowedToken::Tuplet { p, q, r } => Token::Tuplet { p, q, r },
        BorrowedToken::SlurOn => Token::SlurOn,
        BorrowedToken::SlurOff => Token::SlurOff,
        BorrowedToken::Tie => Token::Tie,
        BorrowedToken::Broken { right, dots } => Token::Broken { right, dots },
        BorrowedToken::Bar(bar) => Token::Bar(bar),
        BorrowedToken::Ending(text) => Token::Ending(Text::from_slice(alloc, text)?),
        BorrowedToken::Letter(byte) => Token::Deco(deco_of_letter(alloc, byte)?),
        BorrowedToken::Named(name) => Token::Deco(deco_of_name(alloc, name)?),
        BorrowedToken::Says(text) => Token::Says(Text::from_slice(alloc, text)?),
        BorrowedToken::Inline { letter, text } => {
            if !is_kept_field(letter) {
                return Ok(None);
            }
            let text = Text::from_slice(alloc, text)?;
            Token::Inline { letter, text }
        }
        BorrowedToken::Cut => Token::Cut,
        BorrowedToken::Space => Token::Space,
        BorrowedToken::Passed => return Ok(None),
    }))
}

/// Returns whether an inline field of this letter is kept.
fn is_kept_field(letter: u8) -> bool
    ensures { result ≡ is_kept_field letter }
{
    letter == b'K' || letter == b'L' || letter == b'M' || letter == b'V'
}
