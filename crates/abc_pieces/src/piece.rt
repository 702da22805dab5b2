ghost use Rattle.std.specs.Prelude.{◌≡◌, ◌≤◌, ◌^◌, ◌∷◌, false, ℕ, List, Bool, Some, None, length, take, ◌==◌, IfSome};
ghost use Rattle.std.specs.List.{prefix_len};
ghost use Rattle.abc_lines.specs.Kinds.{code};
ghost use Rattle.abc_pieces.specs.declared.token.PieceBefore.TheVariants.{Other};
ghost use Rattle.abc_pieces.specs.Forms.{is_after_bar, is_after_broken, is_ending, is_quoted_byte, is_plus_byte};
ghost use Rattle.abc_pieces.specs.Forms.{is_passed, is_passed_sign, is_passed_letter, opening, letter_form, slur_form};
ghost use Rattle.abc_pieces.specs.Reading.{class_of, piece_at, note_form_read, rest_read, gap_read, measures_read};
ghost use Rattle.abc_pieces.specs.Reading.{bar_read, chord_read, grace_read, tuplet_read, ending_read, broken_read};
ghost use Rattle.abc_pieces.specs.Reading.{says_read, plus_read, inline_read, space_read, bang_read, dot_read};
ghost use Rattle.abc_pieces.specs.Reading.{bracket_form, or_else, read, shown_piece, meaning, found_within};
ghost use Rattle.{abc_notes.specs.{Chords.is_inside, Runs.begins}, mus_units.specs.Bytes.{is_digit, is_blank}};

use crate::bar::read_bar;
use crate::token::{BorrowedToken, BracketOpening, PieceBefore, PieceClass};
use crate::tuplet::tuplet_at;
use abc_notes::chord::{bracketed, chord_at};
use abc_notes::decoration::is_deco_letter;
use abc_notes::grace::grace_at;
use abc_notes::item::{is_note_byte, name_at};
use abc_notes::length::{count_of, length_from, number_at};
use abc_notes::note::note_at;
use mus_units::bytes::{is_blank, is_digit, is_letter, leading_blanks};

/// The first piece, its effect on the next piece, and the rest.
#[derive(Clone, Copy)]
pub struct LinePiece<'a> {
    pub found: BorrowedToken<'a>,
    pub after: PieceBefore,
    pub rest: &'a [u8],
}

/// Returns the piece at the start, as long as it can be, after a piece with the effect `before`. If `bang` is set,
/// `!` is a line break.
#[tactic(auto, unfolding(crate::specs::Reading::piece_at))]
pub fn piece_at(bang: bool, before: PieceBefore, bytes: &[u8]) -> Option<LinePiece<'_>>
    requires { length bytes.now ≤ 2 ^ 30 }
    ensures read { shown_piece bang result ≡ meaning (piece_at bang before bytes.now) }
    ensures within { IfSome result (λ x. found_within x.found (length bytes.now)) }
{
    let (first, rest) = bytes.split_first()?;
    match class_of(*first) {
        PieceClass::Note => note(bytes),
        PieceClass::Rest => Some(rest_piece(*first, rest)),
        PieceClass::Gap => Some(gap(rest)),
        PieceClass::Measures => Some(measures(*first, rest)),
        PieceClass::Bar => bar_piece(bytes),
        PieceClass::Dot => dot(bytes, rest),
        PieceClass::Bracket => bracket(bang, bytes, rest),
        PieceClass::Brace => grace(bang, rest),
        PieceClass::Paren => Some(paren(rest)),
        PieceClass::Close => Some(plain(BorrowedToken::SlurOff, rest)),
        PieceClass::Tie => Some(plain(BorrowedToken::Tie, rest)),
        PieceClass::Digit => {
            if is_after_bar(before) {
                ending(bytes)
            } else {
                None
            }
        }
        PieceClass::Broken => broken(before, *first, rest),
        PieceClass::Quote => says(rest),
        PieceClass::Bang => Some(bang_piece(bang, rest)),
        PieceClass::Plus => Some(plus(rest)),
        PieceClass::Blank => Some(space(rest)),
        PieceClass::Letter => Some(plain(BorrowedToken::Letter(*first), rest)),
        PieceClass::Dollar => Some(plain(BorrowedToken::Cut, rest)),
        PieceClass::Passed => Some(plain(BorrowedToken::Passed, rest)),
        PieceClass::Nothing => None,
    }
}

fn plain<'a>(found: BorrowedToken<'a>, rest: &'a [u8]) -> LinePiece<'a>
    ensures found { result.found ≡ found.entry }
    ensures rest { result.rest.now ≡ rest.now }
    ensures after { result.after ≡ Other }
{
    LinePiece {
        found,
        after: PieceBefore::Other,
        rest,
    }
}

#[tactic(auto, unfolding(crate::specs::Reading::class_of))]
fn class_of(byte: u8) -> PieceClass
    ensures { result ≡ class_of byte }
{
    if is_note_byte(byte) {
        PieceClass::Note
    } else if byte == b'z' || byte == b'x' {
        PieceClass::Rest
    } else if byte == b'y' {
        PieceClass::Gap
    } else if byte == b'Z' || byte == b'X' {
        PieceClass::Measures
    } else if byte == b':' || byte == b'|' {
        PieceClass::Bar
    } else if byte == b'.' {
        PieceClass::Dot
    } else if byte == b'[' {
        PieceClass::Bracket
    } else if byte == b'{' {
        PieceClass::Brace
    } else if byte == b'(' {
        PieceClass::Paren
    } else if byte == b')' {
        PieceClass::Close
    } else if byte == b'-' {
        PieceClass::Tie
    } else if is_digit(byte) {
        PieceClass::Digit
    } else if byte == b'>' || byte == b'<' {
        PieceClass::Broken
    } else if byte == b'"' {
        PieceClass::Quote
    } else if byte == b'!' {
        PieceClass::Bang
    } else if byte == b'+' {
        PieceClass::Plus
    } else if is_blank(byte) {
        PieceClass::Blank
    } else if is_deco_letter(byte) {
        PieceClass::Letter
    } else if byte == b'$' {
        PieceClass::Dollar
    } else if is_passed(byte) {
        PieceClass::Passed
    } else {
        PieceClass::Nothing
    }
}

fn is_passed(byte: u8) -> bool
    ensures { result ≡ is_passed byte }
{
    is_passed_sign(byte) || is_passed_letter(byte) || matches!(byte, b'h'..=b't')
}

fn is_passed_sign(byte: u8) -> bool
    ensures { result ≡ is_passed_sign byte }
{
    byte == b'`'
        || byte == b'*'
        || byte == b';'
        || byte == b'?'
        || byte == b'@'
        || byte == b'#'
        || byte == b'\\'
}

fn is_passed_letter(byte: u8) -> bool
    ensures { result ≡ is_passed_letter byte }
{
    byte == b'w'
        || byte == b'I'
        || byte == b'J'
        || byte == b'K'
        || byte == b'N'
        || byte == b'Q'
        || byte == b'R'
        || byte == b'U'
        || byte == b'V'
        || byte == b'W'
}

fn is_after_bar(before: PieceBefore) -> bool
    ensures { result ≡ is_after_bar before }
{
    match before {
        PieceBefore::Bar => true,
        _ => false,
    }
}

fn is_after_broken(right: bool, before: PieceBefore) -> bool
    ensures { result ≡ is_after_broken right before }
{
    match before {
        PieceBefore::Broken { right: other } => right == other,
        _ => false,
    }
}

#[tactic(auto, unfolding(crate::specs::Reading::note_form_read))]
fn note(bytes: &[u8]) -> Option<LinePiece<'_>>
    requires { length bytes.now ≤ 2 ^ 30 }
    ensures read { (bang : Bool) → shown_piece bang result ≡ meaning (note_form_read bytes.now) }
    ensures within { (n : ℕ) → IfSome result (λ x. found_within x.found n) }
{
    let (head, len, rest) = note_at(bytes)?;
    Some(LinePiece {
        found: BorrowedToken::Note { head, len },
        after: PieceBefore::Lengthy,
        rest,
    })
}

#[tactic(auto, unfolding(crate::specs::Reading::rest_read))]
#[inline(never)]
fn rest_piece(first: u8, bytes: &[u8]) -> LinePiece<'_>
    ensures read { (bang : Bool) → shown_piece bang (Some result) ≡ meaning (rest_read first bytes.now) }
    ensures within { (n : ℕ) → found_within result.found n }
{
    let (len, rest) = length_from(bytes);
    LinePiece {
        found: BorrowedToken::Rest {
            seen: first == b'z',
            len,
        },
        after: PieceBefore::Lengthy,
        rest,
    }
}

#[tactic(auto, unfolding(crate::specs::Reading::gap_read))]
#[inline(never)]
fn gap(bytes: &[u8]) -> LinePiece<'_>
    ensures read { (bang : Bool) → shown_piece bang (Some result) ≡ meaning (gap_read bytes.now) }
    ensures within { (n : ℕ) → found_within result.found n }
{
    let (_, rest) = length_from(bytes);
    LinePiece {
        found: BorrowedToken::Passed,
        after: PieceBefore::Lengthy,
        rest,
    }
}

#[tactic(auto, unfolding(crate::specs::Reading::measures_read))]
#[inline(never)]
fn measures(first: u8, bytes: &[u8]) -> LinePiece<'_>
    ensures read { (bang : Bool) → shown_piece bang (Some result) ≡ meaning (measures_read first bytes.now) }
    ensures within { (n : ℕ) → found_within result.found n }
{
    let (digits, rest) = number_at(3, bytes);
    LinePiece {
        found: BorrowedToken::Measures {
            seen: first == b'Z',
            count: count_of(digits),
        },
        after: PieceBefore::Other,
        rest,
    }
}

#[tactic(auto, unfolding(crate::specs::Reading::bar_read))]
fn bar_piece(bytes: &[u8]) -> Option<LinePiece<'_>>
    ensures read { (bang : Bool) → shown_piece bang result ≡ meaning (bar_read bytes.now) }
    ensures within { (n : ℕ) → IfSome result (λ x. found_within x.found n) }
{
    let (bar, rest) = read_bar(bytes)?;
    Some(LinePiece {
        found: BorrowedToken::Bar(bar),
        after: PieceBefore::Bar,
        rest,
    })
}

/// Reads a piece that begins with a dot; `rest` follows the dot.
#[tactic(auto, unfolding(crate::specs::Reading::dot_read))]
#[inline(never)]
fn dot<'a>(bytes: &'a [u8], rest: &'a [u8]) -> Option<LinePiece<'a>>
    requires { bytes.now ≡ code "." ∷ rest.now }
    ensures read { (bang : Bool) → shown_piece bang result ≡ meaning (dot_read rest.now) }
    ensures within { (n : ℕ) → IfSome result (λ x. found_within x.found n) }
{
    match rest.split_first() {
        Some((second, following)) if *second == b'(' => Some(plain(
            BorrowedToken::SlurOn,
            following,
        )),
        Some((second, following)) if *second == b'-' => Some(plain(BorrowedToken::Tie, following)),
        _ => Some(dot_or_bar(bytes, rest)),
    }
}

fn dot_or_bar<'a>(bytes: &'a [u8], rest: &'a [u8]) -> LinePiece<'a>
    ensures read { (bang : Bool)
        → shown_piece bang (Some result)
        ≡ meaning (or_else (bar_read bytes.now) (read (letter_form (code ".")) rest.now)) }
    ensures within { (n : ℕ) → found_within result.found n }
{
    match bar_piece(bytes) {
        Some(piece) => piece,
        None => plain(BorrowedToken::Letter(b'.'), rest),
    }
}

/// Reads a piece that begins with a bracket; `rest` follows the bracket.
#[inline(never)]
fn bracket<'a>(bang: bool, bytes: &'a [u8], rest: &'a [u8]) -> Option<LinePiece<'a>>
    requires cut { bytes.now ≡ code "[" ∷ rest.now }
    requires small { length bytes.now ≤ 2 ^ 30 }
    ensures read { shown_piece bang result ≡ meaning (bracket_form (opening rest.now) bang rest.now) }
    ensures within { IfSome result (λ x. found_within x.found (length bytes.now)) }
{
    match opening(rest) {
        BracketOpening::Bar => bar_piece(bytes),
        BracketOpening::Ending => ending(rest),
        BracketOpening::Inline => inline(rest),
        BracketOpening::Chord => chord(bang, rest),
    }
}

/// Returns what follows an opening bracket, by its first bytes.
pub fn opening(bytes: &[u8]) -> BracketOpening
    ensures { result ≡ opening bytes.now }
{
    let Some((first, rest)) = bytes.split_first() else {
        return BracketOpening::Chord;
    };
    if *first == b'|' {
        BracketOpening::Bar
    } else if is_digit(*first) {
        BracketOpening::Ending
    } else if is_letter(*first) && begins_colon(rest) {
        BracketOpening::Inline
    } else {
        BracketOpening::Chord
    }
}

fn begins_colon(bytes: &[u8]) -> bool
    ensures { result ≡ begins (λ b. b == code ":") bytes.now }
{
    match bytes.split_first() {
        Some((first, _)) => *first == b':',
        None => false,
    }
}

#[tactic(auto, unfolding(crate::specs::Reading::chord_read))]
fn chord(bang: bool, bytes: &[u8]) -> Option<LinePiece<'_>>
    requires { length bytes.now ≤ 2 ^ 30 }
    ensures read { shown_piece bang result ≡ meaning (chord_read bang bytes.now) }
    ensures within { IfSome result (λ x. found_within x.found (length bytes.now)) }
{
    let chord = chord_at(bang, bytes)?;
    Some(LinePiece {
        found: BorrowedToken::Chord {
            inside: chord.inside,
            len: chord.len,
        },
        after: PieceBefore::Lengthy,
        rest: chord.rest,
    })
}

#[tactic(auto, unfolding(crate::specs::Reading::grace_read))]
#[inline(never)]
fn grace(bang: bool, bytes: &[u8]) -> Option<LinePiece<'_>>
    requires { length bytes.now ≤ 2 ^ 30 }
    ensures read { shown_piece bang result ≡ meaning (grace_read bang bytes.now) }
    ensures within { IfSome result (λ x. found_within x.found (length bytes.now)) }
{
    let group = grace_at(bang, bytes)?;
    Some(plain(
        BorrowedToken::Grace {
            slash: group.slash,
            inside: group.inside,
        },
        group.rest,
    ))
}

/// Reads a piece that begins with a parenthesis.
#[tactic(auto, unfolding(crate::specs::Reading::tuplet_read))]
#[inline(always)]
fn paren(bytes: &[u8]) -> LinePiece<'_>
    ensures read { (bang : Bool)
        → shown_piece bang (Some result)
        ≡ meaning (or_else (tuplet_read bytes.now) (read (slur_form false) bytes.now)) }
    ensures within { (n : ℕ) → found_within result.found n }
{
    match tuplet_at(bytes) {
        Some(tuplet) => LinePiece {
            found: BorrowedToken::Tuplet {
                p: tuplet.p,
                q: tuplet.q,
                r: tuplet.r,
            },
            after: PieceBefore::Paren,
            rest: tuplet.rest,
        },
        None => LinePiece {
            found: BorrowedToken::SlurOn,
            after: PieceBefore::Paren,
            rest: bytes,
        },
    }
}

#[tactic(auto, unfolding(crate::specs::Reading::ending_read))]
#[inline(never)]
fn ending(bytes: &[u8]) -> Option<LinePiece<'_>>
    ensures read { (bang bracket : Bool) → shown_piece bang result ≡ meaning (ending_read bracket bytes.now) }
    ensures within { (n : ℕ) → IfSome result (λ x. found_within x.found n) }
{
    let (first, rest) = bytes.split_first()?;
    if !is_digit(*first) {
        return None;
    }
    let (text, rest) = bytes.split_at(1 + ending_len(rest));
    Some(plain(BorrowedToken::Ending(text), rest))
}

fn ending_len(bytes: &[u8]) -> usize
    ensures value { result ≡ prefix_len is_ending bytes.now }
    ensures within { result ≤ length bytes.now }
{
    bytes
        .iter()
        .take_while(|b| (**b >= b'0' && **b <= b'9') || **b == b',' || **b == b'-')
        .count()
}

#[tactic(auto, unfolding(crate::specs::Reading::broken_read, abc_notes::specs::Runs::span))]
#[inline(never)]
fn broken(before: PieceBefore, first: u8, bytes: &[u8]) -> Option<LinePiece<'_>>
    ensures read { (bang : Bool) → shown_piece bang result ≡ meaning (broken_read before first bytes.now) }
    ensures within { (n : ℕ) → IfSome result (λ x. found_within x.found n) }
{
    let right = first == b'>';
    if is_after_broken(right, before) {
        return None;
    }
    let more = same_count(first, bytes);
    let rest = bytes.split_at(more).1;
    let dots = more as u8 + 1;
    Some(LinePiece {
        found: BorrowedToken::Broken { right, dots },
        after: PieceBefore::Broken { right },
        rest,
    })
}

fn same_count(byte: u8, bytes: &[u8]) -> usize
    ensures value { result ≡ prefix_len (λ x. x == byte) (take 2 bytes.now) }
    ensures within { result ≤ length bytes.now }
    ensures few { result ≤ 2 }
{
    bytes.iter().take(2).take_while(|b| **b == byte).count()
}

#[tactic(auto, unfolding(crate::specs::Reading::says_read, abc_notes::specs::Runs::span_all))]
#[inline(never)]
fn says(bytes: &[u8]) -> Option<LinePiece<'_>>
    ensures read { (bang : Bool) → shown_piece bang result ≡ meaning (says_read bytes.now) }
    ensures within { (n : ℕ) → IfSome result (λ x. found_within x.found n) }
{
    let (text, rest) = bytes.split_at(text_len(bytes));
    let (_, rest) = rest.split_first()?;
    Some(plain(BorrowedToken::Says(text), rest))
}

fn text_len(bytes: &[u8]) -> usize
    ensures value { result ≡ prefix_len is_quoted_byte bytes.now }
    ensures within { result ≤ length bytes.now }
{
    bytes.iter().take_while(|b| **b != b'"').count()
}

/// Reads the inline field with which the bytes begin.
#[tactic(auto, unfolding(crate::specs::Reading::inline_read))]
fn inline(bytes: &[u8]) -> Option<LinePiece<'_>>
    ensures read { (bang : Bool) → shown_piece bang result ≡ meaning (inline_read bytes.now) }
    ensures within { (n : ℕ) → IfSome result (λ x. found_within x.found n) }
{
    let (letter, rest) = bytes.split_first()?;
    let (_, rest) = rest.split_first()?;
    let (text, rest) = bracketed(rest);
    let (_, rest) = rest.split_first()?;
    Some(plain(
        BorrowedToken::Inline {
            letter: *letter,
            text,
        },
        rest,
    ))
}

/// Reads a piece that begins with an exclamation mark.
#[tactic(auto, unfolding(crate::specs::Reading::bang_read))]
fn bang_piece(bang: bool, bytes: &[u8]) -> LinePiece<'_>
    ensures read { shown_piece bang (Some result) ≡ meaning (bang_read bang bytes.now) }
    ensures within { (n : ℕ) → found_within result.found n }
{
    if bang {
        return plain(BorrowedToken::Cut, bytes);
    }
    match name_at(bytes) {
        Some((name, rest)) => plain(BorrowedToken::Named(name), rest),
        None => plain(BorrowedToken::Passed, bytes),
    }
}

/// Reads a piece that begins with a plus sign.
#[tactic(auto, unfolding(crate::specs::Reading::plus_read, abc_notes::specs::Runs::span_all))]
#[inline(never)]
fn plus(bytes: &[u8]) -> LinePiece<'_>
    ensures read { (bang : Bool) → shown_piece bang (Some result) ≡ meaning (plus_read bytes.now) }
    ensures within { (n : ℕ) → found_within result.found n }
{
    let following = bytes.split_at(plus_len(bytes)).1;
    match following.split_first() {
        Some((mark, rest)) if *mark == b'+' => plain(BorrowedToken::Passed, rest),
        _ => plain(BorrowedToken::Passed, bytes),
    }
}

fn plus_len(bytes: &[u8]) -> usize
    ensures value { result ≡ prefix_len is_plus_byte bytes.now }
    ensures within { result ≤ length bytes.now }
{
    bytes.iter().take_while(|b| is_plus_byte(**b)).count()
}

fn is_plus_byte(byte: u8) -> bool
    ensures { result ≡ is_plus_byte byte }
{
    !(is_blank(byte) || byte == b'+' || byte == b'|')
}

#[tactic(auto, unfolding(crate::specs::Reading::space_read, abc_notes::specs::Runs::span_all))]
fn space(bytes: &[u8]) -> LinePiece<'_>
    ensures read { (bang : Bool) (b : ℕ) → shown_piece bang (Some result) ≡ meaning (space_read b bytes.now) }
    ensures within { (n : ℕ) → found_within result.found n }
{
    plain(
        BorrowedToken::Space,
        bytes.split_at(leading_blanks(bytes)).1,
    )
}
