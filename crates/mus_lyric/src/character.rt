ghost use Rattle.std.specs.Prelude.{◌≡◌, ◌<◌, ◌∷◌, [], length, IfSome, MatchOption};
ghost use Rattle.mus_lyric.specs.Characters.{character_of, characters};

/// The meaning of a byte in a line of words: a printed byte or a sign.
#[derive(Clone, Copy, PartialEq, Eq)]
pub enum Character {
    Printed(u8),
    Blank,
    Hyphen,
    Underscore,
    Star,
    BarLine,
}

/// Returns the first character of some bytes, and the bytes after it.
pub(crate) fn first_character(bytes: &[u8]) -> Option<(Character, &[u8])>
    ensures first { MatchOption result (bytes.now ≡ []) (λ x. characters bytes.now ≡ x.0 ∷ characters x.1.now) }
    ensures shorter { IfSome result (λ x. length x.1.now < length bytes.now) }
{
    match bytes {
        [] => None,
        [b'\\', b'-', rest @ ..] => Some((Character::Printed(b'-'), rest)),
        [byte, rest @ ..] => Some((character_of(*byte), rest)),
    }
}

/// Returns the meaning of a single byte.
#[tactic(auto, unfolding(crate::specs::Characters::character_of))]
fn character_of(byte: u8) -> Character
    ensures { result ≡ character_of byte }
{
    match byte {
        b' ' | b'\t' => Character::Blank,
        b'-' => Character::Hyphen,
        b'_' => Character::Underscore,
        b'*' => Character::Star,
        b'|' => Character::BarLine,
        b'~' => Character::Printed(b' '),
        _ => Character::Printed(byte),
    }
}
