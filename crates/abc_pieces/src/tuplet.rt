ghost use Rattle.std.specs.Prelude.{◌≡◌, ◌≤◌, ◌-◌, option_map, length, true};
ghost use Rattle.std.specs.List.{list_all};
ghost use Rattle.{abc_lines.specs.Kinds.{code}, mus_units.specs.Bytes.{is_digit}};
ghost use Rattle.abc_pieces.specs.Tuplets.{is_tuplet_digit, p_of, q_of, r_of, tuplet_at, after_p, after_q};
ghost use Rattle.abc_pieces.specs.Tuplets.{value_or_zero, tuplet_shown};

use abc_notes::bytes::skip;
use abc_notes::length::number_at;

/// The numbers of a tuplet, 0 for each missing one, and the rest after it.
#[derive(Clone, Copy)]
pub struct Tuplet<'a> {
    pub p: u8,
    pub q: u8,
    pub r: u8,
    pub rest: &'a [u8],
}

/// Reads the tuplet after a parenthesis.
#[tactic(auto, unfolding(crate::specs::Tuplets::tuplet_at))]
#[inline(never)]
pub(crate) fn tuplet_at(bytes: &[u8]) -> Option<Tuplet<'_>>
    ensures { option_map (λ x. tuplet_shown x.p x.q x.r x.rest.now) result
        ≡ option_map (λ z. tuplet_shown (p_of z.0) (q_of z.0) (r_of z.0) z.1) (tuplet_at bytes.now) }
{
    let (p, rest) = bytes.split_first()?;
    if is_tuplet_digit(*p) {
        Some(after_p(*p, rest))
    } else {
        None
    }
}

fn after_p(p: u8, bytes: &[u8]) -> Tuplet<'_>
    requires { is_tuplet_digit p ≡ true }
    ensures { let z = after_p p bytes.now in
        tuplet_shown result.p result.q result.r result.rest.now ≡ tuplet_shown (p_of z.0) (q_of z.0) (r_of z.0) z.1 }
{
    let (colon, rest) = skip(b':', bytes);
    if colon {
        let (q, rest) = number_at(1, rest);
        after_q(p, q, rest)
    } else {
        Tuplet {
            p: p - b'0',
            q: 0,
            r: 0,
            rest: bytes,
        }
    }
}

fn after_q<'a>(p: u8, q: &'a [u8], bytes: &'a [u8]) -> Tuplet<'a>
    requires p { is_tuplet_digit p ≡ true }
    requires few { length q.now ≤ 2 }
    requires digits { list_all is_digit q.now ≡ true }
    ensures { let z = after_q p (q.now, bytes.now) in
        tuplet_shown result.p result.q result.r result.rest.now ≡ tuplet_shown (p_of z.0) (q_of z.0) (r_of z.0) z.1 }
{
    let (colon, rest) = skip(b':', bytes);
    if colon {
        let (r, rest) = number_at(2, rest);
        Tuplet {
            p: p - b'0',
            q: small_value(q),
            r: small_value(r),
            rest,
        }
    } else {
        Tuplet {
            p: p - b'0',
            q: small_value(q),
            r: 0,
            rest: bytes,
        }
    }
}

fn is_tuplet_digit(byte: u8) -> bool
    ensures { result ≡ is_tuplet_digit byte }
{
    matches!(byte, b'2'..=b'9')
}

/// Returns the value of up to two digits; 0 if there are none.
fn small_value(digits: &[u8]) -> u8
    requires few { length digits.now ≤ 2 }
    requires digits { list_all is_digit digits.now ≡ true }
    ensures { result ≡ value_or_zero digits.now }
{
    let Some((first, more)) = digits.split_first() else {
        return 0;
    };
    match more.split_first() {
        None => digit(*first),
        Some((second, _)) => digit(*first) * 10 + digit(*second),
    }
}

fn digit(byte: u8) -> u8
    ensures value { result ≡ byte - code "0" }
    ensures small { is_digit byte ≡ true → result ≤ 9 }
{
    byte.saturating_sub(b'0')
}
