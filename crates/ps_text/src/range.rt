ghost use Rattle.std.specs.{Prelude.◌≡◌, Prelude.◌+ℤ◌, Prelude.◌↔◌, Prelude.◌≤◌, Prelude.IsTrue, List.list_all};
ghost use Rattle.ps_text.specs.Range.{IsNearNumber, IsNumber, IsOffset, IsWords, IsArcEnd, IsPlacedMark, IsStem};
ghost use Rattle.ps_text.specs.Range.{IsStretch, IsSpan, is_shown};

const LARGEST: i64 = 1_099_511_627_776;

/// Returns whether a number may be on a page: within 2^40 of 0.
pub fn is_page_number(z: i64) -> bool
    ensures { IsTrue result ↔ IsNumber z }
{
    -LARGEST <= z && z <= LARGEST
}

/// Returns whether two numbers may be on a page.
pub fn are_page_numbers(x: i64, y: i64) -> bool
    ensures { IsTrue result ↔ (IsNumber x × IsNumber y) }
{
    is_page_number(x) && is_page_number(y)
}

#[tactic(auto, unfolding(crate::specs::Range::is_shown))]
fn is_shown_byte(b: u8) -> bool
    ensures { result ≡ is_shown b }
{
    matches!(b, 32..=126 | 160..=255)
}

fn are_shown(words: &[u8]) -> bool
    ensures { result ≡ list_all is_shown words.now }
{
    words.iter().all(|b| is_shown_byte(*b))
}

fn can_hold(len: usize) -> bool
    ensures { IsTrue result ↔ ((1 ≤ len) × (len ≤ 60)) }
{
    1 <= len && len <= 60
}

/// Returns whether words may be on a page: 1 to 60 bytes, each 20 to 7E or A0 to FF.
pub fn can_show(words: &[u8]) -> bool
    ensures { IsTrue result ↔ IsWords words.now }
{
    are_shown(words) && can_hold(words.len())
}

/// Returns whether a number may be an offset of a mark: a signed one of 32 bits.
pub fn is_offset(z: i64) -> bool
    ensures { IsTrue result ↔ IsOffset z }
{
    -2_147_483_648 <= z && z <= 2_147_483_647
}

/// Returns whether two numbers may be offsets of a mark.
fn are_offsets(dx: i64, dy: i64) -> bool
    ensures { IsTrue result ↔ (IsOffset dx × IsOffset dy) }
{
    is_offset(dx) && is_offset(dy)
}

/// Moves a number by an offset: a number of a page, or one already moved by an offset.
pub fn moved(z: i64, by: i64) -> i64
    requires from { IsNearNumber z }
    requires by { IsOffset by }
    ensures { result ≡ z +ℤ by }
{
    z + by
}

/// Returns whether the two points of an end of a beam or an arc may be on a page.
fn are_points(y: i64, height: i64, rise: i64) -> bool
    requires base { IsNumber y }
    requires height { IsOffset height }
    requires rise { IsOffset rise }
    ensures { IsTrue result ↔ (IsNumber (y +ℤ height) × IsNumber ((y +ℤ height) +ℤ rise)) }
{
    let point = moved(y, height);
    let above = moved(point, rise);
    are_page_numbers(point, above)
}

/// Returns whether an end of a beam or an arc may be on a page.
fn is_end(y: i64, height: i64, rise: i64) -> bool
    requires base { IsNumber y }
    requires rise { IsOffset rise }
    ensures { IsTrue result ↔ IsArcEnd y height rise }
{
    is_offset(height) && are_points(y, height, rise)
}

/// Returns whether both ends of a beam or an arc may be on a page.
fn are_ends(y: i64, from: i64, to: i64, rise: i64) -> bool
    requires base { IsNumber y }
    requires rise { IsOffset rise }
    ensures { IsTrue result ↔ (IsArcEnd y from rise × IsArcEnd y to rise) }
{
    is_end(y, from, rise) && is_end(y, to, rise)
}

/// Returns whether a beam or an arc may go from one abscissa to another.
fn is_stretch(x1: i64, x2: i64) -> bool
    ensures { IsTrue result ↔ IsStretch x1 x2 }
{
    are_page_numbers(x1, x2) && x1 < x2
}

fn is_base_and_rise(y: i64, rise: i64) -> bool
    ensures { IsTrue result ↔ (IsNumber y × IsOffset rise) }
{
    is_page_number(y) && is_offset(rise)
}

/// Returns whether a beam or an arc on a staff at `y` may be on a page.
pub fn is_span(y: i64, x1: i64, x2: i64, from: i64, to: i64, rise: i64) -> bool
    ensures { IsTrue result ↔ IsSpan y x1 x2 from to rise }
{
    if !is_base_and_rise(y, rise) {
        return false;
    }
    is_stretch(x1, x2) && are_ends(y, from, to, rise)
}

/// Returns whether a glyph or words at `x`, with offsets, may be on a staff at `y`.
pub fn is_placed(y: i64, x: i64, dx: i64, dy: i64) -> bool
    ensures { IsTrue result ↔ IsPlacedMark y x dx dy }
{
    are_page_numbers(y, x) && are_offsets(dx, dy)
}

/// Returns whether words at `x`, with offsets, may be on a staff at `y`.
pub fn is_words_mark(y: i64, x: i64, dx: i64, dy: i64, words: &[u8]) -> bool
    ensures { IsTrue result ↔ (IsPlacedMark y x dx dy × IsWords words.now) }
{
    is_placed(y, x, dx, dy) && can_show(words)
}

/// Returns whether a stem at `x` may be on a staff at `y`.
pub fn is_stem(y: i64, x: i64, dx: i64, from: i64, to: i64) -> bool
    ensures { IsTrue result ↔ IsStem y x dx from to }
{
    is_placed(y, x, dx, from) && is_offset(to)
}
