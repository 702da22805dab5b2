ghost use Rattle.std.specs.Prelude.{codes};
ghost use Rattle.std.specs.Prelude.{◌≡◌, ◌+◌, ◌*◌, ◌≤◌, ◌++◌, ◌∷◌, OnOk, [], drop, flat_map, length};
ghost use Rattle.std.specs.Fmt.{signed_decimal};
ghost use Rattle.{glyph_paths.specs.Procedure.{numbers}, ps_text.specs.Fields.{shown, quoted, in_parentheses}};

use itoa::write_digits;
use mus_units::{Memory, Text};

/// Writes a number and a space into a line so that they end before `end`. Returns where they begin.
/// They have 21 bytes at most.
fn write_number(line: &mut [u8], end: usize, z: i64) -> usize
    requires { (21 ≤ end) × (end ≤ length line.old) }
    ensures short { (result ≤ end) × (end ≤ result + 21) }
    ensures written { drop result line.new ≡ signed_decimal z ++ (codes " " ++ drop end line.old) }
{
    line[end - 1] = b' ';
    let start = write_digits(z.unsigned_abs(), line, end - 1);
    if z >= 0 {
        return start;
    }
    line[start - 1] = b'-';
    start - 1
}

/// Writes numbers, each followed by a space, into a line so that they end before `end`. Returns
/// where they begin.
#[tactic(auto, unfolding(glyph_paths::specs::Procedure::numbers))]
fn write_numbers(line: &mut [u8], end: usize, zs: &[i64]) -> usize
    requires { (21 * length zs.now ≤ end) × (end ≤ length line.old) }
    ensures short { result ≤ end }
    ensures written { drop result line.new ≡ numbers zs.now ++ drop end line.old }
{
    let mut start = end;
    'places: for place in (0..zs.len()).rev() {
        start = write_number(line, start, zs[place]);
    }
    start
}

/// Adds up to 12 numbers in decimal, each followed by a space, and a name of two letters. They are
/// built from the last to the first, and added at once.
pub(crate) fn put_line(out: &mut Text, zs: &[i64], name: &[u8]) -> Result<(), Memory>
    requires few { length zs.now ≤ 12 }
    requires letters { length name.now ≡ 2 }
    ensures { OnOk result (out.new ≡ out.old ++ numbers zs.now ++ name.now) }
{
    let mut line = [0; 254];
    line[252..].copy_from_slice(name);
    let start = write_numbers(&mut line, 252, zs);
    out.append(&line[start..])
}

/// The end of the lines of marks on a staff at `y`, before the name: the height of the staff and a
/// space, which are written once for all of them.
#[derive(Drop)]
pub struct LineEnd {
    pub y: i64,
    bytes: [u8; 126],
    start: usize,
    ghost room: { (105 ≤ start) × (start ≤ 126) },
    ghost stands: { drop start bytes ≡ numbers (y ∷ []) },
}

impl LineEnd {
    /// Returns the end of the lines of a staff's marks, for the height of the staff, in u.
    #[tactic(auto, unfolding(glyph_paths::specs::Procedure::numbers))]
    pub fn new(y: i64) -> LineEnd
        ensures { result.y ≡ y }
    {
        let mut bytes = [0; 126];
        let start = write_number(&mut bytes, 126, y);
        LineEnd { y, bytes, start }
    }

    /// Adds up to 5 numbers in decimal and the height of the staff, each followed by a space, and a
    /// name of two letters.
    #[tactic(auto, using(crate::proofs::Numbers::one_more))]
    pub(crate) fn put(&self, out: &mut Text, zs: &[i64], name: &[u8]) -> Result<(), Memory>
        requires few { length zs.now ≤ 5 }
        requires letters { length name.now ≡ 2 }
        ensures { OnOk result (out.new ≡ out.old ++ numbers (zs.now ++ self.now.y ∷ []) ++ name.now) }
    {
        let mut line = [0; 128];
        line[126..].copy_from_slice(name);
        line[..126].copy_from_slice(&self.bytes);
        let start = write_numbers(&mut line, self.start, zs);
        out.append(&line[start..])
    }
}

/// Adds a byte of words.
#[tactic(auto, unfolding(crate::specs::Fields::shown))]
fn put_shown(out: &mut Text, b: u8) -> Result<(), Memory>
    ensures { OnOk result (out.new ≡ out.old ++ shown b) }
{
    if b == b'(' || b == b')' || b == b'\\' {
        out.push(b'\\')?;
        out.push(b)
    } else if b < 127 {
        out.push(b)
    } else {
        out.push(b'\\')?;
        out.push(b'0' + b / 64)?;
        out.push(b'0' + b / 8 % 8)?;
        out.push(b'0' + b % 8)
    }
}

/// Adds each byte of words as a page shows it.
fn put_each(out: &mut Text, words: &[u8]) -> Result<(), Memory>
    ensures { OnOk result (out.new ≡ out.old ++ flat_map shown words.now) }
{
    for b in words {
        put_shown(out, *b)?;
    }
    Ok(())
}

/// Adds words in parentheses.
#[tactic(auto, unfolding(crate::specs::Fields::quoted))]
pub fn put_quoted(out: &mut Text, words: &[u8]) -> Result<(), Memory>
    ensures { OnOk result (out.new ≡ out.old ++ quoted words.now) }
{
    out.push(b'(')?;
    put_each(out, words)?;
    out.push(b')')
}

/// Adds words in parentheses, with a space after them.
#[tactic(auto, unfolding(crate::specs::Fields::in_parentheses))]
pub fn put_words(out: &mut Text, words: &[u8]) -> Result<(), Memory>
    ensures { OnOk result (out.new ≡ out.old ++ in_parentheses words.now) }
{
    out.push(b'(')?;
    put_each(out, words)?;
    out.append(b") ")
}
