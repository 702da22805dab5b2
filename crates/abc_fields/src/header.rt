ghost use Rattle.std.specs.Prelude.{◌≡◌, ◌≤◌, ◌<◌, length, map, position, IfOk, IfErr, IfSome, Some, None, Ok};
ghost use Rattle.std.specs.Prelude.{unwrap_or, nat_lt, []};
ghost use Rattle.std.specs.List.{filter_map};
ghost use Rattle.std.specs.Option.{option_map, option_copied};
ghost use Rattle.abc_lines.specs.Results.{IsOnlyFault, IsOnlyResult};
ghost use Rattle.abc_field.specs.Fields.{field_of, IsGoodField};
ghost use Rattle.abc_field.specs.Keys.{key_over, IsGoodKeyText};
ghost use Rattle.abc_field.specs.Last.{last_of};
ghost use Rattle.mus_units.specs.Good.{IsGoodKey, IsGoodMeter, IsGoodUnit};
ghost use Rattle.abc_fields.specs.Good.{IsGoodDefaults, GoodUnitIn};
ghost use Rattle.abc_fields.specs.Voicing.{with_id, ids_after, ids_of, clef_for, wish_for, voice_from, voices_of};
ghost use Rattle.abc_fields.specs.FileHeader.{AreStavesOf};
ghost use Rattle.abc_fields.specs.HeaderFaults.{IsClearHeader, IsHeaderRefusal};
ghost use Rattle.abc_fields.specs.HeaderValues.{AreValuesOf};
ghost use Rattle.abc_fields.specs.Headers.{is_key_line, key_place, title_in, composer_in, tempo_in, key_in, meter_in};
ghost use Rattle.abc_fields.specs.Headers.{unit_in, breaks_in, spread_in, key_signs, key_clef, unit_by, meter_from};
ghost use Rattle.abc_fields.specs.Headers.{staves_from, header_of, fields_of, line_fault, field_fault, no_key};
ghost use Rattle.abc_fields.specs.Headers.{first_fault, header_fault, first_line_number, head_lines, IsHeaderOf};
ghost use Rattle.abc_fields.specs.Headers.{IsHeaderFault, IsHeaderResult, AreGoodFields, HasGoodValues, IsGoodHeader};

use crate::defaults::{Defaults, last_staves, text_of};
use crate::voicing::{VoiceIds, mention, voices_of};
use abc_field::directive::Breaks;
use abc_field::field::{Field, FieldError, field_at};
use abc_field::key::KeyText;
use abc_field::meter::default_unit;
use abc_field::voice::VoiceDef;
use abc_lines::{Fault, FaultKind, Line, TuneError, TuneText};
use mus_pitch::with_signs;
use mus_units::{Clef, Frac, Key, Memory, Meter, Row, Sign, Spread, Text};
use std::alloc::Global;

/// The header of a tune. `voices` are in order of first mention, each with the last clef and the last stem direction
/// that its lines name. `staves` is the text of the tune's last `%%score` with the number of its line, or else that
/// of the file's with the number of the tune's first line. `body` is the index of the first line after the `K:`.
#[derive(Drop)]
pub struct Header {
    pub titles: Row<Text>,
    pub composers: Row<Text>,
    pub tempo: Option<Text>,
    pub key: Key,
    pub clef: Clef,
    pub meter: Meter,
    pub unit: Frac,
    pub voices: Row<VoiceDef>,
    pub breaks: Breaks,
    pub spread: Spread,
    pub staves: Option<Line>,
    pub body: u32,
}

/// Returns the header of a tune, or its first fault. A tune without `K:` has its fault at its first line. Any other
/// has it at the first line up to the `K:` that has a fault in its field or mentions a seventeenth voice, at column
/// 1.
pub fn read_header(alloc: Global, tune: &TuneText, defaults: &Defaults) -> Result<Header, TuneError>
    requires { IsGoodDefaults defaults.now }
    ensures value { IfOk result (λ header. IsHeaderOf tune.now defaults.now header) }
    ensures clear { IfOk result (λ header. IsClearHeader tune.now) }
    ensures none { IfOk result (λ header. header_fault tune.now ≡ None) }
    ensures good { IfOk result (λ header. IsGoodHeader tune.now header) }
    ensures first { IfErr result (λ e. IsHeaderRefusal tune.now e) }
    // Of each kind the last line that says a value counts.
    ensures values { IfOk result (λ header. AreValuesOf tune.now defaults.now header) }
    ensures staves { IfOk result (λ header. AreStavesOf tune.now defaults.now header.staves) }
    ensures fault { IfErr result (λ e. IsHeaderFault tune.now e) }
    // There is no other header, and there is no other first fault.
    ensures only { IfOk result (λ header. IsOnlyResult (IsHeaderResult tune.now defaults.now) (Ok header)) }
    ensures only_fault { IfErr result (λ e. IsOnlyFault (IsHeaderResult tune.now defaults.now) e) }
{
    tune_header(alloc, tune, defaults)
}

/// Returns the header of a tune, or why there is none.
fn tune_header(alloc: Global, tune: &TuneText, defaults: &Defaults) -> Result<Header, TuneError>
    requires { IsGoodDefaults defaults.now }
    ensures value { IfOk result (λ header. IsHeaderOf tune.now defaults.now header) }
    ensures none { IfOk result (λ header. header_fault tune.now ≡ None) }
    ensures good { IfOk result (λ header. IsGoodHeader tune.now header) }
    ensures fault { IfErr result (λ e. IsHeaderFault tune.now e) }
{
    match header_or_fault(alloc, tune, defaults) {
        Ok(Ok(header)) => Ok(header),
        Ok(Err(fault)) => Err(TuneError::Fault(fault)),
        Err(_) => Err(TuneError::Memory),
    }
}

#[tactic(auto, unfolding(crate::specs::Headers::header_fault, crate::specs::Headers::IsHeaderOf))]
fn header_or_fault(
    alloc: Global,
    tune: &TuneText,
    defaults: &Defaults,
) -> Result<Result<Header, Fault>, Memory>
    requires { IsGoodDefaults defaults.now }
    ensures value { IfOk result (λ read. IfOk read (λ header. IsHeaderOf tune.now defaults.now header)) }
    ensures none { IfOk result (λ read. IfOk read (λ header. header_fault tune.now ≡ None)) }
    ensures good { IfOk result (λ read. IfOk read (λ header. IsGoodHeader tune.now header)) }
    ensures fault { IfOk result (λ read. IfErr read (λ fault. header_fault tune.now ≡ Some fault)) }
{
    let lines = tune.lines.as_slice();
    match key_place(lines) {
        Some(place) => {
            read_head(
                alloc,
                lines.split_at(place + 1).0,
                defaults,
                first_line_number(lines),
            )
        }
        None => Ok(Err(no_key(tune))),
    }
}

/// Returns the fault of a tune without `K:`, at its first line.
fn no_key(tune: &TuneText) -> Fault
    ensures { result ≡ no_key tune.now }
{
    Fault {
        kind: FaultKind::NoKey,
        line: first_line_number(tune.lines.as_slice()),
        column: 1,
    }
}

fn first_line_number(lines: &[Line]) -> u32
    ensures { result ≡ first_line_number lines.now }
{
    match lines.split_first() {
        Some((line, _)) => line.number,
        None => 0,
    }
}

/// Returns the index of the first `K:`.
fn key_place(lines: &[Line]) -> Option<usize>
    ensures value { result ≡ key_place lines.now }
    ensures within { IfSome result (λ place. place < length lines.now) }
{
    lines.iter().position(|line| is_key_line(line))
}

fn is_key_line(line: &Line) -> bool
    ensures { result ≡ is_key_line line.now }
{
    text_of(b'K', line).is_some()
}

/// Reads the header in these lines, the `K:` last, of a tune whose first line has this number.
fn read_head(
    alloc: Global,
    lines: &[Line],
    defaults: &Defaults,
    first: u32,
) -> Result<Result<Header, Fault>, Memory>
    requires { IsGoodDefaults defaults.now }
    ensures value { IfOk result (λ read.
        IfOk read (λ header.
        header
        ≡ header_of (fields_of lines.now) defaults.now (staves_from lines.now defaults.now first) (length lines.now))) }
    ensures none { IfOk result (λ read. IfOk read (λ header. first_fault [] lines.now ≡ None)) }
    ensures good { IfOk result (λ read. IfOk read (λ header. HasGoodValues header)) }
    ensures fault { IfOk result (λ read. IfErr read (λ fault. first_fault [] lines.now ≡ Some fault)) }
{
    match read_fields(alloc, lines)? {
        Ok(read) => {
            let staves = staves_from(alloc, lines, defaults, first)?;
            Ok(Ok(header_of(alloc, &read, defaults, staves, lines.len())?))
        }
        Err(fault) => Ok(Err(fault)),
    }
}

/// The fields of a header's lines, and the ids of its voices.
#[derive(Drop)]
struct HeaderFields {
    fields: Row<Field>,
    ids: VoiceIds,
}

/// Returns the fields of lines, or the first fault among them.
fn read_fields(alloc: Global, lines: &[Line]) -> Result<Result<HeaderFields, Fault>, Memory>
    ensures fields { IfOk result (λ read. IfOk read (λ r. r.fields ≡ fields_of lines.now)) }
    ensures ids { IfOk result (λ read. IfOk read (λ r. r.ids ≡ ids_of (fields_of lines.now))) }
    ensures none { IfOk result (λ read. IfOk read (λ r. first_fault [] lines.now ≡ None)) }
    ensures good { IfOk result (λ read. IfOk read (λ r. AreGoodFields r.fields)) }
    ensures few { IfOk result (λ read. IfOk read (λ r. length r.ids ≤ 16)) }
    ensures fault { IfOk result (λ read. IfErr read (λ fault. first_fault [] lines.now ≡ Some fault)) }
{
    let mut ids = VoiceIds::new(alloc);
    let mut fields = Row::new(alloc);
    for line in lines {
        match read_line(alloc, &mut ids, line)? {
            Ok(field) => fields.push(field)?,
            Err(fault) => return Ok(Err(fault)),
        }
    }
    Ok(Ok(HeaderFields { fields, ids }))
}

/// Returns the field of a line, which may mention one more voice, or the line's fault.
fn read_line(alloc: Global, ids: &mut VoiceIds, line: &Line) -> Result<Result<Field, Fault>, Memory>
    ensures field { IfOk result (λ read. IfOk read (λ f. field_of line.now.text ≡ Ok f)) }
    ensures ids { IfOk result (λ read. IfOk read (λ f. ids.new ≡ ids_after ids.old f)) }
    ensures none { IfOk result (λ read. IfOk read (λ f. field_fault ids.old line.now (Ok f) ≡ None)) }
    ensures good { IfOk result (λ read. IfOk read (λ f. IsGoodField f)) }
    ensures few { IfOk result (λ read. IfOk read (λ f. length ids.new ≤ 16)) }
    ensures fault { IfOk result
        (λ read. IfErr read (λ fault. field_fault ids.old line.now (field_of line.now.text) ≡ Some fault)) }
{
    match field_at(alloc, line) {
        Ok(field) => noted(alloc, ids, line, field),
        Err(FieldError::Fault(kind)) => Ok(Err(line_fault(kind, line))),
        Err(FieldError::Memory) => Err(Memory),
    }
}

/// Records the voice that a field mentions and returns the field, or a fault if the voice is the seventeenth.
fn noted(
    alloc: Global,
    ids: &mut VoiceIds,
    line: &Line,
    field: Field,
) -> Result<Result<Field, Fault>, Memory>
    requires { IsGoodField field }
    ensures field { IfOk result (λ read. IfOk read (λ f. f ≡ field)) }
    ensures ids { IfOk result (λ read. IfOk read (λ f. ids.new ≡ ids_after ids.old f)) }
    ensures none { IfOk result (λ read. IfOk read (λ f. field_fault ids.old line.now (Ok f) ≡ None)) }
    ensures good { IfOk result (λ read. IfOk read (λ f. IsGoodField f)) }
    ensures few { IfOk result (λ read. IfOk read (λ f. length ids.new ≤ 16)) }
    ensures fault { IfOk result (λ read. IfErr read (λ fault. field_fault ids.old line.now (Ok field) ≡ Some fault)) }
{
    mention(alloc, ids, &field)?;
    if ids.len() > 16 {
        return Ok(Err(line_fault(FaultKind::TooManyVoices, line)));
    }
    Ok(Ok(field))
}

/// Returns a fault at the first column of a line.
fn line_fault(kind: FaultKind, line: &Line) -> Fault
    ensures { result ≡ line_fault kind line.now }
{
    Fault {
        kind,
        line: line.number,
        column: 1,
    }
}

/// Returns the line of the tune's last `%%score`, or else the file's, at the tune's first line.
fn staves_from(
    alloc: Global,
    lines: &[Line],
    defaults: &Defaults,
    first: u32,
) -> Result<Option<Line>, Memory>
    ensures { IfOk result (λ staves. staves ≡ staves_from lines.now defaults.now first) }
{
    if let Some(own) = last_staves(alloc, lines)? {
        return Ok(Some(own));
    }
    match &defaults.staves {
        Some(other) => Ok(Some(Line {
            number: first,
            text: other.text.copy(alloc)?,
        })),
        None => Ok(None),
    }
}

/// Builds the header from its fields.
fn header_of(
    alloc: Global,
    read: &HeaderFields,
    defaults: &Defaults,
    staves: Option<Line>,
    body: usize,
) -> Result<Header, Memory>
    requires ids { read.now.ids ≡ ids_of read.now.fields }
    requires few { length read.now.ids ≤ 16 }
    requires good { AreGoodFields read.now.fields }
    requires defaults { IsGoodDefaults defaults.now }
    ensures value { IfOk result (λ header. header ≡ header_of read.now.fields defaults.now staves body) }
    ensures good { IfOk result (λ header. HasGoodValues header) }
{
    let fields = read.fields.as_slice();
    let meter = meter_from(fields, defaults);
    let Ok(body) = u32::try_from(body) else {
        return Err(Memory);
    };
    Ok(Header {
        titles: titles_of(alloc, fields)?,
        composers: composers_of(alloc, fields)?,
        tempo: last_tempo(alloc, fields)?,
        key: key_of(alloc, fields)?,
        clef: clef_of(fields),
        meter,
        unit: unit_from(fields, defaults, meter),
        voices: voices_of(alloc, &read.ids, fields)?,
        breaks: last_breaks(fields).unwrap_or(defaults.breaks),
        spread: last_spread(fields).unwrap_or(defaults.spread),
        staves,
        body,
    })
}

/// Returns the tune's last meter, or else the file's.
fn meter_from(fields: &[Field], defaults: &Defaults) -> Meter
    requires good { AreGoodFields fields.now }
    requires defaults { IsGoodDefaults defaults.now }
    ensures value { result ≡ meter_from fields.now defaults.now }
    ensures good { IsGoodMeter result }
{
    good_meter(fields).unwrap_or(defaults.meter)
}

fn good_meter(fields: &[Field]) -> Option<Meter>
    requires { AreGoodFields fields.now }
    ensures value { result ≡ last_of meter_in fields.now }
    ensures good { IfSome result (λ m. IsGoodMeter m) }
{
    last_meter(fields)
}

fn unit_from(fields: &[Field], defaults: &Defaults, meter: Meter) -> Frac
    requires good { AreGoodFields fields.now }
    requires defaults { IsGoodDefaults defaults.now }
    ensures value { result ≡ unit_by (last_of unit_in fields.now) defaults.now.unit meter }
    ensures good { IsGoodUnit result }
{
    unit_by(good_unit(fields), defaults.unit, meter)
}

fn good_unit(fields: &[Field]) -> Option<Frac>
    requires { AreGoodFields fields.now }
    ensures value { result ≡ last_of unit_in fields.now }
    ensures good { GoodUnitIn result }
{
    last_unit(fields)
}

/// Returns the tune's last unit, or else the file's, or else the one for the tune's meter.
fn unit_by(own: Option<Frac>, other: Option<Frac>, meter: Meter) -> Frac
    requires own { GoodUnitIn own }
    requires other { GoodUnitIn other }
    ensures value { result ≡ unit_by own other meter }
    ensures good { IsGoodUnit result }
{
    match own {
        Some(unit) => unit,
        None => match other {
            Some(unit) => unit,
            None => default_unit(meter),
        },
    }
}

fn titles_of(alloc: Global, fields: &[Field]) -> Result<Row<Text>, Memory>
    ensures { IfOk result (λ row. row ≡ filter_map title_in fields.now) }
{
    let mut titles = Row::new(alloc);
    for field in fields {
        if let Field::Title(text) = field {
            titles.push(Text::from_slice(alloc, text.as_slice())?)?;
        }
    }
    Ok(titles)
}

fn composers_of(alloc: Global, fields: &[Field]) -> Result<Row<Text>, Memory>
    ensures { IfOk result (λ row. row ≡ filter_map composer_in fields.now) }
{
    let mut composers = Row::new(alloc);
    for field in fields {
        if let Field::Composer(text) = field {
            composers.push(Text::from_slice(alloc, text.as_slice())?)?;
        }
    }
    Ok(composers)
}

fn last_tempo(alloc: Global, fields: &[Field]) -> Result<Option<Text>, Memory>
    ensures { IfOk result (λ last. last ≡ last_of tempo_in fields.now) }
{
    match tempo_text(fields) {
        Some(text) => Ok(Some(Text::from_slice(alloc, text)?)),
        None => Ok(None),
    }
}

fn tempo_text(fields: &[Field]) -> Option<&[u8]>
    ensures { option_copied result ≡ last_of tempo_in fields.now }
{
    let mut last = None;
    for field in fields {
        if let Field::Tempo(text) = field {
            last = Some(text.as_slice());
        }
    }
    last
}

/// Returns the header's key, applied to no accidentals.
fn key_of(alloc: Global, fields: &[Field]) -> Result<Key, Memory>
    requires { AreGoodFields fields.now }
    ensures value { IfOk result (λ key. key.signs ≡ key_signs (last_of key_in fields.now)) }
    ensures good { IfOk result (λ key. IsGoodKey key) }
{
    match good_key(fields) {
        Some(text) => whole_key(alloc, text),
        None => Ok(Key {
            signs: Row::new(alloc),
        }),
    }
}

fn whole_key(alloc: Global, text: &KeyText) -> Result<Key, Memory>
    requires { IsGoodKeyText text.now }
    ensures value { IfOk result (λ key. key.signs ≡ key_over [] text.now) }
    ensures good { IfOk result (λ key. IsGoodKey key) }
{
    match &text.key {
        Some(key) => same_key(alloc, key),
        None => with_signs(
            alloc,
            &Key {
                signs: Row::new(alloc),
            },
            text.adds.as_slice(),
        ),
    }
}

fn same_key(alloc: Global, key: &Key) -> Result<Key, Memory>
    requires { IsGoodKey key.now }
    ensures value { IfOk result (λ new. new.signs ≡ key.now.signs) }
    ensures good { IfOk result (λ new. IsGoodKey new) }
{
    let signs = Row::from_slice(alloc, key.signs.as_slice())?;
    Ok(Key { signs })
}

/// Returns the header's clef, or treble if none is named.
fn clef_of(fields: &[Field]) -> Clef
    ensures { result ≡ key_clef (last_of key_in fields.now) }
{
    match last_key(fields) {
        Some(text) => text.clef.unwrap_or(Clef::Treble),
        None => Clef::Treble,
    }
}

fn good_key(fields: &[Field]) -> Option<&KeyText>
    requires { AreGoodFields fields.now }
    ensures value { option_copied result ≡ last_of key_in fields.now }
    ensures good { IfSome result (λ text. IsGoodKeyText text.now) }
{
    last_key(fields)
}

fn last_key(fields: &[Field]) -> Option<&KeyText>
    ensures { option_copied result ≡ last_of key_in fields.now }
{
    let mut last = None;
    for field in fields {
        if let Field::Key(text) = field {
            last = Some(text);
        }
    }
    last
}

fn last_meter(fields: &[Field]) -> Option<Meter>
    ensures { result ≡ last_of meter_in fields.now }
{
    let mut last = None;
    for field in fields {
        last = meter_in(field).or(last);
    }
    last
}

fn meter_in(field: &Field) -> Option<Meter>
    ensures { result ≡ meter_in field.now }
{
    match field {
        Field::Meter(meter) => Some(*meter),
        _ => None,
    }
}

fn last_unit(fields: &[Field]) -> Option<Frac>
    ensures { result ≡ last_of unit_in fields.now }
{
    let mut last = None;
    for field in fields {
        last = unit_in(field).or(last);
    }
    last
}

fn unit_in(field: &Field) -> Option<Frac>
    ensures { result ≡ unit_in field.now }
{
    match field {
        Field::Unit(unit) => Some(*unit),
        _ => None,
    }
}

fn last_breaks(fields: &[Field]) -> Option<Breaks>
    ensures { result ≡ last_of breaks_in fields.now }
{
    let mut last = None;
    for field in fields {
        last = breaks_in(field).or(last);
    }
    last
}

fn breaks_in(field: &Field) -> Option<Breaks>
    ensures { result ≡ breaks_in field.now }
{
    match field {
        Field::Breaks(breaks) => Some(*breaks),
        _ => None,
    }
}

fn last_spread(fields: &[Field]) -> Option<Spread>
    ensures { result ≡ last_of spread_in fields.now }
{
    let mut last = None;
    for field in fields {
        last = spread_in(field).or(last);
    }
    last
}

fn spread_in(field: &Field) -> Option<Spread>
    ensures { result ≡ spread_in field.now }
{
    match field {
        Field::Spread(spread) => Some(*spread),
        _ => None,
    }
}
