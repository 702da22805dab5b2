ghost use Rattle.mus_score.specs.Limits.{measure_limit};
ghost use Rattle.std.specs.{Prelude.◌≡◌, Prelude.◌≤◌, Prelude.map, Prelude.IfOk, Prelude.None, List.All};
ghost use Rattle.abc_words.specs.Verses.{verse_count, verse_fault};
ghost use Rattle.abc_signs.specs.Signs.{HasDrawableValues};
ghost use Rattle.abc_events.specs.Bars.{bars_of};
ghost use Rattle.abc_events.specs.Leaves.{leaves_of};
ghost use Rattle.abc_events.specs.Measures.{measures_of};
ghost use Rattle.abc_score.specs.declared.keeping.JudgedVoice.{JudgedVoice};
ghost use Rattle.abc_score.specs.Judged.{HasKept, reads_of};
ghost use Rattle.abc_score.specs.Voices.{IsGoodRead};
ghost use Rattle.abc_score.specs.Score.{forced_of, most_measures, own_measures, score_with, sung_words};
ghost use Rattle.abc_score.specs.Score.{voice_by_header};

use crate::keeping::{JudgedVoice, signs_of_voice};
use crate::sung::sung_words;
use abc_events::{bars_of, forced_bars, measures_of, own_measures};
use abc_fields::Header;
use abc_signs::TreeItem;
use abc_words::{Verses, verse_count};
use mus_score::{Measure, Score, Seat, USUAL_GAP, Voice};
use mus_units::{Bar, Memory, Row, Text};
use std::alloc::Global;
use std::cmp::max;

/// Returns the words of each written event of a voice with these verses, of which there are `count`, and tree items, or
/// no lists if it has no verses.
#[tactic(auto, using(crate::proofs::Wholes::leaves_unsung))]
fn words_where_sung(
    alloc: Global,
    verses: Verses,
    count: usize,
    signs: &[TreeItem],
) -> Result<Row<Row<Option<Text>>>, Memory>
    requires { count ≡ verse_count verses }
    ensures { IfOk result (λ words. leaves_of words signs.now ≡ leaves_of (sung_words verses signs.now) signs.now) }
{
    if count == 0 {
        return Ok(Row::new(alloc));
    }
    sung_words(alloc, verses, signs)
}

/// Returns the measures of a voice with these verses, of which there are `count`, and tree items: one for each bar.
fn measures_with(
    alloc: Global,
    verses: Verses,
    count: usize,
    signs: Row<TreeItem>,
    bars: &[Bar],
) -> Result<Row<Measure>, Memory>
    requires counted { count ≡ verse_count verses }
    requires drawn { All HasDrawableValues signs }
    ensures { IfOk result (λ r. r ≡ measures_of signs (sung_words verses signs) bars.now) }
{
    let words = words_where_sung(alloc, verses, count, signs.as_slice())?;
    let measures = measures_of(alloc, signs, words.as_slice(), bars)?;
    Ok(measures)
}

/// Returns a voice with `n` measures.
#[tactic(auto, unfolding(crate::specs::Score::voice_by_header, crate::specs::Score::written_measures))]
fn voice_by_header(
    alloc: Global,
    header: &Header,
    n: u32,
    judged: JudgedVoice,
) -> Result<Voice, Memory>
    requires good { IsGoodRead judged.read }
    requires kept { HasKept judged }
    requires clear { verse_fault judged.read.verses ≡ None }
    ensures { IfOk result (λ voice. voice ≡ voice_by_header header.now n judged.read) }
{
    let v = judged.read;
    let signs = signs_of_voice(alloc, &v, judged.kept)?;
    let own = bars_of(alloc, v.steps.as_slice(), n)?;
    let verses = verse_count(alloc, &v.verses)?;
    let measures = measures_with(alloc, v.verses, verses, signs, own.bars.as_slice())?;
    let key = header.key.copy(alloc)?;
    Ok(Voice {
        id: v.start.id,
        seat: Seat::Alone,
        gap: USUAL_GAP,
        clef: v.start.clef,
        key,
        meter: header.meter,
        stem: v.start.stem,
        verses: verses as u8,
        first: own.first,
        measures,
    })
}

fn voices_with(
    alloc: Global,
    header: &Header,
    n: u32,
    voices: Row<JudgedVoice>,
) -> Result<Row<Voice>, Memory>
    requires good { All (λ (j : JudgedVoice). IsGoodRead j.read) voices }
    requires kept { All HasKept voices }
    requires clear { All (λ (j : JudgedVoice). verse_fault j.read.verses ≡ None) voices }
    ensures { IfOk result (λ r. r ≡ map (voice_by_header header.now n) (reads_of voices)) }
{
    let mut out = Row::new(alloc);
    for judged in voices.items {
        out.push(voice_by_header(alloc, header, n, judged)?)?;
    }
    Ok(out)
}

/// Returns the number of measures of a voice, which is stored if its tree items were kept.
fn measures_in(judged: &JudgedVoice) -> u64
    requires good { IsGoodRead judged.now.read }
    requires kept { HasKept judged.now }
    ensures { result ≡ own_measures judged.now.read }
{
    if judged.kept.whole {
        judged.kept.measures
    } else {
        own_measures(judged.read.steps.as_slice())
    }
}

/// Returns the number of measures of the voice with the most.
fn most_measures(voices: &[JudgedVoice]) -> u64
    requires good { All (λ (j : JudgedVoice). IsGoodRead j.read) voices.now }
    requires kept { All HasKept voices.now }
    ensures { result ≡ most_measures (reads_of voices.now) }
{
    let mut most = 0;
    for judged in voices {
        most = max(most, measures_in(judged));
    }
    most
}

/// Returns the bars that line breaks in the first voice force. Fewer than two measures have none.
#[tactic(auto, using(crate::proofs::Forced::none_forced))]
fn forced_of(alloc: Global, flow: bool, voices: &[JudgedVoice], n: u32) -> Result<Row<u32>, Memory>
    requires { All (λ (j : JudgedVoice). IsGoodRead j.read) voices.now }
    ensures { IfOk result (λ r. r ≡ forced_of flow (reads_of voices.now) n) }
{
    if flow || n < 2 {
        return Ok(Row::new(alloc));
    }
    match voices.split_first() {
        Some((judged, _)) => forced_bars(alloc, judged.read.steps.as_slice(), n),
        None => Ok(Row::new(alloc)),
    }
}

/// Returns the score of these voices, none of which has a fault.
#[tactic(auto, unfolding(crate::specs::Score::score_with))]
pub fn score_with(
    alloc: Global,
    header: &Header,
    flow: bool,
    voices: Row<JudgedVoice>,
) -> Result<Score, Memory>
    requires good { All (λ (j : JudgedVoice). IsGoodRead j.read) voices }
    requires kept { All HasKept voices }
    requires clear { All (λ (j : JudgedVoice). verse_fault j.read.verses ≡ None) voices }
    requires few { most_measures (reads_of voices) ≤ measure_limit }
    ensures { IfOk result (λ score. score ≡ score_with header.now flow (reads_of voices)) }
{
    let n = most_measures(voices.as_slice()) as u32;
    let forced = forced_of(alloc, flow, voices.as_slice(), n)?;
    Ok(Score {
        voices: voices_with(alloc, header, n, voices)?,
        measures: n,
        forced,
        spread: header.spread,
    })
}
