ghost use Rattle.std.specs.Prelude.{◌≡◌, ◌≢◌, true, false, nat_lt, if◌then◌else◌, length, slice_set, ◌+◌, ◌^◌, ◌<◌};
ghost use Rattle.std.specs.Prelude.{◌≤◌, ℕ, List, [], ◌∷◌, ◌++◌, Some, IfOk};
ghost use Rattle.lay_breaks.specs.{Breaking.last_from, Spans.MayFollow, Spans.listed};
ghost use Rattle.lay_cert.specs.Lines.{line_text};
ghost use Rattle.lay_cert.specs.Listing.{Entry};
ghost use Rattle.eng_reader.specs.Answers.{IsStep};
ghost use Rattle.lay_cert.specs.ReaderStates.{listings, last_tune_from};
ghost use Rattle.lay_cert.specs.Represents.{IsChoosing, IsGoodProving, IsSound, Represents, Proves};
ghost use Rattle.lay_cert.specs.Represents.{entry_so_far, entry_with_total};
ghost use Rattle.lay_cert.specs.Verdicts.{AreVerdicts};
ghost use Rattle.lay_cert.specs.declared.check.Judged.{Judged};
ghost use Rattle.lay_cert.specs.declared.check.Verdict.TheVariants.{Least, NotLeast};
ghost use Rattle.lay_cert.specs.ReaderStates as place;
ghost use Rattle.lay_cert.specs.declared.lines.ListingLine.TheVariants as line;

use crate::check::{Judged, Verdict};
use crate::costs::{Listed, cost_of};
use crate::lines::{ListingLine, is_line};
use crate::numbers::{read_choice, read_span, read_tune};
use lay_breaks::{BreakError, Breaking, Span, least};
use mus_units::{Memory, Row};
use std::alloc::Global;

/// A tune whose spans and breaks are being read.
#[derive(Drop)]
pub struct Choosing {
    pub tune: u32,
    pub bars: u32,
    pub spans: Row<Span>,
    /// The last span.
    pub last: Option<Span>,
    /// For each bar, the index of the first span from it.
    pub firsts: Vec<usize>,
    pub breaks: Row<u32>,
    /// The last break, or 0.
    pub at: u32,
    /// The cost of the chosen spans so far.
    pub total: u64,
}

/// A tune whose choice is complete, and whose potentials are being read.
#[derive(Drop)]
pub struct Proving {
    pub tune: u32,
    pub bars: u32,
    /// The potentials, recomputed from the spans.
    pub potentials: Row<Option<u64>>,
    /// The bar whose potential comes next.
    pub next: u32,
    pub verdict: Verdict,
}

/// What the lines so far have said.
#[derive(Drop)]
pub enum ListingState {
    Begun,
    Between { last: u32 },
    Choosing(Choosing),
    Proving(Proving),
    Ended,
}

fn after_nothing(alloc: Global, raw: &[u8]) -> Result<Option<ListingState>, Memory>
    ensures { IfOk result (IsStep listings (λ s. Represents s []) place.begun raw.now) }
{
    if is_line(alloc, raw, ListingLine::Listing)? {
        return Ok(Some(ListingState::Between { last: 0 }));
    }
    Ok(None)
}

fn open_entry(alloc: Global, tune: u32, bars: u32) -> Result<Choosing, Memory>
    requires few { bars ≤ 4000 }
    ensures sound { IfOk result IsChoosing }
    ensures empty { IfOk result (λ c. (c.tune ≡ tune) × (c.bars ≡ bars) × (c.spans ≡ []) × (c.breaks ≡ [])) }
{
    let firsts = vec![in alloc; 0; bars as usize + 1]?;
    Ok(Choosing {
        tune,
        bars,
        spans: Row::new(alloc),
        last: None,
        firsts,
        breaks: Row::new(alloc),
        at: 0,
        total: 0,
    })
}

fn after_entry(alloc: Global, last: u32, raw: &[u8]) -> Result<Option<ListingState>, Memory>
    ensures { (es : List Entry) (js : List Judged) → last ≡ last_tune_from 0 es → AreVerdicts es js
        → IfOk result (IsStep listings (λ s. Represents s js) (place.between es) raw.now) }
{
    if is_line(alloc, raw, ListingLine::End)? {
        return Ok(Some(ListingState::Ended));
    }
    let Some((tune, bars)) = read_tune(raw) else {
        return Ok(None);
    };
    if tune <= last || 4000 < bars {
        return Ok(None);
    }
    Ok(Some(ListingState::Choosing(open_entry(alloc, tune, bars)?)))
}

/// Returns whether the span may come next in the list.
fn may_follow(choosing: &Choosing, span: &Span) -> bool
    requires { IsChoosing choosing.now }
    ensures yes { result ≡ true → MayFollow choosing.now.bars choosing.now.last span.now }
    ensures no { result ≡ false → MayFollow choosing.now.bars choosing.now.last span.now → ⊥ }
{
    if span.b <= span.a || choosing.bars < span.b || 1 << 40 < span.badness {
        return false;
    }
    let is_first = span.b == span.a + 1;
    match choosing.last {
        None => is_first,
        Some(last) => {
            if last.a < span.a {
                is_first
            } else {
                span.a == last.a && last.b < span.b && span.b - last.b == 1
            }
        }
    }
}

/// Records where the spans from a bar begin, if this span is the first from its bar.
fn index_span(mut firsts: Vec<usize>, span: Span, at: usize) -> Vec<usize>
    requires inside { span.a < length firsts.items }
    requires rises { span.a < span.b }
    ensures first { span.b ≡ span.a + 1 → result.items ≡ slice_set firsts.items span.a at }
    ensures later { span.b ≢ span.a + 1 → result.items ≡ firsts.items }
{
    if span.b != span.a + 1 {
        return firsts;
    }
    firsts[span.a as usize] = at;
    firsts
}

fn add_span(choosing: Choosing, span: Span) -> Result<Choosing, Memory>
    requires sound { IsChoosing choosing }
    requires first { choosing.breaks ≡ [] }
    requires follows { MayFollow choosing.bars choosing.last span }
    ensures sound { IfOk result IsChoosing }
    ensures more { IfOk result (λ c.
        (c.tune ≡ choosing.tune)
        × (c.bars ≡ choosing.bars)
        × (c.spans ≡ choosing.spans ++ span ∷ [])
        × (c.breaks ≡ choosing.breaks)) }
{
    let Choosing {
        tune,
        bars,
        mut spans,
        last: _,
        firsts,
        breaks,
        at,
        total,
    } = choosing;
    let firsts = index_span(firsts, span, spans.len());
    spans.push(span)?;
    Ok(Choosing {
        tune,
        bars,
        spans,
        last: Some(span),
        firsts,
        breaks,
        at,
        total,
    })
}

fn add_break(mut choosing: Choosing, bar: u32, cost: u64) -> Result<Choosing, Memory>
    requires sound { IsChoosing choosing }
    requires listed { listed choosing.spans choosing.at bar ≡ Some cost }
    ensures sound { IfOk result IsChoosing }
    ensures more { IfOk result (λ c.
        (c.tune ≡ choosing.tune)
        × (c.bars ≡ choosing.bars)
        × (c.spans ≡ choosing.spans)
        × (c.breaks ≡ choosing.breaks ++ bar ∷ [])) }
{
    choosing.breaks.push(bar)?;
    choosing.total += cost;
    choosing.at = bar;
    Ok(choosing)
}

/// Returns the cost of the span from the last break to the bar, if it is listed.
fn next_cost(choosing: &Choosing, bar: u32) -> Option<u64>
    requires { IsChoosing choosing.now }
    ensures { result ≡ listed choosing.now.spans choosing.now.at bar }
{
    if bar <= choosing.at {
        return None;
    }
    cost_of(
        choosing.spans.as_slice(),
        choosing.firsts.as_slice(),
        choosing.at,
        bar,
    )
}

fn verdict(total: u64, better: u64, breaks: Row<u32>) -> Verdict
    ensures { result ≡ (if nat_lt better total then NotLeast total better breaks else Least total) }
{
    if better < total {
        Verdict::NotLeast {
            total,
            better,
            breaks,
        }
    } else {
        Verdict::Least { total }
    }
}

/// Computes the potentials of the listed spans, and compares the cost of the choice with the least.
fn prove(alloc: Global, choosing: Choosing) -> Result<Proving, Memory>
    requires sound { IsChoosing choosing }
    requires ends { choosing.at ≡ choosing.bars }
    ensures { IfOk result (λ v. Proves v (entry_with_total choosing)) }
{
    let Choosing {
        tune,
        bars,
        spans,
        last: _,
        firsts,
        breaks: _,
        at: _,
        total,
    } = choosing;
    let costs = Listed {
        bars,
        spans,
        firsts,
    };
    match least(alloc, &costs, bars) {
        Ok(
            Breaking {
                breaks,
                total: better,
                potentials,
            },
        ) => Ok(Proving {
            tune,
            bars,
            potentials,
            next: 0,
            verdict: verdict(total, better, breaks),
        }),
        Err(BreakError::NoWay { reached: _ }) => unreachable!(),
        Err(BreakError::Memory) => Err(Memory),
    }
}

fn span_next(choosing: Choosing, span: Span) -> Result<Option<ListingState>, Memory>
    requires sound { IsChoosing choosing }
    requires small { (span.a < 2 ^ 32) × (span.b < 2 ^ 32) × (span.badness < 2 ^ 64) }
    ensures { (es : List Entry) (js : List Judged) → AreVerdicts es js
        → IfOk result (IsStep listings (λ s. Represents s js) (place.choosing es (entry_so_far choosing))
        (line_text (line.OneSpan span))) }
{
    if !choosing.breaks.as_slice().is_empty() || !may_follow(&choosing, &span) {
        return Ok(None);
    }
    Ok(Some(ListingState::Choosing(add_span(choosing, span)?)))
}

fn break_next(choosing: Choosing, bar: u32) -> Result<Option<ListingState>, Memory>
    requires sound { IsChoosing choosing }
    requires small { bar < 2 ^ 32 }
    ensures { (es : List Entry) (js : List Judged) → AreVerdicts es js
        → IfOk result (IsStep listings (λ s. Represents s js) (place.choosing es (entry_so_far choosing))
        (line_text (line.Choose bar))) }
{
    match next_cost(&choosing, bar) {
        Some(cost) => Ok(Some(ListingState::Choosing(add_break(choosing, bar, cost)?))),
        None => Ok(None),
    }
}

fn after_heading(
    alloc: Global,
    choosing: Choosing,
    raw: &[u8],
) -> Result<Option<ListingState>, Memory>
    requires sound { IsChoosing choosing }
    ensures { (es : List Entry) (js : List Judged) → AreVerdicts es js
        → IfOk result (IsStep listings (λ s. Represents s js) (place.choosing es (entry_so_far choosing)) raw.now) }
{
    if let Some(span) = read_span(raw) {
        return span_next(choosing, span);
    }
    if let Some(bar) = read_choice(raw) {
        return break_next(choosing, bar);
    }
    let total = choosing.total;
    if choosing.at != choosing.bars || !is_line(alloc, raw, ListingLine::Total { total })? {
        return Ok(None);
    }
    Ok(Some(ListingState::Proving(prove(alloc, choosing)?)))
}

fn after_total(
    alloc: Global,
    proving: Proving,
    raw: &[u8],
    judged: &mut Row<Judged>,
) -> Result<Option<ListingState>, Memory>
    requires kept { IsGoodProving proving }
    ensures { (es : List Entry) (e : Entry) → AreVerdicts es judged.old → Proves proving e
        → IfOk result (IsStep listings (λ s. Represents s judged.new) (place.proving es e) raw.now) }
{
    let bar = proving.next;
    let least = proving.potentials.as_slice()[bar as usize];
    if !is_line(alloc, raw, ListingLine::Potential { bar, least })? {
        return Ok(None);
    }
    let Proving {
        tune,
        bars,
        potentials,
        next,
        verdict,
    } = proving;
    if next == bars {
        judged.push(Judged { tune, verdict })?;
        return Ok(Some(ListingState::Between { last: tune }));
    }
    Ok(Some(ListingState::Proving(Proving {
        tune,
        bars,
        potentials,
        next: next + 1,
        verdict,
    })))
}

/// Returns the state after the line, or `None` if the line isn't good.
pub fn state_after(
    alloc: Global,
    state: ListingState,
    raw: &[u8],
    judged: &mut Row<Judged>,
) -> Result<Option<ListingState>, Memory>
    requires { IsSound state }
    ensures { (p : place.ReaderState) → Represents state judged.old p
        → IfOk result (IsStep listings (λ s. Represents s judged.new) p raw.now) }
{
    match state {
        ListingState::Begun => after_nothing(alloc, raw),
        ListingState::Between { last } => after_entry(alloc, last, raw),
        ListingState::Choosing(choosing) => after_heading(alloc, choosing, raw),
        ListingState::Proving(proving) => after_total(alloc, proving, raw, judged),
        ListingState::Ended => Ok(None),
    }
}
