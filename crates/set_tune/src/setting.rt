ghost use Rattle.std.specs.Prelude.{◌≡◌, ◌≤◌, ◌<◌, ◌^◌, ℕ, length, IfErr, IfOk, IfSome, None, Some, Ok};
ghost use Rattle.std.specs.Option.{option_copied};
ghost use Rattle.{mus_score.specs.GoodScore.{IsGoodScore}, abc_lines.specs.Good.{IsGoodTune}};
ghost use Rattle.abc_lines.specs.declared.fault.TuneError.TheVariants as errors;
ghost use Rattle.abc_fields.specs.Good.{IsGoodDefaults};
ghost use Rattle.abc_fields.specs.Headers.{first_line_number};
ghost use Rattle.abc_fields.specs.Papers.{IsGoodPaper, body_height, body_width};
ghost use Rattle.lay_pages.specs.Filling.{first_tall};
ghost use Rattle.lay_pages.specs.Titles.{title_block_of};
ghost use Rattle.set_tune.specs.Blocks.{blocks_of};
ghost use Rattle.set_tune.specs.Setting.{HasScore, IsScoreDrawn, IsDrawRefusal, IsLaid, IsLaidOut, IsLayoutRefusal};
ghost use Rattle.set_tune.specs.Setting.{IsMoveRefusal, IsMovedRefusal, IsRefusal, IsScoreRefusal, IsSetTune};
ghost use Rattle.set_tune.specs.Setting.{IsTallRefusal, IsWritten, layout_fault, share_fault};
ghost use Rattle.set_tune.specs.Terms.{manner_of, terms_by, terms_of, unmoved};
ghost use Rattle.lay_shared.specs.Plans.{IsPlanFor, SpellsPlan, score_ids};
ghost use Rattle.lay_shared.specs.declared.plan.Plan.{Plan};
ghost use Rattle.mus_transpose.specs.Moved.{IsMoved};
ghost use Rattle.mus_drawn.specs.Sounds.{sounds_of};
ghost use Rattle.law_transposition.specs.Higher.{AreHigher};

use crate::blocks::blocks_of;
use crate::how::How;
use crate::tune::SetTune;
use abc_fields::{Defaults, Header, Paper, body_of, read_header};
use abc_lines::{Fault, FaultKind, Line, TuneError, TuneText};
use abc_score::build;
use eng_jobs::Jobs;
use law_transposition::moved_sounds_higher;
use lay_pages::{TitleBlock, first_tall, title_block};
use lay_shared::{Plan, drawn, read_plan, score_ids, shared};
use lay_tune::{Layout, LayoutError, lay_out};
use mus_score::Score;
use mus_transpose::moved_or_same;
use mus_units::Memory;
use std::alloc::Global;
use std::thread::Threads;

/// Sets a tune on paper as it is written, by one job: `set_how` with a score that isn't moved.
pub fn set<R: Threads + Sync>(
    rt: &R,
    alloc: Global,
    tune: &TuneText,
    defaults: &Defaults,
    paper: &Paper,
    flow: bool,
) -> Result<SetTune, TuneError>
    requires tune { IsGoodTune tune.now }
    requires defaults { IsGoodDefaults defaults.now }
    requires paper { IsGoodPaper paper.now }
    ensures set { IfOk result (IsSetTune tune.now (terms_by defaults.now paper.now (unmoved flow))) }
    ensures fault { IfErr result (IsRefusal tune.now (terms_by defaults.now paper.now (unmoved flow))) }
{
    set_how(rt, alloc, tune, defaults, paper, How::unmoved(flow))
}

/// Sets a tune on paper. Returns its header, its score as drawn and moved by the semitones in `how`, the score laid
/// out on the width of the body, and its title block; or the first of its faults. If `how` says so, no bar is forced.
/// The result is the same for every number of jobs.
///
/// The fault is the first of these that applies: a fault of the header; of the body; of the score; its voices can't
/// share staves as `%%score` says; the score can't be moved that far; no breaking of its measures is legal; a group
/// of its blocks is higher than the body. The last three are reported at the tune's first line, and so is a fault of
/// the file's `%%score`.
pub fn set_how<R: Threads + Sync>(
    rt: &R,
    alloc: Global,
    tune: &TuneText,
    defaults: &Defaults,
    paper: &Paper,
    how: How,
) -> Result<SetTune, TuneError>
    requires tune { IsGoodTune tune.now }
    requires defaults { IsGoodDefaults defaults.now }
    requires paper { IsGoodPaper paper.now }
    ensures set { IfOk result (IsSetTune tune.now (terms_of defaults.now paper.now how)) }
    ensures fault { IfErr result (IsRefusal tune.now (terms_of defaults.now paper.now how)) }
{
    let (width, high) = body_of(paper);
    let (header, score) = match moved_score(alloc, tune, defaults, how) {
        Ok(read) => read,
        Err(error) => return Err(error),
    };
    match lay_out_score(rt, alloc, tune, width, header, score, how.jobs) {
        Ok(laid) => on_pages(alloc, tune, high, laid),
        Err(error) => Err(error),
    }
}

/// Returns the header of a tune and its score, drawn and moved, or the first fault up to there.
fn moved_score(
    alloc: Global,
    tune: &TuneText,
    defaults: &Defaults,
    how: How,
) -> Result<(Header, Score), TuneError>
    requires tune { IsGoodTune tune.now }
    requires defaults { IsGoodDefaults defaults.now }
    ensures score { IfOk result (λ read. HasScore tune.now defaults.now (manner_of how) read.0 read.1) }
    ensures fault { IfErr result (IsMovedRefusal tune.now defaults.now (manner_of how)) }
{
    let (header, written) = match read_score(alloc, tune, defaults, how.flow) {
        Ok(read) => read,
        Err(error) => return Err(error),
    };
    let drawn = match draw_score(alloc, written, &header.staves) {
        Ok(drawn) => drawn,
        Err(error) => return Err(error),
    };
    match move_score(alloc, tune, drawn, &header, how.by) {
        Ok(score) => Ok((header, score)),
        Err(error) => Err(error),
    }
}

/// Returns the header of a tune and its score as it is written, or the first fault of either.
fn read_score(
    alloc: Global,
    tune: &TuneText,
    defaults: &Defaults,
    flow: bool,
) -> Result<(Header, Score), TuneError>
    requires tune { IsGoodTune tune.now }
    requires defaults { IsGoodDefaults defaults.now }
    ensures score { IfOk result (λ read. IsWritten tune.now defaults.now flow read.0 read.1) }
    ensures fault { IfErr result (IsScoreRefusal tune.now defaults.now) }
{
    let header = match read_header(alloc, tune, defaults) {
        Ok(header) => header,
        Err(error) => return Err(error),
    };
    match build(alloc, &header, tune, flow) {
        Ok(score) => Ok((header, score)),
        Err(error) => Err(error),
    }
}

/// Returns the score to draw: the written one, or what the line of its staves makes of it.
fn draw_score(alloc: Global, written: Score, staves: &Option<Line>) -> Result<Score, TuneError>
    requires { IsGoodScore written }
    ensures drawn { IfOk result (λ drawn. IsScoreDrawn staves.now written (Ok drawn)) }
    ensures good { IfOk result IsGoodScore }
    ensures fault { IfErr result (IsDrawRefusal staves.now written) }
{
    match staves {
        Some(line) => draw_by(alloc, &written, line),
        None => Ok(written),
    }
}

/// Returns the score to draw as a line says, or the fault of the line.
fn draw_by(alloc: Global, written: &Score, line: &Line) -> Result<Score, TuneError>
    requires { IsGoodScore written.now }
    ensures drawn { IfOk result (λ drawn. IsScoreDrawn (Some line.now) written.now (Ok drawn)) }
    ensures good { IfOk result IsGoodScore }
    ensures fault { IfErr result (IsDrawRefusal (Some line.now) written.now) }
{
    let plan = match plan_of(alloc, written, line)? {
        Some(plan) => plan,
        None => return Err(share_fault(line, FaultKind::BadScore)),
    };
    if !shared(alloc, written, &plan)? {
        return Err(share_fault(line, FaultKind::BadShare));
    }
    Ok(drawn(alloc, written, &plan)?)
}

/// Returns the plan that a line spells for the voices of a score.
fn plan_of(alloc: Global, written: &Score, line: &Line) -> Result<Option<Plan>, Memory>
    requires { IsGoodScore written.now }
    ensures spells { IfOk result (λ read. IfSome read (SpellsPlan (score_ids written.now) line.now.text)) }
    ensures only { IfOk result
        (λ read. (plan : Plan) → SpellsPlan (score_ids written.now) line.now.text plan → read ≡ Some plan) }
    ensures good { IfOk result (λ read. IfSome read (IsPlanFor (length written.now.voices))) }
{
    let ids = score_ids(alloc, written)?;
    read_plan(alloc, line.text.as_slice(), ids.as_slice())
}

/// Returns a fault of the line that says how voices share staves.
fn share_fault(line: &Line, kind: FaultKind) -> TuneError
    ensures { result ≡ errors.Fault (share_fault line.now kind) }
{
    TuneError::Fault(Fault {
        kind,
        line: line.number,
        column: 1,
    })
}

/// Returns the score moved by a number of semitones, or the fault if it can't be moved that far.
fn move_score(
    alloc: Global,
    tune: &TuneText,
    drawn: Score,
    header: &Header,
    by: i8,
) -> Result<Score, TuneError>
    requires { IsGoodScore drawn }
    ensures moved { IfOk result (λ score. IsMoved drawn header.now.key by (Some score)) }
    ensures sounds { IfOk result (λ score. AreHigher by (sounds_of drawn) (sounds_of score)) }
    ensures good { IfOk result IsGoodScore }
    ensures fault { IfErr result (IsMoveRefusal tune.now drawn header.now.key by) }
{
    moved_sounds_higher();
    match moved_or_same(alloc, drawn, &header.key, by)? {
        Some(score) => Ok(score),
        None => Err(layout_fault(tune, FaultKind::BadMove)),
    }
}

/// Returns the number of the first line.
fn first_line(lines: &[Line]) -> u32
    ensures { result ≡ first_line_number lines.now }
{
    match lines {
        [] => 0,
        [line, ..] => line.number,
    }
}

/// Returns a fault of the move or of the layout, at the first line of the tune.
fn layout_fault(tune: &TuneText, kind: FaultKind) -> TuneError
    ensures { result ≡ errors.Fault (layout_fault tune.now kind) }
{
    TuneError::Fault(Fault {
        kind,
        line: first_line(tune.lines.as_slice()),
        column: 1,
    })
}

/// Returns the title block of a header.
fn title_of(alloc: Global, width: u32, header: &Header) -> Result<TitleBlock, Memory>
    requires titles { length header.now.titles ≤ 2 ^ 32 }
    requires composers { length header.now.composers ≤ 2 ^ 32 }
    ensures { IfOk result
        (λ title. title ≡ title_block_of width header.now.titles header.now.composers header.now.tempo) }
{
    title_block(
        alloc,
        width,
        header.titles.as_slice(),
        header.composers.as_slice(),
        header.tempo.as_ref(),
    )
}

/// Lays out a score on a width by `jobs` jobs, under the title block of its header.
fn lay_out_score<R: Threads + Sync>(
    rt: &R,
    alloc: Global,
    tune: &TuneText,
    width: u32,
    header: Header,
    score: Score,
    jobs: Jobs,
) -> Result<SetTune, TuneError>
    requires titles { length header.titles ≤ 2 ^ 32 }
    requires composers { length header.composers ≤ 2 ^ 32 }
    requires good { IsGoodScore score }
    requires heard { 0 < score.measures → 1 ≤ length score.voices }
    ensures laid { IfOk result (IsLaid width header score) }
    ensures fault { IfErr result (IsLayoutRefusal tune.now width score) }
{
    let Layout {
        breaking,
        systems,
        placed,
        spans,
        heights,
    } = match lay_out(rt, alloc, &score, width, jobs) {
        Ok(layout) => layout,
        Err(LayoutError::NoWay { reached }) => {
            return Err(layout_fault(tune, FaultKind::NoWay { reached }));
        }
        Err(LayoutError::Memory) => return Err(TuneError::Memory),
    };
    let title = title_of(alloc, width, &header)?;
    Ok(SetTune {
        header,
        score,
        title,
        breaking,
        systems,
        placed,
        spans,
        heights,
    })
}

/// Returns the same tune if none of its groups of blocks is higher than the body.
fn on_pages(alloc: Global, tune: &TuneText, high: u32, laid: SetTune) -> Result<SetTune, TuneError>
    requires good { IsGoodScore laid.score }
    requires laid { (width : ℕ) × IsLaidOut width laid }
    ensures same { IfOk result (λ t. t ≡ laid) }
    ensures fits { IfOk result (λ t. first_tall high (blocks_of t.title t.heights) ≡ None) }
    ensures tall { IfErr result (IsTallRefusal tune.now high laid) }
{
    let blocks = blocks_of(alloc, &laid.title, laid.heights.as_slice())?;
    match first_tall(blocks.as_slice(), high) {
        None => Ok(laid),
        Some(block) => Err(layout_fault(tune, FaultKind::TooTall { block })),
    }
}
