ghost use Rattle.std.specs.Prelude.{◌≡◌, List, All, IfOk, OnOk, flat_map};
ghost use Rattle.eng_io.specs.Streams.{observed};
ghost use Rattle.abc_fields.specs.declared.paper.Paper.{Paper};
ghost use Rattle.abc_fields.specs.Papers.{IsGoodPaper, body_width};
ghost use Rattle.ps_text.specs.Prolog.{prolog};
ghost use Rattle.set_book.specs.declared.outcome.Outcome.{Outcome};
ghost use Rattle.set_pages.specs.{declared.plan.PagePlan.PagePlan, Builder.CanDrawOutcome, Sheet.paper_frame};
ghost use Rattle.abcps.specs.Outcome.{IsCompleteStatus};
ghost use Rattle.abcps.specs.Progress.{CanAdd, IsBegun, IsFinished, IsRunning, IsSameProgress, WillRun, WroteOrStopped};
ghost use Rattle.abcps.specs.Progress.{status_if};

use crate::status::Status;
use abc_fields::Paper;
use eng_io::Sink;
use mus_units::{Memory, Row, Text};
use ps_write::{DocWriter, begin, finish, send_pages};
use set_book::Outcome;
use set_lists::{has_fault, put_reports};
use set_pages::{
    PageBuilder, PagePlan, PlacedOutcome, add_outcomes, new_builder, paper_frame, put_ending,
};
use std::alloc::Global;

/// The state while the tunes of a book are set and its pages are written: where its blocks are so far, the reports of
/// the faults so far, whether there was one, and the document.
#[derive(Drop)]
pub(crate) struct BookProgress {
    press: PageBuilder,
    reported: Text,
    refused: bool,
    writer: DocWriter,
}

/// What is left to report of a book whose document was written: its number of pages, the reports of its faults, and
/// the status.
#[derive(Drop)]
pub(crate) struct WrittenBook {
    pub(crate) pages: u32,
    pub(crate) reported: Text,
    pub(crate) status: Status,
}

/// Returns the status, by whether a tune was refused.
pub(crate) fn status_if(refused: bool) -> Status
    ensures value { result ≡ status_if refused }
    ensures end { IsCompleteStatus result }
{
    if refused {
        Status::SomeRefused
    } else {
        Status::Done
    }
}

/// Begins the document of a book on its paper, before any of its tunes is set.
pub(crate) fn begin_book<O: Sink>(
    alloc: Global,
    paper: &Paper,
    output: &mut O,
) -> Result<BookProgress, Status>
    requires { IsGoodPaper paper.now }
    ensures wrote { WroteOrStopped (observed O.taken O.faults output.old output.new) (prolog (paper_frame paper.now))
        result }
    ensures begun { IfOk result IsBegun }
{
    let writer = begin(alloc, &paper_frame(paper), output)?;
    Ok(BookProgress {
        press: new_builder(),
        reported: Text::new(alloc),
        refused: false,
        writer,
    })
}

/// Writes texts, one after another.
fn send_all<O: Sink>(
    texts: Row<Text>,
    writer: DocWriter,
    output: &mut O,
) -> Result<DocWriter, Status>
    requires { writer.pages ≡ 0 }
    ensures wrote { WroteOrStopped (observed O.taken O.faults output.old output.new) (flat_map (λ text. text) texts)
        result }
    ensures count { IfOk result (λ next. next.pages ≡ 0) }
{
    let mut writer = writer;
    for text in texts.items {
        writer = send_pages(writer, 0, text.as_slice(), output)?;
    }
    Ok(writer)
}

/// Places the outcomes of some tunes after those before them, and adds their reports. The text of their pages is not
/// made yet.
pub(crate) fn place_outcomes(
    alloc: Global,
    paper: &Paper,
    plan: &PagePlan,
    outcomes: Row<Outcome>,
    run: &mut BookProgress,
) -> Result<Row<PlacedOutcome>, Memory>
    requires { CanAdd plan.now paper.now outcomes run.old }
    ensures ready { IfOk result (λ placed. All (CanDrawOutcome (body_width paper.now)) placed) }
    ensures runs { IfOk result (λ placed.
        (before : List Outcome)
        → IsRunning plan.now paper.now before run.old
        → WillRun plan.now paper.now before outcomes placed run.new) }
    ensures uncounted { OnOk result (run.new.writer.pages ≡ 0) }
{
    put_reports(&mut run.reported, outcomes.as_slice())?;
    run.refused = run.refused || has_fault(outcomes.as_slice());
    let placed = add_outcomes(alloc, paper, plan, outcomes, &mut run.press)?;
    Ok(placed)
}

/// Writes the texts of placed outcomes.
pub(crate) fn write_texts<O: Sink>(
    texts: Row<Text>,
    run: BookProgress,
    output: &mut O,
) -> Result<BookProgress, Status>
    requires { run.writer.pages ≡ 0 }
    ensures wrote { WroteOrStopped (observed O.taken O.faults output.old output.new) (flat_map (λ text. text) texts)
        result }
    ensures same { IfOk result (IsSameProgress run) }
{
    let mut run = run;
    run.writer = send_all(texts, run.writer, output)?;
    Ok(run)
}

/// Ends the last page, if one was begun, and the document.
pub(crate) fn finish_book<O: Sink>(
    alloc: Global,
    run: BookProgress,
    output: &mut O,
) -> Result<WrittenBook, Status>
    requires { run.writer.pages ≡ 0 }
    ensures { (plan : PagePlan) (paper : Paper) (outcomes : List Outcome)
        → IsRunning plan paper outcomes run
        → IsFinished outcomes run.press.begun (observed O.taken O.faults output.old output.new) result }
{
    let mut text = Text::new(alloc);
    put_ending(u64::from(run.press.begun), &mut text)?;
    let writer = send_pages(run.writer, run.press.begun, text.as_slice(), output)?;
    finish(alloc, writer, output)?;
    Ok(WrittenBook {
        pages: run.press.begun,
        reported: run.reported,
        status: status_if(run.refused),
    })
}
