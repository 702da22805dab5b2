//! Books set by jobs, and the reports on them.

ghost use Rattle.{abc_lines.specs.Good.{IsGoodBook}, set_lists.specs.Listing.{AreListable}};

use abc_fields::{body_of, read_paper};
use abc_lines::{Book, cut_book};
use case_texts::{CaseError, Report, number_of, put_breaking, put_placed, put_spans};
use eng_jobs::Jobs;
use lay_pages::TitleBlock;
use mus_units::Size;
use set_book::{NoGate, Outcome, set_all};
use set_lists::{
    fault_count, has_fault, outcomes_are_listable, put_listing, put_reports, put_systems,
    set_count, system_count, total_of,
};
use set_tune::{How, SetTune};
use std::thread::Threads;

pub(crate) fn size_name(size: Size) -> &'static str {
    match size {
        Size::Small => "small",
        Size::Big => "big",
    }
}

fn put_title(out: &mut Report, title: &TitleBlock) -> Result<(), CaseError> {
    for row in title.rows.as_slice() {
        out.tell(format_args!("row {} {} {}", size_name(row.size), row.x, row.down))?;
        out.next(row.text.as_slice())?;
        out.end_line()?;
    }
    out.tell(format_args!("title {}\n", title.height))
}

/// Adds a tune that is set: its title rows, its spans, its breaking and its systems.
fn put_set(out: &mut Report, set: &SetTune) -> Result<(), CaseError> {
    put_title(out, &set.title)?;
    put_spans(out, set.spans.as_slice())?;
    put_breaking(out, &set.breaking)?;
    for placed in set.placed.as_slice() {
        put_placed(out, placed)?;
    }
    Ok(())
}

fn put_outcomes(out: &mut Report, outcomes: &[Outcome]) -> Result<(), CaseError> {
    for outcome in outcomes {
        out.tell(format_args!("tune {}\n", outcome.ordinal))?;
        if let Ok(set) = &outcome.result {
            put_set(out, set)?;
        }
    }
    Ok(put_reports(&mut out.text, outcomes)?)
}

/// Adds how many tunes are set and how many have a fault, how many systems there are, and their total.
fn put_counts(out: &mut Report, outcomes: &[Outcome]) -> Result<(), CaseError> {
    out.next_number(b"set ", set_count(outcomes))?;
    out.next_number(b"refused ", fault_count(outcomes))?;
    out.next_number(b"systems ", system_count(outcomes))?;
    out.next_number(b"total ", total_of(outcomes))?;
    out.flag(has_fault(outcomes), b"some fault")?;
    out.end_line()
}

/// Adds the outcomes of a book: each tune that is set, the reports of faults, and the counts; then the systems,
/// and the listing.
fn put_told(out: &mut Report, outcomes: &[Outcome]) -> Result<(), CaseError>
    requires { AreListable outcomes.now }
{
    put_outcomes(out, outcomes)?;
    put_counts(out, outcomes)?;
    put_systems(&mut out.text, outcomes)?;
    Ok(put_listing(&mut out.text, outcomes)?)
}

/// Adds the body of a book's paper, and its outcomes by jobs.
fn put_set_book<R: Threads + Sync>(
    rt: &R,
    out: &mut Report,
    book: &Book,
    jobs: Jobs,
) -> Result<(), CaseError>
    requires { IsGoodBook book.now }
{
    let paper = read_paper(book);
    let (width, height) = body_of(&paper);
    out.tell(format_args!("body {width} {height}\n"))?;
    let how = How::unmoved(false);
    let outcomes = set_all(rt, out.alloc, book, &paper, how, jobs, &NoGate)?;
    outcomes_are_listable();
    put_told(out, outcomes.as_slice())
}

/// Adds a book set by jobs.
pub(crate) fn put_book<R: Threads + Sync>(
    rt: &R,
    out: &mut Report,
    words: &str,
    text: &[u8],
) -> Result<(), CaseError> {
    let count = number_of::<u8>(words)?;
    if count < 1 || count > 64 || text.len() > 1_000_000 {
        return out.next(b"no jobs\n");
    }
    let book = cut_book(out.alloc, text)?;
    put_set_book(rt, out, &book, Jobs { count })
}
