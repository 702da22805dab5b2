ghost use Rattle.std.specs.Prelude.{⊤};

use crate::asked::put_asked_for;
use crate::books::{put_book, put_field_text, put_line_kind};
use crate::fields::{put_field_of_line, put_named_field};
use crate::headers::{put_defaults_of_book, put_headers_of_book};
use crate::music::{put_line_parts, put_music, put_prefix, put_spelling};
use crate::papers::{put_body_of_book, put_paper_of_book};
use crate::pitches::{put_alteration, put_height, put_key, put_laid_key, put_signature};
use crate::units::{put_parts, put_ticks, put_value_of};
use case_texts::{Answers, Case, CaseError, Report};

/// The calls that read, and those that make a score or ask about one.
pub(crate) struct ReadingCalls;

impl Answers for ReadingCalls {
    ghost ready = { λ _. ⊤ };

    fn put_answer(&self, out: &mut Report, case: Case<'_>, input: &[u8]) -> Result<(), CaseError> {
        match case.call {
            "read_music" => put_music(out, case.word, input),
            "read_prefix" => put_prefix(out, case.word, input),
            "read_part" => put_line_parts(out, case.word, input),
            "spell" => put_spelling(out, case.word, input),
            _ => put_lines(out, case, input),
        }
    }
}

/// Adds the value of a call that reads books, fields or headers.
fn put_lines(out: &mut Report, case: Case<'_>, input: &[u8]) -> Result<(), CaseError> {
    match case.call {
        "cut_book" => put_book(out, input),
        "kind_of" => put_line_kind(out, input),
        "field_text" => put_field_text(out, input),
        "read_field" => put_field_of_line(out, input),
        "read_named" => put_named_field(out, case.word, input),
        "read_defaults" => put_defaults_of_book(out, input),
        "read_header" => put_headers_of_book(out, input),
        "read_paper" => put_paper_of_book(out, input),
        "body_of" => put_body_of_book(out, input),
        _ => put_value(out, case, input),
    }
}

/// Adds the value of a call on lengths, pitches and keys, or of one that makes a score or asks about one.
fn put_value(out: &mut Report, case: Case<'_>, input: &[u8]) -> Result<(), CaseError> {
    match case.call {
        "value_of" => put_value_of(out, case.input),
        "parts_of" => put_parts(out, case.input),
        "ticks_of" => put_ticks(out, case.input),
        "height" => put_height(out, case.word, input),
        "signature" => put_signature(out, case.word, case.input),
        "key_of" => put_key(out, case.input),
        "lay" => put_laid_key(out, case.word, input),
        "in_force" => put_alteration(out, case.word, input),
        _ => put_asked_for(out, case, input),
    }
}
