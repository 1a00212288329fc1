// The field that is asked about: a rows text, or a page of a fumen text.
ghost use Rattle.std.specs.Prelude.{◌≡◌, ◌≢◌, ◌≤◌, Err, None, Some, IfOk, IfErr};
ghost use Rattle.well.specs.Well.{filled};
ghost use Rattle.fumen_digits.specs.Framing.{digits_in};
ghost use Rattle.pc_outside.specs.declared.answers.Refused.{Refused};
ghost use Rattle.pc_settings.specs.Request.{rows_text};
ghost use Rattle.pc_settings.specs.Views.{text_view};
ghost use Rattle.pc_source.specs.Faults.{field_fault, text_fault};
ghost use Rattle.pc_source.specs.FieldText.{HasPrefix, field_needs, itself, text_given};
ghost use Rattle.pc_source.specs.Had.{HasField, HasFumenField, IsRefusedInput, dash_view};
ghost use Rattle.pc_source.specs.Task.{is_source, nothing};

use crate::page::{field_of, page_at};
use crate::pages::text_pages;
use pc_faults::Fault;
use pc_outside::Refused;
use pc_settings::FieldWords;
use std::alloc::Global;
use well::Well;

/// What a fumen text `-` stands for.
#[derive(Clone, Copy, Debug, PartialEq, Eq)]
pub enum Dash<'a> {
    /// The bytes of the source.
    Source(&'a [u8]),
    /// Itself, if the source has something else than the field.
    Itself,
}

/// The field that the words give. Of a fumen text, the field is the page with this number, counted from 1. A refusal is
/// the first fault of its text, or that memory ran out.
#[tactic(auto, using(crate::proofs::FieldLaws::prefix_needs))]
pub fn field(
    alloc: Global,
    words: FieldWords<'_>,
    number: u32,
    dash: Dash<'_>,
) -> Result<Well, Refused<Fault>>
    requires { 1 ≤ number }
    ensures field { IfOk result (λ well. HasField (text_view words.entry) number (dash_view dash.entry) (filled well)) }
    ensures refused { IfErr result
        (λ refused. IsRefusedInput (field_fault (text_view words.entry) number (dash_view dash.entry)) refused) }
    ensures memory { result ≡ Err Refused.NoMemory → field_needs (text_view words.entry) ≢ nothing }
    ensures prefix { result ≡ Err Refused.NoMemory → HasPrefix (text_view words.entry) (dash_view dash.entry) }
{
    match words {
        FieldWords::Rows(text) => match rows_field(text) {
            Ok(well) => Ok(well),
            Err(fault) => Err(Refused::Fault(fault)),
        },
        FieldWords::Tetfu(word) => fumen_field(alloc, text_given(word, dash), number),
    }
}

/// Whether the field is in the source's text.
#[tactic(auto, using(crate::proofs::FieldLaws::dash_is_source))]
pub fn is_of_source(words: FieldWords<'_>) -> bool
    ensures { result ≡ is_source (field_needs (text_view words.entry)) }
{
    match words {
        FieldWords::Rows(_) => false,
        FieldWords::Tetfu(word) => word == "-",
    }
}

fn rows_field(text: &str) -> Result<Well, Fault>
    ensures field { IfOk result (λ well. HasField (rows_text text.now) 1 itself (filled well)) }
    ensures fault { IfErr result (λ fault. field_fault (rows_text text.now) 1 itself ≡ Some fault) }
{
    match Well::from_rows(text.as_bytes()) {
        Ok(well) => Ok(well),
        Err(fault) => Err(Fault::Rows(fault)),
    }
}

/// The text that a word gives.
fn text_given<'a>(word: &'a str, dash: Dash<'a>) -> &'a [u8]
    ensures { result.now ≡ text_given word.entry.now (dash_view dash.entry) }
{
    match dash {
        Dash::Source(bytes) if word == "-" => bytes,
        _ => word.as_bytes(),
    }
}

/// The field of this page of a fumen text.
#[tactic(auto, using(std::proofs::lemmas::Result::err_from_is_err_and, fumen_digits::proofs::CallerLemmas::err_passed))]
fn fumen_field(alloc: Global, text: &[u8], number: u32) -> Result<Well, Refused<Fault>>
    requires { 1 ≤ number }
    ensures field { IfOk result (λ well. HasFumenField text.now number (filled well)) }
    ensures refused { IfErr result (λ refused. IsRefusedInput (text_fault (Some number) text.now) refused) }
    ensures memory { result ≡ Err Refused.NoMemory → digits_in text.now ≢ None }
{
    let pages = text_pages(alloc, text)?;
    match page_at(&pages, number) {
        Ok(page) => Ok(field_of(page)),
        Err(fault) => Err(Refused::Fault(fault)),
    }
}
