// The answer to a game's file: a whole text and a status.
ghost use Rattle.std.specs.Prelude.{◌≡◌, IfOk};
ghost use Rattle.corr_run.specs.SolveAnswer.{IsGeneral, SolveAnswer};
ghost use Rattle.report_text.specs.RefusalText.{refusal_text};
ghost use Rattle.report_text.specs.ReportText.{report_text};
ghost use Rattle.corr_run.specs.Reports.{HasStatus};
ghost use Rattle.command_words.specs.Selection.{SelectsSome};

use crate::Status;
use crate::one_node::report_of;
use crate::solving::solve_file;
use cert_check::some_too_wide;
use command_words::Notions;
use either::{Left, Right};
use one_node_file::first_form;
use report_form::{Refusal, Report};
use report_text::{write_refusal, write_report};
use std::alloc::{AllocError, Global};

/// How many bytes `solve` reads.
pub const SOLVE_LIMIT: usize = 4194304;

/// A text that is to be written whole, and the status where it was.
#[derive(Drop)]
pub struct Answer {
    pub text: Vec<u8>,
    pub status: Status,
}

/// The line of a refusal.
pub fn refused(alloc: Global, refusal: &Refusal) -> Result<Answer, AllocError>
    ensures text { IfOk result (λ answer. answer.text.items ≡ refusal_text refusal.now) }
    ensures status { IfOk result (λ answer. answer.status ≡ Status.Refused) }
{
    let text = write_refusal(alloc, refusal)?;
    Ok(Answer {
        text,
        status: Status::Refused,
    })
}

/// The report's text, with the status that its blocks give.
fn report_answer(alloc: Global, report: &Report) -> Result<Answer, AllocError>
    ensures text { IfOk result (λ answer. answer.text.items ≡ report_text report.now) }
    ensures status { IfOk result (λ answer. HasStatus report.now.blocks answer.status) }
{
    let text = write_report(alloc, report)?;
    if some_too_wide(report.blocks()) {
        return Ok(Answer {
            text,
            status: Status::TooWide,
        });
    }
    Ok(Answer {
        text,
        status: Status::Solved,
    })
}

/// What `solve` answers to an input that isn't too long and isn't of the first form.
fn general_answer(alloc: Global, input: &[u8], notions: Notions) -> Result<Answer, AllocError>
    requires general { IsGeneral input.now }
    requires some { SelectsSome notions }
    ensures { IfOk result (λ answer. SolveAnswer notions input.now answer.text.items answer.status) }
{
    match solve_file(alloc, input, notions)? {
        Left(refusal) => {
            let answer = refused(alloc, &refusal)?;
            Ok(answer)
        }
        Right(report) => {
            let answer = report_answer(alloc, &report)?;
            Ok(answer)
        }
    }
}

/// What `solve` answers to the input, of which more than the limit may be given or missing.
pub fn solve_answer(alloc: Global, input: &[u8], notions: Notions) -> Result<Answer, AllocError>
    requires { SelectsSome notions }
    ensures { IfOk result (λ answer. SolveAnswer notions input.now answer.text.items answer.status) }
{
    if input.len() > SOLVE_LIMIT {
        return Ok(Answer {
            text: Vec::from_slice(alloc, b"refused InputTooLong 4194304\n")?,
            status: Status::Refused,
        });
    }
    match first_form(input) {
        Some(pay) => Ok(Answer {
            text: report_of(alloc, &pay, notions)?,
            status: Status::Solved,
        }),
        None => general_answer(alloc, input, notions),
    }
}
