// The answer to a report with its game's file behind it.
ghost use Rattle.std.specs.Prelude.{◌≡◌, ◌^◌, ◌≤◌, drop, IfOk, length, MatchOption, true};
ghost use Rattle.connected_pairs.specs.Connected.{IsPairsOf};
ghost use Rattle.report_reader.specs.Syntax.{IsReadFrom};
ghost use Rattle.corr_run.specs.CheckAnswer.{CheckAnswer, verdict_status};
ghost use Rattle.corr_run.specs.FirstRefusal.{IsOfSizes};
ghost use Rattle.corr_run.specs.GameOfFile.{IsGameOfBytes};
ghost use Rattle.corr_run.specs.Reports.{FitPrograms, notions_of};

use crate::Status;
use crate::answer::{Answer, refused};
use crate::prepare::{Ready, ReadyEnd, prepare};
use crate::solving::size_refusal;
use answer_text::write_verdict;
use cert_check::check;
use report_form::{BlockList, Refusal, Report, Verdict};
use report_reader::{ReportRefusal, read_report};
use std::alloc::{AllocError, Global};

/// How many bytes `check` reads.
pub const CHECK_LIMIT: usize = 1073741824;

fn status_of(verdict: Verdict) -> Status
    ensures { result ≡ verdict_status verdict }
{
    match verdict {
        Verdict::Yes => Status::Yes,
        Verdict::Partial => Status::TooWide,
        Verdict::NoScale => Status::No,
        Verdict::No { .. } => Status::No,
    }
}

/// The refusal of the first notion of these blocks whose program is too large.
fn report_size_refusal(ready: &Ready, blocks: &BlockList) -> Option<Refusal>
    requires { IsPairsOf ready.now.game ready.now.pairs }
    ensures { MatchOption result (FitPrograms ready.now.game ready.now.pairs (notions_of blocks.now)) (IsOfSizes ready.now.game ready.now.pairs (notions_of blocks.now)) }
{
    for k in 0..blocks.len() {
        let notion = blocks.at(k).notion;
        if let Some(refusal) = size_refusal(&ready.game, &ready.pairs, true, notion) {
            return Some(refusal);
        }
    }
    None
}

/// The verdict on the report, or the refusal of a program that is too large.
fn judged(
    alloc: Global,
    input: &[u8],
    place: usize,
    report: &Report,
    ready: &Ready,
) -> Result<Answer, AllocError>
    requires short { length input.now ≤ 2 ^ 30 }
    requires read { IsReadFrom input.now report.now place }
    requires game { IsGameOfBytes (drop place input.now) ready.now.game ready.now.pairs }
    ensures { IfOk result (λ answer. CheckAnswer input.now answer.text.items answer.status) }
{
    if let Some(refusal) = report_size_refusal(ready, report.blocks()) {
        let answer = refused(alloc, &refusal)?;
        return Ok(answer);
    }
    let verdict = check(alloc, &ready.game, &ready.pairs, report)?;
    let text = write_verdict(alloc, verdict, report.blocks())?;
    Ok(Answer {
        text,
        status: status_of(verdict),
    })
}

/// What comes of a report and the file behind this place of the input.
fn report_answer(
    alloc: Global,
    input: &[u8],
    place: usize,
    report: &Report,
) -> Result<Answer, AllocError>
    requires short { length input.now ≤ 2 ^ 30 }
    requires within { place ≤ length input.now }
    requires read { IsReadFrom input.now report.now place }
    ensures { IfOk result (λ answer. CheckAnswer input.now answer.text.items answer.status) }
{
    match prepare(alloc, input.split_at(place).1) {
        Ok(ready) => {
            let answer = judged(alloc, input, place, report, &ready)?;
            Ok(answer)
        }
        Err(ReadyEnd::Refused(refusal)) => {
            let answer = refused(alloc, &refusal)?;
            Ok(answer)
        }
        Err(ReadyEnd::NoMemory) => Err(AllocError),
    }
}

/// What `check` answers to the input, of which more than the limit may be given or missing.
pub fn check_answer(alloc: Global, input: &[u8]) -> Result<Answer, AllocError>
    ensures { IfOk result (λ answer. CheckAnswer input.now answer.text.items answer.status) }
{
    if input.len() > CHECK_LIMIT {
        return Ok(Answer {
            text: Vec::from_slice(alloc, b"refused InputTooLong 1073741824\n")?,
            status: Status::Refused,
        });
    }
    match read_report(alloc, input) {
        Ok((report, place)) => {
            let answer = report_answer(alloc, input, place, &report)?;
            Ok(answer)
        }
        Err(ReportRefusal::Syntax { at }) => {
            let answer = refused(alloc, &Refusal::Report { at })?;
            Ok(answer)
        }
        Err(ReportRefusal::NoMemory) => Err(AllocError),
    }
}
