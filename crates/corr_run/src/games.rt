// The answers to the commands that make a game.
ghost use Rattle.std.specs.Prelude.{◌≡◌, ◌^◌, ◌≤◌, IfOk, length};
ghost use Rattle.answer_text.specs.SummaryText.{summary_text};
ghost use Rattle.command_words.specs.Selection.{SelectsSome};
ghost use Rattle.game_gen.specs.GameText.{game_text, greatest};
ghost use Rattle.report_form.specs.View.{ReportView};
ghost use Rattle.corr_run.specs.GenAnswer.{GenAnswer};
ghost use Rattle.corr_run.specs.WorkAnswer.{WorkAnswer};
ghost use Rattle.corr_run.specs.Reports.{HasStatus};

use crate::Status;
use crate::answer::{Answer, SOLVE_LIMIT, refused};
use crate::solving::solve_file;
use answer_text::write_summary;
use cert_check::some_too_wide;
use command_words::Notions;
use either::{Left, Right};
use game_gen::{GenRefusal, Kind, generate};
use report_form::{BlockList, Refusal};
use std::alloc::{AllocError, Global};

/// The file of a generated game, or the refusal of its size.
pub fn gen_answer(alloc: Global, kind: Kind, n: u32, seed: u64) -> Result<Answer, AllocError>
    requires { 1 ≤ n }
    ensures { IfOk result (λ answer. GenAnswer kind n seed answer.text.items answer.status) }
{
    match generate(alloc, kind, n, seed) {
        Ok(text) => Ok(Answer {
            text,
            status: Status::Written,
        }),
        Err(GenRefusal::TooLarge { greatest }) => {
            let answer = refused(alloc, &Refusal::TooLarge { greatest })?;
            Ok(answer)
        }
        Err(GenRefusal::NoMemory) => Err(AllocError),
    }
}

/// The summary of these blocks, with the status that they give.
fn summed(
    alloc: Global,
    kind: Kind,
    n: u32,
    seed: u64,
    blocks: &BlockList,
) -> Result<Answer, AllocError>
    ensures text { IfOk result (λ answer. answer.text.items ≡ summary_text kind n seed blocks.now) }
    ensures status { IfOk result (λ answer. HasStatus blocks.now answer.status) }
{
    let text = write_summary(alloc, kind, n, seed, blocks)?;
    if some_too_wide(blocks) {
        return Ok(Answer {
            text,
            status: Status::TooWide,
        });
    }
    Ok(Answer {
        text,
        status: Status::Solved,
    })
}

/// What `solve` comes to over the bytes of the game of this kind, size and seed, summed up.
fn solved_answer(
    alloc: Global,
    game: (Kind, u32, u64),
    bytes: &[u8],
    notions: Notions,
) -> Result<Answer, AllocError>
    requires some { SelectsSome notions }
    requires within { game.1 ≤ greatest game.0 }
    requires bytes { bytes.now ≡ game_text game.0 game.1 game.2 }
    ensures { IfOk result (λ answer. WorkAnswer game.0 game.1 game.2 notions answer.text.items answer.status) }
{
    if bytes.len() > SOLVE_LIMIT {
        return Ok(Answer {
            text: Vec::from_slice(alloc, b"refused InputTooLong 4194304\n")?,
            status: Status::Refused,
        });
    }
    match solve_file(alloc, bytes, notions)? {
        Left(refusal) => {
            let answer = refused(alloc, &refusal)?;
            Ok(answer)
        }
        Right(report) => {
            let answer = summed(alloc, game.0, game.1, game.2, report.blocks())?;
            Ok(answer)
        }
    }
}

/// The summary of a generated game that is solved as a file with its bytes, or the first refusal.
pub fn work_answer(
    alloc: Global,
    kind: Kind,
    n: u32,
    seed: u64,
    notions: Notions,
) -> Result<Answer, AllocError>
    requires size { 1 ≤ n }
    requires some { SelectsSome notions }
    ensures { IfOk result (λ answer. WorkAnswer kind n seed notions answer.text.items answer.status) }
{
    match generate(alloc, kind, n, seed) {
        Ok(bytes) => {
            let answer = solved_answer(alloc, (kind, n, seed), bytes.as_slice(), notions)?;
            Ok(answer)
        }
        Err(GenRefusal::TooLarge { greatest }) => {
            let answer = refused(alloc, &Refusal::TooLarge { greatest })?;
            Ok(answer)
        }
        Err(GenRefusal::NoMemory) => Err(AllocError),
    }
}
