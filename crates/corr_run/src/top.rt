// The top call: words and a source in, a text to the sink and a status out.
ghost use Rattle.std.specs.Prelude.{◌≡◌, ◌≢◌, ℕ, ◌+◌, ◌^◌, ◌≤◌, map, string_bytes};
ghost use Rattle.corr_port.specs.Count.{Rose};
ghost use Rattle.command_words.specs.declared.commands.Command.{Command};
ghost use Rattle.command_words.specs.Words.{IsAskable, Means};
ghost use Rattle.corr_run.specs.Answer.{Answer, CommandAnswer, ReadsNothing, most_taken};
ghost use Rattle.corr_run.specs.CheckAnswer.{CheckAnswer};
ghost use Rattle.corr_run.specs.SolveAnswer.{SolveAnswer};
ghost use Rattle.corr_run.specs.Ending.{Ending, Ends, IsWhole, Writes};
ghost use Rattle.corr_run.specs.GenAnswer.{GenAnswer};
ghost use Rattle.corr_run.specs.WorkAnswer.{WorkAnswer};
ghost use Rattle.corr_run.specs.Input.{TakesAtMost};
ghost use Rattle.command_words.specs.Selection.{SelectsSome};

use crate::Status;
use crate::answer::{SOLVE_LIMIT, solve_answer};
use crate::checking::{CHECK_LIMIT, check_answer};
use crate::games::{gen_answer, work_answer};
use crate::input::{InputEnd, read_input};
use command_words::{Command, Notions, read_words};
use corr_port::{PutEnd, Sink, Source, put_all};
use game_gen::Kind;
use std::alloc::Global;

// The line for words that mean no command.
const USAGE: &[u8] =
    b"usage: corr solve|check|gen|work [--notion efce|efcce|nfcce] [--kind public|dilemma|chain] [--n N] [--seed N]\n";

// Puts the whole text. The status is the one given, unless the sink fails or lacks memory.
fn write_whole<K: Sink>(out: &mut K, text: &[u8], status: Status) -> Status
    requires { IsWhole status }
    ensures writes { Writes (K.held out.old) (K.held out.new) text.now status result }
    ensures not_unread { result ≢ Status.ReadFault }
    ensures usage { result ≡ Status.Usage → status ≡ Status.Usage }
    ensures cause { result ≡ Status.WriteFault → Rose (K.faults out.old) (K.faults out.new) }
    ensures count { K.faults out.old ≤ K.faults out.new }
{
    match put_all(out, text) {
        Ok(()) => status,
        Err(PutEnd::Failed) => Status::WriteFault,
        Err(PutEnd::NoMemory) => Status::NoMemory,
    }
}

fn solve<S: Source, K: Sink>(alloc: Global, notions: Notions, src: &mut S, out: &mut K) -> Status
    requires { SelectsSome notions }
    ensures ends { Ends (SolveAnswer notions) (S.left src.old) (K.held out.old) (K.held out.new) result }
    ensures not_usage { result ≢ Status.Usage }
    ensures taken { TakesAtMost (2 ^ 22 + 1) (S.left src.old) (S.left src.new) }
    ensures read_cause { result ≡ Status.ReadFault → Rose (S.faults src.old) (S.faults src.new) }
    ensures write_cause { result ≡ Status.WriteFault → Rose (K.faults out.old) (K.faults out.new) }
    ensures source_count { S.faults src.old ≤ S.faults src.new }
    ensures sink_count { K.faults out.old ≤ K.faults out.new }
{
    let input = match read_input(alloc, src, SOLVE_LIMIT) {
        Ok(input) => input,
        Err(InputEnd::Unread) => return Status::ReadFault,
        Err(InputEnd::NoMemory) => return Status::NoMemory,
    };
    match solve_answer(alloc, input.as_slice(), notions) {
        Ok(answer) => write_whole(out, answer.text.as_slice(), answer.status),
        Err(_) => Status::NoMemory,
    }
}

fn check<S: Source, K: Sink>(alloc: Global, src: &mut S, out: &mut K) -> Status
    ensures ends { Ends CheckAnswer (S.left src.old) (K.held out.old) (K.held out.new) result }
    ensures not_usage { result ≢ Status.Usage }
    ensures taken { TakesAtMost (2 ^ 30 + 1) (S.left src.old) (S.left src.new) }
    ensures read_cause { result ≡ Status.ReadFault → Rose (S.faults src.old) (S.faults src.new) }
    ensures write_cause { result ≡ Status.WriteFault → Rose (K.faults out.old) (K.faults out.new) }
    ensures source_count { S.faults src.old ≤ S.faults src.new }
    ensures sink_count { K.faults out.old ≤ K.faults out.new }
{
    let input = match read_input(alloc, src, CHECK_LIMIT) {
        Ok(input) => input,
        Err(InputEnd::Unread) => return Status::ReadFault,
        Err(InputEnd::NoMemory) => return Status::NoMemory,
    };
    match check_answer(alloc, input.as_slice()) {
        Ok(answer) => write_whole(out, answer.text.as_slice(), answer.status),
        Err(_) => Status::NoMemory,
    }
}

fn generate<K: Sink>(alloc: Global, kind: Kind, n: u32, seed: u64, out: &mut K) -> Status
    requires { 1 ≤ n }
    ensures ending { Ending (GenAnswer kind n seed) (K.held out.old) (K.held out.new) result }
    ensures not_unread { result ≢ Status.ReadFault }
    ensures not_usage { result ≢ Status.Usage }
    ensures cause { result ≡ Status.WriteFault → Rose (K.faults out.old) (K.faults out.new) }
    ensures count { K.faults out.old ≤ K.faults out.new }
{
    match gen_answer(alloc, kind, n, seed) {
        Ok(answer) => write_whole(out, answer.text.as_slice(), answer.status),
        Err(_) => Status::NoMemory,
    }
}

fn work<K: Sink>(alloc: Global, game: (Kind, u32, u64), notions: Notions, out: &mut K) -> Status
    requires size { 1 ≤ game.1 }
    requires some { SelectsSome notions }
    ensures ending { Ending (WorkAnswer game.0 game.1 game.2 notions) (K.held out.old) (K.held out.new) result }
    ensures not_unread { result ≢ Status.ReadFault }
    ensures not_usage { result ≢ Status.Usage }
    ensures cause { result ≡ Status.WriteFault → Rose (K.faults out.old) (K.faults out.new) }
    ensures count { K.faults out.old ≤ K.faults out.new }
{
    match work_answer(alloc, game.0, game.1, game.2, notions) {
        Ok(answer) => write_whole(out, answer.text.as_slice(), answer.status),
        Err(_) => Status::NoMemory,
    }
}

fn carry_out<S: Source, K: Sink>(alloc: Global, asked: Command, src: &mut S, out: &mut K) -> Status
    requires { IsAskable asked }
    ensures ends { Ends (CommandAnswer asked) (S.left src.old) (K.held out.old) (K.held out.new) result }
    ensures not_usage { result ≢ Status.Usage }
    ensures unread { most_taken asked ≡ 0 → src.new ≡ src.old }
    ensures taken { TakesAtMost (most_taken asked) (S.left src.old) (S.left src.new) }
    ensures read_cause { result ≡ Status.ReadFault → Rose (S.faults src.old) (S.faults src.new) }
    ensures write_cause { result ≡ Status.WriteFault → Rose (K.faults out.old) (K.faults out.new) }
    ensures source_count { S.faults src.old ≤ S.faults src.new }
    ensures sink_count { K.faults out.old ≤ K.faults out.new }
{
    match asked {
        Command::Solve { notions } => solve(alloc, notions, src, out),
        Command::Check => check(alloc, src, out),
        Command::Gen { kind, n, seed } => generate(alloc, kind, n, seed, out),
        Command::Work {
            kind,
            n,
            seed,
            notions,
        } => work(alloc, (kind, n, seed), notions, out),
    }
}

/// Does what the words ask: reads the source, writes the answer to the sink, and says how that ended.
///
/// The words are those behind the program's name. The whole text is made before any of it is put, and is then put by
/// one `put_all`. `Answer` has the texts with their statuses, one constructor a case, and `Ending` has what a fault or
/// want of memory leaves. Where the source or the sink doesn't tell its bytes, nothing is said of their content, and
/// the causes and counts hold all the same. `NoMemory` is free: no clause ties it to a refused allocation.
pub fn run<S: Source, K: Sink>(
    alloc: Global,
    words: &Vec<String>,
    src: &mut S,
    out: &mut K,
) -> Status
    ensures ends { Ends (Answer (map string_bytes words.now.items)) (S.left src.old) (K.held out.old) (K.held out.new) result }
    ensures unread { result ≡ Status.Usage → src.new ≡ src.old }
    ensures untouched { ReadsNothing (map string_bytes words.now.items) → src.new ≡ src.old }
    ensures taken { (asked : Command) → Means (map string_bytes words.now.items) asked → TakesAtMost (most_taken asked) (S.left src.old) (S.left src.new) }
    ensures read_cause { result ≡ Status.ReadFault → Rose (S.faults src.old) (S.faults src.new) }
    ensures write_cause { result ≡ Status.WriteFault → Rose (K.faults out.old) (K.faults out.new) }
    ensures source_count { S.faults src.old ≤ S.faults src.new }
    ensures sink_count { K.faults out.old ≤ K.faults out.new }
{
    let meaning = match read_words(alloc, words) {
        Ok(meaning) => meaning,
        Err(_) => return Status::NoMemory,
    };
    match meaning {
        None => write_whole(out, USAGE, Status::Usage),
        Some(asked) => carry_out(alloc, asked, src, out),
    }
}
