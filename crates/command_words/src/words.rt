// The words that mean a command: a word for what is to be done, then the options that it needs or may have.
ghost use Rattle.std.specs.Prelude.{◌≡◌, IfOk, map, MatchOption, string_bytes};
ghost use Rattle.command_words.specs.declared.commands.Command.{Command};
ghost use Rattle.command_words.specs.declared.words.Verb.{Verb};
ghost use Rattle.command_words.specs.Words.{AsksFor, Means, MeansNothing, notions_by, verb_word};

use crate::commands::{Command, Notions};
use crate::options::{Given, is_text, read_options};
use crate::values::given_by;
use std::alloc::{AllocError, Global};

/// What is to be done.
#[derive(Clone, Copy, PartialEq, Eq)]
pub(crate) enum Verb {
    Solve,
    Check,
    Gen,
    Work,
}

fn verb_of(word: &str) -> Option<Verb>
    ensures { MatchOption result ((verb : Verb) → word.now ≡ verb_word verb → ⊥) (λ verb. word.now ≡ verb_word verb) }
{
    if is_text(word, b"solve") {
        return Some(Verb::Solve);
    }
    if is_text(word, b"check") {
        return Some(Verb::Check);
    }
    if is_text(word, b"gen") {
        return Some(Verb::Gen);
    }
    if is_text(word, b"work") {
        return Some(Verb::Work);
    }
    None
}

/// The notion that an option names, or all.
fn selected_by(given: &Given) -> Notions
    ensures { result ≡ notions_by given.now.notion }
{
    match given.notion {
        Some(notion) => Notions::only(notion),
        None => Notions::all(),
    }
}

fn solve_of(given: &Given) -> Option<Command>
    ensures { MatchOption result ((asked : Command) → AsksFor Verb.Solve given.now asked → ⊥) (AsksFor Verb.Solve given.now) }
{
    if given.kind.is_some() || given.size.is_some() || given.seed.is_some() {
        return None;
    }
    let notions = selected_by(given);
    Some(Command::Solve { notions })
}

fn check_of(given: &Given) -> Option<Command>
    ensures { MatchOption result ((asked : Command) → AsksFor Verb.Check given.now asked → ⊥) (AsksFor Verb.Check given.now) }
{
    if given.kind.is_some() || given.size.is_some() {
        return None;
    }
    if given.seed.is_some() || given.notion.is_some() {
        return None;
    }
    Some(Command::Check)
}

fn gen_of(given: &Given) -> Option<Command>
    ensures { MatchOption result ((asked : Command) → AsksFor Verb.Gen given.now asked → ⊥) (AsksFor Verb.Gen given.now) }
{
    let Some(kind) = given.kind else {
        return None;
    };
    let Some(n) = given.size else {
        return None;
    };
    if given.notion.is_some() {
        return None;
    }
    Some(Command::Gen {
        kind,
        n,
        seed: given.seed.unwrap_or(0),
    })
}

fn work_of(given: &Given) -> Option<Command>
    ensures { MatchOption result ((asked : Command) → AsksFor Verb.Work given.now asked → ⊥) (AsksFor Verb.Work given.now) }
{
    let Some(kind) = given.kind else {
        return None;
    };
    let Some(n) = given.size else {
        return None;
    };
    let notions = selected_by(given);
    Some(Command::Work {
        kind,
        n,
        seed: given.seed.unwrap_or(0),
        notions,
    })
}

fn command_of(verb: Verb, given: &Given) -> Option<Command>
    ensures { MatchOption result ((asked : Command) → AsksFor verb given.now asked → ⊥) (AsksFor verb given.now) }
{
    match verb {
        Verb::Solve => solve_of(given),
        Verb::Check => check_of(given),
        Verb::Gen => gen_of(given),
        Verb::Work => work_of(given),
    }
}

/// The command that the words behind the program's name mean, or none.
///
/// The rule says which words mean a command; the values of the options of such words are those that clap hands out.
pub fn read_words(alloc: Global, words: &Vec<String>) -> Result<Option<Command>, AllocError>
    ensures { IfOk result (λ asked. MatchOption asked (MeansNothing (map string_bytes words.now.items)) (Means (map string_bytes words.now.items))) }
{
    if words.is_empty() {
        return Ok(None);
    }
    let Some(verb) = verb_of(words[0].as_str()) else {
        return Ok(None);
    };
    let Some(ruled) = read_options(words) else {
        return Ok(None);
    };
    if command_of(verb, &ruled).is_none() {
        return Ok(None);
    }
    let given = given_by(alloc, words)?;
    Ok(command_of(verb, &given))
}
