// The values of the options, which clap hands out by their names.
ghost use Rattle.std.specs.Prelude.{◌≡◌, codes, drop, IfOk, map, string_bytes};
ghost use Rattle.clap.specs.Matches.{first_value, found_of};
ghost use Rattle.clap.specs.Simple.{app_of};
ghost use Rattle.command_words.specs.declared.options.Given.{Given};
ghost use Rattle.command_words.specs.declared.options.Label.TheVariants as label;
ghost use Rattle.command_words.specs.Options.{Give, none_given};
ghost use Rattle.command_words.specs.Table.{Say, SaysOf, option_table};

use crate::options::{Given, kind_of, notion_of, number_of, size_of};
use clap::error::ErrorKind;
use clap::{Arg, ArgMatches, Command};
use corr_game::Notion;
use game_gen::Kind;
use std::alloc::{AllocError, Global};

/// A command with one value option per option of the table, and with no flag for help.
fn option_command<'a>(alloc: Global) -> Result<Command<'a>, AllocError>
    ensures { IfOk result (λ command. app_of command ≡ option_table) }
{
    let kind = Arg::new(alloc, "kind").long("kind");
    let size = Arg::new(alloc, "n").long("n");
    let seed = Arg::new(alloc, "seed").long("seed");
    let notion = Arg::new(alloc, "notion").long("notion");
    let plain = Command::new(alloc, "corr").disable_help_flag(true);
    let command = plain.arg(kind)?.arg(size)?.arg(seed)?.arg(notion)?;
    Ok(command)
}

/// What clap finds among the words behind the first one. It refuses none of them: where it fails, memory is wanting.
fn found_among<'a>(alloc: Global, words: &'a Vec<String>) -> Result<ArgMatches<'a>, AllocError>
    requires { (given : Given) × Give none_given (drop 1 (map string_bytes words.now.items)) given }
    ensures { IfOk result (λ matches. (given : Given) → Give none_given (drop 1 (map string_bytes words.entry.now.items)) given → Say (first_value (found_of matches)) given) }
{
    let command = option_command(alloc)?;
    match command.try_get_matches_from(words.as_slice()) {
        Ok(matches) => Ok(matches),
        Err(error) => {
            prove!(error.kind() == ErrorKind::OutOfMemory);
            Err(AllocError)
        }
    }
}

fn kind_in(matches: &ArgMatches) -> Option<Kind>
    ensures { (given : Given) → SaysOf label.Kind (first_value (found_of matches.now) (codes "kind")) given → result ≡ given.kind }
{
    match matches.get_str("kind") {
        Some(name) => kind_of(name),
        None => None,
    }
}

fn size_in(matches: &ArgMatches) -> Option<u32>
    ensures { (given : Given) → SaysOf label.Size (first_value (found_of matches.now) (codes "n")) given → result ≡ given.size }
{
    match matches.get_str("n") {
        Some(text) => size_of(text),
        None => None,
    }
}

fn seed_in(matches: &ArgMatches) -> Option<u64>
    ensures { (given : Given) → SaysOf label.Seed (first_value (found_of matches.now) (codes "seed")) given → result ≡ given.seed }
{
    match matches.get_str("seed") {
        Some(text) => number_of(text, 20),
        None => None,
    }
}

fn notion_in(matches: &ArgMatches) -> Option<Notion>
    ensures { (given : Given) → SaysOf label.Notion (first_value (found_of matches.now) (codes "notion")) given → result ≡ given.notion }
{
    match matches.get_str("notion") {
        Some(name) => notion_of(name),
        None => None,
    }
}

/// What the words behind the first give, where they are pairs of an option and its value.
pub(crate) fn given_by(alloc: Global, words: &Vec<String>) -> Result<Given, AllocError>
    requires { (given : Given) × Give none_given (drop 1 (map string_bytes words.now.items)) given }
    ensures { IfOk result (λ given. Give none_given (drop 1 (map string_bytes words.now.items)) given) }
{
    let matches = found_among(alloc, words)?;
    Ok(Given {
        kind: kind_in(&matches),
        size: size_in(&matches),
        seed: seed_in(&matches),
        notion: notion_in(&matches),
    })
}
