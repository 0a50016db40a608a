//! The payoffs of each outcome, by its number.

ghost use Rattle.std.specs.Prelude.{◌≡◌, ◌==◌, length, map, option_map, nat_eq, Some, None, if◌then◌else◌, IfOk, OnOk};
ghost use Rattle.efg_lines.specs.declared.refusal.FileRefusal.TheVariants.{PayoffCount};
ghost use Rattle.indexmap.specs.IndexMap.{get};
ghost use Rattle.efg_reader.specs.Lists.{AreFirstOutcomes, outcome_in, outcome_entry, pays_if, pays_in, with_given};
ghost use Rattle.efg_reader.specs.Rules.{refusal_in, payoff_rules, Refuses};

use crate::first_lists::OutcomePays;
use efg_lines::FileRefusal;
use indexmap::IndexMap;
use number_words::Number;
use std::alloc::{AllocError as NoMemory, Global};

/// Outcome 0, which pays nothing from the start.
pub fn first_outcomes(alloc: Global) -> Result<IndexMap<u32, OutcomePays>, NoMemory>
    ensures { IfOk result (λ it. AreFirstOutcomes it.entries) }
{
    let mut outcomes = IndexMap::new(alloc);
    outcomes.insert(0, OutcomePays::nothing())?;
    Ok(outcomes)
}

/// The rules on the outcome of a line; its payoffs, which are kept where the line is the first with them.
pub fn take_outcome(
    outcomes: &mut IndexMap<u32, OutcomePays>,
    outcome: u32,
    is_listed: bool,
    pays: &[Number],
    node: u32,
) -> Result<OutcomePays, FileRefusal>
    ensures refusal { Refuses result
        (payoff_rules node (option_map pays_in (get nat_eq outcomes.old outcome)) (pays_if is_listed pays.now)) }
    ensures outcomes { OnOk result (map outcome_in outcomes.new.entries
        ≡ with_given (outcome_entry outcome is_listed pays.now) (map outcome_in outcomes.old.entries)) }
    ensures kept { IfOk result (λ it. option_map pays_in (get nat_eq outcomes.new outcome) ≡ Some (pays_in it)) }
{
    let known = outcomes.get(&outcome).copied();
    if !is_listed {
        return known.ok_or(FileRefusal::OutcomeUnknown { node });
    }
    let pays = two_payoffs(pays, node)?;
    match known {
        Some(known) => {
            if known == pays {
                Ok(known)
            } else {
                Err(FileRefusal::OutcomeDiffers { node })
            }
        }
        None => {
            outcomes.insert(outcome, pays)?;
            Ok(pays)
        }
    }
}

/// The payoffs of a list, of which there are two.
fn two_payoffs(pays: &[Number], node: u32) -> Result<OutcomePays, FileRefusal>
    ensures refusal { refusal_in result ≡ (if length pays.now == 2 then None else Some (PayoffCount node)) }
    ensures pays { IfOk result (λ it. pays_in it ≡ pays.now) }
{
    if pays.len() != 2 {
        return Err(FileRefusal::PayoffCount { node });
    }
    Ok(OutcomePays {
        one: pays[0],
        two: pays[1],
    })
}
