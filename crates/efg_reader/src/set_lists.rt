//! The sets of a player or of chance: the first list of each, in the order of their first lines.

ghost use Rattle.std.specs.Prelude.{◌≡◌, ℕ, ◌+◌, ◌≤◌, ◌<◌, length, map, slice_get, nat_eq, ◌||◌, IsTrue, IfOk, OnOk};
ghost use Rattle.std.specs.Prelude.{Some, option_map, option_copied, is_some};
ghost use Rattle.std.specs.Cmp.Lexicographic.{pointwise};
ghost use Rattle.indexmap.specs.IndexMap.{get, index_map_len, keys};
ghost use Rattle.std.specs.List.{position_or_len};
ghost use Rattle.efg_reader.specs.Lists.{entry_in, list_entry, listed_in, with_given};
ghost use Rattle.efg_reader.specs.Rules.{refusal_in, named_rules, same_list};
ghost use Rattle.efg_reader.specs.Sets.{IsDefined};

use crate::first_lists::FirstList;
use efg_lines::{ActLines, FileRefusal};
use indexmap::IndexMap;
use std::alloc::AllocError as NoMemory;

/// The rules on the set that a line names, of its first list and the line's own.
pub fn check_set(
    first: Option<&FirstList>,
    list: &Option<FirstList>,
    node: u32,
) -> Result<(), FileRefusal>
    ensures refusal { refusal_in result
        ≡ named_rules node (option_map listed_in (option_copied first.entry)) (option_map listed_in list.now) }
    ensures named { OnOk result (IsTrue (is_some first.entry || is_some list.now)) }
{
    let Some(list) = list else {
        return match first {
            Some(_) => Ok(()),
            None => Err(FileRefusal::SetUnknown { node }),
        };
    };
    let Some(first) = first else {
        return Ok(());
    };
    if is_same_list(first, list) {
        Ok(())
    } else {
        Err(FileRefusal::SetDiffers { node })
    }
}

/// Keeps the list of a set, where the line is the first with one, and gives the set's index.
pub fn define_set<'a>(
    lists: &mut IndexMap<u32, FirstList<'a>>,
    set: u32,
    list: Option<FirstList<'a>>,
) -> Result<usize, NoMemory>
    requires { IsTrue (is_some (get nat_eq lists.old set) || is_some list) }
    ensures within { IfOk result (λ index. index < index_map_len lists.new) }
    ensures grows { OnOk result (index_map_len lists.new ≤ index_map_len lists.old + 1) }
    ensures defined { IfOk result (λ index. IsDefined lists.old.entries set list.entry lists.new.entries index) }
    ensures place { IfOk result (λ index. position_or_len (nat_eq set) (keys lists.new) ≡ index) }
    ensures lists { OnOk result (map entry_in lists.new.entries ≡ with_given (list_entry set list.entry) (map entry_in lists.old.entries)) }
{
    match lists.get_index_of(&set) {
        Some(index) => Ok(index),
        None => {
            let Some(list) = list else { unreachable!() };
            let index = lists.len();
            lists.insert(set, list)?;
            Ok(index)
        }
    }
}

/// The first list of the set with this index.
pub fn list_at<'m, 'a>(lists: &'m IndexMap<u32, FirstList<'a>>, index: usize) -> &'m FirstList<'a>
    requires { index < index_map_len lists.now }
    ensures { (set : ℕ) × (slice_get lists.now.entries index ≡ Some (set, result.now)) × (get nat_eq lists.now set ≡ Some result.now) }
{
    match lists.get_index(index) {
        Some((_, list)) => list,
        None => unreachable!(),
    }
}

/// Whether two lists have the same names and the same probabilities.
fn is_same_list(one: &FirstList, two: &FirstList) -> bool
    ensures { result ≡ same_list (listed_in one.now) (listed_in two.now) }
{
    one.acts.len() == two.acts.len()
        && has_same_names(one.acts, two.acts)
        && one.probs.as_slice() == two.probs.as_slice()
}

/// Whether two lists of one length have the same names.
fn has_same_names(one: &ActLines, two: &ActLines) -> bool
    requires { length one.now ≡ length two.now }
    ensures { result ≡ pointwise (pointwise nat_eq) (map (λ act. act.name) one.now) (map (λ act. act.name) two.now) }
{
    for k in 0..one.len() {
        if one.at(k).name.as_slice() != two.at(k).name.as_slice() {
            return false;
        }
    }
    true
}
