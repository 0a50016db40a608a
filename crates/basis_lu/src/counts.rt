// Flags and counts by place. What is not there counts as set, and as 0.
use std::alloc::{AllocError as NoMemory, Global};

/// Whether the flag at this place is set; it is where there is none.
pub(crate) fn is_set(flags: &[bool], at: u32) -> bool {
    match flags.get(at as usize) {
        Some(flag) => *flag,
        None => true,
    }
}

/// Sets the flag at this place, if there is one.
pub(crate) fn set(flags: &mut [bool], at: u32) {
    if let Some(flag) = flags.get_mut(at as usize) {
        *flag = true;
    }
}

/// The number at this place, and 0 where there is none.
pub(crate) fn number_at(numbers: &[u32], at: u32) -> u32 {
    match numbers.get(at as usize) {
        Some(number) => *number,
        None => 0,
    }
}

/// Puts the number at this place, if there is one.
pub(crate) fn put_number(numbers: &mut [u32], at: u32, value: u32) {
    if let Some(number) = numbers.get_mut(at as usize) {
        *number = value;
    }
}

/// Takes 1 from the count at this place, if it is more than 0, and answers what it is then.
pub(crate) fn lowered(counts: &mut [u32], at: u32) -> u32 {
    let count = number_at(counts, at).saturating_sub(1);
    put_number(counts, at, count);
    count
}

/// The places at which the count is 1, from the last to the first.
pub(crate) fn ones(alloc: Global, counts: &[u32]) -> Result<Vec<u32>, NoMemory> {
    let mut places = Vec::new(alloc);
    let mut at = u32::try_from(counts.len()).unwrap_or(u32::MAX);
    while at > 0 {
        at -= 1;
        if number_at(counts, at) == 1 {
            places.push(at)?;
        }
    }
    Ok(places)
}
