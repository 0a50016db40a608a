//! Tests of definitions and of the whole run, against values that are published or were worked out by hand.
//!
//! It depends on all that it calls, and no layer depends on it: it has tests alone, and no public function. Tables of
//! whole files, with what the program answers to each, stand in `checks/`, over the built program.
//!
//! - `lists` has distributions that were worked out by hand, held against the definition of equilibrium; `games` has
//!   their games as files, and `opened` reads them
//! - `shown`, `polygons` hold certificates and polygons against their definitions
//! - `emptiness` has a program without a solution, which no game has
//! - `endings` has runs that end by a fault of a stream, and the numbers with which runs end
#![tactic(auto)]

#[cfg(test)]
mod emptiness;
#[cfg(test)]
mod endings;
#[cfg(test)]
mod games;
#[cfg(test)]
mod lists;
#[cfg(test)]
mod opened;
#[cfg(test)]
mod polygons;
#[cfg(test)]
mod shown;
