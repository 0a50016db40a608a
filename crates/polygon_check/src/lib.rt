//! Whether a polygon that somebody proposes is one of a linear program: corners that solutions
//! pay, and sides that are certified at their corners.
//!
//! It depends on `polygon_sweep` for the definition (`IsSwept`) and the types, and takes nothing on
//! trust from the search that proposes. The layer above uses `is_polygon`, whose answer is exact.
#![tactic(auto)]

mod corners;
mod numbers;
mod polygons;
mod rows;
mod sides;

pub use polygons::is_polygon;
