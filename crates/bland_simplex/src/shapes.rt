ghost use Rattle.std.specs.Prelude.{◌≡◌, length};

use lp_form::Lp;

/// How many rows and columns a program has.
#[derive(Clone, Copy)]
pub struct Shape {
    pub rows: u32,
    pub cols: u32,
}

impl Shape {
    pub fn of(lp: &Lp) -> Shape
        ensures rows { result.rows ≡ length lp.now.rows }
        ensures cols { result.cols ≡ lp.now.cols }
    {
        Shape {
            rows: lp.rows(),
            cols: lp.cols(),
        }
    }
}
