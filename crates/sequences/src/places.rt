/// Where a set stands among its player's sequences: the number of its own sequence, the first number that ends at
/// it, and how many do.
#[derive(Clone, Copy, Debug)]
pub struct Place {
    pub own: u32,
    pub first: u32,
    pub actions: u32,
}
