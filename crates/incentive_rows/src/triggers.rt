ghost use Rattle.std.specs.Prelude.{◌<◌, ◌↔◌, IsTrue, length};
ghost use Rattle.sequences.specs.Number.{Holds, count_of, side_of};
ghost use Rattle.connected_pairs.specs.Connected.{IsPrefix};
ghost use Rattle.incentive_rows.specs.Trigger.{Follows, HasSet};

use corr_game::{SetId, Side};
use sequences::Seqs;

/// Where a player may leave the mediator: at a move of a set, at a set, or with no set before play begins.
#[derive(Clone, Copy, Debug)]
pub struct Trigger {
    pub side: Side,
    pub set: Option<SetId>,
    pub action: Option<u32>,
    /// The player's sequence that was recommended up to here.
    pub seq: u32,
}

impl Trigger {
    /// Whether a player with this sequence has followed the mediator past the trigger.
    pub fn follows(&self, seqs: &Seqs, seq: u32) -> bool
        requires { seq < count_of (side_of self.now.side seqs.now) }
        ensures { IsTrue result ↔ Follows (side_of self.now.side seqs.now) self.now seq }
    {
        match (self.set, self.action) {
            (None, _) => true,
            (Some(set), None) => chooses_at(seqs, self.side, seq, set),
            (Some(_), Some(_)) => begins_with(seqs, self.side, seq, self.seq),
        }
    }
}

/// Whether a set is `top` or one below it, or any set where there is no `top`.
pub fn is_set_of(seqs: &Seqs, side: Side, top: Option<SetId>, set: SetId) -> bool
    requires { set.0 < length (side_of side seqs.now).places }
    ensures { IsTrue result ↔ HasSet (side_of side seqs.now) top set.0 }
{
    match top {
        None => true,
        Some(above) => seqs.under(side, set, above),
    }
}

/// Whether a sequence holds a choice at this set.
fn chooses_at(seqs: &Seqs, side: Side, seq: u32, set: SetId) -> bool
    requires { seq < count_of (side_of side seqs.now) }
    ensures { IsTrue result ↔ Holds (side_of side seqs.now) set.0 seq }
{
    match seqs.last(side, seq) {
        None => false,
        Some(taken) => seqs.under(side, taken.0, set),
    }
}

/// Whether a sequence is `part`, or its own part begins with that.
fn begins_with(seqs: &Seqs, side: Side, seq: u32, part: u32) -> bool
    requires { seq < count_of (side_of side seqs.now) }
    ensures { IsTrue result ↔ IsPrefix (side_of side seqs.now) part seq }
{
    if seq == part {
        return true;
    }
    match seqs.last(side, seq) {
        None => false,
        Some(taken) => begins_with(seqs, side, seqs.own(side, taken.0), part),
    }
}
