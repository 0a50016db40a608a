use corr_game::SetId;

/// When a player may leave the mediator for good.
#[derive(Clone, Copy, Debug, PartialEq, Eq)]
pub enum Trigger {
    /// Told this action at a set.
    Told { set: SetId, action: u32 },
    /// At a set, before being told anything there.
    Reached { set: SetId },
    /// Before play.
    Start,
}
