/// Which deviations the mediator's players may weigh, from the finest to the coarsest.
///
/// Extensive-form correlated equilibrium (von Stengel and Forges 2008), extensive-form coarse correlated
/// equilibrium (Farina, Bianchi and Sandholm 2020), and normal-form coarse correlated equilibrium, in which a player
/// decides before play whether to follow.
#[derive(Clone, Copy, Debug, PartialEq, Eq)]
pub enum Notion {
    Efce,
    Efcce,
    Nfcce,
}
