// What the definitions say of lists in games that are written out, as functions that do nothing.
ghost use Rattle.corr_game.specs.declared.notions.Notion.{Notion};
ghost use Rattle.equilibrium.specs.Equilibrium.{IsEquilibriumList, no_slack};
ghost use Rattle.plain_programs.specs.Samples.{chicken_game, one_chickens_out};

/// In Chicken player 1 gets 20 in four plays by chickening out and 21 by daring: that is no equilibrium under any notion.
pub fn a_list_of_chicken_that_is_none()
    ensures { (notion : Notion) → IsEquilibriumList notion chicken_game no_slack one_chickens_out → ⊥ }
{}
