// Laws of one player's decisions, as functions that do nothing.
ghost use Rattle.std.specs.Prelude.{◌≡◌, ◌↔◌, ℕ, ℤ, ◌≤ℤ◌, List, All, slice_index};
ghost use Rattle.corr_game.specs.declared.notions.Notion.{Notion};
ghost use Rattle.corr_game.specs.declared.sides.Side.{Side};
ghost use Rattle.corr_game.specs.Game.{GameView, IsGame};
ghost use Rattle.connected_pairs.specs.Connected.{IsPairs, IsPairsOf, PairsView};
ghost use Rattle.equilibrium.specs.declared.triggers.Trigger.{Trigger as Deviation};
ghost use Rattle.equilibrium.specs.Deviation.{IsTriggerOf};
ghost use Rattle.equilibrium.specs.Distribution.{Entry, IsEntry};
ghost use Rattle.equilibrium.specs.Equilibrium.{GainsNoMore, no_slack};
ghost use Rattle.equilibrium.specs.FullChoice.{IsFullChoice};
ghost use Rattle.incentive_rows.specs.declared.triggers.Trigger.{Trigger};
ghost use Rattle.equilibrium_solutions.specs.ColumnSums.{AreColumnSums};
ghost use Rattle.equilibrium_solutions.specs.Decision.{AreValues, Decision, IsChoice, IsDecision, at_start, gets};
ghost use Rattle.equilibrium_solutions.specs.Departure.{OwnSequences, departure, followed};
ghost use Rattle.equilibrium_solutions.specs.Values.{HasValues, IsProgramTrigger, stands_for};

/// Values bound what each choice gets.
pub fn choices_get_no_more_than_values()
    ensures { (d : Decision) (value : ℕ → ℤ) (choice : ℕ → ℕ) → IsDecision d → AreValues d value → IsChoice d choice
        → gets d choice ≤ℤ at_start d value }
{}

/// Some choice gets what some values are worth: that of a greatest action at each set, from the last set back.
pub fn some_choice_gets_its_values()
    ensures { (d : Decision) → IsDecision d
        → (value : ℕ → ℤ) × (choice : ℕ → ℕ) × AreValues d value × IsChoice d choice × (gets d choice ≡ at_start d value) }
{}

/// What a player who leaves at a trigger has to decide is a decision with perfect recall.
pub fn departures_are_decisions()
    ensures { (g : GameView) (p : PairsView) (trigger : Trigger) (own : OwnSequences trigger.side g) (x : ℕ → ℤ) → IsGame g → IsPairs p
        → IsPairsOf g p → IsDecision (departure g p trigger own x) }
{}

/// A full choice gains nothing at a trigger exactly where it gets no more in the trigger's departure than following does.
pub fn a_choice_gains_what_it_gets_more()
    ensures { (notion : Notion) (g : GameView) (p : PairsView) (side : Side) (left : Deviation) (seq : ℕ) (own : OwnSequences side g)
        → (list : List Entry) (x : ℕ → ℤ) (choice : List ℕ) → IsGame g → IsPairs p → IsPairsOf g p → All (IsEntry g) list
        → AreColumnSums p list x → IsTriggerOf notion g side left → IsProgramTrigger notion g p side (stands_for side left seq)
        → GainsNoMore side g no_slack list left choice
        ↔ (gets (departure g p (stands_for side left seq) own x) (λ set. slice_index choice set)
        ≤ℤ followed g p (stands_for side left seq) own x) }
{}

/// A notion's triggers are those whose rows its program has, each with its sequence.
pub fn triggers_have_rows()
    ensures rows { (notion : Notion) (g : GameView) (p : PairsView) (side : Side) (left : Deviation) → IsPairs p → IsPairsOf g p
        → IsTriggerOf notion g side left → (seq : ℕ) × IsProgramTrigger notion g p side (stands_for side left seq) }
    ensures back { (notion : Notion) (g : GameView) (p : PairsView) (side : Side) (trigger : Trigger) → IsPairs p → IsPairsOf g p
        → IsProgramTrigger notion g p side trigger
        → (left : Deviation) × IsTriggerOf notion g side left × (trigger ≡ stands_for side left trigger.seq) }
{}

/// No full choice gains at a trigger exactly where the trigger's sets have values that are worth no more than following.
pub fn none_gains_exactly_where_there_are_values()
    ensures { (notion : Notion) (g : GameView) (p : PairsView) (side : Side) (left : Deviation) (seq : ℕ) (own : OwnSequences side g)
        → (list : List Entry) (x : ℕ → ℤ) → IsGame g → IsPairs p → IsPairsOf g p → All (IsEntry g) list → AreColumnSums p list x
        → IsTriggerOf notion g side left → IsProgramTrigger notion g p side (stands_for side left seq)
        → ((choice : List ℕ) → IsFullChoice side g choice → GainsNoMore side g no_slack list left choice)
        ↔ HasValues g p (stands_for side left seq) own x }
{}
