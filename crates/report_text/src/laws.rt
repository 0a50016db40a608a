// Laws of the names in a report's text and in a refusal's line, as functions that do nothing.
ghost use Rattle.std.specs.Prelude.{◌≡◌};
ghost use Rattle.corr_game.specs.declared.notions.Notion.{Notion};
ghost use Rattle.corr_game.specs.declared.sides.Side.{Side};
ghost use Rattle.report_form.specs.declared.refusals.NodeRule.{NodeRule};
ghost use Rattle.report_text.specs.NameText.{notion_name, player_name, rule_name};

/// No two notions have one name, nor two players or two rules of a refusal.
pub fn names_tell_apart()
    ensures notions { (a b : Notion) → notion_name a ≡ notion_name b → a ≡ b }
    ensures players { (a b : Side) → player_name a ≡ player_name b → a ≡ b }
    ensures rules { (a b : NodeRule) → rule_name a ≡ rule_name b → a ≡ b }
{}
