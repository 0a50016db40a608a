ghost use Rattle.std.specs.Prelude.{◌≡◌};
ghost use Rattle.report_text.specs.NameText.{notion_name, player_name, rule_name};

use corr_game::{Notion, Side};
use report_form::NodeRule;

#[tactic(auto, unfolding(crate::specs::NameText::notion_name))]
pub(crate) fn name_of(notion: Notion) -> &'static [u8]
    ensures { result.now ≡ notion_name notion }
{
    match notion {
        Notion::Efce => b"efce",
        Notion::Efcce => b"efcce",
        Notion::Nfcce => b"nfcce",
    }
}

#[tactic(auto, unfolding(crate::specs::NameText::player_name))]
pub(crate) fn player(side: Side) -> &'static [u8]
    ensures { result.now ≡ player_name side }
{
    match side {
        Side::One => b"1",
        Side::Two => b"2",
    }
}

#[tactic(auto, unfolding(crate::specs::NameText::rule_name))]
pub(crate) fn rule(name: NodeRule) -> &'static [u8]
    ensures { result.now ≡ rule_name name }
{
    match name {
        NodeRule::ExtraNode => b"ExtraNode",
        NodeRule::TooManyNodes => b"TooManyNodes",
        NodeRule::TooDeep => b"TooDeep",
        NodeRule::NumberTooWide => b"NumberTooWide",
        NodeRule::PlayerUnknown => b"PlayerUnknown",
        NodeRule::NoActions => b"NoActions",
        NodeRule::TooManyActions => b"TooManyActions",
        NodeRule::ChanceNegative => b"ChanceNegative",
        NodeRule::ChanceTooFine => b"ChanceTooFine",
        NodeRule::ChanceSum => b"ChanceSum",
        NodeRule::SetUnknown => b"SetUnknown",
        NodeRule::SetDiffers => b"SetDiffers",
        NodeRule::PayoffCount => b"PayoffCount",
        NodeRule::OutcomeUnknown => b"OutcomeUnknown",
        NodeRule::OutcomeDiffers => b"OutcomeDiffers",
        NodeRule::MissingNode => b"MissingNode",
        NodeRule::PathTooFine => b"PathTooFine",
        NodeRule::AmountTooLarge => b"AmountTooLarge",
    }
}
