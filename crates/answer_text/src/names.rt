ghost use Rattle.std.specs.Prelude.{◌≡◌};
ghost use Rattle.report_text.specs.NameText.{notion_name, player_name};

use corr_game::{Notion, Side};

#[tactic(auto, unfolding(report_text::specs::NameText::notion_name))]
pub(crate) fn name_of(notion: Notion) -> &'static [u8]
    ensures { result.now ≡ notion_name notion }
{
    match notion {
        Notion::Efce => b"efce",
        Notion::Efcce => b"efcce",
        Notion::Nfcce => b"nfcce",
    }
}

#[tactic(auto, unfolding(report_text::specs::NameText::player_name))]
pub(crate) fn player(side: Side) -> &'static [u8]
    ensures { result.now ≡ player_name side }
{
    match side {
        Side::One => b"1",
        Side::Two => b"2",
    }
}
