// Commands that set what an assessment goes by, on named items.
ghost use Rattle.std.specs.Prelude.{◌≡◌, length, IfOk};
ghost use Rattle.ls_meaning.specs.{IsSettingOn, setting_item_words, setting_of, two_odds};
ghost use Rattle.ls_meaning.specs.{two_ratios, unnamed};
ghost use Rattle.ls_resolve.specs.Resolving.{Resolves};

use crate::names::read_item;
use crate::unnamed::Unnamed;
use ls_domain::Domain;
use ls_lines::SettingCommand;
use ls_meaning::Setting;
use ls_theory::{Ratio, Ratios};

// The place of the item of `odds` and `ratio`.
const ITEM_OF_SETTING: usize = 2;

/// The change that the command asks of the settings of a domain's items. The error is its word that
/// must name an item and doesn't.
pub fn resolve_setting(domain: &Domain, command: &SettingCommand) -> Result<Setting, Unnamed>
    ensures resolves { Resolves (unnamed domain.now (setting_item_words command.now))
        (setting_of domain.now command.now) result }
    ensures on { IfOk result (IsSettingOn (length domain.now)) }
{
    Ok(match command {
        SettingCommand::OddsAll { right, wrong } => Setting::All {
            ratios: two_odds(*right, *wrong),
        },
        SettingCommand::OddsItem { item, right, wrong } => Setting::Item {
            item: read_item(domain, item, ITEM_OF_SETTING)?,
            ratios: two_odds(*right, *wrong),
        },
        SettingCommand::RatioAll {
            right_a,
            right_b,
            wrong_a,
            wrong_b,
        } => Setting::All {
            ratios: two_ratios(*right_a, *right_b, *wrong_a, *wrong_b),
        },
        SettingCommand::RatioItem {
            item,
            right_a,
            right_b,
            wrong_a,
            wrong_b,
        } => Setting::Item {
            item: read_item(domain, item, ITEM_OF_SETTING)?,
            ratios: two_ratios(*right_a, *right_b, *wrong_a, *wrong_b),
        },
        SettingCommand::Limits { budget, share } => Setting::Limits {
            budget: *budget,
            share: *share,
        },
    })
}

// Odds for a right and for a wrong reply: ratios to 1.
fn two_odds(right: u64, wrong: u64) -> Ratios
    ensures { result ≡ two_odds right wrong }
{
    two_ratios(right, 1, wrong, 1)
}

// Ratios, each as two numbers.
fn two_ratios(right_a: u64, right_b: u64, wrong_a: u64, wrong_b: u64) -> Ratios
    ensures { result ≡ two_ratios right_a right_b wrong_a wrong_b }
{
    Ratios {
        right: Ratio {
            a: right_a,
            b: right_b,
        },
        wrong: Ratio {
            a: wrong_a,
            b: wrong_b,
        },
    }
}
