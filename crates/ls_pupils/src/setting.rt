// How settings change.
ghost use Rattle.std.specs.Prelude.{◌≡◌, length};
ghost use Rattle.ls_meaning.specs.{IsSettingOn, setting_row};

use ls_assess::Settings;
use ls_meaning::{Refusal, Response, Setting};

/// `odds`, `ratio` and `limits`
pub fn set(settings: &mut Settings, setting: Setting) -> Response
    requires { IsSettingOn (length settings.old.ratios) setting }
    ensures response { result ≡ (setting_row settings.old setting).response }
    ensures next { settings.new ≡ (setting_row settings.old setting).next }
    ensures items { length settings.new.ratios ≡ length settings.old.ratios }
{
    let changed = match setting {
        Setting::All { ratios } => settings.set_all_ratios(ratios.right, ratios.wrong),
        Setting::Item { item, ratios } => {
            settings.set_item_ratios(item, ratios.right, ratios.wrong)
        }
        Setting::Limits { budget, share } => settings.set_limits(budget, share),
    };
    match changed {
        Ok(()) => Response::Agreed,
        Err(_) => Response::Refused(Refusal::BadSetting),
    }
}
