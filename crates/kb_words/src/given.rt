//! Options as they were given, and whether a command takes them.
ghost use Rattle.std.specs.Prelude.{◌≡◌, option_map};
ghost use Rattle.std.specs.List.{list_all, list_any};
ghost use Rattle.kb_words.specs.Commands.{same_setting};
ghost use Rattle.kb_words.specs.Options.{are_options_of, is_among, is_settled, stand_once, value_of};

use crate::setting::Setting;
use crate::text::Text;
use crate::verb::Verb;

/// An option with its value.
#[derive(Drop)]
pub struct Given {
    pub setting: Setting,
    pub value: Text,
}

/// The value of an option, if it is there.
pub fn value_of(options: &[Given], setting: Setting) -> Option<&Text>
    ensures { option_map (λ text. text.now) result ≡ value_of setting options.now }
{
    for option in options {
        if option.setting.is_same(setting) {
            return Some(&option.value);
        }
    }
    None
}

/// Whether the options are those of a command: each is one of its own, none stands twice, and each is
/// there that may not be missing.
#[tactic(auto, unfolding(crate::specs::Options::are_options_of))]
pub fn are_options_of(verb: Verb, options: &[Given]) -> bool
    ensures { result ≡ are_options_of verb options.now }
{
    are_among(options, verb.settings())
        && stand_once(options)
        && are_settled(options, verb.settings())
}

/// Whether each option is one of these.
fn are_among(options: &[Given], settings: &[Setting]) -> bool
    ensures { result ≡ list_all (λ option. is_among settings.now option.setting) options.now }
{
    options
        .iter()
        .all(|option| option.setting.is_among(settings))
}

/// Whether no option stands twice.
fn stand_once(options: &[Given]) -> bool
    ensures { result ≡ stand_once options.now }
{
    for (place, option) in options.iter().enumerate() {
        if has(&options[place + 1..], option.setting) {
            return false;
        }
    }
    true
}

/// Whether an option is there.
fn has(options: &[Given], setting: Setting) -> bool
    ensures { result ≡ list_any (λ later. same_setting later.setting setting) options.now }
{
    options.iter().any(|later| later.setting.is_same(setting))
}

/// Whether each of these options is there, or may be missing.
fn are_settled(options: &[Given], settings: &[Setting]) -> bool
    ensures { result ≡ list_all (is_settled options.now) settings.now }
{
    settings.iter().all(|setting| is_settled(options, *setting))
}

/// Whether an option is there, or may be missing.
fn is_settled(options: &[Given], setting: Setting) -> bool
    ensures { result ≡ is_settled options.now setting }
{
    setting.may_be_missing() || value_of(options, setting).is_some()
}
