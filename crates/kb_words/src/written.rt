//! Options written anew, in one order and one spelling.
ghost use Rattle.std.specs.Prelude.{◌≡◌, map, string_bytes, IfOk};
ghost use Rattle.kb_words.specs.Private.Written.{spelled, written_of};
ghost use Rattle.kb_words.specs.Options.{value_of};

use crate::given::{Given, value_of};
use crate::setting::Setting;
use kb_base::NoMemory;
use std::alloc::Global;

/// The options among these that are given, in this order, each as `--name=VALUE`.
pub fn written_of(
    alloc: Global,
    settings: &[Setting],
    options: &[Given],
) -> Result<Vec<String>, NoMemory>
    ensures { IfOk result (λ words. map string_bytes words.items
        ≡ written_of (λ setting. value_of setting options.now) settings.now) }
{
    let mut words = Vec::new(alloc);
    for setting in settings {
        if let Some(value) = value_of(options, *setting) {
            words.push(spelled(alloc, *setting, value.as_str())?)?;
        }
    }
    Ok(words)
}

/// An option with its value as one word.
fn spelled(alloc: Global, setting: Setting, value: &str) -> Result<String, NoMemory>
    ensures { IfOk result (λ word. string_bytes word ≡ spelled setting value.now) }
{
    let mut word = String::from_str(alloc, "--")?;
    word.push_str(setting.name())?;
    word.push_str("=")?;
    word.push_str(value)?;
    Ok(word)
}
