//! The keys that a table may have.
ghost use Rattle.std.specs.Prelude.{ℕ, ◌≡◌, Bool, List, map, option_map};
ghost use Rattle.toml.specs.View.{table_view};
ghost use Rattle.kb_money.specs.Currency.{is_currency};
ghost use Rattle.kb_catalog_text.specs.Reads.{IsRead, keys_read, first_failing, is_among};

use crate::key_fault::KeyFault;
use kb_money::Currency;
use std::alloc::Global;
use toml::Table;

/// Which keys a table may have.
pub trait Keys {
    ghost known: { Self → List ℕ → Bool };

    /// Whether a table may have a key.
    fn knows(&self, key: &str) -> bool
        ensures { result ≡ known self.now key.now };
}

/// The keys among these.
#[derive(Clone, Copy)]
pub struct Among<'k> {
    pub keys: &'k [&'k str],
}

impl Keys for Among<'_> {
    ghost known = { λ among. is_among (map (λ key. key.now) among.keys.now) };

    fn knows(&self, key: &str) -> bool {
        is_among(self.keys, key)
    }
}

/// The keys that are currencies.
#[derive(Clone, Copy)]
pub struct Currencies;

impl Keys for Currencies {
    ghost known = { λ _. is_currency };

    fn knows(&self, key: &str) -> bool {
        Currency::new(key.as_bytes()).is_some()
    }
}

/// Refuses the first key of a table, by the order of bytes, that it may not have.
#[tactic(auto, using(crate::proofs::ReadSteps::known_keys))]
pub fn known_keys<K: Keys>(alloc: Global, table: &Table, keys: &K) -> Result<(), KeyFault>
    ensures { IsRead result (keys_read (K.known keys.now) (table_view table.now)) }
{
    match first_unknown(table, keys) {
        None => Ok(()),
        Some(key) => Err(KeyFault::unknown(alloc, key)),
    }
}

/// The first key of a table that it may not have.
fn first_unknown<'t, K: Keys>(table: &'t Table, keys: &K) -> Option<&'t str>
    ensures { option_map (λ key. key.now) result ≡ first_failing (K.known keys.now) (table_view table.now) }
{
    for (key, _) in table.iter() {
        if !keys.knows(key.as_str()) {
            return Some(key.as_str());
        }
    }
    None
}

/// Whether a key is among some.
fn is_among(keys: &[&str], key: &str) -> bool
    ensures { result ≡ is_among (map (λ key. key.now) keys.now) key.now }
{
    for other in keys {
        if key == *other {
            return true;
        }
    }
    false
}
