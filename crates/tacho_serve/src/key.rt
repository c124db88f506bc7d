//! The office's key.

use std::marker::Model;
use tacho_state::is_key;

/// The office's key: 8 to 64 letters, digits and hyphens.
#[derive(Drop)]
pub struct OfficeKey<'a> {
    key: &'a str,
}

impl<'a> Model for OfficeKey<'a> {
    ghost use Rattle.std.specs.Prelude.{ℕ, List};
    ghost use Rattle.tacho_state.specs.Limits.{IsKey};

    ghost Value = { List ℕ };

    ghost view = { λ it. it.key.now };

    ghost invariant = { λ it. IsKey it.key.now };
}

impl<'a> OfficeKey<'a> {
    ghost use Rattle.std.specs.Prelude.{◌≡◌, MatchOption};
    ghost use Rattle.tacho_state.specs.Limits.{IsKey};

    /// Returns the key, if the text has a key's form.
    pub fn new(text: &'a str) -> Option<OfficeKey<'a>>
        ensures { MatchOption result (¬ IsKey text.now) (λ key. key ≡ text.now) }
    {
        if is_key(text) {
            Some(OfficeKey { key: text })
        } else {
            None
        }
    }

    /// Returns the key's text.
    pub fn text(&self) -> &'a str
        ensures value { result.now ≡ self.now }
        ensures form { IsKey result.now }
    {
        self.key
    }
}
