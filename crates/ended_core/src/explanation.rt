//! The text that explains a fault.

ghost use Rattle.std.specs.Prelude.{◌≡◌, ◌≤◌, List, ℕ, SomeIff, length, string_bytes, string_len};

use std::marker::Model;

/// The text that explains a fault or a rejection. It has at least one character.
#[derive(Drop)]
pub struct Explanation {
    text: String,
}

impl Model for Explanation {
    ghost Value = { List ℕ };

    ghost view = { λ a. string_bytes a.text };

    ghost invariant = { λ a. 1 ≤ string_len a.text };
}

impl Explanation {
    /// The explanation of this text, or None if the text is empty.
    pub fn new(text: String) -> Option<Explanation>
        ensures { SomeIff result (1 ≤ string_len text) (string_bytes text) }
    {
        if text.is_empty() {
            None
        } else {
            Some(Explanation { text })
        }
    }

    /// Its text.
    pub fn as_str(&self) -> &str
        ensures text { result.now ≡ self.now }
        ensures not_empty { 1 ≤ length result.now }
    {
        self.text.as_str()
    }
}
