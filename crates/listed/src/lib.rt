//! Lists that contracts see as lists.
//!
//! A [`Listed`] is made from a `Vec` and returns it, and neither takes memory. Other crates use it
//! if a contract compares a value with that of a definition: a `Vec` shows its capacity and its
//! address, a `Listed` only its items.
#![tactic(auto)]

ghost use Rattle.std.specs.Prelude.{◌≡◌, List};

use std::marker::Model;

/// The items of a `Vec`, seen as a list.
#[derive(Drop)]
pub struct Listed<T> {
    items: Vec<T>,
}

impl<T> Model for Listed<T> {
    ghost Value = { List T };

    ghost view = { λ l. l.items.items };
}

impl<T> Listed<T> {
    /// The list of a `Vec`'s items. It takes no memory.
    pub fn from_vec(items: Vec<T>) -> Self
        ensures { result ≡ items.items }
    {
        Listed { items }
    }

    /// The `Vec` that holds the items. It takes no memory.
    pub fn into_vec(self) -> Vec<T>
        ensures { result.items ≡ self }
    {
        self.items
    }

    /// The items, in order. It takes no memory.
    pub fn as_slice(&self) -> &[T]
        ensures { result.now ≡ self.now }
    {
        self.items.as_slice()
    }
}
