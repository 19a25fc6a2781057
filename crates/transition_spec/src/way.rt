ghost use Rattle.std.specs.Prelude.{◌≡◌};

use std::marker::Model;

/// The letters that a path takes where it has two successors to choose from: `n` for the first, `t` for the second.
#[derive(Debug, Drop)]
pub struct Choices {
    letters: Vec<u8>,
}

impl Model for Choices {
    ghost use Rattle.std.specs.Prelude.{List, ℕ};

    ghost Value = { List ℕ };

    ghost view = { λ c. c.letters.items };
}

impl Choices {
    /// The choices that these letters are. Takes no memory.
    pub fn from_letters(letters: Vec<u8>) -> Self
        ensures { result ≡ letters.items }
    {
        Choices { letters }
    }

    pub fn letters(&self) -> &[u8]
        ensures { result.now ≡ self.now }
    {
        &self.letters
    }

    /// Gives the letters back. Takes no memory.
    pub fn into_letters(self) -> Vec<u8>
        ensures { result.items ≡ self }
    {
        self.letters
    }
}

/// A path, named by the number of its members and by its choices.
#[derive(Debug, Drop)]
pub struct Way {
    pub steps: u64,
    pub choices: Choices,
}
