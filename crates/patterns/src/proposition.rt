// Propositions over words.
ghost use Rattle.std.specs.Prelude.{◌≡◌, IsTrue, ◌↔◌};
ghost use Rattle.patterns.specs.Words.{has, test, Holds};

use graph::Word;

// Holds in a word that has every bit of `on` and no bit of `off`.
#[derive(Clone, Copy, PartialEq, Eq, Debug, Default)]
pub struct Proposition {
    pub on: Word,
    pub off: Word,
}

// Apart from `holds`, so that a wrong body is refused by its value.
fn has(on: Word, off: Word, word: Word) -> bool
    ensures { result ≡ has on off word }
{
    word & on == on && word & off == 0
}

impl Proposition {
    pub fn holds(self, word: Word) -> bool
        ensures value { result ≡ test self word }
        ensures bits { IsTrue result ↔ Holds self word }
    {
        has(self.on, self.off, word)
    }
}
