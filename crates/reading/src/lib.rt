// A layer that sets one bit of each word by a mask, over any source.
#![tactic(auto)]

ghost use Rattle.std.specs.Prelude.{◌≡◌, ◌<◌, nat_lt};
ghost use Rattle.std.specs.Bool.{then_some};
ghost use Rattle.std.specs.Option.{option_copied};
ghost use Rattle.graph.specs.Graph.{word_bits};
ghost use Rattle.meanings.specs.Reading.{reread, reading};
ghost use Rattle.meanings.proofs.ReadingSound.{reading_sound};

use graph::fault::{Cause, Fault};
use graph::source::Source;
use graph::{State, WORD_BITS, Word};
use meanings::fields::test;

// In each word from below, the bit is set if the word has any bit of the mask, and cleared otherwise.
#[derive(Drop)]
pub struct Reading<S: Source> {
    below: S,
    bit: u8,
    mask: Word,
}

impl<S: Source> Reading<S> {
    // A bit that a word does not have is no error here: the reading is then a source with a fault.
    pub fn new(below: S, bit: u8, mask: Word) -> Reading<S>
        ensures { result ≡ record { below = below; bit = bit; mask = mask } }
    {
        Reading { below, bit, mask }
    }

    fn has_bit(&self) -> bool
        ensures { result ≡ nat_lt self.now.bit word_bits }
    {
        self.bit < WORD_BITS
    }

    // The source below, if words have the bit.
    fn base(&self) -> Option<&S>
        ensures { option_copied result ≡ then_some (nat_lt self.now.bit word_bits) self.now.below }
    {
        self.has_bit().then_some(&self.below)
    }

    #[tactic(auto, using(crate::proofs::Complements::all_but))]
    fn reread(&self, word: Word) -> Word
        requires { self.now.bit < word_bits }
        ensures { result ≡ reread self.now.bit self.now.mask word }
    {
        let one: Word = 1 << self.bit;
        if word & self.mask == 0 {
            word & !one
        } else {
            word | one
        }
    }
}

impl<S: Source> Source for Reading<S> {
    ghost meaning = { λ r. reading r.bit r.mask (S.Source.meaning r.below) };

    fn check(&self) -> Result<(), Fault> {
        self.below.check().map_err(Fault::raise)?;
        test(self.has_bit(), Cause::Range, 0)
    }

    fn states(&self) -> u16 {
        self.base().map_or(0, |below| below.states())
    }

    fn width(&self) -> u16 {
        self.base().map_or(0, |below| below.width())
    }

    fn initial(&self, s: State) -> bool {
        self.base().is_some_and(|below| below.initial(s))
    }

    fn word(&self, s: State) -> Word {
        let Some(below) = self.base() else {
            return 0;
        };
        self.reread(below.word(s))
    }

    fn degree(&self, s: State) -> u16 {
        self.base().map_or(0, |below| below.degree(s))
    }

    fn arrow(&self, s: State, j: u16) -> Option<State> {
        self.base()?.arrow(s, j)
    }

    ghost sound = { λ r. reading_sound r.bit r.mask (S.Source.meaning r.below) (S.Source.sound r.below) };
}
