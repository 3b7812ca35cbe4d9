// A watch reads a sequence of words one by one. It stops at kept or broken, or goes on at a mark.
// Here are its answers and its law, which a pattern owes, with the proof that each of the six tables keeps it.
#![tactic(auto)]

ghost use Rattle.std.specs.Prelude.{◌≡◌, ℕ, ◌<◌, ◌≤◌};
ghost use Rattle.watches.specs.Watch.{Lawful};
ghost use Rattle.watches.specs.declared.Tint.{Tint};
ghost use Rattle.watches.specs.declared.Told.{Told};

use graph::Word;

// What a watch answers to a word: the rule is kept, it is broken, or the watch goes on at a mark.
#[derive(Clone, Copy, PartialEq, Eq, Debug)]
pub enum Told {
    Kept,
    Broken,
    Mark(u8),
}

// What a mark says of its place. An endless run breaks the rule if it is sore again and again and relieved no more.
#[derive(Clone, Copy, PartialEq, Eq, Debug)]
pub enum Tint {
    Calm,
    Sore,
    Relief,
}

pub trait Pattern {
    // How many marks the watch has.
    const COUNT: u8;

    // That number, as a member of its own: a clause can cite the constant only by a ghost member of the constant's name,
    // and that is refused at an `impl` with a lifetime.
    ghost count: { ℕ };

    // The path rule, of a sequence of words.
    ghost keeps: { Self → (ℕ → ℕ) → Type 0 };

    // The watch: from a mark, with a word.
    ghost step: { Self → ℕ → ℕ → Told };

    ghost tint: { Self → ℕ → ℕ → Tint };

    fn marks() -> u8
        ensures { result ≡ count };

    fn step(&self, mark: u8, word: Word) -> Told
        ensures { result ≡ step self.now mark word };

    fn tint(&self, mark: u8, word: Word) -> Tint
        ensures { result ≡ tint self.now mark word };

    ghost few: { (0 < count) × (count ≤ 4) };

    ghost lawful: { (x : Self) → Lawful count (keeps x) (step x) (tint x) };
}
