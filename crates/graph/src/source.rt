// Whatever tells a graph.
ghost use Rattle.std.specs.Prelude.{◌≡◌};
ghost use Rattle.graph.specs.Graph.{Graph, Sound, checked};

use crate::fault::Fault;
use crate::{State, Word};

// `meaning` is the graph, or the fault: one value, from which every answer comes. A method takes `&self`, so no
// question changes it, and none is refused.
pub trait Source {
    ghost meaning: { Self → Graph };

    // The fault, as an error to pass on with `?`.
    fn check(&self) -> Result<(), Fault>
        ensures { result ≡ checked (meaning self.now).fault };

    fn states(&self) -> u16
        ensures { result ≡ (meaning self.now).states };

    fn width(&self) -> u16
        ensures { result ≡ (meaning self.now).width };

    fn initial(&self, s: State) -> bool
        ensures { result ≡ (meaning self.now).initial s };

    fn word(&self, s: State) -> Word
        ensures { result ≡ (meaning self.now).word s };

    // How many arrows leave a state.
    fn degree(&self, s: State) -> u16
        ensures { result ≡ (meaning self.now).degree s };

    // The target of arrow `j`, counted from 0.
    fn arrow(&self, s: State, j: u16) -> Option<State>
        ensures { result ≡ (meaning self.now).target s j };

    // What every source owes: its meaning keeps the laws of a graph.
    ghost sound: { (x : Self) → Sound (meaning x) };
}
