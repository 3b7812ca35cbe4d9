// A graph as a text that people read, write and compare.
#![tactic(auto)]

ghost use Rattle.std.specs.Prelude.{◌≡◌, ◌<◌, [], ◌∷◌, IfOk, Some, string_bytes};
ghost use Rattle.std.specs.Fmt.{WritesOnOk};
ghost use Rattle.text.specs.GraphText.{hex_digit, word_text, target_text, targets_text, initial_text, state_text, states_text, arrows, columns_names, columns_text, graph_text};

use graph::source::Source;
use graph::{State, Word};
use meanings::Columns;
use std::alloc::{AllocError, Global};
use std::fmt::{self, Display};

// Where an arrow leads, if anywhere.
#[derive(Drop)]
struct Target(Option<State>);

impl Display for Target {
    ghost output = { λ t. Some (target_text t.0) };

    fn fmt<W: fmt::Write>(&self, f: &mut fmt::Formatter<W>) -> fmt::Result {
        match self.0 {
            // A graph has many arrows, and `write!` would set the options anew for each of these pieces.
            Some(state) => {
                f.write_str(" ")?;
                state.fmt(f)
            }
            None => Ok(()),
        }
    }
}

// Where the arrows of a state lead.
#[derive(Drop)]
struct Targets<'a, S> {
    source: &'a S,
    state: State,
}

impl<S: Source> Display for Targets<'_, S> {
    ghost output = { λ t. let g = S.meaning t.source.now in Some (targets_text g t.state (g.degree t.state)) };

    fn fmt<W: fmt::Write>(&self, f: &mut fmt::Formatter<W>) -> fmt::Result {
        for j in 0..self.source.degree(self.state) {
            let target = Target(self.source.arrow(self.state, j));
            target.fmt(f)?;
        }
        Ok(())
    }
}

fn initial_mark(initial: bool) -> &'static str
    ensures { result.now ≡ initial_text initial }
{
    if initial { " initial" } else { "" }
}

fn digit(d: Word) -> char
    requires { d < 16 }
    ensures value { result ≡ hex_digit d }
    ensures ascii { result < 128 }
{
    let d = d as u8;
    if d < 10 {
        (b'0' + d) as char
    } else {
        (b'a' + (d - 10)) as char
    }
}

fn write_digit<W: fmt::Write>(f: &mut fmt::Formatter<W>, d: Word) -> fmt::Result
    requires { d < 16 }
    ensures { WritesOnOk W.write_str_gives f.old result (hex_digit d ∷ []) f.new }
{
    f.write_str(digit(d).encode_utf8(&mut [0; 4]))
}

// A word as four hexadecimal digits, which takes less time than `{:04x}`.
#[derive(Drop)]
struct Hex(Word);

impl Display for Hex {
    ghost output = { λ h. Some (word_text h.0) };

    fn fmt<W: fmt::Write>(&self, f: &mut fmt::Formatter<W>) -> fmt::Result {
        write_digit(f, self.0 / 4096 % 16)?;
        write_digit(f, self.0 / 256 % 16)?;
        write_digit(f, self.0 / 16 % 16)?;
        write_digit(f, self.0 % 16)
    }
}

// The line of a state.
#[derive(Drop)]
struct StateLine<'a, S> {
    source: &'a S,
    state: State,
}

impl<S: Source> Display for StateLine<'_, S> {
    ghost output = { λ l. Some (state_text (S.meaning l.source.now) l.state) };

    fn fmt<W: fmt::Write>(&self, f: &mut fmt::Formatter<W>) -> fmt::Result {
        let state = self.state;
        let initial = initial_mark(self.source.initial(state));
        let word = Hex(self.source.word(state));
        let targets = Targets {
            source: self.source,
            state,
        };
        writeln!(f, "state {state}{initial} word {word} to{targets}")
    }
}

// The lines of all states.
#[derive(Drop)]
struct StateLines<'a, S> {
    source: &'a S,
}

impl<S: Source> Display for StateLines<'_, S> {
    ghost output = { λ l. let g = S.meaning l.source.now in Some (states_text g g.states) };

    fn fmt<W: fmt::Write>(&self, f: &mut fmt::Formatter<W>) -> fmt::Result {
        for state in 0..self.source.states() {
            let line = StateLine {
                source: self.source,
                state,
            };
            line.fmt(f)?;
        }
        Ok(())
    }
}

fn columns_names(columns: Columns) -> &'static str
    ensures { result.now ≡ columns_names columns.words columns.initials }
{
    match (columns.words, columns.initials) {
        (true, true) => "columns words initial",
        (true, false) => "columns words",
        (false, true) => "columns initial",
        (false, false) => "columns none",
    }
}

// The line of the columns that stand, where the graph comes from a table.
#[derive(Drop)]
struct ColumnsLine(Option<Columns>);

impl Display for ColumnsLine {
    ghost output = { λ l. Some (columns_text l.0) };

    fn fmt<W: fmt::Write>(&self, f: &mut fmt::Formatter<W>) -> fmt::Result {
        match self.0 {
            Some(columns) => {
                let names = columns_names(columns);
                writeln!(f, "{names}")
            }
            None => Ok(()),
        }
    }
}

// How many arrows the graph has.
fn count_arrows<S: Source>(source: &S) -> u32
    ensures { let g = S.meaning source.now in result ≡ arrows g g.states }
{
    (0..source.states())
        .map(|state| u32::from(source.degree(state)))
        .sum()
}

// The text of the graph that a source tells. Which columns stand is told of a table only.
pub fn describe<S: Source>(
    alloc: Global,
    source: &S,
    columns: Option<Columns>,
) -> Result<String, AllocError>
    ensures { IfOk result (λ t. string_bytes t ≡ graph_text columns (S.meaning source.now)) }
{
    let states = source.states();
    let arrows = count_arrows(source);
    let columns = ColumnsLine(columns);
    let lines = StateLines { source };
    format!(in alloc; "states {states}\narrows {arrows}\n{columns}{lines}")
}
