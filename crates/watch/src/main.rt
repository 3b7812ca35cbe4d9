// Prints what the watch of a pattern says at each place of a lasso of words, and whether the lasso keeps the pattern.
#![tactic(auto)]

use command::{finish, read_text};
use judging::{keeps, onward, tint_at};
use patterns::watch::{Tint, Told};
use std::io;
use std::io::Read;
use std::process::ExitCode;

mod input;

use input::{Input, parse};

// The words are this program's own: nothing else prints a tint, and no contract speaks of them.
fn tint_name(tint: Tint) -> &'static str {
    match tint {
        Tint::Calm => "calm",
        Tint::Sore => "sore",
        Tint::Relief => "relief",
    }
}

// A line for each place of the stem and of two turns of the loop.
fn trace(rt: &impl Print, input: &Input) -> io::Result<()> {
    let mut told = Told::Mark(0);
    let places = input.stem.iter().chain(&input.cycle).chain(&input.cycle);
    for (place, word) in places.enumerate() {
        let word = *word;
        told = onward(&input.pattern, told, word);
        match told {
            Told::Kept => println!(rt; "place {place} word {word:04x} kept")?,
            Told::Broken => println!(rt; "place {place} word {word:04x} broken")?,
            Told::Mark(mark) => {
                let tint = tint_name(tint_at(&input.pattern, told, word));
                println!(rt; "place {place} word {word:04x} mark {mark} {tint}")?
            }
        }
    }
    Ok(())
}

fn run(rt: &(impl AllocGlobal + Print), source: impl Read + Drop) -> anyhow::Result<()> {
    let text = read_text(rt.alloc(), source)?;
    let input = parse(rt.alloc(), text.as_str())?;
    let kept = keeps(&input.pattern, &input.stem, &input.cycle)?;
    trace(rt, &input)?;
    rt.println(if kept { "keeps" } else { "breaks" })?;
    Ok(())
}

fn main(rt: HostRuntime) -> ExitCode {
    finish(&rt, "watch", run(&rt, rt.stdin()))
}
