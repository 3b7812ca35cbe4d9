// Explains a record from standard input in plain words, and writes it again to see that the bytes are the same.
#![tactic(auto)]

mod again;
mod failure;
mod text;
mod words;

use command::{finish, read_input};
use std::io::Read;
use std::process::ExitCode;

fn run(rt: &(impl AllocGlobal + Print), input: impl Read + Drop) -> anyhow::Result<()> {
    let alloc = rt.alloc();
    let bytes = read_input(alloc, input)?;
    let mut stem = vec![in alloc; 0u16; 5120]?;
    let mut cycle = vec![in alloc; 0u16; 4096]?;
    let mut out = vec![in alloc; 0u8; bytes.len()]?;
    let text = again::retell(alloc, &bytes, &mut stem, &mut cycle, &mut out)?;
    let count = bytes.len();
    let same = words::sameness(out == bytes);
    println!(rt; "{text}Written again, the record is {same} {count} bytes.")?;
    Ok(())
}

fn main(rt: HostRuntime) -> ExitCode {
    finish(&rt, "explain", run(&rt, rt.stdin()))
}
