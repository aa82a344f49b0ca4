// Replays cases: makes their calls, and prints what they and the questions answer.
#![tactic(auto)]

mod account;
mod asking;
mod events;
mod input;
mod layered;
mod layered_host;
mod replaying;
mod steps;

use crate::account::Style;
use crate::replaying::replay;
use std::env;

const USAGE: &str = "usage: replay [--plain] < CASES

Reads a file of cases (docs/CASES.md) from standard input, at most 16 MiB, makes
the calls of each case, and prints what each call answered and what the
questions answer of each report. With --plain it prints the recorded form of
the answers alone.";

// How the words say to print; none where they ask for help.
fn style(rt: &HostRuntime) -> anyhow::Result<Option<Style>> {
    let mut args = env::args(rt)?;
    let _program = args.next();
    match args.next() {
        None => Ok(Some(Style::Account)),
        Some(word) if word.as_str() == "--plain" => Ok(Some(Style::Plain)),
        Some(word) if word.as_str() == "--help" => Ok(None),
        Some(word) => Err(anyhow::anyhow!("no such option: {word}")),
    }
}

fn run(rt: &HostRuntime) -> anyhow::Result<()> {
    let Some(style) = style(rt)? else {
        println!(rt; "{USAGE}")?;
        return Ok(());
    };
    let bytes = input::read(rt)?;
    let account = replay(rt.alloc(), bytes.as_slice(), style)?;
    print!(rt; "{account}")?;
    Ok(())
}

fn main(rt: HostRuntime) -> anyhow::Result<()> {
    run(&rt)
}
