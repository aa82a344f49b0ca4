// Runs a script: prints the reports that its lines build, or the line that is refused.
#![tactic(auto)]

ghost use Rattle.std.specs.Prelude.{◌≤◌, IfOk};

use anyhow::ensure;
use scripts::output::output;
use std::io::{Read, Write};
use std::{env, io};

const USAGE: &str = "usage: script < SCRIPT

Reads a script (docs/SCRIPT.md) from standard input and prints the reports that
its lines build over the errors of the drive, or the line that is refused. So
    new 6
    new 1
    all 19
prints
    drive 3

    Caused by:
        ├─0: gauge 3
        ├─1: gauge 6
        └─2: gauge 1
    class 5 cause 19 retry yes lenient yes";

// The longest script, and one byte more, by which a longer one is told.
const ROOM: usize = 4097;

// Standard input, as far as there is room, and how many bytes of it there are.
fn read(rt: &HostRuntime, script: &mut [u8; 4097]) -> anyhow::Result<usize>
    ensures { IfOk result (λ len. len ≤ 4097) }
{
    let mut reader = rt.reader();
    let mut len = 0;
    while len < ROOM {
        let count = reader.read(&mut script[len..])?;
        if count == 0 {
            break;
        }
        len += count;
    }
    Ok(len)
}

fn main(rt: HostRuntime) -> anyhow::Result<()> {
    let mut args = env::args(&rt)?;
    let _program = args.next();
    if let Some(word) = args.next() {
        ensure!(word.as_str() == "--help", "no such option: {word}");
        println!(rt; "{USAGE}")?;
        return Ok(());
    }
    let mut script = [0; 4097];
    let mut out = [0; 65536];
    let len = read(&rt, &mut script)?;
    let printed = output(&script[..len], &mut out);
    io::writer(&rt).write_all(&out[..printed])?;
    Ok(())
}
