// Runs the example scripts beside the program, and says of each whether it prints what was written down for it.
#![tactic(auto)]

use scripts::output::output;
use std::fs;

const EXAMPLES: [&str; 10] = [
    "two_gauges",
    "one_gate",
    "denied",
    "retried",
    "three_drives",
    "drained",
    "nothing",
    "unknown_error",
    "too_few",
    "leading_zero",
];

// Whether the script of an example prints its output, to the byte.
fn agrees(rt: &HostRuntime, name: &str) -> anyhow::Result<bool> {
    let mut path = String::from_str(rt.alloc(), name)?;
    path.push_str(".script")?;
    let script = fs::read(rt, path.as_str())?;
    let mut path = String::from_str(rt.alloc(), name)?;
    path.push_str(".output")?;
    let wanted = fs::read(rt, path.as_str())?;
    let mut out = [0; 65536];
    let printed = output(script.as_slice(), &mut out);
    Ok(&out[..printed] == wanted.as_slice())
}

fn main(rt: HostRuntime) -> anyhow::Result<()> {
    for name in EXAMPLES {
        if agrees(&rt, name)? {
            println!(rt; "{name}: as written down")?;
        } else {
            println!(rt; "{name}: DIFFERS")?;
        }
    }
    Ok(())
}
