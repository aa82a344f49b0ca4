// The output of a script.
ghost use Rattle.std.specs.Prelude.{◌≤◌, length};
ghost use Rattle.buffers.specs.Printed.{Printed};
ghost use Rattle.scripts.specs.Output.{Output};
ghost use Rattle.scripts.specs.Texts.{fault_text, too_long_text};

use crate::report::put_reports;
use buffers::put::{put, put_number};
use script_runs::fault::{LineFault, ScriptFault};
use script_runs::run::run;
use store::store::Store;

// The line that tells where a script was refused.
fn put_fault(out: &mut [u8], line: usize, fault: LineFault) -> usize
    ensures printed { Printed 0 result out.old out.new (fault_text (record { line = line; fault = fault })) }
    ensures short { length (fault_text (record { line = line; fault = fault })) ≤ 65536 }
{
    let at = put(out, 0, b"line ");
    let at = put_number(out, at, line);
    let at = put(out, at, b" refused ");
    let at = put_number(out, at, fault.number() as usize);
    put(out, at, b"\n")
}

// Runs a script over the drive, with an empty store, and answers how many bytes at the front of the buffer are its output.
pub fn output(script: &[u8], out: &mut [u8; 65536]) -> usize
    ensures output { Output script.now out.old out.new result }
    ensures within { result ≤ 65536 }
{
    let mut store = Store::new(1);
    match run(&mut store, script) {
        Ok(basket) => match put_reports(&mut store, basket, out) {
            Some(length) => length,
            None => put(out, 0, b"refused 6\n"),
        },
        Err(ScriptFault { line, fault }) => put_fault(out, line, fault),
    }
}
