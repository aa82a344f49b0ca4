// Tests of scripts: what is refused, the limits of script and output, and the reports that each kind of line makes.
#![tactic(auto)]

use scripts::output::output;

// Whether a script prints these bytes.
pub fn prints(script: &[u8], wanted: &[u8]) -> bool {
    let mut out = [0; 65536];
    let len = output(script, &mut out);
    &out[..len] == wanted
}

#[cfg(test)]
mod limits;
#[cfg(test)]
mod lines;
#[cfg(test)]
mod reports;
