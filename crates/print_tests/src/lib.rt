// Prints into parts of buffers: exact, one byte short, and turned down.
#![tactic(auto)]

#[cfg(test)]
mod buffers_kept;
#[cfg(test)]
mod reports;
#[cfg(test)]
mod turned_down;
