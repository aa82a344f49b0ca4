// Tests of the calls that build reports, over a bench that never loses a report or basket.
#![tactic(auto)]

pub mod bench;
pub mod cross;
#[cfg(test)]
mod full;
#[cfg(test)]
mod granted;
#[cfg(test)]
mod mixed;
#[cfg(test)]
mod plain_ledger;
#[cfg(test)]
mod refused;
#[cfg(test)]
mod rows;
#[cfg(test)]
mod tree;
