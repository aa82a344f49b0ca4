// Tests of the calls between reports and chains. A report that is handed back cannot be let go, so a test whose call is
// refused where it should be granted ends its process.
#![tactic(auto)]

#[cfg(test)]
mod cursor;
#[cfg(test)]
mod damaged;
#[cfg(test)]
mod drive;
#[cfg(test)]
mod errors;
#[cfg(test)]
mod growing;
#[cfg(test)]
mod hosts;
#[cfg(test)]
mod plan;
#[cfg(test)]
mod recorded;
#[cfg(test)]
mod recorded_cases;
#[cfg(test)]
mod refused;
#[cfg(test)]
mod rooms;
#[cfg(test)]
mod search;
#[cfg(test)]
mod tokens;
