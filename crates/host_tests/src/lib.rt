// Tests of the hosts and of what is asked of one error.
#![tactic(auto)]

use classes::class::Class;
use host::host::Host;
use host::judge::{dominant_class, retry};
use vocabulary::fault::HostFault;
use vocabulary::policy::StandardPolicy;

// The rank of the class, and both verdicts, of an error and its sources.
pub fn reading<H: Host>(host: &H, error: u16) -> Result<(Option<u8>, bool, bool), HostFault> {
    Ok((
        dominant_class(host, error)?.map(Class::rank),
        retry(host, &StandardPolicy::CanRetry, error)?,
        retry(host, &StandardPolicy::CanRetryLenient, error)?,
    ))
}

#[cfg(test)]
mod judged;
#[cfg(test)]
mod layered;
#[cfg(test)]
mod tables;
