ghost use Rattle.std.specs.Prelude.{◌≡◌, Bool};
ghost use Rattle.vocabulary.specs.Policy.{standard};
ghost use Rattle.vocabulary.specs.declared.policy.Pair.{Pair};

use crate::io_kind::IoKind;
use classes::class::Class;

// What a policy is asked of an error: its class, and its io kind where it is an io error.
#[derive(Clone, Copy)]
pub struct Pair {
    pub class: Option<Class>,
    pub io_kind: Option<IoKind>,
}

// Which errors may be tried again. A policy means a set of pairs; asked, it alters nothing, never refuses and accepts
// exactly the pairs of its set.
pub trait Policy {
    ghost accepted: { Self → Pair → Bool };

    fn accepts(&self, pair: Pair) -> bool
        ensures { result ≡ accepted self.now pair };
}

// The two policies of the crate: `can_retry`, and `can_retry_lenient`, which also retries io errors that may pass by
// themselves.
#[derive(Clone, Copy)]
pub enum StandardPolicy {
    CanRetry,
    CanRetryLenient,
}

impl Policy for StandardPolicy {
    ghost accepted = { standard };

    fn accepts(&self, pair: Pair) -> bool {
        if pair.class == Some(Class::Retryable) {
            return true;
        }
        match (pair.io_kind, self) {
            (Some(kind), StandardPolicy::CanRetry) => kind.row().retry,
            (Some(kind), StandardPolicy::CanRetryLenient) => kind.row().lenient,
            (None, _) => false,
        }
    }
}
