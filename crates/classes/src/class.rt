ghost use Rattle.std.specs.Prelude.{◌≡◌, Some, nat_lt, ok_or};
ghost use Rattle.std.specs.Fmt.{styled_text};
ghost use Rattle.classes.specs.Class.{class_at, class_name, exhaustion_name, lesser, rank as rank_of};

use std::fmt;

// A number that names no class and, for those who name other things by numbers, nothing else of what was asked for.
#[derive(Clone, Copy, Debug, PartialEq, Eq)]
pub struct NotNamed(pub u8);

// What ran out: an allocation limit that the application set, or the memory itself.
#[derive(Clone, Copy, Debug, PartialEq, Eq, PartialOrd, Ord)]
pub enum ResourceExhaustionKind {
    AllocationLimit,
    AllocationFailure,
}

impl ResourceExhaustionKind {
    // As `Class::name`.
    pub fn name(self) -> &'static str
        ensures { result.now ≡ exhaustion_name self }
    {
        match self {
            ResourceExhaustionKind::AllocationLimit => "AllocationLimit",
            ResourceExhaustionKind::AllocationFailure => "AllocationFailure",
        }
    }
}

impl fmt::Display for ResourceExhaustionKind {
    ghost output = { λ k. Some (exhaustion_name k) };

    ghost styled_output = { λ k s. Some (styled_text s (exhaustion_name k)) };

    fn fmt<W: fmt::Write>(&self, f: &mut fmt::Formatter<W>) -> fmt::Result {
        self.name().fmt(f)
    }
}

// What kind of remedy an error calls for, the most urgent first.
#[derive(Clone, Copy, Debug, PartialEq, Eq, PartialOrd, Ord)]
pub enum Class {
    Cancelled,
    Corruption,
    ResourceExhaustion(ResourceExhaustionKind),
    Validation,
    Unsupported,
    Unauthenticated,
    PermissionDenied,
    Conflict,
    NotFound,
    Retryable,
}

impl Class {
    // The place of the class in the order, from 0 for `Cancelled` to 10 for `Retryable`. No `From`: `u8::from(class)` would
    // not say that the number is the rank.
    pub fn rank(self) -> u8
        ensures { result ≡ rank_of self }
    {
        match self {
            Class::Cancelled => 0,
            Class::Corruption => 1,
            Class::ResourceExhaustion(ResourceExhaustionKind::AllocationLimit) => 2,
            Class::ResourceExhaustion(ResourceExhaustionKind::AllocationFailure) => 3,
            Class::Validation => 4,
            Class::Unsupported => 5,
            Class::Unauthenticated => 6,
            Class::PermissionDenied => 7,
            Class::Conflict => 8,
            Class::NotFound => 9,
            Class::Retryable => 10,
        }
    }

    // The class's own name; the two kinds of resource exhaustion go by the kind's. `Display` prints it; this is for those who
    // write texts into lent buffers, without a formatter.
    pub fn name(self) -> &'static str
        ensures { result.now ≡ class_name self }
    {
        match self {
            Class::Cancelled => "Cancelled",
            Class::Corruption => "Corruption",
            Class::ResourceExhaustion(kind) => kind.name(),
            Class::Validation => "Validation",
            Class::Unsupported => "Unsupported",
            Class::Unauthenticated => "Unauthenticated",
            Class::PermissionDenied => "PermissionDenied",
            Class::Conflict => "Conflict",
            Class::NotFound => "NotFound",
            Class::Retryable => "Retryable",
        }
    }

    // Whether the class stands before another. A call of its own, since its contract ties the derived order to the ranks.
    pub fn precedes(self, other: Class) -> bool
        ensures { result ≡ nat_lt (rank_of self) (rank_of other) }
    {
        self < other
    }

    // The lesser of two classes, where no class counts as the greatest.
    pub fn lesser_of(a: Option<Class>, b: Option<Class>) -> Option<Class>
        ensures { result ≡ lesser a b }
    {
        match (a, b) {
            (Some(x), Some(y)) => Some(x.min(y)),
            (x, y) => x.or(y),
        }
    }
}

// The class of a rank; no rank is above 10.
impl TryFrom<u8> for Class {
    type Error = NotNamed;

    ghost try_from_gives = { λ n r. r ≡ ok_or (class_at n) (record { 0 = n }) };

    fn try_from(rank: u8) -> Result<Class, NotNamed> {
        match rank {
            0 => Ok(Class::Cancelled),
            1 => Ok(Class::Corruption),
            2 => Ok(Class::ResourceExhaustion(ResourceExhaustionKind::AllocationLimit)),
            3 => Ok(Class::ResourceExhaustion(ResourceExhaustionKind::AllocationFailure)),
            4 => Ok(Class::Validation),
            5 => Ok(Class::Unsupported),
            6 => Ok(Class::Unauthenticated),
            7 => Ok(Class::PermissionDenied),
            8 => Ok(Class::Conflict),
            9 => Ok(Class::NotFound),
            10 => Ok(Class::Retryable),
            _ => Err(NotNamed(rank)),
        }
    }
}

impl fmt::Display for Class {
    ghost output = { λ c. Some (class_name c) };

    ghost styled_output = { λ c s. Some (styled_text s (class_name c)) };

    fn fmt<W: fmt::Write>(&self, f: &mut fmt::Formatter<W>) -> fmt::Result {
        f.pad(self.name())
    }
}
