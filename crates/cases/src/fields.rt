// The words of a line, one by one.
ghost use Rattle.std.specs.Prelude.{◌≡◌, ℕ, ◌<◌, ◌≤◌, ◌^◌, ◌++◌, ◌∷◌, [], List, length, IfSome, Option, Some};
ghost use Rattle.std.specs.Option.{option_map};
ghost use Rattle.cases.specs.Reading.{after, any_name_at, before, byte_at, class_at, digits_at, error_at, escape_at, hex_at, hex_pair_at, io_at, maybe_at, name_at, number_at, word_at, below};
ghost use Rattle.std.specs.Str.{bytes_eq};
ghost use Rattle.cases.specs.Words.{word_text};
ghost use Rattle.cases.specs.Valid.{IsAnyName, IsError, IsName, IsPlace};

use crate::call::Name;
use crate::naming::find_named;
use crate::statement::Text;
use crate::word::Word;
use classes::class::{Class, ResourceExhaustionKind};
use vocabulary::io_kind::IoKind;

const WORDS: [Word; 27] = [
    Word::Host,
    Word::Table,
    Word::Drive,
    Word::Error,
    Word::Plain,
    Word::Message,
    Word::Marker,
    Word::Reserve,
    Word::Io,
    Word::None,
    Word::Layer,
    Word::Mark,
    Word::Wrap,
    Word::As,
    Word::New,
    Word::Raise,
    Word::RaiseAll,
    Word::Chain,
    Word::ChainAll,
    Word::Basket,
    Word::Collect,
    Word::Take,
    Word::DrainChildren,
    Word::IntoChain,
    Word::IntoExn,
    Word::Discard,
    Word::Ask,
];

const CLASSES: [Class; 11] = [
    Class::Cancelled,
    Class::Corruption,
    Class::ResourceExhaustion(ResourceExhaustionKind::AllocationLimit),
    Class::ResourceExhaustion(ResourceExhaustionKind::AllocationFailure),
    Class::Validation,
    Class::Unsupported,
    Class::Unauthenticated,
    Class::PermissionDenied,
    Class::Conflict,
    Class::NotFound,
    Class::Retryable,
];

const IO_KINDS: [IoKind; 16] = [
    IoKind::Other,
    IoKind::NotFound,
    IoKind::PermissionDenied,
    IoKind::Unsupported,
    IoKind::OutOfMemory,
    IoKind::Interrupted,
    IoKind::TimedOut,
    IoKind::UnexpectedEof,
    IoKind::BrokenPipe,
    IoKind::AddrInUse,
    IoKind::ConnectionAborted,
    IoKind::ConnectionReset,
    IoKind::ConnectionRefused,
    IoKind::WouldBlock,
    IoKind::AlreadyExists,
    IoKind::InvalidData,
];

// The bytes before the first such byte, and those after it.
pub(crate) fn cut(bytes: &[u8], at: u8) -> (&[u8], &[u8])
    ensures front { result.0.now ≡ before at bytes.now }
    ensures rest { result.1.now ≡ after at bytes.now }
{
    for (i, byte) in bytes.iter().enumerate() {
        if *byte == at {
            return (&bytes[..i], &bytes[i + 1..]);
        }
    }
    (bytes, &[])
}

// A number below 2 to the 32nd.
pub(crate) fn number(word: &[u8]) -> Option<u32>
    ensures value { result ≡ number_at word.now }
    ensures valid { IfSome result IsPlace }
{
    let mut value: u32 = 0;
    for digit in word {
        if !digit.is_ascii_digit() {
            return None;
        }
        value = value
            .checked_mul(10)?
            .checked_add(u32::from(*digit - b'0'))?;
    }
    Some(value)
}

// The number of an error.
pub(crate) fn error(word: &[u8]) -> Option<u16>
    ensures value { result ≡ error_at word.now }
    ensures valid { IfSome result IsError }
{
    u16::try_from(number(word)?).ok()
}

// The number of a name, behind its letter.
fn suffix(word: &[u8]) -> Option<u16>
    ensures value { result ≡ below 1024 word.now }
    ensures valid { IfSome result IsName }
{
    error(word).filter(|n| *n < 1024)
}

// The number of a name that begins with a letter.
pub(crate) fn name(letter: u8, word: &[u8]) -> Option<u16>
    ensures value { result ≡ name_at letter word.now }
    ensures valid { IfSome result IsName }
{
    match word {
        [first, rest @ ..] if *first == letter => suffix(rest),
        _ => None,
    }
}

pub(crate) fn any_name(word: &[u8]) -> Option<Name>
    ensures value { result ≡ any_name_at word.now }
    ensures valid { IfSome result IsAnyName }
{
    let [letter, rest @ ..] = word else {
        return None;
    };
    let number = suffix(rest)?;
    match letter {
        b'r' => Some(Name::Report(number)),
        b'b' => Some(Name::Basket(number)),
        b'c' => Some(Name::Chain(number)),
        _ => None,
    }
}

pub(crate) fn word(name: &[u8]) -> Option<Word>
    ensures { result ≡ word_at name.now }
{
    find_named(&WORDS, name)
}

pub(crate) fn class(name: &[u8]) -> Option<Class>
    ensures { result ≡ class_at name.now }
{
    find_named(&CLASSES, name)
}

pub(crate) fn io_kind(name: &[u8]) -> Option<IoKind>
    ensures { result ≡ io_at name.now }
{
    find_named(&IO_KINDS, name)
}

// Whether the word is `none`.
fn is_none(word: &[u8]) -> bool
    ensures { result ≡ bytes_eq word.now (word_text Word.None) }
{
    word == Word::None.text().as_bytes()
}

// `none` or a class.
pub(crate) fn maybe_class(word: &[u8]) -> Option<Option<Class>>
    ensures { result ≡ maybe_at class_at word.now }
{
    if is_none(word) {
        return Some(None);
    }
    Some(Some(class(word)?))
}

// `none` or the number of an error.
pub(crate) fn maybe_error(word: &[u8]) -> Option<Option<u16>>
    ensures value { result ≡ maybe_at error_at word.now }
    ensures valid { IfSome result (λ e. IfSome e IsError) }
{
    if is_none(word) {
        return Some(None);
    }
    Some(Some(error(word)?))
}

// `none` or a report.
pub(crate) fn maybe_report(word: &[u8]) -> Option<Option<u16>>
    ensures value { result ≡ maybe_at (name_at 114) word.now }
    ensures valid { IfSome result (λ n. IfSome n IsName) }
{
    if is_none(word) {
        return Some(None);
    }
    Some(Some(name(b'r', word)?))
}

fn hex(digit: u8) -> Option<u8>
    ensures value { result ≡ hex_at digit }
    ensures small { IfSome result (λ d. d < 16) }
{
    match digit {
        b'0'..=b'9' => Some(digit - b'0'),
        b'a'..=b'f' => Some(digit - b'a' + 10),
        _ => None,
    }
}

// What stands behind `\x`.
fn hex_pair(bytes: &[u8]) -> Option<(u8, &[u8])>
    ensures value { option_map (λ x. (x.0, x.1.now)) result ≡ hex_pair_at bytes.now }
    ensures shorter { IfSome result (λ x. length x.1.now < length bytes.now) }
    ensures byte { IfSome result (λ x. x.0 < 256) }
{
    let [high, low, rest @ ..] = bytes else {
        return None;
    };
    Some((16 * hex(*high)? + hex(*low)?, rest))
}

// What stands behind a backslash.
fn escape(bytes: &[u8]) -> Option<(u8, &[u8])>
    ensures value { option_map (λ x. (x.0, x.1.now)) result ≡ escape_at bytes.now }
    ensures shorter { IfSome result (λ x. length x.1.now < length bytes.now) }
    ensures byte { IfSome result (λ x. x.0 < 256) }
{
    match bytes {
        [] => None,
        [b'n', rest @ ..] => Some((b'\n', rest)),
        [b'x', rest @ ..] => hex_pair(rest),
        [byte, rest @ ..] => Some((*byte, rest)),
    }
}

// The next byte of a text, none at the closing quote.
pub(crate) fn text_byte(bytes: &[u8]) -> Option<(u8, &[u8])>
    ensures value { option_map (λ x. (x.0, x.1.now)) result ≡ byte_at bytes.now }
    ensures shorter { IfSome result (λ x. length x.1.now < length bytes.now) }
    ensures byte { IfSome result (λ x. x.0 < 256) }
{
    match bytes {
        [] | [b'"', ..] => None,
        [b'\\', rest @ ..] => escape(rest),
        [byte, rest @ ..] => Some((*byte, rest)),
    }
}
