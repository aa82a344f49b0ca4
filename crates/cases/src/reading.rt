// Lines out of their words.
ghost use Rattle.std.specs.Prelude.{◌≡◌, ℕ, ◌++◌, ◌∷◌, [], List, Some, IfSome, flat_map};
ghost use Rattle.cases.specs.Spelling.{escaped, spelled};
ghost use Rattle.cases.specs.Valid.{IsCall, IsName, IsStatement, IsText, MayHave};
ghost use Rattle.cases.specs.Reading.{basket_at, call_at, chain_at, host_at, kind_at, layer_at, names_at, report_at, statement_at};

use crate::call::Call;
use crate::fields::{
    any_name, class, cut, error, io_kind, maybe_class, maybe_error, maybe_report, name, number,
    text_byte, word,
};
use crate::statement::{HostName, LayerName, Record, Statement, Text};
use crate::word::Word;
use vocabulary::kind::Kind;

fn report(name_word: &[u8]) -> Option<u16>
    ensures value { result ≡ report_at name_word.now }
    ensures valid { IfSome result IsName }
{
    name(b'r', name_word)
}

fn basket(name_word: &[u8]) -> Option<u16>
    ensures value { result ≡ basket_at name_word.now }
    ensures valid { IfSome result IsName }
{
    name(b'b', name_word)
}

fn chain(name_word: &[u8]) -> Option<u16>
    ensures value { result ≡ chain_at name_word.now }
    ensures valid { IfSome result IsName }
{
    name(b'c', name_word)
}

// A call that names reports, baskets and chains, and no error.
#[tactic(auto, unfolding(crate::specs::Reading::names_at))]
fn names(first: Word, a: &[u8], b: &[u8]) -> Option<Call>
    ensures value { result ≡ names_at first a.now b.now }
    ensures valid { IfSome result IsCall }
{
    let call = match first {
        Word::Chain => Call::Chain {
            report: report(a)?,
            other: report(b)?,
        },
        Word::ChainAll => Call::ChainAll {
            report: report(a)?,
            basket: basket(b)?,
        },
        Word::Basket => Call::Basket { basket: basket(a)? },
        Word::Collect => Call::Collect {
            basket: basket(a)?,
            report: report(b)?,
        },
        Word::Take => Call::Take {
            basket: basket(a)?,
            report: maybe_report(b)?,
        },
        Word::DrainChildren => Call::DrainChildren {
            report: report(a)?,
            basket: basket(b)?,
        },
        Word::IntoChain => Call::IntoChain {
            report: report(a)?,
            chain: chain(b)?,
        },
        Word::IntoExn => Call::IntoExn {
            chain: chain(a)?,
            report: report(b)?,
        },
        Word::Discard => Call::Discard(any_name(a)?),
        _ => return None,
    };
    Some(call)
}

#[tactic(auto, unfolding(crate::specs::Reading::call_at))]
fn call(first: Word, a: &[u8], b: &[u8], c: &[u8], d: &[u8]) -> Option<Call>
    ensures value { result ≡ call_at first a.now b.now c.now d.now }
    ensures valid { IfSome result IsCall }
{
    let call = match first {
        Word::New => Call::New {
            report: report(a)?,
            error: error(b)?,
            place: number(c)?,
        },
        Word::Raise => Call::Raise {
            report: report(a)?,
            error: error(b)?,
            place: number(c)?,
        },
        Word::RaiseAll => Call::RaiseAll {
            report: report(a)?,
            basket: basket(b)?,
            error: error(c)?,
            place: number(d)?,
        },
        _ => return names(first, a, b),
    };
    Some(call)
}

// The kind of a record and its source, if any.
#[tactic(auto, unfolding(crate::specs::Reading::kind_at))]
fn kind(name: Word, c: &[u8], d: &[u8]) -> Option<(Kind, Option<u16>)>
    ensures value { result ≡ kind_at name c.now d.now }
    ensures valid { IfSome result (λ k. MayHave k.0 k.1) }
{
    match name {
        Word::Plain => Some((Kind::Plain, maybe_error(c)?)),
        Word::Message => Some((Kind::Message(maybe_class(c)?), None)),
        Word::Marker => Some((Kind::ClassificationMarker(class(c)?), maybe_error(d)?)),
        Word::Reserve => Some((Kind::TryReserveError, None)),
        Word::Io => Some((Kind::Io(io_kind(c)?), maybe_error(d)?)),
        _ => None,
    }
}

fn host(name: &[u8]) -> Option<HostName>
    ensures { result ≡ host_at name.now }
{
    match word(name)? {
        Word::Table => Some(HostName::Table),
        Word::Drive => Some(HostName::Drive),
        _ => None,
    }
}

fn layer(name: &[u8]) -> Option<LayerName>
    ensures { result ≡ layer_at name.now }
{
    match word(name)? {
        Word::Marker => Some(LayerName::Marker),
        Word::Io => Some(LayerName::Io),
        _ => None,
    }
}

// The statement of a first word, the four words after it, and the text of the line.
#[tactic(auto, unfolding(crate::specs::Reading::statement_at))]
fn statement_of(
    first: Word,
    a: &[u8],
    b: &[u8],
    c: &[u8],
    d: &[u8],
    text: Text,
) -> Option<Statement>
    requires { IsText text.items }
    ensures value { result ≡ statement_at first a.now b.now c.now d.now (λ k s. record { kind = k; source = s; text = text }) }
    ensures valid { IfSome result IsStatement }
{
    match first {
        Word::Host => Some(Statement::Host(host(a)?)),
        Word::Error => {
            let number = error(a)?;
            let (kind, source) = kind(word(b)?, c, d)?;
            let record = Record { kind, source, text };
            Some(Statement::Error { number, record })
        }
        Word::Layer => Some(Statement::Layer(layer(a)?)),
        Word::Mark => Some(Statement::Mark {
            error: error(a)?,
            class: class(b)?,
            number: error(d)?,
        }),
        Word::Wrap => Some(Statement::Wrap {
            error: error(a)?,
            kind: io_kind(b)?,
            number: error(d)?,
        }),
        Word::Ask => Some(Statement::Ask(report(a)?)),
        _ => Some(Statement::Call(call(first, a, b, c, d)?)),
    }
}

// The text that stands behind an opening quote.
fn text(bytes: &[u8]) -> Text
    ensures reads { (t : List ℕ) → IsText t → bytes.now ≡ flat_map escaped t ++ 34 ∷ [] → result.items ≡ t }
    ensures valid { IsText result.items }
{
    let mut text = Text::new();
    let mut rest = bytes;
    while let Some((byte, after)) = text_byte(rest) {
        if text.is_full() {
            break;
        }
        text.push(byte);
        rest = after;
    }
    text
}

// What a line may say. It is lenient: another may say the same.
pub(crate) fn statement(bytes: &[u8]) -> Option<Statement>
    ensures reads { (s : Statement) → IsStatement s → bytes.now ≡ spelled s → result ≡ Some s }
    ensures valid { IfSome result IsStatement }
{
    let (first, rest) = cut(bytes, b' ');
    let (a, rest) = cut(rest, b' ');
    let (b, rest) = cut(rest, b' ');
    let (c, rest) = cut(rest, b' ');
    let (d, _) = cut(rest, b' ');
    let (_, quoted) = cut(bytes, b'"');
    statement_of(word(first)?, a, b, c, d, text(quoted))
}
