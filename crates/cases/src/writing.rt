ghost use Rattle.std.specs.Prelude.{◌≡◌, ◌++◌, ◌∷◌, ◌<◌, IfOk, OnOk, decimal};
ghost use Rattle.cases.specs.Valid.{NamesOnly};
ghost use Rattle.cases.specs.Words.{word_text};
ghost use Rattle.cases.specs.Spelling.{call_operands, call_word, escaped, name_text, operand_text, operands, operands_text, quoted, spelled, report as report_operand, basket as basket_operand, chain as chain_operand, or_none as operand_or_none, hex_digit as hex_digit_of, host_word as host_word_of, layer_word as layer_word_of, line_text, spelling};

use crate::call::{Call, Name};
use crate::line::Line;
use crate::operand::Operand;
use crate::statement::{HostName, LayerName, Record, Statement, Text};
use crate::word::Word;
use std::alloc::{AllocError, Global};
use vocabulary::kind::Kind;

fn put_number(out: &mut Vec<u8>, number: u32) -> Result<(), AllocError>
    ensures { OnOk result (out.new.items ≡ out.old.items ++ decimal number) }
{
    let digits = number.to_string(*out.allocator())?;
    out.extend_from_slice(digits.as_str().as_bytes())
}

fn put_name(out: &mut Vec<u8>, name: Name) -> Result<(), AllocError>
    ensures { OnOk result (out.new.items ≡ out.old.items ++ name_text name) }
{
    let (letter, number) = match name {
        Name::Report(number) => (b'r', number),
        Name::Basket(number) => (b'b', number),
        Name::Chain(number) => (b'c', number),
    };
    out.push(letter)?;
    put_number(out, u32::from(number))
}

fn put_operand(out: &mut Vec<u8>, operand: Operand) -> Result<(), AllocError>
    ensures { OnOk result (out.new.items ≡ out.old.items ++ operand_text operand) }
{
    match operand {
        Operand::Word(word) => out.extend_from_slice(word.text().as_bytes()),
        Operand::Name(name) => put_name(out, name),
        Operand::Number(number) => put_number(out, number),
        Operand::Class(class) => out.extend_from_slice(class.name().as_bytes()),
        Operand::Io(kind) => out.extend_from_slice(kind.name().as_bytes()),
    }
}

fn put(out: &mut Vec<u8>, first: Word, operands: &[Operand]) -> Result<(), AllocError>
    ensures { OnOk result (out.new.items ≡ out.old.items ++ (word_text first ++ operands_text operands.now)) }
{
    out.extend_from_slice(first.text().as_bytes())?;
    for operand in operands {
        out.push(b' ')?;
        put_operand(out, *operand)?;
    }
    Ok(())
}

fn report(number: u16) -> Operand
    ensures { result ≡ report_operand number }
{
    Operand::Name(Name::Report(number))
}

fn basket(number: u16) -> Operand
    ensures { result ≡ basket_operand number }
{
    Operand::Name(Name::Basket(number))
}

fn chain(number: u16) -> Operand
    ensures { result ≡ chain_operand number }
{
    Operand::Name(Name::Chain(number))
}

fn number(value: u16) -> Operand
    ensures { result ≡ Operand.Number value }
{
    Operand::Number(u32::from(value))
}

// What is there, or `none`.
fn or_none(operand: Option<Operand>) -> Operand
    ensures { result ≡ operand_or_none (λ o. o) operand }
{
    operand.unwrap_or(Operand::Word(Word::None))
}

// A call that names reports, baskets and chains, and no error.
fn put_names(out: &mut Vec<u8>, call: Call) -> Result<(), AllocError>
    ensures { NamesOnly call → OnOk result (out.new.items ≡ out.old.items ++ (word_text (call_word call) ++ operands_text (call_operands call))) }
{
    match call {
        Call::Chain { report: r, other } => put(out, Word::Chain, &[report(r), report(other)]),
        Call::ChainAll {
            report: r,
            basket: b,
        } => put(out, Word::ChainAll, &[report(r), basket(b)]),
        Call::Basket { basket: b } => put(out, Word::Basket, &[basket(b)]),
        Call::Collect {
            basket: b,
            report: r,
        } => put(out, Word::Collect, &[basket(b), report(r)]),
        Call::Take {
            basket: b,
            report: r,
        } => put(out, Word::Take, &[basket(b), or_none(r.map(report))]),
        Call::DrainChildren {
            report: r,
            basket: b,
        } => put(out, Word::DrainChildren, &[report(r), basket(b)]),
        Call::IntoChain {
            report: r,
            chain: c,
        } => put(out, Word::IntoChain, &[report(r), chain(c)]),
        Call::IntoExn {
            chain: c,
            report: r,
        } => put(out, Word::IntoExn, &[chain(c), report(r)]),
        Call::Discard(name) => put(out, Word::Discard, &[Operand::Name(name)]),
        Call::New { .. } | Call::Raise { .. } | Call::RaiseAll { .. } => Ok(()),
    }
}

fn put_call(out: &mut Vec<u8>, call: Call) -> Result<(), AllocError>
    ensures { OnOk result (out.new.items ≡ out.old.items ++ (word_text (call_word call) ++ operands_text (call_operands call))) }
{
    match call {
        Call::New {
            report: r,
            error,
            place,
        } => put(
            out,
            Word::New,
            &[report(r), number(error), Operand::Number(place)],
        ),
        Call::Raise {
            report: r,
            error,
            place,
        } => put(
            out,
            Word::Raise,
            &[report(r), number(error), Operand::Number(place)],
        ),
        Call::RaiseAll {
            report: r,
            basket: b,
            error,
            place,
        } => put(
            out,
            Word::RaiseAll,
            &[report(r), basket(b), number(error), Operand::Number(place)],
        ),
        _ => put_names(out, call),
    }
}

// A hexadecimal digit.
fn hex_digit(digit: u8) -> u8
    requires { digit < 16 }
    ensures { result ≡ hex_digit_of digit }
{
    if digit < 10 {
        b'0' + digit
    } else {
        b'a' - 10 + digit
    }
}

fn put_escaped(out: &mut Vec<u8>, byte: u8) -> Result<(), AllocError>
    ensures { OnOk result (out.new.items ≡ out.old.items ++ escaped byte) }
{
    match byte {
        b'\n' => out.extend_from_slice(b"\\n"),
        b'"' | b'\\' => out.extend_from_slice(&[b'\\', byte]),
        0..=31 | 127 => out.extend_from_slice(&[
            b'\\',
            b'x',
            hex_digit(byte / 16),
            hex_digit(byte % 16),
        ]),
        _ => out.extend_from_slice(&[byte]),
    }
}

// Puts a text between quotes.
pub fn put_quoted(out: &mut Vec<u8>, text: &[u8]) -> Result<(), AllocError>
    ensures { OnOk result (out.new.items ≡ out.old.items ++ quoted text.now) }
{
    out.push(b'"')?;
    for byte in text {
        put_escaped(out, *byte)?;
    }
    out.push(b'"')?;
    Ok(())
}

fn put_record(out: &mut Vec<u8>, error: u16, record: &Record) -> Result<(), AllocError>
    ensures { OnOk result (out.new.items ≡ out.old.items ++ spelled (Statement.Error error «record».now)) }
{
    let n = number(error);
    let source = or_none(record.source.map(number));
    match record.kind {
        Kind::Plain => put(out, Word::Error, &[n, Operand::Word(Word::Plain), source]),
        Kind::Message(class) => put(
            out,
            Word::Error,
            &[
                n,
                Operand::Word(Word::Message),
                or_none(class.map(Operand::Class)),
            ],
        ),
        Kind::ClassificationMarker(class) => put(
            out,
            Word::Error,
            &[
                n,
                Operand::Word(Word::Marker),
                Operand::Class(class),
                source,
            ],
        ),
        Kind::TryReserveError => put(out, Word::Error, &[n, Operand::Word(Word::Reserve)]),
        Kind::Io(kind) => put(
            out,
            Word::Error,
            &[n, Operand::Word(Word::Io), Operand::Io(kind), source],
        ),
    }?;
    out.push(b' ')?;
    put_quoted(out, record.text.as_slice())
}

fn host_word(host: HostName) -> Word
    ensures { result ≡ host_word_of host }
{
    match host {
        HostName::Table => Word::Table,
        HostName::Drive => Word::Drive,
    }
}

fn layer_word(layer: LayerName) -> Word
    ensures { result ≡ layer_word_of layer }
{
    match layer {
        LayerName::Marker => Word::Marker,
        LayerName::Io => Word::Io,
    }
}

fn put_statement(out: &mut Vec<u8>, statement: &Statement) -> Result<(), AllocError>
    ensures { OnOk result (out.new.items ≡ out.old.items ++ spelled statement.now) }
{
    match statement {
        Statement::Host(host) => put(out, Word::Host, &[Operand::Word(host_word(*host))]),
        Statement::Error { number, record } => put_record(out, *number, record),
        Statement::Layer(layer) => put(out, Word::Layer, &[Operand::Word(layer_word(*layer))]),
        Statement::Mark {
            error,
            class,
            number: n,
        } => put(
            out,
            Word::Mark,
            &[
                number(*error),
                Operand::Class(*class),
                Operand::Word(Word::As),
                number(*n),
            ],
        ),
        Statement::Wrap {
            error,
            kind,
            number: n,
        } => put(
            out,
            Word::Wrap,
            &[
                number(*error),
                Operand::Io(*kind),
                Operand::Word(Word::As),
                number(*n),
            ],
        ),
        Statement::Call(call) => put_call(out, *call),
        Statement::Ask(r) => put(out, Word::Ask, &[report(*r)]),
    }
}

// A line at the end, without its newline.
pub(crate) fn put_line(out: &mut Vec<u8>, line: &Line) -> Result<(), AllocError>
    ensures { OnOk result (out.new.items ≡ out.old.items ++ line_text line.now) }
{
    match line {
        Line::Comment(text) => {
            out.push(b'#')?;
            out.extend_from_slice(text.as_slice())
        }
        Line::Case(name) => {
            out.extend_from_slice(b"case ")?;
            out.extend_from_slice(name.as_slice())
        }
        Line::Statement(statement) => put_statement(out, statement),
    }
}

// The lines as a file.
pub fn write(heap: Global, lines: &[Line]) -> Result<Vec<u8>, AllocError>
    ensures { IfOk result (λ v. v.items ≡ spelling lines.now) }
{
    let mut out = Vec::new(heap);
    for line in lines {
        put_line(&mut out, line)?;
        out.push(b'\n')?;
    }
    Ok(out)
}
