// One failed movement of the drive from beginning to end: the error that it ended with, the sources beneath it with
// their texts and kinds, then the class and both verdicts; and the building calls that a report of it takes.
#![tactic(auto)]

use anyhow::anyhow;
use classes::class::Class;
use drive_host::drive::DriveHost;

mod build;
mod log;
mod session;

use crate::log::Line;
use host::host::Host;
use host::judge::{dominant_class, retry};
use host::sources::Chain;
use nodes::node::Node;
use std::env;
use vocabulary::fault::HostFault;
use vocabulary::kind::Kind;
use vocabulary::policy::StandardPolicy;

const USAGE: &str = "usage: movement [ERROR]

Prints what the drive error of that number (0 to 47; 34 if none is given) and
the sources beneath it are, their class and whether to try again.";

// What a kind says beside its name.
fn detail(kind: Kind) -> Option<&'static str> {
    match kind {
        Kind::Io(io_kind) => Some(io_kind.name()),
        Kind::ClassificationMarker(class) => Some(class.name()),
        Kind::Message(class) => Some(class.map_or("no class", Class::name)),
        Kind::Plain | Kind::TryReserveError => None,
    }
}

// A type with `Display` for two words would be no plainer.
fn yes_or_no(answer: bool) -> &'static str {
    if answer { "yes" } else { "no" }
}

// The words are this program's. No `From`: both types are other crates'.
fn fault_text(fault: HostFault) -> anyhow::Error {
    match fault {
        HostFault::NotLive(_) => anyhow!("the drive has no error of this number"),
        HostFault::TextTooLong(_) => anyhow!("a text is too long"),
    }
}

// The text of an error, in a buffer that is lent for it.
fn text_of(error: u16, buffer: &mut [u8; 255]) -> anyhow::Result<&str> {
    let len = DriveHost.text(error, buffer).map_err(fault_text)?;
    Ok(std::str::from_utf8(&buffer[0..len.min(255)])?)
}

fn print_error(rt: &HostRuntime, error: u16) -> anyhow::Result<()> {
    let mut buffer = [0u8; 255];
    let kind = DriveHost.kind(error).map_err(fault_text)?;
    let text = text_of(error, &mut buffer)?;
    match detail(kind) {
        Some(more) => println!(rt; "  {error:>2}  {text:<9} {kind} {more}")?,
        None => println!(rt; "  {error:>2}  {text:<9} {kind}")?,
    }
    Ok(())
}

fn print_account(rt: &HostRuntime, error: u16) -> anyhow::Result<()> {
    let host = DriveHost;
    println!(rt; "The movement ended with error {error}. From the gate down:")?;
    for e in Chain::of(&host, error).map_err(fault_text)? {
        print_error(rt, e)?;
    }
    match dominant_class(&host, error).map_err(fault_text)? {
        Some(class) => {
            let rank = class.rank();
            println!(rt; "Class: {class} (rank {rank})")?;
        }
        None => println!(rt; "Class: none")?,
    }
    let strict = retry(&host, &StandardPolicy::CanRetry, error).map_err(fault_text)?;
    let lenient = retry(&host, &StandardPolicy::CanRetryLenient, error).map_err(fault_text)?;
    let strict = yes_or_no(strict);
    let lenient = yes_or_no(lenient);
    println!(rt; "Try again: {strict}")?;
    println!(rt; "Try again, lenient: {lenient}")?;
    print_calls(rt)
}

// A node of a chain: its index, error and place, and whether it is a source of its parent's error or a child of its frame.
fn print_node(rt: &HostRuntime, index: usize, node: &Node) -> anyhow::Result<()> {
    let mut buffer = [0u8; 255];
    let error = node.error.number();
    let text = text_of(error, &mut buffer)?;
    let place = node.place;
    let tie = if node.native { "source of" } else { "child of" };
    match node.parent {
        Some(parent) => println!(rt;
            "    {index:>2}  {error:>2} {text:<9} place {place}, {tie} {parent}"
        )?,
        None => println!(rt; "    {index:>2}  {error:>2} {text:<9} place {place}, the root")?,
    }
    Ok(())
}

// What the building calls answered, one to a line, and the nodes of the chain that one made.
fn print_calls(rt: &HostRuntime) -> anyhow::Result<()> {
    println!(rt; "As reports in a store of 1024 frames:")?;
    for line in build::run().lines() {
        match line {
            Line::Call(step) => println!(rt; "  {step}")?,
            Line::Node(index, node) => print_node(rt, *index, node)?,
        }
    }
    Ok(())
}

fn run(rt: &HostRuntime) -> anyhow::Result<()> {
    let mut args = env::args(rt)?;
    let _program = args.next();
    let Some(word) = args.next() else {
        return print_account(rt, 34);
    };
    if word.as_str() == "--help" {
        println!(rt; "{USAGE}")?;
        return Ok(());
    }
    print_account(rt, word.as_str().parse::<u16>()?)
}

fn main(rt: HostRuntime) -> anyhow::Result<()> {
    run(&rt)
}
