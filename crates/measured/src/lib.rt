// The library behind a boundary for programs that are not Rattle's. Each export makes a host, a store and lists once, and then
// repeats one operation; it answers a checksum, which is 0 where there is no memory, or where the rows are refused.
#![tactic(auto)]

mod asking;
mod building;
mod input;
mod printing;
mod reports;
mod work;

use crate::asking::Question;
use crate::building::Build;
use crate::input::{ErrorRow, NodeRow, make_host, make_list};
use crate::printing::{Form, print};
use crate::reports::ask_report;
use crate::work::{Work, work_on_chain};
use std::alloc::Global;

// Builds a report of the first error by calls of one kind, and discards it, as often as told: `size` raises (kind 0) or joins
// (kind 1), or one raise over a basket of `size` reports (kind 2). Answers the sum of the frames that were left free.
#[unsafe(no_mangle)]
pub extern "C" fn measured_building(
    heap: Global,
    errors: &[ErrorRow],
    texts: &[u8],
    kind: u8,
    size: u32,
    repeats: u32,
) -> u64 {
    match (Build::of(kind), make_host(heap, errors, texts)) {
        (Some(build), Ok(host)) => building::repeat(&host, build, size, repeats),
        _ => 0,
    }
}

// Asks a question of the report that some nodes are the flattening of, as often as told: its class (0), whether to try again (1)
// or its probable cause (2). Answers the sum of the answers' numbers.
#[unsafe(no_mangle)]
pub extern "C" fn measured_report(
    heap: Global,
    errors: &[ErrorRow],
    texts: &[u8],
    nodes: &[NodeRow],
    question: u8,
    repeats: u32,
) -> u64 {
    match (
        Question::of(question),
        make_host(heap, errors, texts),
        make_list(heap, nodes),
    ) {
        (Some(question), Ok(host), Ok(list)) => {
            ask_report(&host, list.as_slice(), question, repeats)
        }
        _ => 0,
    }
}

// Works on the chain of some nodes, as often as told: asks it a question (0 to 2, as above), builds its report and discards it
// (3), or builds its report and flattens it again (4). Answers the sum of the answers' numbers, or of the nodes.
#[unsafe(no_mangle)]
pub extern "C" fn measured_chain(
    heap: Global,
    errors: &[ErrorRow],
    texts: &[u8],
    nodes: &[NodeRow],
    work: u8,
    repeats: u32,
) -> u64 {
    match (
        Work::of(work),
        make_host(heap, errors, texts),
        make_list(heap, nodes),
    ) {
        (Some(work), Ok(host), Ok(mut list)) => {
            work_on_chain(&host, list.as_mut_slice(), work, repeats)
        }
        _ => 0,
    }
}

// Prints what some nodes are the flattening of into a lent buffer, as often as told: the report as a tree (0), or the chain on
// several lines (1) or on one (2). Answers the sum of the lengths.
#[unsafe(no_mangle)]
pub extern "C" fn measured_print(
    heap: Global,
    errors: &[ErrorRow],
    texts: &[u8],
    nodes: &[NodeRow],
    out: &mut [u8],
    form: u8,
    repeats: u32,
) -> u64 {
    match (
        Form::of(form),
        make_host(heap, errors, texts),
        make_list(heap, nodes),
    ) {
        (Some(form), Ok(host), Ok(mut list)) => {
            print(&host, list.as_mut_slice(), out, form, repeats)
        }
        _ => 0,
    }
}
