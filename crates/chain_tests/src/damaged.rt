// Every prefix of small chains, and every damage of one node, beside the exhaustive search.
use crate::hosts::branched;
use crate::plan::{Planned, frame, listing};
use crate::search::{Choice, Tried, search};
use crate::tokens::granted;
use chains::iter::iter_chain_errors;
use checks::check::first_bad;
use drive_host::drive::DriveHost;
use host::host::Host;
use nodes::node::{Node, Note, Plan};
use std::alloc::Global;
use std::process::Abort;
use std::test::Fail;
use store::chain::ChainedError;
use store::store::Store;
use store::token::Refusal;
use vocabulary::fault::StoreFault;
use vocabulary::frame_error::FrameError;

const PLAN: Plan = Plan {
    marker: true,
    first: None,
    next: None,
    line: None,
};

// The node with one of its fields changed, in every way that is tried.
fn changed(
    heap: Global,
    node: Node,
    dead: u16,
    choice: Choice,
    len: usize,
) -> Result<Vec<Node>, Fail> {
    let mut all = Vec::new(heap);
    for error in choice.errors {
        all.push(Node {
            error: FrameError::Host(*error),
            ..node
        })?;
    }
    all.push(Node {
        error: FrameError::Host(dead),
        ..node
    })?;
    for place in choice.places {
        all.push(Node {
            place: *place,
            ..node
        })?;
    }
    all.push(Node {
        native: !node.native,
        ..node
    })?;
    for parent in 0..=len {
        all.push(Node {
            parent: Some(parent),
            ..node
        })?;
    }
    for parent in [None, Some(usize::MAX)] {
        all.push(Node { parent, ..node })?;
    }
    for note in [
        Note::Planned(PLAN),
        Note::Planned(Plan {
            marker: false,
            ..PLAN
        }),
        Note::Several,
        Note::Single(node.error),
    ] {
        all.push(Node { note, ..node })?;
    }
    Ok(all)
}

// The list, its prefixes, and all lists with one node changed or two neighbours exchanged.
fn damage(
    heap: Global,
    list: &[Node],
    dead: u16,
    choice: Choice,
    tried: &mut Vec<Tried>,
) -> Result<(), Fail> {
    for (i, node) in list.iter().enumerate() {
        tried.push(Tried::new(list[..i].to_vec(heap)?))?;
        for other in changed(heap, *node, dead, choice, list.len())? {
            let mut copy = list.to_vec(heap)?;
            copy[i] = other;
            tried.push(Tried::new(copy))?;
        }
        if i > 0 {
            let mut copy = list.to_vec(heap)?;
            copy.swap(i - 1, i);
            tried.push(Tried::new(copy))?;
        }
    }
    Ok(())
}

// What the call on the store and the question on the chain say of a list.
fn answers<H: Host>(
    rt: &impl Abort,
    heap: Global,
    store: &mut Store,
    host: &H,
    list: &[Node],
) -> Result<(Option<StoreFault>, Option<StoreFault>), Fail> {
    let mut room = list.to_vec(heap)?;
    let asked = iter_chain_errors(&ChainedError::of(list), host, list, room.as_mut_slice()).err();
    let built = match ChainedError::of(list).into_exn(store, host, list) {
        Err(Refusal { fault, given: _ }) => Some(fault),
        Ok(report) => {
            let chain = granted(rt, report.into_chain(store, host, room.as_mut_slice()));
            assert_eq!(rt; chain.nodes(), list.len());
            assert!(rt; room.as_slice() == list);
            None
        }
    };
    Ok((built, asked))
}

// How many lists are taken, and how many are refused; each as the search says. Trees of as many frames as a list has
// explicit nodes are enough: the first nodes of a flattening are also those of the tree that has no other frames.
fn compare<H: Host>(
    rt: &impl Abort,
    heap: Global,
    host: &H,
    choice: Choice,
    frames: usize,
    bases: &[&[Planned]],
) -> Result<(usize, usize), Fail> {
    let dead = u16::try_from(host.span()).unwrap_or(u16::MAX);
    let mut tried = Vec::new(heap);
    for base in bases {
        let list = listing(heap, host, base)?;
        damage(heap, list.as_slice(), dead, choice, &mut tried)?;
    }
    search(heap, host, choice, frames, tried.as_mut_slice())?;
    let mut store = Store::new(1);
    let mut taken = 0usize;
    for one in &tried {
        let list = one.list.as_slice();
        let expected = one.first_bad();
        assert_eq!(rt; first_bad(host, list), expected);
        let fault = expected.map(StoreFault::NotFlattening);
        assert_eq!(rt; answers(rt, heap, &mut store, host, list)?, (fault, fault));
        if expected.is_none() {
            taken = taken.wrapping_add(1);
        }
    }
    assert_eq!(rt; store.free(), 1024);
    Ok((taken, tried.len().wrapping_sub(taken)))
}

#[test]
fn chains_of_a_table(rt: HostRuntime) -> Result<(), Fail> {
    let host = branched(rt.alloc())?;
    let choice = Choice {
        errors: &[0, 1, 2],
        places: &[1, u32::MAX],
    };
    let bases: [&[Planned]; 4] = [
        &[frame(0, 2, 1), frame(1, 1, 1), frame(1, 1, 1)],
        &[frame(0, 1, 1), frame(1, 2, u32::MAX), frame(2, 0, 1)],
        &[frame(0, 0, 1), frame(1, 1, 1), frame(1, 2, 1)],
        &[frame(0, 1, 1), frame(1, 0, 1), frame(2, 0, 1)],
    ];
    let (taken, turned_down) = compare(&rt, rt.alloc(), &host, choice, 4, &bases)?;
    assert!(rt;
        taken > 40 && turned_down > 400,
        "{taken} and {turned_down}"
    );
    Ok(())
}

#[test]
fn chains_of_the_drive(rt: HostRuntime) -> Result<(), Fail> {
    let choice = Choice {
        errors: &[34, 18, 2, 17, 1],
        places: &[7, 9],
    };
    let bases: [&[Planned]; 2] = [
        &[frame(0, 34, 9), frame(1, 17, 7)],
        &[frame(0, 17, 7), frame(1, 34, 7)],
    ];
    let (taken, turned_down) = compare(&rt, rt.alloc(), &DriveHost, choice, 3, &bases)?;
    assert!(rt;
        taken > 10 && turned_down > 100,
        "{taken} and {turned_down}"
    );
    Ok(())
}
