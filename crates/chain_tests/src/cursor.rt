// The cursor over the children of a node.
use crate::hosts::branched;
use crate::plan::{frame, listing};
use chains::children::Children;
use std::test::Fail;

#[test]
fn each_child_once(rt: HostRuntime) -> Result<(), Fail> {
    let heap = rt.alloc();
    let host = branched(heap)?;
    let tree = [
        frame(0, 3, 1),
        frame(1, 1, 1),
        frame(2, 2, 1),
        frame(2, 0, 1),
        frame(1, 0, 1),
        frame(1, 2, 1),
        frame(2, 2, 1),
    ];
    let list = listing(heap, &host, &tree)?;
    let list = list.as_slice();
    assert_eq!(rt; list.len(), 15);
    for parent in 0..=list.len() {
        let children: Vec<usize> = Children::of(list, parent).collect(heap)?;
        let expected: Vec<usize> = list
            .iter()
            .enumerate()
            .filter(|(_, node)| node.parent == Some(parent))
            .map(|(i, _)| i)
            .collect(heap)?;
        assert_eq!(rt; children.as_slice(), expected.as_slice());
    }
    Ok(())
}

#[test]
fn after_the_last(rt: HostRuntime) -> Result<(), Fail> {
    let heap = rt.alloc();
    let tree = [frame(0, 1, 1), frame(1, 0, 1)];
    let list = listing(heap, &branched(heap)?, &tree)?;
    let mut children = Children::of(list.as_slice(), 0);
    assert_eq!(rt; children.next(), Some(1));
    assert_eq!(rt; children.next(), Some(2));
    assert_eq!(rt; children.next(), None);
    assert_eq!(rt; children.next(), None);
    Ok(())
}

// The children of the root: the source of its error, then its frames.
#[test]
fn the_source_first(rt: HostRuntime) -> Result<(), Fail> {
    let heap = rt.alloc();
    let host = branched(heap)?;
    let tree = [frame(0, 3, 1), frame(1, 0, 1), frame(1, 0, 1)];
    let list = listing(heap, &host, &tree)?;
    let children: Vec<usize> = Children::of(list.as_slice(), 0).collect(heap)?;
    assert_eq!(rt; children.as_slice(), [1, 2, 3].as_slice());
    assert!(rt;
        list.as_slice()
            .iter()
            .map(|node| node.native)
            .take(4)
            .eq([false, true, false, false])
    );
    Ok(())
}
