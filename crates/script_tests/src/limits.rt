// The longest script, and the longest output.
use crate::prints;
use scripts::output::output;
use std::alloc::{AllocError, Global};

// Lines one after another, each so many times.
fn repeated(heap: Global, parts: &[(&str, u16)]) -> Result<Vec<u8>, AllocError> {
    let mut script = Vec::new(heap);
    for (line, count) in parts {
        for _ in 0..*count {
            script.extend_from_slice(line.as_bytes())?;
        }
    }
    Ok(script)
}

// How many bytes a script prints.
fn printed(script: &[u8]) -> usize {
    let mut out = [0; 65536];
    output(script, &mut out)
}

#[test]
fn long_scripts(rt: HostRuntime) -> Result<(), AllocError> {
    let longest = repeated(rt.alloc(), &[("new 0\n", 678), ("new 10\n", 4)])?;
    assert_eq!(rt; longest.len(), 4096);
    assert_eq!(rt; printed(longest.as_slice()), 678 * 47 + 4 * 50);
    let too_long = repeated(rt.alloc(), &[("new 0\n", 677), ("new 10\n", 5)])?;
    assert_eq!(rt; too_long.len(), 4097);
    assert!(rt; prints(too_long.as_slice(), b"line 0 refused 10\n"));
    Ok(())
}

// A script that prints 65,536 bytes, and one that would print a byte more.
#[test]
fn long_outputs(rt: HostRuntime) -> Result<(), AllocError> {
    let longest = repeated(
        rt.alloc(),
        &[("new 0\nall 0\n", 116), ("new 0\n", 154), ("new 5\n", 10)],
    )?;
    assert_eq!(rt; printed(longest.as_slice()), 65536);
    let too_long = repeated(
        rt.alloc(),
        &[
            ("new 0\nall 0\n", 116),
            ("new 0\n", 153),
            ("new 7\n", 1),
            ("new 5\n", 10),
        ],
    )?;
    assert!(rt; prints(too_long.as_slice(), b"refused 6\n"));
    Ok(())
}
