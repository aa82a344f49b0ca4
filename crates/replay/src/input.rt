// What the program reads.
use std::io::{BufRead, Read};

const LIMIT: usize = 16 << 20;

// All of standard input, which has a limit.
pub fn read(rt: &HostRuntime) -> anyhow::Result<Vec<u8>> {
    let mut reader = rt.reader();
    let mut bytes = Vec::new(rt.alloc());
    let mut part = [0u8; 4096];
    for _ in 0..u64::MAX {
        let count = reader.read(&mut part)?;
        if count == 0 {
            break;
        }
        bytes.extend_from_slice(&part[..count])?;
        anyhow::ensure!(bytes.len() <= LIMIT, "the input has more than 16 MiB");
    }
    Ok(bytes)
}
