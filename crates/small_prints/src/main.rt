// Prints every small tree in all three forms, and a digest of the bytes for each number of frames, so that they can be compared
// with the prints of the Rust crate.
#![tactic(auto)]

mod building;
mod digest;
mod shapes;

use crate::building::{Variant, reading};
use crate::digest::Digest;
use crate::shapes::{Shape, deepest, shapes};
use runs::call::Reading;
use std::alloc::Global;
use std::env;

const USAGE: &str = "usage: small_prints

Builds every tree of one to five frames, with each of four errors in each frame
(plain, plain with a source, a marker, a marker around an error), prints each in
all three forms, and prints how many there are and a digest of the bytes; then
the same of one tree with the deepest guides that a store allows.";

// How many errors each frame may have.
const VARIANTS: usize = 4;

// The variant of a frame by a choice: its digits are the frames' variants, the root's first.
fn variant(choice: usize, frame: usize) -> Variant {
    let mut rest = choice;
    for _ in 0..frame {
        rest /= VARIANTS;
    }
    match rest % VARIANTS {
        0 => Variant::Plain,
        1 => Variant::WithSource,
        2 => Variant::Marker,
        _ => Variant::MarkerAround,
    }
}

// The variants of the frames by a choice.
fn variants(heap: Global, choice: usize, frames: usize) -> anyhow::Result<Vec<Variant>> {
    let mut all = Vec::new(heap);
    for frame in 0..frames {
        all.push(variant(choice, frame))?;
    }
    Ok(all)
}

// Takes in the three forms of a report.
fn take_prints(digest: &mut Digest, reading: &Reading) {
    for print in [&reading.tree, &reading.chain, &reading.inline] {
        digest.add(print.as_slice());
        digest.add(b"\n");
    }
}

// How many choices there are.
fn choices(frames: usize) -> usize {
    let mut count: usize = 1;
    for _ in 0..frames {
        count = count.saturating_mul(VARIANTS);
    }
    count
}

// Prints all trees of so many frames, and answers how many there are.
fn print_all(
    heap: Global,
    shapes: &[Shape],
    frames: usize,
    digest: &mut Digest,
) -> anyhow::Result<usize> {
    let mut count: usize = 0;
    for shape in shapes {
        for choice in 0..choices(frames) {
            let variants = variants(heap, choice, frames)?;
            let reading = reading(heap, shape, variants.as_slice())?;
            take_prints(digest, &reading);
            count = count.saturating_add(1);
        }
    }
    Ok(count)
}

fn run(rt: &HostRuntime) -> anyhow::Result<()> {
    let heap = rt.alloc();
    for frames in 1..=5 {
        let mut digest = Digest::new();
        let shapes = shapes(heap, frames)?;
        let count = print_all(heap, shapes.as_slice(), frames, &mut digest)?;
        let value = digest.value();
        println!(rt; "{frames} frames: {count} trees, digest {value:016x}")?;
    }
    let shape = deepest(heap, 1024)?;
    let variants = vec![in heap; Variant::WithSource; 1024]?;
    let reading = reading(heap, &shape, variants.as_slice())?;
    let mut digest = Digest::new();
    take_prints(&mut digest, &reading);
    let bytes = reading.tree.len();
    let value = digest.value();
    println!(rt; "the deepest guides: {bytes} bytes, digest {value:016x}")?;
    Ok(())
}

fn main(rt: HostRuntime) -> anyhow::Result<()> {
    let mut args = env::args(&rt)?;
    let _program = args.next();
    match args.next() {
        None => run(&rt),
        Some(_) => {
            println!(&rt; "{USAGE}")?;
            Ok(())
        }
    }
}
