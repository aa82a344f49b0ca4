// Trees without errors.
use std::alloc::{AllocError, Global};

// The depth of each frame, the root's first, each before those beneath it.
pub type Shape = Vec<usize>;

// One row of trees: a tree, one deeper, and those after it.
fn beside(heap: Global, beneath: &[usize], others: &[usize]) -> Result<Shape, AllocError> {
    let mut row = Vec::new(heap);
    row.push(0)?;
    for depth in beneath {
        row.push(depth.saturating_add(1))?;
    }
    row.extend_from_slice(others)?;
    Ok(row)
}

// Every row of trees with so many frames in all.
fn rows(heap: Global, frames: usize) -> Result<Vec<Shape>, AllocError> {
    let mut all = Vec::new(heap);
    if frames == 0 {
        all.push(Vec::new(heap))?;
        return Ok(all);
    }
    for first in 1..=frames {
        let all_beneath = rows(heap, first - 1)?;
        let all_others = rows(heap, frames - first)?;
        for beneath in &all_beneath {
            for others in &all_others {
                all.push(beside(heap, beneath.as_slice(), others.as_slice())?)?;
            }
        }
    }
    Ok(all)
}

// Every tree of so many frames, at least one.
pub fn shapes(heap: Global, frames: usize) -> Result<Vec<Shape>, AllocError> {
    let mut all = Vec::new(heap);
    for beneath in &rows(heap, frames.saturating_sub(1))? {
        all.push(beside(heap, beneath.as_slice(), &[])?)?;
    }
    Ok(all)
}

// A tree of frames one beneath the other.
pub fn deepest(heap: Global, frames: usize) -> Result<Shape, AllocError> {
    (0..frames).collect(heap)
}
