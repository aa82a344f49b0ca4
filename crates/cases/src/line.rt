use crate::statement::Statement;

// A line of a file of cases.
#[derive(Drop)]
pub enum Line {
    // what stands behind the `#`
    Comment(Vec<u8>),
    // the name of the case
    Case(Vec<u8>),
    Statement(Statement),
}
