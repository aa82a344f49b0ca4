// A line of a script: what it does with the reports of a basket. An error is given by its number.
#[derive(Clone, Copy, Debug, PartialEq, Eq)]
pub enum Line {
    // a new report goes to the basket's end
    New(u16),
    // a new root over the first report, which then goes to the end
    Raise(u16),
    // a new root over all reports
    All(u16),
    // the second report becomes the last child of the first's root, and the first goes to the end
    Chain,
    // the children of the first report's root go to the end, in order, and then the report
    Drain,
    // the first report is discarded
    Drop,
}
