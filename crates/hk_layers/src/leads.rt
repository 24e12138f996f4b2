//! Where values lead from the rows of a layer, on the way down.

/// Where a value leads from a row: nowhere, since no path has it or it was taken away; nowhere, since
/// its test fails whatever comes after it; or to a row of the next layer.
#[derive(Clone, Copy, Debug, PartialEq, Eq)]
pub enum Lead {
    Gone,
    Cut,
    To(u16),
}
