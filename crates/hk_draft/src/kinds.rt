//! The kinds of refusals.

/// Why a line of a model is refused. Where a line has faults of several kinds, the first of these
/// is told.
#[derive(Clone, Copy, Debug, PartialEq, Eq)]
pub enum RefusalKind {
    /// A byte is in no token and no comment.
    Text,
    /// The tokens are none of a statement that may stand there.
    Syntax,
    /// A name is declared twice, or not where it is used, a gcc lists a value twice, or the line is a
    /// second `minimize`.
    Name,
    /// A quantity passes its limit, a set has no value, or a range is turned.
    Limit,
    /// The variables of a scope don't stand in the order of their declaration.
    Scope,
    /// The test or the step may move in a sense that isn't allowed where states are merged.
    Grade,
    /// There is no header, or a specification isn't ended.
    Unfinished,
}
