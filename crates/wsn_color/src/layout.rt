/// Which lines are painted.
#[derive(Clone, Copy)]
pub enum Layout {
    /// The lines of `show`, `closing`, `frames` and `judge`: words between spaces.
    Answer,
    /// The lines of `show` for people: words in columns, which are filled with spaces.
    People,
    /// The lines of `closing` over several captures: columns between tabs, the outcome in the second.
    Table,
    /// The paragraphs of `explain` and hints, some of which begin with a name and a colon.
    Explanation,
}
