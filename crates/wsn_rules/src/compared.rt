use crate::verdict::Verdict;

/// The result of comparing two streams.
#[derive(Clone, Copy, Debug, PartialEq, Eq)]
pub enum Compared {
    /// Both are accepted and mean the same.
    Equal,
    /// Both are accepted, and their events first differ at this index, from 0: the events there are different, or one
    /// stream has no more events.
    Different(u64),
    /// A stream isn't accepted: the first one, or the second if the first is.
    NotAccepted { second: bool, verdict: Verdict },
}
