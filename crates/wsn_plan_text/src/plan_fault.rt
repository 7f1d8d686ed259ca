use thiserror::Error;

/// What is wrong with a line of plan text. Of several faults, the first in this order is reported.
#[derive(Clone, Copy, Debug, PartialEq, Eq, Error)]
pub enum LineWhy {
    /// The first word is unknown, a field is empty, or there are too few or too many fields.
    #[error("bad-form")]
    BadForm,
    /// The piece's length isn't a decimal number without leading zeros, or doesn't fit 64 bits.
    #[error("bad-number")]
    BadNumber,
    /// The key is neither a dash nor eight hexadecimal digits.
    #[error("bad-key")]
    BadKey,
    /// The field after the key is neither `two` nor `eight`.
    #[error("bad-length")]
    BadLength,
}

/// Why plan text gives no plan.
#[derive(Clone, Copy, Debug, PartialEq, Eq, Error)]
pub enum PlanFault {
    /// An allocation failed.
    #[error("out of memory")]
    Memory,
    /// The first line that encodes no step, numbered from 1, and its first fault.
    #[error("plan line {number}: {why}")]
    Line { number: u64, why: LineWhy },
}
