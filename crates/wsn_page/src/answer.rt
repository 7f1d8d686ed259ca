/// What a call answers.
#[repr(C)]
#[derive(Clone, Copy)]
pub struct Answer {
    /// The size in bytes of what is shown or written. If it is over the size of the caller's room, only the front of it is
    /// there.
    pub output: usize,
    /// The size in bytes of the message that the program would print on standard error; 0 without one.
    pub message: usize,
    /// The exit status: 0, 1 or 2, as `wsn help show` and `wsn help redact` have them.
    pub status: u8,
}
