use std::io::Read;
use wsn_io::Input;

/// The two streams of a comparison.
#[derive(Drop)]
pub struct ComparedStreams<'f, 's, R: Read, S: Read> {
    /// The input with the first stream.
    pub first: Input<'f, R>,
    /// The input with the second stream.
    pub second: Input<'s, S>,
}
