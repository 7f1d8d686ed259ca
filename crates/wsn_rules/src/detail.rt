/// What is shown of a stream's frames.
#[derive(Clone, Copy, Debug, PartialEq, Eq)]
pub enum Detail {
    /// An entry for each event.
    Events,
    /// A line for each frame's head.
    Frames,
}
