ghost use Rattle.std.specs.Prelude.{◌≡◌, ◌≤◌, [], drop, OnOk};
ghost use Rattle.arrayvec.specs.ArrayVec.{array_vec_len};
ghost use Rattle.std.specs.Io.KnownBytes.{Keeps, append_known};

use arrayvec::ArrayVec;
use std::io::{self, ErrorKind, Write};

/// The maximum number of bytes that are queued.
pub(crate) const QUEUE: usize = 4_096;

/// Bytes that are to be written, with codes.
pub(crate) type Bytes = ArrayVec<u8, QUEUE>;

/// Bytes that are to be written, of which some are.
#[derive(Drop)]
pub(crate) struct Queue {
    pub bytes: Bytes,
    /// The first `sent` bytes are written.
    pub sent: usize,
    ghost within: { sent ≤ array_vec_len bytes },
}

impl Queue {
    /// No bytes.
    pub fn new() -> Self
        ensures bytes { result.bytes.items ≡ [] }
        ensures sent { result.sent ≡ 0 }
    {
        Queue {
            bytes: Bytes::new(),
            sent: 0,
        }
    }

    /// Writes all bytes that aren't written. An error leaves the rest.
    pub fn write_to<W: Write>(&mut self, writer: &mut W) -> io::Result<()>
        ensures bytes { OnOk result (self.new.bytes.items ≡ []) }
        ensures sent { OnOk result (self.new.sent ≡ 0) }
        ensures text { Keeps (append_known (W.contents writer.old) (drop self.old.sent self.old.bytes.items))
            (append_known (W.contents writer.new) (drop self.new.sent self.new.bytes.items)) }
    {
        while self.sent < self.bytes.len() {
            match writer.write(&self.bytes.as_slice()[self.sent..]) {
                Ok(0) => return Err(ErrorKind::WriteZero.into()),
                Ok(count) => self.sent += count,
                Err(error) => return Err(error),
            }
        }
        self.sent = 0;
        self.bytes.clear();
        Ok(())
    }
}
