//! Readers with short reads, readers that fail, and readers without an end.

use std::io::{self, Error, ErrorKind, Read};

/// The maximum sizes of reads that tests try.
pub const READS: [usize; 7] = [1, 2, 3, 4_095, 4_096, 4_097, usize::MAX];

/// A reader that returns at most `at_most` bytes per call, and then its end. It may fail at one call.
#[derive(Drop)]
pub struct Chopped<'a> {
    rest: &'a [u8],
    at_most: usize,
    /// It fails once this number of bytes is left, with this kind of error.
    fails: Option<(usize, ErrorKind)>,
}

impl<'a> Chopped<'a> {
    /// A reader that never fails.
    pub fn new(bytes: &'a [u8], at_most: usize) -> Self {
        Chopped {
            rest: bytes,
            at_most,
            fails: None,
        }
    }

    /// A reader that fails after its last byte, and only then has its end.
    pub fn breaking(bytes: &'a [u8], at_most: usize) -> Self {
        Chopped::stumbling(bytes, at_most, 0, ErrorKind::Other)
    }

    /// A reader that fails once `left` bytes are left, and then returns these.
    pub fn stumbling(bytes: &'a [u8], at_most: usize, left: usize, kind: ErrorKind) -> Self {
        Chopped {
            rest: bytes,
            at_most,
            fails: Some((left, kind)),
        }
    }

    /// The number of bytes that are not read yet.
    pub fn left(&self) -> usize {
        self.rest.len()
    }
}

impl Read for Chopped<'_> {
    fn read(&mut self, buf: &mut [u8]) -> io::Result<usize> {
        let mut at_most = self.at_most;
        if let Some((left, kind)) = self.fails {
            if self.rest.len() <= left {
                self.fails = None;
                return Err(Error::from(kind));
            }
            at_most = at_most.min(self.rest.len() - left);
        }
        let count = at_most.min(buf.len()).min(self.rest.len());
        buf[..count].copy_from_slice(&self.rest[..count]);
        self.rest = &self.rest[count..];
        Ok(count)
    }
}

/// A reader that returns some bytes and then others, repeated without end. It fills each buffer.
#[derive(Drop)]
pub struct Endless {
    rest: &'static [u8],
    again: &'static [u8],
    /// The number of bytes that were read.
    pub given: usize,
}

impl Endless {
    /// A reader of the first bytes and then of the others, repeated.
    pub fn new(first: &'static [u8], again: &'static [u8]) -> Self {
        Endless {
            rest: first,
            again,
            given: 0,
        }
    }
}

impl Read for Endless {
    fn read(&mut self, buf: &mut [u8]) -> io::Result<usize> {
        for byte in buf.iter_mut() {
            if self.rest.is_empty() {
                self.rest = self.again;
            }
            if let Some((next, rest)) = self.rest.split_first() {
                *byte = *next;
                self.rest = rest;
            }
        }
        self.given = self.given.saturating_add(buf.len());
        Ok(buf.len())
    }
}
