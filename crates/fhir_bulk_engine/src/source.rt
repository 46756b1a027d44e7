//! What a file or standard input gives.

use std::io;
use std::io::Read;

/// A file, or standard input. What it will give isn't known.
#[derive(Drop)]
pub enum Source<F, S> {
    /// A file.
    File(F),
    /// Standard input.
    Standard(S),
}

impl<F: Read, S: Read> Read for Source<F, S> {
    fn read(&mut self, buf: &mut [u8]) -> io::Result<usize> {
        match self {
            Source::File(file) => file.read(buf),
            Source::Standard(input) => input.read(buf),
        }
    }
}
