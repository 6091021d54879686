//! A source or a sink that moves few bytes a call.
ghost use Rattle.std.specs.Prelude.{◌≤◌};

use crate::sink::Sink;
use crate::source::Source;
use kb_base::Failed;

/// A source or a sink of which a call moves at most so many bytes.
#[derive(Drop)]
pub struct Sips<T> {
    pub inner: T,
    pub most: usize,
    ghost some: { 1 ≤ most },
}

impl<T: Source> Source for Sips<T> {
    ghost left = { λ sips. T.left sips.inner };

    ghost faults = { λ sips. T.faults sips.inner };

    fn read(&mut self, buf: &mut [u8]) -> Result<usize, Failed> {
        let room = buf.len().min(self.most);
        self.inner.read(&mut buf[..room])
    }
}

impl<T: Sink> Sink for Sips<T> {
    ghost written = { λ sips. T.written sips.inner };

    ghost faults = { λ sips. T.faults sips.inner };

    fn write(&mut self, bytes: &[u8]) -> Result<usize, Failed> {
        self.inner.write(&bytes[..bytes.len().min(self.most)])
    }
}
