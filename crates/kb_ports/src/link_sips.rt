//! A link that moves few bytes a call.

use crate::link::Link;
use crate::sips::Sips;
use kb_base::Failed;

impl<L: Link> Link for Sips<L> {
    ghost left = { λ sips. L.left sips.inner };

    ghost written = { λ sips. L.written sips.inner };

    ghost input_faults = { λ sips. L.input_faults sips.inner };

    ghost output_faults = { λ sips. L.output_faults sips.inner };

    fn read(&mut self, buf: &mut [u8]) -> Result<usize, Failed> {
        let room = buf.len().min(self.most);
        self.inner.read(&mut buf[..room])
    }

    fn write(&mut self, bytes: &[u8]) -> Result<usize, Failed> {
        self.inner.write(&bytes[..bytes.len().min(self.most)])
    }
}
