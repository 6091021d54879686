//! A file of the system as a disk.
ghost use Rattle.std.specs.Prelude.{◌≡◌, ◌≤◌, ◌↔◌, [], IsErr, IsTrue, IfOk, OnErr, OnOk, false};
ghost use Rattle.std.specs.Io.{ReadsAtMost};
ghost use Rattle.kb_base.specs.Faults.{HasCause, next_count};

use kb_base::{Failed, FaultCount};
use kb_disk::Disk;
use std::fs::File;
use std::io;
use std::io::ErrorKind;
use std::marker::Model;
use std::os::unix::fs::FileExt;

/// A file, open for reading and writing, seen as its count of failed calls. Nobody else writes it. Of what it
/// holds nothing is told.
#[derive(Drop)]
pub struct FileDisk {
    file: File,
    faults: FaultCount,
}

impl Model for FileDisk {
    ghost use Rattle.std.specs.Prelude.{ℕ};

    ghost Value = { ℕ };

    ghost view = { λ disk. disk.faults };
}

impl FileDisk {
    /// A disk of this file, of which no call has failed.
    pub fn new(file: File) -> FileDisk
        ensures { result ≡ 0 }
    {
        let faults = FaultCount::new();
        FileDisk { file, faults }
    }

    /// What a call answered, counted if it failed.
    fn counted<T>(&mut self, answer: io::Result<T>) -> Result<T, Failed>
        ensures same { IfOk result (λ value. answer ≡ Ok value) }
        ensures fails { IsErr result ↔ IsErr answer }
        ensures cause { HasCause self.old self.new result }
        ensures calm { OnOk result (self.new ≡ self.old) }
        ensures rising { self.old ≤ self.new }
        ensures err { OnErr result (self.new ≡ next_count self.old) }
    {
        match answer {
            Ok(value) => Ok(value),
            Err(_) => Err(self.faults.fail()),
        }
    }
}

impl Disk for FileDisk {
    ghost told = { record {
      honest = λ _. false;
      seen = λ _. [];
      images = λ _ _. IsTrue false;
      moment = λ _. 0;
      left_since = λ _ _ _. IsTrue false;
      fault_count = λ disk. disk;
    } };

    fn size(&mut self) -> Result<u64, Failed>
        ensures cause { HasCause self.old self.new result }
        ensures calm { OnOk result (self.new ≡ self.old) }
        ensures rising { self.old ≤ self.new }
        ensures err { OnErr result (self.new ≡ next_count self.old) }
    {
        let answer = size_of(&self.file);
        self.counted(answer)
    }

    fn read(&mut self, at: u64, buf: &mut [u8]) -> Result<usize, Failed>
        ensures count { ReadsAtMost result buf.new }
        ensures cause { HasCause self.old self.new result }
        ensures calm { OnOk result (self.new ≡ self.old) }
        ensures rising { self.old ≤ self.new }
        ensures err { OnErr result (self.new ≡ next_count self.old) }
    {
        let answer = read_fully_at(&self.file, at, buf);
        self.counted(answer)
    }

    fn write_at(&mut self, at: u64, bytes: &[u8]) -> Result<(), Failed>
        ensures cause { HasCause self.old self.new result }
        ensures calm { OnOk result (self.new ≡ self.old) }
        ensures rising { self.old ≤ self.new }
        ensures err { OnErr result (self.new ≡ next_count self.old) }
    {
        let answer = self.file.write_all_at(bytes, at);
        self.counted(answer)
    }

    fn cut(&mut self, size: u64) -> Result<(), Failed>
        ensures cause { HasCause self.old self.new result }
        ensures calm { OnOk result (self.new ≡ self.old) }
        ensures rising { self.old ≤ self.new }
        ensures err { OnErr result (self.new ≡ next_count self.old) }
    {
        let answer = self.file.set_len(size);
        self.counted(answer)
    }

    fn sync(&mut self) -> Result<(), Failed>
        ensures cause { HasCause self.old self.new result }
        ensures calm { OnOk result (self.new ≡ self.old) }
        ensures rising { self.old ≤ self.new }
        ensures err { OnErr result (self.new ≡ next_count self.old) }
    {
        let answer = self.file.sync_all();
        self.counted(answer)
    }

    fn faults(&self) -> u64 {
        self.faults.number()
    }

    ghost seen_is_image = { λ _ honest. honest };

    ghost counts_now = { λ _ _ _ _ image. image };

    ghost only_now = { λ _ _ image. image };
}

/// The number of bytes of a file.
fn size_of(file: &File) -> io::Result<u64> {
    Ok(file.metadata()?.len())
}

/// Reads until the buffer is full or the file ends, and says how many bytes came. A read that a signal
/// interrupts is made again.
fn read_fully_at<F: FileExt>(file: &F, at: u64, buf: &mut [u8]) -> io::Result<usize>
    ensures { ReadsAtMost result buf.new }
{
    let mut filled = 0;
    for _ in 0..u64::MAX {
        if filled == buf.len() {
            return Ok(filled);
        }
        match file.read_at(&mut buf[filled..], at.saturating_add(filled as u64)) {
            Ok(0) => return Ok(filled),
            Ok(count) => filled += count,
            Err(error) if error.kind() == ErrorKind::Interrupted => {}
            Err(error) => return Err(error),
        }
    }
    Err(ErrorKind::Interrupted.into())
}

#[cfg(test)]
mod tests {
    use super::*;
    use std::cell::Cell;
    use std::test::Fail;

    // Five bytes. It is interrupted so many times, and then it gives one byte a call, or fails.
    #[derive(Drop)]
    struct Interrupted {
        times: Cell<u32>,
        fails: bool,
    }

    impl FileExt for Interrupted {
        fn read_at(&self, buf: &mut [u8], offset: u64) -> io::Result<usize> {
            let times = self.times.get();
            if times > 0 {
                self.times.set(times - 1);
                return Err(ErrorKind::Interrupted.into());
            }
            if self.fails {
                return Err(ErrorKind::IsADirectory.into());
            }
            if buf.is_empty() || offset >= 5 {
                return Ok(0);
            }
            buf[0] = offset as u8;
            Ok(1)
        }

        fn write_at(&self, _buf: &[u8], _offset: u64) -> io::Result<usize> {
            Err(ErrorKind::Unsupported.into())
        }
    }

    #[test]
    fn a_read_goes_on_to_the_end(rt: HostRuntime) -> Result<(), Fail> {
        // how many signals come, where it begins, the buffer's size, and what it then has
        let cases: [(u32, u64, usize, &[u8]); 5] = [
            (0, 0, 5, &[0, 1, 2, 3, 4]),
            (3, 0, 3, &[0, 1, 2]),
            (3, 1, 9, &[1, 2, 3, 4]),
            (3, 5, 9, &[]),
            (3, 0, 0, &[]),
        ];
        for (times, at, room, bytes) in cases {
            let file = Interrupted {
                times: Cell::new(times),
                fails: false,
            };
            let mut buf = [9; 9];
            let count = read_fully_at(&file, at, &mut buf[..room])?;
            assert_eq!(rt; &buf[..count], bytes, "{room} from {at}");
        }
        Ok(())
    }

    #[test]
    fn a_failed_read_is_no_end(rt: HostRuntime) {
        let file = Interrupted {
            times: Cell::new(3),
            fails: true,
        };
        assert!(rt; read_fully_at(&file, 0, &mut [0; 4]).is_err());
    }
}
