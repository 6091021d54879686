//! The process's standard input as a source.
ghost use Rattle.std.specs.Prelude.{◌≡◌, ◌≤◌, None, OnErr, OnOk};
ghost use Rattle.std.specs.Io.{ReadsAtMost};
ghost use Rattle.std.specs.Io.KnownBytes.{ReadConsumes};
ghost use Rattle.kb_base.specs.Faults.{HasCause, next_count};

use kb_base::{Failed, FaultCount};
use kb_ports::Source;
use std::io::{ErrorKind, Read, Stdin};
use std::marker::Model;

/// The standard input, seen as its count of failed calls. It reads nothing ahead.
#[derive(Debug, Drop)]
pub struct StdSource {
    stdin: Stdin,
    faults: FaultCount,
}

impl Model for StdSource {
    ghost use Rattle.std.specs.Prelude.{ℕ};

    ghost Value = { ℕ };

    ghost view = { λ source. source.faults };
}

impl StdSource {
    /// The standard input, of which no call has failed.
    pub fn new(stdin: Stdin) -> StdSource
        ensures { result ≡ 0 }
    {
        let faults = FaultCount::new();
        StdSource { stdin, faults }
    }
}

impl Source for StdSource {
    ghost left = { λ _. None };

    ghost faults = { λ source. source };

    /// Reads as many bytes as the system hands over in one call.
    fn read(&mut self, buf: &mut [u8]) -> Result<usize, Failed>
        ensures bytes { ReadConsumes None None result buf.new }
        ensures count { ReadsAtMost result buf.new }
        ensures cause { HasCause self.old self.new result }
        ensures calm { OnOk result (self.new ≡ self.old) }
        ensures rising { self.old ≤ self.new }
        ensures err { OnErr result (self.new ≡ next_count self.old) }
    {
        let answer = read_retrying(&mut self.stdin, buf);
        if answer.is_err() {
            return Err(self.faults.fail());
        }
        answer
    }
}

/// One read, made again where a signal interrupts it.
fn read_retrying<R: Read>(reader: &mut R, buf: &mut [u8]) -> Result<usize, Failed>
    ensures bytes { ReadConsumes (R.remaining reader.old) (R.remaining reader.new) result buf.new }
    ensures count { ReadsAtMost result buf.new }
{
    for _ in 0..u64::MAX {
        match reader.read(buf) {
            Ok(count) => return Ok(count),
            Err(error) if error.kind() == ErrorKind::Interrupted => {}
            Err(_) => return Err(Failed),
        }
    }
    Err(Failed)
}

#[cfg(test)]
mod tests {
    use super::*;
    use std::io;
    use std::test::Fail;

    // Interrupted so many times, and then it gives one byte, or fails.
    #[derive(Drop)]
    struct Interrupted {
        times: u32,
        fails: bool,
    }

    impl Read for Interrupted {
        fn read(&mut self, buf: &mut [u8]) -> io::Result<usize> {
            if self.times > 0 {
                self.times -= 1;
                return Err(ErrorKind::Interrupted.into());
            }
            if self.fails {
                return Err(ErrorKind::IsADirectory.into());
            }
            Ok(buf.len().min(1))
        }
    }

    fn read_from<S: Source>(source: &mut S, buf: &mut [u8]) -> Result<usize, Failed> {
        source.read(buf)
    }

    #[test]
    fn no_room_takes_no_byte(rt: HostRuntime) -> Result<(), Fail> {
        let mut source = StdSource::new(rt.stdin());
        assert_eq!(rt; read_from(&mut source, &mut [])?, 0);
        assert_eq!(rt; source.faults.number(), 0);
        Ok(())
    }

    #[test]
    fn a_signal_fails_no_read(rt: HostRuntime) {
        // how many signals come, whether the read then fails, and the answer
        let cases = [
            (0, false, Ok(1)),
            (3, false, Ok(1)),
            (0, true, Err(Failed)),
            (3, true, Err(Failed)),
        ];
        for (times, fails, answer) in cases {
            let mut reader = Interrupted { times, fails };
            assert_eq!(rt;
                read_retrying(&mut reader, &mut [0; 4]),
                answer,
                "{times} signals"
            );
        }
    }
}
