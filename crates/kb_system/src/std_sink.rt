//! The process's standard output as a sink.
ghost use Rattle.std.specs.Prelude.{◌≡◌, ◌≤◌, ◌<◌, length, None, IfOk, OnErr, OnOk};
ghost use Rattle.std.specs.Io.{WritesAtMost};
ghost use Rattle.std.specs.Io.KnownBytes.{WriteAppends};
ghost use Rattle.kb_base.specs.Faults.{HasCause, next_count};

use kb_base::{Failed, FaultCount};
use kb_ports::Sink;
use std::io::{ErrorKind, Stdout, Write};
use std::marker::Model;

/// The standard output, seen as its count of failed calls. What a call takes has gone to the system
/// when the call returns, so there is nothing to flush. Where nobody reads any more, the call fails.
#[derive(Debug, Drop)]
pub struct StdSink {
    stdout: Stdout,
    faults: FaultCount,
}

impl Model for StdSink {
    ghost use Rattle.std.specs.Prelude.{ℕ};

    ghost Value = { ℕ };

    ghost view = { λ sink. sink.faults };
}

impl StdSink {
    /// The standard output, of which no call has failed.
    pub fn new(stdout: Stdout) -> StdSink
        ensures { result ≡ 0 }
    {
        StdSink {
            stdout,
            faults: FaultCount::new(),
        }
    }
}

impl Sink for StdSink {
    ghost written = { λ _. None };

    ghost faults = { λ sink. sink };

    /// Writes as many bytes as the system takes in one call. It fails where the system takes none.
    fn write(&mut self, bytes: &[u8]) -> Result<usize, Failed>
        ensures bytes { WriteAppends None None result bytes.now }
        ensures count { WritesAtMost result bytes.now }
        ensures some { 0 < length bytes.now → IfOk result (λ count. 0 < count) }
        ensures cause { HasCause self.old self.new result }
        ensures calm { OnOk result (self.new ≡ self.old) }
        ensures rising { self.old ≤ self.new }
        ensures err { OnErr result (self.new ≡ next_count self.old) }
    {
        let answer = write_retrying(&mut self.stdout, bytes);
        if answer.is_err() {
            return Err(self.faults.fail());
        }
        answer
    }
}

/// One write, made again where a signal interrupts it.
fn write_retrying<W: Write>(writer: &mut W, bytes: &[u8]) -> Result<usize, Failed>
    ensures bytes { WriteAppends (W.contents writer.old) (W.contents writer.new) result bytes.now }
    ensures count { WritesAtMost result bytes.now }
    ensures some { 0 < length bytes.now → IfOk result (λ count. 0 < count) }
{
    for _ in 0..u64::MAX {
        match writer.write(bytes) {
            Ok(0) if !bytes.is_empty() => return Err(Failed),
            Ok(count) => return Ok(count),
            Err(error) if error.kind() == ErrorKind::Interrupted => {}
            Err(_) => return Err(Failed),
        }
    }
    Err(Failed)
}

#[cfg(test)]
mod tests {
    use super::*;
    use std::io;
    use std::test::Fail;

    // Interrupted so many times, and then it takes two bytes a call, none, or fails.
    #[derive(Drop)]
    struct Interrupted {
        times: u32,
        most: Option<usize>,
    }

    impl Write for Interrupted {
        fn write(&mut self, buf: &[u8]) -> io::Result<usize> {
            if self.times > 0 {
                self.times -= 1;
                return Err(ErrorKind::Interrupted.into());
            }
            match self.most {
                Some(most) => Ok(buf.len().min(most)),
                None => Err(ErrorKind::BrokenPipe.into()),
            }
        }

        fn flush(&mut self) -> io::Result<()> {
            Ok(())
        }
    }

    fn write_to<S: Sink>(sink: &mut S, bytes: &[u8]) -> Result<usize, Failed> {
        sink.write(bytes)
    }

    #[test]
    fn no_bytes_are_written_at_once(rt: HostRuntime) -> Result<(), Fail> {
        let mut sink = StdSink::new(rt.stdout());
        assert_eq!(rt; write_to(&mut sink, b"")?, 0);
        assert_eq!(rt; sink.faults.number(), 0);
        Ok(())
    }

    #[test]
    fn a_signal_fails_no_write(rt: HostRuntime) {
        // how many signals come, how much a call then takes, what is written, and the answer
        let cases = [
            (0, Some(2), "hello", Ok(2)),
            (3, Some(9), "hello", Ok(5)),
            (3, Some(9), "", Ok(0)),
            (0, Some(0), "hello", Err(Failed)),
            (3, None, "hello", Err(Failed)),
        ];
        for (times, most, text, answer) in cases {
            let mut writer = Interrupted { times, most };
            assert_eq!(rt;
                write_retrying(&mut writer, text.as_bytes()),
                answer,
                "{times} {text}"
            );
        }
    }
}
