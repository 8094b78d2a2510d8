//! Readers and writers of the standard library as a source and a sink, and so the standard input and output of the
//! process. Those two tell nothing of their bytes; what is proved of any reader and writer that tells them holds of these.

ghost use Rattle.std.specs.Prelude.{◌≡◌, ◌≤◌, ◌<◌, length, take, IfOk, OnErr};
ghost use Rattle.std.specs.Io.KnownBytes.{Consumes, Appends, Keeps, IsAtEnd};
ghost use Rattle.cj_io.specs.Faults.{Counts};

use crate::streams::{Failed, Sink, Source};
use std::io::{ErrorKind, Read, Stdin, Stdout, Write};

/// A reader as a source. It tells the bytes that the reader tells.
#[derive(Debug, Drop)]
pub struct ReaderSource<R> {
    reader: R,
    faults: u64,
}

/// The standard input.
pub type StdSource = ReaderSource<Stdin>;

impl<R: Read> ReaderSource<R> {
    pub fn new(reader: R) -> ReaderSource<R>
        ensures left { ⟦<ReaderSource<R> as Source>⟧.left result ≡ R.remaining reader }
        ensures faults { ⟦<ReaderSource<R> as Source>⟧.faults result ≡ 0 }
    {
        ReaderSource { reader, faults: 0 }
    }
}

impl<R: Read> Source for ReaderSource<R> {
    ghost left = { λ s. R.remaining s.reader };

    ghost faults = { λ s. s.faults };

    fn read(&mut self, buf: &mut [u8]) -> Result<usize, Failed> {
        let answer = read_some(&mut self.reader, buf);
        self.faults = counted(self.faults, answer);
        answer
    }
}

/// A writer as a sink. It tells the bytes that the writer tells.
#[derive(Debug, Drop)]
pub struct WriterSink<W> {
    writer: W,
    faults: u64,
}

/// The standard output.
pub type StdSink = WriterSink<Stdout>;

impl<W: Write> WriterSink<W> {
    pub fn new(writer: W) -> WriterSink<W>
        ensures written { ⟦<WriterSink<W> as Sink>⟧.written result ≡ W.contents writer }
        ensures faults { ⟦<WriterSink<W> as Sink>⟧.faults result ≡ 0 }
    {
        WriterSink { writer, faults: 0 }
    }
}

impl<W: Write> Sink for WriterSink<W> {
    ghost written = { λ s. W.contents s.writer };

    ghost faults = { λ s. s.faults };

    fn write(&mut self, bytes: &[u8]) -> Result<usize, Failed> {
        let answer = write_some(&mut self.writer, bytes);
        self.faults = counted(self.faults, answer);
        answer
    }

    fn flush(&mut self) -> Result<(), Failed> {
        let answer = match self.writer.flush() {
            Ok(()) => Ok(()),
            Err(_) => Err(Failed),
        };
        self.faults = counted(self.faults, answer);
        answer
    }
}

// The count of faults after a call with that answer.
fn counted<T: Drop>(faults: u64, answer: Result<T, Failed>) -> u64
    ensures { Counts faults result answer }
{
    match answer {
        Ok(_) => faults,
        Err(Failed) => faults.saturating_add(1),
    }
}

// One read, which is made again where a signal interrupts it.
fn read_some<R: Read>(reader: &mut R, buf: &mut [u8]) -> Result<usize, Failed>
    ensures bound { IfOk result (λ count. count ≤ length buf.new) }
    ensures bytes { IfOk result (λ count. Consumes (R.remaining reader.old) (R.remaining reader.new) (take count buf.new)) }
    ensures end { IfOk result (λ count. count ≡ 0 → 0 < length buf.new → IsAtEnd (R.remaining reader.new)) }
    ensures kept { OnErr result (Keeps (R.remaining reader.old) (R.remaining reader.new)) }
{
    for _ in 0..u64::MAX {
        match reader.read(buf) {
            Ok(count) => return Ok(count),
            Err(error) if error.kind() == ErrorKind::Interrupted => {}
            Err(_) => return Err(Failed),
        }
    }
    Err(Failed)
}

// One write, which is made again where a signal interrupts it. A writer that takes nothing has failed.
fn write_some<W: Write>(writer: &mut W, bytes: &[u8]) -> Result<usize, Failed>
    ensures some { IfOk result (λ count. 0 < count) }
    ensures bound { IfOk result (λ count. count ≤ length bytes.now) }
    ensures bytes { IfOk result (λ count. Appends (W.contents writer.old) (W.contents writer.new) (take count bytes.now)) }
    ensures kept { OnErr result (Keeps (W.contents writer.old) (W.contents writer.new)) }
{
    for _ in 0..u64::MAX {
        match writer.write(bytes) {
            Ok(0) => return Err(Failed),
            Ok(count) => return Ok(count),
            Err(error) if error.kind() == ErrorKind::Interrupted => {}
            Err(_) => return Err(Failed),
        }
    }
    Err(Failed)
}

#[cfg(test)]
mod tests {
    use super::*;
    use std::io;
    use std::test::Fail;

    // A device that signals interrupt, and that then moves so many bytes or fails.
    #[derive(Drop)]
    struct Device {
        interrupts: u32,
        moves: Option<usize>,
        flushes: bool,
    }

    impl Device {
        fn answer(&mut self, room: usize) -> io::Result<usize>
            ensures { IfOk result (λ count. count ≤ room) }
        {
            if self.interrupts > 0 {
                self.interrupts -= 1;
                return Err(io::Error::from(ErrorKind::Interrupted));
            }
            match self.moves {
                Some(count) => Ok(count.min(room)),
                None => Err(io::Error::from(ErrorKind::BrokenPipe)),
            }
        }
    }

    impl Read for Device {
        fn read(&mut self, buf: &mut [u8]) -> io::Result<usize> {
            self.answer(buf.len())
        }
    }

    impl Write for Device {
        fn write(&mut self, bytes: &[u8]) -> io::Result<usize> {
            self.answer(bytes.len())
        }

        fn flush(&mut self) -> io::Result<()> {
            if self.flushes {
                Ok(())
            } else {
                Err(io::Error::from(ErrorKind::BrokenPipe))
            }
        }
    }

    #[test]
    fn interrupted_calls_are_made_again_and_other_errors_are_failures(rt: HostRuntime) {
        for (interrupts, moves, flushes, reads, writes) in [
            (0, Some(2), true, Ok(2), Ok(2)),
            (3, Some(9), true, Ok(4), Ok(4)),
            (3, None, true, Err(Failed), Err(Failed)),
            (0, Some(0), true, Ok(0), Err(Failed)),
            (0, Some(2), false, Ok(2), Ok(2)),
        ] {
            let device = Device {
                interrupts,
                moves,
                flushes,
            };
            let mut source = ReaderSource::new(device);
            assert_eq!(rt; source.read(&mut [0; 4]), reads);
            let device = Device {
                interrupts,
                moves,
                flushes,
            };
            let mut sink = WriterSink::new(device);
            assert_eq!(rt; sink.write(&[1, 2, 3, 4]), writes);
            assert_eq!(rt; sink.flush().is_ok(), flushes);
        }
    }

    #[test]
    fn the_standard_streams_answer(rt: HostRuntime) -> Result<(), Fail> {
        let mut source = StdSource::new(rt.stdin());
        assert_eq!(rt; source.read(&mut [])?, 0);
        let mut sink = StdSink::new(rt.stdout());
        assert!(rt; sink.write("written\n".as_bytes())? > 0);
        sink.flush()?;
        Ok(())
    }
}
