// The fields are private to this file. So what is counted is what a reader or a writer answered, and nothing else.
ghost use Rattle.std.specs.Prelude.{◌≡◌, ◌+◌, ◌<◌, [], min, length, IfOk, IfErr, IsOk, OnOk};
ghost use Rattle.std.specs.Io.{ReadsAtMost, WritesAtMost};
ghost use Rattle.std.specs.Io.Buffered.{writer_buffer, writer_capacity, writer_contents, writer_inner};
ghost use Rattle.std.specs.Io.KnownBytes.{Keeps, ReadConsumes, WriteAppends};
ghost use Rattle.std.specs.IoError.{error_kind};
ghost use Rattle.ov_io.specs.Device.{most_faults, most_counted, read_faults, read_number};
ghost use Rattle.ov_io.specs.Device.{write_faults, write_number, HoldsPrefixOf};
ghost use Rattle.ov_io.specs.Code.Reads.{end_answers};

use crate::fault::{ReadFault, WriteFault};
use std::alloc::Global;
use std::io::{self, BufWriter, ErrorKind, Read, Write};

/// A reader, how many reads it answered, how many of these answers were errors, and how many were no byte, which is the
/// end.
#[derive(Drop)]
pub(crate) struct CountedReader<R> {
    reader: R,
    reads: u64,
    failures: u64,
    ends: u64,
}

impl<R: Read> CountedReader<R> {
    /// A reader of which nothing is counted yet.
    pub(crate) fn new(reader: R) -> CountedReader<R>
        ensures reader { result.reader ≡ reader }
        ensures reads { result.reads ≡ 0 }
        ensures failures { result.failures ≡ 0 }
        ensures ends { result.ends ≡ 0 }
    {
        CountedReader {
            reader,
            reads: 0,
            failures: 0,
            ends: 0,
        }
    }

    /// How many reads failed.
    pub(crate) fn failures(&self) -> u64
        ensures { result ≡ self.now.failures }
    {
        self.failures
    }

    /// Reads once into a buffer with room, and counts the answer. The counts of reads and of ends stop at 2^64 - 1.
    pub(crate) fn read(&mut self, buffer: &mut [u8]) -> Result<usize, ReadFault>
        requires failures { self.old.failures < most_faults }
        requires room { 0 < length buffer.old }
        ensures bound { ReadsAtMost result buffer.new }
        ensures bytes { ReadConsumes (R.remaining self.old.reader) (R.remaining self.new.reader) result buffer.new }
        ensures reads { self.new.reads ≡ min (self.old.reads + 1) most_counted }
        ensures failures { self.new.failures ≡ self.old.failures + read_faults read_number result }
        ensures ends { self.new.ends ≡ min (self.old.ends + end_answers result) most_counted }
    {
        self.reads = self.reads.saturating_add(1);
        match self.reader.read(buffer) {
            Ok(0) => {
                self.ends = self.ends.saturating_add(1);
                Ok(0)
            }
            Ok(count) => Ok(count),
            Err(_) => {
                self.failures += 1;
                Err(ReadFault::Read)
            }
        }
    }
}

/// A writer, and how many of its answers were errors or took nothing, to a flush too.
#[derive(Drop)]
pub(crate) struct CountedWriter<W> {
    writer: W,
    failures: u64,
}

impl<W: Write> CountedWriter<W> {
    /// A writer of which nothing is counted yet.
    pub(crate) fn new(writer: W) -> CountedWriter<W>
        ensures writer { result.writer ≡ writer }
        ensures failures { result.failures ≡ 0 }
    {
        CountedWriter {
            writer,
            failures: 0,
        }
    }

    /// How many writes and flushes failed.
    pub(crate) fn failures(&self) -> u64
        ensures { result ≡ self.now.failures }
    {
        self.failures
    }

    /// Gives the writer back.
    pub(crate) fn into_writer(self) -> W
        ensures { result ≡ self.writer }
    {
        self.writer
    }

    /// Writes once, and counts the answer if it is an error or took nothing.
    pub(crate) fn write(&mut self, bytes: &[u8]) -> Result<usize, WriteFault>
        requires room { self.old.failures < most_faults }
        requires bytes { 0 < length bytes.now }
        ensures bound { WritesAtMost result bytes.now }
        ensures some { IfOk result (λ count. 0 < count) }
        ensures bytes { WriteAppends (W.contents self.old.writer) (W.contents self.new.writer) result bytes.now }
        ensures failures { self.new.failures ≡ self.old.failures + write_faults write_number result }
    {
        match self.writer.write(bytes) {
            Ok(0) | Err(_) => {
                self.failures += 1;
                Err(WriteFault)
            }
            Ok(count) => Ok(count),
        }
    }

    /// Has the writer hand on what it keeps back, and counts the answer if it is an error.
    pub(crate) fn flush(&mut self) -> Result<(), WriteFault>
        requires room { self.old.failures < most_faults }
        ensures bytes { Keeps (W.contents self.old.writer) (W.contents self.new.writer) }
        ensures failures { self.new.failures ≡ self.old.failures + write_faults write_number result }
    {
        match self.writer.flush() {
            Ok(()) => Ok(()),
            Err(_) => {
                self.failures += 1;
                Err(WriteFault)
            }
        }
    }
}

impl<W: Write + Drop> CountedWriter<W> {
    /// The writer with a buffer of this many bytes in front of it. If there is no memory for it, the writer is dropped.
    pub(crate) fn in_blocks(
        self,
        alloc: Global,
        size: usize,
    ) -> io::Result<CountedWriter<BufWriter<W>>>
        ensures inner { IfOk result (λ w. writer_inner w.writer ≡ self.writer) }
        ensures empty { IfOk result (λ w. writer_buffer w.writer ≡ []) }
        ensures size { IfOk result (λ w. writer_capacity w.writer ≡ size) }
        ensures failures { IfOk result (λ w. w.failures ≡ self.failures) }
        ensures fault { IfErr result (λ e. error_kind e ≡ ErrorKind.OutOfMemory) }
    {
        let CountedWriter { writer, failures } = self;
        let writer = BufWriter::with_capacity(alloc, size, writer)?;
        Ok(CountedWriter { writer, failures })
    }
}

impl<W: Write + Drop> CountedWriter<BufWriter<W>> {
    /// Takes the buffer away, and writes nothing of what it keeps back.
    pub(crate) fn give_up(self) -> CountedWriter<W>
        ensures writer { result.writer ≡ writer_inner self.writer }
        ensures failures { result.failures ≡ self.failures }
    {
        let CountedWriter { writer, failures } = self;
        let (writer, _) = writer.into_parts();
        CountedWriter { writer, failures }
    }

    /// Writes what the buffer keeps back, and takes it away. Counts the answer if it is an error.
    pub(crate) fn hand_on(self) -> (CountedWriter<W>, Result<(), WriteFault>)
        requires { self.failures < most_faults }
        ensures bytes { OnOk result.1 (Keeps (writer_contents W.contents self.writer) (W.contents result.0.writer)) }
        ensures prefix { HoldsPrefixOf (writer_contents W.contents self.writer) (W.contents result.0.writer) }
        ensures nothing { writer_buffer self.writer ≡ [] → result.0.writer ≡ writer_inner self.writer }
        ensures ok { writer_buffer self.writer ≡ [] → IsOk result.1 }
        ensures failures { result.0.failures ≡ self.failures + write_faults write_number result.1 }
    {
        if self.writer.buffer().is_empty() {
            return (self.give_up(), Ok(()));
        }
        let CountedWriter { writer, failures } = self;
        match writer.into_inner() {
            Ok(writer) => (CountedWriter { writer, failures }, Ok(())),
            Err(error) => {
                let (_, writer) = error.into_parts();
                let (writer, _) = writer.into_parts();
                let failures = failures + 1;
                (CountedWriter { writer, failures }, Err(WriteFault))
            }
        }
    }
}
