ghost use Rattle.std.specs.Prelude.{◌≡◌, ◌+◌, ◌<◌, [], IfOk, IfErr, IsOk, OnOk};
ghost use Rattle.std.specs.Io.Buffered.{writer_buffer, writer_capacity, writer_contents, writer_inner};
ghost use Rattle.std.specs.Io.KnownBytes.{Appends, Keeps};
ghost use Rattle.std.specs.IoError.{error_kind};
ghost use Rattle.ov_io.specs.Device.{most_faults, write_faults, write_number, AppendsPrefixOf, HoldsPrefixOf};

use crate::counted_reader_and_writer::CountedWriter;
use crate::fault::WriteFault;
use std::alloc::Global;
use std::io::{self, BufWriter, ErrorKind, Write};
use std::marker::Model;

/// A writer, and how often it failed.
#[derive(Drop)]
pub struct Sink<W> {
    writer: CountedWriter<W>,
}

impl<W> Model for Sink<W> {
    ghost use Rattle.ov_io.specs.Device.{SinkState};

    ghost Value = { SinkState W };

    ghost view = { λ s. record { writer = s.writer.writer; faults = s.writer.failures } };
}

impl<W: Write> Sink<W> {
    /// A writer that has not failed yet.
    pub fn new(writer: W) -> Sink<W>
        ensures writer { result.writer ≡ writer }
        ensures faults { result.faults ≡ 0 }
    {
        Sink {
            writer: CountedWriter::new(writer),
        }
    }

    /// How often the writer failed: each write or flush that was answered by an error, an interrupted one too, and each
    /// write that took nothing of what was left.
    pub fn faults(&self) -> u64
        ensures { result ≡ self.now.faults }
    {
        self.writer.failures()
    }

    /// Gives the writer back.
    pub fn into_writer(self) -> W
        ensures { result ≡ self.writer }
    {
        self.writer.into_writer()
    }

    /// Writes all bytes. A write may take fewer than it is given; the rest is then written by further writes.
    ///
    /// `WriteFault` (72): a write failed, was interrupted or took nothing. What the writer took before is a prefix of
    /// these bytes, and nothing is said of how long it is.
    pub fn write_all(&mut self, bytes: &[u8]) -> Result<(), WriteFault>
        requires { self.old.faults < most_faults }
        ensures bytes { OnOk result (Appends (W.contents self.old.writer) (W.contents self.new.writer) bytes.now) }
        ensures prefix { AppendsPrefixOf bytes.now (W.contents self.old.writer) (W.contents self.new.writer) }
        ensures faults { self.new.faults ≡ self.old.faults + write_faults write_number result }
    {
        let mut rest = bytes;
        while !rest.is_empty() {
            let count = self.writer.write(rest)?;
            rest = &rest[count..];
        }
        Ok(())
    }

    /// Has the writer hand on what it took and keeps back, as a writer in blocks does. The bytes that it took stay the
    /// same.
    ///
    /// `WriteFault` (72): the flush failed or was interrupted.
    pub fn flush(&mut self) -> Result<(), WriteFault>
        requires { self.old.faults < most_faults }
        ensures bytes { Keeps (W.contents self.old.writer) (W.contents self.new.writer) }
        ensures faults { self.new.faults ≡ self.old.faults + write_faults write_number result }
    {
        self.writer.flush()
    }
}

impl<W: Write + Drop> Sink<W> {
    /// Puts a buffer of this many bytes in front of the writer, so that it is written in blocks. What the buffer keeps
    /// back at the end, `hand_on` writes.
    ///
    /// An error of kind `OutOfMemory`: there is no memory for the buffer. The writer is then dropped.
    pub fn in_blocks(self, alloc: Global, size: usize) -> io::Result<Sink<BufWriter<W>>>
        ensures inner { IfOk result (λ sink. writer_inner sink.writer ≡ self.writer) }
        ensures empty { IfOk result (λ sink. writer_buffer sink.writer ≡ []) }
        ensures size { IfOk result (λ sink. writer_capacity sink.writer ≡ size) }
        ensures faults { IfOk result (λ sink. sink.faults ≡ self.faults) }
        ensures fault { IfErr result (λ e. error_kind e ≡ ErrorKind.OutOfMemory) }
    {
        let writer = self.writer.in_blocks(alloc, size)?;
        Ok(Sink { writer })
    }
}

impl<W: Write + Drop> Sink<BufWriter<W>> {
    /// Writes what the buffer keeps back, and takes the buffer away. Then the writer itself holds all that was written
    /// through the buffer. If nothing is kept back, the writer is as it was and this can't fail.
    ///
    /// `WriteFault` (72): a write failed or took nothing. What the writer holds is then a prefix of all that was
    /// written through the buffer. The rest is dropped, and no further write is tried.
    pub fn hand_on(self) -> (Sink<W>, Result<(), WriteFault>)
        requires { self.faults < most_faults }
        ensures bytes { OnOk result.1 (Keeps (writer_contents W.contents self.writer) (W.contents result.0.writer)) }
        ensures prefix { HoldsPrefixOf (writer_contents W.contents self.writer) (W.contents result.0.writer) }
        ensures nothing { writer_buffer self.writer ≡ [] → result.0.writer ≡ writer_inner self.writer }
        ensures ok { writer_buffer self.writer ≡ [] → IsOk result.1 }
        ensures faults { result.0.faults ≡ self.faults + write_faults write_number result.1 }
    {
        let (writer, answer) = self.writer.hand_on();
        (Sink { writer }, answer)
    }

    /// Takes the buffer away, and writes nothing of what it keeps back: for a writer that has failed.
    pub fn give_up(self) -> Sink<W>
        ensures writer { result.writer ≡ writer_inner self.writer }
        ensures faults { result.faults ≡ self.faults }
    {
        Sink {
            writer: self.writer.give_up(),
        }
    }
}
