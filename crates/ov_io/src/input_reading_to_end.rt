ghost use Rattle.std.specs.Prelude.{◌≡◌, ◌≢◌, ◌+◌, ◌<◌, Err, IfOk, OnOk, IfSome, IsErrOf};
ghost use Rattle.std.specs.Io.KnownBytes.{IsAtEnd};
ghost use Rattle.ov_io.specs.Device.{most_faults, read_faults, read_number, ReaderFailed};

use crate::counted_reader_and_writer::CountedReader;
use crate::fault::ReadFault;
use std::alloc::Global;
use std::io::Read;
use std::marker::Model;

/// The most reads of one call.
const MOST_READS: u32 = u32::MAX;

/// A reader, and how often it failed.
#[derive(Drop)]
pub struct Source<R> {
    reader: CountedReader<R>,
    /// How many calls reached the most reads.
    endless: u64,
}

impl<R> Model for Source<R> {
    ghost use Rattle.std.specs.Prelude.{◌+◌, ◌≤◌};
    ghost use Rattle.ov_io.specs.Device.{SourceState, most_faults, most_counted};

    ghost Value = { SourceState R };

    ghost view = { λ s. record {
      reader = s.reader.reader;
      reads = s.reader.reads;
      failures = s.reader.failures;
      ends = s.reader.ends;
      faults = s.reader.failures + s.endless;
    } };

    ghost invariant = { λ s. record {
      reads : s.reader.reads ≤ most_counted;
      ends : s.reader.ends ≤ most_counted;
      faults : s.reader.failures + s.endless ≤ most_faults;
    } };
}

impl<R: Read> Source<R> {
    /// A reader that has not failed yet.
    pub fn new(reader: R) -> Source<R>
        ensures reader { result.reader ≡ reader }
        ensures reads { result.reads ≡ 0 }
        ensures failures { result.failures ≡ 0 }
        ensures ends { result.ends ≡ 0 }
        ensures faults { result.faults ≡ 0 }
    {
        Source {
            reader: CountedReader::new(reader),
            endless: 0,
        }
    }

    /// How often the reader failed: each read that was answered by an error, an interrupted read too, and each call of
    /// `read_all` in which the reader did not end.
    pub fn faults(&self) -> u64
        ensures { result ≡ self.now.faults }
    {
        self.reader.failures() + self.endless
    }

    /// All bytes that the reader still has.
    ///
    /// `Read` (71): a read failed or was interrupted, or the reader has not ended after 4,294,967,295 reads, a bound
    /// chosen here. `OutOfMemory` (99): an allocation was refused.
    pub fn read_all(&mut self, alloc: Global) -> Result<Vec<u8>, ReadFault>
        requires { self.old.faults < most_faults }
        ensures bytes { IfOk result (λ v. IfSome (R.remaining self.old.reader) (λ xs. v.items ≡ xs)) }
        ensures end { OnOk result (IsAtEnd (R.remaining self.new.reader)) }
        ensures faults { self.new.faults ≡ self.old.faults + read_faults read_number result }
        ensures failed { IsErrOf result ReadFault.Read → ReaderFailed self.old self.new }
        ensures not_failed { result ≢ Err ReadFault.Read → self.new.failures ≡ self.old.failures }
    {
        let mut bytes = Vec::new(alloc);
        let mut buffer = [0u8; 4096];
        for _ in 0..MOST_READS {
            match self.reader.read(&mut buffer)? {
                0 => return Ok(bytes),
                count => bytes.extend_from_slice(&buffer[..count])?,
            }
        }
        self.endless += 1;
        Err(ReadFault::Read)
    }
}
