ghost use Rattle.std.specs.Prelude.{◌≡◌, IfOk};

use std::alloc::Global;
use std::io::{Error, ErrorKind, Read, Write};

/// A device that gives or takes one byte a call. The call after `calls_left` others fails, and no other one: with this
/// error, or as one that takes nothing.
#[derive(Drop)]
pub struct FailsOnce<'a> {
    pub rest: &'a [u8],
    pub taken: Vec<u8>,
    pub calls_left: usize,
    pub error: Option<ErrorKind>,
}

impl<'a> FailsOnce<'a> {
    /// The device before its first call: what it gives, how many calls do not fail, and how the next one does.
    pub fn new(
        alloc: Global,
        rest: &'a [u8],
        calls_left: usize,
        error: Option<ErrorKind>,
    ) -> FailsOnce<'a> {
        FailsOnce {
            rest,
            taken: Vec::new(alloc),
            calls_left,
            error,
        }
    }

    /// Whether this is the call that fails.
    fn fails(&mut self) -> bool {
        if self.calls_left == 0 {
            self.calls_left = usize::MAX;
            return true;
        }
        self.calls_left -= 1;
        false
    }

    /// The answer of the call that fails.
    fn failure(&self) -> std::io::Result<usize>
        ensures { IfOk result (λ count. count ≡ 0) }
    {
        match self.error {
            Some(kind) => Err(Error::from(kind)),
            None => Ok(0),
        }
    }
}

impl<'a> Read for FailsOnce<'a> {
    fn read(&mut self, buf: &mut [u8]) -> std::io::Result<usize> {
        if self.fails() {
            return self.failure();
        }
        let Some((first, rest)) = self.rest.split_first() else {
            return Ok(0);
        };
        let Some(place) = buf.first_mut() else {
            return Ok(0);
        };
        *place = *first;
        self.rest = rest;
        Ok(1)
    }
}

impl<'a> Write for FailsOnce<'a> {
    fn write(&mut self, buf: &[u8]) -> std::io::Result<usize> {
        if self.fails() {
            return self.failure();
        }
        let Some(first) = buf.first() else {
            return Ok(0);
        };
        match self.taken.push(*first) {
            Ok(()) => Ok(1),
            Err(_) => Err(Error::from(ErrorKind::OutOfMemory)),
        }
    }

    fn flush(&mut self) -> std::io::Result<()> {
        Ok(())
    }
}
