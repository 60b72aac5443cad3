ghost use Rattle.std.specs.Prelude.{◌≡◌, None};
ghost use Rattle.ov_certfile.specs.Number.{number_of};
ghost use Rattle.ov_certfile.specs.declared.fault.FileFault.TheVariants.{OutOfMemory};

use crate::file_keys::Key;
use crate::linked_or_split::Verdict;
use crate::no_json::NoJson;
use crate::value_fault::{Misfit, Wanted};
use crate::version::Version;
use ov_graph::GraphFault;
use std::alloc::{AllocError, AllocFailed};
use std::error::Error;
use std::fmt::{Debug, Display, Formatter, Result, Write};

/// Why a text is not a certificate file.
#[derive(Clone, Copy)]
pub enum FileFault {
    /// 60: the text is not JSON.
    NotJson(NoJson),
    /// 61: this key is missing.
    MissingKey(Key),
    /// 62: there is a key that a file of this version and verdict must not have. It is at this place among the keys of
    /// the file, in the order of their bytes, counted from 0.
    UnknownKey {
        at: usize,
        version: Version,
        verdict: Verdict,
    },
    /// 63: a value does not have the form of its key.
    BadValue(BadValue),
    /// 64: the version is none of those that are read, from 1 to the newest.
    BadVersion {
        newest: Version,
    },
    /// 31 to 33: the nodes and links are not a graph.
    Graph(GraphFault),
    /// 99: out of memory.
    OutOfMemory,
}

/// The value that does not have its form.
#[derive(Clone, Copy)]
pub struct BadValue {
    /// The key at which it is. None: it is the file itself, which is no object.
    pub key: Option<Key>,
    /// Where in the value the form is broken.
    pub misfit: Misfit,
}

impl BadValue {
    /// The file is no object.
    pub(crate) fn of_file() -> BadValue
        ensures { result.key ≡ None }
    {
        let misfit = Misfit::new(Wanted::Object);
        BadValue { key: None, misfit }
    }
}

impl FileFault {
    /// The fault's number. A fault of the graph keeps its own number.
    pub fn number(&self) -> u32
        ensures { result ≡ number_of self.now }
    {
        match self {
            FileFault::NotJson(_) => 60,
            FileFault::MissingKey(_) => 61,
            FileFault::UnknownKey { .. } => 62,
            FileFault::BadValue(_) => 63,
            FileFault::BadVersion { .. } => 64,
            FileFault::Graph(fault) => fault.number(),
            FileFault::OutOfMemory => 99,
        }
    }
}

impl FileFault {
    fn words(&self) -> &'static str {
        match self {
            FileFault::NotJson(_) => "no JSON",
            FileFault::MissingKey(_) => "a key is missing",
            FileFault::UnknownKey { .. } => "a key is unknown",
            FileFault::BadValue(_) => "a value has another form",
            FileFault::BadVersion { .. } => "another version",
            FileFault::Graph(_) => "the nodes and links are no graph",
            FileFault::OutOfMemory => "out of memory",
        }
    }
}

impl Display for FileFault {
    fn fmt<W: Write>(&self, f: &mut Formatter<W>) -> Result {
        f.write_str(self.words())
    }
}

impl Debug for FileFault {
    fn fmt<W: Write>(&self, f: &mut Formatter<W>) -> Result {
        f.write_str(self.words())
    }
}

impl Error for FileFault {}

impl From<AllocError> for FileFault {
    ghost from_gives = { λ _ e. e ≡ OutOfMemory };

    fn from(_error: AllocError) -> FileFault {
        FileFault::OutOfMemory
    }
}

impl<T: Drop> From<AllocFailed<T>> for FileFault {
    ghost from_gives = { λ _ e. e ≡ OutOfMemory };

    fn from(_error: AllocFailed<T>) -> FileFault {
        FileFault::OutOfMemory
    }
}
