ghost use Rattle.std.specs.Prelude.{Some, nat_eq};
ghost use Rattle.std.proofs.Common.{rules};
ghost use Rattle.std.specs.Cmp.{partial_equiv_from_equiv};
ghost use Rattle.std.specs.Cmp.Lexicographic.{nat_list_cmp_total, nat_list_eq_equiv, pointwise, slice_cmp};
ghost use Rattle.std.specs.Cmp.Lexicographic.{texts_po, texts_ties};
ghost use Rattle.std.specs.Cmp.Rules.{hashing};
ghost use Rattle.std.specs.Hash as fed;
ghost use Rattle.std.specs.Ordering.{nat_cmp};

use ov_ids::OutOfMemory;
use std::alloc::Global;
use std::cmp::Ordering;
use std::fmt::{Display, Formatter, Result as FmtResult, Write};
use std::hash::{Hash, Hasher};
use std::marker::Model;

/// The name of a node in a dump, as of its host. Contracts see its bytes, in UTF-8.
#[derive(Debug, Drop)]
pub struct Name(String);

impl Model for Name {
    ghost use Rattle.std.specs.Prelude.{ℕ, List, string_bytes};

    ghost Value = { List ℕ };

    ghost view = { λ n. string_bytes n.0 };
}

impl Name {
    ghost use Rattle.std.specs.Prelude.{◌≡◌, ◌↔◌, [], string_bytes, IfOk, IsTrue};

    /// The name that is this text. Nothing is allocated.
    pub fn new(text: String) -> Name
        ensures { result ≡ string_bytes text }
    {
        Name(text)
    }

    /// Its text.
    pub fn as_str(&self) -> &str
        ensures { result.now ≡ self.now }
    {
        self.0.as_str()
    }

    /// Whether it has no character.
    pub fn is_empty(&self) -> bool
        ensures { IsTrue result ↔ (self.now ≡ []) }
    {
        self.0.is_empty()
    }

    /// Its text. Nothing is allocated.
    pub fn into_string(self) -> String
        ensures { string_bytes result ≡ self }
    {
        self.0
    }

    /// An equal name. OutOfMemory (99) if the allocation is refused.
    pub fn copy(&self, alloc: Global) -> Result<Name, OutOfMemory>
        ensures { IfOk result (λ name. name ≡ self.now) }
    {
        Ok(Name(String::from_str(alloc, self.as_str())?))
    }
}

/// A control character is shown as its code, as `\u{a}` for a line feed, so that a name stands on one line.
impl Display for Name {
    fn fmt<W: Write>(&self, f: &mut Formatter<W>) -> FmtResult {
        for c in self.as_str().chars() {
            if c.is_control() {
                let code = u32::from(c);
                write!(f, "\\u{{{code:x}}}")?;
            } else {
                f.write_char(c)?;
            }
        }
        Ok(())
    }
}

impl PartialEq for Name {
    ghost eq = { pointwise nat_eq };

    ghost laws = { partial_equiv_from_equiv nat_list_eq_equiv };

    fn eq(&self, other: &Name) -> bool {
        self.as_str() == other.as_str()
    }
}

impl Eq for Name {
    ghost laws = { nat_list_eq_equiv };
}

impl Hash for Name {
    ghost hash_input = { λ n. fed.str n };

    ghost respects_eq = { Prim.search (hashing, rules) };

    fn hash<H: Hasher>(&self, state: &mut H) {
        self.as_str().hash(state);
    }
}

impl PartialOrd for Name {
    ghost partial_cmp = { λ a b. Some (slice_cmp nat_cmp a b) };

    ghost laws = { texts_po };

    fn partial_cmp(&self, other: &Name) -> Option<Ordering> {
        Some(self.cmp(other))
    }
}

/// Names are ordered byte by byte.
impl Ord for Name {
    ghost cmp = { slice_cmp nat_cmp };

    ghost total = { nat_list_cmp_total };

    ghost matches_partial_cmp = { Prim.search rules };

    ghost matches_eq = { texts_ties };

    fn cmp(&self, other: &Name) -> Ordering {
        self.as_str().cmp(other.as_str())
    }
}
