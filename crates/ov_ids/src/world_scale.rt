ghost use Rattle.std.specs.Prelude.{◌≡◌, ◌≢◌, IfSome, IfNone};
ghost use Rattle.ov_ids.specs.Scales.{most_born_at, most_entries_at, most_packets_at, scale_name, scale_named};

use std::fmt::{Display, Formatter, Result, Write};

/// How large a world may grow: how many nodes may ever be born in it, how many entries its journal may have, and how
/// many packets may be on their way. (Chosen here.)
#[derive(Clone, Copy, Debug, PartialEq, Eq)]
pub enum Scale {
    /// The profile's limits: 256 nodes, 65,536 entries, 65,536 packets.
    Profile,
    /// Limits for overlays of the size that the papers have: 32,768 nodes, 16,777,216 entries, 1,048,576 packets.
    Large,
}

impl Scale {
    /// The scale with this word, `profile` or `large`. None if it is another word. (The words are chosen here.)
    pub fn from_name(name: &[u8]) -> Option<Scale>
        ensures value { result ≡ scale_named name.now }
        ensures some { IfSome result (λ scale. name.now ≡ scale_name scale) }
        ensures none { IfNone result ((scale : Scale) → name.now ≢ scale_name scale) }
    {
        if name == b"profile".as_slice() {
            return Some(Scale::Profile);
        }
        if name == b"large".as_slice() {
            return Some(Scale::Large);
        }
        None
    }

    /// The most nodes that may ever be born in a world of this scale.
    pub fn most_born(self) -> usize
        ensures { result ≡ most_born_at self }
    {
        match self {
            Scale::Profile => 256,
            Scale::Large => 32_768,
        }
    }

    /// The most entries that the journal of such a world may have.
    pub fn most_entries(self) -> usize
        ensures { result ≡ most_entries_at self }
    {
        match self {
            Scale::Profile => 65_536,
            Scale::Large => 16_777_216,
        }
    }

    /// The most packets that may be on their way in such a world.
    pub fn most_packets(self) -> usize
        ensures { result ≡ most_packets_at self }
    {
        match self {
            Scale::Profile => 65_536,
            Scale::Large => 1_048_576,
        }
    }
}

/// The word for a scale.
impl Display for Scale {
    ghost use Rattle.std.specs.Prelude.{Some};
    ghost use Rattle.ov_ids.specs.Scales.{scale_name};

    ghost output = { λ scale. Some (scale_name scale) };

    fn fmt<W: Write>(&self, f: &mut Formatter<W>) -> Result {
        match self {
            Scale::Profile => write!(f, "profile"),
            Scale::Large => write!(f, "large"),
        }
    }
}
