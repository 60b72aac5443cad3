ghost use Rattle.std.specs.Prelude.{◌≡◌};
ghost use Rattle.ov_certfile.specs.Kinds.{name_of, keys_of};

use crate::linked_or_split::Verdict;
use crate::version::Version;

/// A key of a file, or of an entry in it.
#[derive(Clone, Copy)]
pub enum Key {
    K,
    Links,
    Moment,
    Nodes,
    Verdict,
    Version,
    Group,
    Cut,
    Near,
    Far,
    Side,
    Pairs,
    Fans,
    /// The lower node of a pair.
    I,
    /// The higher node of a pair, or the node of a fan.
    J,
    /// The paths of an entry.
    Paths,
}

impl Key {
    /// The name of the key in a file.
    pub fn name(self) -> &'static str
        ensures { result.now ≡ name_of self }
    {
        match self {
            Key::K => "k",
            Key::Links => "links",
            Key::Moment => "moment",
            Key::Nodes => "nodes",
            Key::Verdict => "verdict",
            Key::Version => "version",
            Key::Group => "group",
            Key::Cut => "cut",
            Key::Near => "near",
            Key::Far => "far",
            Key::Side => "side",
            Key::Pairs => "pairs",
            Key::Fans => "fans",
            Key::I => "i",
            Key::J => "j",
            Key::Paths => "paths",
        }
    }
}

/// The keys of a file that names no group, in the order in which they are demanded. Those behind `Version` are of the
/// verdict split alone.
const KEYS: [Key; 12] = [
    Key::K,
    Key::Links,
    Key::Moment,
    Key::Nodes,
    Key::Verdict,
    Key::Version,
    Key::Cut,
    Key::Near,
    Key::Far,
    Key::Side,
    Key::Pairs,
    Key::Fans,
];

/// The same of a file that names its group. Those behind `Group` are of the verdict split alone.
const KEYS_WITH_GROUP: [Key; 13] = [
    Key::K,
    Key::Links,
    Key::Moment,
    Key::Nodes,
    Key::Verdict,
    Key::Version,
    Key::Group,
    Key::Cut,
    Key::Near,
    Key::Far,
    Key::Side,
    Key::Pairs,
    Key::Fans,
];

/// The keys that a file of this version and verdict must have, in the order in which they are demanded. It may have no
/// others.
pub fn keys_of(version: Version, verdict: Verdict) -> &'static [Key]
    ensures { result.now ≡ keys_of version verdict }
{
    match (version.names_group(), verdict) {
        (false, Verdict::Linked) => &KEYS[..6],
        (false, Verdict::Split) => &KEYS,
        (true, Verdict::Linked) => &KEYS_WITH_GROUP[..7],
        (true, Verdict::Split) => &KEYS_WITH_GROUP,
    }
}
