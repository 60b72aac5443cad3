ghost use Rattle.std.specs.Prelude.{◌≡◌, ◌≤◌, ◌<◌, Some, IfSome};
ghost use Rattle.ov_ids.specs.Limits.{number_limit};
ghost use Rattle.ov_certfile.specs.Forms.{last_moment_of};
ghost use Rattle.ov_certfile.specs.Kinds.{version_number, version_numbered, version_read, most_nodes_of};
ghost use Rattle.ov_certfile.specs.Kinds.{names_group};

use ov_graph::Graph;
use ov_ids::NUMBER_LIMIT;

/// The highest number of nodes in a file of version 1.
const MOST_NODES_OF_ONE: usize = 256;

/// The highest moment in a file of version 1 or 2: no journal of the profile's scale has more entries. (Chosen here.)
pub const LAST_MOMENT: u64 = 65_536;

/// The version of a file. Its number is the value at the key `version`.
#[derive(Clone, Copy, Debug, PartialEq, Eq)]
pub enum Version {
    /// The group is all nodes, at most 256.
    One,
    /// The file names its group. It has at most 1,024 nodes.
    Two,
    /// The file names its group. It may have 32,768 nodes, and its moment may be any number of 32 bits.
    Three,
}

impl Version {
    /// The version with this number, if there is one and it is not above the newest that is read.
    pub(crate) fn numbered(newest: Version, number: u64) -> Option<Version>
        ensures version { result ≡ version_read newest number }
        ensures known { IfSome result (λ version. version_numbered number ≡ Some version) }
        ensures number { IfSome result (λ version. number ≡ version_number version) }
        ensures read { IfSome result (λ version. version_number version ≤ version_number newest) }
    {
        if number > u64::from(newest.number()) {
            return None;
        }
        match number {
            1 => Some(Version::One),
            2 => Some(Version::Two),
            3 => Some(Version::Three),
            _ => None,
        }
    }

    /// The number of the version.
    pub(crate) fn number(self) -> u32
        ensures { result ≡ version_number self }
    {
        match self {
            Version::One => 1,
            Version::Two => 2,
            Version::Three => 3,
        }
    }

    /// The highest number of nodes in a file of this version.
    pub fn most_nodes(self) -> usize
        ensures { result ≡ most_nodes_of self }
    {
        match self {
            Version::One => MOST_NODES_OF_ONE,
            Version::Two => Graph::MOST_NODES,
            Version::Three => Graph::MOST_OF_ANY,
        }
    }

    /// The highest moment in a file of this version.
    pub fn last_moment(self) -> u64
        ensures last { result ≡ last_moment_of self }
        ensures within { result < number_limit }
    {
        match self {
            Version::One | Version::Two => LAST_MOMENT,
            Version::Three => NUMBER_LIMIT - 1,
        }
    }

    /// Whether files of this version name their group. Others are of the group of all nodes.
    pub fn names_group(self) -> bool
        ensures { result ≡ names_group self }
    {
        match self {
            Version::One => false,
            Version::Two | Version::Three => true,
        }
    }
}
