//! The options of growing: one table, by which arguments are read, help lists them and tips tell of them.

ghost use Rattle.std.specs.Prelude.{◌≡◌, map};
ghost use Rattle.ov_grow_options.specs.CommandLine.{is_default, is_of_setting, name_and_default};
ghost use Rattle.ov_grow_options.specs.CommandLine.{named_options};

use crate::{MOST_NODES, MOST_OF_HUNDRED, MOST_ROUNDS, MOST_SHARE, MOST_TURNS};
use ov_ids::{LONGEST_WALK, MOST_ACTIVE, MOST_PASSIVE, MOST_SAMPLED};

/// An option of growing, or of a command that grows overlays.
#[derive(Clone, Copy)]
pub struct OptionRow {
    /// Its name, without the two hyphens before it.
    pub name: &'static str,
    /// What its value is.
    pub unit: Unit,
    /// The least and the largest number that it takes, if it takes numbers.
    pub limits: Option<(u64, u64)>,
    /// The words that it takes. Beside numbers one of them stands for none of these: of an option without a default it
    /// is the value if the option is not given.
    pub words: &'static [&'static str],
    /// The text that stands for its value if it is not given.
    pub usual: Option<&'static str>,
    /// What help says of it.
    pub help: &'static str,
}

/// What the value of an option is.
#[derive(Clone, Copy)]
pub enum Unit {
    /// How many there are of this; the text is empty where the option's name says of what.
    Count(&'static str),
    /// How many of 100: a text says of what.
    OfHundred(&'static str),
    /// Whose turn is next.
    Order,
    /// The rule by which a node looks for another active member.
    Rule,
    /// A phase of growing.
    Phase,
    /// A row of a file: FILE:N.
    Row,
    /// A file.
    File,
    /// One file or more.
    Files,
    /// There is none: the option is there or not.
    Nothing,
}

/// A value of an option of growing.
#[derive(Clone, Copy, PartialEq, Eq)]
pub enum OptionValue {
    /// A number within its limits.
    Number(u64),
    /// One of its words.
    Word(&'static str),
    /// Whether an option without a value is there.
    Given(bool),
}

impl OptionValue {
    /// The number, if it is one.
    pub fn number(self) -> Option<u64> {
        match self {
            OptionValue::Number(number) => Some(number),
            OptionValue::Word(_) | OptionValue::Given(_) => None,
        }
    }
}

impl OptionRow {
    /// The value that a text spells. None: the option takes no such text.
    pub fn read(&self, text: &str) -> Option<OptionValue> {
        for word in self.words {
            if *word == text {
                return Some(OptionValue::Word(word));
            }
        }
        let (lowest, highest) = self.limits?;
        let number = text.parse::<u64>().ok()?;
        (lowest <= number && number <= highest).then_some(OptionValue::Number(number))
    }

    /// The value without a text: whether an option that takes none is there, and of another one what stands for it.
    pub fn without_text(&self, is_given: bool) -> OptionValue {
        match self.words.first() {
            Some(word) => OptionValue::Word(word),
            None => OptionValue::Given(is_given),
        }
    }

    /// Whether a text is what stands for its value if it is not given.
    pub fn is_usual(&self, text: &str) -> bool
        ensures { result ≡ is_default (name_and_default self.now).1 text.now }
    {
        match self.usual {
            Some(usual) => usual == text,
            None => false,
        }
    }

    /// What its numbers count, if its name does not say it; else nothing.
    pub fn counted(&self) -> &'static str {
        match self.unit {
            Unit::Count(counted) | Unit::OfHundred(counted) => counted,
            _ => "",
        }
    }

    /// Whether it tells settings of a sweep apart: each option does but the seed, and `--crash-cut`, which is a value
    /// of `--crash`.
    pub fn is_of_setting(&self) -> bool
        ensures { result ≡ is_of_setting self.now.name.now }
    {
        self.name != SEED.name && self.name != CRASH_CUT
    }

    /// Whether it is there or not, and has no value.
    pub fn takes_nothing(&self) -> bool {
        matches!(self.unit, Unit::Nothing)
    }
}

/// What help says of `--refill`.
const REFILL: &str = "\
What a node does that an active member sends DISCONNECT: never looks for another one (the profile), looks if it is \
alone, looks always";

/// What help says of `--sequential`.
const SEQUENTIAL: &str = "\
Broadcasts are made one by one: when one begins, nothing is left of the one before";

/// What help says of `--sender`.
const SENDER: &str = "\
1 to --nodes: the node that makes each broadcast, or the next one that lives; without it, or with none, one is chosen \
for each";

/// What help says of `--detect`.
const DETECT: &str = "\
Nodes learn of crashes only by sending, from the crashes on: whoever sends to a crashed node is told";

/// The seed, which takes no list in a sweep: its runs have seeds that follow one another.
pub const SEED: OptionRow = OptionRow {
    name: "seed",
    unit: Unit::Count(""),
    limits: Some((0, u64::MAX)),
    words: &[],
    usual: Some("0"),
    help: "64 bits: the seed of the nodes' random words and of all choices",
};

/// How many broadcasts there are.
pub const BROADCASTS: OptionRow = OptionRow {
    name: "broadcasts",
    unit: Unit::Count(""),
    limits: Some((0, MOST_ROUNDS as u64)),
    words: &[],
    usual: Some("0"),
    help: "0 to 1000: broadcasts after each of the three snapshots",
};

/// The option that is another word for a value of `--crash`.
pub const CRASH_CUT: &str = "crash-cut";

/// How many options of growing there are.
pub const OPTION_COUNT: usize = 23;

/// The options of growing, in the order of their table.
pub static OPTIONS: [OptionRow; OPTION_COUNT] = [
    OptionRow {
        name: "nodes",
        unit: Unit::Count(""),
        limits: Some((1, MOST_NODES as u64)),
        words: &[],
        usual: Some("100"),
        help: "1 to 32768: how many nodes join",
    },
    OptionRow {
        name: "active",
        unit: Unit::Count("nodes"),
        limits: Some((1, MOST_ACTIVE as u64)),
        words: &[],
        usual: Some("5"),
        help: "1 to 16: how many members the active view of a node may have",
    },
    OptionRow {
        name: "passive",
        unit: Unit::Count("nodes"),
        limits: Some((1, MOST_PASSIVE as u64)),
        words: &[],
        usual: Some("30"),
        help: "1 to 64: how many members its passive view may have",
    },
    OptionRow {
        name: "arwl",
        unit: Unit::Count("hops"),
        limits: Some((0, LONGEST_WALK as u64)),
        words: &[],
        usual: Some("6"),
        help: "0 to 15: how far a FORWARDJOIN walks",
    },
    OptionRow {
        name: "prwl",
        unit: Unit::Count("hops"),
        limits: Some((0, LONGEST_WALK as u64)),
        words: &[],
        usual: Some("3"),
        help: "0 to --arwl: how long before its end a FORWARDJOIN makes its node a passive member",
    },
    OptionRow {
        name: "ka",
        unit: Unit::Count("nodes"),
        limits: Some((0, MOST_SAMPLED as u64)),
        words: &[],
        usual: Some("3"),
        help: "0 to 8: how many active members a shuffle carries",
    },
    OptionRow {
        name: "kp",
        unit: Unit::Count("nodes"),
        limits: Some((0, MOST_SAMPLED as u64)),
        words: &[],
        usual: Some("4"),
        help: "0 to 8: how many passive members a shuffle carries",
    },
    OptionRow {
        name: "ttl",
        unit: Unit::Count("hops"),
        limits: Some((1, LONGEST_WALK as u64)),
        words: &[],
        usual: Some("4"),
        help: "1 to 15: how far a SHUFFLE walks",
    },
    OptionRow {
        name: "refill",
        unit: Unit::Rule,
        limits: None,
        words: &["never", "alone", "always"],
        usual: Some("never"),
        help: REFILL,
    },
    SEED,
    OptionRow {
        name: "loss-join",
        unit: Unit::OfHundred("% of packets"),
        limits: Some((0, MOST_OF_HUNDRED as u64)),
        words: &[],
        usual: Some("0"),
        help: "0 to 100: of 100 packets, how many are lost while nodes join",
    },
    OptionRow {
        name: "loss",
        unit: Unit::OfHundred("% of packets"),
        limits: Some((0, MOST_OF_HUNDRED as u64)),
        words: &[],
        usual: Some("0"),
        help: "0 to 100: of 100 packets, how many are lost later",
    },
    OptionRow {
        name: "repeat",
        unit: Unit::OfHundred("% of packets"),
        limits: Some((0, MOST_SHARE as u64)),
        words: &[],
        usual: Some("0"),
        help: "0 to 99: of 100 packets that are not lost, how many are repeated first",
    },
    OptionRow {
        name: "order",
        unit: Unit::Order,
        limits: None,
        words: &["random", "oldest"],
        usual: Some("random"),
        help: "Whose turn is next: that of any packet, or of the oldest",
    },
    OptionRow {
        name: "pace",
        unit: Unit::Count("turns"),
        limits: Some((0, MOST_TURNS as u64)),
        words: &["none"],
        usual: None,
        help: "0 to 65536: turns between two births; without it, or with none, 1000 or until no packet is left",
    },
    OptionRow {
        name: "rounds",
        unit: Unit::Count(""),
        limits: Some((0, MOST_ROUNDS as u64)),
        words: &[],
        usual: Some("3"),
        help: "0 to 1000: rounds of shuffles while the overlay settles",
    },
    OptionRow {
        name: "crash",
        unit: Unit::OfHundred("% of nodes"),
        limits: Some((0, MOST_SHARE as u64)),
        words: &["cut"],
        usual: Some("0"),
        help: "0 to 99: of 100 live nodes, how many crash; cut is --crash-cut",
    },
    OptionRow {
        name: CRASH_CUT,
        unit: Unit::Nothing,
        limits: None,
        words: &[],
        usual: None,
        help: "The nodes crash that the settled overlay's report names as the cut",
    },
    OptionRow {
        name: "heal",
        unit: Unit::Count("rounds"),
        limits: Some((0, MOST_ROUNDS as u64)),
        words: &[],
        usual: Some("2"),
        help: "0 to 1000: rounds of shuffles while the overlay heals",
    },
    BROADCASTS,
    OptionRow {
        name: "sequential",
        unit: Unit::Nothing,
        limits: None,
        words: &[],
        usual: None,
        help: SEQUENTIAL,
    },
    OptionRow {
        name: "sender",
        unit: Unit::Count(""),
        limits: Some((1, MOST_NODES as u64)),
        words: &["none"],
        usual: None,
        help: SENDER,
    },
    OptionRow {
        name: "detect",
        unit: Unit::Nothing,
        limits: None,
        words: &[],
        usual: None,
        help: DETECT,
    },
];

/// The options of growing, in the order of their table.
pub fn growing_options() -> &'static [OptionRow]
    ensures { map name_and_default result.now ≡ named_options }
{
    &OPTIONS
}
