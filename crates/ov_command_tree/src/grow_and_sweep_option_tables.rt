//! The options that `overlay grow` and `overlay sweep` have besides those of growing.
use crate::grow_and_sweep_clap_commands::GrowingCommand;
use ov_grow_options::{OptionRow, SEED, Unit, growing_options};

/// An option of one command, and the options that it does not stand beside.
#[derive(Clone, Copy)]
pub(crate) struct OwnOption {
    pub(crate) row: &'static OptionRow,
    pub(crate) excludes: &'static [&'static str],
}

/// The options that `overlay grow` has besides.
static GROW_OPTIONS: [OwnOption; 2] = [
    OwnOption {
        row: &OptionRow {
            name: "row",
            unit: Unit::Row,
            limits: None,
            words: &[],
            usual: None,
            help: "Takes all options from row N of this file of rows, counted from 1 without headers",
        },
        excludes: &[],
    },
    OwnOption {
        row: &OptionRow {
            name: "certificates",
            unit: Unit::Nothing,
            limits: None,
            words: &[],
            usual: None,
            help: "Ends the scenario with a line for the certificate of each of the three reports",
        },
        excludes: &[],
    },
];

/// How many runs each setting has.
pub const RUNS: OptionRow = OptionRow {
    name: "runs",
    unit: Unit::Count(""),
    limits: Some((1, 1_000_000)),
    words: &[],
    usual: Some("30"),
    help: "1 to 1000000: how many runs each setting has, with seeds that follow one another",
};

/// How many runs go on at once.
pub const WORKERS: OptionRow = OptionRow {
    name: "workers",
    unit: Unit::Count(""),
    limits: Some((1, 64)),
    words: &[],
    usual: Some("1"),
    help: "1 to 64: how many runs go on at once",
};

/// Of how many runs the commands of a list are at most.
pub const LIST: OptionRow = OptionRow {
    name: "list",
    unit: Unit::Count(""),
    limits: Some((1, 1_000_000)),
    words: &[],
    usual: None,
    help: "Grows nothing, and prints commands in place of the rows, each of N runs at most",
};

/// Of which part of the runs fewer may be split.
pub const BOUND: OptionRow = OptionRow {
    name: BOUND_NAME,
    unit: Unit::OfHundred(""),
    limits: Some((1, 99)),
    words: &[],
    usual: None,
    help: "1 to 99: prints in place of the rows the smallest setting of which fewer than P of 100 runs are split",
};

/// After which phase that is asked.
pub const AFTER: OptionRow = OptionRow {
    name: "after",
    unit: Unit::Phase,
    limits: None,
    words: &["settle", "crash", "heal"],
    usual: Some("heal"),
    help: "After which phase --at-most-split looks",
};

/// What help says of `--messages`.
const MESSAGES: &str =
    "With --sequential and --broadcasts: prints a row for each broadcast, with what it cost, in place of each run";

/// The options that `overlay sweep` has besides.
static SWEEP_OPTIONS: [OwnOption; 12] = [
    OwnOption {
        row: &RUNS,
        excludes: &["read"],
    },
    OwnOption {
        row: &WORKERS,
        excludes: &["read"],
    },
    OwnOption {
        row: &LIST,
        excludes: &["read"],
    },
    OwnOption {
        row: &BOUND,
        excludes: &["list"],
    },
    OwnOption {
        row: &AFTER,
        excludes: &[],
    },
    OwnOption {
        row: &OptionRow {
            name: "summary",
            unit: Unit::Nothing,
            limits: None,
            words: &[],
            usual: None,
            help: "Prints a summary for people in place of the rows",
        },
        excludes: &["list"],
    },
    OwnOption {
        row: &OptionRow {
            name: "svg",
            unit: Unit::File,
            limits: None,
            words: &[],
            usual: None,
            help: "Writes a picture of all runs into this file too",
        },
        excludes: &["list"],
    },
    OwnOption {
        row: &OptionRow {
            name: "read",
            unit: Unit::Files,
            limits: None,
            words: &[],
            usual: None,
            help: "Reads rows from these files in place of growing; - is standard input",
        },
        excludes: &[],
    },
    OwnOption {
        row: &OptionRow {
            name: "progress",
            unit: Unit::Nothing,
            limits: None,
            words: &[],
            usual: None,
            help: "Prints on standard error how far it has come",
        },
        excludes: &["read"],
    },
    OwnOption {
        row: &OptionRow {
            name: "costs",
            unit: Unit::Nothing,
            limits: None,
            words: &[],
            usual: None,
            help: "Adds columns with what the broadcasts of each phase cost",
        },
        excludes: &["read"],
    },
    OwnOption {
        row: &OptionRow {
            name: "shape",
            unit: Unit::Nothing,
            limits: None,
            words: &[],
            usual: None,
            help: "Adds columns with the shape of the overlay after each phase",
        },
        excludes: &["read"],
    },
    OwnOption {
        row: &OptionRow {
            name: "messages",
            unit: Unit::Nothing,
            limits: None,
            words: &[],
            usual: None,
            help: MESSAGES,
        },
        excludes: &["list"],
    },
];

/// The option that `--after` stands beside.
pub(crate) const BOUND_NAME: &str = "at-most-split";

/// The options that a command has besides.
pub(crate) fn own_options(command: GrowingCommand) -> &'static [OwnOption] {
    match command {
        GrowingCommand::Grow => &GROW_OPTIONS,
        GrowingCommand::Sweep => &SWEEP_OPTIONS,
    }
}

/// The option of this name, of growing or of one of these two commands.
pub(crate) fn option_named(name: &str) -> Option<&'static OptionRow> {
    match option_of(GrowingCommand::Sweep, name) {
        Some(option) => Some(option),
        None => option_of(GrowingCommand::Grow, name),
    }
}

/// The option of a command that has this name.
pub(crate) fn option_of(command: GrowingCommand, name: &str) -> Option<&'static OptionRow> {
    for option in growing_options() {
        if option.name == name {
            return Some(option);
        }
    }
    for own in own_options(command) {
        if own.row.name == name {
            return Some(own.row);
        }
    }
    None
}

/// Whether the option of this name takes a list behind `overlay sweep`: one of growing, but for the seed.
pub(crate) fn takes_list(name: &str) -> bool {
    for option in growing_options() {
        if option.name == name {
            return name != SEED.name;
        }
    }
    false
}
