//! Reads a certificate file, of version 3 too, and says in one line whether it holds.
#![tactic(auto)]

use ov_certfile::Version;
use ov_check_program::{Program, run};
use std::io::IsTerminal;
use std::process::ExitCode;

/// What is printed if no file is called `--help`.
const HELP: &str = "\
`overlay-check-large [FILE]` judges a certificate file of `overlay`, of version 1, 2 or 3, and prints one line: `holds ..`
with status 0 if its number is exact; `fails N` or `refused N` with status 1 if it is not, or the file is no certificate
file.";

/// What is printed if no file is called `--version`: the program, and the logic that it is proved with. Each kit of that
/// logic may build it.
const VERSION: &str = "overlay-check-large 1.0, proved with Rattle's logic dac8208d650f15bf";

/// What is printed if a file can't be opened whose name begins as an option.
const NO_OPTIONS: &str =
    "tip: `overlay-check-large [FILE]` has no options; without FILE it reads standard input";

fn main(rt: HostRuntime) -> ExitCode {
    let program = Program {
        name: "overlay-check-large",
        newest: Version::Three,
        help: HELP,
        version: VERSION,
        no_options: NO_OPTIONS,
    };
    let is_typed = rt.stdin().is_terminal();
    ExitCode::from(run(&rt, &program, is_typed))
}
