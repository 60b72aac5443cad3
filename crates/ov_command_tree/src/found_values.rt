//! What `clap` found in arguments.
ghost use Rattle.std.specs.Prelude.{◌≡◌, string_bytes, option_map, IfOk};
ghost use Rattle.clap.specs.Words.{found_of, first_value};
ghost use Rattle.ov_command_tree.specs.Flags.{is_flagged};

use clap::ArgMatches;
use std::alloc::{AllocError, Global};

/// Whether a flag is there.
pub fn has_flag(matches: &ArgMatches, name: &str) -> bool
    ensures { result ≡ is_flagged (first_value (found_of matches.now) name.now) }
{
    let Some(text) = matches.get_str(name) else {
        return false;
    };
    text == "true"
}

/// The text of an option, if it is there.
pub fn text_of(alloc: Global, found: &ArgMatches, name: &str) -> Result<Option<String>, AllocError>
    ensures { IfOk result
        (λ text. first_value (found_of found.now) name.now ≡ option_map string_bytes text) }
{
    let Some(text) = found.get_str(name) else {
        return Ok(None);
    };
    Ok(Some(String::from_str(alloc, text)?))
}
