//! How large a graph may be, by whether `--large` asks for a large one.
ghost use Rattle.std.specs.Prelude.{◌≡◌};
ghost use Rattle.ov_commands.specs.Sizes.{limit_of, newest_of};

use ov_certfile::Version;
use ov_graph::SizeLimit;

/// How many nodes a graph may have.
pub(crate) fn limit_of(large: bool) -> SizeLimit
    ensures { result ≡ limit_of large }
{
    match large {
        true => SizeLimit::Large,
        false => SizeLimit::Usual,
    }
}

/// The newest version of certificate files that is read.
pub(crate) fn newest_of(large: bool) -> Version
    ensures { result ≡ newest_of large }
{
    match large {
        true => Version::Three,
        false => Version::Two,
    }
}
