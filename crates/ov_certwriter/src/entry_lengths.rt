//! How many ids the paths of entries have together.
ghost use Rattle.std.specs.Prelude.{◌≡◌, ◌-◌, ◌^◌, length, min};
ghost use Rattle.std.specs.List.{All, sum_by};
ghost use Rattle.ov_certwriter.specs.Length.{ids_on};

use crate::entry_texts::Entry;

/// How many ids the paths of these entries have together, of which each has so many paths; at most the largest number.
pub(crate) fn ids_of<T: Entry>(entries: &[T], paths: u64) -> u64
    requires { All (λ e. length (T.paths_of e) ≡ paths) entries.now }
    ensures { result ≡ min (sum_by (λ e. ids_on (T.paths_of e)) entries.now) (2 ^ 64 - 1) }
{
    let mut ids = 0u64;
    for entry in entries {
        ids = ids.saturating_add(entry.ids(paths));
    }
    ids
}
