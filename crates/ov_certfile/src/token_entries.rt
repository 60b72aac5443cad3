//! The entries of a certificate, taken off the tokens of a text.
ghost use Rattle.std.specs.Prelude.{◌≡◌, [], OnOk, IfOk, Some};
ghost use Rattle.ov_certfile.specs.Forms.{ids_in, paths_in};
ghost use Rattle.ov_certfile.specs.DataOf.{ids_data, paths_data};
ghost use Rattle.ov_certfile.specs.Code.Tokens.{TakesValue, TakesPath};

use crate::file_keys::Key;
use crate::token_fields::{TokenField, take_member};
use crate::token_stop::Stop;
use ov_cert::{FanPaths, PairPaths, Paths};
use ov_ids::NodeId;
use ov_lists::PathsBuilder;
use ov_tokens::TokenCursor;
use std::alloc::Global;

impl TokenField for PairPaths {
    #[tactic(auto, using(crate::proofs::Back::pair_back))]
    fn take(alloc: Global, cursor: &mut TokenCursor<'_>) -> Result<PairPaths, Stop> {
        cursor.begin_object()?;
        let i = take_member(alloc, cursor, Key::I)?;
        let j = take_member(alloc, cursor, Key::J)?;
        let paths = take_member(alloc, cursor, Key::Paths)?;
        cursor.end_object()?;
        Ok(PairPaths { i, j, paths })
    }
}

impl TokenField for FanPaths {
    #[tactic(auto, using(crate::proofs::Back::fan_back))]
    fn take(alloc: Global, cursor: &mut TokenCursor<'_>) -> Result<FanPaths, Stop> {
        cursor.begin_object()?;
        let j = take_member(alloc, cursor, Key::J)?;
        let paths = take_member(alloc, cursor, Key::Paths)?;
        cursor.end_object()?;
        Ok(FanPaths { j, paths })
    }
}

impl TokenField for Paths {
    fn take(alloc: Global, cursor: &mut TokenCursor<'_>) -> Result<Paths, Stop> {
        take_paths(alloc, cursor)
    }
}

/// Takes the array of some paths.
fn take_paths(alloc: Global, cursor: &mut TokenCursor<'_>) -> Result<Paths, Stop>
    ensures taken { IfOk result (λ ps. TakesValue (paths_data ps) cursor.old cursor.new) }
    ensures reads_back { IfOk result (λ ps. paths_in (paths_data ps) ≡ Some ps) }
{
    let (count, ids) = cursor.sizes_ahead();
    let mut paths = PathsBuilder::with_capacity(alloc, count, ids)?;
    cursor.begin_array()?;
    'paths: while !cursor.end_array() {
        take_path(alloc, cursor, &mut paths)?;
    }
    Ok(paths.finish())
}

/// Takes a path, and appends it to the paths. None may be begun.
fn take_path(
    alloc: Global,
    cursor: &mut TokenCursor<'_>,
    paths: &mut PathsBuilder,
) -> Result<(), Stop>
    requires { paths.old.begun ≡ [] }
    ensures path { OnOk result (TakesPath paths.old.paths paths.new.paths cursor.old cursor.new) }
    ensures ended { OnOk result (paths.new.begun ≡ []) }
{
    take_ids(alloc, cursor, paths)?;
    paths.end_path()?;
    Ok(())
}

/// Takes the array of some ids, and appends them to the path that is begun. It may have none yet.
fn take_ids(
    alloc: Global,
    cursor: &mut TokenCursor<'_>,
    paths: &mut PathsBuilder,
) -> Result<(), Stop>
    requires { paths.old.begun ≡ [] }
    ensures taken { OnOk result (TakesValue (ids_data paths.new.begun) cursor.old cursor.new) }
    ensures reads_back { OnOk result (ids_in (ids_data paths.new.begun) ≡ Some paths.new.begun) }
    ensures paths { OnOk result (paths.new.paths ≡ paths.old.paths) }
{
    cursor.begin_array()?;
    'ids: while !cursor.end_array() {
        let id = NodeId::take(alloc, cursor)?;
        paths.push_id(id)?;
    }
    Ok(())
}
