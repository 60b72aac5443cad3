//! The paths of an entry. They are read id by id, and written path by path.
ghost use Rattle.std.specs.Prelude.{◌≡◌, ◌++◌, [], ◌∷◌, OnOk, Some, option_map, string_bytes};
ghost use Rattle.serde_json.specs.View.{view, items_view};
ghost use Rattle.ov_certfile.specs.Forms.{id_in, ids_in, paths_in, each_in};
ghost use Rattle.ov_certfile.specs.DataOf.{paths_data};
ghost use Rattle.ov_certfile.specs.Code.Reading.{Reads};
ghost use Rattle.ov_certfile.specs.Code.Writing.{WritesValue};

use crate::field_reading_and_writing::Field;
use crate::value_fault::{Misfit, Step, ValueFault, Wanted};
use crate::value_writing::{write_comma, write_list, write_mark};
use ov_cert::Paths;
use ov_ids::NodeId;
use ov_lists::PathsBuilder;
use serde_json::Value;
use std::alloc::{AllocError, Global};

impl Field for Paths {
    ghost use Rattle.ov_certfile.specs.Forms.{paths_in};
    ghost use Rattle.ov_certfile.specs.DataOf.{paths_data};

    ghost form = { paths_in };

    ghost as_data = { paths_data };

    fn from_value(alloc: Global, value: &Value) -> Result<Paths, ValueFault> {
        match value.as_array() {
            Some(values) => each_path(alloc, values.as_slice()),
            None => Err(ValueFault::Misfit(Misfit::new(Wanted::List))),
        }
    }

    fn write_to(&self, out: &mut String) -> Result<(), AllocError> {
        write_paths(out, self)
    }
}

/// Reads paths.
fn each_path(alloc: Global, values: &[Value]) -> Result<Paths, ValueFault>
    ensures { Reads (λ paths. paths) result (each_in ids_in (items_view values.now)) }
{
    let mut paths = PathsBuilder::with_capacity(alloc, values.len(), 0)?;
    for (at, value) in values.iter().enumerate() {
        match push_path(alloc, &mut paths, value) {
            Ok(()) => {}
            Err(ValueFault::Misfit(misfit)) => {
                return Err(ValueFault::Misfit(misfit.behind(Step::Item(at))));
            }
            Err(ValueFault::OutOfMemory) => return Err(ValueFault::OutOfMemory),
        }
    }
    Ok(paths.finish())
}

/// Reads a path, and appends it to the paths. None may be begun.
fn push_path(alloc: Global, paths: &mut PathsBuilder, value: &Value) -> Result<(), ValueFault>
    requires { paths.old.begun ≡ [] }
    ensures read { Reads (λ _. paths.new.paths) result
        (option_map (λ ids. paths.old.paths ++ ids ∷ []) (ids_in (view value.now))) }
    ensures ended { OnOk result (paths.new.begun ≡ []) }
{
    let Some(values) = value.as_array() else {
        return Err(ValueFault::Misfit(Misfit::new(Wanted::List)));
    };
    push_ids(alloc, paths, values.as_slice())?;
    paths.end_path()?;
    Ok(())
}

/// Reads ids, and appends them to the path that is begun. It may have none yet.
fn push_ids(alloc: Global, paths: &mut PathsBuilder, values: &[Value]) -> Result<(), ValueFault>
    requires { paths.old.begun ≡ [] }
    ensures read { Reads (λ _. paths.new.begun) result (each_in id_in (items_view values.now)) }
    ensures paths { OnOk result (paths.new.paths ≡ paths.old.paths) }
{
    for (at, value) in values.iter().enumerate() {
        match NodeId::from_value(alloc, value) {
            Ok(id) => paths.push_id(id)?,
            Err(ValueFault::Misfit(misfit)) => {
                return Err(ValueFault::Misfit(misfit.behind(Step::Item(at))));
            }
            Err(ValueFault::OutOfMemory) => return Err(ValueFault::OutOfMemory),
        }
    }
    Ok(())
}

/// Appends the array of these paths.
fn write_paths(out: &mut String, paths: &Paths) -> Result<(), AllocError>
    ensures text { OnOk result (WritesValue (paths_data paths.now) (string_bytes out.old) (string_bytes out.new)) }
    ensures reads_back { OnOk result (paths_in (paths_data paths.now) ≡ Some paths.now) }
{
    write_mark(out, '[')?;
    let mut later = false;
    for path in paths.iter() {
        write_comma(out, later)?;
        write_list(out, path)?;
        later = true;
    }
    write_mark(out, ']')?;
    Ok(())
}
