ghost use Rattle.std.specs.Prelude.{◌≡◌, ◌≤◌, ◌<◌, ◌+◌, Some};
ghost use Rattle.ov_ids.specs.Limits.{number_limit};
ghost use Rattle.serde_json.specs.View.{view, items_view};
ghost use Rattle.ov_certfile.specs.Keys.{said};
ghost use Rattle.ov_certfile.specs.Kinds.{name_of};
ghost use Rattle.ov_certfile.specs.Forms.{whole_below, each_in, list_in};
ghost use Rattle.ov_certfile.specs.Code.Reading.{Reads, ReadsAt};
ghost use Rattle.ov_certfile.specs.declared.fault.FileFault.{FileFault};

use crate::fault::{BadValue, FileFault};
use crate::file_keys::Key;
use crate::value_fault::{Misfit, Step, ValueFault, Wanted};
use crate::value_writing::{write_list, write_mark, write_whole};
use ov_ids::{NUMBER_LIMIT, NodeId, Seq};
use serde_json::Value;
use std::alloc::{AllocError, Global};

/// A type whose values are in a file. `form` reads a JSON value as such a field, if the value has its form. `as_data`
/// is the value whose text is written for a field.
pub(crate) trait Field: Drop {
    ghost use Rattle.std.specs.Prelude.{◌≡◌, Option, OnOk, Some, string_bytes};
    ghost use Rattle.serde_json.specs.Data.{Data};
    ghost use Rattle.serde_json.specs.View.{view};
    ghost use Rattle.ov_certfile.specs.Code.Reading.{Reads};
    ghost use Rattle.ov_certfile.specs.Code.Writing.{WritesValue};

    ghost form: { Data → Option Self };

    ghost as_data: { Self → Data };

    /// The field that the value represents. A misfit if the value does not have the form.
    fn from_value(alloc: Global, value: &Value) -> Result<Self, ValueFault>
    where
        Self: Sized,
        ensures { Reads (λ x. x) result (form (view value.now)) };

    /// Appends the text of the field. Reading it gives the field back.
    fn write_to(&self, out: &mut String) -> Result<(), AllocError>
        ensures text { OnOk result (WritesValue (as_data self.now) (string_bytes out.old) (string_bytes out.new)) }
        ensures reads_back { OnOk result (form (as_data self.now) ≡ Some self.now) };
}

/// A whole number below a limit.
fn whole_of(value: &Value, limit: u64, wanted: Wanted) -> Result<u32, ValueFault>
    requires { limit ≤ number_limit }
    ensures { Reads (λ n. n) result (whole_below limit (view value.now)) }
{
    match value.as_u64() {
        Some(number) if number < limit => Ok(number as u32),
        _ => Err(ValueFault::Misfit(Misfit::new(wanted))),
    }
}

impl Field for NodeId {
    ghost use Rattle.ov_certfile.specs.Forms.{id_in};
    ghost use Rattle.ov_certfile.specs.DataOf.{whole_data};

    ghost form = { id_in };

    ghost as_data = { whole_data };

    fn from_value(_alloc: Global, value: &Value) -> Result<NodeId, ValueFault> {
        let number = whole_of(value, NUMBER_LIMIT, Wanted::Id)?;
        Ok(NodeId(number))
    }

    fn write_to(&self, out: &mut String) -> Result<(), AllocError> {
        write_whole(out, self.number())
    }
}

impl Field for (NodeId, NodeId) {
    ghost use Rattle.ov_certfile.specs.Forms.{link_in};
    ghost use Rattle.ov_certfile.specs.DataOf.{link_data};

    ghost form = { link_in };

    ghost as_data = { link_data };

    fn from_value(alloc: Global, value: &Value) -> Result<(NodeId, NodeId), ValueFault> {
        let ids: Vec<NodeId> = list_from(alloc, value)?;
        if ids.len() != 2 {
            return Err(ValueFault::Misfit(Misfit::new(Wanted::TwoIds)));
        }
        Ok((ids[0], ids[1]))
    }

    fn write_to(&self, out: &mut String) -> Result<(), AllocError> {
        let (low, high) = *self;
        write_mark(out, '[')?;
        low.write_to(out)?;
        write_mark(out, ',')?;
        high.write_to(out)?;
        write_mark(out, ']')?;
        Ok(())
    }
}

impl<T: Field> Field for Seq<T> {
    ghost use Rattle.ov_certfile.specs.Forms.{list_in};
    ghost use Rattle.ov_certfile.specs.DataOf.{list_data};

    ghost form = { list_in T.form };

    ghost as_data = { list_data T.as_data };

    fn from_value(alloc: Global, value: &Value) -> Result<Seq<T>, ValueFault> {
        let items = list_from(alloc, value)?;
        Ok(Seq::new(items))
    }

    fn write_to(&self, out: &mut String) -> Result<(), AllocError> {
        write_list(out, self.as_slice())
    }
}

fn list_from<T: Field>(alloc: Global, value: &Value) -> Result<Vec<T>, ValueFault>
    ensures { Reads (λ v. v.items) result (list_in T.form (view value.now)) }
{
    match value.as_array() {
        Some(values) => each_from(alloc, values.as_slice()),
        None => Err(ValueFault::Misfit(Misfit::new(Wanted::List))),
    }
}

fn each_from<T: Field>(alloc: Global, values: &[Value]) -> Result<Vec<T>, ValueFault>
    ensures { Reads (λ v. v.items) result (each_in T.form (items_view values.now)) }
{
    let mut fields = Vec::new(alloc);
    for (at, value) in values.iter().enumerate() {
        match T::from_value(alloc, value) {
            Ok(field) => fields.push(field)?,
            Err(ValueFault::Misfit(misfit)) => {
                return Err(ValueFault::Misfit(misfit.behind(Step::Item(at))));
            }
            Err(ValueFault::OutOfMemory) => return Err(ValueFault::OutOfMemory),
        }
    }
    Ok(fields)
}

/// Reads the value at a key of an object as a field.
pub(crate) fn read_in<T: Field>(alloc: Global, value: &Value, key: Key) -> Result<T, ValueFault>
    ensures { Reads (λ x. x) result (said T.form (name_of key) (view value.now)) }
{
    let Some(value) = value.get(key.name()) else {
        return Err(ValueFault::Misfit(Misfit::new(Wanted::Key(key))));
    };
    match T::from_value(alloc, value) {
        Ok(field) => Ok(field),
        Err(ValueFault::Misfit(misfit)) => {
            Err(ValueFault::Misfit(misfit.behind(Step::Key(key))))
        }
        Err(ValueFault::OutOfMemory) => Err(ValueFault::OutOfMemory),
    }
}

/// Reads the value at a key of a file as a field.
pub(crate) fn read_at<T: Field>(alloc: Global, value: &Value, key: Key) -> Result<T, FileFault>
    ensures { ReadsAt key (λ x. x) result (said T.form (name_of key) (view value.now)) }
{
    let Some(value) = value.get(key.name()) else {
        return Err(bad_at(key, Misfit::new(Wanted::Key(key))));
    };
    match T::from_value(alloc, value) {
        Ok(field) => Ok(field),
        Err(ValueFault::Misfit(misfit)) => Err(bad_at(key, misfit)),
        Err(ValueFault::OutOfMemory) => Err(FileFault::OutOfMemory),
    }
}

/// Reads the value at a key of a file as a whole number up to this one.
pub(crate) fn whole_at(value: &Value, key: Key, last: u64) -> Result<u32, FileFault>
    requires { last < number_limit }
    ensures { ReadsAt key (λ n. n) result (said (whole_below (last + 1)) (name_of key) (view value.now)) }
{
    let Some(value) = value.get(key.name()) else {
        return Err(bad_at(key, Misfit::new(Wanted::Key(key))));
    };
    match whole_of(value, last + 1, Wanted::UpTo(last)) {
        Ok(number) => Ok(number),
        Err(ValueFault::Misfit(misfit)) => Err(bad_at(key, misfit)),
        Err(ValueFault::OutOfMemory) => Err(FileFault::OutOfMemory),
    }
}

/// The fault of a file that breaks the form of a key.
fn bad_at(key: Key, misfit: Misfit) -> FileFault
    ensures { result ≡ FileFault.BadValue (record { key = Some key; misfit = misfit }) }
{
    let key = Some(key);
    FileFault::BadValue(BadValue { key, misfit })
}
