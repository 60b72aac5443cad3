ghost use Rattle.std.specs.Prelude.{◌≡◌, is_none, OnOk, Some, string_bytes};
ghost use Rattle.serde_json.specs.View.{view};
ghost use Rattle.ov_certfile.specs.Keys.{has_just};
ghost use Rattle.ov_certfile.specs.Kinds.{names_of};
ghost use Rattle.ov_certfile.specs.Forms.{pair_in, fan_in};
ghost use Rattle.ov_certfile.specs.DataOf.{pair_data, fan_data};
ghost use Rattle.ov_certfile.specs.Code.Writing.{WritesValue};

use crate::field_reading_and_writing::{Field, read_in};
use crate::file_keys::Key;
use crate::json_member_writing::write_field;
use crate::missing_and_unknown_keys::{first_missing, first_other};
use crate::value_fault::{Misfit, ValueFault, Wanted};
use crate::value_writing::write_mark;
use ov_cert::{FanPaths, PairPaths};
use serde_json::Value;
use std::alloc::{AllocError, Global};

/// The keys of a pair.
pub const PAIR_KEYS: &[Key] = &[Key::I, Key::J, Key::Paths];

/// The keys of a fan.
pub const FAN_KEYS: &[Key] = &[Key::J, Key::Paths];

/// What is wanted of a value that is no object with exactly these keys.
#[tactic(auto, using(crate::proofs::OtherKeys::all_there))]
fn wanted_keys(keys: &[Key], value: &Value) -> Option<Wanted>
    ensures { is_none result ≡ has_just (names_of keys.now) (view value.now) }
{
    if let Some(key) = first_missing(keys, value) {
        return Some(if value.is_object() {
            Wanted::Key(key)
        } else {
            Wanted::Object
        });
    }
    let at = first_other(keys, value)?;
    Some(Wanted::NoOther(at))
}

impl Field for PairPaths {
    ghost use Rattle.ov_certfile.specs.Forms.{pair_in};
    ghost use Rattle.ov_certfile.specs.DataOf.{pair_data};

    ghost form = { pair_in };

    ghost as_data = { pair_data };

    #[tactic(auto, unfolding(crate::specs::Forms::pair_in))]
    fn from_value(alloc: Global, value: &Value) -> Result<PairPaths, ValueFault> {
        if let Some(wanted) = wanted_keys(PAIR_KEYS, value) {
            return Err(ValueFault::Misfit(Misfit::new(wanted)));
        }
        let i = read_in(alloc, value, Key::I)?;
        let j = read_in(alloc, value, Key::J)?;
        let paths = read_in(alloc, value, Key::Paths)?;
        Ok(PairPaths { i, j, paths })
    }

    fn write_to(&self, out: &mut String) -> Result<(), AllocError> {
        write_pair(out, self)
    }
}

impl Field for FanPaths {
    ghost use Rattle.ov_certfile.specs.Forms.{fan_in};
    ghost use Rattle.ov_certfile.specs.DataOf.{fan_data};

    ghost form = { fan_in };

    ghost as_data = { fan_data };

    #[tactic(auto, unfolding(crate::specs::Forms::fan_in))]
    fn from_value(alloc: Global, value: &Value) -> Result<FanPaths, ValueFault> {
        if let Some(wanted) = wanted_keys(FAN_KEYS, value) {
            return Err(ValueFault::Misfit(Misfit::new(wanted)));
        }
        let j = read_in(alloc, value, Key::J)?;
        let paths = read_in(alloc, value, Key::Paths)?;
        Ok(FanPaths { j, paths })
    }

    fn write_to(&self, out: &mut String) -> Result<(), AllocError> {
        write_fan(out, self)
    }
}

/// Appends the entry of a pair.
#[tactic(auto, using(crate::proofs::Back::pair_back))]
fn write_pair(out: &mut String, entry: &PairPaths) -> Result<(), AllocError>
    ensures text { OnOk result (WritesValue (pair_data entry.now) (string_bytes out.old) (string_bytes out.new)) }
    ensures reads_back { OnOk result (pair_in (pair_data entry.now) ≡ Some entry.now) }
{
    write_mark(out, '{')?;
    write_field(out, false, Key::I, &entry.i)?;
    write_field(out, true, Key::J, &entry.j)?;
    write_field(out, true, Key::Paths, &entry.paths)?;
    write_mark(out, '}')?;
    Ok(())
}

/// Appends the entry of a fan.
#[tactic(auto, using(crate::proofs::Back::fan_back))]
fn write_fan(out: &mut String, entry: &FanPaths) -> Result<(), AllocError>
    ensures text { OnOk result (WritesValue (fan_data entry.now) (string_bytes out.old) (string_bytes out.new)) }
    ensures reads_back { OnOk result (fan_in (fan_data entry.now) ≡ Some entry.now) }
{
    write_mark(out, '{')?;
    write_field(out, false, Key::J, &entry.j)?;
    write_field(out, true, Key::Paths, &entry.paths)?;
    write_mark(out, '}')?;
    Ok(())
}
