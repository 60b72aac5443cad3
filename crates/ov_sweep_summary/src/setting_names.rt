ghost use Rattle.std.specs.Prelude.{◌≡◌, [], get_or};
ghost use Rattle.ov_grow_options.specs.CommandLine.{setting_names};

use ov_grow_options::{OPTION_COUNT, growing_options};

/// An option that a setting may differ in: its name as it is typed, the unit of its values, if they have one, and
/// whether it is typed with a value.
#[derive(Clone, Copy)]
pub struct SettingName {
    pub name: &'static str,
    pub unit: &'static str,
    pub takes: bool,
}

/// How many options a setting has: all but the seed and `--crash-cut`.
pub(crate) const OPTIONS: usize = OPTION_COUNT - 2;

/// The option of a setting at a place among its columns, which are in the order of the options' table; one without a
/// name behind the last.
pub fn setting_name(place: usize) -> SettingName
    ensures { result.name.now ≡ get_or setting_names place [] }
{
    let rows = growing_options();
    let mut left = place;
    for row in rows {
        if row.is_of_setting() {
            if left == 0 {
                return SettingName {
                    name: row.name,
                    unit: row.counted(),
                    takes: !row.takes_nothing(),
                };
            }
            left -= 1;
        }
    }
    SettingName {
        name: "",
        unit: "",
        takes: false,
    }
}
