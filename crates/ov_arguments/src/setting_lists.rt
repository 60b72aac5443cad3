ghost use Rattle.std.specs.Prelude.{◌≡◌, IfSome};

use ov_command_tree::growing_options;
use ov_grow_options::{GrowOptions, OPTION_COUNT, OptionValue, OptionValues};

/// The further options, whose columns rows have if one of them is asked for.
const FURTHER: [&str; 3] = ["sequential", "sender", "detect"];

/// The values of each option in a sweep. Every combination of them is one setting; the value of the first option varies
/// slowest.
#[derive(Drop)]
pub(crate) struct SettingLists {
    /// For each option of growing, in the order of their table, its values.
    pub(crate) lists: Vec<Vec<OptionValue>>,
}

impl SettingLists {
    /// How many settings there are, 2 to the power of 64 - 1 if there are more.
    pub(crate) fn len(&self) -> u64 {
        let mut number: u64 = 1;
        for list in &self.lists {
            number = number.saturating_mul(list.len() as u64);
        }
        number
    }

    /// The values of the option of this name.
    pub(crate) fn list(&self, name: &str) -> &[OptionValue] {
        for (option, list) in growing_options().iter().zip(&self.lists) {
            if option.name == name {
                return list.as_slice();
            }
        }
        &[]
    }

    /// Whether one of the further options is asked for: --sequential, --sender or --detect.
    pub(crate) fn asks_further(&self) -> bool {
        for name in FURTHER {
            for value in self.list(name) {
                if matches!(value, OptionValue::Number(_) | OptionValue::Given(true)) {
                    return true;
                }
            }
        }
        false
    }

    /// The setting at a place, counted from 0, with this seed. None is returned behind the last one.
    pub(crate) fn get(&self, place: u64, seed: u64) -> Option<GrowOptions>
        ensures seed { IfSome result (λ options. options.seed ≡ seed) }
    {
        if place >= self.len() {
            return None;
        }
        self.values_at(place)?.options(seed)
    }

    /// The values of the setting at a place: the last option takes the first part of it.
    fn values_at(&self, place: u64) -> Option<OptionValues> {
        let mut values = [OptionValue::Given(false); OPTION_COUNT];
        let mut place = place;
        for behind in 0..OPTION_COUNT {
            let at = OPTION_COUNT - 1 - behind;
            let list = self.lists.get(at)?;
            let number = (list.len() as u64).max(1);
            values[at] = *list.get((place % number) as usize)?;
            place /= number;
        }
        Some(OptionValues(values))
    }
}
