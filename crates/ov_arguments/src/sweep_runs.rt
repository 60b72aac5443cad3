ghost use Rattle.std.specs.Prelude.{◌-◌};
ghost use Rattle.std.specs.Iterator.{at_most};

use crate::SweepRequest;
use ov_grow_options::GrowOptions;

/// The options of runs of a sweep that are still to come, setting after setting, and seed after seed.
#[derive(Drop)]
pub struct SweepRuns<'a> {
    sweep: &'a SweepRequest,
    place: u64,
    end: u64,
}

impl<'a> SweepRuns<'a> {
    /// All runs.
    pub(crate) fn new(sweep: &'a SweepRequest) -> SweepRuns<'a> {
        SweepRuns {
            sweep,
            place: 0,
            end: sweep.len(),
        }
    }
}

impl Iterator for SweepRuns<'_> {
    type Item = GrowOptions;

    ghost remaining = { λ s. at_most (s.end - s.place) };

    fn next(&mut self) -> Option<GrowOptions> {
        if self.place >= self.end {
            return None;
        }
        let place = self.place;
        self.place = place.saturating_add(1);
        self.sweep.get(place)
    }
}
