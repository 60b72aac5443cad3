ghost use Rattle.std.specs.Prelude.{◌≡◌, ◌<◌, [], ◌∷◌, ◌++◌, length, IfOk, IfErr};
ghost use Rattle.ov_hall.specs.Passes.{first_seen, seen_alike};
ghost use Rattle.ov_hall.specs.Code.Rules.{first_of};

use crate::ghost_log_rule::{Apart, Count, HallName, Place, Together};
use std::alloc::Global;
use std::marker::{Model, PhantomData};

/// A seat that stands for some drivers. Contracts see what each has seen.
#[derive(Drop)]
pub struct Stand<N: HallName> {
    pub(crate) place: Place,
    pub(crate) of: PhantomData<N>,
}

impl<N: HallName> Model for Stand<N> {
    ghost use Rattle.std.specs.Prelude.{◌≡◌, List, []};
    ghost use Rattle.ov_snap.specs.declared.ghost_log_of_drivers.Ticket.{Ticket};
    ghost use Rattle.ov_hall.specs.Passes.{AreOfHall};
    ghost use Rattle.ov_hall.specs.Code.Codes.{tickets_code};
    ghost use Rattle.ov_hall.specs.Code.Rules.{standing};

    ghost Value = { List Ticket };

    ghost coded = { tickets_code };

    ghost view = { λ s. s.place.me.0.tickets };

    ghost invariant = { λ s. (s.place.table_id ≡ N.table) × (s.place.me ≡ (standing s.place.me.0.tickets, []))
        × AreOfHall N.params N.drivers s.place.me.0.tickets };
}

impl<N: HallName> Stand<N> {
    /// The first of the drivers. The others stay.
    fn first(&mut self, count: &Count) -> Stand<N>
        requires count { (count.now.table_id ≡ N.table) × (0 < count.now.table_id.words) }
        requires some { 0 < length self.old }
        ensures all { self.old ≡ first_of result ∷ self.new }
        ensures one { result ≡ first_of result ∷ [] }
    {
        Stand {
            place: count.split_seat::<Apart>(&mut self.place),
            of: PhantomData,
        }
    }

    /// The drivers of another seat come too.
    pub(crate) fn join(&mut self, count: &Count, other: Stand<N>)
        requires count { (count.now.table_id ≡ N.table) × (0 < count.now.table_id.words) }
        ensures { self.new ≡ self.old ++ other }
    {
        let Stand { place, of: _ } = other;
        count.join_seat::<Together>(&mut self.place, place);
    }

    /// The drivers of these passes come too.
    pub(crate) fn join_all(mut self, count: &Count, passes: Vec<Pass<N>>) -> Stand<N>
        requires count { (count.now.table_id ≡ N.table) × (0 < count.now.table_id.words) }
        ensures { result ≡ self ++ passes.items }
    {
        for pass in passes {
            let Pass {
                driver: _,
                stand: one,
            } = pass;
            self.join(count, one);
        }
        self
    }

    /// A pass for each driver. Out of memory gives the seat back.
    pub(crate) fn part(
        mut self,
        alloc: Global,
        count: &Count,
        drivers: u64,
    ) -> Result<Vec<Pass<N>>, Stand<N>>
        requires count { (count.now.table_id ≡ N.table) × (0 < count.now.table_id.words) }
        requires alike { self ≡ seen_alike 0 drivers (first_seen self) }
        ensures passes { IfOk result (λ v. v.items ≡ self) }
        ensures err { IfErr result (λ s. s ≡ self) }
    {
        let Ok(mut passes) = Vec::with_capacity(alloc, drivers as usize) else {
            return Err(self);
        };
        for driver in 0..drivers {
            let stand = self.first(count);
            passes.push_reserved(Pass { driver, stand });
        }
        Ok(passes)
    }
}

/// The pass of a driver. Contracts see the driver, and the log that it has seen.
#[derive(Drop)]
pub struct Pass<N: HallName> {
    pub(crate) driver: u64,
    pub(crate) stand: Stand<N>,
}

impl<N: HallName> Model for Pass<N> {
    ghost use Rattle.std.specs.Prelude.{◌≡◌, [], ◌∷◌};
    ghost use Rattle.ov_snap.specs.declared.ghost_log_of_drivers.Ticket.{Ticket};
    ghost use Rattle.ov_snap.specs.DriverSteps.{ticket};
    ghost use Rattle.ov_hall.specs.Code.Codes.{ticket_code};
    ghost use Rattle.ov_hall.specs.Code.Rules.{first_of};

    ghost Value = { Ticket };

    ghost coded = { ticket_code };

    ghost view = { λ p. first_of p.stand };

    ghost invariant = { λ p. p.stand ≡ ticket p.driver (first_of p.stand).seen ∷ [] };
}

impl<N: HallName> Pass<N> {
    /// The driver's number, from 0.
    pub fn driver(&self) -> u64
        ensures { result ≡ self.now.driver }
    {
        self.driver
    }
}
