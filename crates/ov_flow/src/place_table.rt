ghost use Rattle.std.specs.Prelude.{◌≡◌, ◌<◌, ◌≤◌, ℕ, length, set, Some, None, IfOk};
ghost use Rattle.ov_split.specs.Code.Residual.{IsUsed};
ghost use Rattle.ov_flow.specs.Code.Reached.{tip_of};
ghost use Rattle.ov_flow.specs.Code.Walked.{table_of};
ghost use Rattle.ov_flow.specs.Code.Stamped.{AreStamped};

use std::alloc::{AllocError, Global};
use std::marker::Model;

/// The place before a place on its path. It counts if its stamp is that of the table.
#[derive(Clone, Copy)]
pub(crate) struct Cell {
    stamp: u16,
    before: u16,
}

/// The cell that never counts.
const BLANK: Cell = Cell {
    stamp: 0,
    before: 0,
};

/// For each place the place before it on its path, if it is on one. A change of the stamp forgets all at once. Contracts
/// see a list.
#[derive(Drop)]
pub(crate) struct PlaceTable {
    stamp: u16,
    cells: Vec<Cell>,
}

impl Model for PlaceTable {
    ghost use Rattle.std.specs.Prelude.{◌<◌, List, ℕ, Option, map};

    ghost Value = { List (Option ℕ) };

    ghost use Rattle.ov_flow.specs.Code.Stamped.{said_by, AreStamped};

    ghost view = { λ t. map (said_by t.stamp) t.cells.items };

    ghost invariant = { λ t. (0 < t.stamp) × AreStamped t.stamp t.cells.items };
}

impl PlaceTable {
    /// A table of this many places, of which none is on a path.
    pub(crate) fn new(alloc: Global, places: usize) -> Result<PlaceTable, AllocError>
        ensures long { IfOk result (λ t. length t ≡ places) }
        ensures empty { IfOk result (λ t. (v : ℕ) → table_of t v ≡ None) }
    {
        Ok(PlaceTable {
            stamp: 1,
            cells: blank_cells(alloc, places)?,
        })
    }

    /// How many places it has.
    pub(crate) fn len(&self) -> usize
        ensures { result ≡ length self.now }
    {
        self.cells.len()
    }

    /// The place before `place` on its path.
    #[inline(always)]
    pub(crate) fn get(&self, place: usize) -> Option<u16>
        requires { place < length self.now }
        ensures { result ≡ table_of self.now place }
    {
        let cell = self.cells[place];
        if cell.stamp != self.stamp {
            return None;
        }
        Some(cell.before)
    }

    /// The place before a place that is on a path. No stamp is looked at.
    #[inline(always)]
    pub(crate) fn before(&self, place: usize) -> u16
        requires { IsUsed (table_of self.now) place }
        ensures { table_of self.now place ≡ Some result }
    {
        self.cells[place].before
    }

    /// How many places are on paths. All of the table is gone through.
    pub(crate) fn used(&self) -> usize
        ensures { result ≤ length self.now }
    {
        count_stamped(&self.cells, self.stamp)
    }

    /// The open end after a link to `w` is taken.
    #[inline(always)]
    pub(crate) fn tip(&self, w: u16) -> u16
        requires { w < length self.now }
        ensures { result ≡ tip_of (table_of self.now) w }
    {
        let cell = self.cells[w as usize];
        if cell.stamp != self.stamp {
            return w;
        }
        cell.before
    }

    /// Puts `place` on a path, behind `before`.
    #[inline(always)]
    pub(crate) fn set(&mut self, place: usize, before: u16)
        requires { place < length self.old }
        ensures { self.new ≡ set self.old place (Some before) }
    {
        self.cells[place] = Cell {
            stamp: self.stamp,
            before,
        };
    }

    /// Takes `place` off its path.
    pub(crate) fn forget(&mut self, place: usize)
        requires { place < length self.old }
        ensures { self.new ≡ set self.old place None }
    {
        self.cells[place] = BLANK;
    }

    /// Takes all places off their paths. The time does not depend on how many places there are, but for one of 65,535
    /// calls, which goes through all of them.
    pub(crate) fn clear(&mut self)
        ensures long { length self.new ≡ length self.old }
        ensures empty { (v : ℕ) → table_of self.new v ≡ None }
    {
        if self.stamp == u16::MAX {
            wipe(&mut self.cells);
            self.stamp = 0;
        }
        self.stamp += 1;
    }
}

/// This many cells that never count.
fn blank_cells(alloc: Global, places: usize) -> Result<Vec<Cell>, AllocError>
    ensures long { IfOk result (λ cs. length cs.items ≡ places) }
    ensures blank { IfOk result (λ cs. AreStamped 0 cs.items) }
{
    let mut cells = Vec::with_capacity(alloc, places)?;
    for place in 0..places {
        cells.push(BLANK)?;
    }
    Ok(cells)
}

/// How many cells have this stamp.
fn count_stamped(cells: &[Cell], stamp: u16) -> usize
    ensures { result ≤ length cells.now }
{
    let mut count = 0;
    for cell in cells.iter() {
        if cell.stamp == stamp {
            count += 1;
        }
    }
    count
}

/// Lets no cell count any more, whatever the stamp of the table will be.
fn wipe(cells: &mut [Cell])
    ensures { AreStamped 0 cells.new }
{
    for i in 0..cells.len() {
        cells[i] = BLANK;
    }
}
