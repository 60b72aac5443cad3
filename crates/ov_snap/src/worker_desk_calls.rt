ghost use Rattle.std.specs.Prelude.{◌≡◌, ◌<◌, [], ◌∷◌, ◌++◌, length, Some, None};
ghost use Rattle.std.specs.Prelude.{IfOk, IfErr, IfSome, IfNone, OnOk, OnErr};
ghost use Rattle.ov_ids.specs.Members.{Has, Ordered};
ghost use Rattle.ov_ids.specs.FaultOrder.{IsRefusedBy, Passed};
ghost use Rattle.ov_graph.specs.Links.{LinkGraph};
ghost use Rattle.ov_cert.specs.Valid.{IsValidForGroup};
ghost use Rattle.ov_net.specs.Journal.{AreLinks};
ghost use Rattle.ov_ids.specs.Workers.{MayWork};
ghost use Rattle.ov_board.specs.Theorems.{AllEnded};
ghost use Rattle.ov_even.specs.Answer.{IsAnswer};
ghost use Rattle.ov_even.specs.Desk.{GroupDeskState, IsOpened};
ghost use Rattle.ov_even.specs.SoundDesk.{IsSoundDesk};
ghost use Rattle.ov_even.specs.Turns.{ClaimsNext, IsWorkerOf, LooksNext, SettlesNext, WasSettled};
ghost use Rattle.ov_snap.specs.CoreState.{HasDesk, IsDeskOf, most_desks};
ghost use Rattle.ov_snap.specs.DeskSteps.{WasOpened, WasOpenedForGroup, ClaimedAt, LookedAt, SettledAt, DeskWasFiled};
ghost use Rattle.ov_snap.specs.Refusals.{OpeningJudged, GroupOpeningJudged, TurnJudged, DeskFilingJudged};
ghost use Rattle.ov_snap.specs.Refusals.{FilingJudged, HoldsAt, WorkersJudged, WorkerThen};
ghost use Rattle.ov_snap.specs.Snapshots.{WasBefore};
ghost use Rattle.ov_snap.specs.declared.refused_core_call.CoreFault.TheVariants as fault;
ghost use Rattle.ov_snap.specs.declared.kept_snapshots.Snapshot.{Snapshot as Kept};

use crate::analysis_report::Report;
use crate::kept_snapshots::{Snapshot, find};
use crate::refused_core_call::CoreFault;
use crate::snapshot_core::Core;
use ov_even::GroupDesk;
use ov_ids::{NodeId, OutOfMemory, Workers};
use std::alloc::Global;

/// The most desks that a core may have. Chosen here.
const MOST_DESKS: usize = 65_536;

impl Core {
    /// Opens a desk at which this many workers share out the analysis of all nodes of this moment. Returns the desk's
    /// number; desks are counted from 0. It is refused if no snapshot was taken at this moment (50), then if nobody
    /// lived (30), then if there are 65,536 desks (58), and then if the workers are not 1 to 64 (57); if none of these
    /// applies, it may be out of memory (99). What is refused changes nothing.
    pub fn open_desk(&mut self, moment: u32, workers: u32) -> Result<u32, CoreFault>
        ensures opened { IfOk result (λ place. WasOpened self.old moment workers place self.new) }
        ensures refused { IfErr result (IsRefusedBy fault.OutOfMemory (OpeningJudged self.old moment workers)) }
        ensures err { OnErr result (self.new ≡ self.old) }
    {
        let desk = self.new_desk(moment, workers)?;
        Ok(self.keep_desk(desk)?)
    }

    /// Opens a desk as `open_desk` does, for a group of the nodes of this moment. It is refused if no snapshot was
    /// taken at this moment (50), then if nobody lived (30), then if these ids are no group of the moment's graph (34),
    /// then if there are 65,536 desks (58), and then if the workers are not 1 to 64 (57); if none of these applies, it
    /// may be out of memory (99). What is refused changes nothing.
    pub fn open_group_desk(
        &mut self,
        moment: u32,
        group: Vec<NodeId>,
        workers: u32,
    ) -> Result<u32, CoreFault>
        ensures opened { IfOk result (λ place. WasOpenedForGroup self.old moment group.items workers place self.new) }
        ensures refused { IfErr result
            (IsRefusedBy fault.OutOfMemory (GroupOpeningJudged self.old moment group.items workers)) }
        ensures err { OnErr result (self.new ≡ self.old) }
    {
        let desk = self.new_group_desk(moment, group, workers)?;
        Ok(self.keep_desk(desk)?)
    }

    /// Makes the desk that `open_desk` opens.
    fn new_desk(&self, moment: u32, workers: u32) -> Result<GroupDesk, CoreFault>
        ensures judged { IfOk result (λ d. OpeningJudged self.now moment workers None) }
        ensures opened { IfOk result (λ d. (g : LinkGraph) × AreLinks self.now.world.journal moment g
            × IsOpened g moment g.nodes workers d) }
        ensures own { IfOk result (λ d. IsDeskOf self.now.world.journal d) }
        ensures room { IfOk result (λ d. length self.now.desks < most_desks) }
        ensures refused { IfErr result (IsRefusedBy fault.OutOfMemory (OpeningJudged self.now moment workers)) }
    {
        let snapshot = self.lived(moment)?;
        let workers = self.judge_workers(workers)?;
        let alloc = *self.desks.allocator();
        let group = copied(alloc, snapshot.graph.nodes())?;
        Ok(GroupDesk::open(alloc, moment, &snapshot.graph, group, workers)?)
    }

    /// Makes the desk that `open_group_desk` opens.
    fn new_group_desk(
        &self,
        moment: u32,
        group: Vec<NodeId>,
        workers: u32,
    ) -> Result<GroupDesk, CoreFault>
        ensures judged { IfOk result (λ d. GroupOpeningJudged self.now moment group.items workers None) }
        ensures opened { IfOk result (λ d. (g : LinkGraph) × AreLinks self.now.world.journal moment g
            × IsOpened g moment group.items workers d) }
        ensures own { IfOk result (λ d. IsDeskOf self.now.world.journal d) }
        ensures room { IfOk result (λ d. length self.now.desks < most_desks) }
        ensures refused { IfErr result
            (IsRefusedBy fault.OutOfMemory (GroupOpeningJudged self.now moment group.items workers)) }
    {
        let snapshot = self.lived(moment)?;
        if !snapshot.graph.is_group(&group) {
            return Err(CoreFault::BadGroup);
        }
        let workers = self.judge_workers(workers)?;
        let alloc = *self.desks.allocator();
        Ok(GroupDesk::open(alloc, moment, &snapshot.graph, group, workers)?)
    }

    /// The number of workers for one more desk, or the first applicable refusal of them.
    fn judge_workers(&self, workers: u32) -> Result<Workers, CoreFault>
        ensures ok { OnOk result ((length self.now.desks < most_desks) × MayWork workers) }
        ensures same { IfOk result (λ w. w ≡ workers) }
        ensures err { IfErr result (λ f. WorkersJudged self.now workers (Some f)) }
    {
        if self.desks.len() >= MOST_DESKS {
            return Err(CoreFault::TooManyDesks);
        }
        match Workers::new(workers) {
            Some(workers) => Ok(workers),
            None => Err(CoreFault::NoSuchWorker),
        }
    }

    /// Appends a desk. Returns its number.
    fn keep_desk(&mut self, desk: GroupDesk) -> Result<u32, OutOfMemory>
        requires room { length self.old.desks < most_desks }
        requires own { IsDeskOf self.old.world.journal desk }
        ensures place { IfOk result (λ place. place ≡ length self.old.desks) }
        ensures desks { OnOk result (self.new ≡ record self.old { desks = self.old.desks ++ desk ∷ [] }) }
        ensures err { OnErr result (self.new ≡ self.old) }
    {
        let place = self.desks.len() as u32;
        self.desks.push(desk)?;
        Ok(place)
    }

    /// A worker of a desk claims the next number. Returns it; if it is not below the total, the worker has ended. It is
    /// refused if there is no such desk (53), then if the desk has no such worker (57), and then if the worker does not
    /// claim next (54); if none of these applies, it may be out of memory (99). What is refused changes nothing.
    pub fn claim(&mut self, desk: u32, worker: u32) -> Result<u64, CoreFault>
        ensures claimed { IfOk result (λ x. ClaimedAt self.old desk worker x self.new) }
        ensures refused { IfErr result (IsRefusedBy fault.OutOfMemory (TurnJudged ClaimsNext self.old desk worker)) }
        ensures err { OnErr result (self.new ≡ self.old) }
    {
        self.judge_claim(desk, worker)?;
        let own = &mut self.desks[desk as usize];
        Ok(own.claim(worker)?)
    }

    /// A worker of a desk looks, before it works on its number. Returns the lowest number that failed, or the total if
    /// none did; if that is lower than its own number, the worker skips its own and has ended. It is refused if there
    /// is no such desk (53), then if the desk has no such worker (57), and then if the worker does not look next (54).
    /// What is refused changes nothing. Nothing is allocated.
    pub fn look(&mut self, desk: u32, worker: u32) -> Result<u64, CoreFault>
        ensures looked { IfOk result (λ least. LookedAt self.old desk worker least self.new) }
        ensures refused { IfErr result (λ f. TurnJudged LooksNext self.old desk worker (Some f)) }
        ensures err { OnErr result (self.new ≡ self.old) }
    {
        self.judge_look(desk, worker)?;
        let own = &mut self.desks[desk as usize];
        Ok(own.look(worker))
    }

    /// A worker of a desk settles the piece of its number. If the result is a cut, the number fails. It is refused if
    /// there is no such desk (53), then if the desk has no such worker (57), and then if the worker does not settle
    /// next (54); if none of these applies, it may be out of memory (99). What is refused changes nothing.
    pub fn settle(&mut self, desk: u32, worker: u32) -> Result<(), CoreFault>
        ensures settled { OnOk result (SettledAt self.old desk worker self.new) }
        ensures refused { IfErr result (IsRefusedBy fault.OutOfMemory (TurnJudged SettlesNext self.old desk worker)) }
        ensures err { OnErr result (self.new ≡ self.old) }
    {
        self.judge_settle(desk, worker)?;
        let own = &mut self.desks[desk as usize];
        settle_at(&self.snapshots, own, worker)?;
        Ok(())
    }

    /// The first applicable refusal of a claim, except out of memory.
    fn judge_claim(&self, desk: u32, worker: u32) -> Result<(), CoreFault>
        ensures ok { OnOk result (TurnJudged ClaimsNext self.now desk worker None) }
        ensures next { OnOk result (HoldsAt self.now desk (λ d. ClaimsNext d worker)) }
        ensures err { IfErr result (λ f. TurnJudged ClaimsNext self.now desk worker (Some f)) }
    {
        if !self.worked_at(desk, worker)?.claims_next(worker) {
            return Err(CoreFault::WrongTurn);
        }
        Ok(())
    }

    /// The first applicable refusal of a look.
    fn judge_look(&self, desk: u32, worker: u32) -> Result<(), CoreFault>
        ensures ok { OnOk result (TurnJudged LooksNext self.now desk worker None) }
        ensures next { OnOk result (HoldsAt self.now desk (λ d. LooksNext d worker)) }
        ensures err { IfErr result (λ f. TurnJudged LooksNext self.now desk worker (Some f)) }
    {
        if !self.worked_at(desk, worker)?.looks_next(worker) {
            return Err(CoreFault::WrongTurn);
        }
        Ok(())
    }

    /// The first applicable refusal of a piece's settling, except out of memory.
    fn judge_settle(&self, desk: u32, worker: u32) -> Result<(), CoreFault>
        ensures ok { OnOk result (TurnJudged SettlesNext self.now desk worker None) }
        ensures next { OnOk result (HoldsAt self.now desk (λ d. SettlesNext d worker)) }
        ensures err { IfErr result (λ f. TurnJudged SettlesNext self.now desk worker (Some f)) }
    {
        if !self.worked_at(desk, worker)?.settles_next(worker) {
            return Err(CoreFault::WrongTurn);
        }
        Ok(())
    }

    /// The desk of this number, which has this worker, or the first applicable refusal.
    fn worked_at(&self, desk: u32, worker: u32) -> Result<&GroupDesk, CoreFault>
        ensures has { IfOk result (λ d. HasDesk self.now desk d.now) }
        ensures worker { IfOk result (λ d. IsWorkerOf d.now worker) }
        ensures err { IfErr result (λ f. WorkerThen self.now desk worker Passed (Some f)) }
    {
        let own = self.found(desk)?;
        if !own.has_worker(worker) {
            return Err(CoreFault::NoSuchWorker);
        }
        Ok(own)
    }

    /// Files the report to which the workers of a desk came, for the desk's moment and group. It is refused if there is
    /// no such desk (53), then if not all its workers have ended (55), and then if a report is filed for its moment and
    /// group (52); if none of these applies, it may be out of memory (99). What is refused changes nothing.
    pub fn file_desk(&mut self, desk: u32) -> Result<(), CoreFault>
        ensures filed { OnOk result (DeskWasFiled self.old desk self.new) }
        ensures refused { IfErr result (IsRefusedBy fault.OutOfMemory (DeskFilingJudged self.old desk)) }
        ensures err { OnErr result (self.new ≡ self.old) }
    {
        let report = self.report_from_desk(desk)?;
        self.reports.push(report)?;
        Ok(())
    }

    /// Makes the report that `file_desk` files.
    fn report_from_desk(&self, desk: u32) -> Result<Report, CoreFault>
        ensures judged { IfOk result (λ r. DeskFilingJudged self.now desk None) }
        ensures of { IfOk result (λ r. HoldsAt self.now desk
            (λ d. (r.moment ≡ d.moment) × (r.members ≡ d.members))) }
        ensures answer { IfOk result (λ r. IsAnswer r.graph r.members r.cert) }
        ensures free { IfOk result (λ r. FilingJudged self.now r None) }
        ensures valid { IfOk result (λ r. IsValidForGroup r.graph r.members r.cert) }
        ensures refused { IfErr result (IsRefusedBy fault.OutOfMemory (DeskFilingJudged self.now desk)) }
    {
        let own = self.judge_filing(desk)?;
        let moment = own.moment();
        let snapshot = self.kept(moment)?;
        let graph = snapshot.graph.share()?;
        let checked = own.certificate(&snapshot.graph)?;
        let checked = checked.sharing(graph);
        prove!(!checked.members().is_empty());
        let report = Report::new(*self.desks.allocator(), moment, checked)?;
        Ok(report)
    }

    /// The desk of this number, whose report may be filed, or the first applicable refusal.
    fn judge_filing(&self, desk: u32) -> Result<&GroupDesk, CoreFault>
        ensures judged { IfOk result (λ d. DeskFilingJudged self.now desk None) }
        ensures has { IfOk result (λ d. HasDesk self.now desk d.now) }
        ensures own { IfOk result (λ d. IsDeskOf self.now.world.journal d.now) }
        ensures ended { IfOk result (λ d. AllEnded d.now.claims) }
        ensures err { IfErr result (λ f. DeskFilingJudged self.now desk (Some f)) }
    {
        let own = self.found(desk)?;
        if !own.have_all_ended() {
            return Err(CoreFault::NotEnded);
        }
        if self.group_report(own.moment(), own.members()).is_some() {
            return Err(CoreFault::AlreadyFiled);
        }
        Ok(own)
    }

    /// The desk of this number, or that there is none.
    fn found(&self, desk: u32) -> Result<&GroupDesk, CoreFault>
        ensures has { IfOk result (λ d. HasDesk self.now desk d.now) }
        ensures own { IfOk result (λ d. IsDeskOf self.now.world.journal d.now) }
        ensures err { IfErr result (λ f. (f ≡ fault.NoSuchDesk) × ((d : GroupDeskState) → ¬ HasDesk self.now desk d)) }
    {
        match self.desk(desk) {
            Some(own) => Ok(own),
            None => Err(CoreFault::NoSuchDesk),
        }
    }

    /// The desk of this number, if there is one. It is sound for the links of its moment.
    pub fn desk(&self, desk: u32) -> Option<&GroupDesk>
        ensures some { IfSome result (λ d. HasDesk self.now desk d.now) }
        ensures none { IfNone result ((d : GroupDeskState) → ¬ HasDesk self.now desk d) }
        ensures sound { IfSome result (λ d. IsDeskOf self.now.world.journal d.now) }
    {
        self.desks.get(desk as usize)
    }
}

/// A worker of a desk settles its piece, for the links of the desk's moment. Out of memory changes nothing.
fn settle_at(snapshots: &[Snapshot], desk: &mut GroupDesk, worker: u32) -> Result<(), OutOfMemory>
    requires order { Ordered WasBefore snapshots.now }
    requires kept { (s : Kept) × Has snapshots.now s × (s.moment ≡ desk.old.moment) }
    requires sound { (s : Kept) → Has snapshots.now s → s.moment ≡ desk.old.moment → IsSoundDesk s.graph desk.old }
    requires next { SettlesNext desk.old worker }
    ensures settled { OnOk result ((s : Kept) × Has snapshots.now s × (s.moment ≡ desk.old.moment)
        × WasSettled s.graph desk.old worker desk.new) }
    ensures err { OnErr result (desk.new ≡ desk.old) }
{
    let Some(snapshot) = find(snapshots, desk.moment()) else {
        unreachable!()
    };
    desk.settle(&snapshot.graph, worker)
}

/// A copy of these ids.
fn copied(alloc: Global, ids: &[NodeId]) -> Result<Vec<NodeId>, OutOfMemory>
    ensures { IfOk result (λ v. v.items ≡ ids.now) }
{
    Ok(Vec::from_slice(alloc, ids)?)
}
