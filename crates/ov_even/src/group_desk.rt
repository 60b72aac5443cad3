ghost use Rattle.std.specs.Prelude.{◌≡◌, ◌↔◌, ◌<◌, [], length, replicate, IsTrue, IfOk, OnOk, OnErr};
ghost use Rattle.ov_board.specs.Limits.{piece_limit};
ghost use Rattle.ov_graph.specs.Links.{IsGroup};
ghost use Rattle.ov_board.specs.Theorems.{AllEnded};
ghost use Rattle.ov_fans.specs.Cuts.{IsRight};
ghost use Rattle.ov_even.specs.Answer.{IsCheckedAnswer};
ghost use Rattle.ov_even.specs.Order.{AreMoreThan, IsNumbered};
ghost use Rattle.ov_even.specs.declared.piece_in_hand.Hand.TheVariants.{Nothing as nothing};
ghost use Rattle.ov_even.specs.Desk.{AreToShare, IsOpened};
ghost use Rattle.ov_even.specs.Code.KeptDesk.{pieces_in};
ghost use Rattle.ov_even.specs.SoundDesk.{IsSoundDesk};
ghost use Rattle.ov_even.specs.Turns.{ClaimsNext, IsWorkerOf, LooksNext, SettlesNext};
ghost use Rattle.ov_even.specs.Turns.{WasClaimed, WasLookedAt, WasSettled};

use crate::piece_in_hand::Hand;
use crate::{Haul, assemble_group, group_piece_at, group_total};
use ov_board::Desk;
use ov_cert::{Checked, are_all_linked};
use ov_fans::{Settled, settle_group};
use ov_graph::Graph;
use ov_ids::{NodeId, OutOfMemory, Workers};
use std::alloc::Global;
use std::marker::Model;

/// A desk for a moment and a group. Each worker claims the number of a piece, looks whether a lower number has failed,
/// settles the piece, and claims again, until it has ended. The desk stores no graph: `settle` and `certificate` are
/// given the graph of its moment.
#[derive(Drop)]
pub struct GroupDesk {
    moment: u32,
    members: Vec<NodeId>,
    claims: Desk,
    hands: Vec<Hand>,
    hauls: Vec<Haul>,
}

impl Model for GroupDesk {
    ghost use Rattle.ov_even.specs.Desk.{GroupDeskState};
    ghost use Rattle.ov_even.specs.Code.KeptDesk.{state, IsKept};

    ghost Value = { GroupDeskState };

    ghost view = { λ d. state d.moment d.members.items d.claims d.hands.items d.hauls.items };

    ghost invariant = { λ d. IsKept (state d.moment d.members.items d.claims d.hands.items d.hauls.items) };
}

impl GroupDesk {
    /// A new desk for a group at a moment with these links. No numbers are shared out if every two members are linked.
    /// Faults: out of memory.
    pub fn open(
        alloc: Global,
        moment: u32,
        graph: &Graph,
        group: Vec<NodeId>,
        workers: Workers,
    ) -> Result<GroupDesk, OutOfMemory>
        requires { IsGroup graph.now group.items }
        ensures opened { IfOk result (λ d. IsOpened graph.now moment group.items workers d) }
        ensures sound { IfOk result (λ d. IsSoundDesk graph.now d) }
    {
        prove!(workers.count() >= 1);
        let total = total_to_share(graph, &group);
        let claims = Desk::new(alloc, total, workers)?;
        let hands = empty_hands(alloc, workers)?;
        let hauls = empty_hauls(alloc, workers)?;
        Ok(GroupDesk {
            moment,
            members: group,
            claims,
            hands,
            hauls,
        })
    }

    /// The moment whose links are analysed: the number of an entry of the journal.
    pub fn moment(&self) -> u32
        ensures { result ≡ self.now.moment }
    {
        self.moment
    }

    /// The members of the group, ascending.
    pub fn members(&self) -> &[NodeId]
        ensures { result.now ≡ self.now.members }
    {
        &self.members
    }

    /// The number of numbers to share out: one for each piece, or 0 if every two members are linked.
    pub fn total(&self) -> u64
        ensures { result ≡ self.now.claims.total }
    {
        self.claims.total()
    }

    /// The lowest number that failed, or the total if none failed.
    pub fn least(&self) -> u64
        ensures { result ≡ self.now.claims.least }
    {
        self.claims.least()
    }

    /// Whether the desk has this worker. Workers are counted from 0.
    pub fn has_worker(&self, worker: u32) -> bool
        ensures { IsTrue result ↔ IsWorkerOf self.now worker }
    {
        worker < self.claims.workers()
    }

    /// Whether the next turn of this worker is a claim.
    pub fn claims_next(&self, worker: u32) -> bool
        requires { IsWorkerOf self.now worker }
        ensures { IsTrue result ↔ ClaimsNext self.now worker }
    {
        match self.hands[worker as usize] {
            Hand::Nothing => !self.claims.has_ended(worker),
            Hand::Claimed(_) | Hand::Looked(_) => false,
        }
    }

    /// Whether the next turn of this worker is a look.
    pub fn looks_next(&self, worker: u32) -> bool
        requires { IsWorkerOf self.now worker }
        ensures { IsTrue result ↔ LooksNext self.now worker }
    {
        matches!(self.hands[worker as usize], Hand::Claimed(_))
    }

    /// Whether the next turn of this worker is to settle a piece.
    pub fn settles_next(&self, worker: u32) -> bool
        requires { IsWorkerOf self.now worker }
        ensures { IsTrue result ↔ SettlesNext self.now worker }
    {
        matches!(self.hands[worker as usize], Hand::Looked(_))
    }

    /// The worker claims the next number, which is returned. If it is not below the total, the worker has ended. Out of
    /// memory changes nothing.
    pub fn claim(&mut self, worker: u32) -> Result<u64, OutOfMemory>
        requires { ClaimsNext self.old worker }
        ensures claimed { IfOk result (λ x. WasClaimed self.old worker x self.new) }
        ensures err { OnErr result (self.new ≡ self.old) }
    {
        let number = self.claims.claim(worker)?;
        if number < self.claims.total() {
            self.hands[worker as usize] = Hand::Claimed(number);
        }
        Ok(number)
    }

    /// The worker looks before it works on the number in its hand. Returns the lowest number that failed, or the total
    /// if none failed. If that is below the number in hand, the worker skips its number and has ended. Allocates
    /// nothing.
    pub fn look(&mut self, worker: u32) -> u64
        requires { LooksNext self.old worker }
        ensures { WasLookedAt self.old worker result self.new }
    {
        let place = worker as usize;
        let Hand::Claimed(number) = self.hands[place] else {
            unreachable!()
        };
        let least = self.claims.look(worker);
        let hand = if least < number {
            Hand::Nothing
        } else {
            Hand::Looked(number)
        };
        self.hands[place] = hand;
        least
    }

    /// The worker settles the piece of the number in its hand. The graph must have the links of the desk's moment. If
    /// the result is a cut, the number fails. Out of memory changes nothing.
    pub fn settle(&mut self, graph: &Graph, worker: u32) -> Result<(), OutOfMemory>
        requires sound { IsSoundDesk graph.now self.old }
        requires next { SettlesNext self.old worker }
        ensures settled { OnOk result (WasSettled graph.now self.old worker self.new) }
        ensures err { OnErr result (self.new ≡ self.old) }
    {
        let place = worker as usize;
        let Hand::Looked(number) = self.hands[place] else {
            unreachable!()
        };
        let settled = self.settled_at(graph, number)?;
        let own = &mut self.hauls[place];
        own.pieces.reserve(1)?;
        if settled.is_cut() {
            self.claims.fail(worker)?;
        }
        own.pieces.push_reserved(settled);
        self.hands[place] = Hand::Nothing;
        Ok(())
    }

    /// The piece of this number, with its result.
    fn settled_at(&self, graph: &Graph, number: u64) -> Result<Settled, OutOfMemory>
        requires group { IsGroup graph.now self.now.members }
        requires below { AreMoreThan (length graph.now.nodes) (length self.now.members) number }
        ensures numbered { IfOk result (λ s.
            IsNumbered (length graph.now.nodes) (length self.now.members) number s.piece) }
        ensures right { IfOk result (λ s. IsRight graph.now self.now.members s) }
    {
        prove!(graph.nodes().len() <= Graph::MOST_OF_ANY);
        let piece = group_piece_at(graph.nodes().len(), self.members.len(), number);
        settle_group(*self.members.allocator(), graph, &self.members, piece)
    }

    /// Whether all workers have ended.
    pub fn have_all_ended(&self) -> bool
        ensures { IsTrue result ↔ AllEnded self.now.claims }
    {
        self.claims.all_ended()
    }

    /// The checked certificate, made from the work of all workers. The graph must have the links of the desk's moment.
    /// If two members are not linked, the certificate names the nearest cut of the first piece that is not good.
    /// Faults: out of memory.
    pub fn certificate(&self, graph: &Graph) -> Result<Checked, OutOfMemory>
        requires sound { IsSoundDesk graph.now self.now }
        requires ended { AllEnded self.now.claims }
        ensures answer { IfOk result (λ c. IsCheckedAnswer graph.now self.now.members c) }
    {
        prove!(graph.nodes().len() <= Graph::MOST_OF_ANY);
        let alloc = *self.members.allocator();
        match assemble_group(alloc, graph, &self.members, &self.hauls) {
            Ok(checked) => Ok(checked),
            Err(_) => Err(OutOfMemory),
        }
    }
}

/// The number of numbers to share out.
fn total_to_share(graph: &Graph, group: &[NodeId]) -> u64
    requires { IsGroup graph.now group.now }
    ensures share { AreToShare graph.now group.now result }
    ensures small { result < piece_limit }
{
    if are_all_linked(graph, group) {
        return 0;
    }
    prove!(graph.nodes().len() <= Graph::MOST_OF_ANY);
    group_total(graph.nodes().len(), group.len())
}

/// The hands of this many workers, all empty.
fn empty_hands(alloc: Global, workers: Workers) -> Result<Vec<Hand>, OutOfMemory>
    ensures { IfOk result (λ hands. hands.items ≡ replicate workers nothing) }
{
    let mut hands = Vec::new(alloc);
    for _ in 0..workers.count() {
        hands.push(Hand::Nothing)?;
    }
    Ok(hands)
}

/// The hauls of this many workers, all without pieces.
fn empty_hauls(alloc: Global, workers: Workers) -> Result<Vec<Haul>, OutOfMemory>
    ensures { IfOk result (λ hauls. pieces_in hauls.items ≡ replicate workers []) }
{
    let mut hauls = Vec::new(alloc);
    for _ in 0..workers.count() {
        hauls.push(Haul {
            pieces: Vec::new(alloc),
        })?;
    }
    Ok(hauls)
}
