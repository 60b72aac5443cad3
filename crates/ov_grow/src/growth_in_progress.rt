ghost use Rattle.std.specs.Prelude.{◌≡◌, ◌<◌, ◌≤◌, ◌↔◌, length, IfErr, IfOk, OnOk, IsTrue};
ghost use Rattle.std.specs.FinMap as map;
ghost use Rattle.ov_ids.specs.Scales.{most_packets_at};
ghost use Rattle.ov_ids.specs.declared.world_scale.Scale.TheVariants.{Large};
ghost use Rattle.ov_net.specs.Net.{IsGone};
ghost use Rattle.ov_grow.specs.Replay.{Replays};
ghost use Rattle.ov_script.specs.WrittenLines.{comment_line};
ghost use Rattle.ov_grow.specs.Growth.{AreLive, Does, IsLive, Writes};
ghost use Rattle.ov_grow.specs.Growing.{begins, params_for, scale_for};
ghost use Rattle.ov_grow.specs.BroadcastLog.{made_by, next_id};
ghost use Rattle.ov_script.specs.Acts.{event_of};
ghost use Rattle.ov_grow.specs.Code.Standing.{Goes, IsNoWay, IsRefusedAct, growth_of};
ghost use Rattle.ov_grow.specs.declared.fault.GrowFault.TheVariants.{OutOfMemory as out_of_memory};

use crate::broadcast_log::BroadcastLog;
use crate::core_recorded_as_script::{Recorded, Recording};
use crate::fault::GrowFault;
use crate::random_choices::Choices;
use ov_grow_options::GrowOptions;
use ov_ids::{MsgId, NodeId, OutOfMemory, Params, Scale};
use ov_net::World;
use ov_script::Act;
use std::alloc::Global;

/// An overlay that grows: the recording of its steps so far, the choices that are left, and the log of broadcasts, if
/// one is kept.
#[derive(Drop)]
pub(crate) struct Growing {
    pub(crate) alloc: Global,
    pub(crate) recording: Recording,
    pub(crate) choices: Choices,
    pub(crate) log: BroadcastLog,
}

impl Growing {
    /// Nothing has happened. A log of broadcasts is kept if it is asked for. OutOfMemory (99) is returned if an
    /// allocation was refused.
    pub(crate) fn new(
        alloc: Global,
        options: &GrowOptions,
        logged: bool,
    ) -> Result<Growing, OutOfMemory>
        ensures begins { IfOk result (λ g. growth_of g ≡ begins logged options.now) }
        ensures unborn { IfOk result (λ g. g.recording.core.world.net.nodes ≡ map.empty) }
        ensures params { IfOk result (λ g. g.recording.core.world.net.params ≡ params_for options.now) }
    {
        let heading = options.to_string(alloc)?;
        let params = params_for(options);
        let recording = Recording::new(alloc, params, options.seed, heading.as_str())?;
        let choices = Choices::new(options.seed);
        let log = BroadcastLog::new(alloc, logged);
        Ok(Growing {
            alloc,
            recording,
            choices,
            log,
        })
    }

    /// The world so far.
    pub(crate) fn world(&self) -> &World
        ensures { result.now ≡ self.now.recording.core.world }
    {
        self.recording.core().world()
    }

    /// How many packets are on their way.
    #[tactic(auto, using(ov_ids::proofs::Scales::packets_within))]
    pub(crate) fn packets(&self) -> usize
        ensures value { result ≡ length self.now.recording.core.world.net.packets }
        ensures few { result ≤ most_packets_at Large }
    {
        self.world().packets().len()
    }

    /// The live nodes, by ascending ids. OutOfMemory (99) is returned if an allocation was refused.
    pub(crate) fn live(&self) -> Result<Vec<NodeId>, OutOfMemory>
        ensures { IfOk result (λ ids. AreLive (growth_of self.now) ids.items) }
    {
        Ok(self.world().live_nodes()?)
    }

    /// Whether a node lives.
    pub(crate) fn is_live(&self, node: NodeId) -> bool
        ensures { IsTrue result ↔ IsLive (growth_of self.now) node }
    {
        match self.world().peer(node) {
            Some(_) => true,
            None => false,
        }
    }

    /// Whether a node was born and crashed.
    pub(crate) fn has_crashed(&self, node: NodeId) -> bool
        ensures { IsTrue result ↔ IsGone self.now.recording.core.world.net node }
    {
        self.world().born(node) && !self.is_live(node)
    }

    /// Does an act, and adds its line. A fault means that the world refuses the act, or that memory ran out.
    pub(crate) fn act(&mut self, act: Act) -> Result<(), GrowFault>
        ensures goes { OnOk result (Goes (λ s u. Does s act u) self.old self.new) }
        ensures refused { IfErr result (IsNoWay (λ s u. Does s act u) self.old) }
        ensures judged { IfErr result (IsRefusedAct act self.old) }
    {
        let made = self.id_made_by(&act);
        let before = self.packets();
        self.recording.act(act)?;
        self.log
            .tell(self.alloc, &act, made, before, &self.recording)?;
        let _script = self.recording.script();
        Ok(())
    }

    /// The id of the broadcast that an act makes now, if it makes one.
    fn id_made_by(&self, act: &Act) -> Option<MsgId>
        ensures { result ≡ made_by (event_of act.now) self.now.recording.core.world.net }
    {
        match act {
            Act::Broadcast(node) => self.next_id(*node),
            Act::Boot(_, _) | Act::Crash(_) | Act::CrashReport(_, _) | Act::Shuffle(_) => None,
            Act::Deliver(_) | Act::Lose(_) | Act::Repeat(_) => None,
            Act::Timer(_, _) | Act::Snapshot => None,
        }
    }

    /// The id of the next broadcast of a node, if it lives.
    fn next_id(&self, node: NodeId) -> Option<MsgId>
        ensures { result ≡ next_id node (map.get self.now.recording.core.world.net.nodes node) }
    {
        match self.world().peer(node) {
            Some(peer) => Some(MsgId {
                origin: node,
                seq: peer.made(),
            }),
            None => None,
        }
    }

    /// Adds a comment. OutOfMemory (99) is returned if an allocation was refused.
    pub(crate) fn comment(&mut self, said: &str) -> Result<(), GrowFault>
        ensures goes { OnOk result (Goes (λ s u. Writes s (comment_line said.now) u) self.old self.new) }
        ensures refused { IfErr result (λ fault. fault ≡ out_of_memory) }
    {
        self.recording.comment(said)?;
        Ok(())
    }

    /// The scenario of what happened, and the core that it makes.
    pub(crate) fn finish(self) -> Recorded
        ensures text { result.script.text ≡ self.recording.script.text }
        ensures core { result.core ≡ self.recording.core }
        ensures replays { Replays result.script.text result.core }
    {
        let Growing {
            alloc: _,
            recording,
            choices: _,
            log: _,
        } = self;
        recording.finish()
    }
}

/// The parameters of the nodes of an overlay, and the scale that as many nodes need: the profile's for up to 256 nodes.
fn params_for(options: &GrowOptions) -> Params
    ensures { result ≡ params_for options.now }
{
    options.params.with_scale(scale_for(options.nodes.get()))
}

/// The scale of a world in which so many nodes are born: the profile's, if as many may be born there.
fn scale_for(nodes: u32) -> Scale
    ensures { result ≡ scale_for nodes }
{
    if nodes as usize > Scale::Profile.most_born() {
        return Scale::Large;
    }
    Scale::Profile
}
