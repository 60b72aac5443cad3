//! What is printed of a line that is no block, as it goes to the writer.
ghost use Rattle.std.specs.Prelude.{◌≡◌, ◌⊎◌, ◌<◌, ◌+◌, IfOk, IfErr, OnOk, OnErr, IsErrOf, length, string_bytes};
ghost use Rattle.std.specs.Io.KnownBytes.{Appends};
ghost use Rattle.ov_io.specs.Device.{AppendsPrefixOf, most_faults, write_faults as sink_faults, write_number};
ghost use Rattle.ov_ids.specs.Limits.{number_limit};
ghost use Rattle.ov_net.specs.Net.{LivesAs};
ghost use Rattle.ov_peer.specs.PeerState.{PeerState};
ghost use Rattle.ov_run_meaning.specs.Accepting.{HidesCertificate, HidesNode, RefusesLook};
ghost use Rattle.ov_run_meaning.specs.Accepting.{ShowsCertificate, ShowsLook, ShowsNode};
ghost use Rattle.ov_run_meaning.specs.Ending.{BeginsLook, BeginsPackets, EndsLook, EndsPackets};
ghost use Rattle.ov_run_meaning.specs.Faults.{write_faults};
ghost use Rattle.ov_run_meaning.specs.Printed.{entry_line, file_text, node_line};
ghost use Rattle.ov_run_meaning.specs.Running.{PrintsPackets};
ghost use Rattle.ov_run_meaning.specs.Writing.{IsOfWriting, Writes, WritesOutcome, WritesPrefix};

use crate::event_block_node_and_packet_lines::{entry_line, node_line, packet_line};
use crate::line_run_outcome::LineOutcome;
use crate::refusal::Refusal;
use crate::report_of_subject::filed_report;
use crate::run_fault::RunFault;
use ov_certfile::to_large_text;
use ov_ids::{NodeId, OutOfMemory};
use ov_io::{Sink, WriteFault};
use ov_lists::BlockList;
use ov_net::{Entry, NetFault, Packet, World};
use ov_peer::Peer;
use ov_scenario::{Look, Subject};
use ov_snap::{Core, CoreFault, Report};
use std::alloc::Global;
use std::io::Write;

/// Writes what is printed of a line that was done. Write (72) is returned if the writer failed; it took a prefix then.
pub fn write_done<W: Write>(text: &[u8], sink: &mut Sink<W>) -> Result<LineOutcome, WriteFault>
    requires faults { sink.old.faults < most_faults }
    ensures outcome { IfOk result (λ outcome. outcome ≡ LineOutcome.Accepted) }
    ensures bytes { OnOk result (Appends (W.contents sink.old.writer) (W.contents sink.new.writer) text.now) }
    ensures prefix { AppendsPrefixOf text.now (W.contents sink.old.writer) (W.contents sink.new.writer) }
    ensures faults { sink.new.faults ≡ sink.old.faults + sink_faults write_number result }
{
    sink.write_all(text)?;
    Ok(LineOutcome::Accepted)
}

/// Writes the line of an event that happened. Write (72) is returned if the writer failed; it took a prefix then.
/// OutOfMemory (99) is returned if the line can't be made, and then nothing was written.
#[tactic(auto, using(crate::proofs::Writing::Prefixes::none_went))]
pub fn write_entry<W: Write>(
    alloc: Global,
    entry: &Entry,
    sink: &mut Sink<W>,
) -> Result<LineOutcome, RunFault>
    requires faults { sink.old.faults < most_faults }
    ensures outcome { IfOk result (λ outcome. outcome ≡ LineOutcome.Accepted) }
    ensures bytes { OnOk result
        (Appends (W.contents sink.old.writer) (W.contents sink.new.writer) (entry_line entry.now)) }
    ensures prefix { AppendsPrefixOf (entry_line entry.now) (W.contents sink.old.writer) (W.contents sink.new.writer) }
    ensures nothing { IsErrOf result RunFault.OutOfMemory → sink.new ≡ sink.old }
    ensures faults { sink.new.faults ≡ sink.old.faults + write_faults result }
    ensures kind { IfErr result IsOfWriting }
{
    let line = entry_line(alloc, entry)?;
    Ok(write_done(line.as_bytes(), sink)?)
}

/// Writes what is printed of what is looked at, or refuses. Write (72) is returned if the writer failed; it took a
/// prefix then. OutOfMemory (99) is returned if the line of a node that lives can't be made, and then nothing was
/// written; or if that of a packet can't, and then those of the packets before it were.
pub fn write_look<W: Write>(
    alloc: Global,
    core: &Core,
    look: Look,
    sink: &mut Sink<W>,
) -> Result<LineOutcome, RunFault>
    requires faults { sink.old.faults < most_faults }
    ensures outcome { IfOk result (WritesOutcome (ShowsLook core.now look) (RefusesLook core.now look)
        (W.contents sink.old.writer) (W.contents sink.new.writer)) }
    ensures begun { OnErr result (WritesPrefix (λ text. BeginsLook core.now look text ⊎ ShowsLook core.now look text)
        (W.contents sink.old.writer) (W.contents sink.new.writer)) }
    ensures memory { IsErrOf result RunFault.OutOfMemory → Writes (EndsLook core.now look)
        (W.contents sink.old.writer) (W.contents sink.new.writer) }
    ensures faults { sink.new.faults ≡ sink.old.faults + write_faults result }
    ensures kind { IfErr result IsOfWriting }
{
    match look {
        Look::Show(id) => write_node(alloc, core.world(), id, sink),
        Look::Packets => write_packets(alloc, core.world().packets(), sink),
        Look::Certificate(subject) => Ok(write_certificate(alloc, core, &subject, sink)?),
    }
}

/// Writes what is printed of a node, or refuses. OutOfMemory is returned only if the node lives and its line can't be
/// made.
fn write_node<W: Write>(
    alloc: Global,
    world: &World,
    id: NodeId,
    sink: &mut Sink<W>,
) -> Result<LineOutcome, RunFault>
    requires faults { sink.old.faults < most_faults }
    ensures outcome { IfOk result (WritesOutcome (ShowsNode world.now.net id) (HidesNode world.now.net id)
        (W.contents sink.old.writer) (W.contents sink.new.writer)) }
    ensures begun { OnErr result (WritesPrefix (ShowsNode world.now.net id)
        (W.contents sink.old.writer) (W.contents sink.new.writer)) }
    ensures lives { IsErrOf result RunFault.OutOfMemory → (peer : PeerState) × LivesAs world.now.net id peer }
    ensures nothing { IsErrOf result RunFault.OutOfMemory → sink.new ≡ sink.old }
    ensures faults { sink.new.faults ≡ sink.old.faults + write_faults result }
    ensures kind { IfErr result IsOfWriting }
{
    match world.peer(id) {
        Some(peer) => write_peer(alloc, id, peer, sink),
        None if world.born(id) => Ok(LineOutcome::Refused(Refusal::World(NetFault::CrashedNode))),
        None => Ok(LineOutcome::Refused(Refusal::World(NetFault::UnknownNode))),
    }
}

/// Writes the line of a node that lives.
#[tactic(auto, using(crate::proofs::Writing::Prefixes::none_went))]
fn write_peer<W: Write>(
    alloc: Global,
    id: NodeId,
    peer: &Peer,
    sink: &mut Sink<W>,
) -> Result<LineOutcome, RunFault>
    requires faults { sink.old.faults < most_faults }
    ensures outcome { IfOk result (λ outcome. outcome ≡ LineOutcome.Accepted) }
    ensures bytes { OnOk result
        (Appends (W.contents sink.old.writer) (W.contents sink.new.writer) (node_line id peer.now)) }
    ensures prefix { AppendsPrefixOf (node_line id peer.now) (W.contents sink.old.writer) (W.contents sink.new.writer) }
    ensures nothing { IsErrOf result RunFault.OutOfMemory → sink.new ≡ sink.old }
    ensures faults { sink.new.faults ≡ sink.old.faults + write_faults result }
    ensures kind { IfErr result IsOfWriting }
{
    let line = node_line(alloc, id, peer)?;
    Ok(write_done(line.as_bytes(), sink)?)
}

/// Writes the certificate file of the report that is filed for a subject, or refuses if there is none. Out of memory is
/// a refusal, so that only the writer can fail.
fn write_certificate<W: Write>(
    alloc: Global,
    core: &Core,
    subject: &Subject,
    sink: &mut Sink<W>,
) -> Result<LineOutcome, WriteFault>
    requires faults { sink.old.faults < most_faults }
    ensures outcome { IfOk result (WritesOutcome (ShowsCertificate core.now subject.now)
        (HidesCertificate core.now subject.now) (W.contents sink.old.writer) (W.contents sink.new.writer)) }
    ensures begun { OnErr result (WritesPrefix (ShowsCertificate core.now subject.now)
        (W.contents sink.old.writer) (W.contents sink.new.writer)) }
    ensures faults { sink.new.faults ≡ sink.old.faults + sink_faults write_number result }
{
    let Some(report) = filed_report(core, subject) else {
        return Ok(LineOutcome::Refused(Refusal::Core(CoreFault::NoSuchMoment)));
    };
    match file_text(alloc, report) {
        Ok(text) => write_done(text.as_bytes(), sink),
        Err(OutOfMemory) => Ok(LineOutcome::Refused(Refusal::Core(CoreFault::OutOfMemory))),
    }
}

/// The certificate file of a report, and a line feed.
fn file_text(alloc: Global, report: &Report) -> Result<String, OutOfMemory>
    ensures { IfOk result (λ text. string_bytes text
        ≡ file_text report.now.cert report.now.graph report.now.members report.now.moment) }
{
    let checked = report.checked();
    let (cert, graph, group) = (checked.cert(), checked.graph(), checked.members());
    let mut text = to_large_text(alloc, cert, graph, group, report.moment())?;
    text.push_str("\n")?;
    Ok(text)
}

/// Writes the lines of packets. If OutOfMemory is returned, the lines of the first packets were written whole, and at
/// least one was still to come.
fn write_packets<W: Write>(
    alloc: Global,
    packets: &BlockList<Packet>,
    sink: &mut Sink<W>,
) -> Result<LineOutcome, RunFault>
    requires faults { sink.old.faults < most_faults }
    requires few { length packets.now.items < number_limit }
    ensures outcome { IfOk result (λ outcome. outcome ≡ LineOutcome.Accepted) }
    ensures prints { OnOk result (Writes (PrintsPackets 0 packets.now.items)
        (W.contents sink.old.writer) (W.contents sink.new.writer)) }
    ensures begun { WritesPrefix (BeginsPackets packets.now.items)
        (W.contents sink.old.writer) (W.contents sink.new.writer) }
    ensures memory { IsErrOf result RunFault.OutOfMemory → Writes (EndsPackets packets.now.items)
        (W.contents sink.old.writer) (W.contents sink.new.writer) }
    ensures faults { sink.new.faults ≡ sink.old.faults + write_faults result }
    ensures kind { IfErr result IsOfWriting }
{
    let mut place = 0;
    for packet in packets.iter() {
        let line = packet_line(alloc, place, packet.to(), packet.bytes())?;
        sink.write_all(line.as_bytes())?;
        place += 1;
    }
    Ok(LineOutcome::Accepted)
}
