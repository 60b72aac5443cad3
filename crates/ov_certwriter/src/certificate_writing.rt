//! Certificate files that are written as they are made. Of their entries no text is held but that of a few blocks.
ghost use Rattle.std.specs.Prelude.{◌≡◌, ◌≤◌, ◌<◌, ◌+◌, ◌++◌, ◌^◌, IfOk, IsErrOf, OnOk};
ghost use Rattle.std.specs.Io.KnownBytes.{Appends};
ghost use Rattle.serde_json.specs.Written.{compact_text};
ghost use Rattle.ov_io.specs.Device.{most_faults, write_faults, write_number, AppendsPrefixOf};
ghost use Rattle.ov_certfile.specs.Forms.{last_moment};
ghost use Rattle.ov_certfile.specs.DataOf.{data_of};
ghost use Rattle.ov_certwriter.specs.Number.{writing_number};
ghost use Rattle.ov_certwriter.specs.Code.Blocks.{AreWithin};
ghost use Rattle.ov_certwriter.specs.Code.Parts.{text_of_parts};

use crate::answer_by_places::{PlacedAnswer, PlacedEntries};
use crate::entry_blocks::{BlockSets, write_entries};
use crate::entry_rooms::largest_room;
use crate::text_around_entries::Parts;
use crate::writing_fault::CertificateWriteFault;
use ov_cert::Cert;
use ov_certfile::to_large_text;
use ov_ids::{OutOfMemory, Workers};
use ov_io::{Sink, WriteFault};
use std::alloc::Global;
use std::io::Write;
use std::thread::Threads;

/// About as many bytes a block has room for. A text takes about a third of its room. Each worker has two blocks.
const BLOCK_BYTES: usize = 1 << 21;

/// How much room entries need at least before one more thread saves time.
const ROOM_WORTH_A_THREAD: u64 = 1 << 20;

/// Writes what stands in front of a certificate file, and then the file, as `to_text_group` would make it. The texts of
/// the entries are made from places of nodes by this number of workers, a part at a time, while the part before is
/// written; no more than two such parts are held in memory. The moment is at most 65,536.
///
/// `Write` (72): the writer failed in this call, and a prefix of the whole was written. `OutOfMemory` (99): an
/// allocation was refused. All memory is there before the first byte is written; so nothing was written then.
pub fn write_certificate<R: Threads + Sync, W: Write>(
    rt: &R,
    alloc: Global,
    workers: Workers,
    front: &[u8],
    answer: &PlacedAnswer<'_>,
    moment: u32,
    sink: &mut Sink<W>,
) -> Result<(), CertificateWriteFault>
    requires moment { moment ≤ last_moment }
    requires faults { sink.old.faults < most_faults }
    ensures text { OnOk result (Appends (W.contents sink.old.writer) (W.contents sink.new.writer)
        (front.now ++ compact_text (data_of answer.now.cert answer.now.graph answer.now.members moment))) }
    ensures prefix { AppendsPrefixOf
        (front.now ++ compact_text (data_of answer.now.cert answer.now.graph answer.now.members moment))
        (W.contents sink.old.writer) (W.contents sink.new.writer) }
    ensures memory { IsErrOf result CertificateWriteFault.OutOfMemory → sink.new ≡ sink.old }
    ensures faults { sink.new.faults ≡ sink.old.faults + write_faults writing_number result }
{
    write_large_certificate(rt, alloc, workers, front, answer, moment, sink)
}

/// Does what `write_certificate` does, for any moment: the file is the one that `to_large_text` would make.
pub fn write_large_certificate<R: Threads + Sync, W: Write>(
    rt: &R,
    alloc: Global,
    workers: Workers,
    front: &[u8],
    answer: &PlacedAnswer<'_>,
    moment: u32,
    sink: &mut Sink<W>,
) -> Result<(), CertificateWriteFault>
    requires { sink.old.faults < most_faults }
    ensures text { OnOk result (Appends (W.contents sink.old.writer) (W.contents sink.new.writer)
        (front.now ++ compact_text (data_of answer.now.cert answer.now.graph answer.now.members moment))) }
    ensures prefix { AppendsPrefixOf
        (front.now ++ compact_text (data_of answer.now.cert answer.now.graph answer.now.members moment))
        (W.contents sink.old.writer) (W.contents sink.new.writer) }
    ensures memory { IsErrOf result CertificateWriteFault.OutOfMemory → sink.new ≡ sink.old }
    ensures faults { sink.new.faults ≡ sink.old.faults + write_faults writing_number result }
{
    let (outline, graph, group) = (answer.outline(), answer.graph(), answer.members());
    let Cert::Split(split) = outline else {
        let text = to_large_text(alloc, outline, graph, group, moment)?;
        sink.write_all(front)?;
        sink.write_all(text.as_bytes())?;
        return Ok(());
    };
    let parts = Parts::of(alloc, outline, split, graph, group, moment)?;
    let entries = answer.entries();
    let mut blocks = blocks_for(rt, alloc, workers, entries)?;
    sink.write_all(front)?;
    write_parts(rt, sink, &mut blocks, entries, &parts)?;
    Ok(())
}

/// Writes the parts of a file, with the texts of the fans and of the pairs between them.
fn write_parts<R: Threads + Sync, W: Write>(
    rt: &R,
    sink: &mut Sink<W>,
    blocks: &mut BlockSets,
    entries: &PlacedEntries<'_>,
    parts: &Parts,
) -> Result<(), WriteFault>
    requires fans { AreWithin (λ e. e.paths) blocks.old.full.room entries.now.fans.items }
    requires pairs { AreWithin (λ e. e.paths) blocks.old.full.room entries.now.pairs.items }
    requires faults { sink.old.faults < most_faults }
    ensures bytes { OnOk result (Appends (W.contents sink.old.writer) (W.contents sink.new.writer)
        (text_of_parts entries.now.pairs.items entries.now.fans.items parts.now)) }
    ensures prefix { AppendsPrefixOf (text_of_parts entries.now.pairs.items entries.now.fans.items parts.now)
        (W.contents sink.old.writer) (W.contents sink.new.writer) }
    ensures faults { sink.new.faults ≡ sink.old.faults + write_faults write_number result }
{
    sink.write_all(parts.head())?;
    write_entries(rt, sink, blocks, entries.fans.as_slice())?;
    sink.write_all(parts.middle())?;
    write_entries(rt, sink, blocks, entries.pairs.as_slice())?;
    sink.write_all(parts.tail())?;
    Ok(())
}

/// The blocks for the entries of a certificate: in each set one for each worker who saves time.
fn blocks_for<R: Threads + Sync>(
    rt: &R,
    alloc: Global,
    workers: Workers,
    entries: &PlacedEntries<'_>,
) -> Result<BlockSets, OutOfMemory>
    ensures fans { IfOk result (λ b. AreWithin (λ e. e.paths) b.full.room entries.now.fans.items) }
    ensures pairs { IfOk result (λ b. AreWithin (λ e. e.paths) b.full.room entries.now.pairs.items) }
{
    let (fans, pairs) = (entries.fans.as_slice(), entries.pairs.as_slice());
    let fan_room = largest_room(rt, alloc, workers, fans)?;
    let pair_room = largest_room(rt, alloc, workers, pairs)?;
    let room = fan_room.max(pair_room);
    let most = fans.len().max(pairs.len());
    let count = block_count(workers, most, room);
    let size = block_size(most, count, room);
    Ok(BlockSets::new(alloc, count, size, room)?)
}

/// How many blocks there are for so many entries of this room.
fn block_count(workers: Workers, entries: usize, room: usize) -> usize
    ensures some { 0 < result }
    ensures few { result ≤ 64 }
{
    let bytes = (entries as u64).saturating_mul(room as u64);
    workers.at_most(bytes / ROOM_WORTH_A_THREAD).count() as usize
}

/// How many entries of this room each block takes, if there are so many entries and so many blocks.
fn block_size(entries: usize, count: usize, room: usize) -> usize
    requires { 0 < count }
    ensures some { 0 < result }
    ensures few { result ≤ 2 ^ 22 }
{
    let share = entries.div_ceil(count);
    (BLOCK_BYTES / room.max(1)).min(share).max(1)
}
