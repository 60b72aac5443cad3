ghost use Rattle.std.specs.Prelude.{◌≡◌, ◌++◌, drop, map, option_map, IfErr, IfOk, IfSome, None, Some};
ghost use Rattle.std.specs.Result.{result_ok};
ghost use Rattle.ov_lines.specs.Lines.{words_of, row, one, two, three, long_bits, short_bits};
ghost use Rattle.ov_scenario.specs.EventWords.{event_words};
ghost use Rattle.ov_scenario.specs.RunLines.{HasIds, ReadingNeedsMemory};
ghost use Rattle.ov_scenario.specs.Scenarios.{stated_at};
ghost use Rattle.ov_scenario.specs.Statements.{seven_numbers, one_rule, one_scale, crash_report_of};
ghost use Rattle.ov_scenario.specs.Statements.{timer_of, boot_of, analysis_of, broadcast_of, group_at, subject_at};
ghost use Rattle.ov_scenario.specs.Statements.{subject_of, workers_named};
ghost use Rattle.ov_scenario.specs.Statements.{event_rows, look_rows, section_rows, line_rows, line_names};
ghost use Rattle.ov_scenario.specs.Statements.{alone, statement_of};
ghost use Rattle.ov_scenario.specs.Code.Reading.{Reads, numbered};
ghost use Rattle.ov_scenario.specs.declared.scenario.Look.TheVariants as look;
ghost use Rattle.ov_scenario.specs.declared.statement.Statement.TheVariants as says;
ghost use Rattle.ov_scenario.specs.declared.statement_reading.Unstated.TheVariants as unstated;

use crate::given_random_words_reading::GivenWords;
use crate::numbered_events::Numbered;
use crate::scenario::{Look, Subject};
use crate::statement::{Stated, Statement};
use ov_ids::{MsgId, NodeId, OutOfMemory, Refill, Scale, Seq, Workers};
use ov_lines::{END, ID, Kind, LineCursor, Unread, is_word};
use ov_net::Event;
use std::alloc::{AllocError, Global};

/// The name of a line of parameters.
pub(crate) const PARAMS: &str = "params";

/// The name of a line that gives the seed.
pub(crate) const SEED: &str = "seed";

/// The name of a line that gives the rule at DISCONNECT.
pub(crate) const REFILL: &str = "refill";

/// The name of a line that gives the scale.
pub(crate) const SCALE: &str = "scale";

/// The names that a line of a scenario may begin with, in the order in which they are printed.
pub fn line_names() -> &'static [&'static str]
    ensures { map (λ name. name.now) result.now ≡ line_names }
{
    &[
        PARAMS,
        SEED,
        REFILL,
        SCALE,
        "words",
        "boot",
        "deliver",
        "lose",
        "repeat",
        "crash",
        "report",
        "shuffle",
        "broadcast",
        "timer",
        "snapshot",
        "analyse",
        "certificate",
        "show",
        "packets",
        "together",
        "also",
        "end",
    ]
}

/// The length of the shortest name of a line.
const SHORTEST_NAME: usize = 3;

const ACTIVE_VIEW: &str = "the size of the active view";

const PASSIVE_VIEW: &str = "the size of the passive view";

const ACTIVE_WALK_LENGTH: &str = "the active random walk length";

const PASSIVE_WALK_LENGTH: &str = "the passive random walk length";

const ACTIVE_SAMPLED: &str = "how many active members a shuffle samples";

const PASSIVE_SAMPLED: &str = "how many passive members a shuffle samples";

const TIME_TO_LIVE: &str = "the time to live of a shuffle";

/// What the seven numbers of a line of parameters are, in their order.
pub const PARAMETERS: [&str; 7] = [
    ACTIVE_VIEW,
    PASSIVE_VIEW,
    ACTIVE_WALK_LENGTH,
    PASSIVE_WALK_LENGTH,
    ACTIVE_SAMPLED,
    PASSIVE_SAMPLED,
    TIME_TO_LIVE,
];

/// What may stand at each of the seven numbers of a line of parameters, in their order.
const NUMBERS: [&[Kind]; 7] = [
    &[Kind::Short(ACTIVE_VIEW)],
    &[Kind::Short(PASSIVE_VIEW)],
    &[Kind::Short(ACTIVE_WALK_LENGTH)],
    &[Kind::Short(PASSIVE_WALK_LENGTH)],
    &[Kind::Short(ACTIVE_SAMPLED)],
    &[Kind::Short(PASSIVE_SAMPLED)],
    &[Kind::Short(TIME_TO_LIVE)],
];

const RULES: &[Kind] = &[
    Kind::Name("never"),
    Kind::Name("alone"),
    Kind::Name("always"),
];

const SCALES: &[Kind] = &[Kind::Name("profile"), Kind::Name("large")];

const ORIGIN: &[Kind] = &[Kind::Short("the id of the node that made the message")];

const SEQUENCE: &[Kind] = &[Kind::Short("the number of the message")];

const WORKERS: &[Kind] = &[Kind::Within(1, 64)];

const MOMENT: &[Kind] = &[Kind::Short("the moment of a snapshot")];

const GROUP: &[Kind] = &[Kind::Name("group"), Kind::End];

const WORKERS_OR_GROUP: &[Kind] = &[Kind::Name("workers"), Kind::Name("group"), Kind::End];

/// Why a line states nothing.
#[derive(Drop)]
pub(crate) enum Unstated {
    /// It can't be read.
    Unread(Unread),
    /// An allocation was refused.
    OutOfMemory,
}

impl From<Unread> for Unstated {
    ghost from_gives = { λ unread e. e ≡ unstated.Unread unread };

    fn from(unread: Unread) -> Unstated {
        Unstated::Unread(unread)
    }
}

impl From<AllocError> for Unstated {
    ghost from_gives = { λ _ e. e ≡ unstated.OutOfMemory };

    fn from(_error: AllocError) -> Unstated {
        Unstated::OutOfMemory
    }
}

impl From<OutOfMemory> for Unstated {
    ghost from_gives = { λ _ e. e ≡ unstated.OutOfMemory };

    fn from(_fault: OutOfMemory) -> Unstated {
        Unstated::OutOfMemory
    }
}

/// Reads what a line says that is not skipped.
pub(crate) fn state<'a>(
    alloc: Global,
    number: usize,
    text: &'a [u8],
) -> Result<Stated<'a>, OutOfMemory>
    ensures stated { IfOk result (λ stated. stated ≡ stated_at (number, text.now)) }
    ensures memory { IfErr result (λ _. IfSome (statement_of text.now) ReadingNeedsMemory) }
{
    let says = match read_statement(alloc, text) {
        Ok(statement) => Ok(statement),
        Err(Unstated::Unread(unread)) => Err(unread),
        Err(Unstated::OutOfMemory) => return Err(OutOfMemory),
    };
    Ok(Stated { number, says })
}

/// Reads what a line says.
pub(crate) fn read_statement<'a>(alloc: Global, text: &'a [u8]) -> Result<Statement<'a>, Unstated>
    ensures { Reads ReadingNeedsMemory result (statement_of text.now) }
{
    let mut cursor = LineCursor::new(text);
    let unknown = cursor.unread(&[Kind::LineName]);
    match cursor.word() {
        Some(name) => read_named(alloc, name, unknown, &mut cursor),
        None => Err(unknown.into()),
    }
}

/// Reads what follows the name of a line. A name that is too short is not compared with those that there are, so that a
/// file of very many lines is judged in little time. Lines that set something for those after them come first.
fn read_named<'a>(
    alloc: Global,
    name: &[u8],
    unknown: Unread,
    cursor: &mut LineCursor<'a>,
) -> Result<Statement<'a>, Unstated>
    ensures { Reads ReadingNeedsMemory result (row name.now (line_rows cursor.old (words_of cursor.old)) None) }
{
    if name.len() < SHORTEST_NAME {
        return Err(Unstated::Unread(unknown));
    }
    if is_word(name, PARAMS.as_bytes()) {
        return read_params(cursor);
    }
    if is_word(name, SEED.as_bytes()) {
        return read_seed(cursor);
    }
    if is_word(name, REFILL.as_bytes()) {
        return read_refill(cursor);
    }
    if is_word(name, SCALE.as_bytes()) {
        return read_scale(cursor);
    }
    if is_word(name, b"words") {
        return read_words(cursor);
    }
    read_event(alloc, name, unknown, cursor)
}

/// Reads what follows the name of any line that sets nothing for those after it. The first five names of events are
/// looked for.
fn read_event<'a>(
    alloc: Global,
    name: &[u8],
    unknown: Unread,
    cursor: &mut LineCursor<'a>,
) -> Result<Statement<'a>, Unstated>
    ensures { Reads ReadingNeedsMemory result
        (row name.now (event_rows cursor.old (words_of cursor.old) ++ look_rows (words_of cursor.old)
        ++ section_rows (words_of cursor.old)) None) }
{
    if is_word(name, b"boot") {
        return read_boot(cursor);
    }
    if is_word(name, b"deliver") {
        return read_numbered(Numbered::Deliver, cursor);
    }
    if is_word(name, b"lose") {
        return read_numbered(Numbered::Lose, cursor);
    }
    if is_word(name, b"repeat") {
        return read_numbered(Numbered::Repeat, cursor);
    }
    if is_word(name, b"crash") {
        return read_numbered(Numbered::Crash, cursor);
    }
    read_later_event(alloc, name, unknown, cursor)
}

/// The same, and the other five names of events are looked for.
fn read_later_event<'a>(
    alloc: Global,
    name: &[u8],
    unknown: Unread,
    cursor: &mut LineCursor<'a>,
) -> Result<Statement<'a>, Unstated>
    ensures { Reads ReadingNeedsMemory result
        (row name.now (drop 5 (event_rows cursor.old (words_of cursor.old)) ++ look_rows (words_of cursor.old)
        ++ section_rows (words_of cursor.old)) None) }
{
    if is_word(name, b"report") {
        return read_report(cursor);
    }
    if is_word(name, b"shuffle") {
        return read_numbered(Numbered::Shuffle, cursor);
    }
    if is_word(name, b"broadcast") {
        return read_broadcast(alloc, cursor);
    }
    if is_word(name, b"timer") {
        return read_timer(cursor);
    }
    if is_word(name, b"snapshot") {
        return read_alone(Statement::Event(Event::Snapshot), cursor);
    }
    read_look(alloc, name, unknown, cursor)
}

/// Reads what follows the name of an analysis, of a look, or of a line that begins or ends a section.
fn read_look<'a>(
    alloc: Global,
    name: &[u8],
    unknown: Unread,
    cursor: &mut LineCursor<'a>,
) -> Result<Statement<'a>, Unstated>
    ensures { Reads ReadingNeedsMemory result
        (row name.now (look_rows (words_of cursor.old) ++ section_rows (words_of cursor.old)) None) }
{
    if is_word(name, b"analyse") {
        return read_analysis(alloc, cursor);
    }
    if is_word(name, b"certificate") {
        return read_certificate(alloc, cursor);
    }
    if is_word(name, b"show") {
        return read_show(cursor);
    }
    if is_word(name, b"packets") {
        return read_alone(Statement::Look(Look::Packets), cursor);
    }
    read_section(name, unknown, cursor)
}

/// Reads what follows the name of a line that begins or ends a section.
fn read_section<'a>(
    name: &[u8],
    unknown: Unread,
    cursor: &LineCursor<'a>,
) -> Result<Statement<'a>, Unstated>
    ensures { Reads ReadingNeedsMemory result (row name.now (section_rows (words_of cursor.now)) None) }
{
    if is_word(name, b"together") {
        return read_alone(Statement::Together, cursor);
    }
    if is_word(name, b"also") {
        return read_alone(Statement::Also, cursor);
    }
    if is_word(name, b"end") {
        return read_alone(Statement::End, cursor);
    }
    Err(unknown.into())
}

/// Reads the end of a line that says this if it has no further word.
fn read_alone<'a>(said: Statement<'a>, cursor: &LineCursor<'_>) -> Result<Statement<'a>, Unstated>
    ensures { Reads ReadingNeedsMemory result (alone said.entry (words_of cursor.now)) }
{
    if cursor.is_at_end() {
        return Ok(said);
    }
    Err(Unstated::Unread(cursor.unread(END)))
}

/// Reads what follows the name of an event that one number names.
fn read_numbered<'a>(
    event: Numbered,
    cursor: &mut LineCursor<'a>,
) -> Result<Statement<'a>, Unstated>
    ensures { Reads ReadingNeedsMemory result
        (option_map (λ n. says.Event (numbered event n)) (one short_bits (words_of cursor.old))) }
{
    let number = cursor.last_short_number(event.wanted())?;
    Ok(Statement::Event(event.with(number)))
}

/// Reads what follows the name `broadcast`: the node, and the payload, which is all bytes after one space.
fn read_broadcast<'a>(alloc: Global, cursor: &mut LineCursor<'a>) -> Result<Statement<'a>, Unstated>
    ensures { Reads ReadingNeedsMemory result
        (option_map says.Event (broadcast_of cursor.old (words_of cursor.old))) }
{
    let node = NodeId::new(cursor.short_number(&[ID])?);
    let payload = Seq::new(Vec::from_slice(alloc, cursor.after_space())?);
    Ok(Statement::Event(Event::Broadcast(node, payload)))
}

/// Reads what follows the name `analyse`: the moment, the number of workers if one is named, and the group if one is
/// named.
fn read_analysis<'a>(alloc: Global, cursor: &mut LineCursor<'a>) -> Result<Statement<'a>, Unstated>
    ensures { Reads ReadingNeedsMemory result (analysis_of (words_of cursor.old)) }
{
    let moment = cursor.short_number(MOMENT)?;
    let workers = match read_named_workers(cursor) {
        Ok(workers) => workers,
        Err(unread) => return Err(unread.into()),
    };
    let wanted = wanted_behind(workers.is_some());
    let subject = read_subject_at(alloc, moment, wanted, cursor)?;
    Ok(Statement::Analyse { subject, workers })
}

/// Reads `workers W`, if the next word is `workers`, and nothing otherwise.
fn read_named_workers<'a>(cursor: &mut LineCursor<'a>) -> Result<Option<Workers>, Unread>
    ensures { option_map (λ n. (n, words_of cursor.new)) (result_ok result) ≡ workers_named (words_of cursor.old) }
{
    let before = cursor.copy();
    let Some(name) = cursor.word() else {
        return Ok(None);
    };
    if is_word(name, b"workers") {
        return match cursor.workers(WORKERS) {
            Ok(workers) => Ok(Some(workers)),
            Err(unread) => Err(unread),
        };
    }
    *cursor = before;
    Ok(None)
}

/// What may follow the moment of an analysis, or its number of workers if one is named.
fn wanted_behind(names_workers: bool) -> &'static [Kind] {
    if names_workers {
        return GROUP;
    }
    WORKERS_OR_GROUP
}

/// Reads what follows the name `certificate`: the moment, and the group if one is named.
fn read_certificate<'a>(
    alloc: Global,
    cursor: &mut LineCursor<'a>,
) -> Result<Statement<'a>, Unstated>
    ensures { Reads ReadingNeedsMemory result
        (option_map (λ s. says.Look (look.Certificate s)) (subject_of (words_of cursor.old))) }
{
    let subject = read_subject(alloc, cursor)?;
    Ok(Statement::Look(Look::Certificate(subject)))
}

/// Reads the moment of an analysis, and its group if one is named: `M`, or `M group IDS`.
fn read_subject(alloc: Global, cursor: &mut LineCursor) -> Result<Subject, Unstated>
    ensures { Reads HasIds result (subject_of (words_of cursor.old)) }
{
    let moment = cursor.short_number(MOMENT)?;
    read_subject_at(alloc, moment, GROUP, cursor)
}

/// Reads what follows the moment of an analysis, or its number of workers: nothing, or `group IDS`. This may be there.
fn read_subject_at(
    alloc: Global,
    moment: u32,
    wanted: &'static [Kind],
    cursor: &mut LineCursor,
) -> Result<Subject, Unstated>
    ensures { Reads HasIds result (subject_at moment (words_of cursor.old)) }
{
    if cursor.is_at_end() {
        let group = None;
        return Ok(Subject { moment, group });
    }
    cursor.name("group", wanted)?;
    read_group(alloc, moment, cursor)
}

/// Reads what follows the name `group`: the ids.
fn read_group(alloc: Global, moment: u32, cursor: &mut LineCursor) -> Result<Subject, Unstated>
    ensures { Reads HasIds result (group_at moment (words_of cursor.old)) }
{
    let group = Some(Seq::new(cursor.last_ids(alloc)??));
    Ok(Subject { moment, group })
}

/// Reads what follows the name `show`: the node.
fn read_show<'a>(cursor: &mut LineCursor<'a>) -> Result<Statement<'a>, Unstated>
    ensures { Reads ReadingNeedsMemory result
        (option_map (λ n. says.Look (look.Show n)) (one short_bits (words_of cursor.old))) }
{
    let node = NodeId::new(cursor.last_short_number(&[ID])?);
    Ok(Statement::Look(Look::Show(node)))
}

/// Reads what follows the name `report`: the node that hears, and the one that crashed.
fn read_report<'a>(cursor: &mut LineCursor<'a>) -> Result<Statement<'a>, Unstated>
    ensures { Reads ReadingNeedsMemory result
        (option_map (λ p. says.Event (crash_report_of p)) (two (words_of cursor.old))) }
{
    let node = NodeId::new(cursor.short_number(&[ID])?);
    let crashed = NodeId::new(cursor.last_short_number(&[ID])?);
    Ok(Statement::Event(Event::CrashReport(node, crashed)))
}

/// Reads what follows the name `timer`: the node, and the message.
fn read_timer<'a>(cursor: &mut LineCursor<'a>) -> Result<Statement<'a>, Unstated>
    ensures { Reads ReadingNeedsMemory result
        (option_map (λ p. says.Event (timer_of p)) (three (words_of cursor.old))) }
{
    let node = NodeId::new(cursor.short_number(&[ID])?);
    let origin = NodeId::new(cursor.short_number(ORIGIN)?);
    let seq = cursor.last_short_number(SEQUENCE)?;
    let id = MsgId { origin, seq };
    Ok(Statement::Event(Event::Timer(node, id)))
}

/// Reads what follows the name `boot`: the node, and its contact if it has one.
fn read_boot<'a>(cursor: &mut LineCursor<'a>) -> Result<Statement<'a>, Unstated>
    ensures { Reads ReadingNeedsMemory result (option_map says.Event (boot_of (words_of cursor.old))) }
{
    let node = NodeId::new(cursor.short_number(&[ID])?);
    if cursor.is_at_end() {
        return Ok(Statement::Event(Event::Boot(node, None)));
    }
    cursor.name("by", &[Kind::Name("by"), Kind::End])?;
    let contact = NodeId::new(cursor.last_short_number(&[ID])?);
    Ok(Statement::Event(Event::Boot(node, Some(contact))))
}

/// Reads what follows the name `words`: the random words.
fn read_words<'a>(cursor: &mut LineCursor<'a>) -> Result<Statement<'a>, Unstated>
    ensures { Reads ReadingNeedsMemory result (option_map says.Words (event_words (words_of cursor.old))) }
{
    Ok(Statement::Words(GivenWords::read(cursor)?))
}

/// Reads what follows the name `seed`: the seed.
fn read_seed<'a>(cursor: &mut LineCursor<'a>) -> Result<Statement<'a>, Unstated>
    ensures { Reads ReadingNeedsMemory result (option_map says.Seed (one long_bits (words_of cursor.old))) }
{
    Ok(Statement::Seed(cursor.last_number(&[Kind::Long("the seed")])?))
}

/// Reads what follows the name `refill`: the word for a rule at DISCONNECT.
fn read_refill<'a>(cursor: &mut LineCursor<'a>) -> Result<Statement<'a>, Unstated>
    ensures { Reads ReadingNeedsMemory result (option_map says.Refill (one_rule (words_of cursor.old))) }
{
    let unread = cursor.unread(RULES);
    let Some(word) = cursor.word() else {
        return Err(unread.into());
    };
    match Refill::from_name(word) {
        Some(rule) => read_alone(Statement::Refill(rule), cursor),
        None => Err(unread.into()),
    }
}

/// Reads what follows the name `scale`: the word for a scale.
fn read_scale<'a>(cursor: &mut LineCursor<'a>) -> Result<Statement<'a>, Unstated>
    ensures { Reads ReadingNeedsMemory result (option_map says.Scale (one_scale (words_of cursor.old))) }
{
    let unread = cursor.unread(SCALES);
    let Some(word) = cursor.word() else {
        return Err(unread.into());
    };
    match Scale::from_name(word) {
        Some(scale) => read_alone(Statement::Scale(scale), cursor),
        None => Err(unread.into()),
    }
}

/// Reads what follows the name `params`: the numbers of the parameters.
fn read_params<'a>(cursor: &mut LineCursor<'a>) -> Result<Statement<'a>, Unstated>
    ensures { Reads ReadingNeedsMemory result (option_map says.Params (seven_numbers (words_of cursor.old))) }
{
    Ok(Statement::Params(read_numbers(cursor)?))
}

/// Reads seven numbers, up to the end of a line.
#[tactic(auto, using(crate::proofs::Lines::Filling::more))]
fn read_numbers(cursor: &mut LineCursor) -> Result<[u32; 7], Unread>
    ensures { result_ok result ≡ seven_numbers (words_of cursor.old) }
{
    let mut numbers = [0; 7];
    let mut count = 0;
    while count < 7 {
        numbers[count] = cursor.short_number(NUMBERS[count])?;
        count += 1;
    }
    if cursor.is_at_end() {
        return Ok(numbers);
    }
    Err(cursor.unread(END))
}
