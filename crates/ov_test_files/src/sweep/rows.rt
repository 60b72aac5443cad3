//! Rows of a sweep, written out by hand.
use ov_grow_options::{Chance, Count, Crash, GrowOptions, NodeCount, Order, Pace, Share};
use ov_ids::{NodeId, Params, Refill};
use ov_sweep_rows::{DeliveredShare, PhaseRow, Row, RowFault, read_rows};
use std::alloc::{AllocError, Global};
use std::test::Fail;

/// The line that rows begin with.
pub(crate) const HEADER: &str = "\
nodes,active,passive,arwl,prwl,ka,kp,ttl,refill,loss_join,loss,repeat,order,pace,rounds,crash,heal,broadcasts,seed,\
settle_nodes,settle_k,settle_least_degree,settle_links,settle_entries,settle_delivered,\
crash_nodes,crash_k,crash_least_degree,crash_links,crash_entries,crash_delivered,\
heal_nodes,heal_k,heal_least_degree,heal_links,heal_entries,heal_delivered\n";

/// Two rows: no two options of the first one have the same number, one of its columns has the highest that there is, and
/// all options of the second one are at their defaults.
pub(crate) const ROWS: [&str; 2] = [
    "60,4,20,6,2,1,3,5,alone,8,9,11,oldest,7,12,cut,13,10,18446744073709551615,\
     60,2,3,171,1834,0.9950,58,0,1,160,1836,0.0000,58,3,3,4294967295,2100,1.0000\n",
    "100,5,30,6,3,3,4,4,never,0,0,0,random,,3,0,2,0,0,100,0,0,200,2000,,100,0,0,200,2000,,100,1,1,210,3000,\n",
];

fn phase(nodes: u32, k: u32, least_degree: u32, links: u32, entries: u32) -> PhaseRow {
    PhaseRow {
        nodes,
        k,
        least_degree,
        links,
        entries,
        delivered: None,
        costs: None,
        shape: None,
    }
}

/// The phase with so many deliveries of ten broadcasts.
fn delivered(row: PhaseRow, deliveries: u32) -> PhaseRow {
    PhaseRow {
        delivered: DeliveredShare::new(deliveries, 10, row.nodes),
        ..row
    }
}

/// The options of the first row. 597 of 600 deliveries are 0.995, and 1 of 580 is less than 0.002.
pub(crate) fn first_options() -> Option<GrowOptions> {
    Some(GrowOptions {
        nodes: NodeCount::new(60)?,
        params: Params::new(4, 20, 6, 2, 1, 3, 5)
            .ok()?
            .with_refill(Refill::Alone),
        seed: u64::MAX,
        loss_join: Chance::new(8)?,
        loss: Chance::new(9)?,
        repeat: Share::new(11)?,
        order: Order::Oldest,
        pace: Some(Pace::new(7)?),
        rounds: Count::new(12)?,
        crash: Crash::Cut,
        heal: Count::new(13)?,
        broadcasts: Count::new(10)?,
        sequential: false,
        sender: None,
        detect: false,
    })
}

pub(crate) fn first_row(options: GrowOptions) -> Row {
    Row {
        options,
        phases: [
            delivered(phase(60, 2, 3, 171, 1834), 597),
            delivered(phase(58, 0, 1, 160, 1836), 0),
            delivered(phase(58, 3, 3, u32::MAX, 2100), 580),
        ],
    }
}

fn second_row() -> Row {
    Row {
        options: GrowOptions::default(),
        phases: [
            phase(100, 0, 0, 200, 2000),
            phase(100, 0, 0, 200, 2000),
            phase(100, 1, 1, 210, 3000),
        ],
    }
}

/// The header and both rows.
fn text(alloc: Global) -> Result<String, AllocError> {
    let mut text = String::from_str(alloc, HEADER)?;
    for row in ROWS {
        text.push_str(row)?;
    }
    Ok(text)
}

/// Whether a text has these rows.
pub(crate) fn has_rows(alloc: Global, text: &str, expected: &[Row]) -> bool {
    match read_rows(alloc, text.as_bytes()) {
        Ok(rows) => rows.as_slice() == expected,
        Err(_) => false,
    }
}

#[test]
fn rows_are_read(rt: HostRuntime) -> Result<(), Fail> {
    let options = first_options().ok_or("options out of their limits")?;
    let expected = [first_row(options), second_row()];
    let text = text(rt.alloc())?;
    assert!(rt; has_rows(rt.alloc(), text.as_str(), &expected));
    Ok(())
}

/// What stands behind the header and behind each row, if a further option is asked for.
const FURTHER: [&str; 3] = [",sequential,sender,detect\n", ",1,17,0\n", ",0,,1\n"];

/// The header and both rows, with the columns of the further options.
fn wider_text(alloc: Global) -> Result<String, AllocError> {
    let mut text = String::new(alloc);
    let [first, second] = ROWS;
    for (line, more) in [HEADER, first, second].iter().zip(&FURTHER) {
        text.push_str(line.strip_suffix("\n").unwrap_or(line))?;
        text.push_str(more)?;
    }
    Ok(text)
}

#[test]
fn further_options_are_read(rt: HostRuntime) -> Result<(), Fail> {
    let mut options = first_options().ok_or("options out of their limits")?;
    options.sequential = true;
    options.sender = Some(NodeId::new(17));
    let mut second = second_row();
    second.options.detect = true;
    let expected = [first_row(options), second];
    let text = wider_text(rt.alloc())?;
    assert!(rt; has_rows(rt.alloc(), text.as_str(), &expected));
    Ok(())
}

/// What stands in place of a part of these rows, and why they are refused then.
static FURTHER_CHANGED: [(&str, &str, &str); 4] = [
    (",1,17,0", ",2,17,0", "line 2: sequential must be 0 or 1"),
    (
        ",1,17,0",
        ",1,32769,0",
        "line 2: sender must be a number from 1 to 32768, or empty",
    ),
    (",0,,1", ",0,,", "line 3: detect must be 0 or 1"),
    (
        ",0,,1",
        "",
        "line 3: the row has 37 fields and must have 40",
    ),
];

#[test]
fn other_further_options_are_refused(rt: HostRuntime) -> Result<(), Fail> {
    let text = wider_text(rt.alloc())?;
    for (from, to, reason) in &FURTHER_CHANGED {
        assert!(rt;
            is_refused_with(rt.alloc(), text.as_str(), from, to, reason),
            "{reason}"
        );
    }
    Ok(())
}

/// What stands in place of a part of the second row, and why the rows are refused then.
static CHANGED: [(&str, &str, &str); 13] = [
    (
        "100,5,",
        "32769,5,",
        "line 3: nodes must be a number from 1 to 32768",
    ),
    (
        "100,5,",
        ",5,",
        "line 3: nodes must be a number from 1 to 32768",
    ),
    (
        ",4,4,never,",
        ",4,0,never,",
        "line 3: ttl must be a number from 1 to 15, after parameters within their limits",
    ),
    (
        ",never,",
        ",ever,",
        "line 3: refill must be never, alone or always",
    ),
    (
        ",never,0,0,0,",
        ",never,101,0,0,",
        "line 3: loss_join must be a number from 0 to 100",
    ),
    (
        ",random,,3,",
        ",random,,1001,",
        "line 3: rounds must be a number from 0 to 1000",
    ),
    (
        ",3,0,2,0,0,",
        ",3,0,2,1001,0,",
        "line 3: broadcasts must be a number from 0 to 1000",
    ),
    (
        ",random,",
        ",any,",
        "line 3: order must be random or oldest",
    ),
    (
        ",random,,",
        ",random,all,",
        "line 3: pace must be a number from 0 to 65536, or empty",
    ),
    (
        ",3,0,2,0,0,",
        ",3,100,2,0,0,",
        "line 3: crash must be a number from 0 to 99, or cut",
    ),
    (
        ",2000,,100,0,0,",
        ",2000,1.0,100,0,0,",
        "line 3: settle_delivered must be a number with four decimal digits, or empty",
    ),
    (
        ",210,3000,",
        ",-210,3000,",
        "line 3: heal_links must be a number below 2 to the power of 32",
    ),
    (
        ",210,3000,",
        ",210,3000",
        "line 3: the row has 36 fields and must have 37",
    ),
];

/// Why texts are no rows from their first line on.
const NO_HEADER: &str = "line 1 must be the header of the rows, nodes,active,passive and so on";

/// Whether a fault has this reason.
fn is_reason(alloc: Global, fault: RowFault, reason: &str) -> bool {
    match fault.to_string(alloc) {
        Ok(told) => told.as_str() == reason,
        Err(_) => false,
    }
}

/// Whether a text is refused for this reason.
fn is_refused(alloc: Global, text: &str, reason: &str) -> bool {
    match read_rows(alloc, text.as_bytes()) {
        Ok(_) => false,
        Err(fault) => is_reason(alloc, fault, reason),
    }
}

/// Whether a text with one part in place of another is refused for this reason.
fn is_refused_with(alloc: Global, text: &str, from: &str, to: &str, reason: &str) -> bool {
    match text.replace(alloc, from, to) {
        Ok(changed) => is_refused(alloc, changed.as_str(), reason),
        Err(_) => false,
    }
}

#[test]
fn other_rows_are_refused(rt: HostRuntime) -> Result<(), Fail> {
    let text = text(rt.alloc())?;
    for (from, to, reason) in &CHANGED {
        assert!(rt;
            is_refused_with(rt.alloc(), text.as_str(), from, to, reason),
            "{reason}"
        );
    }
    let [first, _] = ROWS;
    for text in ["", "nodes\n", first] {
        assert!(rt; is_refused(rt.alloc(), text, NO_HEADER), "{text}");
    }
    Ok(())
}
