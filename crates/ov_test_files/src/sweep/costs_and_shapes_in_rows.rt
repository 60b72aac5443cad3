//! Rows with what broadcasts cost, and with shapes, written out by hand.
use crate::sweep::rows::{HEADER, ROWS, first_options, first_row, has_rows};
use ov_grow_options::GrowOptions;
use ov_ids::NodeId;
use ov_sweep_rows::{FourDecimals, PhaseCosts, PhaseRow, PhaseShape, Row, RowForm, row_text};
use std::alloc::{AllocError, Global};
use std::test::Fail;

/// What stands behind the header and behind a row: the further options, the costs and the shapes. No two columns of a
/// phase have the same number; some are empty, and some have the highest that there is.
const HEADERS: [&str; 3] = [
    ",sequential,sender,detect",
    ",settle_gossip,settle_ihave,settle_graft,settle_prune,settle_hops,settle_redundancy,\
     crash_gossip,crash_ihave,crash_graft,crash_prune,crash_hops,crash_redundancy,\
     heal_gossip,heal_ihave,heal_graft,heal_prune,heal_hops,heal_redundancy",
    ",settle_largest,settle_clustering,settle_path,settle_diameter,settle_degree_25,settle_degree_50,settle_degree_75,\
     settle_articulations,\
     crash_largest,crash_clustering,crash_path,crash_diameter,crash_degree_25,crash_degree_50,crash_degree_75,\
     crash_articulations,\
     heal_largest,heal_clustering,heal_path,heal_diameter,heal_degree_25,heal_degree_50,heal_degree_75,\
     heal_articulations",
];

const FIELDS: [&str; 3] = [
    ",1,17,0",
    ",1,2,3,4,5.0006,0.0007,8,9,10,11,,,12,13,14,4294967295,0.0000,1844674407370955.1615",
    ",58,0.0625,,0,1,2,3,13,4,0.0000,1.0001,5,6,7,8,14,9,1.0000,2.5000,10,11,12,4294967295,15",
];

/// Whether rows with the further columns have the costs, and the shapes.
const MEASURED: [(bool, bool); 4] = [(false, false), (true, false), (false, true), (true, true)];

fn decimals(parts: u64) -> Option<FourDecimals> {
    Some(FourDecimals { parts })
}

fn costs() -> [PhaseCosts; 3] {
    [
        PhaseCosts {
            gossip: 1,
            ihave: 2,
            graft: 3,
            prune: 4,
            hops: decimals(50006),
            redundancy: decimals(7),
        },
        PhaseCosts {
            gossip: 8,
            ihave: 9,
            graft: 10,
            prune: 11,
            hops: None,
            redundancy: None,
        },
        PhaseCosts {
            gossip: 12,
            ihave: 13,
            graft: 14,
            prune: u32::MAX,
            hops: decimals(0),
            redundancy: decimals(u64::MAX),
        },
    ]
}

fn shapes() -> [PhaseShape; 3] {
    [
        PhaseShape {
            largest: 58,
            clustering: FourDecimals { parts: 625 },
            path: None,
            diameter: 0,
            degree_25: 1,
            degree_50: 2,
            degree_75: 3,
            articulations: 13,
        },
        PhaseShape {
            largest: 4,
            clustering: FourDecimals { parts: 0 },
            path: decimals(10001),
            diameter: 5,
            degree_25: 6,
            degree_50: 7,
            degree_75: 8,
            articulations: 14,
        },
        PhaseShape {
            largest: 9,
            clustering: FourDecimals { parts: 10000 },
            path: decimals(25000),
            diameter: 10,
            degree_25: 11,
            degree_50: 12,
            degree_75: u32::MAX,
            articulations: 15,
        },
    ]
}

/// The phase with these costs and this shape, as far as they are asked for.
fn measured(row: PhaseRow, costs: PhaseCosts, shape: PhaseShape, asked: (bool, bool)) -> PhaseRow {
    let (has_costs, has_shape) = asked;
    PhaseRow {
        costs: if has_costs { Some(costs) } else { None },
        shape: if has_shape { Some(shape) } else { None },
        ..row
    }
}

/// The row with the further options, and with costs and shapes as far as they are asked for.
fn row(options: GrowOptions, asked: (bool, bool)) -> Row {
    let mut options = options;
    options.sequential = true;
    options.sender = Some(NodeId::new(17));
    let row = first_row(options);
    let [settle, crash, heal] = row.phases;
    let [settle_costs, crash_costs, heal_costs] = costs();
    let [settle_shape, crash_shape, heal_shape] = shapes();
    Row {
        phases: [
            measured(settle, settle_costs, settle_shape, asked),
            measured(crash, crash_costs, crash_shape, asked),
            measured(heal, heal_costs, heal_shape, asked),
        ],
        ..row
    }
}

/// A line with what stands behind it, as far as it is asked for.
fn line(
    alloc: Global,
    begin: &str,
    more: &[&str; 3],
    asked: (bool, bool),
) -> Result<String, AllocError> {
    let [further, costs, shapes] = more;
    let mut text = String::from_str(alloc, begin.strip_suffix("\n").unwrap_or(begin))?;
    text.push_str(further)?;
    if asked.0 {
        text.push_str(costs)?;
    }
    if asked.1 {
        text.push_str(shapes)?;
    }
    text.push_str("\n")?;
    Ok(text)
}

/// Whether a row is written as this text.
fn is_written(alloc: Global, form: RowForm, row: &Row, text: &str) -> bool {
    match row_text(alloc, form, row) {
        Ok(written) => written.as_slice() == text.as_bytes(),
        Err(_) => false,
    }
}

#[test]
fn costs_and_shapes_are_read_and_written(rt: HostRuntime) -> Result<(), Fail> {
    let options = first_options().ok_or("options out of their limits")?;
    for asked in MEASURED {
        let form = RowForm {
            further: true,
            costs: asked.0,
            shape: asked.1,
        };
        let expected = row(options, asked);
        let mut text = line(rt.alloc(), HEADER, &HEADERS, asked)?;
        let behind = line(rt.alloc(), ROWS[0], &FIELDS, asked)?;
        text.push_str(behind.as_str())?;
        let is_read = has_rows(rt.alloc(), text.as_str(), &[expected]);
        assert!(rt;
            is_read && is_written(rt.alloc(), form, &expected, behind.as_str()),
            "{text}"
        );
    }
    Ok(())
}
