ghost use Rattle.std.specs.Prelude.{◌≡◌, ◌↔◌, ◌⊎◌, ℕ, ◌<◌, ◌≤◌, ◌*◌, [], length, IfOk};
ghost use Rattle.ov_graph.specs.Links.{IsGraph, most_nodes};
ghost use Rattle.ov_graph.specs.Row.{HasBit, word_bits};
ghost use Rattle.ov_graph.specs.Code.Kept.{row_at, IsMarked};

use crate::bit_rows::{EMPTY, Row, WORDS, clear, put};
use crate::node_places_by_id::place_in;
use ov_ids::NodeId;
use std::alloc::{AllocError, Global};

/// The rows of a graph of these nodes and links.
pub(crate) fn rows_of(
    alloc: Global,
    nodes: &[NodeId],
    links: &[(NodeId, NodeId)],
) -> Result<Vec<Row>, AllocError>
    requires graph { IsGraph (record { nodes = nodes.now; links = links.now }) }
    requires few { length nodes.now ≤ most_nodes }
    ensures { IfOk result (λ rows. IsMarked nodes.now links.now rows.items) }
{
    let mut rows = Vec::from_elem(alloc, EMPTY, nodes.len())?;
    mark_all(nodes, links, &mut rows);
    Ok(rows)
}

/// Sets the bits of the links in rows that have none.
fn mark_all(nodes: &[NodeId], links: &[(NodeId, NodeId)], rows: &mut [Row])
    requires graph { IsGraph (record { nodes = nodes.now; links = links.now }) }
    requires few { length nodes.now ≤ most_nodes }
    requires none { IsMarked nodes.now [] rows.old }
    ensures { IsMarked nodes.now links.now rows.new }
{
    for link in links {
        let p = place_in(nodes, link.0);
        let q = place_in(nodes, link.1);
        mark(rows, p, q);
        mark(rows, q, p);
    }
}

/// Sets bit `q` of the row at `p`.
pub(crate) fn mark(rows: &mut [Row], p: usize, q: usize)
    requires row { p < length rows.old }
    requires bit { q < word_bits * WORDS }
    ensures { (r s : ℕ) → HasBit (row_at rows.new r) s ↔ (((r ≡ p) × (s ≡ q)) ⊎ HasBit (row_at rows.old r) s) }
{
    put(&mut rows[p], q);
}

/// Clears bit `q` of the row at `p`.
pub(crate) fn unmark(rows: &mut [Row], p: usize, q: usize)
    requires row { p < length rows.old }
    requires bit { q < word_bits * WORDS }
    ensures { (r s : ℕ) → HasBit (row_at rows.new r) s ↔ (¬ ((r ≡ p) × (s ≡ q)) × HasBit (row_at rows.old r) s) }
{
    clear(&mut rows[p], q);
}
