//! The files of worked graphs and certificates.

pub(crate) const TWO_LINKED: &str =
    r#"{"k":1,"links":[[1,2]],"moment":6,"nodes":[1,2],"verdict":"linked","version":1}"#;

pub(crate) const TWO_LINKED_GROUP: &str =
    r#"{"group":[1,2],"k":1,"links":[[1,2]],"moment":6,"nodes":[1,2],"verdict":"linked","version":2}"#;

pub(crate) const TWO_UNLINKED: &str =
    r#"{"cut":[],"fans":[],"far":1,"k":0,"links":[],"moment":4,"near":2,"nodes":[1,2],"pairs":[],"side":[2],"verdict":"split","version":1}"#;

/// Four nodes in a ring.
pub(crate) const SQUARE: &str =
    r#"{"cut":[2,4],"fans":[{"j":3,"paths":[[3,2],[3,4,1]]},{"j":4,"paths":[[4,1],[4,3]]}],"far":3,"k":2,"links":[[1,2],[1,4],[2,3],[3,4]],"moment":0,"near":1,"nodes":[1,2,3,4],"pairs":[],"side":[1],"verdict":"split","version":1}"#;

/// Three of these nodes.
pub(crate) const SQUARE_GROUP: &str =
    r#"{"cut":[2,4],"fans":[{"j":3,"paths":[[3,2],[3,4,1]]}],"far":3,"group":[1,2,3],"k":2,"links":[[1,2],[1,4],[2,3],[3,4]],"moment":0,"near":1,"nodes":[1,2,3,4],"pairs":[],"side":[1],"verdict":"split","version":2}"#;

/// Five nodes, every two linked but 1 and 2.
pub(crate) const FIVE_BUT_ONE: &str =
    r#"{"cut":[3,4,5],"fans":[{"j":4,"paths":[[4,1],[4,2],[4,3]]},{"j":5,"paths":[[5,1],[5,2],[5,3]]}],"far":2,"k":3,"links":[[1,3],[1,4],[1,5],[2,3],[2,4],[2,5],[3,4],[3,5],[4,5]],"moment":0,"near":1,"nodes":[1,2,3,4,5],"pairs":[{"i":1,"j":2,"paths":[[1,3,2],[1,4,2],[1,5,2]]}],"side":[1],"verdict":"split","version":1}"#;

/// The two of these nodes that are not linked.
pub(crate) const FIVE_GROUP: &str =
    r#"{"cut":[3,4,5],"fans":[],"far":2,"group":[1,2],"k":3,"links":[[1,3],[1,4],[1,5],[2,3],[2,4],[2,5],[3,4],[3,5],[4,5]],"moment":0,"near":1,"nodes":[1,2,3,4,5],"pairs":[{"i":1,"j":2,"paths":[[1,3,2],[1,4,2],[1,5,2]]}],"side":[1],"verdict":"split","version":2}"#;

/// One of these nodes.
pub(crate) const FIVE_LINKED_GROUP: &str =
    r#"{"group":[2],"k":0,"links":[[1,3],[1,4],[1,5],[2,3],[2,4],[2,5],[3,4],[3,5],[4,5]],"moment":0,"nodes":[1,2,3,4,5],"verdict":"linked","version":2}"#;

/// The triangles 1, 2, 3 and 3, 4, 5, with one node more in the cut than it takes.
pub(crate) const TWO_TRIANGLES: &str =
    r#"{"cut":[3,4],"fans":[],"far":1,"k":2,"links":[[1,2],[1,3],[2,3],[3,4],[3,5],[4,5]],"moment":0,"near":5,"nodes":[1,2,3,4,5],"pairs":[],"side":[5],"verdict":"split","version":1}"#;

/// One node of each triangle.
pub(crate) const TRIANGLES_GROUP: &str =
    r#"{"cut":[3],"fans":[{"j":5,"paths":[[5,3,1]]}],"far":5,"group":[1,5],"k":1,"links":[[1,2],[1,3],[2,3],[3,4],[3,5],[4,5]],"moment":0,"near":1,"nodes":[1,2,3,4,5],"pairs":[],"side":[1,2],"verdict":"split","version":2}"#;

/// The ends of a path of three nodes.
pub(crate) const PATH_GROUP: &str =
    r#"{"cut":[2],"fans":[{"j":3,"paths":[[3,2,1]]}],"far":3,"group":[1,3],"k":1,"links":[[1,2],[2,3]],"moment":0,"near":1,"nodes":[1,2,3],"pairs":[],"side":[1],"verdict":"split","version":2}"#;

/// Five nodes in a ring, and one more that is linked to 2. The group is three nodes of the ring.
pub(crate) const RING_GROUP: &str =
    r#"{"cut":[2,5],"fans":[{"j":5,"paths":[[5,1],[5,4,3]]}],"far":3,"group":[1,3,5],"k":2,"links":[[1,2],[1,5],[2,3],[2,6],[3,4],[4,5]],"moment":0,"near":1,"nodes":[1,2,3,4,5,6],"pairs":[{"i":1,"j":3,"paths":[[1,2,3],[1,5,4,3]]}],"side":[1],"verdict":"split","version":2}"#;
