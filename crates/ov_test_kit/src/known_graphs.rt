/// The links of the Petersen graph: the outer ring 1 to 5, a spoke from each of them to the node five above it, and the
/// inner ring 6, 8, 10, 7, 9.
pub const PETERSEN: [(u32, u32); 15] = [
    (1, 2),
    (1, 5),
    (1, 6),
    (2, 3),
    (2, 7),
    (3, 4),
    (3, 8),
    (4, 5),
    (4, 9),
    (5, 10),
    (6, 8),
    (6, 9),
    (7, 9),
    (7, 10),
    (8, 10),
];
