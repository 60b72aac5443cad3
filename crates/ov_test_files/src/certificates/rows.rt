//! Changes of the worked files, and the line that the checker prints of each. A row is a part of the file's text, what
//! replaces it, and the line. Of two members of an object with one name the last one counts.

pub(crate) const TWO_LINKED: &str = r#"
"version":1 => "version":1 => holds 6 linked k 1
"k":1 => "k":2 => fails 40
"k":1 => "k":4294967295 => fails 40
"k":1 => "k":4294967296 => refused 63
"k":1 => "k":1.0 => refused 63
"k":1 => "k":1e0 => refused 63
"k":1 => "k":-0 => refused 63
"k":1 => "k":1e400 => refused 60
"k":1 => "k":2,"k":1 => holds 6 linked k 1
"k":1 => "\u006b" : 1 => holds 6 linked k 1
[[1,2]] => [] => fails 46
[[1,2]] => [[2,1]] => refused 33
[[1,2]] => [[1,2],[1,2]] => refused 32
[[1,2]] => [[1,2,2]] => refused 63
"nodes":[1,2] => "nodes":[2,1] => refused 32
"nodes":[1,2] => "nodes":[1,2.0] => refused 63
"moment":6, =>  => refused 61
"moment":6, => "months":6, => refused 61
"moment":6 => "moment":6,"months":6 => refused 62
"moment":6 => "moment":65536 => holds 65536 linked k 1
"moment":6 => "moment":70000 => refused 63
"moment":6 => "moment":6e0 => refused 63
"moment":6 => "moment":-0 => refused 63
"linked" => "split" => refused 61
"linked" => "whole" => refused 63
"version":1 => "version":2 => refused 61
"version":1 => "version":1.0 => refused 64
"version":1 => "version":0 => refused 64
"k":1,"links":[[1,2]],"moment":6,"nodes":[1,2] => "k":0,"links":[],"moment":1,"nodes":[] => fails 47
"k":1 => "k":0 => fails 40
"k":1,"links":[[1,2]] => "k":0,"links":[] => fails 40
"k":1,"links":[[1,2]],"moment":6,"nodes":[1,2] => "k":0,"links":[],"moment":6,"nodes":[7] => holds 6 linked k 0
"k":1,"links":[[1,2]],"moment":6,"nodes":[1,2] => "k":4,"links":[[1,3],[1,4],[1,5],[2,3],[2,4],[2,5],[3,4],[3,5],[4,5]],"moment":6,"nodes":[1,2,3,4,5] => fails 46
"#;

pub(crate) const TWO_UNLINKED: &str = r#"
"version":1 => "version":1 => holds 4 split k 0 cut - near 2 far 1 side 2
"side":[2] => "side":[] => fails 42
"side":[2] => "side":[1,2] => fails 42
"links":[] => "links":[[1,2]] => fails 42
"nodes":[1,2] => "nodes":[] => fails 47
"#;

pub(crate) const SQUARE: &str = r#"
"version":1 => "version":1 => holds 0 split k 2 cut 2,4 near 1 far 3 side 1
"version":1 => "version":2 => refused 61
"version":1 => "version":3 => refused 64
"version":1 => "group":[1,2,3,4],"version":2 => holds 0 split k 2 cut 2,4 near 1 far 3 side 1
"moment":0 => "moment":70000 => refused 63
"k":2 => "k":3 => fails 40
"cut":[2,4] => "cut":[4,2] => fails 41
"cut":[2,4] => "cut":[2,9] => fails 41
"near":1 => "near":2 => fails 42
[3,4,1]] => [3,4,1,2]] => fails 44 3
{"j":3 => {"j":2 => fails 44 3
{"j":4 => {"j":3 => fails 44 4
{"j":3,"paths":[[3,2],[3,4,1]]}, =>  => fails 44 3
,{"j":4,"paths":[[4,1],[4,3]]} =>  => fails 44 4
[3,2],[3,4,1] => [3,2] => fails 44 3
[3,2],[3,4,1] => [3,2],[3,4,1],[3,2] => fails 44 3
[3,2],[3,4,1] =>  => fails 44 3
[3,2],[3,4,1] => [],[3,4,1] => fails 44 3
[3,2],[3,4,1] => [3],[3,4,1] => fails 44 3
[3,2],[3,4,1] => [3,2],[3,4,3,4,1] => fails 44 3
[3,2],[3,4,1] => [3,2],[3,1] => fails 44 3
[3,2],[3,4,1] => [3,2],[3,2,1] => fails 44 3
[3,2],[3,4,1] => [3,2],[3,4] => fails 44 3
[4,1],[4,3] => [4,1],[4,9] => fails 44 4
[4,1],[4,3] => [1,4],[4,3] => fails 44 4
[4,3]]} => [4,3]]},{"j":4,"paths":[[4,1],[4,3]]} => fails 45
"pairs":[] => "pairs":[{"i":1,"j":3,"paths":[[1,2,3],[1,4,3]]}] => fails 45
"pairs":[] => "pairs":[{"i":1,"j":3,"paths":[],"k":2}] => refused 63
"cut":[2,4] => "cut":[4,2,9] => fails 40
"cut":[2,4] => "cut":[2,2] => fails 41
"near":1 => "near":9 => fails 42
"far":3 => "far":4 => fails 42
"far":3 => "far":9 => fails 42
"far":3 => "far":1 => fails 42
"far":3 => "cut":[2,3],"far":4 => fails 42
"side":[1] => "side":[] => fails 42
"side":[1] => "side":[3] => fails 42
"side":[1] => "side":[1,1] => fails 42
"side":[1] => "side":[1,2] => fails 42
"side":[1] => "side":[1,3] => fails 42
"side":[1] => "side":[1,9] => fails 42
{"j":3,"paths":[[3,2],[3,4,1]]},{"j":4,"paths":[[4,1],[4,3]]} =>  => fails 44 3
{"j":3,"paths":[[3,2],[3,4,1]]},{"j":4,"paths":[[4,1],[4,3]]} => {"j":4,"paths":[[4,1],[4,3]]},{"j":3,"paths":[[3,2],[3,4,1]]} => fails 44 3
[[3,2],[3,4,1]]},{"j":4,"paths":[[4,1],[4,3]] => [[3,4,1,2],[3,2]]},{"j":4,"paths":[[4,3,1],[4,3]] => fails 44 3
[3,2],[3,4,1] => [3,4],[3,2] => fails 44 3
[3,2],[3,4,1] => [3,2],[3] => fails 44 3
[3,2],[3,4,1] => [3,2],[] => fails 44 3
"pairs":[] => "pairs":[{"i":1,"j":3,"paths":[]}] => fails 45
"#;

pub(crate) const FIVE_BUT_ONE: &str = r#"
"version":1 => "version":1 => holds 0 split k 3 cut 3,4,5 near 1 far 2 side 1
{"i":1,"j":2,"paths":[[1,3,2],[1,4,2],[1,5,2]]} =>  => fails 43 1 2
"i":1,"j":2 => "i":2,"j":1 => fails 43 1 2
"i":1,"j":2 => "i":1,"j":3 => fails 43 1 2
[1,5,2]] => [1,4,2]] => fails 43 1 2
[1,5,2]] => [1,4,5,2]] => fails 43 1 2
[1,5,2]] => [1,2]] => fails 43 1 2
[1,5,2]] => [1,5]] => fails 43 1 2
[1,5,2]] => [1]] => fails 43 1 2
[1,5,2]] => []] => fails 43 1 2
[1,5,2]] => [2,5,1]] => fails 43 1 2
[1,5,2]] => [1,5,2],[1,3,2]] => fails 43 1 2
,[1,5,2]] => ] => fails 43 1 2
[{"i":1 => [{"i":1,"j":3,"paths":[]},{"i":1 => fails 43 1 2
[1,5,2]]} => [1,5,2]]},{"i":1,"j":2,"paths":[[1,3,2],[1,4,2],[1,5,2]]} => fails 45
[4,2],[4,3] => [4,2],[4,5,3] => holds 0 split k 3 cut 3,4,5 near 1 far 2 side 1
[4,2],[4,3] => [4,2],[4,5] => fails 44 4
{"i":1,"j":2,"paths":[[1,3,2],[1,4,2],[1,5,2]]} => {"i":2,"j":1,"paths":[[2,3,1],[2,4,1],[2,5,1]]} => fails 43 1 2
[1,4,2],[1,5,2]] => [1,4,3,2],[1,5,2]] => fails 43 1 2
[{"i":1 => [{"i":1,"j":3,"paths":[[1,3],[1,4,3],[1,5,3]]},{"i":1 => fails 43 1 2
[1,5,2]]} => [1,5,2]]},{"i":1,"j":3,"paths":[[1,3],[1,4,3],[1,5,3]]} => fails 45
[5,2],[5,3] => [5,2],[5,3],[5,4] => fails 44 5
"#;

pub(crate) const TWO_TRIANGLES: &str = r#"
"version":1 => "version":1 => fails 44 3
"fans":[] => "fans":[{"j":3,"paths":[[3,1],[3,2]]},{"j":4,"paths":[[4,3],[4,3,1]]},{"j":5,"paths":[[5,3],[5,4]]}] => fails 44 4
"version":1 => "cut":[3],"fans":[{"j":2,"paths":[[2,1]]},{"j":3,"paths":[[3,1]]},{"j":4,"paths":[[4,3]]},{"j":5,"paths":[[5,4,3]]}],"k":1,"near":4,"side":[4,5],"version":1 => holds 0 split k 1 cut 3 near 4 far 1 side 4,5
"#;

pub(crate) const SQUARE_GROUP: &str = r#"
"version":2 => "version":2 => holds 0 split k 2 cut 2,4 near 1 far 3 side 1 group 1,2,3
"version":2 => "version":1 => refused 62
"version":2 => "version":2.0 => refused 64
"group":[1,2,3] => "group":[] => fails 49
"group":[1,2,3] => "group":[2,1] => fails 49
"group":[1,2,3] => "group":[1,7] => fails 49
"group":[1,2,3] => "group":[2,2] => fails 49
"group":[1,2,3] => "group":[0,1] => fails 49
"group":[1,2,3] => "group":[4,5] => fails 49
"group":[1,2,3] => "group":[1,2,3,4] => fails 44 4
"group":[1,2,3] => "group":[1,3] => fails 43 1 3
"group":[1,2,3] => "group":[1,2] => fails 42
"group":[1,2,3] => "group":[1,2,3.0] => refused 63
"group":[1,2,3] => "group":3 => refused 63
"group":[1,2,3] => "groups":[1,2,3] => refused 61
"group":[1,2,3] => "group":[2,1],"group":[1,2,3] => holds 0 split k 2 cut 2,4 near 1 far 3 side 1 group 1,2,3
"fans":[{"j":3,"paths":[[3,2],[3,4,1]]}] => "fans":[] => fails 44 3
[3,4,1]] => [3,4]] => fails 44 3
[3,4,1]]} => [3,4,1]]},{"j":4,"paths":[[4,1],[4,3]]} => fails 45
"#;

pub(crate) const TWO_LINKED_GROUP: &str = r#"
"version":2 => "version":2 => holds 6 linked k 1
"version":2 => "version":1 => refused 62
"group":[1,2],"k":1 => "group":[2],"k":0 => holds 6 linked k 0 group 2
"group":[1,2],"k":1 => "group":[2],"k":1 => fails 40
"group":[1,2],"k":1,"links":[[1,2]],"moment":6,"nodes":[1,2] => "group":[],"k":0,"links":[],"moment":1,"nodes":[] => fails 47
"group":[1,2],"k":1,"links":[[1,2]],"moment":6,"nodes":[1,2] => "group":[1],"k":0,"links":[],"moment":6,"nodes":[] => fails 47
"links":[[1,2]],"moment":6,"nodes":[1,2] => "links":[[1,2],[2,3]],"moment":6,"nodes":[1,2,3] => holds 6 linked k 1 group 1,2
"k":1,"links":[[1,2]],"moment":6,"nodes":[1,2] => "k":2,"links":[[1,2],[2,3]],"moment":6,"nodes":[1,2,3] => fails 40
"group":[1,2],"k":1,"links":[[1,2]],"moment":6,"nodes":[1,2] => "group":[1,3],"k":1,"links":[[1,2],[2,3]],"moment":6,"nodes":[1,2,3] => fails 46
"#;

pub(crate) const FIVE_LINKED_GROUP: &str = r#"
"version":2 => "version":2 => holds 0 linked k 0 group 2
"group":[2],"k":0 => "group":[3,4,5],"k":2 => holds 0 linked k 2 group 3,4,5
"group":[2],"k":0 => "group":[1,9],"k":1 => fails 49
"group":[2],"k":0 => "group":[2,1],"k":1 => fails 49
"group":[2],"k":0 => "group":[],"k":4 => fails 49
"#;

pub(crate) const FIVE_GROUP: &str = r#"
"version":2 => "version":2 => holds 0 split k 3 cut 3,4,5 near 1 far 2 side 1 group 1,2
"fans":[] => "fans":[{"j":4,"paths":[[4,1],[4,2],[4,3]]},{"j":5,"paths":[[5,1],[5,2],[5,3]]}] => fails 45
"group":[1,2] => "group":[1,2,4] => holds 0 split k 3 cut 3,4,5 near 1 far 2 side 1 group 1,2,4
"fans":[],"far":2,"group":[1,2] => "fans":[{"j":5,"paths":[[5,1],[5,2],[5,4]]}],"far":2,"group":[1,2,4,5] => holds 0 split k 3 cut 3,4,5 near 1 far 2 side 1 group 1,2,4,5
"fans":[],"far":2,"group":[1,2] => "fans":[{"j":5,"paths":[[5,1],[5,2],[5,3]]}],"far":2,"group":[1,2,4,5] => fails 44 5
"group":[1,2] => "group":[1,4] => fails 42
"#;

pub(crate) const RING_GROUP: &str = r#"
"version":2 => "version":2 => holds 0 split k 2 cut 2,5 near 1 far 3 side 1 group 1,3,5
"group":[1,3,5] => "group":[] => fails 49
"group":[1,3,5] => "group":[1,3,3,5] => fails 49
"group":[1,3,5] => "group":[1,3,5,7] => fails 49
"group":[1,3,5],"k":2 => "group":[3,1,5],"k":3 => fails 49
"group":[1,3,5] => "group":[1,2,3,4,5,6] => fails 44 3
"k":2 => "k":1 => fails 40
"side":[1] => "near":6,"side":[6] => fails 42
"far":3 => "far":6 => fails 42
{"i":1,"j":3,"paths":[[1,2,3],[1,5,4,3]]} =>  => fails 43 1 3
[5,4,3]]}] => [5,4]]}] => fails 44 5
[{"j":5 => [{"j":4,"paths":[[4,3],[4,5,1]]},{"j":5 => fails 44 5
"#;

pub(crate) const PATH_GROUP: &str = r#"
"version":2 => "version":2 => holds 0 split k 1 cut 2 near 1 far 3 side 1 group 1,3
"#;

pub(crate) const TRIANGLES_GROUP: &str = r#"
"version":2 => "version":2 => holds 0 split k 1 cut 3 near 1 far 5 side 1,2 group 1,5
"#;
