//! What files look like, by how they begin.
use FileKind::{Certificate, Dot, Graph, Report, Scenario, Unknown, Views};
use ov_lines::{FileKind, looks_like};

/// How files begin, and what they look like. Some begin with names of hosts that are like the words of other files.
static KINDS: [(&[u8], FileKind); 21] = [
    (b" \n\t{\"a\": []}", Views),
    (b"\xef\xbb\xbf{\"a\": []}", Views),
    (b"[\"a\", \"b\"]", Views),
    (b"[{\"a\": \"b\"}]", Views),
    (b"strict graph { a -- b }", Dot),
    (b"# made by hand\nDiGraph{ a -> b }", Dot),
    (b"// a comment\ngraph { }", Dot),
    (b"{\n\"verdict\": \"split\"}", Certificate),
    (b"/dc1/a /dc1/b\n", Unknown),
    (b"graph1 graph2\n", Unknown),
    (b"graph-1 graph.example\n", Unknown),
    (b"[::1]:7946 [::2]:7946\n", Unknown),
    (b"node-1 node-2\n", Unknown),
    (b"# edges\na b\n", Unknown),
    (b"report split\nreport 1 other\n", Unknown),
    (b"", Unknown),
    (b"# 1 a\nnode 1\n", Graph),
    (b"\nboot 1\n", Scenario),
    (b"seed\t1\n", Scenario),
    (
        b"report 0 split k 1 cut 2 near 1 far 3 side 1\n{\"cut\":[2]}\n",
        Report,
    ),
    (b"report 7 linked k 2\n", Report),
];

#[test]
fn files_look_like_what_they_are(rt: HostRuntime) {
    for (place, (bytes, kind)) in KINDS.iter().enumerate() {
        assert!(rt; looks_like(bytes) == *kind, "in row {place}");
    }
}
