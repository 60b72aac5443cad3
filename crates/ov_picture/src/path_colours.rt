/// The colours of paths on a light and on a dark ground, which people who see few colours can tell apart. After the
/// last one they come again, dashed.
pub(crate) const PATH_COLOURS: [(&str, &str); 12] = [
    ("#0072b2", "#56b4e9"),
    ("#d55e00", "#ff8c42"),
    ("#009e73", "#3ddbb0"),
    ("#b8408a", "#f29acb"),
    ("#c98a00", "#ffc84a"),
    ("#332288", "#a99bff"),
    ("#56b4e9", "#bfe3ff"),
    ("#882255", "#ff7fae"),
    ("#117733", "#7fd48a"),
    ("#8a8a1a", "#dede6a"),
    ("#661100", "#e0a080"),
    ("#555f68", "#c4ccd2"),
];

/// How the paths of one round of colours are dashed: in the first round not at all. All further rounds are dashed like
/// the last of these.
const DASHES: [&str; 4] = ["none", "7 4", "2 3", "9 3 2 3"];

/// The number of the colour of a path, counted from 0.
pub(crate) fn colour_of(path: usize) -> usize {
    path % PATH_COLOURS.len()
}

/// The colour of a path on a light ground.
pub(crate) fn light_colour(path: usize) -> &'static str {
    PATH_COLOURS
        .get(colour_of(path))
        .map_or("#000000", |colour| colour.0)
}

/// How a path is dashed, as SVG says it.
pub(crate) fn dashes_of(path: usize) -> &'static str {
    let round = (path / PATH_COLOURS.len()).min(DASHES.len() - 1);
    DASHES.get(round).copied().unwrap_or("none")
}
