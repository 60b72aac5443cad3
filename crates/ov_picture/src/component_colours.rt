use crate::component_ranking::Component;

/// How many components have a colour of their own.
pub(crate) const MOST_COLOURED: usize = 6;

/// The colours of components in the order of their ranks: the class in SVG, the colour on a light ground and on a dark
/// one, and that behind a label in black. The last row is for all further components. On either ground every two of
/// these colours, and each of them and that of the cut, differ by 16 or more by CIEDE2000, also for people who lack one
/// of the three kinds of cones.
pub(crate) const COMPONENT_COLOURS: [(&str, &str, &str, &str); 7] = [
    (" c0", "#2b8fcb", "#56b4e9", "#bfe3ff"),
    (" c1", "#227256", "#c8f1e6", "#c8f7e6"),
    (" c2", "#8f146a", "#b62e6b", "#f2bcd8"),
    (" c3", "#544505", "#fbefae", "#f3e6a0"),
    (" c4", "#4b17f4", "#9339ec", "#d3c4ff"),
    (" c5", "#380c0c", "#e11a14", "#ffc2b8"),
    (" c6", "#8a949c", "#8b969e", "#e0e4e7"),
];

/// The class of the colour of a component, with a space before it. What is in no component has none.
pub(crate) fn colour_class(component: Option<Component>) -> &'static str {
    match component {
        Some(component) => row(component).map_or("", |colour| colour.0),
        None => "",
    }
}

/// The colour of a component on a light ground, if there is one.
pub(crate) fn strong_colour(component: Option<Component>) -> Option<&'static str> {
    row(component?).map(|colour| colour.1)
}

/// The colour behind the labels of a component, if there is one.
pub(crate) fn pale_colour(component: Option<Component>) -> Option<&'static str> {
    row(component?).map(|colour| colour.3)
}

/// The row of a component.
fn row(
    component: Component,
) -> Option<&'static (&'static str, &'static str, &'static str, &'static str)> {
    COMPONENT_COLOURS.get(component.rank.min(MOST_COLOURED))
}
