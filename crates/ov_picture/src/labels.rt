use crate::node_position::number;
use crate::sentences::{count_of, is_end};
use ov_drawing::{Drawing, DrawnNode, NodeClass};
use ov_io::shown_name;
use std::alloc::{AllocError, Global};
use std::fmt::Write;

/// Up to so many nodes all have labels. In a larger graph near, far, the cut and the nodes of the chosen entry have.
const MOST_LABELLED: usize = 60;

/// Up to so many nodes no label is turned.
const MOST_UNTURNED: usize = 12;

/// How many letters a name has at most that is its own label.
const MOST_LETTERS: usize = 24;

/// How many first and last letters a longer name keeps in its label, besides an ellipsis.
const FIRST_LAST: (usize, usize) = (12, 10);

/// The same of a name without the end that all names share: its host, which mostly stands first, stays whole.
const FIRST_LAST_OF_REST: (usize, usize) = (18, 4);

/// How many letters a label has at most that is not turned where there are many.
const SHORT: usize = 4;

/// How wide a letter is.
const LETTER: f64 = 7.2;

/// How many letters of the end of all names are told at most, and how many first and last ones of a longer end.
const END_LETTERS: (usize, (usize, usize)) = (60, (30, 28));

/// Which nodes have labels.
#[derive(Clone, Copy)]
struct Shown {
    /// Whether all nodes have labels.
    all: bool,
    /// Whether the nodes of the cut have labels.
    cut: bool,
}

impl Shown {
    /// Which nodes of this drawing have labels.
    fn new(drawing: &Drawing) -> Shown {
        let nodes = drawing.nodes.as_slice();
        Shown {
            all: nodes.len() <= MOST_LABELLED,
            cut: count_of(nodes, NodeClass::Cut) <= MOST_LABELLED,
        }
    }

    /// Whether a node has a label.
    fn has(self, drawing: &Drawing, node: &DrawnNode) -> bool {
        let by_class = match node.class {
            NodeClass::Near | NodeClass::Far => true,
            NodeClass::Cut => self.all || self.cut,
            NodeClass::Unparted | NodeClass::NearSide | NodeClass::FarSide => self.all,
        };
        by_class || is_end(drawing, node.id)
    }
}

/// What nodes are called in a picture.
#[derive(Drop)]
pub(crate) struct Labels {
    /// The names of the nodes, in their order.
    pub(crate) names: Vec<String>,
    /// What all names have at their end and no label has. It is empty if no label would be too long.
    end: String,
    /// The short names of the nodes, and which of them are shown as labels.
    pub(crate) texts: Vec<(String, bool)>,
    /// Whether all nodes have labels.
    all: bool,
    /// How many letters the longest label has that is shown.
    longest: usize,
}

impl Labels {
    /// What the nodes of a drawing are called, if they have these names: a node without one is called by its id. A
    /// control character is shown as its code.
    pub(crate) fn new(
        alloc: Global,
        drawing: &Drawing,
        given: &[Option<&str>],
    ) -> Result<Labels, AllocError> {
        let shown = Shown::new(drawing);
        let mut labels = Labels {
            names: names_of(alloc, drawing.nodes.as_slice(), given)?,
            end: String::new(alloc),
            texts: Vec::new(alloc),
            all: shown.all,
            longest: 0,
        };
        if labels.is_too_long(drawing, shown) {
            labels.end = common_end(alloc, &labels.names)?;
        }
        for (at, node) in drawing.nodes.as_slice().iter().enumerate() {
            labels.add(alloc, at, node.id.number(), shown.has(drawing, node))?;
        }
        Ok(labels)
    }

    /// What all names end in, as it is told, if it is left out of the labels.
    pub(crate) fn end_told(&self, alloc: Global) -> Result<Option<String>, AllocError> {
        if self.end.is_empty() {
            return Ok(None);
        }
        let (most, parts) = END_LETTERS;
        let end = middle_cut(alloc, self.end.as_str(), most, parts)?;
        Ok(Some(format!(in alloc; "All names end in {end}")?))
    }

    /// Whether the name of a node with a label is too long for it.
    fn is_too_long(&self, drawing: &Drawing, shown: Shown) -> bool {
        let nodes = drawing.nodes.as_slice();
        nodes.iter().zip(&self.names).any(|(node, name)| {
            letters_of(name.as_str()) > MOST_LETTERS && shown.has(drawing, node)
        })
    }

    /// What the node at a place is called in a sentence.
    pub(crate) fn called(&self, at: usize) -> &str {
        match self.texts.get(at) {
            Some((text, _)) => text.as_str(),
            None => "",
        }
    }

    /// Adds the label of the next node, which is at this place, and whose label is shown or not.
    fn add(&mut self, alloc: Global, at: usize, id: u32, shown: bool) -> Result<(), AllocError> {
        let Some(name) = self.names.get(at) else {
            return Ok(());
        };
        let rest = without_end(name.as_str(), self.end.as_str());
        let parts = if self.end.is_empty() {
            FIRST_LAST
        } else {
            FIRST_LAST_OF_REST
        };
        let text = shortened(alloc, rest, id, parts)?;
        if shown {
            self.longest = self.longest.max(letters_of(text.as_str()));
        }
        self.texts.push((text, shown))?;
        Ok(())
    }

    /// How wide the longest label is.
    pub(crate) fn width(&self) -> f64 {
        number(self.longest) * LETTER
    }

    /// Whether labels on a ring are turned, since they would not fit beside one another.
    pub(crate) fn are_turned(&self) -> bool {
        self.all && self.texts.len() > MOST_UNTURNED && self.longest > SHORT
    }
}

/// The names of nodes, if these are given.
fn names_of(
    alloc: Global,
    nodes: &[DrawnNode],
    given: &[Option<&str>],
) -> Result<Vec<String>, AllocError> {
    let mut names = Vec::with_capacity(alloc, nodes.len())?;
    for (at, node) in nodes.iter().enumerate() {
        names.push(match given.get(at).copied().flatten() {
            Some(name) => shown_name(alloc, name)?,
            None => node.id.number().to_string(alloc)?,
        })?;
    }
    Ok(names)
}

/// The longest end that all these names share, that begins at a separator, and that is not all of a name.
fn common_end(alloc: Global, names: &[String]) -> Result<String, AllocError> {
    let Some(first) = names.first() else {
        return Ok(String::new(alloc));
    };
    let first = first.as_str();
    let start = first.len().saturating_sub(shared_by_all(first, names));
    for (at, c) in first.char_indices() {
        if at >= start && is_separator(c) {
            return String::from_str(alloc, first.get(at..).unwrap_or(""));
        }
    }
    Ok(String::new(alloc))
}

/// How many bytes of its end a name shares with each of these names, which are not all of one of them.
fn shared_by_all(first: &str, names: &[String]) -> usize {
    let mut shared = first.len();
    for name in names {
        let most = name.len().saturating_sub(1);
        shared = shared.min(most).min(shared_by(first, name.as_str()));
    }
    shared
}

/// How many bytes of their ends two names share.
fn shared_by(one: &str, other: &str) -> usize {
    let ends = one.bytes().rev().zip(other.bytes().rev());
    ends.take_while(|(a, b)| a == b).count()
}

/// Whether a part of a name may begin at this letter.
fn is_separator(c: char) -> bool {
    matches!(c, '.' | '-' | '_' | ':' | '/')
}

/// A name without this end.
fn without_end<'a>(name: &'a str, end: &str) -> &'a str {
    name.strip_suffix(end).unwrap_or(name)
}

/// A name if it is short, or else so many first and last letters of it, and its id, which no other node has.
fn shortened(
    alloc: Global,
    name: &str,
    id: u32,
    parts: (usize, usize),
) -> Result<String, AllocError> {
    let mut text = middle_cut(alloc, name, MOST_LETTERS, parts)?;
    if letters_of(name) > MOST_LETTERS {
        write!(text, " ({id})")?;
    }
    Ok(text)
}

/// A text if it has so many letters at most, or else so many first and last ones, with an ellipsis between.
fn middle_cut(
    alloc: Global,
    text: &str,
    most: usize,
    (first, last): (usize, usize),
) -> Result<String, AllocError> {
    let all = letters_of(text);
    let mut found = String::new(alloc);
    let mut letters: usize = 0;
    let mut whole = true;
    for c in text.chars() {
        let before = letters;
        letters = letters.saturating_add(if c.is_ascii() { 1 } else { 2 });
        if all <= most || letters <= first || all.saturating_sub(before) <= last {
            found.push(c)?;
        } else if whole {
            found.push('…')?;
            whole = false;
        }
    }
    Ok(found)
}

/// How many letters wide a text is. A letter that is not ASCII counts twice.
pub(crate) fn letters_of(text: &str) -> usize {
    let doubled = text.chars().filter(|c| !c.is_ascii()).count();
    text.chars().count().saturating_add(doubled)
}
