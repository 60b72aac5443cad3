use crate::component_ranking::RankedComponents;
use crate::labels::{Labels, letters_of};
use crate::node_position::number;
use crate::sentences::{components_of, counts_of, members_of, paths_of, sentence_of};
use ov_drawing::Drawing;
use std::alloc::{AllocError, Global};
use std::mem;

/// How far texts are from the left edge.
pub(crate) const EDGE: f64 = 24.0;

/// How wide a letter of the heading is, and of the lines below it.
const LETTERS: (f64, f64) = (10.8, 6.9);

/// How many letters a line has at most, however wide the picture is.
const MOST_LETTERS: f64 = 90.0;

/// How many letters longer than the others a line may be.
const UNEVEN: f64 = 8.0;

/// The height of the first line.
pub(crate) const FIRST: f64 = 36.0;

/// How far lines of the heading are from each other, and the lines below it.
pub(crate) const LINES: (f64, f64) = (24.0, 20.0);

/// How far the names of the parts are below the last line.
const BELOW: f64 = 32.0;

/// How high the names of the parts stand at least.
const LEAST: f64 = 112.0;

/// What is written above a picture.
#[derive(Drop)]
pub(crate) struct Heading {
    /// What the picture shows, in one sentence.
    pub(crate) sentence: String,
    /// What is counted, what the crash leaves, who is a member, what the paths are, and what all names end in.
    pub(crate) told: Vec<String>,
    /// The sentence in lines.
    pub(crate) large: Vec<String>,
    /// What else is told, in lines.
    pub(crate) small: Vec<String>,
}

impl Heading {
    /// What is written above this drawing, whose nodes have these labels, in lines that fit into this width.
    pub(crate) fn new(
        alloc: Global,
        drawing: &Drawing,
        components: &RankedComponents,
        labels: &Labels,
        width: f64,
    ) -> Result<Heading, AllocError> {
        let (of_large, of_small) = LETTERS;
        let room = width - 2.0 * EDGE;
        let sentence = sentence_of(alloc, drawing, labels)?;
        let mut large = Vec::new(alloc);
        push_broken(alloc, &mut large, sentence.as_str(), room / of_large)?;
        let told = told_of(alloc, drawing, components, labels)?;
        let small = small_lines(alloc, &told, room / of_small)?;
        Ok(Heading {
            sentence,
            told,
            large,
            small,
        })
    }

    /// The height of the names of the parts, below all lines.
    pub(crate) fn height(&self) -> f64 {
        let (of_large, of_small) = LINES;
        let large = number(self.large.len()) - 1.0;
        let last = FIRST
            + large * of_large
            + of_large
            + (number(self.small.len()) - 1.0) * of_small;
        (last + BELOW).max(LEAST)
    }
}

/// What is counted in a drawing, and what else is told of it, as far as there is something to tell.
fn told_of(
    alloc: Global,
    drawing: &Drawing,
    components: &RankedComponents,
    labels: &Labels,
) -> Result<Vec<String>, AllocError> {
    let mut told = Vec::with_capacity(alloc, 5)?;
    told.push(counts_of(alloc, drawing)?)?;
    push_some(&mut told, components_of(alloc, drawing, components)?)?;
    push_some(&mut told, members_of(alloc, drawing)?)?;
    push_some(&mut told, paths_of(alloc, drawing, labels)?)?;
    push_some(&mut told, labels.end_told(alloc)?)?;
    Ok(told)
}

/// Appends a text if there is one.
pub(crate) fn push_some(texts: &mut Vec<String>, text: Option<String>) -> Result<(), AllocError> {
    if let Some(text) = text {
        texts.push(text)?;
    }
    Ok(())
}

/// These texts in lines of so many letters at most, each from a new line on.
pub(crate) fn small_lines(
    alloc: Global,
    told: &[String],
    most: f64,
) -> Result<Vec<String>, AllocError> {
    let mut lines = Vec::new(alloc);
    for text in told {
        push_broken(alloc, &mut lines, text.as_str(), most)?;
    }
    Ok(lines)
}

/// Appends a text in lines of so many letters at most. A longer word has a line of its own.
fn push_broken(
    alloc: Global,
    lines: &mut Vec<String>,
    text: &str,
    most: f64,
) -> Result<(), AllocError> {
    let most = even(text, most.min(MOST_LETTERS));
    let mut line = String::new(alloc);
    let mut letters = 0.0;
    for word in text.split(' ') {
        let wide = number(letters_of(word));
        if letters > 0.0 && letters + 1.0 + wide > most {
            lines.push(mem::replace(&mut line, String::new(alloc)))?;
            letters = 0.0;
        }
        if letters > 0.0 {
            line.push(' ')?;
            letters += 1.0;
        }
        line.push_str(word)?;
        letters += wide;
    }
    lines.push(line)?;
    Ok(())
}

/// How many letters a line of a text has at most, if it has this many at most and the lines are about equally long.
fn even(text: &str, most: f64) -> f64 {
    let letters = number(letters_of(text));
    let lines = (letters / most).ceil().max(1.0);
    (letters / lines + UNEVEN).min(most)
}
