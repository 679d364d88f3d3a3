// Drawn algebras: tables whose labels are monotone.
use crate::draws::Draws;
use std::alloc::Global;
use std::test::Fail;

// What a label makes of each value, by its place; none where it prohibits it.
type Images = Vec<Option<usize>>;

// Values by their places, with the rank of each, small ones preferred, and labels.
#[derive(Drop)]
pub(crate) struct Table {
    pub(crate) ranks: Vec<usize>,
    pub(crate) labels: Vec<Images>,
}

const MOST_VALUES: usize = 5;

const MOST_LABELS: usize = 4;

fn drawn_ranks(alloc: Global, draws: &mut Draws) -> Result<Vec<usize>, Fail> {
    let mut ranks = Vec::new(alloc);
    let mut rank = 0usize;
    for place in 0..1 + draws.below(MOST_VALUES) {
        if place > 0 && draws.happens(7) {
            rank = rank.saturating_add(1);
        }
        ranks.push(rank)?;
    }
    Ok(ranks)
}

// A monotone label: the image of a value is none, or a value that isn't preferred to it.
fn drawn_label(alloc: Global, draws: &mut Draws, ranks: &[usize]) -> Result<Images, Fail> {
    let mut images = Vec::new(alloc);
    let mut first = 0;
    for value in 0..ranks.len() {
        if ranks[value] != ranks[first] {
            first = value;
        }
        if draws.happens(8) {
            images.push(Some(first + draws.below(ranks.len() - first)))?;
        } else {
            images.push(None)?;
        }
    }
    Ok(images)
}

pub(crate) fn drawn_table(alloc: Global, draws: &mut Draws) -> Result<Table, Fail> {
    let ranks = drawn_ranks(alloc, draws)?;
    let mut labels = Vec::new(alloc);
    for _label in 0..1 + draws.below(MOST_LABELS) {
        labels.push(drawn_label(alloc, draws, &ranks)?)?;
    }
    Ok(Table { ranks, labels })
}

// The values in order of their ranks, as `v0 < v1 = v2`.
fn push_values(alloc: Global, text: &mut String, ranks: &[usize]) -> Result<(), Fail> {
    let mut last = 0;
    for (value, rank) in ranks.iter().enumerate() {
        let sign = match value {
            0 => "",
            _ if *rank == last => " = ",
            _ => " < ",
        };
        text.push_str(format!(in alloc; "{sign}v{value}")?.as_str())?;
        last = *rank;
    }
    Ok(())
}

// A label, as `; l0: v0 -> v1, v1 -> v1`, or as `; l0: none`.
fn push_label(
    alloc: Global,
    text: &mut String,
    name: usize,
    images: &[Option<usize>],
) -> Result<(), Fail> {
    text.push_str(format!(in alloc; "; l{name}: ")?.as_str())?;
    let mut is_first = true;
    for (value, image) in images.iter().enumerate() {
        if let Some(image) = image {
            let comma = if is_first { "" } else { ", " };
            text.push_str(format!(in alloc; "{comma}v{value} -> v{image}")?.as_str())?;
            is_first = false;
        }
    }
    if is_first {
        text.push_str("none")?;
    }
    Ok(())
}

// The text of the algebra's expression.
pub(crate) fn expression_of(alloc: Global, table: &Table) -> Result<String, Fail> {
    let mut text = String::new(alloc);
    text.push_str("table { ")?;
    push_values(alloc, &mut text, &table.ranks)?;
    for (name, images) in table.labels.iter().enumerate() {
        push_label(alloc, &mut text, name, images)?;
    }
    text.push_str(" }")?;
    Ok(text)
}
