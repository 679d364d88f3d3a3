// The sum that falls, as a plain program of its definition: the most deliveries that what waits can lead to, by the
// budgets of updates; and wrong definitions of it.
use crate::tables::Table;
use crate::tracked::{Brief, Known, Tracked};
use alg_model::Value;
use meta_base::DestId;
use net_graph::Net;
use std::alloc::Global;
use std::test::Fail;

// A definition of the sum.
#[derive(Clone, Copy, PartialEq, Eq, Debug)]
pub(crate) enum Definition {
    Right,
    // A route's level is the length of its path, whatever its value.
    LevelByLengthAlone,
    // An update's budget is by what it says, whatever was known before it.
    BudgetOfTheLastUpdate,
    // An update's own delivery isn't counted but at budget 0.
    WaysWithoutTheOwn,
}

pub(crate) const DEFINITIONS: &[Definition] = &[
    Definition::Right,
    Definition::LevelByLengthAlone,
    Definition::BudgetOfTheLastUpdate,
    Definition::WaysWithoutTheOwn,
];

// A definition over the values that can occur from the start of a phase on: for each destination the ranks of those
// values, each once; and the most deliveries of an update, by its budget, then its arc.
#[derive(Drop)]
pub(crate) struct Measure {
    definition: Definition,
    nodes: usize,
    ranks: Vec<Vec<usize>>,
    ways: Vec<Vec<u128>>,
}

// Marks the value.
fn mark(there: &mut Vec<bool>, value: usize) -> Result<(), Fail> {
    *there.get_mut(value).ok_or("there is no such value")? = true;
    Ok(())
}

fn mark_route(there: &mut Vec<bool>, route: Known) -> Result<(), Fail> {
    match route {
        Some(Brief { value, .. }) => mark(there, value),
        None => Ok(()),
    }
}

// Marks the values of the destination's origins.
fn mark_origins(there: &mut Vec<bool>, net: &Net, dest: usize) -> Result<(), Fail> {
    if dest >= net.dest_count() {
        return Err("there is no such destination".into());
    }
    for origin in net.origins_of(DestId(dest as u32)) {
        let Value::Name(value) = origin.value else {
            return Err("the value isn't a table's".into());
        };
        mark(there, usize::from(value))?;
    }
    Ok(())
}

// Marks the values of what was heard and of what waits.
fn mark_links(there: &mut Vec<bool>, tracked: &Tracked, dest: usize) -> Result<(), Fail> {
    for link in &tracked.links {
        mark_route(
            there,
            *link.heard.get(dest).ok_or("there is no such destination")?,
        )?;
        for report in &link.waits {
            if report.dest == dest {
                mark_route(there, report.route)?;
            }
        }
    }
    Ok(())
}

// What a label makes of a value.
fn image_of(table: &Table, label: usize, value: usize) -> Result<Option<usize>, Fail> {
    let images = table.labels.get(label).ok_or("there is no such label")?;
    Ok(*images.get(value).ok_or("there is no such value")?)
}

// Marks what labels on arcs make of the marked values, each by one arc.
fn mark_images(
    alloc: Global,
    there: &mut Vec<bool>,
    table: &Table,
    tracked: &Tracked,
) -> Result<(), Fail> {
    let before = Vec::from_slice(alloc, there)?;
    for (value, is_there) in before.iter().enumerate() {
        if *is_there {
            for link in &tracked.links {
                if let Some(image) = image_of(table, link.label, value)? {
                    mark(there, image)?;
                }
            }
        }
    }
    Ok(())
}

// The ranks of the values that can occur for a destination.
fn ranks_of(
    alloc: Global,
    net: &Net,
    table: &Table,
    tracked: &Tracked,
    dest: usize,
) -> Result<Vec<usize>, Fail> {
    let mut there = Vec::new(alloc);
    for _value in 0..table.ranks.len() {
        there.push(false)?;
    }
    mark_origins(&mut there, net, dest)?;
    mark_links(&mut there, tracked, dest)?;
    for _step in 0..tracked.nodes {
        mark_images(alloc, &mut there, table, tracked)?;
    }
    let mut ranks = Vec::new(alloc);
    for (value, is_there) in there.iter().enumerate() {
        if *is_there {
            ranks.push(*table.ranks.get(value).ok_or("there is no such value")?)?;
        }
    }
    Ok(ranks)
}

// The most deliveries of an update on each arc with a budget, from those with one less.
fn next_ways(
    alloc: Global,
    definition: Definition,
    tracked: &Tracked,
    less: &[u128],
) -> Result<Vec<u128>, Fail> {
    let mut next = Vec::new(alloc);
    for link in &tracked.links {
        let mut sum = match definition {
            Definition::WaysWithoutTheOwn => 0u128,
            _ => 1,
        };
        for (to, ways) in tracked.links.iter().zip(less.iter()) {
            if to.head == link.tail {
                sum = sum.saturating_add(*ways);
            }
        }
        next.push(sum)?;
    }
    Ok(next)
}

impl Measure {
    // The definition at the start of a phase.
    pub(crate) fn at_start(
        alloc: Global,
        definition: Definition,
        net: &Net,
        table: &Table,
        tracked: &Tracked,
    ) -> Result<Measure, Fail> {
        let mut ranks = Vec::new(alloc);
        let mut most = 0usize;
        for dest in 0..tracked.dests {
            let values = ranks_of(alloc, net, table, tracked, dest)?;
            most = most.max(values.len());
            ranks.push(values)?;
        }
        let mut last = Vec::new(alloc);
        for _link in &tracked.links {
            last.push(1u128)?;
        }
        let mut ways = Vec::new(alloc);
        for _budget in 0..most.saturating_mul(tracked.nodes) {
            let next = next_ways(alloc, definition, tracked, &last)?;
            ways.push(last)?;
            last = next;
        }
        ways.push(last)?;
        Ok(Measure {
            definition,
            nodes: tracked.nodes,
            ranks,
            ways,
        })
    }

    // The level of a route, or of none, for a destination.
    fn level(&self, table: &Table, dest: usize, route: Known) -> Result<usize, Fail> {
        let values = self.ranks.get(dest).ok_or("there is no such destination")?;
        let by_length = self.definition == Definition::LevelByLengthAlone;
        let Some(Brief { value, length, .. }) = route else {
            let count = if by_length { 1 } else { values.len() };
            return Ok(count.saturating_mul(self.nodes));
        };
        let own = *table.ranks.get(value).ok_or("there is no such value")?;
        let preferred = values.iter().filter(|rank| **rank < own).count();
        let rank = if by_length { 0 } else { preferred };
        Ok(
            rank.saturating_mul(self.nodes)
                .saturating_add(length.saturating_sub(1)),
        )
    }

    // The budget of an update, by what was known before it.
    fn budget(&self, table: &Table, dest: usize, known: Known, said: Known) -> Result<usize, Fail> {
        let top = self.level(table, dest, None)?;
        let own = self.level(table, dest, said)?;
        let lower = match self.definition {
            Definition::BudgetOfTheLastUpdate => own,
            _ => own.min(self.level(table, dest, known)?),
        };
        Ok(top.saturating_sub(lower))
    }

    // The most deliveries of what waits on an arc.
    fn left_on(
        &self,
        alloc: Global,
        table: &Table,
        tracked: &Tracked,
        arc: usize,
    ) -> Result<u128, Fail> {
        let link = tracked.links.get(arc).ok_or("there is no such arc")?;
        let mut known = Vec::from_slice(alloc, &link.heard)?;
        let mut sum = 0u128;
        for report in &link.waits {
            let before = known
                .get_mut(report.dest)
                .ok_or("there is no such destination")?;
            let budget = self.budget(table, report.dest, *before, report.route)?;
            let ways = self.ways.get(budget).ok_or("the budget is too high")?;
            sum = sum.saturating_add(*ways.get(arc).ok_or("there is no such arc")?);
            *before = report.route;
        }
        Ok(sum)
    }

    // The most deliveries of all that waits.
    pub(crate) fn left(
        &self,
        alloc: Global,
        table: &Table,
        tracked: &Tracked,
    ) -> Result<u128, Fail> {
        let mut sum = 0u128;
        for arc in 0..tracked.links.len() {
            sum = sum.saturating_add(self.left_on(alloc, table, tracked, arc)?);
        }
        if sum == u128::MAX {
            return Err("the sum is too great".into());
        }
        Ok(sum)
    }
}
