// A plain copy of a machine of path-vector nodes: what was heard and what waits on each arc, from the rows that the
// nodes have after each delivery.
use alg_model::{Label, Value};
use meta_base::ArcId;
use net_graph::{Net, RouteRow};
use std::alloc::Global;
use std::test::Fail;

// A route: the place of its value, how many nodes its path has, and the number of the path in base 16.
#[derive(Clone, Copy, PartialEq, Eq)]
pub(crate) struct Brief {
    pub(crate) value: usize,
    pub(crate) length: usize,
    path: u64,
}

// A route, or none.
pub(crate) type Known = Option<Brief>;

// An update that waits: its destination, and what it says.
#[derive(Clone, Copy)]
pub(crate) struct Report {
    pub(crate) dest: usize,
    pub(crate) route: Known,
}

// An arc, with what its listener heard there for each destination, and what waits there.
#[derive(Drop)]
pub(crate) struct Link {
    pub(crate) tail: usize,
    pub(crate) head: usize,
    pub(crate) label: usize,
    pub(crate) heard: Vec<Known>,
    pub(crate) waits: Vec<Report>,
}

// The links of a machine, and its nodes' rows by destination, then node.
#[derive(Drop)]
pub(crate) struct Tracked {
    pub(crate) nodes: usize,
    pub(crate) dests: usize,
    pub(crate) links: Vec<Link>,
    rows: Vec<Known>,
}

fn brief_of(row: &RouteRow) -> Result<Known, Fail> {
    let Some(route) = &row.route else {
        return Ok(None);
    };
    let Value::Name(value) = route.value else {
        return Err("the value isn't a table's".into());
    };
    let path = route.path.as_slice();
    let number = path.iter().fold(0u64, |number, node| {
        number
            .wrapping_mul(16)
            .wrapping_add(u64::from(node.0))
            .wrapping_add(1)
    });
    Ok(Some(Brief {
        value: usize::from(value),
        length: path.len(),
        path: number,
    }))
}

pub(crate) fn briefs_of(alloc: Global, rows: &[RouteRow]) -> Result<Vec<Known>, Fail> {
    let mut briefs = Vec::new(alloc);
    for row in rows {
        briefs.push(brief_of(row)?)?;
    }
    Ok(briefs)
}

// The arcs of the network, on which nothing was heard and nothing waits.
fn empty_links(alloc: Global, net: &Net) -> Result<Vec<Link>, Fail> {
    let mut links = Vec::new(alloc);
    for id in 0..net.arc_count() {
        let arc = net.arc(ArcId(id as u32));
        let &Label::Row(label) = arc.label else {
            return Err("the label isn't a table's".into());
        };
        let mut heard = Vec::new(alloc);
        for _dest in 0..net.dest_count() {
            heard.push(None)?;
        }
        links.push(Link {
            tail: arc.tail.0 as usize,
            head: arc.head.0 as usize,
            label: usize::from(label),
            heard,
            waits: Vec::new(alloc),
        })?;
    }
    Ok(links)
}

// The row of a node for a destination among rows by destination, then node.
fn row_at(rows: &[Known], nodes: usize, dest: usize, node: usize) -> Known {
    match rows.get(dest.saturating_mul(nodes).saturating_add(node)) {
        Some(row) => *row,
        None => None,
    }
}

impl Tracked {
    // The start of new nodes with these rows: each says its routes.
    pub(crate) fn of_new(alloc: Global, net: &Net, rows: Vec<Known>) -> Result<Tracked, Fail> {
        let mut links = empty_links(alloc, net)?;
        let (nodes, dests) = (net.node_count(), net.dest_count());
        for link in links.iter_mut() {
            for dest in 0..dests {
                let route = row_at(&rows, nodes, dest, link.head);
                if route.is_some() {
                    link.waits.push(Report { dest, route })?;
                }
            }
        }
        Ok(Tracked {
            nodes,
            dests,
            links,
            rows,
        })
    }

    // The link between two nodes, if there is one.
    fn link_between(&self, tail: usize, head: usize) -> Option<&Link> {
        self.links
            .iter()
            .find(|link| link.tail == tail && link.head == head)
    }

    // The start of the machine's nodes, carried to a network, with these rows: where a node spoke on an arc before, it
    // says which of its rows changed, and else its routes.
    pub(crate) fn carried(
        &self,
        alloc: Global,
        net: &Net,
        rows: Vec<Known>,
    ) -> Result<Tracked, Fail> {
        let mut next = Tracked::of_new(alloc, net, rows)?;
        for link in next.links.iter_mut() {
            if let Some(old) = self.link_between(link.tail, link.head) {
                link.heard = Vec::from_slice(alloc, &old.heard)?;
                link.waits = self.news_of(alloc, link.head, &next.rows)?;
            }
        }
        Ok(next)
    }

    // What a node says whose rows become these.
    fn news_of(&self, alloc: Global, node: usize, rows: &[Known]) -> Result<Vec<Report>, Fail> {
        let mut news = Vec::new(alloc);
        for dest in 0..self.dests {
            let route = row_at(rows, self.nodes, dest, node);
            if route != row_at(&self.rows, self.nodes, dest, node) {
                news.push(Report { dest, route })?;
            }
        }
        Ok(news)
    }

    // The listener of the arc takes the update in front, and the nodes' rows become these.
    pub(crate) fn take(&mut self, alloc: Global, arc: usize, rows: Vec<Known>) -> Result<(), Fail> {
        let link = self.links.get_mut(arc).ok_or("there is no such arc")?;
        if link.waits.is_empty() {
            return Err("nothing waits there".into());
        }
        let Report { dest, route } = link.waits.remove(0);
        *link
            .heard
            .get_mut(dest)
            .ok_or("there is no such destination")? = route;
        for link in 0..self.links.len() {
            let head = self.links[link].head;
            let news = self.news_of(alloc, head, &rows)?;
            for report in news {
                self.links[link].waits.push(report)?;
            }
        }
        self.rows = rows;
        Ok(())
    }

    // The arcs on which something waits.
    pub(crate) fn waiting(&self, alloc: Global) -> Result<Vec<ArcId>, Fail> {
        let mut arcs = Vec::new(alloc);
        let mut id = 0u32;
        for link in &self.links {
            if !link.waits.is_empty() {
                arcs.push(ArcId(id))?;
            }
            id = id.wrapping_add(1);
        }
        Ok(arcs)
    }
}
