ghost use Rattle.std.specs.Prelude.{◌≡◌, ℕ, ◌+◌, ◌-◌, ◌<◌, ◌≤◌, ◌==◌, [], ◌∷◌, ◌++◌, All, cond, length, map, slice_get, vec_len, OnOk, IfOk, Some};
ghost use Rattle.node_core.specs.Kinds.{on_arc};
ghost use Rattle.node_core.specs.Configs.{numbered, waits_on, spare_on};

use crate::Outgoing;
use meta_base::{ArcId, NoMemory};
use std::alloc::Global;
use std::collections::VecDeque;

// So many links, on which nothing waits.
pub(crate) fn empty_links<M: Drop>(
    alloc: Global,
    count: usize,
) -> Result<Vec<VecDeque<M>>, NoMemory>
    ensures count { IfOk result (λ links. vec_len links ≡ count) }
    ensures empty { IfOk result (λ links. (b : ℕ) → waits_on links.items b ≡ []) }
{
    let mut links = Vec::with_capacity(alloc, count)?;
    for _made in 0..count {
        links.push(VecDeque::new(alloc))?;
    }
    Ok(links)
}

// Puts a message on its arc.
fn put<M: Drop>(links: &mut Vec<VecDeque<M>>, arc: ArcId, message: M) -> Result<(), NoMemory>
    requires arc { arc.0 < vec_len links.old }
    ensures count { vec_len links.new ≡ vec_len links.old }
    ensures put { OnOk result ((b : ℕ) → waits_on links.new.items b
        ≡ cond (arc.0 == b) (waits_on links.old.items b ++ message ∷ []) (waits_on links.old.items b)) }
{
    let link = &mut links[arc.0 as usize];
    link.push_back(message)?;
    Ok(())
}

// Puts messages on their arcs, in order.
pub(crate) fn put_all<M: Drop>(
    links: &mut Vec<VecDeque<M>>,
    out: Outgoing<M>,
) -> Result<(), NoMemory>
    requires arcs { All (λ p. p.0.0 < vec_len links.old) out }
    ensures count { vec_len links.new ≡ vec_len links.old }
    ensures put { OnOk result ((b : ℕ) → waits_on links.new.items b
        ≡ waits_on links.old.items b ++ on_arc b (map numbered out)) }
{
    for (arc, message) in out.into_vec() {
        put(links, arc, message)?;
    }
    Ok(())
}

// Makes room for one message more on an arc. Nothing that waits changes, whatever comes of it.
fn make_room_on<M>(links: &mut Vec<VecDeque<M>>, arc: ArcId) -> Result<(), NoMemory>
    requires arc { arc.0 < vec_len links.old }
    ensures count { vec_len links.new ≡ vec_len links.old }
    ensures kept { (b : ℕ) → waits_on links.new.items b ≡ waits_on links.old.items b }
    ensures spare { (b : ℕ) → spare_on links.old.items b ≤ spare_on links.new.items b }
    ensures room { OnOk result (0 < spare_on links.new.items arc.0) }
{
    let link = &mut links[arc.0 as usize];
    link.reserve(1)?;
    Ok(())
}

// Makes room for one message more on each of these arcs.
pub(crate) fn make_room<M>(links: &mut Vec<VecDeque<M>>, arcs: &[ArcId]) -> Result<(), NoMemory>
    requires arcs { All (λ arc. arc.0 < vec_len links.old) arcs.now }
    ensures count { vec_len links.new ≡ vec_len links.old }
    ensures kept { (b : ℕ) → waits_on links.new.items b ≡ waits_on links.old.items b }
    ensures room { OnOk result (All (λ arc. 0 < spare_on links.new.items arc.0) arcs.now) }
{
    for arc in arcs {
        make_room_on(links, *arc)?;
    }
    Ok(())
}

// Puts a message on its arc, where there is room.
fn send_one<M>(links: &mut Vec<VecDeque<M>>, arc: ArcId, message: M)
    requires room { 0 < spare_on links.old.items arc.0 }
    ensures count { vec_len links.new ≡ vec_len links.old }
    ensures sent { (b : ℕ) → waits_on links.new.items b
        ≡ cond (arc.0 == b) (waits_on links.old.items b ++ message ∷ []) (waits_on links.old.items b) }
    ensures spare { (b : ℕ) → spare_on links.old.items b
        ≡ cond (arc.0 == b) (spare_on links.new.items b + 1) (spare_on links.new.items b) }
{
    let link = &mut links[arc.0 as usize];
    link.push_back_reserved(message);
}

// Puts messages on their arcs, in order, where there is room for them.
pub(crate) fn send_all<M: Drop>(links: &mut Vec<VecDeque<M>>, out: Outgoing<M>)
    requires room { (b : ℕ) → length (on_arc b (map numbered out)) ≤ spare_on links.old.items b }
    ensures count { vec_len links.new ≡ vec_len links.old }
    ensures sent { (b : ℕ) → waits_on links.new.items b
        ≡ waits_on links.old.items b ++ on_arc b (map numbered out) }
{
    for (arc, message) in out.into_vec() {
        send_one(links, arc, message);
    }
}
