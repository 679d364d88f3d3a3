use meta_base::ArcId;

// The neighbour at an arc that a node may route by: the arc, and its label in the algebra's form.
#[derive(Drop)]
pub(crate) struct Neighbour<L> {
    pub arc: ArcId,
    pub label: L,
}
