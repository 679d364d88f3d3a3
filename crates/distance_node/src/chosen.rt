// A row with a value: the value in the algebra's own form, and the place of its offer. The node's own origin has place
// 0, and its arcs have the places from 1 on.
#[derive(Drop)]
pub(crate) struct Chosen<S> {
    pub sig: S,
    pub offer: usize,
}
