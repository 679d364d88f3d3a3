// The links of generated networks.
ghost use Rattle.std.specs.Prelude.{◌≡◌, ◌≤◌, ◌∷◌};
ghost use Rattle.net_gen.specs.Draws.{next};
ghost use Rattle.std.specs.Option.{option_to_list};
ghost use Rattle.net_gen.specs.Generated.{weight, link, links_of};

use crate::draws::Draws;

/// A node listens to nodes of one group: those whose numbers leave the same rest by this count.
pub const GROUPS: u32 = 5;

/// The greatest label of a link. The least is 1.
pub const MOST_WEIGHT: u32 = 9;

/// An arc from one node, which listens, to another, with its label.
#[derive(Clone, Copy)]
pub struct Link {
    pub listener: u32,
    pub speaker: u32,
    pub weight: u32,
}

impl Draws {
    // The label of a link.
    fn weight(&mut self) -> u32
        ensures weight { result ≡ weight self.old.state }
        ensures state { self.new.state ≡ next self.old.state }
        ensures bounded { result ≤ MOST_WEIGHT }
    {
        self.draw(MOST_WEIGHT) + 1
    }

    // A link of the node, which isn't the first one.
    fn link(&mut self, node: u32) -> Link
        requires { 1 ≤ node }
        ensures link { result ≡ link node self.old.state }
        ensures state { self.new.state ≡ next (next self.old.state) }
    {
        let group = (node - 1) % GROUPS;
        let turn = (node - 1) / GROUPS;
        let speaker = group + GROUPS * self.draw(turn + 1);
        let weight = self.weight();
        Link {
            listener: node,
            speaker,
            weight,
        }
    }

    /// The links of the node, which isn't the first one: one, or two of different speakers.
    #[tactic(auto, unfolding(crate::specs::Generated::links_of))]
    pub fn links(&mut self, node: u32) -> (Link, Option<Link>)
        requires { 1 ≤ node }
        ensures links { result.0 ∷ option_to_list result.1 ≡ (links_of node self.old.state).links }
        ensures state { self.new.state ≡ (links_of node self.old.state).state }
    {
        if (node - 1) % GROUPS == 0 {
            let weight = self.weight();
            let link = Link {
                listener: node,
                speaker: 0,
                weight,
            };
            return (link, None);
        }
        let first = self.link(node);
        let second = self.link(node);
        if second.speaker == first.speaker {
            return (first, None);
        }
        (first, Some(second))
    }
}
