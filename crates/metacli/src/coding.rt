// What `code` compiles.
ghost use Rattle.std.specs.Prelude.{◌≡◌, [], IfOk, map, None, Some};
ghost use Rattle.code_gen.specs.Listings.{IsListing};
ghost use Rattle.net_graph.specs.Changes.{AreChanges};
ghost use Rattle.net_graph.specs.Views.{pure_change};
ghost use Rattle.topology_file.specs.Views.{pure_file};
ghost use Rattle.topology_file.specs.NetText.{changed_net};
ghost use Rattle.metacli.specs.After.{last_of};
ghost use Rattle.metacli.specs.Outcome.{IsCodedAs, labels_on};
ghost use Rattle.metacli.specs.Views.{CanBeWritten, pure_outcome};

use crate::after::{last_of, net_after};
use crate::outcome::{Coded, Outcome, Stop};
use alg_model::Alg;
use arc_codes::arc_codes;
use code_gen::{LabelCodes, Listing, compile_order};
use meta_base::NoMemory;
use net_graph::Net;
use std::alloc::Global;
use topology_file::NetFile;

/// What `code` comes to on an algebra.
pub fn code(alloc: Global, alg: Alg) -> Outcome
    ensures coded { IsCodedAs alg None [] (pure_outcome result) }
    ensures printable { CanBeWritten result }
{
    match order_listing(alloc, &alg) {
        Ok(listing) => Outcome::Coded(Coded {
            alg,
            file: None,
            after: None,
            listing,
        }),
        Err(NoMemory) => Outcome::Stopped {
            alg: Some(alg),
            file: None,
            stop: Stop::Memory,
        },
    }
}

/// What `code` comes to on a network over the algebra, after all its changes.
pub fn code_network(alloc: Global, alg: Alg, file: NetFile) -> Outcome
    requires over { file.net.alg ≡ alg }
    requires changes { AreChanges file.net (map pure_change file.changes) }
    ensures coded { IsCodedAs alg (Some (pure_file file)) (labels_on (changed_net (pure_file file)))
        (pure_outcome result) }
    ensures printable { CanBeWritten result }
{
    match listing_after(alloc, &file) {
        Ok((after, listing)) => Outcome::Coded(Coded {
            alg,
            file: Some(file),
            after,
            listing,
        }),
        Err(NoMemory) => Outcome::Stopped {
            alg: Some(alg),
            file: Some(file),
            stop: Stop::Memory,
        },
    }
}

// The network after all changes of the file, where there are any, and the code of its labels and its algebra's order.
fn listing_after(alloc: Global, file: &NetFile) -> Result<(Option<Net>, Listing), NoMemory>
    requires { AreChanges file.now.net (map pure_change file.now.changes) }
    ensures after { IfOk result (λ made. last_of made.0 file.now.net ≡ changed_net (pure_file file.now)) }
    ensures listing { IfOk result (λ made.
        IsListing file.now.net.alg.expression (labels_on (changed_net (pure_file file.now))) made.1) }
{
    let after = net_after(alloc, &file.net, file.changes.as_slice())?;
    match arc_listing(alloc, last_of(&after, &file.net)) {
        Ok(listing) => Ok((after, listing)),
        Err(NoMemory) => {
            drop(after);
            Err(NoMemory)
        }
    }
}

// The code of the network's labels, and of its algebra's order.
fn arc_listing(alloc: Global, net: &Net) -> Result<Listing, NoMemory>
    ensures { IfOk result (IsListing net.now.alg.expression (labels_on net.now)) }
{
    let order = compile_order(alloc, net.alg())?;
    let labels = arc_codes(alloc, net)?;
    Ok(Listing { order, labels })
}

// The code of the algebra's order alone.
fn order_listing(alloc: Global, alg: &Alg) -> Result<Listing, NoMemory>
    ensures { IfOk result (IsListing alg.now.expression []) }
{
    Ok(Listing {
        order: compile_order(alloc, alg)?,
        labels: LabelCodes::new(alloc),
    })
}
