// Tests of `net_gen`: the texts of generated networks, worked out by hand from the generator's rule.
ghost use Rattle.net_gen.specs.Generated.{AreDemoNodes};

use meta_base::NoMemory;
use net_gen::network_text;
use std::alloc::Global;
use std::test::Fail;

const TWO_NODES: &str = "node n0
node n1
link n1 n0 : 6
origin x0 at n0 : 0
origin x1 at n1 : 0
";

// The seventh node hears two others, and the sixth draws one speaker twice.
const NINE_NODES: &str = "node n0
node n1
node n2
node n3
node n4
node n5
node n6
node n7
node n8
link n1 n0 : 5
link n2 n1 : 2
link n3 n2 : 4
link n4 n3 : 3
link n5 n4 : 3
link n6 n0 : 8
link n7 n1 : 1
link n7 n6 : 6
link n8 n7 : 5
origin x0 at n0 : 0
origin x1 at n1 : 0
";

// Whether that is the text of so many nodes with the seed.
fn generates(alloc: Global, seed: u64, nodes: u32, text: &str) -> Result<bool, NoMemory>
    requires { AreDemoNodes nodes }
{
    let generated = network_text(alloc, seed, nodes)?;
    Ok(generated.as_str() == text)
}

#[test]
fn texts_are_generated(rt: HostRuntime) -> Result<(), Fail> {
    assert!(rt; generates(rt.alloc(), 1, 2, TWO_NODES)?);
    assert!(rt; generates(rt.alloc(), u64::MAX, 9, NINE_NODES)?);
    Ok(())
}

#[test]
fn other_texts_are_reported_apart(rt: HostRuntime) -> Result<(), Fail> {
    assert!(rt; !generates(rt.alloc(), 2, 2, TWO_NODES)?);
    assert!(rt; !generates(rt.alloc(), 1, 3, TWO_NODES)?);
    Ok(())
}
