ghost use Rattle.std.specs.Prelude.{◌≡◌, ◌+◌, ◌<◌, length, map, take, IfOk, OnOk};
ghost use Rattle.code_gen.specs.Compilation.{CompileLabel};
ghost use Rattle.arc_codes.specs.ArcLabels.{labels_of};

use code_gen::{LabelCodes, compile_label};
use meta_base::{ArcId, NoMemory};
use net_graph::Net;
use std::alloc::Global;

/// The codes of the labels on the network's arcs, by arc in file order. A label that many arcs have is compiled once. It
/// is refused for want of memory alone.
pub fn arc_codes(alloc: Global, net: &Net) -> Result<LabelCodes, NoMemory>
    ensures { IfOk result (λ codes. codes ≡ map (CompileLabel net.now.alg.expression) (labels_of net.now)) }
{
    let numbers = net.label_numbers();
    // By the number of a label, the latest arc that has it, if one has.
    let mut latest = vec![in alloc; ArcId(0); numbers.count()]?;
    let mut codes = LabelCodes::new(alloc);
    for place in 0..net.arc_count() {
        let arc = ArcId(place as u32);
        let number = numbers.of(arc);
        push_code(alloc, net, latest[number], arc, &mut codes)?;
        latest[number] = arc;
    }
    Ok(codes)
}

// Appends the code of the arc's label to those of the arcs before it. It is the code of the earlier arc where that has
// the same label.
#[inline(always)]
#[tactic(auto, using(crate::proofs::Shared::shared_at, crate::proofs::Shared::made_at))]
fn push_code(
    alloc: Global,
    net: &Net,
    earlier: ArcId,
    arc: ArcId,
    codes: &mut LabelCodes,
) -> Result<(), NoMemory>
    requires arc { arc.0 < length net.now.arcs }
    requires codes { codes.old ≡ map (CompileLabel net.now.alg.expression) (take arc.0 (labels_of net.now)) }
    ensures { OnOk result (codes.new ≡
        map (CompileLabel net.now.alg.expression) (take (arc.0 + 1) (labels_of net.now))) }
{
    let numbers = net.label_numbers();
    if earlier.0 < arc.0 && numbers.of(earlier) == numbers.of(arc) {
        codes.share(earlier.0 as usize)
    } else {
        codes.push(compile_label(alloc, net.alg(), net.arc(arc).label)?)
    }
}
