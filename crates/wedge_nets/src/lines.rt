// The text of a wedge.
ghost use Rattle.std.specs.Prelude.{◌≡◌, ◌++◌, OnOk, IfOk, codes};
ghost use Rattle.meta_base.specs.Appending.{Gains};
ghost use Rattle.alg_model.specs.Application.{IsLabel};
ghost use Rattle.alg_model.specs.Carriers.{carrier_of, In};
ghost use Rattle.alg_model.specs.Properties.{monotone};
ghost use Rattle.alg_model.specs.Texts.{label_text, value_text};
ghost use Rattle.alg_model.specs.Views.{pure_label, pure_value};
ghost use Rattle.property_infer.specs.Views.{pure_verdict};
ghost use Rattle.report_text.specs.VerdictTexts.{verdict_text};
ghost use Rattle.topology_file.specs.LineTexts.{ended, text_of};
ghost use Rattle.wedge_nets.specs.Gadgets.{HasGadget};
ghost use Rattle.wedge_nets.specs.GadgetTexts.{wedge_lines, gadget_text};

use alg_classes::Property;
use alg_model::{Alg, Label, Value};
use meta_base::{NoMemory, Text};
use property_infer::Verdict;
use report_text::verdict_line;
use sig_text::{push_label, push_value};
use std::alloc::Global;
use topology_file::MAX_LINE_BYTES;

// What is printed where a line would be too long for a network file.
const NO_FILE: &str = "# monotone no: no network file holds this instance\n";

/// The text of the verdict that [`crate::gadget`] gives on the algebra, which is a network file over it: where the
/// verdict is yes, one comment; where it is no, a comment with the instance, and the wedge of its label and its value,
/// unless a line would have more than [`topology_file::MAX_LINE_BYTES`] bytes: then it is one comment that says so. It
/// is refused for want of memory alone.
pub fn gadget_lines(alloc: Global, alg: &Alg, verdict: &Verdict) -> Result<Text, NoMemory>
    requires { HasGadget alg.now (pure_verdict verdict.now) }
    ensures { IfOk result (λ text. text ≡ gadget_text alg.now (pure_verdict verdict.now)) }
{
    let mut out = String::new(alloc);
    push_comment(alloc, &mut out, alg, verdict)?;
    if let Verdict::No(instance) = verdict {
        // The first line is the longest one. It stands there with its line feed.
        if out.len() > MAX_LINE_BYTES + 1 {
            return Text::copy(alloc, NO_FILE);
        }
        push_wedge(&mut out, alg, &instance.label, &instance.first)?;
    }
    Ok(Text::from_string(out))
}

// The line of the verdict, as a comment.
fn push_comment(
    alloc: Global,
    out: &mut String,
    alg: &Alg,
    verdict: &Verdict,
) -> Result<(), NoMemory>
    requires { HasGadget alg.now (pure_verdict verdict.now) }
    ensures { OnOk result (Gains out.old
        (codes "# " ++ verdict_text alg.now.expression monotone (pure_verdict verdict.now)) out.new) }
{
    out.push_str("# ")?;
    let line = verdict_line(alloc, alg, Property::Monotone, verdict)?;
    Ok(out.push_str(line.as_str())?)
}

// The lines of the wedge's network file.
fn push_wedge(out: &mut String, alg: &Alg, label: &Label, value: &Value) -> Result<(), NoMemory>
    requires label { IsLabel alg.now.expression (pure_label label.now) }
    requires value { In (carrier_of alg.now.expression) (pure_value value.now) }
    ensures { OnOk result (Gains out.old
        (text_of (wedge_lines alg.now.expression (pure_label label.now) (pure_value value.now))) out.new) }
{
    out.push_str("node p q\n")?;
    push_labelled(out, alg, "link p q : ", label)?;
    push_valued(out, alg, "origin x at p : ", value)?;
    push_valued(out, alg, "origin x at q : ", value)?;
    push_labelled(out, alg, "then link q p : ", label)?;
    out.push_str("then drop p q\n")?;
    push_labelled(out, alg, "then link p q : ", label)
}

// A line that ends in a label.
fn push_labelled(out: &mut String, alg: &Alg, start: &str, label: &Label) -> Result<(), NoMemory>
    requires { IsLabel alg.now.expression (pure_label label.now) }
    ensures { OnOk result (Gains out.old
        (ended (start.now ++ label_text alg.now.expression (pure_label label.now))) out.new) }
{
    out.push_str(start)?;
    push_label(out, alg, label)?;
    Ok(out.push_str("\n")?)
}

// A line that ends in a value.
fn push_valued(out: &mut String, alg: &Alg, start: &str, value: &Value) -> Result<(), NoMemory>
    requires { In (carrier_of alg.now.expression) (pure_value value.now) }
    ensures { OnOk result (Gains out.old
        (ended (start.now ++ value_text (carrier_of alg.now.expression) (pure_value value.now))) out.new) }
{
    out.push_str(start)?;
    push_value(out, alg, value)?;
    Ok(out.push_str("\n")?)
}
