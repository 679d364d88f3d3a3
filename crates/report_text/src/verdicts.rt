// The lines of verdicts.
ghost use Rattle.std.specs.Prelude.{◌≡◌, map, OnOk, IfOk};
ghost use Rattle.meta_base.specs.Appending.{Gains};
ghost use Rattle.alg_model.specs.declared.edition.TheConstants.{MAX_LABEL_NUMBER};
ghost use Rattle.alg_model.specs.declared.alg.TheConstants.{MAX_VALUE_NUMBER};
ghost use Rattle.alg_model.specs.Views.{pure_value, pure_label};
ghost use Rattle.alg_model.specs.Bounds.{AtMost, LabelAtMost};
ghost use Rattle.alg_model.specs.Carriers.{carrier_of, In};
ghost use Rattle.alg_model.specs.Application.{IsLabel, App};
ghost use Rattle.alg_classes.specs.Instances.{pure_property, pure_instance};
ghost use Rattle.property_infer.specs.Views.{pure_verdict, pure_verdicts};
ghost use Rattle.report_text.specs.VerdictTexts.{CanPrint, CanPrintVerdict, CanPrintVerdicts, image_text, instance_text, property_word, required_text, verdict_text, lines_on, verdicts_text};

use alg_classes::{Instance, Property};
use alg_model::{Alg, Label, Value, apply};
use meta_base::{NoMemory, Text};
use property_infer::{Verdict, Verdicts};
use sig_text::{push_label, push_value};
use std::alloc::Global;

// The text of what a label makes of a value.
fn push_image(
    alloc: Global,
    out: &mut String,
    alg: &Alg,
    label: &Label,
    value: &Value,
) -> Result<(), NoMemory>
    requires label { IsLabel alg.now.expression (pure_label label.now) }
    requires value { In (carrier_of alg.now.expression) (pure_value value.now) }
    requires small_label { LabelAtMost MAX_LABEL_NUMBER (pure_label label.now) }
    requires small_value { AtMost MAX_VALUE_NUMBER (pure_value value.now) }
    ensures { OnOk result (Gains out.old (image_text (carrier_of alg.now.expression)
        (App alg.now.expression (pure_label label.now) (pure_value value.now))) out.new) }
{
    match apply(alloc, alg, label, value)? {
        Some(image) => push_value(out, alg, &image),
        None => Ok(out.push_str("none")?),
    }
}

// The label and the values of an instance, and what the label makes of them.
pub(crate) fn push_instance(
    alloc: Global,
    out: &mut String,
    alg: &Alg,
    instance: &Instance,
) -> Result<(), NoMemory>
    requires { CanPrint alg.now.expression (pure_instance instance.now) }
    ensures { OnOk result (Gains out.old (instance_text alg.now.expression (pure_instance instance.now)) out.new) }
{
    push_label(out, alg, &instance.label)?;
    out.push_str(" on ")?;
    push_value(out, alg, &instance.first)?;
    if let Some(second) = &instance.second {
        out.push_str(" and ")?;
        push_value(out, alg, second)?;
    }
    out.push_str(" gives ")?;
    push_image(alloc, out, alg, &instance.label, &instance.first)?;
    if let Some(second) = &instance.second {
        out.push_str(" and ")?;
        push_image(alloc, out, alg, &instance.label, second)?;
    }
    Ok(())
}

// The word that a property is printed as.
pub(crate) fn word_of(property: Property) -> &'static str
    ensures { result.now ≡ property_word (pure_property property) }
{
    match property {
        Property::Monotone => "monotone",
        Property::Strict => "strict",
        Property::Isotone => "isotone",
        Property::Cancellative => "cancellative",
        Property::Total => "total",
    }
}

fn push_verdict(
    alloc: Global,
    out: &mut String,
    alg: &Alg,
    property: Property,
    verdict: &Verdict,
) -> Result<(), NoMemory>
    requires { CanPrintVerdict alg.now.expression (pure_verdict verdict.now) }
    ensures { OnOk result (Gains out.old
        (verdict_text alg.now.expression (pure_property property) (pure_verdict verdict.now)) out.new) }
{
    out.push_str(word_of(property))?;
    match verdict {
        Verdict::Yes => out.push_str(" yes\n")?,
        Verdict::No(instance) => {
            out.push_str(" no: ")?;
            push_instance(alloc, out, alg, instance)?;
            out.push_str("\n")?;
        }
    }
    Ok(())
}

// The lines of the verdicts on these properties.
fn push_verdicts(
    alloc: Global,
    out: &mut String,
    alg: &Alg,
    verdicts: &Verdicts,
    properties: &[Property],
) -> Result<(), NoMemory>
    requires { CanPrintVerdicts alg.now.expression (pure_verdicts verdicts.now) }
    ensures { OnOk result (Gains out.old
        (lines_on alg.now.expression (pure_verdicts verdicts.now) (map pure_property properties.now)) out.new) }
{
    match properties {
        [] => Ok(()),
        [property, rest @ ..] => {
            push_verdict(alloc, out, alg, *property, verdicts.on(*property))?;
            push_verdicts(alloc, out, alg, verdicts, rest)
        }
    }
}

// As many bytes as the lines of most verdicts have, so that they seldom grow.
const USUAL_VERDICT: usize = 128;

/// The line of the verdict on a property of an algebra or of labels of it: that it holds, or values at
/// which it fails. It is refused for want of memory alone.
pub fn verdict_line(
    alloc: Global,
    alg: &Alg,
    property: Property,
    verdict: &Verdict,
) -> Result<Text, NoMemory>
    requires { CanPrintVerdict alg.now.expression (pure_verdict verdict.now) }
    ensures { IfOk result (λ text.
        text ≡ verdict_text alg.now.expression (pure_property property) (pure_verdict verdict.now)) }
{
    let mut out = String::with_capacity(alloc, USUAL_VERDICT)?;
    push_verdict(alloc, &mut out, alg, property, verdict)?;
    Ok(Text::from_string(out))
}

/// The line of a property that is required and fails. It is refused for want of memory alone.
pub fn required_line(alloc: Global, property: Property) -> Result<Text, NoMemory>
    ensures { IfOk result (λ text. text ≡ required_text (pure_property property)) }
{
    let mut out = String::new(alloc);
    out.push_str("required: ")?;
    out.push_str(word_of(property))?;
    out.push_str("\n")?;
    Ok(Text::from_string(out))
}

/// For these lines alone; the program appends them to a text. The five lines of the verdicts on an algebra or on labels
/// of it, in the order of [`Property::ALL`]. They are refused for want of memory alone.
pub fn verdict_lines(alloc: Global, alg: &Alg, verdicts: &Verdicts) -> Result<Text, NoMemory>
    requires { CanPrintVerdicts alg.now.expression (pure_verdicts verdicts.now) }
    ensures { IfOk result (λ text. text ≡ verdicts_text alg.now.expression (pure_verdicts verdicts.now)) }
{
    let mut out = String::new(alloc);
    push_verdicts(alloc, &mut out, alg, verdicts, &Property::ALL)?;
    Ok(Text::from_string(out))
}
