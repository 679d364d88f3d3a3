// The lines of runs.
ghost use Rattle.std.specs.Prelude.{◌≡◌, IfOk};
ghost use Rattle.report_text.specs.RunTexts.{end_text, phase_text};

use meta_base::{NoMemory, Text, push_number};
use std::alloc::Global;

/// The line at the beginning of a phase, with its number. It is refused for want of memory alone.
pub fn phase_line(alloc: Global, number: usize) -> Result<Text, NoMemory>
    ensures { IfOk result (λ text. text ≡ phase_text number) }
{
    let mut out = String::new(alloc);
    out.push_str("phase ")?;
    push_number(&mut out, number as u128)?;
    out.push_str("\n")?;
    Ok(Text::from_string(out))
}

/// The line at the end of a phase: whether nothing was on its way, or all turns were used, and how many deliveries
/// it made. It is refused for want of memory alone.
pub fn end_line(alloc: Global, is_quiet: bool, deliveries: usize) -> Result<Text, NoMemory>
    ensures { IfOk result (λ text. text ≡ end_text is_quiet deliveries) }
{
    let mut out = String::new(alloc);
    out.push_str(if is_quiet { "quiet " } else { "spent " })?;
    push_number(&mut out, deliveries as u128)?;
    out.push_str("\n")?;
    Ok(Text::from_string(out))
}
