// The lines before stable tables.
ghost use Rattle.std.specs.Prelude.{◌≡◌, ◌<◌, IfOk, length};
ghost use Rattle.report_text.specs.TableTexts.{stable_text, table_text};

use crate::rows::push_dest;
use meta_base::{DestId, NoMemory, Text, push_number};
use net_graph::Net;
use std::alloc::Global;

/// The line of a destination with the number of its stable tables. It is refused for want of memory alone.
pub fn stable_line(alloc: Global, net: &Net, dest: DestId, count: usize) -> Result<Text, NoMemory>
    requires { dest.0 < length net.now.dests }
    ensures { IfOk result (λ text. text ≡ stable_text net.now dest.0 count) }
{
    let mut out = String::new(alloc);
    push_dest(&mut out, net, dest)?;
    out.push_str(" ")?;
    push_number(&mut out, count as u128)?;
    out.push_str(" stable\n")?;
    Ok(Text::from_string(out))
}

/// The line before the rows of a stable table, with its number among those of its destination, from 1 on. It is
/// refused for want of memory alone.
pub fn table_line(alloc: Global, number: usize) -> Result<Text, NoMemory>
    ensures { IfOk result (λ text. text ≡ table_text number) }
{
    let mut out = String::new(alloc);
    out.push_str("table ")?;
    push_number(&mut out, number as u128)?;
    out.push_str("\n")?;
    Ok(Text::from_string(out))
}
