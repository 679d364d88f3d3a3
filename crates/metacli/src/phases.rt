// Putting the lines of runs, floods and exchanges of values.
ghost use Rattle.std.specs.Prelude.{◌+◌, ◌^◌, ◌<◌, length, map};
ghost use Rattle.std.specs.List.{AllByRecursion};
ghost use Rattle.distance_node.specs.Rows.{IsHopRowOf, pure_hop_row};
ghost use Rattle.net_graph.specs.RowTexts.{IsRowOf};
ghost use Rattle.net_graph.specs.Views.{pure_row};
ghost use Rattle.metacli.specs.Texts.{PutsText, exchange_text, flood_text, hop_rows_text, journal_text, number_text, phase_lines, run_text, trace_text};
ghost use Rattle.vector_runs.specs.Runs.{AreOfNetworks, IsOfNetwork, pure_phase};

use crate::outcome::Ran;
use crate::putting::{Cut, put_line, put_room, room_for_lines};
use crate::writing::put_rows;
use distance_runs::{DistanceRun, HopRow};
use flood_runs::FloodRun;
use meta_base::{Delivery, Sink, put_all};
use net_graph::Net;
use report_text::{end_line, phase_line, push_hop_row_line};
use std::alloc::Global;
use trace_lines::DeliveryLines;
use vector_runs::{Journal, Phase};

/// Puts the phases of a run from one number on: these of the past, the first on this network and the others on the
/// changed ones, and then the last.
pub(crate) fn put_phases<K: Sink>(
    alloc: Global,
    out: &mut K,
    net: &Net,
    changed: &[Net],
    number: usize,
    past: &[Phase],
    ran: &Ran,
) -> Result<(), Cut>
    requires of { AreOfNetworks net.now changed.now (map pure_phase past.now) (pure_phase ran.now.run.last) }
    requires few { number + length past.now < 2 ^ 64 }
    ensures { PutsText (K.holds out.old) (run_text ran.now.is_traced net.now changed.now number
        (map pure_phase past.now) (pure_phase ran.now.run.last) ran.now.run.is_quiet) result (K.holds out.new) }
{
    let run = &ran.run;
    let Some((phase, rest)) = past.split_first() else {
        return put_phase(
            alloc,
            out,
            net,
            number,
            ran.is_traced,
            &run.last,
            run.is_quiet,
        );
    };
    let Some((next, later)) = changed.split_first() else {
        unreachable!()
    };
    put_phase(alloc, out, net, number, ran.is_traced, phase, true)?;
    put_phases(alloc, out, next, later, number + 1, rest, ran)
}

// Puts a phase: its number, where it isn't the first; its deliveries, where they are asked for; its rows; its end.
fn put_phase<K: Sink>(
    alloc: Global,
    out: &mut K,
    net: &Net,
    number: usize,
    is_traced: bool,
    phase: &Phase,
    is_quiet: bool,
) -> Result<(), Cut>
    requires { IsOfNetwork net.now (pure_phase phase.now) }
    ensures { PutsText (K.holds out.old) (phase_lines is_traced net.now number (pure_phase phase.now) is_quiet)
        result (K.holds out.new) }
{
    put_number(alloc, out, number)?;
    put_trace(alloc, out, net, is_traced, &phase.journal)?;
    put_rows(alloc, out, net, phase.rows.as_slice())?;
    put_line(out, end_line(alloc, is_quiet, phase.journal.len()))
}

/// Puts the rows of a flood on the network and its end.
pub(crate) fn put_flood<K: Sink>(
    alloc: Global,
    out: &mut K,
    net: &Net,
    run: &FloodRun,
) -> Result<(), Cut>
    requires { AllByRecursion (IsRowOf net.now) (map pure_row run.now.rows) }
    ensures { PutsText (K.holds out.old)
        (flood_text net.now (map pure_row run.now.rows) run.now.journal run.now.is_quiet) result (K.holds out.new) }
{
    put_rows(alloc, out, net, run.rows.as_slice())?;
    let made = run.journal.len();
    put_line(out, end_line(alloc, run.is_quiet, made))
}

/// Puts the rows of an exchange on the network and its end.
pub(crate) fn put_exchange<K: Sink>(
    alloc: Global,
    out: &mut K,
    net: &Net,
    run: &DistanceRun,
) -> Result<(), Cut>
    requires { AllByRecursion (IsHopRowOf net.now) (map pure_hop_row run.now.hops) }
    ensures { PutsText (K.holds out.old)
        (exchange_text net.now (map pure_hop_row run.now.hops) run.now.journal run.now.is_quiet) result
        (K.holds out.new) }
{
    put_hop_rows(alloc, out, net, run.hops.as_slice())?;
    let made = run.journal.len();
    put_line(out, end_line(alloc, run.is_quiet, made))
}

// Puts the lines of rows with their next hops.
fn put_hop_rows<K: Sink>(alloc: Global, out: &mut K, net: &Net, hops: &[HopRow]) -> Result<(), Cut>
    requires { AllByRecursion (IsHopRowOf net.now) (map pure_hop_row hops.now) }
    ensures { PutsText (K.holds out.old) (hop_rows_text net.now (map pure_hop_row hops.now)) result (K.holds out.new) }
{
    let mut room = room_for_lines(alloc)?;
    for hop in hops {
        push_hop_row_line(&mut room, net, hop)?;
        put_room(out, &mut room)?;
    }
    Ok(())
}

// Puts the number of a phase, where it isn't the first.
fn put_number<K: Sink>(alloc: Global, out: &mut K, number: usize) -> Result<(), Cut>
    ensures { PutsText (K.holds out.old) (number_text number) result (K.holds out.new) }
{
    if number == 0 {
        return Ok(());
    }
    put_line(out, phase_line(alloc, number))
}

// Puts the deliveries, where they are asked for.
fn put_trace<K: Sink>(
    alloc: Global,
    out: &mut K,
    net: &Net,
    is_traced: bool,
    journal: &Journal,
) -> Result<(), Cut>
    requires { AllByRecursion (λ d. d.arc.0 < length net.now.arcs) journal.now }
    ensures { PutsText (K.holds out.old) (trace_text is_traced net.now journal.now) result (K.holds out.new) }
{
    if !is_traced {
        return Ok(());
    }
    put_journal(alloc, out, net, journal)
}

// Puts the deliveries in the order of the journal, which is made for them alone.
fn put_journal<K: Sink>(alloc: Global, out: &mut K, net: &Net, journal: &Journal) -> Result<(), Cut>
    requires { AllByRecursion (λ d. d.arc.0 < length net.now.arcs) journal.now }
    ensures { PutsText (K.holds out.old) (journal_text net.now journal.now) result (K.holds out.new) }
{
    let deliveries = journal.entries(alloc)?;
    put_deliveries(alloc, out, net, deliveries.as_slice())
}

fn put_deliveries<K: Sink>(
    alloc: Global,
    out: &mut K,
    net: &Net,
    journal: &[Delivery],
) -> Result<(), Cut>
    requires { AllByRecursion (λ d. d.arc.0 < length net.now.arcs) journal.now }
    ensures { PutsText (K.holds out.old) (journal_text net.now journal.now) result (K.holds out.new) }
{
    let mut lines = DeliveryLines::new(alloc, net)?;
    for delivery in journal {
        lines.write(delivery)?;
        put_all(out, lines.line())?;
    }
    Ok(())
}
