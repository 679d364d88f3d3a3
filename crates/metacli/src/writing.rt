// Writing the text of what a run came to, a line at a time.
ghost use Rattle.std.specs.Prelude.{◌≡◌, ◌≢◌, ◌++◌, ℕ, List, Option, Some, map, option_map, IfOk};
ghost use Rattle.std.specs.List.{AllByRecursion};
ghost use Rattle.alg_classes.specs.Instances.{pure_instance, pure_property};
ghost use Rattle.alg_model.specs.Views.{pure_value};
ghost use Rattle.net_graph.specs.Nets.{PureNet};
ghost use Rattle.net_graph.specs.Views.{pure_row};
ghost use Rattle.net_graph.specs.RowTexts.{IsRowOf};
ghost use Rattle.property_infer.specs.Views.{pure_verdict, pure_verdicts};
ghost use Rattle.topology_file.specs.Views.{pure_file};
ghost use Rattle.topology_file.specs.NetText.{changed_net};
ghost use Rattle.report_check.specs.Views.{pure_hops, pure_judgement};
ghost use Rattle.report_text.specs.CodeTexts.{CanList, code_text};
ghost use Rattle.report_text.specs.JudgedTexts.{CanPrintHops, CanPrintJudgement, judgement_text};
ghost use Rattle.report_text.specs.VerdictTexts.{CanPrintVerdicts, lines_on, verdicts_text};
ghost use Rattle.report_text.specs.Refusals.{CanMiss, misses, misses_text, refusal_text};
ghost use Rattle.report_text.specs.SummaryTexts.{AreSummed, summary_text};
ghost use Rattle.vector_runs.specs.Runs.{AreOfNetworks, pure_phase};
ghost use Rattle.wedge_nets.specs.GadgetTexts.{gadget_text};
ghost use Rattle.word_tables.specs.Rows.{pure_word_rows, HasWordsOn};
ghost use Rattle.wedge_nets.specs.Gadgets.{HasGadget};
ghost use Rattle.metacli.specs.After.{last_of};
ghost use Rattle.metacli.specs.Answers.{pure_answer, pure_stop, refused, write_fault};
ghost use Rattle.metacli.specs.Outcome.{answer_in};
ghost use Rattle.metacli.specs.Texts.{AfterFailedFlush, HandsOn, PutsText, TextOf, Written, last_net, many_text, routes_text, rows_text, run_text, unmet_text};
ghost use Rattle.metacli.specs.Views.{CanBeWritten, IsListedOn, pure_outcome};

use crate::Answer;
use crate::after::last_of;
use crate::lending::put_word_rows;
use crate::outcome::{
    Checked, Coded, Judged, Outcome, Ran, Routed, Shown, Stop, Wedged, checked_answer, end_answer,
};
use crate::phases::{put_exchange, put_flood, put_phases};
use crate::putting::{Cut, answered, put_line, put_room, room_for_lines};
use crate::routing::Solution;
use crate::summing::put_summary;
use crate::tabling::put_all_tables;
use alg_classes::{Instance, Property};
use alg_model::{Alg, Value};
use meta_base::{Failed, NoMemory, Sink, Text, put_all};
use net_facts::Missing;
use net_graph::{Net, RouteRow};
use property_infer::Verdicts;
use report_check::ManyHops;
use report_text::{
    code_lines, judgement_lines, misses_line, push_hops_line, refusal_line, required_line,
    verdict_line,
};
use row_lines::RowLines;
use std::alloc::Global;
use topology_file::NetFile;
use wedge_nets::gadget_lines;

/// Writes the text of what a run came to, and answers how that went.
pub fn write<K: Sink>(alloc: Global, out: &mut K, outcome: &Outcome) -> Answer
    requires { CanBeWritten outcome.now }
    ensures { Written (K.holds out.old) (TextOf (pure_outcome outcome.now)) (K.holds out.new)
        (answer_in (pure_outcome outcome.now)) (pure_answer result) }
{
    match outcome {
        Outcome::Stopped { stop, .. } => write_refusal(alloc, out, *stop),
        Outcome::Unfit(it) => write_missing(
            alloc,
            out,
            last_of(&it.after, &it.file.net),
            &it.missing,
        ),
        Outcome::Checked(it) => answered(put_checked(alloc, out, it), checked_answer(it.unmet)),
        Outcome::Coded(it) => answered(put_code(alloc, out, it), Answer::Done),
        Outcome::Routed(it) => answered(put_routes(alloc, out, it), Answer::Done),
        Outcome::Hopped(it) => {
            let put = put_hops(alloc, out, &it.file.net, it.many.as_slice());
            answered(put, Answer::Done)
        }
        Outcome::Judged(it) => answered(put_judged(alloc, out, it), Answer::Done),
        Outcome::Wedged(it) => answered(put_gadget(alloc, out, it), Answer::Done),
        Outcome::Ran(it) => answered(put_run(alloc, out, it), end_answer(it.run.is_quiet)),
        Outcome::Flooded(it) => {
            let put = put_flood(alloc, out, &it.file.net, &it.run);
            answered(put, end_answer(it.run.is_quiet))
        }
        Outcome::Exchanged(it) => {
            let put = put_exchange(alloc, out, &it.file.net, &it.run);
            answered(put, end_answer(it.run.is_quiet))
        }
        Outcome::Shown(it) => answered(put_shown(alloc, out, it), Answer::Done),
    }
}

/// Hands on what the sink gathered, after this was answered, and answers how that went.
pub fn hand_on<K: Sink>(out: &mut K, answer: Answer) -> Answer
    ensures { HandsOn (K.holds out.old) (pure_answer answer) (K.holds out.new) (pure_answer result) }
{
    match out.flush() {
        Ok(()) => answer,
        Err(Failed) => after_failed_flush(answer),
    }
}

// The answer where what was answered so could not be handed on.
fn after_failed_flush(answer: Answer) -> Answer
    ensures { AfterFailedFlush (pure_answer answer) (pure_answer result) }
{
    match answer {
        Answer::NoMemory => Answer::NoMemory,
        other => {
            drop(other);
            Answer::WriteFault
        }
    }
}

// Puts the lines of a listing, of the labels on the network's arcs where there is one.
fn put_code<K: Sink>(alloc: Global, out: &mut K, coded: &Coded) -> Result<(), Cut>
    requires printable { CanList coded.now.alg (last_net (option_map pure_file coded.now.file)) coded.now.listing }
    requires after { IsListedOn coded.now.file coded.now.after }
    ensures { PutsText (K.holds out.old)
        (code_text coded.now.alg.expression (last_net (option_map pure_file coded.now.file)) coded.now.listing)
        result (K.holds out.new) }
{
    let net = listed_net(&coded.file, &coded.after);
    put_line(out, code_lines(alloc, &coded.alg, net, &coded.listing))
}

// Puts the lines of rows with all their next hops.
fn put_hops<K: Sink>(alloc: Global, out: &mut K, net: &Net, many: &[ManyHops]) -> Result<(), Cut>
    requires { AllByRecursion (CanPrintHops net.now) (map pure_hops many.now) }
    ensures { PutsText (K.holds out.old) (many_text net.now (map pure_hops many.now)) result (K.holds out.new) }
{
    let mut room = room_for_lines(alloc)?;
    for hops in many {
        push_hops_line(&mut room, net, hops)?;
        put_room(out, &mut room)?;
    }
    Ok(())
}

// Puts the lines of a judgement, by the network after the file's changes.
fn put_judged<K: Sink>(alloc: Global, out: &mut K, judged: &Judged) -> Result<(), Cut>
    requires after { last_of judged.now.after judged.now.file.net ≡ changed_net (pure_file judged.now.file) }
    requires printable { CanPrintJudgement (changed_net (pure_file judged.now.file))
        (pure_judgement judged.now.judgement) }
    ensures { PutsText (K.holds out.old)
        (judgement_text (changed_net (pure_file judged.now.file)) (pure_judgement judged.now.judgement))
        result (K.holds out.new) }
{
    let net = last_of(&judged.after, &judged.file.net);
    put_line(out, judgement_lines(alloc, net, &judged.judgement))
}

// Puts the line of a verdict on monotone, and the network that shows it.
fn put_gadget<K: Sink>(alloc: Global, out: &mut K, wedged: &Wedged) -> Result<(), Cut>
    requires { HasGadget wedged.now.alg (pure_verdict wedged.now.verdict) }
    ensures { PutsText (K.holds out.old) (gadget_text wedged.now.alg (pure_verdict wedged.now.verdict))
        result (K.holds out.new) }
{
    put_line(out, gadget_lines(alloc, &wedged.alg, &wedged.verdict))
}

// Puts the phases of a run.
fn put_run<K: Sink>(alloc: Global, out: &mut K, ran: &Ran) -> Result<(), Cut>
    requires { AreOfNetworks ran.now.file.net ran.now.changed (map pure_phase ran.now.run.past)
        (pure_phase ran.now.run.last) }
    ensures { PutsText (K.holds out.old) (run_text ran.now.is_traced ran.now.file.net ran.now.changed 0
        (map pure_phase ran.now.run.past) (pure_phase ran.now.run.last) ran.now.run.is_quiet)
        result (K.holds out.new) }
{
    let changed = ran.changed.as_slice();
    let past = ran.run.past.as_slice();
    put_phases(alloc, out, &ran.file.net, changed, 0, past, ran)
}

// Puts the summary of a generated network.
fn put_shown<K: Sink>(alloc: Global, out: &mut K, shown: &Shown) -> Result<(), Cut>
    requires { AreSummed (pure_phase shown.now.last).rows }
    ensures { PutsText (K.holds out.old) (summary_text shown.now.file.net (pure_phase shown.now.last).rows)
        result (K.holds out.new) }
{
    put_summary(alloc, out, &shown.file.net, shown.last.rows.as_slice())
}

// The network whose labels were compiled: that of the file, or the one after its changes.
fn listed_net<'a>(file: &'a Option<NetFile>, after: &'a Option<Net>) -> Option<&'a Net>
    requires { IsListedOn file.now after.now }
    ensures { option_map (λ net. net.now) result ≡ last_net (option_map pure_file file.now) }
{
    match file {
        Some(file) => Some(last_of(after, &file.net)),
        None => None,
    }
}

// Writes the line of a refusal, which needs no network. That there was no memory is said without any.
fn write_refusal<K: Sink>(alloc: Global, out: &mut K, stop: Stop) -> Answer
    ensures { (net : Option PureNet) → Written (K.holds out.old) (refusal_text (pure_stop stop) net) (K.holds out.new)
        (refused (pure_stop stop)) (pure_answer result) }
{
    if let Stop::Memory = stop {
        return write_line(out, b"out of memory\n", Answer::NoMemory);
    }
    match stop_line(alloc, stop) {
        Ok(line) => write_line(out, line.as_str().as_bytes(), stop.answer()),
        Err(NoMemory) => Answer::NoMemory,
    }
}

// The line of a refusal.
fn stop_line(alloc: Global, stop: Stop) -> Result<Text, NoMemory>
    ensures { (net : Option PureNet) → IfOk result (λ text. text ≡ refusal_text (pure_stop stop) net) }
{
    refusal_line(alloc, stop.refusal())
}

// Writes the line of an arc whose label doesn't have a property. Memory for the answer is taken before.
fn write_missing<K: Sink>(alloc: Global, out: &mut K, net: &Net, missing: &Missing) -> Answer
    requires { CanMiss missing.now.arc.0 (pure_instance missing.now.instance) (Some net.now) }
    ensures { Written (K.holds out.old)
        (misses_text missing.now.arc.0 (pure_instance missing.now.instance) (Some net.now)) (K.holds out.new)
        (refused (misses missing.now.arc.0 (pure_instance missing.now.instance))) (pure_answer result) }
{
    match missing_line(alloc, net, missing) {
        Ok((line, answer)) => write_line(out, line.as_str().as_bytes(), answer),
        Err(NoMemory) => Answer::NoMemory,
    }
}

// The line, and the answer that says the same.
fn missing_line(alloc: Global, net: &Net, missing: &Missing) -> Result<(Text, Answer), NoMemory>
    requires { CanMiss missing.now.arc.0 (pure_instance missing.now.instance) (Some net.now) }
    ensures line { IfOk result (λ said.
        said.0 ≡ misses_text missing.now.arc.0 (pure_instance missing.now.instance) (Some net.now)) }
    ensures answer { IfOk result (λ said.
        pure_answer said.1 ≡ refused (misses missing.now.arc.0 (pure_instance missing.now.instance))) }
{
    let line = misses_line(alloc, net, missing.arc, &missing.instance)?;
    let instance = copy_instance(alloc, &missing.instance)?;
    Ok((
        line,
        Answer::Misses {
            arc: missing.arc,
            instance,
        },
    ))
}

// An equal instance.
fn copy_instance(alloc: Global, instance: &Instance) -> Result<Instance, NoMemory>
    ensures { IfOk result (λ copied. pure_instance copied ≡ pure_instance instance.now) }
{
    Ok(Instance {
        property: instance.property,
        label: instance.label.copy(alloc)?,
        first: instance.first.copy(alloc)?,
        second: copy_second(alloc, &instance.second)?,
    })
}

// The same of a value, if there is one.
fn copy_second(alloc: Global, second: &Option<Value>) -> Result<Option<Value>, NoMemory>
    ensures { IfOk result (λ copied. option_map pure_value copied ≡ option_map pure_value second.now) }
{
    match second {
        Some(value) => Ok(Some(value.copy(alloc)?)),
        None => Ok(None),
    }
}

// Puts the lines of the verdicts, and then that of the first required property that fails.
fn put_checked<K: Sink>(alloc: Global, out: &mut K, checked: &Checked) -> Result<(), Cut>
    requires { CanPrintVerdicts checked.now.alg.expression (pure_verdicts checked.now.verdicts) }
    ensures { PutsText (K.holds out.old) (verdicts_text checked.now.alg.expression (pure_verdicts checked.now.verdicts)
        ++ unmet_text (option_map pure_property checked.now.unmet)) result (K.holds out.new) }
{
    put_verdicts(alloc, out, &checked.alg, &checked.verdicts, &Property::ALL)?;
    put_unmet(alloc, out, checked.unmet)
}

// Puts the line of a required property that fails, if one does.
fn put_unmet<K: Sink>(alloc: Global, out: &mut K, unmet: Option<Property>) -> Result<(), Cut>
    ensures { PutsText (K.holds out.old) (unmet_text (option_map pure_property unmet)) result (K.holds out.new) }
{
    match unmet {
        Some(property) => put_line(out, required_line(alloc, property)),
        None => Ok(()),
    }
}

// Puts routes, or stable tables.
fn put_routes<K: Sink>(alloc: Global, out: &mut K, routed: &Routed) -> Result<(), Cut>
    requires words { HasWordsOn routed.now.file.net routed.now.rows }
    requires rows { AllByRecursion (IsRowOf routed.now.file.net) (pure_word_rows routed.now.rows) }
    ensures { PutsText (K.holds out.old)
        (routes_text routed.now.solution routed.now.file.net (pure_word_rows routed.now.rows))
        result (K.holds out.new) }
{
    let net = &routed.file.net;
    match routed.solution {
        Solution::Unbeaten | Solution::Settled => put_word_rows(alloc, out, net, &routed.rows),
        Solution::AllStable => put_all_tables(alloc, out, net, &routed.rows),
    }
}

// Puts the lines of the verdicts on these properties.
fn put_verdicts<K: Sink>(
    alloc: Global,
    out: &mut K,
    alg: &Alg,
    verdicts: &Verdicts,
    properties: &[Property],
) -> Result<(), Cut>
    requires { CanPrintVerdicts alg.now.expression (pure_verdicts verdicts.now) }
    ensures { PutsText (K.holds out.old)
        (lines_on alg.now.expression (pure_verdicts verdicts.now) (map pure_property properties.now))
        result (K.holds out.new) }
{
    for property in properties {
        put_line(
            out,
            verdict_line(alloc, alg, *property, verdicts.on(*property)),
        )?;
    }
    Ok(())
}

/// Puts the lines of rows of a network.
pub(crate) fn put_rows<K: Sink>(
    alloc: Global,
    out: &mut K,
    net: &Net,
    rows: &[RouteRow],
) -> Result<(), Cut>
    requires { AllByRecursion (IsRowOf net.now) (map pure_row rows.now) }
    ensures { PutsText (K.holds out.old) (rows_text net.now (map pure_row rows.now)) result (K.holds out.new) }
{
    let mut lines = RowLines::new(alloc, net)?;
    for row in rows {
        lines.write(row)?;
        put_all(out, lines.line())?;
    }
    Ok(())
}

// Writes a line, and answers what was decided, or that the sink failed.
#[tactic(auto, using(crate::proofs::Written::all_written))]
fn write_line<K: Sink>(out: &mut K, line: &[u8], decided: Answer) -> Answer
    requires { pure_answer decided ≢ write_fault }
    ensures { Written (K.holds out.old) line.now (K.holds out.new) (pure_answer decided) (pure_answer result) }
{
    match put_all(out, line) {
        Ok(()) => decided,
        Err(Failed) => Answer::WriteFault,
    }
}
