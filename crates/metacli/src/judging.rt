// What `verify` decides.
ghost use Rattle.std.specs.Prelude.{◌≡◌, ◌≤◌, Err, length, map, IfOk, IfErr};
ghost use Rattle.alg_model.specs.Carriers.{carrier_of};
ghost use Rattle.code_gen.specs.Widths.{HoldValues};
ghost use Rattle.net_graph.specs.Changes.{AreChanges};
ghost use Rattle.net_graph.specs.Tables.{OnTablesFrom, TableOf};
ghost use Rattle.net_graph.specs.Views.{pure_change, rows_of};
ghost use Rattle.report_check.specs.Judged.{Judged as AreJudged};
ghost use Rattle.report_check.specs.Views.{AreOfDests, pure_judgement};
ghost use Rattle.topology_file.specs.NetText.{changed_net};
ghost use Rattle.topology_file.specs.Views.{pure_file};
ghost use Rattle.metacli.specs.After.{last_of};
ghost use Rattle.metacli.specs.Answers.{pure_stop};
ghost use Rattle.metacli.specs.Found.{IsFoundOf, IsJudgedBy};
ghost use Rattle.metacli.specs.Outcome.{WithReport};
ghost use Rattle.metacli.specs.Reading.{IsReportOf};
ghost use Rattle.metacli.specs.Views.{CanBeWritten, pure_outcome};

use crate::after::{last_of, net_after};
use crate::outcome::{Judged, Outcome, Stop};
use crate::reading::take_report;
use alg_model::Alg;
use code_gen::{CodeAlgebra, row_width, rows_have_their_width};
use label_code::{FixedRow, HeldRow, Words};
use meta_base::{List, NoMemory, Shelf};
use net_graph::{DestTable, Net};
use report_check::{Judgement, MAX_REPORT_BYTES, ReportError, judge, read_report};
use std::alloc::Global;
use topology_file::NetFile;

/// What `verify` comes to on a network over the algebra, after all its changes, with the report of that name.
pub fn verify<S: Shelf>(
    alloc: Global,
    shelf: &mut S,
    alg: Alg,
    file: NetFile,
    report: &str,
) -> Outcome
    requires changes { AreChanges file.net (map pure_change file.changes) }
    ensures judged { WithReport alg (pure_file file) report.now (S.now_is shelf.old) (S.now_is shelf.new)
        (pure_outcome result) }
    ensures printable { CanBeWritten result }
{
    match take_report(alloc, shelf, report) {
        Ok(bytes) => outcome_of(alloc, alg, file, bytes.as_slice()),
        Err(stop) => Outcome::Stopped {
            alg: Some(alg),
            file: Some(file),
            stop,
        },
    }
}

// What it comes to by the bytes of the report.
fn outcome_of(alloc: Global, alg: Alg, file: NetFile, source: &[u8]) -> Outcome
    requires changes { AreChanges file.net (map pure_change file.changes) }
    requires short { length source.now ≤ MAX_REPORT_BYTES }
    ensures judged { IsJudgedBy alg (pure_file file) source.now (pure_outcome result) }
    ensures printable { CanBeWritten result }
{
    match judged_after(alloc, &file, source) {
        Ok((after, tables, judgement)) => Outcome::Judged(Judged {
            alg,
            file,
            after,
            tables,
            judgement,
        }),
        Err(stop) => Outcome::Stopped {
            alg: Some(alg),
            file: Some(file),
            stop,
        },
    }
}

// The network after all changes, where there are any, the tables that the report means on it, and what they are judged
// to be.
fn judged_after(
    alloc: Global,
    file: &NetFile,
    source: &[u8],
) -> Result<(Option<Net>, List<DestTable>, Judgement), Stop>
    requires changes { AreChanges file.now.net (map pure_change file.now.changes) }
    requires short { length source.now ≤ MAX_REPORT_BYTES }
    ensures after { IfOk result (λ made. last_of made.0 file.now.net ≡ changed_net (pure_file file.now)) }
    ensures found { IfOk result (λ made. IsFoundOf (changed_net (pure_file file.now)) source.now
        (map rows_of made.1) (pure_judgement made.2)) }
    ensures refused { IfErr result (λ stop. IsReportOf (changed_net (pure_file file.now)) source.now
        (Err (pure_stop stop))) }
{
    let after = net_after(alloc, &file.net, file.changes.as_slice())?;
    match judged_on(alloc, last_of(&after, &file.net), source) {
        Ok((tables, judgement)) => Ok((after, tables, judgement)),
        Err(stop) => {
            drop(after);
            Err(stop)
        }
    }
}

// The tables that the report means on the network, and what they are judged to be.
fn judged_on(alloc: Global, net: &Net, source: &[u8]) -> Result<(List<DestTable>, Judgement), Stop>
    requires short { length source.now ≤ MAX_REPORT_BYTES }
    ensures found { IfOk result (λ made. IsFoundOf net.now source.now (map rows_of made.0) (pure_judgement made.1)) }
    ensures refused { IfErr result (λ stop. IsReportOf net.now source.now (Err (pure_stop stop))) }
{
    let _edition = net.edition();
    match read_report(alloc, net, source) {
        Ok(tables) => match judgement_of(alloc, net, tables.as_slice()) {
            Ok(judgement) => Ok((tables, judgement)),
            Err(NoMemory) => {
                drop(tables);
                Err(Stop::Memory)
            }
        },
        Err(ReportError::Bad(fault)) => Err(Stop::Report(fault)),
        Err(ReportError::NoMemory) => Err(Stop::Memory),
    }
}

// What the tables are judged to be, by code over rows that are as narrow as the algebra allows.
fn judgement_of(alloc: Global, net: &Net, tables: &[DestTable]) -> Result<Judgement, NoMemory>
    requires tables { OnTablesFrom (TableOf net.now) 0 (map rows_of tables.now) }
    requires dests { AreOfDests 0 tables.now }
    requires count { length tables.now ≡ length net.now.dests }
    ensures { IfOk result (λ judgement. AreJudged net.now (map rows_of tables.now) (pure_judgement judgement)) }
{
    rows_have_their_width();
    match row_width(net.alg()) {
        Some(1) => judgement_over::<FixedRow<1>>(alloc, net, tables),
        Some(2) => judgement_over::<FixedRow<2>>(alloc, net, tables),
        Some(3) => judgement_over::<FixedRow<3>>(alloc, net, tables),
        Some(4) => judgement_over::<FixedRow<4>>(alloc, net, tables),
        _ => judgement_over::<Words>(alloc, net, tables),
    }
}

// The same over rows of this kind.
fn judgement_over<W: HeldRow>(
    alloc: Global,
    net: &Net,
    tables: &[DestTable],
) -> Result<Judgement, NoMemory>
    requires rows { HoldValues W.can_hold (carrier_of net.now.alg.expression) }
    requires tables { OnTablesFrom (TableOf net.now) 0 (map rows_of tables.now) }
    requires dests { AreOfDests 0 tables.now }
    requires count { length tables.now ≡ length net.now.dests }
    ensures { IfOk result (λ judgement. AreJudged net.now (map rows_of tables.now) (pure_judgement judgement)) }
{
    let algebra = CodeAlgebra::<W>::new(alloc, net.alg())?;
    let judgement = judge(alloc, &algebra, net, tables)?;
    Ok(judgement)
}
