//! From two texts to their report.

ghost use Rattle.std.specs.Prelude.{◌≡◌, ◌<◌, ◌^◌, OnOk, IfOk, IfErr};
ghost use Rattle.counted_io.specs.Sides.{faults_of, inner_of, side};
ghost use Rattle.trace_compare.specs.Tasks.{HaveSmallTimes};
ghost use Rattle.recorded_text.specs.Names.{Grows};
ghost use Rattle.compare_report.specs.Reading.{AreReadFrom};
ghost use Rattle.compare_report.specs.Answer.{compare_streams, IsComparisonWritten, IsCompareFault};
ghost use Rattle.compare_report.specs.private.Met.{IsTextFault, fault_of_input};

use crate::fault::{CompareFault, Input};
use crate::options::CompareOptions;
use crate::report::report_of;
use crate::tally::Tally;
use counted_io::Counted;
use recorded_text::{Names, RecordedFault, Step, read_switches};
use std::alloc::Global;
use std::io::{Read, Write};

/// A fault of one of the texts.
fn fault_of(input: Input, fault: RecordedFault) -> CompareFault
    ensures { result ≡ fault_of_input input fault }
{
    match fault {
        RecordedFault::BadLine(line) => CompareFault::BadLine { input, line },
        RecordedFault::Read => CompareFault::Read(input),
        RecordedFault::Endless => CompareFault::Endless(input),
        RecordedFault::Memory => CompareFault::Memory,
    }
}

/// Reads the switches of a text, of which there have to be some.
fn read_text<R: Read>(
    alloc: Global,
    input: Input,
    reader: &mut Counted<R>,
    names: &mut Names,
) -> Result<Vec<Step>, CompareFault>
    requires { faults_of reader.old < 2 ^ 63 }
    ensures read { IfOk result (λ steps.
        AreReadFrom (R.remaining (inner_of reader.old)) names.old names.new steps.items) }
    ensures small { IfOk result (λ steps. HaveSmallTimes steps.items) }
    ensures grows { Grows names.old names.new }
    ensures fine { OnOk result (faults_of reader.new ≡ faults_of reader.old) }
    ensures fault { IfErr result (IsTextFault input (side R.remaining reader.old reader.new)) }
{
    match read_switches(alloc, reader, names) {
        Ok(steps) => {
            if steps.is_empty() {
                return Err(CompareFault::NoSwitch(input));
            }
            Ok(steps)
        }
        Err(fault) => Err(fault_of(input, fault)),
    }
}

/// Reads the model's trace to its end, then a recording to its end, sets the runs of the model's
/// tasks in both beside one another, and writes the report: the shift between both clocks; a row
/// for each task; how many of the model's runs matched; where it is asked for, how many of these
/// were on the same CPU; and the first differences, by the clock of the text that has the run.
///
/// `Ok`: what was written is the report of these two texts, and nothing else, and this is its
/// total: how many runs the model has, in all tasks, and how many of them matched.
///
/// # Errors
/// The first that is met, in the order of reading. [`CompareFault::BadLine`],
/// [`CompareFault::NoSwitch`], [`CompareFault::Read`] and [`CompareFault::Endless`] of one of the
/// texts, [`CompareFault::Memory`] where a growth was refused: nothing was written, and of a fault
/// of the model's text the recording was not read. [`CompareFault::Write`] where the writer failed:
/// it took exactly so many bytes, the front of the report, and not all.
pub fn compare_texts<M: Read, R: Read, W: Write>(
    alloc: Global,
    model: &mut Counted<M>,
    recorded: &mut Counted<R>,
    writer: &mut Counted<W>,
    options: CompareOptions,
) -> Result<Tally, CompareFault>
    requires model { faults_of model.old < 2 ^ 63 }
    requires recorded { faults_of recorded.old < 2 ^ 63 }
    requires writer { faults_of writer.old < 2 ^ 63 }
    ensures ok { IfOk result
        (IsComparisonWritten options (compare_streams (side M.remaining model.old model.new)
        (side R.remaining recorded.old recorded.new) (side W.contents writer.old writer.new))) }
    ensures err { IfErr result
        (IsCompareFault options (compare_streams (side M.remaining model.old model.new)
        (side R.remaining recorded.old recorded.new) (side W.contents writer.old writer.new))) }
{
    let mut names = Names::new(alloc);
    // The names go by one call on each way; at the end of the scope each of their fields would.
    let of_model = match read_text(alloc, Input::Model, model, &mut names) {
        Ok(steps) => steps,
        Err(fault) => {
            drop(names);
            return Err(fault);
        }
    };
    let many = names.len();
    let of_recorded = match read_text(alloc, Input::Recorded, recorded, &mut names) {
        Ok(steps) => steps,
        Err(fault) => {
            drop(names);
            return Err(fault);
        }
    };
    let told = report_of(alloc, options, &names, many, &of_model, &of_recorded);
    drop(names);
    let report = match told {
        Ok(report) => report,
        Err(_) => return Err(CompareFault::Memory),
    };
    match writer.write_all(&report.text) {
        Ok(()) => Ok(report.tally),
        Err(written) => Err(CompareFault::Write {
            written: written as u64,
        }),
    }
}
