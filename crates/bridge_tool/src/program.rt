//! The whole program over any source and any sink.

ghost use Rattle.std.specs.Prelude.{◌≡◌, ◌≤◌, ◌+◌, ◌^◌, ℕ, List, String, false};
ghost use Rattle.std.specs.declared.alloc.Global.{Global as Allocator};
ghost use Rattle.bridge_explain.specs.Inquiry.{Inquiry};
ghost use Rattle.bridge_lowering.specs.Answers.{AreAcceptedWith};
ghost use Rattle.bridge_outside.specs.Outside.{left_after};
ghost use Rattle.bridge_read.specs.Inputs.{IsToldOf, Refuses, SpellsInput};
ghost use Rattle.bridge_report.specs.Borrowings.{AreReported};
ghost use Rattle.bridge_report.specs.InContext.{callables};
ghost use Rattle.bridge_read.specs.declared.input.Input.{Input as Read};
ghost use Rattle.bridge_tool.specs.Commands.{AreReading, AskFor, reads};
ghost use Rattle.bridge_tool.specs.inside.Within.{IsWithin};
ghost use Rattle.bridge_tool.specs.Checking.{IsRefusedWith};
ghost use Rattle.bridge_tool.specs.Following.{Follows};
ghost use Rattle.bridge_tool.specs.Headline.{Headline, IsComplete};
ghost use Rattle.bridge_tool.specs.Running.{Answers, AnswersCheck, AnswersExplain, AnswersGenerate, AnswersLinks};
ghost use Rattle.bridge_tool.specs.Running.{Ran, Says, World, world};
ghost use Rattle.bridge_tool.specs.inside.Answering.{Printed, TellsOf, ended_with};
ghost use Rattle.hir_backends.specs.Validator.{basic_meaning};

use crate::command::{Command, command_of};
use crate::decline::print_fault;
use crate::docs::docs_page;
use crate::status::Status;
use crate::text::print_text;
use bridge_explain::{Question, explain, print_explanation};
use bridge_lowering::{LowerFault, lower_and_borrow};
use bridge_measure::{measured, print_measured};
use bridge_outside::{ReadFault, Sink, SinkFault, Source, read_all};
use bridge_page::print_page;
use bridge_printing::print_reports;
use bridge_read::{Input, InputFault, read_input};
use bridge_report::BridgeReport;
use hir_reports::LoweringReport;
use std::alloc::{AllocError, Global};

/// The status once a verdict was printed.
fn ended(verdict: Status, printed: Result<(), SinkFault>) -> Status
    ensures { result ≡ ended_with verdict printed }
{
    match printed {
        Ok(()) => verdict,
        Err(SinkFault::Failed) => Status::WriteFailed,
        Err(SinkFault::NoMemory) => Status::NoMemory,
    }
}

/// Prints the page of declarations that break no rule.
fn accept<K: Sink>(sink: &mut K, report: &BridgeReport) -> Status
    requires { AreReported (callables report.now.tcx.definitions) report.now.callables }
    ensures { (input : Read) → AreAcceptedWith input.env (basic_meaning input.validator)
        input.config report.now
        → Printed (TellsOf input) (K.state sink.old) (K.state sink.new) result }
{
    let printed = print_page(sink, &report.tcx, report.callables.as_slice());
    ended(Status::Accepted, printed)
}

/// Prints the lines of these reports.
fn refuse<K: Sink>(sink: &mut K, reports: &[LoweringReport]) -> Status
    ensures check { (input : Read) → IsRefusedWith input reports.now
        → Printed (TellsOf input) (K.state sink.old) (K.state sink.new) result }
    ensures explain { (question : Inquiry) (bytes : List ℕ) (input : Read)
        → SpellsInput bytes input → IsRefusedWith input reports.now
        → Printed (AnswersExplain question bytes) (K.state sink.old) (K.state sink.new) result }
{
    let printed = print_reports(sink, reports);
    ended(Status::Refused, printed)
}

/// Tests the rules of the declarations of an input, and prints their page or their reports.
fn tell<K: Sink>(alloc: Global, sink: &mut K, input: &Input) -> Status
    ensures { Printed (TellsOf input.now) (K.state sink.old) (K.state sink.new) result }
{
    match lower_and_borrow(alloc, &input.env, input.config, &input.validator) {
        Ok(report) => accept(sink, &report),
        Err(LowerFault::Refused(reports)) => refuse(sink, &reports),
        Err(LowerFault::NoMemory) => Status::NoMemory,
    }
}

/// Prints the line that declines bytes that spell no input.
fn decline<K: Sink>(sink: &mut K, fault: &InputFault) -> Status
    ensures check { (bytes : List ℕ) → IsToldOf bytes fault.now → Refuses bytes fault.now
        → Printed (AnswersCheck bytes) (K.state sink.old) (K.state sink.new) result }
    ensures explain { (bytes : List ℕ) → IsToldOf bytes fault.now → Refuses bytes fault.now
        → (question : Inquiry)
        → Printed (AnswersExplain question bytes) (K.state sink.old) (K.state sink.new) result }
    ensures links { (bytes : List ℕ) → IsToldOf bytes fault.now → Refuses bytes fault.now
        → Printed (AnswersLinks bytes) (K.state sink.old) (K.state sink.new) result }
{
    match fault {
        InputFault::NotDeclarations { kind, pointer } => {
            let printed = print_fault(sink, *kind, pointer.as_str());
            ended(Status::NotDeclarations, printed)
        }
        InputFault::NoMemory => Status::NoMemory,
    }
}

/// Checks the input that was read, and prints what it is.
fn check<K: Sink>(alloc: Global, bytes: &[u8], sink: &mut K) -> Status
    ensures { Printed (AnswersCheck bytes.now) (K.state sink.old) (K.state sink.new) result }
{
    match read_input(alloc, bytes) {
        Ok(input) => tell(alloc, sink, &input),
        Err(fault) => decline(sink, &fault),
    }
}

/// Prints the explanation of what is asked about, where something is.
fn explain_accepted<K: Sink>(
    alloc: Global,
    sink: &mut K,
    report: &BridgeReport,
    question: &Question<'_>,
) -> Status
    requires { AreReported (callables report.now.tcx.definitions) report.now.callables }
    ensures { (bytes : List ℕ) (input : Read) → SpellsInput bytes input
        → AreAcceptedWith input.env (basic_meaning input.validator) input.config report.now
        → Printed (AnswersExplain question.now bytes) (K.state sink.old) (K.state sink.new)
        result }
{
    match explain(alloc, report, question) {
        Ok(Some(explanation)) => {
            let printed = print_explanation(sink, &explanation);
            ended(Status::Accepted, printed)
        }
        Ok(None) => Status::BadWords,
        Err(AllocError) => Status::NoMemory,
    }
}

/// Tests the rules of the declarations of an input, and prints the explanation of what is asked about, or the reports.
fn tell_explanation<K: Sink>(
    alloc: Global,
    sink: &mut K,
    input: &Input,
    question: &Question<'_>,
) -> Status
    ensures { (bytes : List ℕ) → SpellsInput bytes input.now
        → Printed (AnswersExplain question.now bytes) (K.state sink.old) (K.state sink.new)
        result }
{
    match lower_and_borrow(alloc, &input.env, input.config, &input.validator) {
        Ok(report) => explain_accepted(alloc, sink, &report, question),
        Err(LowerFault::Refused(reports)) => refuse(sink, reports.as_slice()),
        Err(LowerFault::NoMemory) => Status::NoMemory,
    }
}

/// Explains what is asked about in the input that was read.
fn explain_read<K: Sink>(
    alloc: Global,
    question: &Question<'_>,
    bytes: &[u8],
    sink: &mut K,
) -> Status
    ensures { Printed (AnswersExplain question.now bytes.now) (K.state sink.old)
        (K.state sink.new) result }
{
    match read_input(alloc, bytes) {
        Ok(input) => tell_explanation(alloc, sink, &input, question),
        Err(fault) => decline(sink, &fault),
    }
}

/// Prints the page of an input's links.
fn tell_links<K: Sink>(alloc: Global, sink: &mut K, input: &Input) -> Status
    ensures { (bytes : List ℕ) → SpellsInput bytes input.now
        → Printed (AnswersLinks bytes) (K.state sink.old) (K.state sink.new) result }
{
    match docs_page(alloc, input) {
        Ok(page) => {
            let printed = print_text(sink, page.as_str());
            ended(Status::Accepted, printed)
        }
        Err(AllocError) => Status::NoMemory,
    }
}

/// Prints the page of the links of the input that was read.
fn links<K: Sink>(alloc: Global, bytes: &[u8], sink: &mut K) -> Status
    ensures { Printed (AnswersLinks bytes.now) (K.state sink.old) (K.state sink.new) result }
{
    match read_input(alloc, bytes) {
        Ok(input) => tell_links(alloc, sink, &input),
        Err(fault) => decline(sink, &fault),
    }
}

/// Makes so many structs and functions, and prints the summary of what they list.
fn generate<K: Sink>(alloc: Global, count: usize, sink: &mut K) -> Status
    requires one { 1 ≤ count }
    requires most { count ≤ 10000 }
    ensures { Printed (AnswersGenerate count) (K.state sink.old) (K.state sink.new) result }
{
    match measured(alloc, count) {
        Ok(report) => {
            let printed = print_measured(sink, &report);
            ended(Status::Accepted, printed)
        }
        Err(AllocError) => Status::NoMemory,
    }
}

/// Answers a command, where it is asked of bytes that were read by these.
fn obey<K: Sink>(alloc: Global, command: &Command<'_>, bytes: &[u8], sink: &mut K) -> Status
    requires { IsWithin command.now }
    ensures { Printed (Answers command.now bytes.now) (K.state sink.old) (K.state sink.new)
        result }
{
    match command {
        Command::Check => check(alloc, bytes, sink),
        Command::Explain(question) => explain_read(alloc, question, bytes, sink),
        Command::Generate(count) => generate(alloc, *count, sink),
        Command::Links => links(alloc, bytes, sink),
    }
}

/// Answers a command: all of the source is read for it, unless it makes its own declarations.
fn answer<S: Source, K: Sink>(
    alloc: Global,
    command: &Command<'_>,
    source: &mut S,
    sink: &mut K,
) -> Status
    requires { IsWithin command.now }
    ensures says { (words : List (String Allocator)) → AskFor words command.now
        → Says words (world (S.state source.old) (K.state sink.old))
        (world (S.state source.new) (K.state sink.new)) result }
    ensures few_reads { (S.state source.new).calls ≤ (S.state source.old).calls + (2 ^ 26 + 2) }
    ensures rest { (n : ℕ)
        × ((S.state source.new).left ≡ left_after n (S.state source.old).left) }
    ensures untouched { reads command.now ≡ false → source.new ≡ source.old }
{
    if !command.reads() {
        return obey(alloc, command, &[], sink);
    }
    match read_all(alloc, source) {
        Ok(bytes) => obey(alloc, command, &bytes, sink),
        Err(ReadFault::Failed) => Status::ReadFailed,
        Err(ReadFault::TooLong) => Status::TooLong,
        Err(ReadFault::NoMemory) => Status::NoMemory,
    }
}

/// The run, with its status as one of the ways to end.
fn run_to_status<S: Source, K: Sink>(
    alloc: Global,
    words: &[String],
    source: &mut S,
    sink: &mut K,
) -> Status
    ensures says { Says words.now (world (S.state source.old) (K.state sink.old))
        (world (S.state source.new) (K.state sink.new)) result }
    ensures few_reads { (S.state source.new).calls ≤ (S.state source.old).calls + (2 ^ 26 + 2) }
    ensures rest { (n : ℕ)
        × ((S.state source.new).left ≡ left_after n (S.state source.old).left) }
    ensures untouched { ¬ (AreReading words.now) → source.new ≡ source.old }
{
    match command_of(words) {
        Some(command) => answer(alloc, &command, source, sink),
        None => Status::BadWords,
    }
}

/// Runs the program: prints to the sink what the words after the program's name ask for. For `check`, or without a word, all of the source is read, and
/// the page of the declarations is printed, or the reports of the rules that they break. For `links` it is a line for each
/// link of the declarations to documentation, and no rule is tested. For `explain`, with a callable, a leaf and the number of a lifetime, it is
/// why the leaf is listed under the lifetime, or why it isn't, or the reports. Where the bytes spell no input it is one line that says why. For
/// `gen`, with a number from 1 to 10,000, nothing is read: it sums up as many made structs and functions. The answer is the status of the program,
/// at most 7.
///
/// Statuses: 0 where the declarations are accepted, or their links, an explanation or the summary are printed, 1 where they break a rule, 2 where the
/// bytes spell no declarations that fit together, 3 where a read failed, 4 where a write failed, 5 where memory ran out, 6 where
/// the words are no command, or `explain` asks about no callable, leaf or returned lifetime of accepted declarations, 7 where the source
/// gave more than 2^26 bytes. With 3, 6 and 7 nothing is written, and where the words are no command nothing is read. It makes at most
/// 2^26 + 2 reads.
pub fn run<S: Source, K: Sink>(alloc: Global, words: &[String], source: &mut S, sink: &mut K) -> u8
    // For `check`, where the source's bytes are told, at most 2^26, and spell an input, and nothing fails: it ends with 0 exactly where no
    // declaration breaks a rule, and prints their page; else it ends with 1, and prints reports of the broken rules.
    ensures headline { Headline words.now (world (S.state source.old) (K.state sink.old))
        (world (S.state source.new) (K.state sink.new)) result }
    // Where the bytes are told and nothing fails: 0, 1, 2 and 7 each come exactly where the bytes say so, but for want of memory; and `gen` ends with
    // 0, whatever the source is.
    ensures complete { IsComplete words.now (world (S.state source.old) (K.state sink.old))
        (world (S.state source.new) (K.state sink.new)) result }
    // What each status says of the words, of what was read and of what was written.
    ensures says { Ran words.now (world (S.state source.old) (K.state sink.old))
        (world (S.state source.new) (K.state sink.new)) result }
    // Only for a command that is asked of the source's bytes is any read.
    ensures unread { ¬ (AreReading words.now) → source.new ≡ source.old }
    // Also where nothing is told of the bytes.
    ensures few_reads { (S.state source.new).calls ≤ (S.state source.old).calls + (2 ^ 26 + 2) }
    // What the source has left is the end of what it had, whatever the status.
    ensures rest { (n : ℕ)
        × ((S.state source.new).left ≡ left_after n (S.state source.old).left) }
{
    run_to_status(alloc, words, source, sink).code()
}

/// What the table of statuses says of each number that a run ends with. As 6 comes where the words are no command, and where `explain` asks
/// about nothing; and nothing is written with 3, 6 and 7.
pub fn what_statuses_say()
    ensures { (words : List (String Allocator)) (old new : World) (code : ℕ)
        → Ran words old new code → Follows words old new code }
{}
