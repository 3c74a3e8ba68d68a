//! What a report tells.

ghost use Rattle.std.specs.Prelude.{◌≡◌, IfOk, Some, length, map};
ghost use Rattle.std.specs.Fmt.{DisplaysOnOk};
ghost use Rattle.hir_reports.specs.Rules.{pieces};
ghost use Rattle.hir_reports.specs.Texts.{plain_error, woven, pieces_around, error_text, place_line, error_line, report_text};
ghost use Rattle.hir_reports.specs.Places.{location_text};

use crate::places::ErrorContext;
use crate::rule::Rule;
use bridge_decl::{Items, NoMemory, Text};
use std::alloc::Global;
use std::fmt;

/// A broken rule, with what its text speaks of.
pub struct LoweringError {
    /// The rule.
    pub rule: Rule,
    /// The arguments of its text, in the order in which they stand there.
    pub args: Items<Text>,
}

/// By hand, so that where one is let go the proof has one call.
impl Drop for LoweringError {
    fn drop(self) {
        let LoweringError { rule: _, args: _ } = self;
    }
}

impl LoweringError {
    /// The error without arguments. It takes no memory.
    pub fn plain(alloc: Global, rule: Rule) -> LoweringError
        ensures { result ≡ plain_error rule }
    {
        LoweringError {
            rule,
            args: Items::new(alloc),
        }
    }

    /// The error with copies of these arguments. `NoMemory` where there is no memory for them.
    pub fn new(alloc: Global, rule: Rule, args: &[&str]) -> Result<LoweringError, NoMemory>
        ensures { IfOk result
            (λ error. error
            ≡ record { rule = rule; args = map (λ arg. arg.now) args.entry.now }) }
    {
        let mut copies = Items::new(alloc);
        for arg in args {
            copies.push(Text::new(alloc, arg)?)?;
        }
        Ok(LoweringError { rule, args: copies })
    }

    /// The pieces of its text, with one of its arguments between each two: so the text can be told without memory.
    pub fn pieces(&self) -> &'static [&'static str]
        ensures { map (λ piece. piece.now) result.now
            ≡ pieces_around self.now.rule (length self.now.args) }
    {
        pieces_around(self.rule, self.args.len())
    }
}

/// A bound that a reference implies is told by three arguments, one that a definition writes by five.
const REFERENCE_BOUND: &[&str] = &[
    "Method should explicitly include this lifetime bound from ",
    ": '",
    ": '",
    " (comes from &-ref's lifetime in parameter)",
];

/// The text of the rule around its arguments, by how many there are.
#[tactic(auto, unfolding(crate::specs::Texts::reference_bound))]
fn pieces_around(rule: Rule, args: usize) -> &'static [&'static str]
    ensures { map (λ piece. piece.now) result.now ≡ pieces_around rule args }
{
    if rule == Rule::ImpliedBound && args == 3 {
        REFERENCE_BOUND
    } else {
        rule.pieces()
    }
}

/// Pieces of a text with an argument between each two. Arguments past the last piece are left out, and so is what has none.
fn put_woven<W: fmt::Write>(
    f: &mut fmt::Formatter<W>,
    pieces: &[&str],
    args: &[Text],
) -> fmt::Result
    ensures { DisplaysOnOk W.write_str_gives f.old result
        (Some (woven (map (λ piece. piece.now) pieces.entry.now) args.now)) f.new }
{
    match (pieces, args) {
        ([], _) => Ok(()),
        ([last], _) => f.write_str(last),
        ([piece, rest @ ..], []) => {
            f.write_str(piece)?;
            put_woven(f, rest, args)
        }
        ([piece, rest @ ..], [arg, others @ ..]) => {
            f.write_str(piece)?;
            f.write_str(arg.as_str())?;
            put_woven(f, rest, others)
        }
    }
}

impl fmt::Display for LoweringError {
    ghost output = { λ error. Some (error_text error) };

    fn fmt<W: fmt::Write>(&self, f: &mut fmt::Formatter<W>) -> fmt::Result {
        put_woven(f, self.pieces(), self.args.as_slice())
    }
}

/// A broken rule at its place.
#[derive(Drop)]
pub struct LoweringReport {
    /// The rule and its arguments.
    pub error: LoweringError,
    /// The place.
    pub context: ErrorContext,
}

/// The name that a report has in `diplomat_core`.
pub type ErrorAndContext = LoweringReport;

impl LoweringReport {
    /// The rule that is broken.
    pub fn rule(&self) -> Rule
        ensures { result ≡ self.now.error.rule }
    {
        self.error.rule
    }

    /// The place, lent.
    pub fn context(&self) -> &ErrorContext
        ensures { result.now ≡ self.now.context }
    {
        &self.context
    }

    /// The item of the place, and `::` and the method where the place is one. `NoMemory` where there is no memory for the text.
    pub fn get_location(&self, alloc: Global) -> Result<Text, NoMemory>
        ensures { IfOk result (λ text. text ≡ location_text self.now.context) }
    {
        self.context.location(alloc)
    }
}

/// The line that tells the place, and the beginning of the next.
fn put_place_line<W: fmt::Write>(f: &mut fmt::Formatter<W>, context: &ErrorContext) -> fmt::Result
    ensures { DisplaysOnOk W.write_str_gives f.old result (Some (place_line context.now)) f.new }
{
    f.write_str("Lowering error in ")?;
    fmt::Display::fmt(context, f)?;
    f.write_str("\n  ")
}

/// The rest of the second line, which tells the rule and its text.
fn put_error_line<W: fmt::Write>(f: &mut fmt::Formatter<W>, error: &LoweringError) -> fmt::Result
    ensures { DisplaysOnOk W.write_str_gives f.old result (Some (error_line error.now)) f.new }
{
    f.write_str(error.rule.name())?;
    f.write_str(": ")?;
    fmt::Display::fmt(error, f)?;
    f.write_str("\n")
}

/// The two lines that tell the report, each with its line feed.
impl fmt::Display for LoweringReport {
    ghost output = { λ report. Some (report_text report) };

    fn fmt<W: fmt::Write>(&self, f: &mut fmt::Formatter<W>) -> fmt::Result {
        put_place_line(f, &self.context)?;
        put_error_line(f, &self.error)
    }
}
