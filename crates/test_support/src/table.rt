//! Runs the rows of a text and reports on them.
ghost use Rattle.std.specs.Prelude.{◌≡◌, ◌↔◌, ◌<◌, IfOk, IsTrue, MatchResult, length, map, string_bytes};
ghost use Rattle.test_support.specs.Rows.{IsWhole, is_row, rows};
ghost use Rattle.test_support.specs.declared.table.Outcome.TheVariants.{Agrees, NotRun};

use crate::answer::Failure;
use crate::call::Calls;
use crate::heap::Refusing;
use crate::input::{Inputs, fields_of};
use crate::refusal::{answer_of, refused_growths};
use std::alloc::{AllocError, Global};
use std::fmt;

/// The end of each text of rows: a separate line, which doesn't occur before.
const END: &str = "\n# end\n";

/// The outcome of a row.
#[derive(Drop)]
enum Outcome {
    Agrees,
    Differs(String),
    NotRun(Failure),
}

/// The number of rows of a text, of those that agree, and of failed allocations, and whether the
/// text is whole.
#[derive(Clone, Copy, PartialEq, Eq)]
pub struct Tally {
    pub rows: usize,
    pub agreeing: usize,
    pub growths: u64,
    pub is_whole: bool,
}

impl Tally {
    /// Returns whether there are rows, each agrees, and the text is whole.
    pub fn passes(&self) -> bool
        ensures { IsTrue result ↔ (IsTrue self.now.is_whole × (0 < self.now.rows) × (self.now.agreeing ≡ self.now.rows)) }
    {
        self.is_whole && self.rows > 0 && self.agreeing == self.rows
    }
}

impl fmt::Display for Tally {
    fn fmt<W: fmt::Write>(&self, f: &mut fmt::Formatter<W>) -> fmt::Result {
        write!(
            f,
            "{} rows, {} agree, {} growths refused",
            self.rows, self.agreeing, self.growths
        )
    }
}

/// Returns the outcome of a row: it agrees if its result is spelled as expected.
fn judge(answer: Result<String, Failure>, wanted: &str) -> Outcome
    ensures { MatchResult answer (λ a. (result ≡ Agrees) ↔ (string_bytes a ≡ wanted.now)) (λ f. result ≡ NotRun f) }
{
    match answer {
        Ok(answer) if answer.as_str() == wanted => Outcome::Agrees,
        Ok(answer) => Outcome::Differs(answer),
        Err(failure) => Outcome::NotRun(failure),
    }
}

/// The outcome of a row, and the number of failed allocations.
#[derive(Drop)]
struct Ran {
    outcome: Outcome,
    growths: u64,
}

/// Returns the outcome of a row that was not run.
fn not_run(failure: Failure) -> Ran {
    Ran {
        outcome: Outcome::NotRun(failure),
        growths: 0,
    }
}

/// Makes a call, and repeats it with each allocation failing.
fn run_call<C: Calls>(calls: &C, alloc: Global, name: &str, inputs: &Inputs, wanted: &str) -> Ran {
    let heap = Refusing::new(alloc, u64::MAX);
    let outcome = judge(answer_of(calls, alloc, &heap, name, inputs), wanted);
    if !matches!(&outcome, Outcome::Agrees) {
        return Ran {
            outcome,
            growths: 0,
        };
    }
    match refused_growths(calls, alloc, name, inputs, wanted) {
        Some(growths) => Ran { outcome, growths },
        None => not_run(Failure::Unfirm),
    }
}

/// Runs a row.
fn run_line<C: Calls>(calls: &C, alloc: Global, line: &str) -> Result<Ran, AllocError> {
    let fields = fields_of(alloc, line)?;
    let [name, inputs @ .., wanted] = fields.as_slice() else {
        return Ok(not_run(Failure::BadInputs));
    };
    Ok(match Inputs::of(alloc, inputs) {
        Ok(inputs) => run_call(calls, alloc, name, &inputs, wanted),
        Err(failure) => not_run(failure),
    })
}

/// Returns the reason why a row was not run, as text.
fn reason(failure: Failure) -> &'static str {
    match failure {
        Failure::NoCall => "no such call",
        Failure::BadInputs => "other inputs than the call takes",
        Failure::Unlike => "two ways to the answer differ",
        Failure::Unfirm => "another answer where a growth is refused",
        Failure::OutOfMemory => "out of memory",
    }
}

/// Adds a line of two texts.
fn add_line(out: &mut String, head: &str, line: &str) -> Result<(), AllocError> {
    out.push_str(head)?;
    out.push_str(line)?;
    out.push('\n')
}

/// Runs a row, and reports the result of one that doesn't agree. Returns the number of failed
/// allocations of one that agrees.
fn run_row<C: Calls>(
    calls: &C,
    alloc: Global,
    line: &str,
    out: &mut String,
) -> Result<Option<u64>, AllocError> {
    let Ran { outcome, growths } = run_line(calls, alloc, line)?;
    match outcome {
        Outcome::Agrees => return Ok(Some(growths)),
        Outcome::Differs(answer) => {
            add_line(out, "differs: ", line)?;
            add_line(out, "  found: ", answer.as_str())?;
        }
        Outcome::NotRun(failure) => {
            add_line(out, "not run: ", line)?;
            add_line(out, "    why: ", reason(failure))?;
        }
    }
    Ok(None)
}

/// Returns whether a line is a row.
fn is_row(line: &str) -> bool
    ensures { result ≡ is_row line.now }
{
    !matches!(line.as_bytes(), [] | [b'#', ..])
}

/// Returns the rows of a text.
fn rows_of<'a>(alloc: Global, text: &'a str) -> Result<Vec<&'a str>, AllocError>
    ensures { IfOk result (λ v. map (λ x. x.now) v.items ≡ rows text.now) }
{
    text.lines().filter(|line| is_row(line)).collect(alloc)
}

/// Runs rows. Returns how many agree, and the number of failed allocations.
fn run_rows<C: Calls>(
    calls: &C,
    alloc: Global,
    rows: &[&str],
    out: &mut String,
) -> Result<(usize, u64), AllocError> {
    let mut agreeing: usize = 0;
    let mut all_growths: u64 = 0;
    for row in rows {
        if let Some(growths) = run_row(calls, alloc, row, out)? {
            agreeing = agreeing.saturating_add(1);
            all_growths = all_growths.saturating_add(growths);
        }
    }
    Ok((agreeing, all_growths))
}

/// Returns whether a text is whole: it has the end mark once, at its end.
fn is_whole(text: &str) -> bool
    ensures { IsTrue result ↔ IsWhole text.now }
{
    match text.split_once(END) {
        Some((_, after)) => after.is_empty(),
        None => false,
    }
}

/// Reports that all rows agree, or what is wrong with the text as a whole.
fn add_end(tally: &Tally, out: &mut String) -> Result<(), AllocError> {
    if !tally.is_whole {
        out.push_str("cut off: the last line is not the only `# end`\n")?;
    }
    if tally.rows == 0 {
        out.push_str("no rows\n")?;
    }
    if tally.passes() {
        out.push_str("all rows agree\n")?;
    }
    Ok(())
}

/// Runs the rows of a text. Reports the result of each row that doesn't agree, and at the end that
/// all agree, or what is wrong with the text: it must end with the line `# end`, which must not
/// occur before, and must have rows.
pub fn report<C: Calls>(
    calls: &C,
    alloc: Global,
    text: &str,
    out: &mut String,
) -> Result<Tally, AllocError>
    ensures counts { IfOk result (λ t. t.rows ≡ length (rows text.now)) }
    ensures whole { IfOk result (λ t. IsTrue t.is_whole ↔ IsWhole text.now) }
{
    let rows = rows_of(alloc, text)?;
    let (agreeing, growths) = run_rows(calls, alloc, rows.as_slice(), out)?;
    let tally = Tally {
        rows: rows.len(),
        agreeing,
        growths,
        is_whole: is_whole(text),
    };
    add_end(&tally, out)?;
    Ok(tally)
}
