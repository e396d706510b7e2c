//! The reports of a checker of zone files.
ghost use Rattle.std.specs.Prelude.{◌<◌, ◌^◌, length};

use dns_lexer::position::Position;
use finding_codes::code::{Code, Severity};
use finding_codes::policy::Policy;
use finding_codes::tally::Tally;
use finding_formats::Finding;
use finding_formats::excerpt::push_excerpt;
use finding_formats::json::push_finding;
use finding_formats::lines::push_lines;
use std::alloc::AllocError;
use std::str;
use test_support::input::number_of;
use test_support::{Answer, Failure, Inputs};
use zone_check::lint::{Block, lint};
use zonetext_lib::order_mark::order_mark_len;

/// Answers a row: calls what it names.
pub fn call(name: &str, inputs: &Inputs, answer: &mut Answer) {
    match name {
        "gnu" => add_result(Form::Line, inputs.all(), answer),
        "colour" => add_result(Form::Coloured, inputs.all(), answer),
        "json" => add_result(Form::Json, inputs.all(), answer),
        "caret" => excerpt(false, inputs.all(), answer),
        "green" => excerpt(true, inputs.all(), answer),
        "lint" => lint_block(inputs.octets(answer), answer),
        "order_mark" => order_mark(inputs.octets(answer), answer),
        "policy" => judge(inputs.all(), answer),
        "tally" => count(inputs.octets_and_number(answer), answer),
        _ => answer.fail(Failure::NoCall),
    }
}

/// The format of a finding.
#[derive(Clone, Copy)]
enum Form {
    Line,
    Coloured,
    Json,
}

fn text_of<'a>(octets: &'a [u8], answer: &mut Answer) -> &'a str {
    match str::from_utf8(octets) {
        Ok(text) => text,
        Err(_) => {
            answer.fail(Failure::BadInputs);
            ""
        }
    }
}

fn number(digits: &[u8], answer: &mut Answer) -> usize {
    match number_of(digits) {
        Some(number) => number,
        None => {
            answer.fail(Failure::BadInputs);
            0
        }
    }
}

/// Returns the code with a name.
fn code_of(name: &[u8], answer: &mut Answer) -> Code {
    let name = text_of(name, answer);
    match Code::named(name) {
        Some(code) => {
            answer.hold(code.name() == name);
            code
        }
        None => {
            answer.fail(Failure::BadInputs);
            Code::Nul
        }
    }
}

/// Returns the position of an opener, if the row has one.
fn opened_at(fields: &[Vec<u8>], answer: &mut Answer) -> Option<Position> {
    match fields {
        [line, column] => Some(Position {
            line: number(line.as_slice(), answer),
            column: number(column.as_slice(), answer),
        }),
        _ => None,
    }
}

/// Adds the report of a finding.
fn add_reported(told: Result<(), AllocError>, out: &[u8], answer: &mut Answer) {
    match told {
        Ok(()) => answer.add(out),
        Err(_) => answer.fail_for_memory(),
    }
}

/// Adds a finding: its file, line, column, end column, code and message, and the position of an
/// opener.
fn add_result(form: Form, fields: &[Vec<u8>], answer: &mut Answer) {
    let [file, line, column, end_column, code, message, opened @ ..] = fields else {
        answer.fail(Failure::BadInputs);
        return;
    };
    let code = code_of(code.as_slice(), answer);
    let finding = Finding {
        file: file.as_slice(),
        position: Position {
            line: number(line.as_slice(), answer),
            column: number(column.as_slice(), answer),
        },
        end_column: number(end_column.as_slice(), answer),
        opened: opened_at(opened, answer),
        generate: None,
        severity: code.default_severity(),
        code,
        owner: None,
        rtype: None,
        message: message.as_slice(),
        help: None,
        note: None,
    };
    let mut out = Vec::new(answer.heap());
    let told = match form {
        Form::Line => push_lines(&mut out, false, &finding),
        Form::Coloured => push_lines(&mut out, true, &finding),
        Form::Json => push_finding(&mut out, &finding),
    };
    add_reported(told, out.as_slice(), answer);
}

/// Adds a line, and a caret under a column.
fn excerpt(is_coloured: bool, fields: &[Vec<u8>], answer: &mut Answer) {
    let [line, column, end_column] = fields else {
        answer.fail(Failure::BadInputs);
        return;
    };
    let column = number(column.as_slice(), answer);
    let end_column = number(end_column.as_slice(), answer);
    let mut out = Vec::new(answer.heap());
    let told = push_excerpt(&mut out, is_coloured, line.as_slice(), column, end_column);
    add_reported(told, out.as_slice(), answer);
}

/// Maximum number of octets of a row's input.
const MOST: usize = 1 << 24;

/// Returns octets, unless there are too many.
fn few<'a>(octets: &'a [u8], answer: &mut Answer) -> &'a [u8]
    ensures { length result.now < 2 ^ 62 }
{
    if octets.len() > MOST {
        answer.fail(Failure::BadInputs);
        return &[];
    }
    octets
}

/// Adds the findings of a whole file by itself: each code with its offset.
fn lint_block(octets: &[u8], answer: &mut Answer) {
    let octets = few(octets, answer);
    let block = Block {
        is_last: true,
        reports_crlf: true,
    };
    let mut found = Vec::new(answer.heap());
    if lint(octets, block, &mut found).is_err() {
        answer.fail_for_memory();
        return;
    }
    for remark in &found {
        answer.add_text(remark.code.name());
        answer.add_text("@");
        answer.add_number(remark.at);
        answer.add_text("/");
    }
}

fn order_mark(octets: &[u8], answer: &mut Answer) {
    answer.add_number(order_mark_len(octets));
}

/// Adds the severity of a finding: the code, one that is allowed and one that is denied, and
/// `strict` or not.
fn judge(fields: &[Vec<u8>], answer: &mut Answer) {
    let [code, allowed, denied, strict] = fields else {
        answer.fail(Failure::BadInputs);
        return;
    };
    let allowed = [code_of(allowed.as_slice(), answer)];
    let denied = [code_of(denied.as_slice(), answer)];
    let policy = Policy {
        allowed: &allowed,
        denied: &denied,
        is_strict: strict.as_slice() == b"strict".as_slice(),
    };
    match policy.severity(code_of(code.as_slice(), answer), false) {
        Some(severity) => answer.add_text(severity.name()),
        None => answer.add_text("left out"),
    }
}

/// Adds which of some errors (`e`) and warnings are shown, the exit status, and the last line.
fn count((found, most): (&[u8], usize), answer: &mut Answer) {
    let mut tally = Tally::new(most);
    for octet in found {
        let severity = if *octet == b'e' {
            Severity::Error
        } else {
            Severity::Warning
        };
        answer.add_text(if tally.count(severity) { "+" } else { "-" });
    }
    answer.add_number(usize::from(tally.status()));
    let mut out = Vec::new(answer.heap());
    let told = tally.push_summary(&mut out);
    add_reported(told, out.as_slice(), answer);
}
