// Cases, one after the other.
use crate::account::{Printer, Style};
use crate::asking::{Asked, Standing};
use crate::layered::over_case;
use crate::steps::Steps;
use anyhow::anyhow;
use cases::reader::{ReadError, read};
use cases::statement::{HostName, LayerName};
use plans::case::{Action, Case};
use plans::fault::PlanError;
use plans::planning::plan;
use std::alloc::{AllocError, Global};
use std::fmt::Write;

// The words are this program's. No `From`: both types are other crates'.
fn no_line(bytes: &[u8], error: ReadError) -> anyhow::Error {
    let ended = bytes.iter().filter(|b| **b == b'\n').count();
    match error {
        ReadError::Memory => anyhow!("there is no memory"),
        ReadError::Line(line) if line > ended => anyhow!(
            "line {line}: it has no newline at its end"
        ),
        ReadError::Line(line) => anyhow!("line {line}: no line of a file of cases"),
    }
}

fn no_plan(error: PlanError) -> anyhow::Error {
    match error {
        PlanError::Memory => anyhow!("there is no memory"),
        PlanError::Line { line, reason } => anyhow!("line {line}: {reason}"),
    }
}

// The line that begins a case.
fn title(out: &mut String, style: Style, case: &Case) -> anyhow::Result<()> {
    let name = std::str::from_utf8(case.name.as_slice())?;
    if style == Style::Plain {
        writeln!(out, "case {name}")?;
        return Ok(());
    }
    write!(out, "Case {name}, ")?;
    match case.host {
        HostName::Drive => write!(out, "over the drive")?,
        HostName::Table => {
            let count = case.records.len();
            write!(out, "over a table of {count} errors")?;
        }
    }
    for layer in &case.layers {
        match layer {
            LayerName::Marker => write!(out, ", marker layer")?,
            LayerName::Io => write!(out, ", io layer")?,
        }
    }
    writeln!(out, "")?;
    Ok(())
}

// The questions in the middle of a case.
fn asked(out: &mut String, printer: Printer, case: &Case) -> anyhow::Result<()> {
    for (index, step) in case.steps.iter().enumerate() {
        if let Action::Ask { report, name } = step.action {
            let task = Asked {
                printer,
                case,
                steps: &case.steps.as_slice()[..index],
                line: step.line,
                report,
                name,
            };
            over_case(printer.heap, case, &task, out)?;
        }
    }
    Ok(())
}

fn replay_case(
    heap: Global,
    out: &mut String,
    style: Style,
    lines: &[&str],
    case: &Case,
) -> anyhow::Result<()> {
    title(out, style, case)?;
    let steps = Steps {
        heap,
        style,
        case,
        lines,
    };
    over_case(heap, case, &steps, out)?;
    let printer = Printer { heap, style };
    asked(out, printer, case)?;
    let standing = Standing { printer, case };
    over_case(heap, case, &standing, out)
}

// What the cases of a file come to.
pub fn replay(heap: Global, bytes: &[u8], style: Style) -> anyhow::Result<String> {
    let text = std::str::from_utf8(bytes)?;
    let cases = plan(heap, read(heap, bytes).map_err(|e| no_line(bytes, e))?).map_err(no_plan)?;
    let mut lines = Vec::new(heap);
    for line in text.lines() {
        lines.push(line)?;
    }
    let mut out = String::new(heap);
    for case in &cases {
        replay_case(heap, &mut out, style, lines.as_slice(), case)?;
    }
    Ok(out)
}
