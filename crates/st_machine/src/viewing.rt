//! What is told, drawn and written of a description.

use crate::Output;
use crate::page::Page;
use crate::running::{put_place, read};
use st_chart::Fault;
use st_chart_views::{Drawing, draw, to_json, warnings};
use std::alloc::{AllocError, Global};

/// Adds warnings to a text, one a line.
fn put_warnings(
    alloc: Global,
    file: &str,
    warnings: &[Fault],
    out: &mut Vec<u8>,
) -> Result<(), AllocError> {
    let mut page = Page::new(alloc, 0, false);
    for warning in warnings {
        put_place(file, warning, &mut page);
        page.put("warning: ");
        page.put(warning.text.as_str());
        page.put("\n");
    }
    page.hand_out(out)
}

/// Adds what looks wrong in a description, or else its faults.
fn warn(alloc: Global, file: &str, text: &[u8], out: &mut Output) -> Result<(), AllocError> {
    let Some(chart) = read(alloc, file, text, &mut out.faults)? else {
        return Ok(());
    };
    out.status = 0;
    let warnings = warnings(alloc, &chart)?;
    put_warnings(alloc, file, warnings.as_slice(), &mut out.text)
}

/// Adds a drawing of a description, or else its faults.
fn picture(
    alloc: Global,
    file: &str,
    text: &[u8],
    drawing: Drawing,
    out: &mut Output,
) -> Result<(), AllocError> {
    if let Some(chart) = read(alloc, file, text, &mut out.faults)? {
        out.status = 0;
        out.text = draw(alloc, &chart, drawing)?;
    }
    Ok(())
}

/// Adds a description laid out, or else its faults.
fn lay_out(alloc: Global, file: &str, text: &[u8], out: &mut Output) -> Result<(), AllocError> {
    if let Some(chart) = read(alloc, file, text, &mut out.faults)? {
        out.status = 0;
        out.text = to_json(alloc, &chart)?;
    }
    Ok(())
}

/// Tells what looks wrong in the description in a text (status 0), one a line: the file, the line and the column from 1 on,
/// and the words. Of one with faults these are told alone (status 1).
pub fn check_text(alloc: Global, file: &str, text: &[u8]) -> Result<Output, AllocError> {
    let mut out = Output::new(alloc);
    match warn(alloc, file, text, &mut out) {
        Ok(()) => Ok(out),
        Err(error) => Err(error),
    }
}

/// Draws the description in a text. Of one with faults nothing is drawn, and these are told (status 1).
pub fn draw_text(
    alloc: Global,
    file: &str,
    text: &[u8],
    drawing: Drawing,
) -> Result<Output, AllocError> {
    let mut out = Output::new(alloc);
    match picture(alloc, file, text, drawing, &mut out) {
        Ok(()) => Ok(out),
        Err(error) => Err(error),
    }
}

/// Writes the description in a text laid out, with the short forms written out. Of one with faults nothing is written, and
/// these are told (status 1).
pub fn format_text(alloc: Global, file: &str, text: &[u8]) -> Result<Output, AllocError> {
    let mut out = Output::new(alloc);
    match lay_out(alloc, file, text, &mut out) {
        Ok(()) => Ok(out),
        Err(error) => Err(error),
    }
}
