// Lines of text.
ghost use Rattle.std.specs.Prelude.{◌≡◌, ◌++◌, ◌∷◌, [], IfOk, OnOk};
ghost use Rattle.std.specs.Fmt.{decimal};
ghost use Rattle.stack_report.specs.Digits.{hexadecimal, word};
ghost use Rattle.stack_report.specs.Report.{line};

use crate::digits::{put_decimal, put_hexadecimal, put_word};
use crate::line::Line;
use std::alloc::{AllocError, Global};
use std::marker::Model;

// What a state's line takes whose numbers are four addresses and four that are small.
const LINE_LEN: usize = 128;

/// Lines of text, each of which ends with a line feed. Contracts see their bytes.
#[derive(Drop)]
pub struct Report {
    bytes: Vec<u8>,
}

impl Model for Report {
    ghost use Rattle.std.specs.Prelude.{ℕ, List};

    ghost Value = { List ℕ };

    ghost view = { λ r. r.bytes.items };
}

impl Report {
    /// No text. It takes no memory yet.
    pub fn new(alloc: Global) -> Report
        ensures { result ≡ [] }
    {
        Report {
            bytes: Vec::new(alloc),
        }
    }

    /// No text, with memory for so many lines of usual length, so that it doesn't grow line by line.
    ///
    /// # Errors
    ///
    /// `AllocError` where memory ran out.
    pub(crate) fn with_lines(alloc: Global, lines: usize) -> Result<Report, AllocError>
        ensures { IfOk result (λ report. report ≡ []) }
    {
        Ok(Report {
            bytes: Vec::with_capacity(alloc, lines.saturating_mul(LINE_LEN))?,
        })
    }

    /// Lets go of the text, and keeps its memory for another one.
    pub fn clear(&mut self)
        ensures { self.new ≡ [] }
    {
        self.bytes.clear();
    }

    /// The bytes of the text.
    pub fn bytes(&self) -> &[u8]
        ensures { result.now ≡ self.now }
    {
        &self.bytes
    }

    /// Puts a text last.
    pub fn put(&mut self, text: &str) -> Result<(), AllocError>
        ensures { OnOk result (self.new ≡ self.old ++ text.now) }
    {
        self.bytes.extend_from_slice(text.as_bytes())
    }

    /// Puts a label and a hexadecimal number last.
    pub fn put_field(&mut self, label: &str, number: u64) -> Result<(), AllocError>
        ensures { OnOk result (self.new ≡ self.old ++ label.now ++ hexadecimal number) }
    {
        self.put(label)?;
        put_hexadecimal(&mut self.bytes, number)
    }

    /// Puts a label and a decimal number last.
    pub fn put_count(&mut self, label: &str, count: usize) -> Result<(), AllocError>
        ensures { OnOk result (self.new ≡ self.old ++ label.now ++ decimal count) }
    {
        self.put(label)?;
        put_decimal(&mut self.bytes, count as u64)
    }

    /// Puts a line last.
    pub(crate) fn put_line(&mut self, line: &Line) -> Result<(), AllocError>
        ensures { OnOk result (self.new ≡ self.old ++ line.now) }
    {
        self.bytes.extend_from_slice(line.bytes())
    }

    /// Puts bytes last.
    pub fn put_bytes(&mut self, bytes: &[u8]) -> Result<(), AllocError>
        ensures { OnOk result (self.new ≡ self.old ++ bytes.now) }
    {
        self.bytes.extend_from_slice(bytes)
    }

    /// Puts `0x` and sixteen hexadecimal digits last.
    pub fn put_word(&mut self, number: u64) -> Result<(), AllocError>
        ensures { OnOk result (self.new ≡ self.old ++ word number) }
    {
        put_word(&mut self.bytes, number)
    }

    /// Ends the line.
    pub fn end_line(&mut self) -> Result<(), AllocError>
        ensures { OnOk result (self.new ≡ self.old ++ 10 ∷ []) }
    {
        self.put("\n")
    }
}

/// The text as a line.
///
/// # Errors
///
/// `AllocError` where memory ran out.
pub fn line_of(alloc: Global, text: &str) -> Result<Report, AllocError>
    ensures { IfOk result (λ report. report ≡ line text.now) }
{
    let mut report = Report::new(alloc);
    report.put(text)?;
    report.end_line()?;
    Ok(report)
}

/// A label and a text after it as a line.
///
/// # Errors
///
/// `AllocError` where memory ran out.
pub fn labelled_line_of(alloc: Global, label: &str, text: &str) -> Result<Report, AllocError>
    ensures { IfOk result (λ report. report ≡ line (label.now ++ text.now)) }
{
    let mut report = Report::new(alloc);
    report.put(label)?;
    report.put(text)?;
    report.end_line()?;
    Ok(report)
}
