//! A printer: a page, and the writer that full pages go to. It keeps the fault that ends it, so a
//! function that prints has no fault to return.

ghost use Rattle.std.specs.Prelude.{◌≡◌, ◌++◌, [], Bool, List, ℕ, IfOk, IfSome, IsTrue, None, OnOk};
ghost use Rattle.std.specs.Prelude.{Some};
ghost use Rattle.msc_print.specs.Pages.{Puts, Writes};
ghost use Rattle.msc_print.specs.Prints.{Prints};
ghost use Rattle.msc_print.specs.declared.page.WriteFault.TheVariants.{Device, Memory};

use crate::page::{PAGE_SIZE, Page, WriteFault};
use std::alloc::{AllocError, Global};
use std::fmt::Display;
use std::io::Write;
use std::marker::Model;
use std::mem::replace;

/// A page, and the writer that full pages go to. Contracts see the reference to the writer by its
/// name, the known bytes of the writer, the page, and the fault that ended the printer.
pub struct Printer<'w, W: Write> {
    writer: &'w mut W,
    page: Page,
    fault: Option<WriteFault>,
}

impl<'w, W: Write> Model for Printer<'w, W> {
    ghost use Rattle.msc_print.specs.Printed.{Printed, printed};

    ghost Value = { Printed };

    ghost view = { λ p. printed p.writer.ghost_name (W.contents p.writer.now) p.page.bytes.items p.fault };
}

/// A text that can be appended to a page.
pub trait Text {
    /// It can be appended.
    ghost can_append: { Self → Type 0 };

    /// Its bytes.
    ghost bytes: { Self → List ℕ };

    /// Appends its bytes to a page. An error is a growth of memory that was refused; the page then
    /// has any bytes.
    fn append(&self, page: &mut Page) -> Result<(), AllocError>
        requires { can_append self.now }
        ensures { OnOk result (page.new.bytes.items ≡ page.old.bytes.items ++ bytes self.now) };
}

impl<'w, W: Write> Printer<'w, W> {
    /// Prints bytes. A full page is written first.
    #[tactic(auto, using(crate::proofs::PrintLemmas::prints_then))]
    pub fn put(&mut self, bytes: &[u8])
        ensures { Prints self.old self.new bytes.now }
    {
        self.turn();
        self.push(bytes);
    }

    /// Prints a text. A full page is written first.
    // Inlined, so that the text of a row is not put together in memory first: a chart may have half
    // a million races.
    #[tactic(auto, using(crate::proofs::PrintLemmas::prints_then))]
    #[inline(always)]
    pub fn print_text<T: Text>(&mut self, text: &T)
        requires { T.can_append text.now }
        ensures { Prints self.old self.new (T.bytes text.now) }
    {
        self.turn();
        self.push_text(text);
    }

    /// Prints formatted text: `write!(printer, "{e} {f}")` calls this. A page that is full stays.
    #[tactic(auto, using(crate::proofs::PrintLemmas::stops))]
    pub fn write_fmt<D: Display + Drop>(&mut self, text: D)
        ensures { IfSome (D.output text) (Prints self.old self.new) }
    {
        if self.fault.is_some() {
            return;
        }
        if self.page.bytes.write_fmt(text).is_err() {
            self.fault = Some(WriteFault::Memory);
        }
    }

    /// Appends bytes to the page.
    #[tactic(auto, using(crate::proofs::PrintLemmas::stops))]
    fn push(&mut self, bytes: &[u8])
        ensures { Prints self.old self.new bytes.now }
    {
        if self.fault.is_some() {
            return;
        }
        if self.page.bytes.extend_from_slice(bytes).is_err() {
            self.fault = Some(WriteFault::Memory);
        }
    }

    /// Appends a text to the page.
    #[tactic(auto, using(crate::proofs::PrintLemmas::stops))]
    #[inline(always)]
    fn push_text<T: Text>(&mut self, text: &T)
        requires { T.can_append text.now }
        ensures { Prints self.old self.new (T.bytes text.now) }
    {
        if self.fault.is_some() {
            return;
        }
        if text.append(&mut self.page).is_err() {
            self.fault = Some(WriteFault::Memory);
        }
    }

    /// Stops because memory ran out: a beginning of any text that would follow is printed.
    #[tactic(auto, using(crate::proofs::PrintLemmas::stops))]
    pub fn stop(&mut self)
        ensures { (text : List ℕ) → Prints self.old self.new text }
    {
        if self.fault.is_none() {
            self.fault = Some(WriteFault::Memory);
        }
    }

    /// Whether a fault has ended it: then nothing more is printed.
    #[tactic(auto, using(crate::proofs::PrintLemmas::prints_no_more))]
    pub fn has_ended(&self) -> bool
        ensures { IsTrue result → (text : List ℕ) → Prints self.now self.now text }
    {
        self.fault.is_some()
    }

    /// Writes its page if it is full.
    fn turn(&mut self)
        ensures { Prints self.old self.new [] }
    {
        if self.fault.is_some() || self.page.bytes.len() < PAGE_SIZE {
            return;
        }
        self.go_out();
    }

    /// Writes its page.
    // Apart from `turn`, which each row calls: room for a write is made only here.
    #[inline(never)]
    fn go_out(&mut self)
        requires { self.old.fault ≡ None }
        ensures { Prints self.old self.new [] }
    {
        if self.writer.write_all(self.page.bytes.as_slice()).is_err() {
            self.fault = Some(WriteFault::Device);
            return;
        }
        self.page.bytes.clear();
    }
}

/// What can be printed, with an answer.
pub trait Print {
    /// It can be printed.
    ghost can_print: { Self → Type 0 };

    /// This is its text.
    ghost is_text: { Self → List ℕ → Type 0 };

    /// This is its answer.
    ghost is_answer: { Self → Bool → Type 0 };

    /// Prints its text and returns its answer. An error is a growth of memory that was refused.
    fn print<W: Write>(
        &self,
        alloc: Global,
        printer: &mut Printer<'_, W>,
    ) -> Result<bool, AllocError>
        requires { can_print self.now }
        ensures printed { (text : List ℕ) → is_text self.now text
            → Prints printer.old printer.new text }
        ensures answer { IfOk result (is_answer self.now) };
}

/// Leaves a writer as it is. The prover learns here that a printer had this writer to its end.
fn leave<W: Write>(_writer: &mut W)
    ensures { _writer.new ≡ _writer.old }
{}

/// Prints after what a page has; full pages go to the writer, and the rest is the page afterwards.
/// After `Memory` the writer has a beginning of the page and the text; `Device` says that a write
/// failed.
pub fn print_by<P: Print, W: Write>(
    alloc: Global,
    what: &P,
    writer: &mut W,
    page: &mut Page,
) -> Result<bool, WriteFault>
    requires { P.can_print what.now }
    ensures put { (text : List ℕ) → P.is_text what.now text
        → Puts result (W.contents writer.old) (W.contents writer.new)
        page.old.bytes.items page.new.bytes.items text }
    ensures answer { IfOk result (P.is_answer what.now) }
{
    let bytes = replace(&mut page.bytes, Vec::new(alloc));
    let mut printer = Printer {
        writer: &mut *writer,
        page: Page { bytes },
        fault: None,
    };
    let answer = what.print(alloc, &mut printer);
    let Printer {
        writer: out,
        page: rest,
        fault,
    } = printer;
    leave(out);
    page.bytes = rest.bytes;
    if let Some(fault) = fault {
        return Err(fault);
    }
    Ok(answer?)
}

/// Prints to a writer, and writes the last page. After `Memory` the writer has a beginning of the
/// text; `Device` says that a write failed.
pub fn write_by<P: Print, W: Write>(
    alloc: Global,
    what: &P,
    writer: &mut W,
) -> Result<bool, WriteFault>
    requires { P.can_print what.now }
    ensures written { (text : List ℕ) → P.is_text what.now text
        → Writes result (W.contents writer.old) (W.contents writer.new) text }
    ensures answer { IfOk result (P.is_answer what.now) }
{
    let mut page = Page::new(alloc);
    let answer = print_by(alloc, what, writer, &mut page)?;
    writer.write_all(page.bytes.as_slice())?;
    Ok(answer)
}
