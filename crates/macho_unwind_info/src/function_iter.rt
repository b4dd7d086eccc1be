// The functions of a section, one after another.
ghost use Rattle.std.specs.Prelude.{◌≡◌, ◌<◌, drop, slice_get, length, Some, IfSome, IfNone};
ghost use Rattle.macho_unwind_info.specs.Listing.{answer_of, places_of};
ghost use Rattle.macho_unwind_info.specs.Iteration.{left_in_any};

use crate::error::Error;
use crate::function::Function;
use crate::page::{OpenPage, Page};
use crate::raw::{Opcode, PageEntry};
use memory_image::Records;
use std::marker::Model;

/// The functions of a section that are left, in the order of the pages and of their entries, with
/// the errors in their places. Contracts see the list of these places.
#[derive(Drop)]
pub struct FunctionIter<'a> {
    bytes: &'a [u8],
    global_opcodes: Records<'a, Opcode>,
    // those that weren't entered yet, and the sentinel
    pages: Records<'a, PageEntry>,
    page: Option<OpenPage<'a>>,
}

impl<'a> Model for FunctionIter<'a> {
    ghost use Rattle.std.specs.Prelude.{List, Result};
    ghost use Rattle.macho_unwind_info.specs.declared.error.Error.{Error};
    ghost use Rattle.macho_unwind_info.specs.declared.function.Function.{Function};
    ghost use Rattle.macho_unwind_info.specs.Iteration.{functions_left};

    ghost Value = { List (Result Function Error) };

    ghost view = { λ i. functions_left i.bytes.now i.global_opcodes i.page i.pages };
}

impl<'a> FunctionIter<'a> {
    /// The functions of some pages.
    pub(crate) fn new(
        bytes: &'a [u8],
        global_opcodes: Records<'a, Opcode>,
        pages: Records<'a, PageEntry>,
    ) -> FunctionIter<'a>
        ensures { result ≡ places_of bytes.now global_opcodes.entry pages.entry }
    {
        FunctionIter {
            bytes,
            global_opcodes,
            pages,
            page: None,
        }
    }

    /// The next function, `Ok(None)` at the end and from then on, or the error that stands in the
    /// next place.
    ///
    /// A page whose kind, header, entries or own opcodes can't be read is one place, and is passed
    /// with its error. An entry whose address passes 2^32 - 1 or whose opcode is missing is one
    /// place too, and the entries after it follow.
    #[allow(clippy::should_implement_trait)]
    pub fn next(&mut self) -> Result<Option<Function>, Error>
        ensures answer { result ≡ answer_of (slice_get self.old 0) }
        ensures rest { self.new ≡ drop 1 self.old }
    {
        'pages: loop {
            if let Some(place) = take_first(&mut self.page, &self.global_opcodes) {
                return place.map(Some);
            }
            let Some((entry, next)) = first_two(&self.pages) else {
                return Ok(None);
            };
            self.pages = self.pages.after(1);
            let page = Page::read(self.bytes, &entry)?.whole()?;
            let next_address = next.first_address();
            self.page = Some(OpenPage { page, next_address });
        }
    }
}

/// The first function that is left in a page, which is then passed.
fn take_first(
    page: &mut Option<OpenPage<'_>>,
    global: &Records<'_, Opcode>,
) -> Option<Result<Function, Error>>
    ensures first { result ≡ slice_get (left_in_any global.now page.old) 0 }
    ensures rest { left_in_any global.now page.new ≡ drop 1 (left_in_any global.now page.old) }
{
    match page {
        Some(page) => page.take_first(global),
        None => None,
    }
}

/// A page and the one after it, if there are two.
fn first_two(pages: &Records<'_, PageEntry>) -> Option<(PageEntry, PageEntry)>
    ensures first { IfSome result (λ two. slice_get pages.now 0 ≡ Some two.0) }
    ensures second { IfSome result (λ two. slice_get pages.now 1 ≡ Some two.1) }
    ensures few { IfNone result (length pages.now < 2) }
{
    let first = pages.get(0)?;
    let second = pages.get(1)?;
    Some((first, second))
}
