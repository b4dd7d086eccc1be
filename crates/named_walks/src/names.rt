// The functions of frames, each of which is written once.
ghost use Rattle.std.specs.Prelude.{◌≡◌, ◌++◌, ℕ, List, IfOk, IsErrOf, IsTrue, OnOk};
ghost use Rattle.std.specs.Prelude.{false, option_map, true};
ghost use Rattle.core_file.specs.MappedViews.{parts_left};
ghost use Rattle.mapped_files.specs.Files.{AreTold};
ghost use Rattle.mapped_names.specs.Places.{function_value, parts_of, place_value};
ghost use Rattle.named_walks.specs.Named.{name_text, named_text, place_text};
ghost use Rattle.named_walks.specs.Named.{written, written_text};

use core_file::MappedParts;
use mapped_files::{Files, PartError};
use mapped_names::{CodePlace, NamedFunction, Naming};
use stack_report::Report;
use std::alloc::{AllocError, Global};
use std::collections::HashMap;
use std::marker::Model;
use unwinding_frames::address_asked;

/// A byte of a name as it is written.
fn written(byte: u8) -> u8
    ensures { result ≡ written byte }
{
    if b' ' < byte && byte < 127 {
        byte
    } else {
        b'?'
    }
}

/// Whether a name is written as it is.
fn is_plain(name: &[u8]) -> bool
    ensures { IsTrue result → written_text name.now ≡ name.now }
{
    for byte in name {
        if written(*byte) != *byte {
            return false;
        }
    }
    true
}

/// Puts a name last, byte by byte.
fn put_bytewise(report: &mut Report, name: &[u8]) -> Result<(), AllocError>
    ensures { OnOk result (report.new ≡ report.old ++ written_text name.now) }
{
    for byte in name {
        report.put_bytes(&[written(*byte)])?;
    }
    Ok(())
}

/// Puts a name last.
fn put_bytes(report: &mut Report, name: &[u8]) -> Result<(), AllocError>
    ensures { OnOk result (report.new ≡ report.old ++ written_text name.now) }
{
    if is_plain(name) {
        report.put_bytes(name)
    } else {
        put_bytewise(report, name)
    }
}

/// Puts a file last and, where it is known, the function at an address of it.
fn put_named(
    report: &mut Report,
    path: &[u8],
    address: u64,
    function: &Option<NamedFunction>,
) -> Result<(), AllocError>
    ensures { OnOk result (report.new ≡ report.old ++
        named_text path.now address (option_map function_value function.now)) }
{
    match function {
        Some(function) => {
            report.put(" ")?;
            put_bytes(report, &function.name)?;
            report.put_field("+", address.wrapping_sub(function.start))?;
            report.put(" in ")?;
            put_bytes(report, path)
        }
        None => {
            report.put(" in ")?;
            put_bytes(report, path)?;
            report.put_field("+", address)
        }
    }
}

/// Puts last what was found for the address asked.
fn put_place(
    report: &mut Report,
    place: &Option<CodePlace<'_>>,
    interrupted: bool,
) -> Result<(), AllocError>
    ensures { OnOk result (report.new ≡ report.old ++
        place_text interrupted (option_map place_value place.now)) }
{
    match place {
        Some(place) => {
            let past = if interrupted { 0 } else { 1 };
            put_named(
                report,
                place.path,
                place.address.wrapping_add(past),
                &place.function,
            )
        }
        None => Ok(()),
    }
}

/// The functions of frames, as far as they were asked.
///
/// Contracts see the files that have them.
#[derive(Drop)]
pub struct FrameNames<'a, F: Files> {
    alloc: Global,
    naming: Naming<'a, F>,
    callers: HashMap<u64, Vec<u8>>,
    interrupted: HashMap<u64, Vec<u8>>,
}

impl<'a, F: Files> Model for FrameNames<'a, F> {
    ghost use Rattle.std.specs.Prelude.{◌≡◌, ℕ, List, IfSome, true, false, nat_eq};
    ghost use Rattle.std.specs.HashMap.{get};
    ghost use Rattle.mapped_files.specs.Files.{AreTold};
    ghost use Rattle.mapped_names.specs.Places.{NamingValue};
    ghost use Rattle.named_walks.specs.Named.{name_text};

    ghost Value = { NamingValue F };

    ghost view = { λ n. n.naming };

    ghost invariant = { λ n. (all : List ℕ → List ℕ) → AreTold (F.content n.naming.files) all →
        ((address : ℕ) → IfSome (get nat_eq n.callers address)
        (λ text. text.items ≡ name_text all n.naming.parts false address)) ×
        ((address : ℕ) → IfSome (get nat_eq n.interrupted address)
        (λ text. text.items ≡ name_text all n.naming.parts true address)) };
}

impl<'a, F: Files> FrameNames<'a, F> {
    /// The functions in the files of these parts, none of which is read yet; no functions where
    /// there are no parts.
    ///
    /// # Errors
    ///
    /// `AllocError` where memory ran out.
    pub fn new(
        alloc: Global,
        files: &'a F,
        parts: Option<MappedParts<'a>>,
    ) -> Result<FrameNames<'a, F>, AllocError>
        ensures { IfOk result (λ names. names ≡
            record { files = files.now; parts = parts_of (option_map parts_left parts.entry) }) }
    {
        Ok(FrameNames {
            alloc,
            naming: Naming::new(alloc, files, parts)?,
            callers: HashMap::new(alloc),
            interrupted: HashMap::new(alloc),
        })
    }

    /// What is said of an address, which is asked.
    #[tactic(auto, unfolding(crate::specs::Named::name_text))]
    fn text_of(&mut self, interrupted: bool, address: u64) -> Result<Report, PartError>
        ensures told { (all : List ℕ → List ℕ) → AreTold (F.content self.old.files) all →
            IfOk result (λ text. text ≡ name_text all self.old.parts interrupted address) }
        ensures fault { IsErrOf result PartError.Fault → F.may_fail self.old.files }
        ensures same { self.new ≡ self.old }
    {
        let place = self.naming.place_at(address_asked(address, interrupted))?;
        let mut text = Report::new(self.alloc);
        put_place(&mut text, &place, interrupted)?;
        Ok(text)
    }

    /// Puts last what is said of a return address, and keeps it.
    fn put_new_caller(&mut self, report: &mut Report, address: u64) -> Result<(), PartError>
        ensures told { (all : List ℕ → List ℕ) → AreTold (F.content self.old.files) all →
            OnOk result (report.new ≡ report.old ++ name_text all self.old.parts false address) }
        ensures fault { IsErrOf result PartError.Fault → F.may_fail self.old.files }
        ensures same { self.new ≡ self.old }
    {
        let text = self.text_of(false, address)?;
        report.put_bytes(text.bytes())?;
        let kept = Vec::from_slice(self.alloc, text.bytes())?;
        self.callers.insert(address, kept)?;
        Ok(())
    }

    /// Puts last what is said of a return address.
    fn put_caller(&mut self, report: &mut Report, address: u64) -> Result<(), PartError>
        ensures told { (all : List ℕ → List ℕ) → AreTold (F.content self.old.files) all →
            OnOk result (report.new ≡ report.old ++ name_text all self.old.parts false address) }
        ensures fault { IsErrOf result PartError.Fault → F.may_fail self.old.files }
        ensures same { self.new ≡ self.old }
    {
        match self.callers.get(&address) {
            Some(text) => Ok(report.put_bytes(text)?),
            None => self.put_new_caller(report, address),
        }
    }

    /// Puts last what is said of an address at which a state was interrupted, and keeps it.
    fn put_new_interrupted(&mut self, report: &mut Report, address: u64) -> Result<(), PartError>
        ensures told { (all : List ℕ → List ℕ) → AreTold (F.content self.old.files) all →
            OnOk result (report.new ≡ report.old ++ name_text all self.old.parts true address) }
        ensures fault { IsErrOf result PartError.Fault → F.may_fail self.old.files }
        ensures same { self.new ≡ self.old }
    {
        let text = self.text_of(true, address)?;
        report.put_bytes(text.bytes())?;
        let kept = Vec::from_slice(self.alloc, text.bytes())?;
        self.interrupted.insert(address, kept)?;
        Ok(())
    }

    /// Puts last what is said of an address at which a state was interrupted.
    fn put_interrupted(&mut self, report: &mut Report, address: u64) -> Result<(), PartError>
        ensures told { (all : List ℕ → List ℕ) → AreTold (F.content self.old.files) all →
            OnOk result (report.new ≡ report.old ++ name_text all self.old.parts true address) }
        ensures fault { IsErrOf result PartError.Fault → F.may_fail self.old.files }
        ensures same { self.new ≡ self.old }
    {
        match self.interrupted.get(&address) {
            Some(text) => Ok(report.put_bytes(text)?),
            None => self.put_new_interrupted(report, address),
        }
    }

    /// Puts last what is said of the address of a state: ` NAME+0xOFFSET in FILE`, or
    /// ` in FILE+0xADDRESS` where the file has no symbol there, or nothing where no code of a file
    /// lies there. The function is that of the address which is asked of the frame: where the state
    /// was interrupted its own, else that of the call, one before. The offset, and the address as the
    /// file counts, are of the state's own address.
    ///
    /// # Errors
    ///
    /// [`PartError::Fault`] where a read failed, and [`PartError::Memory`] where memory ran out.
    pub fn put_name(
        &mut self,
        report: &mut Report,
        interrupted: bool,
        address: u64,
    ) -> Result<(), PartError>
        ensures told { (all : List ℕ → List ℕ) → AreTold (F.content self.old.files) all →
            OnOk result (report.new ≡ report.old ++
            name_text all self.old.parts interrupted address) }
        ensures fault { IsErrOf result PartError.Fault → F.may_fail self.old.files }
        ensures same { self.new ≡ self.old }
    {
        if interrupted {
            self.put_interrupted(report, address)
        } else {
            self.put_caller(report, address)
        }
    }
}
