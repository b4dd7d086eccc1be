//! What a personality sees of a frame and may change, and the calls that read and write it.
//!
//! Itanium C++ ABI, exception handling, section 1.5.

ghost use Rattle.std.specs.Prelude.{◌≡◌, ◌≢◌, ℕ, pos, None, Some, Ok, OnSome, IfNone, is_some};
ghost use Rattle.std.specs.Prelude.{if◌then◌else◌};
ghost use Rattle.std.specs.Option.{option_map_or};
ghost use Rattle.unwind_definitions.specs.LanguageSearch.{language_address};
ghost use Rattle.unwinding_frames.specs.Calling.{value_given};
ghost use Rattle.unwinding_frames.specs.Columns.{column_at};

use crate::frame::{Frame, StepError};
use crate::place::Place;
use memory_image::MemoryImage;
use unwind_arch::{Machine, Register, RegisterMap};

/// A frame as a personality sees it: the memory, what is known of its function, its registers, and
/// whether it stands at the instruction of its return address, as after a signal.
///
/// Contracts see these four, and the place of the function's language table where there is one.
#[derive(Drop)]
pub struct UnwindContext<'c, 'a, M: Machine> {
    pub(crate) image: &'c MemoryImage<'a>,
    pub(crate) frame: Option<&'c Frame<'a, M>>,
    pub(crate) place: Option<&'c Place>,
    pub(crate) ctx: &'c mut M::Context,
    pub(crate) signal: bool,
}

impl<'c, 'a, M: Machine> UnwindContext<'c, 'a, M> {
    /// A frame of the stack, or what stands at its end where `frame` is `None`.
    pub fn new(
        image: &'c MemoryImage<'a>,
        frame: Option<&'c Frame<'a, M>>,
        ctx: &'c mut M::Context,
        signal: bool,
    ) -> UnwindContext<'c, 'a, M>
        ensures image { result.image ≡ image.entry }
        ensures frame { result.frame ≡ frame.entry }
        ensures place { result.place ≡ None }
        ensures context { result.ctx.now ≡ ctx.old }
        ensures reference { result.ctx.ghost_name ≡ ctx.entry.ghost_name }
        ensures signal { result.signal ≡ signal }
    {
        UnwindContext {
            image,
            frame,
            place: None,
            ctx,
            signal,
        }
    }

    /// A frame of which the place of its function's language table is known, and no description.
    pub fn with_place(
        image: &'c MemoryImage<'a>,
        place: &'c Place,
        ctx: &'c mut M::Context,
        signal: bool,
    ) -> UnwindContext<'c, 'a, M>
        ensures image { result.image ≡ image.entry }
        ensures frame { result.frame ≡ None }
        ensures place { result.place ≡ Some place.entry }
        ensures context { result.ctx.now ≡ ctx.old }
        ensures reference { result.ctx.ghost_name ≡ ctx.entry.ghost_name }
        ensures signal { result.signal ≡ signal }
    {
        UnwindContext {
            image,
            frame: None,
            place: Some(place),
            ctx,
            signal,
        }
    }

    /// The registers.
    pub fn context(&self) -> M::Context
        ensures { result ≡ self.now.ctx.now }
    {
        *self.ctx
    }
}

/// The register of a column. `None` exactly where the machine doesn't have it; no number outside 0
/// to 65535 is one.
pub fn _Unwind_GetGR<M: Machine>(ctx: &UnwindContext<'_, '_, M>, index: i32) -> Option<u64>
    ensures { result ≡ column_at (M.Context.columns ctx.now.ctx.now) index }
{
    let column = u16::try_from(index).ok()?;
    ctx.ctx.get(Register(column))
}

/// Writes the register of a column. `None`, and nothing is written, exactly where the machine
/// doesn't have it.
pub fn _Unwind_SetGR<M: Machine>(
    ctx: &mut UnwindContext<'_, '_, M>,
    index: i32,
    value: u64,
) -> Option<()>
    ensures found { is_some result ≡ is_some (column_at (M.Context.columns ctx.old.ctx.now) index) }
    ensures holds { OnSome result
        (column_at (M.Context.columns ctx.new.ctx.now) index ≡ Some value) }
    ensures others { OnSome result ((k : ℕ) → pos k ≢ index →
        M.Context.columns ctx.new.ctx.now k ≡ M.Context.columns ctx.old.ctx.now k) }
    ensures unchanged { IfNone result (ctx.new.ctx.now ≡ ctx.old.ctx.now) }
    ensures image { ctx.new.image ≡ ctx.old.image }
    ensures frame { ctx.new.frame ≡ ctx.old.frame }
    ensures place { ctx.new.place ≡ ctx.old.place }
    ensures reference { ctx.new.ctx.ghost_name ≡ ctx.old.ctx.ghost_name }
    ensures signal { ctx.new.signal ≡ ctx.old.signal }
{
    let column = u16::try_from(index).ok()?;
    ctx.ctx.set(Register(column), value)
}

/// The stack pointer, which is the canonical frame address of the frame's callee.
pub fn _Unwind_GetCFA<M: Machine>(ctx: &UnwindContext<'_, '_, M>) -> u64
    ensures { M.Context.columns ctx.now.ctx.now M.SP.0 ≡ Some result }
{
    ctx.ctx.get(M::SP).unwrap_or(0)
}

/// The return address.
pub fn _Unwind_GetIP<M: Machine>(ctx: &UnwindContext<'_, '_, M>) -> u64
    ensures { M.Context.columns ctx.now.ctx.now M.RA.0 ≡ Some result }
{
    ctx.ctx.get(M::RA).unwrap_or(0)
}

/// Writes the return address, by which the frame goes on.
pub fn _Unwind_SetIP<M: Machine>(ctx: &mut UnwindContext<'_, '_, M>, value: u64)
    ensures holds { M.Context.columns ctx.new.ctx.now M.RA.0 ≡ Some value }
    ensures others { (k : ℕ) → k ≢ M.RA.0 →
        M.Context.columns ctx.new.ctx.now k ≡ M.Context.columns ctx.old.ctx.now k }
    ensures image { ctx.new.image ≡ ctx.old.image }
    ensures frame { ctx.new.frame ≡ ctx.old.frame }
    ensures place { ctx.new.place ≡ ctx.old.place }
    ensures reference { ctx.new.ctx.ghost_name ≡ ctx.old.ctx.ghost_name }
    ensures signal { ctx.new.signal ≡ ctx.old.signal }
{
    ctx.ctx.set(M::RA, value);
}

/// The return address. `ip_before_insn` becomes 1 where the frame stands before the instruction
/// there, and 0 where it stands after a call.
pub fn _Unwind_GetIPInfo<M: Machine>(
    ctx: &UnwindContext<'_, '_, M>,
    ip_before_insn: &mut i32,
) -> u64
    ensures ip { M.Context.columns ctx.now.ctx.now M.RA.0 ≡ Some result }
    ensures before { ip_before_insn.new ≡ (if ctx.now.signal then pos 1 else pos 0) }
{
    *ip_before_insn = if ctx.signal { 1 } else { 0 };
    _Unwind_GetIP(ctx)
}

/// The address of the first byte of the frame's function, by the frame or by the place, 0 without
/// both.
pub fn _Unwind_GetRegionStart<M: Machine>(ctx: &UnwindContext<'_, '_, M>) -> u64
    ensures { result ≡ option_map_or (λ f. f.now.found.fde.start) ctx.now.frame
        (option_map_or (λ p. p.now.start) ctx.now.place 0) }
{
    match (ctx.frame, ctx.place) {
        (Some(frame), _) => frame.initial_address(),
        (None, Some(place)) => place.start,
        (None, None) => 0,
    }
}

/// The address of the language table of the frame's function, by the frame or by the place, 0 where
/// it has none or without both.
///
/// # Errors
///
/// Those of [`Frame::lsda`].
pub fn _Unwind_GetLanguageSpecificData<M: Machine>(
    ctx: &UnwindContext<'_, '_, M>,
) -> Result<u64, StepError>
    ensures { value_given result ≡ option_map_or
        (λ f. language_address ctx.now.image.now f.now.found.fde) ctx.now.frame
        (option_map_or (λ p. Ok p.now.lsda) ctx.now.place (Ok 0)) }
{
    match (ctx.frame, ctx.place) {
        (Some(frame), _) => frame.lsda(ctx.image),
        (None, Some(place)) => Ok(place.lsda),
        (None, None) => Ok(0),
    }
}

/// What pointers of the frame's description or of the place's language table that are relative to the
/// text count from, `None` where that isn't known; 0 without both.
pub fn _Unwind_GetTextRelBase<M: Machine>(ctx: &UnwindContext<'_, '_, M>) -> Option<u64>
    ensures { result ≡ option_map_or (λ f. f.now.found.bases.text) ctx.now.frame
        (option_map_or (λ p. p.now.bases.text) ctx.now.place (Some 0)) }
{
    match (ctx.frame, ctx.place) {
        (Some(frame), _) => frame.bases().text,
        (None, Some(place)) => place.bases.text,
        (None, None) => Some(0),
    }
}

/// What pointers of the frame's description or of the place's language table that are relative to the
/// data count from, `None` where that isn't known; 0 without both.
pub fn _Unwind_GetDataRelBase<M: Machine>(ctx: &UnwindContext<'_, '_, M>) -> Option<u64>
    ensures { result ≡ option_map_or (λ f. f.now.found.bases.data_base) ctx.now.frame
        (option_map_or (λ p. p.now.bases.data_base) ctx.now.place (Some 0)) }
{
    match (ctx.frame, ctx.place) {
        (Some(frame), _) => frame.bases().data_base,
        (None, Some(place)) => place.bases.data_base,
        (None, None) => Some(0),
    }
}
