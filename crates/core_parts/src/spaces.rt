// What the threads of a core are walked over by windows.
ghost use Rattle.std.specs.Prelude.{◌≡◌, IfOk, OnOk, map};
ghost use Rattle.mapped_modules.specs.Loading.{loaded_value};
ghost use Rattle.mapped_modules.specs.Spaces.{space_of_core, with_regions};
ghost use Rattle.core_parts.specs.Views.{window_span};

use crate::windows::Window;
use mapped_modules::{LoadedModule, add_region, image_of_tables, space_over};
use memory_image::MemoryImage;
use stack_steps::Space;
use std::alloc::{AllocError, Global};

/// Adds the windows that the image takes.
fn add_windows<'a>(image: &mut MemoryImage<'a>, windows: &'a [Window]) -> Result<(), AllocError>
    ensures { OnOk result (image.new ≡ with_regions image.old (map window_span windows.now)) }
{
    for window in windows {
        add_region(image, window.address, &window.bytes)?;
    }
    Ok(())
}

/// What the threads of a core are walked over where these windows are all of its memory: the tables of
/// its modules, the windows that share no address with them or with an earlier one, and the modules.
///
/// # Errors
///
/// `AllocError` where memory ran out.
#[tactic(auto, unfolding(mapped_modules::specs::Spaces::space_of_core))]
pub fn space_of_windows<'a>(
    alloc: Global,
    loaded: &'a [LoadedModule],
    windows: &'a [Window],
) -> Result<Space<'a>, AllocError>
    ensures { IfOk result (λ space. space ≡
        space_of_core (map loaded_value loaded.now) (map window_span windows.now)) }
{
    let mut image = image_of_tables(alloc, loaded)?;
    add_windows(&mut image, windows)?;
    space_over(alloc, image, loaded)
}
