// A space over an image that has grown.
ghost use Rattle.std.specs.Prelude.{◌≡◌, ◌∷◌, []};
ghost use Rattle.memory_image.specs.Image.{IsLaidOut, table_at};
ghost use Rattle.stack_steps.specs.Growing.{Grows, IsSeenOver, all_prepared, over_image};
ghost use Rattle.stack_steps.specs.GrownSample.{grown_image, table_image, table_space};
ghost use Rattle.stack_steps.specs.Modules.{AreApart, module_at};

use crate::space::{Module, Space};
use memory_image::MemoryImage;
use std::marker::Model;

/// A space that is seen over another image than its own, which maps all that its own does, and may
/// map more: the modules and their indexes stay, and stack after stack is added to the image.
///
/// The image may stand for a shorter time than what the space keeps: `'t` is the time of the space's
/// tables, `'a` that of the image's regions.
///
/// Contracts see the space with that image.
#[derive(Drop)]
pub struct GrownSpace<'s, 't, 'a> {
    pub(crate) space: &'s Space<'t>,
    pub(crate) image: &'s MemoryImage<'a>,
}

impl<'s, 't, 'a> Model for GrownSpace<'s, 't, 'a> {
    ghost use Rattle.stack_steps.specs.Growing.{Grows, over_image};
    ghost use Rattle.stack_steps.specs.Modules.{SpaceValue};

    ghost Value = { SpaceValue };

    ghost view = { λ s. over_image s.space.now s.image.now };

    ghost invariant = { λ s. Grows s.space.now.image s.image.now };
}

impl<'s, 't, 'a> GrownSpace<'s, 't, 'a> {
    /// A space over an image that maps what the space's own does.
    pub fn new(space: &'s Space<'t>, image: &'s MemoryImage<'a>) -> GrownSpace<'s, 't, 'a>
        requires { Grows space.now.image image.now }
        ensures { result ≡ over_image space.now image.now }
    {
        GrownSpace { space, image }
    }

    /// The module that contains the address.
    pub fn module_at(&self, address: u64) -> Option<Module>
        ensures { result ≡ module_at self.now.modules address }
    {
        self.space.module_at(address)
    }

    /// Whether each module is prepared. It costs a look at each.
    pub fn is_prepared(&self) -> bool
        ensures { result ≡ all_prepared self.now.added }
    {
        self.space.is_prepared()
    }

    /// The image that it is seen over.
    pub fn image(&self) -> &'s MemoryImage<'a>
        ensures image { result.now ≡ self.now.image }
        ensures apart { AreApart 0 self.now.modules }
        ensures laid_out { IsLaidOut 0 self.now.image }
    {
        // No two of its modules share an address, as a space's type says.
        let _ = self.space.image();
        self.image.laid_out();
        self.image
    }
}

impl<'a> Space<'a> {
    /// The space over its own image.
    pub fn over_own_image(&self) -> GrownSpace<'_, 'a, 'a>
        ensures { result ≡ self.now }
    {
        GrownSpace {
            space: self,
            image: self.image(),
        }
    }
}

/// An image can grow: a table stays where it is, and a stack is mapped beside it. So what
/// [`GrownSpace::new`] and [`FrameCache::advance`](crate::FrameCache::advance) ask can be met. The
/// function does nothing.
pub fn an_image_grows()
    ensures grows { Grows table_image grown_image }
    ensures seen { IsSeenOver table_space (over_image table_space grown_image) }
    ensures apart { table_at table_image 0x7000 ≡ [] }
    ensures mapped { table_at grown_image 0x7000 ≡ 9 ∷ [] }
{}
