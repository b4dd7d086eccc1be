//! A core of whose one segment a part is walked. Nothing of it runs.
ghost use Rattle.std.specs.Prelude.{◌≡◌, ◌∷◌, [], ◌≤◌, length, true};
ghost use Rattle.std.specs.List.{AllByRecursion};
ghost use Rattle.core_file.specs.Fronts.{segment_by};
ghost use Rattle.stack_walks.specs.Lines.{line_of};
ghost use Rattle.mapped_modules.specs.Spaces.{space_of_core, tables_of};
ghost use Rattle.part_walks.specs.Parts.{IsMapped};
ghost use Rattle.part_walks.specs.PartSample.{loaded, stack, start, window};
ghost use Rattle.core_parts.specs.Parts.{CanBeWalkedByParts, IsStackPart};
ghost use Rattle.core_parts.specs.PartSample.{front, part, place};

/// The thread of `part_walks` whose stack is a segment of a core, 32 bytes from the begin of its file on:
/// the 16 bytes from its stack pointer on are a part, over which it is walked to its end.
pub fn a_core_has_walkable_parts()
    ensures segment { segment_by stack.bytes place ≡ stack }
    ensures window { segment_by stack.bytes part ≡ window }
    ensures long { front.end ≤ length stack.bytes }
    ensures walkable { CanBeWalkedByParts front loaded }
    ensures parts { AllByRecursion (IsStackPart front.places (tables_of loaded)) (part ∷ []) }
    ensures walk { IsMapped (line_of (space_of_core loaded (segment_by stack.bytes part ∷ [])) 2
        start true) }
{}
