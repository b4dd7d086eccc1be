//! Claims of a small program's code, byte for byte (`examples/frame_layouts.c`).

ghost use Rattle.std.specs.Prelude.{◌∷◌, [], map};
ghost use Rattle.frame_facts.specs.FactTables.{HasTables};
ghost use Rattle.frame_facts.specs.Claims.{SaysClaims};
ghost use Rattle.frame_facts_laws.specs.SampleProgram as program;
ghost use Rattle.table_check.specs.Modules.{module_of};
ghost use Rattle.fact_checks.specs.Audits.{DiffersAt, NoneOf};
ghost use Rattle.fact_checks.specs.ClaimViews.{claim_of};
ghost use Rattle.fact_checks.specs.InOrder.{AreInOrder};
ghost use Rattle.fact_checks.specs.SampleClaims as sample;

/// The tables of a small program read, and say what is claimed of a part of a function, of the body
/// of another, of its return after two pops, and of a call for which arguments were pushed.
pub fn program_says_claims()
    ensures tables { HasTables program.image (module_of 0x401000 0x401197 sample.frame) }
    ensures order { AreInOrder 0 (map claim_of sample.claims) }
    ensures said { SaysClaims program.image (module_of 0x401000 0x401197 sample.frame)
        (map claim_of sample.claims) }
{}

/// They don't say the same of the body with one address more, whose row has another CFA. A list of
/// this one difference has none of the claim after that.
pub fn longer_claim_differs()
    ensures differs { DiffersAt program.bases program.fdes (claim_of sample.longer) 0x40109e
        sample.mismatch }
    ensures others { NoneOf 1 (sample.difference ∷ []) }
{}
