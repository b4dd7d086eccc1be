//! What a reader has to believe of modules whose unwind data is Apple's or Microsoft's: the
//! definitions in `specs/`, of the modules that describe functions, of the step to a caller, and of
//! states that stand in an epilog.
#![tactic(auto)]
