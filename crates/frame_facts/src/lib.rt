//! What a reader has to believe of facts at addresses of code: the definitions in `specs/`, of what
//! is known there of every frame, of the rows and the tables that say it, and of the chains of
//! frames that such tables lead through.
#![tactic(auto)]
