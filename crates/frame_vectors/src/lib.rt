//! Worked examples of finders, call frames, language tables, stacks and generated chains, and what
//! compilers' tables ask, as tests. There is nothing here to call.
#![tactic(auto)]

#[cfg(test)]
mod asserting;
#[cfg(test)]
mod cases;
#[cfg(test)]
mod chains;
#[cfg(test)]
mod cxx_tables;
#[cfg(test)]
mod formats;
#[cfg(test)]
mod frames;
#[cfg(test)]
mod headers;
#[cfg(test)]
mod languages;
#[cfg(test)]
mod made_rows;
#[cfg(test)]
mod objects;
#[cfg(test)]
mod prepared;
#[cfg(test)]
mod registered;
#[cfg(test)]
mod resumes;
#[cfg(test)]
mod rooms;
#[cfg(test)]
mod runs;
#[cfg(test)]
mod walk_ends;
