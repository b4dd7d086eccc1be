//! Worked examples of images, registers, encoded pointers, expressions, rows, frame tables, their
//! headers and their indexes, symbols, and tables that compilers made, as tests. There is nothing
//! here to call.
#![tactic(auto)]

#[cfg(test)]
mod asserting;
#[cfg(test)]
mod cores;
#[cfg(test)]
mod entries;
#[cfg(test)]
mod expressions;
#[cfg(test)]
mod headers;
#[cfg(test)]
mod images;
#[cfg(test)]
mod machines;
#[cfg(test)]
mod pointers;
#[cfg(test)]
mod prepared;
#[cfg(test)]
mod profiles;
#[cfg(test)]
mod registers;
#[cfg(test)]
mod rows;
#[cfg(test)]
mod symbols;
#[cfg(test)]
mod tables;
