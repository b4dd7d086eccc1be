//! Worked examples of Mach-O and PE unwind data and of steps in such modules, and sections that
//! compilers and linkers made, as tests. There is nothing here to call.
#![tactic(auto)]

#[cfg(test)]
mod macho;
#[cfg(test)]
mod macho_damaged;
#[cfg(test)]
mod macho_linked;
#[cfg(test)]
mod macho_tables;
#[cfg(test)]
mod pe;
#[cfg(test)]
mod pe_handlers;
#[cfg(test)]
mod steps;
