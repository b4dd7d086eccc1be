//! Worked examples of functions and of facts that are claimed, and of what their checks and audits
//! answer, as tests. There is nothing here to call.
#![tactic(auto)]

#[cfg(test)]
mod descriptions;
#[cfg(test)]
mod facts;
#[cfg(test)]
mod languages;
#[cfg(test)]
mod texts;
