//! Examples that are run: small files and plans, and what the calls of the library answer.
#![tactic(auto)]

#[cfg(test)]
mod checking;
#[cfg(test)]
mod files;
#[cfg(test)]
mod reading;
#[cfg(test)]
mod trying;
#[cfg(test)]
mod writing;
