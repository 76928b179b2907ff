//! Rows of the calls that take migration bundles, on the top call of `script_runner`: a source's row
//! saves its container, and to the rows of its destination it comes, as it is or turned; and so does the
//! token of an import that is given up to its source, which is replayed where its files fail as well.
#![tactic(auto)]

#[cfg(test)]
mod arrivals;
#[cfg(test)]
mod failing;
#[cfg(test)]
mod soaks;
#[cfg(test)]
mod sources;
#[cfg(test)]
mod tokens;
#[cfg(test)]
mod turned;
