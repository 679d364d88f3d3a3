//! The tests of the readers: of files that are taken whole (`meta_base`), tokens (`raml_lex`), expression files
//! (`raml_syntax`), labels and values (`sig_text`), network files (`topology_file`) and the networks that they mean
//! (`net_graph`), a file for each. They show what no clause says: that calls succeed, and that what is printed is what
//! the formats say. It stands on every library that it tests.
#![tactic(auto)]

#[cfg(test)]
mod expressions;
#[cfg(test)]
mod literals;
#[cfg(test)]
mod networks;
#[cfg(test)]
mod outside;
#[cfg(test)]
mod refusals;
#[cfg(test)]
mod single_bytes;
#[cfg(test)]
mod tokens;
