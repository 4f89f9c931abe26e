//! Worked examples of lists, IRIs, terms and datasets, of N-Quads texts and the datasets that they
//! spell, of journals' texts, and of readers and writers that are slow or fail.
#![tactic(auto)]

#[cfg(test)]
mod builders;
#[cfg(test)]
mod datasets_of_terms;
#[cfg(test)]
mod feeds;
#[cfg(test)]
mod fixtures;
#[cfg(test)]
mod journals;
#[cfg(test)]
mod lists_and_iris;
#[cfg(test)]
mod nquads_texts;
#[cfg(test)]
mod objects;
#[cfg(test)]
mod pieces;
#[cfg(test)]
mod slow_devices;
