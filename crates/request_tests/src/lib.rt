//! Worked examples of requests: texts with their tokens, groups and trees, texts and blocks with
//! their updates or refusals, values of filter expressions, pairs of solution mappings, and the
//! numbers of terms. It has tests alone.
#![tactic(auto)]

#[cfg(test)]
mod blocks_by_threads;
#[cfg(test)]
mod filters;
#[cfg(test)]
mod group_patterns;
#[cfg(test)]
mod kept_orders;
#[cfg(test)]
mod long_names;
#[cfg(test)]
mod mappings;
#[cfg(test)]
mod numbered_datasets;
#[cfg(test)]
mod parsed_groups;
#[cfg(test)]
mod quad_presence;
#[cfg(test)]
mod token_lists;
#[cfg(test)]
mod tokens;
#[cfg(test)]
mod update_texts;
