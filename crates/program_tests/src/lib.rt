//! The engines over readers and writers that are slow or fail, and over files; what a gate sees of
//! a run; and command lines with the jobs that they ask for. Bases and blocks with their answers are
//! in rows/.
#![tactic(auto)]

#[cfg(test)]
mod checks;
#[cfg(test)]
mod command_lines;
#[cfg(test)]
mod failing_devices;
#[cfg(test)]
mod files;
#[cfg(test)]
mod gates;
#[cfg(test)]
mod journals;
#[cfg(test)]
mod late_writers;
