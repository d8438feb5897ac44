//! Tests of words, streams, shelves and sentences; of each command; and of whole runs, from the words to the bytes that go out and the
//! status.
#![tactic(auto)]

#[cfg(test)]
mod answers;
#[cfg(test)]
mod asked;
#[cfg(test)]
mod bytes;
#[cfg(test)]
mod calls;
#[cfg(test)]
mod commands;
#[cfg(test)]
mod disks;
#[cfg(test)]
mod early;
#[cfg(test)]
mod failing_shelves;
#[cfg(test)]
mod faulty;
#[cfg(test)]
mod files;
#[cfg(test)]
mod gates;
#[cfg(test)]
mod in_memory;
#[cfg(test)]
#[cfg(test)]
mod keeping;
#[cfg(test)]
mod memory;
#[cfg(test)]
mod real_files;
#[cfg(test)]
mod reasons;
#[cfg(test)]
mod runs;
#[cfg(test)]
mod same;
#[cfg(test)]
mod sha256;
#[cfg(test)]
mod shelves;
#[cfg(test)]
mod starts;
#[cfg(test)]
mod streams;
#[cfg(test)]
mod tasks;
#[cfg(test)]
mod verdicts;
#[cfg(test)]
mod words;
#[cfg(test)]
mod workers;
