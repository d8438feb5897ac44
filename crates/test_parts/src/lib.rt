//! Tests of boards, placements, kernels, claims and strings of moves; of the book of jobs, workers and progress; of tables, their maker
//! and edge words; of sets, logs, the maker of logs, and searches that refute without a log.
#![tactic(auto)]

#[cfg(test)]
mod answers;
#[cfg(test)]
mod bits;
#[cfg(test)]
mod boards;
#[cfg(test)]
mod books;
#[cfg(test)]
mod bundles;
#[cfg(test)]
mod cores;
#[cfg(test)]
mod drafts;
#[cfg(test)]
mod files;
#[cfg(test)]
mod finding;
#[cfg(test)]
mod gates;
#[cfg(test)]
mod given;
#[cfg(test)]
mod korf_board;
#[cfg(test)]
mod lanes;
#[cfg(test)]
mod log_limits;
#[cfg(test)]
mod logs;
#[cfg(test)]
mod made_logs;
#[cfg(test)]
mod made_tables;
#[cfg(test)]
mod meetings;
#[cfg(test)]
mod placements;
#[cfg(test)]
mod progress;
#[cfg(test)]
mod reach;
#[cfg(test)]
mod ring_words;
#[cfg(test)]
mod runs;
#[cfg(test)]
mod same;
#[cfg(test)]
mod shares;
#[cfg(test)]
mod stages;
#[cfg(test)]
mod starts;
#[cfg(test)]
mod summed_boards;
#[cfg(test)]
mod tables;
#[cfg(test)]
mod texts;
#[cfg(test)]
mod walks;
#[cfg(test)]
mod watched;
#[cfg(test)]
mod watched_makers;
#[cfg(test)]
mod workers;
