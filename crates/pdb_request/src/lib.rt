//! What the words of the command line ask for: a type for each command, as plain data.
#![tactic(auto)]

mod requests;

pub use requests::{
    JoinParts, LogCheck, LogClaim, MakeTable, Prove, Replay, Request, Solve, TableCheck,
};
