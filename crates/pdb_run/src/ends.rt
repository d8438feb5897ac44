//! How a run ended, and why without a yes.

ghost use Rattle.std.specs.Prelude.{◌≡◌};
ghost use Rattle.pdb_run.specs.Ended.{HasItsStatus, status_by};
ghost use Rattle.pdb_run.specs.Runs.{status_of_reply};

use crate::mistakes::Mistake;
use crate::statuses::Status;

/// Why a run ended without a yes. `F` is the fault of what was checked or made.
#[derive(Clone, Copy, Debug, PartialEq, Eq)]
pub enum Cause<'n, F> {
    /// The input of this name, or the reader, can't be read.
    Unread(Option<&'n str>),
    /// The input of this name, or the reader, has more bytes than it may have.
    TooLong(Option<&'n str>),
    /// What is under this name is spared.
    Spared(&'n str),
    /// Nothing can be kept under this name.
    Unkept(&'n str),
    /// The output didn't take all that was to be written.
    Unwritten,
    /// The words ask for nothing.
    Words,
    /// What was made is wrong.
    MadeWrong,
    /// Memory was refused.
    NoMemory,
    /// A refusal: of several claims that of the last one.
    Refused(F),
    /// Of several claims or parts some are open, as the lines say; if of claims, the last one is not refused.
    Open,
}

/// Where a line that is no claim goes wrong.
#[derive(Clone, Copy, Debug, PartialEq, Eq)]
pub struct Spot {
    /// The column, from 1.
    pub column: usize,
    /// What is wrong from there on.
    pub what: Mistake,
}

/// How many claims were answered how.
#[derive(Clone, Copy, Debug, PartialEq, Eq)]
pub struct Tally {
    /// How many claims there are.
    pub claims: usize,
    pub optima: usize,
    pub bounds: usize,
    pub parts: usize,
    pub refused: usize,
    /// How many are refused whose boards were read for the first goal, and have a solution for the last one alone.
    pub solvable_last: usize,
}

/// What is told of a run to people alone.
#[derive(Clone, Copy, Debug, PartialEq, Eq)]
pub enum Beside {
    Nothing,
    /// The line that is refused goes wrong here.
    Spot(Spot),
    /// Claims were answered so.
    Tally(Tally),
}

/// How a run ended.
#[derive(Clone, Copy, Debug)]
pub struct Ended<'n, F> {
    pub status: Status,
    /// Why it ended without a yes, if it did.
    pub why: Option<Cause<'n, F>>,
    pub beside: Beside,
}

impl<'n, F: Copy> Ended<'n, F> {
    /// The end of a run that has this cause to end without a yes, if any.
    pub fn by(why: Option<Cause<'n, F>>) -> Ended<'n, F>
        ensures caused { HasItsStatus result }
        ensures status { result.status ≡ status_by why.entry }
        ensures why { result.why ≡ why.entry }
    {
        let status = match why {
            None => Status::Yes,
            Some(Cause::Refused(_) | Cause::Open) => Status::Refused,
            Some(Cause::NoMemory) => Status::NoMemory,
            Some(
                Cause::Unread(_)
                | Cause::TooLong(_)
                | Cause::Spared(_)
                | Cause::Unkept(_)
                | Cause::Unwritten
                | Cause::Words
                | Cause::MadeWrong,
            ) => Status::Fault,
        };
        Ended {
            status,
            why,
            beside: Beside::Nothing,
        }
    }

    /// The same, with this to tell to people.
    pub fn telling(self, beside: Beside) -> Ended<'n, F>
        ensures status { result.status ≡ self.entry.status }
        ensures why { result.why ≡ self.entry.why }
    {
        Ended { beside, ..self }
    }

    /// The end of a run whose answer is a yes, or not, for this fault, where that has one cause.
    pub fn answered(is_yes: bool, fault: Option<F>) -> Ended<'n, F>
        ensures caused { HasItsStatus result }
        ensures status { result.status ≡ status_of_reply is_yes }
    {
        match fault {
            _ if is_yes => Ended::by(None),
            Some(fault) => Ended::by(Some(Cause::Refused(fault))),
            None => Ended::by(Some(Cause::Open)),
        }
    }
}
