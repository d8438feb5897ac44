//! Names of files in lines for people.

use std::fmt;
use std::fmt::{Display, Formatter};

/// A name that is shown with `?` for each control character, so that no name ends the line.
#[derive(Clone, Copy, Debug, PartialEq, Eq)]
pub struct ShownName<'a>(pub &'a str);

impl Display for ShownName<'_> {
    fn fmt<W: fmt::Write>(&self, f: &mut Formatter<W>) -> fmt::Result {
        for letter in self.0.chars() {
            f.write_char(if letter.is_control() { '?' } else { letter })?;
        }
        Ok(())
    }
}
