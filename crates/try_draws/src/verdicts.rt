// What a call says of itself, behind the words that name it.
use refusal::Verdict;
use std::fmt;
use std::fmt::Display;

#[derive(Clone, Copy)]
pub struct Told(pub Verdict);

impl Display for Told {
    fn fmt<W: fmt::Write>(&self, f: &mut fmt::Formatter<W>) -> fmt::Result {
        if self.0.accepted() {
            return f.write_str(": accepted");
        }
        write!(f, ": refused by {}", self.0.number())
    }
}
