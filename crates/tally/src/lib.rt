// The count of cases, as the programs that try the edges of the calls keep and print it.
#![tactic(auto)]

ghost use Rattle.std.specs.Prelude.{◌≡◌, List, Some};
ghost use Rattle.std.specs.List.{fold};
ghost use Rattle.tally.specs.Tally.{no_cases, case_of, plus, text_of};

use std::fmt;
use std::iter::Sum;
use std::ops::Add;

// Cases that were tried, and how many of them went wrong.
#[derive(Clone, Copy)]
pub struct Tally {
    pub cases: u64,
    pub wrong: u64,
}

// A case that went right or wrong.
impl From<bool> for Tally {
    ghost from_gives = { λ right r. r ≡ case_of right };

    fn from(right: bool) -> Tally {
        Tally {
            cases: 1,
            wrong: if right { 0 } else { 1 },
        }
    }
}

// The cases of both.
impl Add for Tally {
    type Output = Tally;

    ghost add_gives = { λ a b r. r ≡ plus a b };

    fn add(self, other: Tally) -> Tally {
        Tally {
            cases: self.cases.wrapping_add(other.cases),
            wrong: self.wrong.wrapping_add(other.wrong),
        }
    }
}

// The cases of all.
impl Sum<Tally> for Tally {
    ghost sum_gives = { λ xs r. r ≡ fold plus no_cases xs };

    fn sum<I: Iterator<Item = Tally>>(iter: I) -> Tally {
        let mut total = Tally { cases: 0, wrong: 0 };
        for more in iter {
            total = total + more;
        }
        total
    }
}

// The end of a group's line.
impl fmt::Display for Tally {
    ghost output = { λ t. Some (text_of t) };

    fn fmt<W: fmt::Write>(&self, f: &mut fmt::Formatter<W>) -> fmt::Result {
        let cases = self.cases;
        let wrong = self.wrong;
        write!(f, "{cases} cases, {wrong} wrong")
    }
}
