//! A refusal, and the line that shows it.

ghost use Rattle.std.specs.Prelude.{◌≡◌, Some};
ghost use Rattle.questions.specs.Numbers.{of_no_item, item_shown, refusal_line};

use crate::limits::NO_ITEM;
use crate::question::Question;
use std::fmt;

/// The first question that failed, and the index of the item that it was asked of, if it was asked of one.
#[derive(Clone, Copy, PartialEq, Eq)]
pub struct Refusal {
    pub question: Question,
    pub item: Option<u8>,
}

impl Refusal {
    /// The number that is shown for its item: 255 where there is none.
    pub fn item_shown(self) -> u8
        ensures { result ≡ item_shown self.item }
    {
        self.item.unwrap_or(NO_ITEM)
    }
}

/// A question that is not asked of an item.
impl From<Question> for Refusal {
    ghost from_gives = { λ q r. r ≡ of_no_item q };

    fn from(question: Question) -> Refusal {
        Refusal {
            question,
            item: None,
        }
    }
}

/// `no QUESTION ITEM`, in decimal, with 255 for no item.
impl fmt::Display for Refusal {
    ghost output = { λ r. Some (refusal_line r) };

    fn fmt<W: fmt::Write>(&self, f: &mut fmt::Formatter<W>) -> fmt::Result {
        let question = self.question.number();
        let item = self.item_shown();
        write!(f, "no {question} {item}")
    }
}
