//! What lines are written to: a text in fixed room, or one on the heap.

ghost use Rattle.std.specs.Prelude.{◌≡◌, ℕ, ◌≤◌, List, [], ◌++◌, OnOk, length, decimal, string_bytes};
ghost use Rattle.questions.specs.Numbers.{refusal_line};
ghost use Rattle.text.specs.Room.{text_room, kept};
ghost use Rattle.text.proofs.Kept.{kept_then, kept_fits, kept_text};

use questions::Refusal;
use std::alloc::AllocError;
use std::convert::Infallible;
use text::Text;

/// What words are added to.
// Words, numbers and refusals by a call each, and not by `fmt::Write`: as far as that says, what is displayed may fail, and a text in fixed
// room never does.
pub(crate) trait Page {
    /// Why a word is not added.
    type Error;

    // The last page is the first with these bytes added. Of a text this is said where the first fits its room, as every text does.
    ghost adds: { Self → List ℕ → Self → Type 0 };

    /// Adds a word.
    fn add(&mut self, word: &str) -> Result<(), Self::Error>
        ensures { OnOk result (adds self.old word.now self.new) };

    /// Adds a number in decimal.
    fn add_number(&mut self, n: u64) -> Result<(), Self::Error>
        ensures { OnOk result (adds self.old (decimal n) self.new) };

    /// Adds a refusal, in the words that it displays.
    fn add_refusal(&mut self, refusal: Refusal) -> Result<(), Self::Error>
        ensures { OnOk result (adds self.old (refusal_line refusal) self.new) };

    ghost adds_nothing: { (p : Self) → adds p [] p };

    ghost adds_append: { (p q r : Self) (xs ys : List ℕ)
        → adds p xs q → adds q ys r → adds p (xs ++ ys) r };
}

/// What has no room is left out, so nothing fails.
impl Page for Text {
    type Error = Infallible;

    ghost adds = { λ p xs q. length p ≤ text_room → q ≡ kept (p ++ xs) };

    ghost adds_nothing = { kept_text };

    ghost adds_append = { λ p q r xs ys h k fits.
        kept_then p q r xs ys (h fits) (k (kept_fits q (p ++ xs) (h fits))) };

    fn add(&mut self, word: &str) -> Result<(), Infallible> {
        self.push_all(word.as_bytes());
        Ok(())
    }

    fn add_number(&mut self, n: u64) -> Result<(), Infallible> {
        self.push_decimal(n);
        Ok(())
    }

    // Word by word: what is displayed may fail, as far as `fmt::Write` says, and this never does.
    fn add_refusal(&mut self, refusal: Refusal) -> Result<(), Infallible> {
        self.push_all(b"no ");
        self.push_decimal(u64::from(refusal.question.number()));
        self.push(b' ');
        self.push_decimal(u64::from(refusal.item_shown()));
        Ok(())
    }
}

/// The heap may have no room.
impl Page for String {
    type Error = AllocError;

    ghost use Rattle.std.proofs.Common.{sym, ap, ◌∙◌, append_assoc, append-nil};

    ghost adds = { λ p xs q. string_bytes q ≡ string_bytes p ++ xs };

    ghost adds_nothing = { λ p. sym (append-nil (string_bytes p)) };

    ghost adds_append = { λ p q r xs ys h k.
        k ∙ (ap (λ l. l ++ ys) h ∙ append_assoc (string_bytes p) xs ys) };

    fn add(&mut self, word: &str) -> Result<(), AllocError> {
        self.push_str(word)
    }

    fn add_number(&mut self, n: u64) -> Result<(), AllocError> {
        write!(self, "{n}")
    }

    fn add_refusal(&mut self, refusal: Refusal) -> Result<(), AllocError> {
        write!(self, "{refusal}")
    }
}
