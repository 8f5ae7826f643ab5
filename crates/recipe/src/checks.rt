ghost use Rattle.std.specs.Prelude.{◌≡◌, ◌+◌, ◌^◌, ◌<◌, true, [], ◌∷◌, pos};
ghost use Rattle.recipe.specs.Fields.{is_word};
ghost use Rattle.recipe.specs.Promises.{Counted, Counts, Held, Judged, fields_in, stands_for, wrong_count, wrong_from, wrong_head};
ghost use Rattle.recipe.specs.Rules.{between, listed, same, field as at, number as number_at};

use crate::fault::{Cause, Fault};
use crate::field::Field;
use crate::line::Line;
use crate::numbers::value_within;

impl Line<'_> {
    // The fault of field `k`, from 0; faults name fields from 1.
    pub(crate) fn fault(&self, cause: Cause, k: u8) -> Fault
        ensures { result ≡ record { cause = cause; line = self.now.number; field = k + 1 } }
    {
        Fault {
            cause,
            line: self.number,
            field: usize::from(k) + 1,
        }
    }

    // Whether the first field is `word`.
    pub(crate) fn begins(&self, word: &[u8]) -> bool
        requires { is_word word.now ≡ true }
        ensures { result ≡ same (at (fields_in self.now) 0) word.now }
    {
        let Field::Word(first) = self.field(0) else {
            return false;
        };
        first == word
    }

    // Refuses a line that has not from `least` to `greatest` fields behind its word; the answer is how many it has.
    pub(crate) fn check_count(&self, least: usize, greatest: usize) -> Result<usize, Fault>
        ensures { Counts (wrong_count least greatest self.now) self.now result }
    {
        let behind = self.commas();
        if !(least..=greatest).contains(&behind) {
            return Err(self.fault(Cause::FieldCount, 0));
        }
        Ok(behind)
    }

    // Refuses a line that does not begin with `word`, and then one whose number of fields is wrong.
    // The answer is how many it has behind its word.
    pub(crate) fn check_head(
        &self,
        word: &[u8],
        least: usize,
        greatest: usize,
    ) -> Result<usize, Fault>
        requires { is_word word.now ≡ true }
        ensures { Counts (wrong_head word.now least greatest self.now) self.now result }
    {
        if !self.begins(word) {
            return Err(self.fault(Cause::WordDue, 0));
        }
        self.check_count(least, greatest)
    }

    // The number in field `k`, if it is one between the limits.
    // They are two numbers, since a range may also be spent, and each contract would have to rule that out;
    // no struct either: it would be made at each call and taken apart here, and nothing keeps it.
    pub(crate) fn number(&self, k: u8, least: i32, greatest: i32) -> Result<i32, Fault>
        ensures { Judged (wrong_from self.now k (between least greatest ∷ [])) (Held least greatest (number_at (fields_in self.now) k)) result }
    {
        let Field::Number(digits) = self.field(usize::from(k)) else {
            return Err(self.fault(Cause::NotListed, k));
        };
        // A match, and no `ok_or`: this stands in each number's way, and making the fault of every number takes longer than reading it.
        match value_within(digits, least, greatest) {
            Some(value) => Ok(value),
            None => Err(self.fault(Cause::OutsideLimit, k)),
        }
    }

    // The number in field `k`, if it is one from `least` to `greatest`.
    pub(crate) fn natural(&self, k: u8, least: usize, greatest: usize) -> Result<usize, Fault>
        requires low { least < 2 ^ 31 }
        requires high { greatest < 2 ^ 31 }
        ensures { Judged (wrong_from self.now k (between (pos least) (pos greatest) ∷ [])) (Counted least greatest (number_at (fields_in self.now) k)) result }
    {
        // Casts that lose nothing, as the check proves: `try_from` would ask for an answer where it fails.
        let value = self.number(k, least as i32, greatest as i32)?;
        Ok(value as usize)
    }

    // What the word in field `k` stands for: it must be one of two.
    pub(crate) fn one_of<T: Copy>(
        &self,
        k: u8,
        first: (&[u8], T),
        second: (&[u8], T),
    ) -> Result<T, Fault>
        ensures { Judged (wrong_from self.now k (listed (first.entry.0.now ∷ second.entry.0.now ∷ []) ∷ [])) (λ x. x ≡ stands_for (at (fields_in self.now) k) first.entry second.entry) result }
    {
        let Field::Word(word) = self.field(usize::from(k)) else {
            return Err(self.fault(Cause::NotListed, k));
        };
        if word == first.0 {
            return Ok(first.1);
        }
        if word == second.0 {
            return Ok(second.1);
        }
        Err(self.fault(Cause::NotListed, k))
    }
}
