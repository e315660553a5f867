//! Tests the fields of a line that may stand where it is.

use crate::forms::{LARGE_VOLUNTEERS, LineForm, Place, USUAL_VOLUNTEERS, Word};
use crate::reading::{Entry, Reading, first_of, number_at, place_of, version_said};
use crate::rows::{Checked, first_of_rows};
use std::alloc::{AllocError, Global};
use std::str;
use text_lines::{fields, signed_number};

impl Reading<'_> {
    /// Tests whether the first field is spelt as the word of the form. `word` is the part of the field that was taken for the word.
    pub(crate) fn check_spelling(&self, form: &LineForm, field: &[u8], word: &[u8]) -> Checked {
        let right = form.spelling;
        first_of_rows! { self.alloc; shown: Shown(field), right: Words(right);
            word.len() < field.len() => "{shown} has a blank in the place of a TAB: fields are separated by one TAB each";
            field != right.as_bytes() => "the line begins with {shown}, and the word is spelt \"{right}\": in small letters, and without blanks";
        }
    }

    /// Tests the fields after the word of a line of this form.
    pub(crate) fn check_fields(&self, form: &LineForm, rest: &[&[u8]]) -> Checked {
        let given = rest.len();
        let is_counted = match given.checked_sub(form.fields.len()) {
            Some(more) if matches!(form.word, Word::Stage) => more == self.volunteers.len(),
            Some(more) if !form.more.is_empty() => more % form.more.len() == 0,
            more => more == Some(0),
        };
        let name = first_of(rest);
        let is_other = self.has_bundle && 0 < self.version && version_said(name) != self.version;
        let (comes, _) = Place::PoolOfBundle.words();
        let is_category = matches!(form.word, Word::Category);
        let is_late = matches!(form.word, Word::Category | Word::Value)
            && !self.volunteers.is_empty();
        let words = first_of_rows! { self.alloc;
            spelling: Words(form.spelling), has: Words(form.has), given: Number(given), comes: Words(comes);
            is_late => "all categories and values come before the first volunteer";
            !is_counted => "\"{spelling}\" has {has}; here it has {given}";
            is_other && matches!(form.word, Word::Pool) => "{comes}";
            is_category && place_of(&self.categories, name).is_some() => "a category of this name came before";
        }?;
        if words.is_some() {
            return Ok(words);
        }
        match form.word {
            Word::Category => self.check_name(name, self.categories.len(), 20),
            Word::Value => self.check_value(form, name, rest),
            Word::Volunteer => self.check_volunteer(name, rest),
            Word::Household | Word::Seated | Word::Gone | Word::End => {
                self.check_person(form, name, rest)
            }
            _ => self.check_numbers(form, rest),
        }
    }

    fn check_value(&self, form: &LineForm, name: &[u8], rest: &[&[u8]]) -> Checked {
        let (Some(category), Some(values)) = (self.categories.last(), self.values.last()) else {
            return first_of_rows! { self.alloc;; true => "a value comes after its category, and no category came yet"; };
        };
        let numbers = self.check_numbers(form, rest)?;
        let lower = number_at(rest, 1);
        let upper = number_at(rest, 2);
        let words = first_of_rows! { self.alloc;
            category: Shown(first_of(&category.fields)), lower: Number(lower), upper: Number(upper);
            place_of(values, name).is_some() => "category {category} has this value already";
            numbers.is_none() && upper < lower => "lower bound {lower} is above upper bound {upper}";
        };
        match words?.or(numbers) {
            None => self.check_name(name, values.len(), 50),
            words => Ok(words),
        }
    }

    fn check_volunteer(&self, id: &[u8], rest: &[&[u8]]) -> Checked {
        let is_late = 0 < self.passed_households || 0 < self.passed_standings;
        if is_late {
            return first_of_rows! { self.alloc;; true => "all volunteers come before the lines of households, seated and gone"; };
        }
        let names = rest.iter().skip(1);
        for ((category, values), name) in self
            .categories
            .iter()
            .zip(self.values.iter())
            .zip(names)
        {
            if place_of(values, name).is_none() {
                return self.refuse_value(category, values, name);
            }
        }
        let given = rest.len().saturating_sub(1);
        let wanted = self.categories.len();
        let mut line = 0;
        for earlier in self.volunteers.iter() {
            if first_of(&earlier.fields) == id {
                line = earlier.line;
            }
        }
        let words = first_of_rows! { self.alloc;
            values: Counted(given, "value", "values"), categories: Counted(wanted, "category", "categories"),
            names: Listed(&self.categories), line: Number(line);
            given != wanted => "the volunteer has {values}, and the pool has {categories} ({names})";
            0 < line => "this id is that of the volunteer in line {line}";
        };
        match words? {
            None if self.version == 1 || self.version == 2 => {
                self.check_name(id, self.volunteers.len(), USUAL_VOLUNTEERS)
            }
            None => self.check_name(id, self.volunteers.len(), LARGE_VOLUNTEERS),
            words => Ok(words),
        }
    }

    /// Returns words on a value that isn't one of its category, and on what may be wrong.
    fn refuse_value(&self, category: &Entry, values: &[Entry], given: &[u8]) -> Checked {
        let plain = plain_letters(self.alloc, given)?;
        let mut meant: &[u8] = b"";
        for value in values {
            if meant.is_empty() && plain_letters(self.alloc, first_of(&value.fields))? == plain {
                meant = first_of(&value.fields);
            }
        }
        let mut other: &[u8] = b"";
        for (category, values) in self.categories.iter().zip(self.values.iter()) {
            if place_of(values, given).is_some() {
                other = first_of(&category.fields);
            }
        }
        let has_meant = !plain.is_empty() && !meant.is_empty();
        let has_other = !other.is_empty();
        first_of_rows! { self.alloc;
            shown: Shown(given), of: Shown(first_of(&category.fields)), names: Listed(values), meant: Shown(meant), other: Shown(other);
            given.is_empty() => "{shown} is no value of {of} ({names}): the field is empty";
            has_meant => "{shown} is no value of {of} ({names}); perhaps {meant} is meant";
            has_other => "{shown} is no value of {of} ({names}); it is one of {other}, and values come in the order of the categories";
            true => "{shown} is no value of {of} ({names})";
        }
    }

    /// Tests a line about a volunteer with this id, or the end of a pool, which may come where `seated` and `gone` may.
    fn check_person(&self, form: &LineForm, id: &[u8], rest: &[&[u8]]) -> Checked {
        let is_home = matches!(form.word, Word::Household);
        let is_end = matches!(form.word, Word::End);
        let passed = if is_home {
            self.passed_households
        } else {
            self.passed_standings
        };
        let number = place_of(&self.volunteers, id);
        let is_behind = number < Some(passed);
        let is_small = self.version == 3 && 0 < self.size && !self.is_large();
        let words =
            first_of_rows! { self.alloc; volunteers: Number(self.volunteers.len()), size: Number(self.size);
            is_home && self.version == 1 => "a text with households says 2 in its first line, in a bundle in the lines \"bundle\" and \"pool\"; this one says 1";
            is_home && 0 < self.passed_standings => "all households come before the lines \"seated\" and \"gone\"";
            is_small => "the text says version 3, which a text with more than 400 volunteers or a size above 200 has; here there are {volunteers} and the size is {size}, so it says version 2 if it has households, else version 1";
            !is_home && self.version == 2 && self.passed_households == 0 => "the text says version 2, which a text with households has, and no household came; without any it says version 1";
            !is_end && number.is_none() => "no volunteer has this id";
            !is_end && is_behind => "this volunteer doesn't come after the one of the line before: such lines are in the order of the volunteers, at most one for each";
        };
        match (words?, rest) {
            (None, [_, household]) => self.check_name(household, 0, 1),
            (words, _) => Ok(words),
        }
    }

    /// Tests a name or an id, of something of which there are `count` already and may be `most`.
    fn check_name(&self, name: &[u8], count: usize, most: usize) -> Checked {
        let length = name.len();
        first_of_rows! { self.alloc; length: Number(length), shown: Shown(name), most: Number(most);
            length == 0 => "the name or id is empty";
            200 < length => "the name or id has {length} bytes, and 200 are the most";
            name.iter().any(u8::is_ascii_control) => "{shown} has a control character, which no name or id may have";
            most <= count && most == USUAL_VOLUNTEERS => "this is one too many: {most} are the most in version 1 and 2; a text with more says 3 in its first line, in a bundle in the lines \"bundle\" and \"pool\"";
            most <= count => "this is one too many: {most} are the most";
        }
    }

    /// Tests the fields that are numbers.
    fn check_numbers(&self, form: &LineForm, rest: &[&[u8]]) -> Checked {
        let volunteers = self.volunteers.len();
        let last = volunteers as i128 - 1;
        let is_large = if matches!(form.word, Word::Size) {
            self.version == 3
        } else {
            USUAL_VOLUNTEERS < volunteers
        };
        let mut least = 0;
        for (i, text) in rest.iter().enumerate() {
            let (what, from, usual, large, words) = form.field(i);
            if what.is_empty() {
                continue;
            }
            let is_person = what == "volunteer";
            let is_rising = is_person || what == "constraint";
            let to = match (is_person, is_large) {
                (true, _) => last,
                (false, true) => large,
                (false, false) => usual,
            };
            let number = signed_number(text);
            let is_zero = what == "multiplier" && number == Some(0);
            let is_right = Some(from) <= number && number <= Some(to) && !is_zero;
            if !is_right {
                return self.refuse_number(form, i, text, what, words);
            }
            if is_rising && number < Some(least) {
                return first_of_rows! { self.alloc; shown: Shown(text), place: Number(i.saturating_add(1));
                    true => "{shown} (field {place}) isn't above the number of its sort before it";
                };
            }
            least = match number {
                Some(number) if is_rising => number.saturating_add(1),
                _ => least,
            };
        }
        Ok(None)
    }

    /// Says that field `i` isn't the number that may stand there, and what may.
    fn refuse_number<'b>(
        &self,
        form: &LineForm,
        i: usize,
        text: &'b [u8],
        what: &'b str,
        words: &'b str,
    ) -> Checked {
        first_of_rows! { self.alloc;
            shown: Shown(text), place: Number(i.saturating_add(1)), volunteers: Number(self.volunteers.len()), what: Words(what),
            words: Words(words);
            what == "volunteer" => "{shown} (field {place}) is no volunteer: there are {volunteers}, and they are numbered from 0 on";
            form.more.is_empty() => "{shown} is no {what}: it is {words}, in plain digits";
            true => "{shown} (field {place}) is no {what}: it is {words}, in plain digits";
        }
    }

    /// Tests whether the line is UTF-8.
    pub(crate) fn check_text(&self, line: &[u8]) -> Checked {
        if str::from_utf8(line).is_ok() {
            return Ok(None);
        }
        for field in fields(self.alloc, line)? {
            if str::from_utf8(field).is_err() {
                let mut latin = String::new(self.alloc);
                for byte in field.iter().take(60) {
                    latin.push(char::from(*byte))?;
                }
                return refuse_bytes(self.alloc, field, latin.as_bytes());
            }
        }
        Ok(None)
    }
}

/// Says that a field isn't UTF-8, and what its bytes are in Latin-1.
fn refuse_bytes<'b>(alloc: Global, field: &'b [u8], latin: &'b [u8]) -> Checked {
    first_of_rows! { alloc; shown: Shown(field), latin: Shown(latin);
        true => "{shown} isn't UTF-8; in Latin-1, the old character set, it is {latin}: save the file as UTF-8";
    }
}

/// Returns the ASCII letters and digits of a name, in lower case.
fn plain_letters(alloc: Global, name: &[u8]) -> Result<Vec<u8>, AllocError> {
    let mut letters = Vec::new(alloc);
    for byte in name {
        if byte.is_ascii_alphanumeric() {
            letters.push(byte.to_ascii_lowercase())?;
        }
    }
    Ok(letters)
}
