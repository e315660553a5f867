//! Reads a text line by line by the table of `forms`, and goes on after a fault. The exact readers find where a text first goes wrong; this
//! reading finds what is wrong with that line and the later ones. A faulty line is taken too, as far as it can be understood, so that later
//! lines that depend on it aren't called faulty as well. Of one line, the first flaw alone is told: the tests come in the order of the
//! kinds of fault.

use crate::forms::{
    FORMS, LineForm, POOL, Place, USUAL_SIZE, USUAL_VOLUNTEERS, Word, before, form_like,
};
use crate::rows::{Checked, Done, first_of_rows};
use std::alloc::{AllocError, Global};
use text_lines::{fields, number_up_to, signed_number};

/// How many places a line may come too early, so that only what should come before it is called missing.
const MOST_SKIPPED: usize = 3;

/// The fields of a line.
pub(crate) type Fields<'a> = Vec<&'a [u8]>;

/// A category, a value or a volunteer. The first field is its name or id.
#[derive(Drop)]
pub(crate) struct Entry<'a> {
    /// The number of its line.
    pub(crate) line: usize,
    pub(crate) fields: Fields<'a>,
    /// The household of a volunteer.
    pub(crate) household: Option<&'a [u8]>,
    /// `Seated` or `Gone` if there is such a line about the volunteer, else the word of the line.
    pub(crate) standing: Word,
}

/// How far a text has been read, and what its lines gave.
#[derive(Drop)]
pub(crate) struct Reading<'a> {
    pub(crate) alloc: Global,
    /// The form of the text's first line: that of a pool, a bundle, a proof or a cover.
    pub(crate) form: &'static LineForm,
    pub(crate) place: Place,
    /// True if nothing shows how the text goes on, so that no further line is read.
    pub(crate) is_lost: bool,
    /// How many lines ended with a carriage return, and how many with a TAB too many.
    pub(crate) returns: usize,
    pub(crate) tabs: usize,
    /// True if the text is a bundle or has one.
    pub(crate) has_bundle: bool,
    /// The version that the text is read as: the one that it says until a line shows that it is another, or 0 if it says none.
    pub(crate) version: usize,
    pub(crate) size: usize,
    pub(crate) categories: Vec<Entry<'a>>,
    /// The values of each category.
    pub(crate) values: Vec<Vec<Entry<'a>>>,
    pub(crate) volunteers: Vec<Entry<'a>>,
    /// The number of the volunteer of the last household line, plus 1, or 0 if there is none yet; then the same for `seated` and `gone`.
    pub(crate) passed_households: usize,
    pub(crate) passed_standings: usize,
    pub(crate) total: i128,
    /// The sum of the weights of the panels.
    pub(crate) sum: i128,
    pub(crate) panels: usize,
    pub(crate) stages: usize,
    /// The number of the first faulty line, as the exact readers found it, and how many faulty lines from there on are told.
    pub(crate) first: usize,
    pub(crate) told: usize,
}

impl<'a> Reading<'a> {
    pub(crate) fn new(alloc: Global, first: usize) -> Reading<'a> {
        Reading {
            alloc,
            form: &FORMS[POOL],
            place: Place::FirstLine,
            is_lost: false,
            returns: 0,
            tabs: 0,
            has_bundle: false,
            version: 0,
            size: 0,
            categories: Vec::new(alloc),
            values: Vec::new(alloc),
            volunteers: Vec::new(alloc),
            passed_households: 0,
            passed_standings: 0,
            total: 0,
            sum: 0,
            panels: 0,
            stages: 0,
            first,
            told: 0,
        }
    }

    /// True if the text is a proof.
    pub(crate) fn is_proof(&self) -> bool {
        matches!(self.form.word, Word::Proof)
    }

    /// True if the text is a cover.
    pub(crate) fn is_cover(&self) -> bool {
        matches!(self.form.word, Word::Cover)
    }

    /// True if a line of this form belongs to texts of another sort: nodes to proofs, fronts to covers, and a cover is of a bundle.
    fn is_of_others(&self, form: &LineForm) -> bool {
        match form.word {
            Word::Front => !self.is_cover(),
            Word::Split | Word::Bound => self.is_cover(),
            Word::Pool => self.is_cover() && !self.has_bundle,
            _ => false,
        }
    }

    /// Takes the next line, of this number and without its LF. Returns words on what is wrong with it. If it isn't expected here, but soon,
    /// takes it as if the lines before it were only missing.
    pub(crate) fn take(&mut self, number: usize, raw: &'a [u8]) -> Checked {
        let line = raw.strip_suffix(b"\r").unwrap_or(raw);
        let field = before(line, b'\t');
        let mut word = field;
        if form_like(field).is_none() {
            word = before(field, b' ');
        }
        let Some(form) = form_like(word) else {
            return self.refuse(field, false);
        };
        let here = self.place as usize;
        let first = form.first as usize;
        let has_trees = self.is_proof() || self.is_cover();
        let is_here = first <= here && here <= form.last as usize;
        let may_come = first <= Place::Entries as usize
            || self.has_bundle && first <= Place::Stages as usize
            || has_trees && Place::None as usize <= first;
        let is_soon = may_come && here < first && first <= here.saturating_add(MOST_SKIPPED);
        if !is_here && !is_soon || self.is_of_others(form) {
            return self.refuse(field, false);
        }
        let unexpected = if is_soon {
            self.refuse(field, true)?
        } else {
            self.check_spelling(form, field, word)?
        };
        let mut rest = Vec::new(self.alloc);
        if word.len() < line.len() {
            rest = fields(self.alloc, &line[word.len() + 1..])?;
        }
        let ends = self.check_ends(form, &mut rest, line.len() < raw.len())?;
        let checked = self.check_fields(form, &rest)?;
        self.note(number, form, rest)?;
        match ends.or(unexpected).or(checked) {
            None => self.check_text(line),
            words => Ok(words),
        }
    }

    /// Returns words on a line that begins with this field and isn't expected here, but soon if `is_soon`.
    fn refuse(&mut self, field: &[u8], is_soon: bool) -> Checked {
        let (comes, _) = self.place.words();
        let is_entry = matches!(self.place, Place::Entries);
        let is_ended = matches!(self.place, Place::Nothing);
        let is_edge = is_ended || matches!(self.place, Place::FirstLine | Place::SecondOfProof);
        self.is_lost = is_edge && !is_soon;
        first_of_rows! { self.alloc; comes: Words(comes), shown: Shown(field);
            is_ended => "{comes}";
            is_entry && is_soon => "the line \"end\" of the pool is missing before this one";
            field.is_empty() => "the line is empty: {comes}";
            is_entry => "{shown} begins no line of a pool here: {comes}";
            true => "{shown} isn't expected here: {comes}";
        }
    }

    /// Removes empty fields at the end of a line that are more than it needs. Returns words on the first line with such fields, and on the
    /// first that ends with a carriage return.
    fn check_ends(&mut self, form: &LineForm, rest: &mut Fields<'a>, has_return: bool) -> Checked {
        let more = match form.word {
            Word::Volunteer => self.categories.len(),
            Word::Stage => self.volunteers.len(),
            _ => 0,
        };
        let mut kept = form.fields.len().saturating_add(more);
        for (i, field) in rest.iter().enumerate() {
            if !field.is_empty() {
                kept = kept.max(i.saturating_add(1));
            }
        }
        let has_tab = kept < rest.len();
        rest.truncate(kept);
        self.returns = self.returns.saturating_add(usize::from(has_return));
        self.tabs = self.tabs.saturating_add(usize::from(has_tab));
        first_of_rows! { self.alloc;;
            has_return && self.returns == 1 => "the line ends with a carriage return (CR LF, as Windows ends lines): save the file with line ends of Unix, LF alone";
            has_tab && self.tabs == 1 => "the line ends with a TAB, which begins one more field, an empty one: remove the TABs at the ends of lines";
        }
    }

    /// Goes on to the place after a line of this form, and notes what the line gives.
    fn note(&mut self, number: usize, form: &'static LineForm, rest: Fields<'a>) -> Done {
        let name = first_of(&rest);
        let weight = signed_number(name).unwrap_or(0);
        match form.word {
            Word::Proof | Word::Cover => self.form = form,
            Word::Bundle => {
                let has_trees = self.is_proof() || self.is_cover();
                self.form = if has_trees { self.form } else { form };
                self.has_bundle = true;
                self.version = version_said(name);
            }
            Word::Pool if !self.has_bundle => self.version = version_said(name),
            Word::Size => {
                self.size = number_at(&rest, 0);
                self.note_large();
            }
            Word::Total => self.total = weight,
            Word::Panel => {
                self.panels = self.panels.saturating_add(1);
                self.sum = self.sum.saturating_add(weight);
            }
            Word::Stage => self.stages = self.stages.saturating_add(1),
            _ => self.note_entry(number, form, rest)?,
        }
        self.place = match form.next {
            Place::Total if self.has_bundle => Place::Total,
            Place::Total if self.is_proof() => Place::None,
            Place::Total => Place::Nothing,
            Place::FirstTree if !self.is_proof() && !self.is_cover() => Place::Nothing,
            next => next,
        };
        Ok(())
    }

    /// Notes what a line between the size and the end of a pool gives.
    fn note_entry(&mut self, line: usize, form: &LineForm, fields: Fields<'a>) -> Done {
        let name = first_of(&fields);
        let last = fields.last().copied();
        let standing = form.word;
        let entry = Entry {
            line,
            fields,
            household: None,
            standing,
        };
        let is_early = self.volunteers.is_empty();
        let known = match standing {
            Word::Volunteer | Word::Household | Word::Seated | Word::Gone => {
                place_of(&self.volunteers, name)
            }
            _ => None,
        };
        match (standing, known) {
            (Word::Category, _) if is_early && place_of(&self.categories, name).is_none() => {
                self.categories.push(entry)?;
                self.values.push(Vec::new(self.alloc))?;
            }
            (Word::Value, _) if is_early => {
                if let Some(values) = self.values.last_mut()
                    && place_of(values, name).is_none()
                {
                    values.push(entry)?;
                }
            }
            (Word::Volunteer, None) => {
                self.volunteers.push(entry)?;
                self.note_large();
            }
            (Word::Household, Some(number)) => {
                self.passed_households = number.saturating_add(1);
                self.note_version();
                if let Some(volunteer) = self.volunteers.get_mut(number) {
                    volunteer.household = last;
                }
            }
            (Word::Seated | Word::Gone, Some(number)) => {
                self.passed_standings = number.saturating_add(1);
                self.note_version();
                if let Some(volunteer) = self.volunteers.get_mut(number) {
                    volunteer.standing = standing;
                }
            }
            _ => {}
        }
        Ok(())
    }
}

impl Reading<'_> {
    /// True if the pool is beyond the usual limits, as a pool of version 3 is.
    pub(crate) fn is_large(&self) -> bool {
        USUAL_SIZE < self.size || USUAL_VOLUNTEERS < self.volunteers.len()
    }

    /// Reads the text as one of version 3 from here on, if the pool is beyond the usual limits.
    fn note_large(&mut self) {
        if self.is_large() {
            self.version = 3;
        }
    }

    /// Reads the text as one of the version that its lines up to here call for.
    fn note_version(&mut self) {
        self.version = match (self.is_large(), self.passed_households) {
            (true, _) => 3,
            (false, 0) => 1,
            (false, _) => 2,
        };
    }
}

/// Returns the first field, or no bytes if there is none.
pub(crate) fn first_of<'a>(fields: &[&'a [u8]]) -> &'a [u8] {
    match fields.first() {
        Some(field) => field,
        None => b"",
    }
}

/// Returns the place of the entry of this name or id, if there is one.
pub(crate) fn place_of(entries: &[Entry], name: &[u8]) -> Option<usize> {
    for (place, entry) in entries.iter().enumerate() {
        if first_of(&entry.fields) == name {
            return Some(place);
        }
    }
    None
}

/// Returns the version that the field spells, or 0 if it spells none.
pub(crate) fn version_said(field: &[u8]) -> usize {
    number_up_to(3, field).unwrap_or(0)
}

/// Returns the number that the field at this place spells, or 0 if there is none.
pub(crate) fn number_at(fields: &[&[u8]], place: usize) -> usize {
    match fields.get(place) {
        Some(field) => number_up_to(usize::MAX, field).unwrap_or(0),
        None => 0,
    }
}
