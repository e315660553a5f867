//! Says in words what a right text holds, with hints on what is allowed but often a mistake.

use crate::forms::Word;
use crate::reading::{Entry, Reading, first_of, number_at};
use crate::rows::{Done, say};
use std::alloc::{AllocError, Global};

/// Says what the bytes hold, which are a right text.
pub(crate) fn summary(alloc: Global, bytes: &[u8]) -> Result<String, AllocError> {
    let mut reading = Reading::new(alloc, 0);
    for line in bytes.split(|byte| *byte == b'\n') {
        if !line.is_empty() {
            let _ = reading.take(0, line)?;
        }
    }
    let mut text = String::new(alloc);
    let is_proof = reading.is_proof();
    let is_cover = reading.is_cover();
    say! { &mut text; form: Words(reading.form.spelling), version: Number(reading.version);
        is_proof => "This is a proof, and each of its lines is right.";
        is_cover => "This is a cover, and each of its lines is right.";
        !is_proof && !is_cover => "This is a {form} of version {version}, and each of its lines is right.";
    };
    push_pool(&mut text, &reading)?;
    for (i, values) in reading.values.iter().enumerate() {
        push_category(&mut text, &reading, i, values)?;
    }
    let total = reading.total;
    let sum = reading.sum;
    let has_bundle = reading.has_bundle;
    say! { &mut text;
        panels: Counted(reading.panels, "panel", "panels"), stages: Counted(reading.stages, "stage", "stages"), total: Whole(total),
        sum: Whole(sum);
        has_bundle => "Its lottery has {panels} and the total {total}; its certificate has {stages}.";
        total != sum => "Hint: the weights of the panels sum to {sum}, and the total is {total}: draw, dice, tickets and chances refuse this.";
        is_proof && !has_bundle => "It is to show that no panel meets the quotas.";
        is_proof => "Whether it is valid, `verify` says: ./sortition verify < FILE";
        is_cover => "Whether it is valid, `check-cover` says: ./sortition check-cover < FILE";
        has_bundle && !is_proof && !is_cover => "Whether its lottery is the right one, `check` says, or `prove` and then `verify`.";
    };
    Ok(text)
}

/// Says how many volunteers the pool has, and what is odd about their number and their households.
fn push_pool(text: &mut String, reading: &Reading) -> Done {
    let mut seated: usize = 0;
    let mut gone: usize = 0;
    let mut housed: usize = 0;
    for volunteer in reading.volunteers.iter() {
        seated = seated.saturating_add(usize::from(matches!(volunteer.standing, Word::Seated)));
        gone = gone.saturating_add(usize::from(matches!(volunteer.standing, Word::Gone)));
        housed = housed.saturating_add(usize::from(volunteer.household.is_some()));
    }
    let size = reading.size;
    let all = reading.volunteers.len();
    let left = all.saturating_sub(gone);
    say! { text;
        volunteers: Counted(all, "volunteer", "volunteers"), size: Number(size), seated: Number(seated), gone: Number(gone),
        left: Number(left), housed: Number(housed);
        true => "The pool has {volunteers} for a panel of {size}.";
        0 < seated || 0 < gone => "Seated: {seated}; gone: {gone}.";
        left < size => "Hint: a panel of {size} is wanted, and only {left} of the volunteers aren't gone.";
        size < seated => "Hint: {seated} are seated, and the panel is of {size} only.";
        0 < housed => "With a household: {housed}; no two of one household are on a panel.";
    };
    for (i, volunteer) in reading.volunteers.iter().enumerate() {
        let name = volunteer.household;
        let mut others: usize = 0;
        for earlier in reading.volunteers.iter().take(i) {
            others = others.saturating_add(usize::from(earlier.household == name));
        }
        say! { text; household: Shown(name.unwrap_or(b"")); name.is_some() && others == 9 => "Hint: household {household} has 10 members or more, of whom at most one can be chosen. Is it a household?"; };
    }
    Ok(())
}

/// Says what the bounds of a category's values are, and how many volunteers who aren't gone have each value; and what is odd about these.
fn push_category<'a>(
    text: &mut String,
    reading: &Reading<'a>,
    place: usize,
    values: &[Entry<'a>],
) -> Done {
    let name = match reading.categories.get(place) {
        Some(category) => first_of(&category.fields),
        None => b"",
    };
    let mut least: usize = 0;
    let mut most: usize = 0;
    say! { text; name: Shown(name), number: Counted(values.len(), "value", "values"); true => "Category {name} has {number}:"; };
    for value in values {
        let value_name = first_of(&value.fields);
        let lower = number_at(&value.fields, 1);
        let upper = number_at(&value.fields, 2);
        least = least.saturating_add(lower);
        most = most.saturating_add(upper);
        let mut having: usize = 0;
        for volunteer in reading.volunteers.iter() {
            let given = volunteer.fields.get(place.saturating_add(1));
            let is_gone = matches!(volunteer.standing, Word::Gone);
            let has = !is_gone && given == Some(&value_name);
            having = having.saturating_add(usize::from(has));
        }
        say! { text;
            shown: Shown(value_name), name: Shown(name), lower: Number(lower), upper: Number(upper), having: Number(having);
            true => "  {shown}: {lower} to {upper} members; {having} who aren't gone have it.";
            having < lower => "Hint: {shown} of {name} is asked of at least {lower} on the panel, and only {having} who aren't gone have it.";
            value_name.trim_ascii().len() < value_name.len() => "Hint: the name {shown} has a blank at an end.";
        };
    }
    let size = reading.size;
    let has_values = !values.is_empty();
    say! { text; name: Shown(name), least: Number(least), most: Number(most), size: Number(size);
        size < least => "Hint: the lower bounds of {name} sum to {least}, above the size {size}, so no panel meets them.";
        has_values && most < size => "Hint: the upper bounds of {name} sum to {most}, below the size {size}, so no panel meets them.";
    };
    Ok(())
}
