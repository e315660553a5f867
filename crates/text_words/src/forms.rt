//! The table of lines: the word that each begins with, where it may stand, and what its fields are.

/// A word that a line begins with.
#[derive(Clone, Copy)]
pub(crate) enum Word {
    Proof,
    Bundle,
    Pool,
    Size,
    Category,
    Value,
    Volunteer,
    Household,
    Seated,
    Gone,
    End,
    Total,
    Panel,
    Stage,
    Done,
    None,
    Tree,
    Split,
    Bound,
    Close,
    Cover,
    Front,
}

/// A place in a text, by what stands there. The places are in the order of a text.
#[derive(Clone, Copy)]
pub(crate) enum Place {
    FirstLine,
    SecondOfProof,
    PoolOfBundle,
    Size,
    Entries,
    Total,
    FirstPanel,
    Panels,
    Stages,
    None,
    FirstTree,
    Trees,
    Nothing,
}

/// What a field is: what its number is called, the least, the greatest within the usual limits and that within the large ones, and words
/// for these. Any bytes, if the number has no name.
pub(crate) type Field = (&'static str, i128, i128, i128, &'static str);

const TEXT: Field = ("", 0, 0, 0, "");

/// The number of a volunteer, which `checking` tests against the number of volunteers.
const MEMBER: Field = ("volunteer", 0, 399, 3999, "the number of a volunteer");

const WEIGHT: Field = (
    "weight",
    1,
    MOST_WEIGHT,
    MOST_WEIGHT,
    "a number from 1 to 10^38",
);

/// The most volunteers within the usual limits, and within the large ones, which a text of version 3 has.
pub(crate) const USUAL_VOLUNTEERS: usize = 400;

pub(crate) const LARGE_VOLUNTEERS: usize = 4000;

/// The greatest size of a panel within the usual limits.
pub(crate) const USUAL_SIZE: usize = 200;

/// The version of a proof or a cover, and that of a pool or a bundle.
const ONE: Field = ("version", 1, 1, 1, "1");

const VERSION: Field = ("version", 1, 3, 3, "1, 2 or 3");

/// The greatest total, and the greatest weight of a panel: 10^38.
const MOST_WEIGHT: i128 = 100_000_000_000_000_000_000_000_000_000_000_000_000;

/// The greatest scale, and the greatest multiplier: 2^56.
const MOST_SCALE: i128 = 72_057_594_037_927_936;

/// A cap or a weight of a stage.
const WHOLE: Field = (
    "cap or weight",
    -i128::MAX,
    i128::MAX,
    i128::MAX,
    "a whole number of at most 2^127 - 1",
);

/// What all lines with one word are like.
pub(crate) struct LineForm {
    pub(crate) word: Word,
    pub(crate) spelling: &'static str,
    /// The first and the last place where such a line may stand, and the place after it.
    pub(crate) first: Place,
    pub(crate) last: Place,
    pub(crate) next: Place,
    /// The fields after the word, and those that may follow them, as often as one likes.
    pub(crate) fields: &'static [Field],
    pub(crate) more: &'static [Field],
    /// Words for the fields.
    pub(crate) has: &'static str,
}

/// A table of line forms, with a row for each.
macro_rules! forms {
    ($($word:ident $spelling:literal $first:ident - $last:ident > $next:ident [$($field:expr),*] [$($more:expr),*] $has:literal)*) => {
        [$(LineForm {
            word: Word::$word,
            spelling: $spelling,
            first: Place::$first,
            last: Place::$last,
            next: Place::$next,
            fields: &[$($field),*],
            more: &[$($more),*],
            has: $has,
        }),*]
    };
}

/// The form of a pool's first line, which a text is taken for until its first line shows what it is.
pub(crate) const POOL: usize = 2;

pub(crate) static FORMS: [LineForm; 22] = forms! {
    Proof "proof" FirstLine-FirstLine > SecondOfProof [ONE] [] "one field after it, the version"
    Bundle "bundle" FirstLine-SecondOfProof > PoolOfBundle [VERSION] [] "one field after it, the version"
    Pool "pool" FirstLine-PoolOfBundle > Size [VERSION] [] "one field after it, the version"
    Size "size" Size-Size > Entries [("size of a panel", 1, 200, 1000, "a number from 1 to 200, or to 1000 if the text says version 3")] [] "one field after it, the number of members of a panel"
    Category "category" Entries-Entries > Entries [TEXT] [] "one field after it, a name"
    Value "value" Entries-Entries > Entries
        [TEXT, ("lower bound", 0, 999, 999, "a number from 0 to 999"), ("upper bound", 0, 999, 999, "a number from 0 to 999")] []
        "three fields after it: a name, a lower bound and an upper bound"
    Volunteer "volunteer" Entries-Entries > Entries [TEXT] [TEXT] "an id after it, and a value for each category"
    Household "household" Entries-Entries > Entries [TEXT, TEXT] [] "two fields after it: a volunteer's id and the household's name"
    Seated "seated" Entries-Entries > Entries [TEXT] [] "one field after it, a volunteer's id"
    Gone "gone" Entries-Entries > Entries [TEXT] [] "one field after it, a volunteer's id"
    End "end" Entries-Entries > Total [] [] "no field after it"
    Total "total" Total-Total > FirstPanel [("total", 1, MOST_WEIGHT, MOST_WEIGHT, "a number from 1 to 10^38")] [] "one field after it, a number from 1 to 10^38"
    Panel "panel" FirstPanel-Panels > Panels [WEIGHT, MEMBER] [MEMBER]
        "a weight after it, and the numbers of its members"
    Stage "stage" Panels-Stages > Stages [WHOLE] [WHOLE] "a cap after it, and a weight for each volunteer"
    Done "done" Stages-Stages > FirstTree [] [] "no field after it"
    None "none" None-None > FirstTree [] [] "no field after it"
    Tree "tree" FirstTree-Trees > Trees [("tree", 0, 400, 4000, "a number from 1 to 400, or to 4000 with more than 400 volunteers, or 0 after \"none\"")] [] "one field after it, its number"
    Split "split" Trees-Trees > Trees [MEMBER] [] "one field after it, the number of a volunteer"
    Bound "bound" Trees-Trees > Trees [("scale", 0, MOST_SCALE, MOST_SCALE, "a number from 0 to 2^56")]
        [("constraint", 0, 1800, 9000, "a number from 0 to 1800, or to 9000 with more than 400 volunteers"),
            ("multiplier", -MOST_SCALE, MOST_SCALE, MOST_SCALE, "a whole number other than 0, from -2^56 to 2^56")]
        "a scale after it, and pairs of a constraint and a multiplier"
    Close "close" Trees-Trees > Nothing [] [] "no field after it"
    Cover "cover" FirstLine-FirstLine > SecondOfProof [ONE] [] "one field after it, the version"
    Front "front" Trees-Trees > Trees [TEXT, ("number", 0, MOST_WEIGHT, MOST_WEIGHT, "the number of an earlier stage or of a value, or 0")]
        [("count", 0, 400, 4000, "a number from 0 to 400, or to 4000 with more than 400 volunteers")]
        "a cause after it (size, value, house, closed or cap), a number, and counts"
};

/// Returns the bytes before the first that is `end`, or all of them.
pub(crate) fn before(bytes: &[u8], end: u8) -> &[u8] {
    match bytes.iter().position(|byte| *byte == end) {
        Some(end) => &bytes[..end],
        None => bytes,
    }
}

/// Returns the form of lines with this word, if there is one, whatever the word's capitals and the blanks around it.
pub(crate) fn form_like(word: &[u8]) -> Option<&'static LineForm> {
    let word = word.trim_ascii();
    for form in &FORMS {
        if form.spelling.as_bytes().eq_ignore_ascii_case(word) {
            return Some(form);
        }
    }
    None
}

impl LineForm {
    /// Returns what the field at this place is, counted from 0 after the word.
    pub(crate) fn field(&self, place: usize) -> Field {
        if place < self.fields.len() {
            self.fields[place]
        } else if self.more.is_empty() {
            TEXT
        } else {
            self.more[(place - self.fields.len()) % self.more.len()]
        }
    }
}

/// A choice by a variant, with a row for each.
macro_rules! choose {
    ($here:expr, $kind:ident; $($row:ident $value:expr;)*) => {
        match $here {
            $($kind::$row => $value,)*
        }
    };
}

impl Place {
    /// Returns words for what comes here, and for what is missing if the text ends here.
    pub(crate) fn words(self) -> (&'static str, &'static str) {
        choose! { self, Place;
            FirstLine ("a text of this program begins with \"pool\", \"bundle\", \"proof\" or \"cover\", a TAB and its version", "it has no line");
            SecondOfProof ("the second line of a proof is \"bundle\" or \"pool\", that of a cover \"bundle\", then a TAB and the version, 1, 2 or 3", "the pool or bundle is missing");
            PoolOfBundle ("the pool of a bundle begins with \"pool\", a TAB and the version that the line \"bundle\" has", "the pool is missing");
            Size ("the second line of a pool is \"size\", a TAB and the number of members of a panel, from 1 to 200, or to 1000 in version 3", "the size is missing");
            Entries ("between the size and the end, lines begin with category, value, volunteer, household, seated or gone", "the line \"end\" is missing");
            Total ("after the pool's \"end\" comes \"total\", a TAB and a number from 1 to 10^38", "total, panels, stages and the line \"done\" are missing");
            FirstPanel ("a line \"panel\" comes after the total", "panels, stages and the line \"done\" are missing");
            Panels ("after a panel comes a line \"panel\" or \"stage\"", "stages and the line \"done\" are missing");
            Stages ("after a stage comes a line \"stage\", or \"done\" without a field", "stages or the line \"done\" are missing");
            None ("after the pool's \"end\" comes \"none\"", "the line \"none\" and the tree are missing");
            FirstTree ("the first tree begins with \"tree\", a TAB and 1 after \"done\", or 0 after \"none\"", "the trees are missing");
            Trees ("in a tree come lines \"split\" and \"bound\", in a cover \"front\", then the next \"tree\" or \"close\"", "the line \"close\" is missing");
            Nothing ("nothing may follow the last line of the text", "nothing is missing");
        }
    }
}
