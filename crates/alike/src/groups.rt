//! Classes as values, with the size of a panel and the bounds of the values: all that a search for panels reads.

ghost use Rattle.std.specs.Prelude.{◌≡◌, ◌<◌, length, take};
ghost use Rattle.define_searches.specs.Classes.{HasPlaces, KeepsLimits, PartVolunteers, least_taken, most_taken, volunteer_count};
ghost use Rattle.define_searches.specs.Front.{Stands};

use define_pools::Standing;
use define_searches::Bounds;
use std::marker::Model;

/// Volunteers with the same values and standing. Someone who shares a household with another volunteer is in a class alone.
#[derive(Debug, Drop)]
pub struct Class {
    members: Vec<usize>,
    values: Vec<usize>,
    standing: Standing,
    household: Option<usize>,
}

impl Model for Class {
    ghost use Rattle.std.specs.Prelude.{◌≡◌, length};
    ghost use Rattle.define_searches.specs.Classes.{Class as Seen, least_taken, most_taken};

    ghost Value = { Seen };

    ghost view = { λ c. record {
      members = c.members.items;
      values = c.values.items;
      least = least_taken c.standing (length c.members.items);
      most = most_taken c.standing (length c.members.items);
      household = c.household;
    } };
}

impl Class {
    // Returns the class of these members.
    pub(crate) fn new(
        members: Vec<usize>,
        values: Vec<usize>,
        standing: Standing,
        household: Option<usize>,
    ) -> Class
        ensures { result ≡ record {
          members = members.items;
          values = values.items;
          least = least_taken standing (length members.items);
          most = most_taken standing (length members.items);
          household = household;
        } }
    {
        Class {
            members,
            values,
            standing,
            household,
        }
    }

    /// Returns the numbers of the members, rising.
    pub fn members(&self) -> &[usize]
        ensures { result.now ≡ self.now.members }
    {
        &self.members
    }

    /// Returns how many members the class has.
    pub fn size(&self) -> usize
        ensures { result ≡ length self.now.members }
    {
        self.members().len()
    }

    /// Returns the first `count` members, or all if there are fewer.
    pub fn first_members(&self, count: usize) -> &[usize]
        ensures { result.now ≡ take count self.now.members }
    {
        let members = self.members();
        &members[..count.min(members.len())]
    }

    /// Returns for each category the place of the members' value among the category's values, counted from 0.
    pub fn values(&self) -> &[usize]
        ensures { result.now ≡ self.now.values }
    {
        &self.values
    }

    /// Returns the number of the household that the class's one member shares with a volunteer of another class, if there is one. It is the
    /// number of the household's first member.
    pub fn household(&self) -> Option<usize>
        ensures { result ≡ self.now.household }
    {
        self.household
    }

    /// Returns the least number of members that a panel can have: all if the class is seated, else 0.
    pub fn least(&self) -> usize
        ensures { result ≡ self.now.least }
    {
        match self.standing {
            Standing::Seated => self.members.len(),
            Standing::Gone | Standing::Open => 0,
        }
    }

    /// Returns the greatest number of members that a panel can have: 0 if the class is gone, else all.
    pub fn most(&self) -> usize
        ensures { result ≡ self.now.most }
    {
        match self.standing {
            Standing::Seated | Standing::Open => self.members.len(),
            Standing::Gone => 0,
        }
    }
}

/// The bounds of a category's values.
#[derive(Debug, Drop)]
pub struct ValueBounds {
    bounds: Vec<Bounds>,
}

impl Model for ValueBounds {
    ghost use Rattle.std.specs.Prelude.{List};
    ghost use Rattle.define_searches.specs.declared.Bounds.{Bounds};

    ghost Value = { List Bounds };

    ghost view = { λ v. v.bounds.items };
}

impl ValueBounds {
    pub(crate) fn new(bounds: Vec<Bounds>) -> ValueBounds
        ensures { result ≡ bounds.items }
    {
        ValueBounds { bounds }
    }

    /// Returns the bounds in the order of the values.
    pub fn as_slice(&self) -> &[Bounds]
        ensures { result.now ≡ self.now }
    {
        &self.bounds
    }
}

/// The classes of a pool, in the order of their first members, with the size of a panel and the bounds of each category's values. They
/// are within the limits of a pool: a size from 1 to 1,000; at most 20 categories of at most 50 values, each with a lower bound that is at
/// most the upper one, which is at most 999; at most 4,000 classes with at most 4,000 members in all, each class with a member and with a value
/// of each category. Each volunteer is in exactly one class.
#[derive(Debug, Drop)]
pub struct Classes {
    size: usize,
    bounds: Vec<ValueBounds>,
    classes: Vec<Class>,
}

impl Model for Classes {
    ghost use Rattle.define_searches.specs.Classes.{Classes as Seen, KeepsLimits, PartVolunteers};

    ghost Value = { Seen };

    ghost view = { λ c. record { size = c.size; bounds = c.bounds.items; classes = c.classes.items } };

    ghost invariant = { λ c. KeepsLimits (record { size = c.size; bounds = c.bounds.items; classes = c.classes.items })
        × PartVolunteers (record { size = c.size; bounds = c.bounds.items; classes = c.classes.items }) };
}

impl Classes {
    pub(crate) fn new(size: usize, bounds: Vec<ValueBounds>, classes: Vec<Class>) -> Classes
        requires limits { KeepsLimits (record { size = size; bounds = bounds.items; classes = classes.items }) }
        requires parts { PartVolunteers (record { size = size; bounds = bounds.items; classes = classes.items }) }
        ensures { result ≡ record { size = size; bounds = bounds.items; classes = classes.items } }
    {
        Classes {
            size,
            bounds,
            classes,
        }
    }

    /// Returns how many members a panel has.
    pub fn size(&self) -> usize
        ensures { result ≡ self.now.size }
    {
        self.size
    }

    /// Returns for each category the bounds of its values.
    pub fn bounds(&self) -> &[ValueBounds]
        ensures { result.now ≡ self.now.bounds }
    {
        &self.bounds
    }

    /// Returns the classes, in the order of their first members.
    pub fn classes(&self) -> &[Class]
        ensures { result.now ≡ self.now.classes }
    {
        &self.classes
    }

    /// Returns how many volunteers the classes have in all; each of them is in exactly one class.
    pub fn volunteers(&self) -> usize
        ensures count { result ≡ volunteer_count self.now }
        ensures parts { PartVolunteers self.now }
    {
        self.classes.iter().map(|class| class.size()).sum()
    }

    /// Returns the class at `place`. Its contract also says what holds of each class of a `Classes`.
    pub fn class_at(&self, place: usize) -> &Class
        requires { place < length self.now.classes }
        ensures limits { KeepsLimits self.now }
        ensures stands { Stands self.now place result.now }
        ensures places { HasPlaces self.now.bounds result.now }
    {
        self.facts();
        &self.classes()[place]
    }

    /// Does nothing; its contract says what holds of each `Classes`.
    pub fn facts(&self)
        ensures { KeepsLimits self.now }
    {
        let _ = &self.size;
    }

    // Does nothing; its contract says that each volunteer is in exactly one class.
    pub(crate) fn part(&self)
        ensures { PartVolunteers self.now }
    {
        let _ = &self.size;
    }
}
