//! How many volunteers and seats there are, and how many volunteers are of each standing.

ghost use Rattle.std.specs.Prelude.{◌≡◌, count_by};
ghost use Rattle.bundle_page.specs.Numbers.{is_gone as is_gone_one, is_open as is_open_one, is_seated as is_seated_one, present as words_of_present, sizes_of as words_of_sizes};

use pool_model::{Pool, Standing, Volunteer};

/// How many volunteers and how many seats there are, and how many of the volunteers are open, seated and gone.
#[derive(Clone, Copy, Debug)]
pub(crate) struct Sizes {
    pub(crate) volunteers: usize,
    pub(crate) seats: usize,
    pub(crate) open_count: usize,
    pub(crate) seated_count: usize,
    pub(crate) gone_count: usize,
}

/// Returns how many volunteers and seats there are, and how many of the volunteers are of each standing.
pub(crate) fn sizes_of(pool: &Pool) -> Sizes
    ensures { result ≡ words_of_sizes pool.now }
{
    let volunteers = pool.volunteers();
    Sizes {
        volunteers: volunteers.len(),
        seats: pool.size(),
        open_count: open_in(volunteers),
        seated_count: seated_in(volunteers),
        gone_count: gone_in(volunteers),
    }
}

impl Sizes {
    /// Returns how many volunteers aren't gone.
    pub(crate) fn present(&self) -> usize
        ensures { result ≡ words_of_present self.now }
    {
        self.volunteers.saturating_sub(self.gone_count)
    }
}

/// Returns how many of the volunteers are open.
fn open_in(volunteers: &[Volunteer]) -> usize
    ensures { result ≡ count_by (λ volunteer. is_open_one volunteer.standing) volunteers.now }
{
    volunteers
        .iter()
        .filter(|volunteer| is_open(volunteer.standing()))
        .count()
}

/// Returns how many of the volunteers are seated.
fn seated_in(volunteers: &[Volunteer]) -> usize
    ensures { result ≡ count_by (λ volunteer. is_seated_one volunteer.standing) volunteers.now }
{
    volunteers
        .iter()
        .filter(|volunteer| is_seated(volunteer.standing()))
        .count()
}

/// Returns how many of the volunteers are gone.
fn gone_in(volunteers: &[Volunteer]) -> usize
    ensures { result ≡ count_by (λ volunteer. is_gone_one volunteer.standing) volunteers.now }
{
    volunteers
        .iter()
        .filter(|volunteer| is_gone(volunteer.standing()))
        .count()
}

fn is_open(standing: Standing) -> bool
    ensures { result ≡ is_open_one standing }
{
    match standing {
        Standing::Open => true,
        Standing::Seated | Standing::Gone => false,
    }
}

fn is_seated(standing: Standing) -> bool
    ensures { result ≡ is_seated_one standing }
{
    match standing {
        Standing::Seated => true,
        Standing::Open | Standing::Gone => false,
    }
}

/// True if the standing is gone.
pub(crate) fn is_gone(standing: Standing) -> bool
    ensures { result ≡ is_gone_one standing }
{
    match standing {
        Standing::Gone => true,
        Standing::Open | Standing::Seated => false,
    }
}
