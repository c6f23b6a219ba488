// The counts of the terminal's reports, one for each category. 16,383 is followed by 0.
#![tactic(auto)]

ghost use Rattle.std.specs.Prelude.{◌≡◌};
ghost use Rattle.counts.specs.Counts.{no_counts, counts_in, next_count, category_of, count_for, counted, in_range};

// A count for each category.
#[derive(Clone, Copy, Default)]
pub struct Counts {
    // Of category 1: service 1.
    pub reports: u16,
    // Of category 9: services 6 and 17.
    pub services: u16,
}

// How many octets the counts are, two for each category.
pub const OCTETS: usize = 4;

// How many counts there are.
const COUNTS: u16 = 16384;

// The category of the reports of service 1, and of every other.
const REPORTS: u16 = 1;

const SERVICES: u16 = 9;

// At the start every count is 0.
pub fn none() -> Counts
    ensures { result ≡ no_counts }
{
    Counts::default()
}

// The counts that some octets state, category by category; octets past the end count as 0.
pub fn counts_in(s: &[u8]) -> Counts
    ensures { result ≡ counts_in s.now }
{
    Counts {
        reports: octets::numbers::word16_at(s, 0),
        services: octets::numbers::word16_at(s, 2),
    }
}

// The category of a service's reports.
#[tactic(auto, unfolding(crate::specs::Counts::category_of))]
pub fn category(kind: u8) -> u16
    ensures { result ≡ category_of kind }
{
    if kind == 1 { REPORTS } else { SERVICES }
}

// The count after a count.
pub fn next_count(count: u16) -> u16
    ensures { result ≡ next_count count }
{
    count.wrapping_add(1) % COUNTS
}

// Whether every count has 14 bits.
#[tactic(auto, unfolding(crate::specs::Counts::in_range))]
pub fn in_range(counts: Counts) -> bool
    ensures { result ≡ in_range counts }
{
    counts.reports < COUNTS && counts.services < COUNTS
}

// The count that the next report of a service is stamped with.
#[tactic(auto, unfolding(crate::specs::Counts::count_in))]
pub fn count_for(counts: Counts, kind: u8) -> u16
    ensures { result ≡ count_for counts kind }
{
    if category(kind) == REPORTS {
        counts.reports
    } else {
        counts.services
    }
}

// The counts after a report of a service.
#[tactic(auto, unfolding(crate::specs::Counts::advanced))]
pub fn counted(counts: Counts, kind: u8) -> Counts
    ensures { result ≡ counted counts kind }
{
    if category(kind) == REPORTS {
        Counts {
            reports: next_count(counts.reports),
            ..counts
        }
    } else {
        Counts {
            services: next_count(counts.services),
            ..counts
        }
    }
}
