//! Effective total ranges.

ghost use Rattle.std.specs.Prelude.{◌≡◌};
ghost use Rattle.particle_forms.specs.Ranges.{nothing, once, both, either, times, most_both, most_either, most_times};

/// How many elements there are at least and at most: `None` where there is no bound. Numbers stop at the greatest of their type.
#[derive(Clone, Copy)]
pub(crate) struct TotalRange {
    pub(crate) least: u64,
    pub(crate) most: Option<u64>,
}

impl TotalRange {
    /// No elements.
    pub(crate) fn nothing() -> Self
        ensures { result ≡ nothing }
    {
        TotalRange {
            least: 0,
            most: Some(0),
        }
    }

    /// One element.
    pub(crate) fn once() -> Self
        ensures { result ≡ once }
    {
        TotalRange {
            least: 1,
            most: Some(1),
        }
    }

    /// The elements of the one and of the other.
    pub(crate) fn and(self, other: Self) -> Self
        ensures { result ≡ both self other }
    {
        TotalRange {
            least: self.least.saturating_add(other.least),
            most: most_and(self.most, other.most),
        }
    }

    /// The elements of the one or of the other.
    pub(crate) fn or(self, other: Self) -> Self
        ensures { result ≡ either self other }
    {
        TotalRange {
            least: self.least.min(other.least),
            most: most_or(self.most, other.most),
        }
    }

    /// The elements of so many of it.
    pub(crate) fn times(self, least: u32, most: Option<u32>) -> Self
        ensures { result ≡ times least most self }
    {
        TotalRange {
            least: u64::from(least).saturating_mul(self.least),
            most: most_of(most, self.most),
        }
    }
}

fn most_and(one: Option<u64>, other: Option<u64>) -> Option<u64>
    ensures { result ≡ most_both one other }
{
    match (one, other) {
        (Some(n), Some(m)) => Some(n.saturating_add(m)),
        _ => None,
    }
}

fn most_or(one: Option<u64>, other: Option<u64>) -> Option<u64>
    ensures { result ≡ most_either one other }
{
    match (one, other) {
        (Some(n), Some(m)) => Some(n.max(m)),
        _ => None,
    }
}

// Unbounded dominates, unless multiplied by 0.
fn most_of(times: Option<u32>, most: Option<u64>) -> Option<u64>
    ensures { result ≡ most_times times most }
{
    match (times, most) {
        (Some(n), Some(m)) => Some(u64::from(n).saturating_mul(m)),
        (Some(0), None) | (None, Some(0)) => Some(0),
        _ => None,
    }
}
