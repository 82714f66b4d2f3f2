// The sixteen places.
ghost use Rattle.std.specs.Prelude.{◌≡◌, None, slice_index_or};
ghost use Rattle.jobs.specs.View.{place_holds};

use crate::record::JobRecord;

// Whether the job at a place holds the item d; past the last place there is no job.
pub(crate) fn holds_at(places: &[Option<JobRecord>], place: u8, d: u8) -> bool
    ensures { result ≡ place_holds (slice_index_or places.now place None) d }
{
    match places.get(place as usize) {
        Some(Some(job)) => job.held.contains(d),
        _ => false,
    }
}
