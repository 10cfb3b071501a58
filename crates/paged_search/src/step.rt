//! Steps: a search of a file in slices, between which the caller shows how far it is.
ghost use Rattle.std.specs.Prelude.{◌≡◌, ℕ, length};
ghost use Rattle.stream_search.specs.Stepping.{IfDone, IfNotYet, IsOfSlice, IsSliced, IsUnderWay, found_from};

use paged_file::{PagedCursor, Pages};
use stream_search::{Progress, Stepper};

/// Searches the pages with `budget` readable bytes more, and returns. `position` of the stepper says
/// how many bytes were looked at.
///
/// The answer is the match of the readable bytes from the start on: if a page can't be read, the
/// text ends before it, and `failure` of the cursor says whether the search came there. The cursor
/// may show any page. It reads the pages of this slice, and the one that shows the place where the
/// search goes on. It takes no memory.
pub fn find_on<P: Pages>(
    stepper: &mut Stepper,
    cursor: &mut PagedCursor<P>,
    budget: usize,
) -> Progress
    ensures regex { stepper.new.regex ≡ stepper.old.regex }
    ensures done { (start : ℕ) → IsUnderWay cursor.old.stored.bytes start stepper.old
        → IfDone result (λ m. m
        ≡ found_from stepper.old.regex cursor.old.stored.bytes start) }
    ensures goes_on { (start : ℕ) → IsUnderWay cursor.old.stored.bytes start stepper.old
        → IfNotYet result (IsUnderWay cursor.old.stored.bytes start stepper.new) }
    ensures stays { IfDone result (λ _. stepper.new ≡ stepper.old) }
    ensures settled { IfDone result (IsOfSlice stepper.old budget cursor.old.stored.bytes) }
    ensures sliced { IfNotYet result
        (IsSliced stepper.old budget (length cursor.old.stored.bytes) stepper.new) }
{
    let answer = stepper.resume(cursor, budget);
    answer // and how far it came, the stepper tells
}
