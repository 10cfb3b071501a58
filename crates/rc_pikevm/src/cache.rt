//! Cache: all memory of a Pike VM search, allocated once.
ghost use Rattle.std.specs.Prelude.{◌≡◌};
ghost use Rattle.rc_program.specs.Places.{place_of, places_of};
ghost use Rattle.rc_pikevm.specs.Readers.{reader_count, reads};

use crate::growth::Frame;
use crate::scratch::Scratch;
use crate::threads::BareThread;
use rc_program::place::Place;
use rc_program::program::Program;
use std::alloc::{AllocError, Global};
use std::marker::Model;
use std::mem::size_of;

/// All memory that a search needs, allocated once.
pub struct Cache {
    pub(crate) scratch: Scratch,
    places: usize,
    threads: usize,
    columns: usize,
}

// Crates above call this, and drop no part by themselves.
impl Drop for Cache {
    fn drop(self) {
        let Cache {
            scratch: _,
            places: _,
            threads: _,
            columns: _,
        } = self;
    }
}

impl Model for Cache {
    ghost use Rattle.std.specs.Prelude.{◌≡◌};
    ghost use Rattle.rc_pikevm.specs.Caches.{Made, made_code};
    ghost use Rattle.rc_pikevm.specs.Scratches.{room_of};

    ghost Value = { Made };

    ghost coded = { made_code };

    ghost view = { λ a. record {
      places = a.places;
      threads = a.threads;
      columns = a.columns;
      insertions = a.scratch.insertions;
      room = room_of a.scratch;
    } };

    ghost invariant = { λ a. (a.scratch.next.entered.capacity ≡ a.places)
        × (a.scratch.next.threads.room ≡ a.threads)
        × (a.scratch.next.threads.most ≡ a.columns) };
}

impl Cache {
    ghost use Rattle.std.specs.Prelude.{◌≡◌, ◌+◌, IfOk, length};
    ghost use Rattle.rc_program.specs.Columns.{row_width};
    ghost use Rattle.rc_program.specs.Places.{places_of};
    ghost use Rattle.rc_pikevm.specs.Caches.{IsCacheFor, room_for};
    ghost use Rattle.rc_pikevm.specs.Readers.{reader_count};

    /// A cache for searches by the program that ask for at most `slots` slots. It allocates all
    /// that these searches need: for one thread more than places of the program read, and for no
    /// more slots a thread than some pattern's groups have.
    pub fn new(alloc: Global, program: &Program, slots: usize) -> Result<Cache, AllocError>
        ensures { IfOk result (λ c. c ≡ record {
          places = length program.now.places.items;
          threads = reader_count (places_of program.now.places.items) + 1;
          columns = row_width (places_of program.now.places.items) slots;
          insertions = 0;
          room = room_for (length program.now.places.items)
              (reader_count (places_of program.now.places.items) + 1)
              (row_width (places_of program.now.places.items) slots);
        }) }
    {
        let places = program.places.len();
        let Some(threads) = count_readers(&program.places).checked_add(1) else {
            return Err(AllocError);
        };
        let columns = program.width(slots);
        Ok(Cache {
            scratch: Scratch::new(alloc, places, threads, columns)?,
            places,
            threads,
            columns,
        })
    }

    /// Returns how many places the last pass of the last search entered, over all positions.
    /// Returns 0 if that search made no pass.
    pub fn insertions(&self) -> u128
        ensures { result ≡ self.now.insertions }
    {
        self.scratch.insertions
    }

    /// Returns about how many bytes the cache has allocated for its lists, or the greatest `usize`
    /// if that is more.
    pub fn memory_usage(&self) -> usize {
        let heads = self.threads.saturating_mul(2 * size_of::<BareThread>());
        let cells = self.threads.saturating_mul(2).saturating_add(2);
        let rows = self
            .columns
            .saturating_mul(cells)
            .saturating_mul(size_of::<Option<usize>>());
        let set = self.places.saturating_mul(2 * size_of::<usize>());
        let frames = self
            .places
            .saturating_add(1)
            .saturating_mul(size_of::<Frame>());
        heads
            .saturating_add(rows)
            .saturating_add(set)
            .saturating_add(frames)
    }
}

/// Whether the place reads a byte or a scalar.
fn reads(place: &Place) -> bool
    ensures { result ≡ reads (place_of place.now) }
{
    matches!(
        place,
        Place::Byte(_, _) | Place::Bytes(_, _) | Place::Scalar(_, _)
    )
}

/// Returns how many of the places read.
fn count_readers(places: &[Place]) -> usize
    ensures { result ≡ reader_count (places_of places.now) }
{
    let mut count = 0;
    for place in places {
        if !reads(place) {
            continue;
        }
        count += 1;
    }
    count
}
