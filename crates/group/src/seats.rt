//! The seats of open snapshots.
ghost use Rattle.std.specs.Prelude.{◌≡◌, ◌<◌, [], ◌∷◌, None, length, position, slice_index_or, slice_set};
ghost use Rattle.std.specs.Option.{is_none};
ghost use Rattle.group.specs.Sessions.{free_seat};

use crate::seat::Seat;

/// How many snapshots may be open at once.
pub(crate) const SEAT_COUNT: usize = 4;

/// A seat for each snapshot that may be open.
#[derive(Drop)]
pub(crate) struct Seats {
    places: [Option<Seat>; SEAT_COUNT],
    ghost sized: { length places ≡ 4 },
}

impl Seats {
    /// Seats that are all free.
    pub(crate) fn new() -> Seats
        ensures { result.places ≡ None ∷ None ∷ None ∷ None ∷ [] }
    {
        Seats {
            places: [None; SEAT_COUNT],
        }
    }

    /// All the seats, by number.
    pub(crate) fn as_slice(&self) -> &[Option<Seat>]
        ensures { result.now ≡ self.now.places }
    {
        &self.places[..]
    }

    /// The open snapshot at a seat; none if the seat is free, or if there is no such seat.
    pub(crate) fn at(&self, number: u8) -> Option<Seat>
        ensures { result ≡ slice_index_or self.now.places number None }
    {
        *self.places.get(number as usize)?
    }

    /// The lowest free seat, if one is free.
    pub(crate) fn lowest_free(&self) -> Option<u8>
        ensures { result ≡ free_seat self.now.places }
    {
        self.first_empty().map(|number| number as u8)
    }

    // The first place with no snapshot.
    fn first_empty(&self) -> Option<usize>
        ensures { result ≡ position is_none self.now.places }
    {
        self.places.iter().position(Option::is_none)
    }

    /// A seat is taken by a snapshot, or becomes free.
    pub(crate) fn set(&mut self, number: u8, seat: Option<Seat>)
        requires { number < SEAT_COUNT }
        ensures { self.new.places ≡ slice_set self.old.places number seat }
    {
        self.places[number as usize] = seat;
    }
}
