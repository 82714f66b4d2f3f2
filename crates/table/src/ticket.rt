// A ticket must be spent: the check refuses a program that drops one.
ghost use Rattle.std.specs.Prelude.{◌≡◌, true, false};

// What begin gives. Only the calls of a table spend it.
pub struct Ticket {
    place: u8,
    // A rule of the project: a ticket is a plain value whose drop demands that it was spent, so a flag stands beside the place.
    spent: bool,
}

impl Drop for Ticket {
    fn drop(self)
        requires { self.spent ≡ true }
    {
        let Ticket { place: _, spent: _ } = self;
    }
}

impl Ticket {
    pub(crate) fn new(place: u8) -> Ticket
        ensures { (result.place ≡ place) × (result.spent ≡ false) }
    {
        Ticket {
            place,
            spent: false,
        }
    }

    pub fn place(&self) -> u8
        ensures { result ≡ self.now.place }
    {
        self.place
    }

    // The one way by which a ticket ends.
    pub(crate) fn spend(self) {
        let mut ticket = self;
        ticket.spent = true;
    }
}
