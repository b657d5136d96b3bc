// The places of a station, by 01's numbers.
ghost use Rattle.station.specs.Places.{Reads};

#[derive(Clone, Copy, Debug, PartialEq, Eq)]
pub enum Place {
    Idle,
    Sending,
    Waiting,
    Holding,
    Giving,
}

// A number that no place has.
#[derive(Clone, Copy, Debug, PartialEq, Eq)]
pub struct NoSuchPlace(pub u8);

impl TryFrom<u8> for Place {
    type Error = NoSuchPlace;

    ghost try_from_gives = { Reads };

    fn try_from(number: u8) -> Result<Self, NoSuchPlace> {
        match number {
            0 => Ok(Place::Idle),
            1 => Ok(Place::Sending),
            2 => Ok(Place::Waiting),
            3 => Ok(Place::Holding),
            4 => Ok(Place::Giving),
            _ => Err(NoSuchPlace(number)),
        }
    }
}
