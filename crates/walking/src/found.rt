// The lowest bad point that was found.
ghost use Rattle.std.specs.Prelude.{◌<◌, ◌≡◌};
ghost use Rattle.walking.specs.Walk.{lowered, Noted};

use crate::walk::Site;
use leading::Paths;
use points::Point;
use status::{Refusal, Status};

// The greatest depth, from which a call is bad.
const DEEPEST: u16 = Point::DEEPEST as u16;

// A bad point by its number, and its status. Numbers compare as addresses do and then depths, by one test.
#[derive(Clone, Copy)]
pub struct Found {
    pub number: u16,
    pub status: Status,
}

// The lower of what was found and a bad point.
fn lower(found: Option<Found>, number: u16, status: Status) -> Option<Found>
    ensures { result ≡ lowered found number status }
{
    match found {
        Some(lowest) if lowest.number <= number => found,
        _ => Some(Found { number, status }),
    }
}

// The lowest of what was found and the bad points of an address that was looked at.
pub(crate) fn lowest_of(
    found: Option<Found>,
    site: Site,
    paths: Result<Paths, Refusal>,
) -> Option<Found>
    requires { 0 < site.depths }
    ensures { Noted paths site.address site.depths found result }
{
    let number = site.address as u16 * 9;
    match paths {
        Err(refusal) => {
            let least = site.depths.trailing_zeros() as u16;
            lower(found, number + least, refusal.into())
        }
        Ok(Paths::Back) if site.depths % 2 == 1 => lower(found, number, Status::Unavailable),
        Ok(Paths::Call(_, _)) if 256 <= site.depths => {
            lower(found, number + DEEPEST, Status::Unavailable)
        }
        _ => found,
    }
}
