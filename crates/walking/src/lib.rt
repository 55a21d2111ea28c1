// The walk of the program check: every address that a program reaches is looked at for all the depths
// at which it is reached, and the lowest bad point is kept.
#![tactic(auto)]

ghost use Rattle.leading.specs.Leading.{way_at};
ghost use Rattle.walking.specs.Found.{FoundIn};
ghost use Rattle.walking.specs.Laws.{Laws};

mod found;
mod walk;

pub use found::Found;
use found::lowest_of;
use leading::paths_at;
use walk::{Site, Walk};

// The lowest bad point that a program reaches, if it reaches one.
pub fn lowest(program: &[u8]) -> Option<Found>
    ensures { FoundIn (way_at program.now) result }
{
    let mut found = None;
    let mut walk = Walk::new();
    let mut next = walk.go(Site::first());
    while let Some(site) = next {
        let paths = paths_at(program, site.address as u16);
        found = lowest_of(found, site, paths);
        next = walk.spread(site, paths);
    }
    found
}

// The laws of the walk, held to be proved: the function does nothing.
pub fn laws()
    ensures { Laws }
{}
