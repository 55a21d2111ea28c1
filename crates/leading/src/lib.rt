// Where each point of a program leads, and which are bad: by the judges of fields that direct mode and steps ask.
#![tactic(auto)]

ghost use Rattle.store.specs.Store.{record_at};
ghost use Rattle.jumping.specs.Jump.{address_of};
ghost use Rattle.fields.specs.Fields.{jc, ja};
ghost use Rattle.leading.specs.Leading.{way_at};
ghost use Rattle.leading.specs.Depths.{AtEach, Led, PathsOf};
ghost use Rattle.leading.specs.Laws.{Laws};
ghost use Rattle.leading.specs.declared.Paths.TheVariants.{To, Both, Call};

use jumping::address_of;
use points::Point;
use registers::next_address;
use status::Refusal;
use store::record_at;
use wire::Command;

// Where the points of one address lead: a record is read and judged once for all depths.
#[derive(Clone, Copy)]
pub enum Paths {
    Nowhere,
    // A return: bad at depth 0, and leads nowhere from the others.
    Back,
    // To an address at the same depth.
    To(u16),
    Both(u16, u16),
    // A call: to its target one deeper, and to the next at the same depth; bad at depth 8.
    Call(u16, u16),
}

// JC.
fn branch(c: Command, next: u16) -> Result<Paths, Refusal>
    ensures { Led (jc c) (Both (address_of c.value.v) next) result }
{
    target_fields::jc(c)?;
    Ok(Paths::Both(address_of(c.value), next))
}

// JA.
fn jump(c: Command) -> Result<Paths, Refusal>
    ensures { Led (ja c) (To (address_of c.value.v)) result }
{
    target_fields::ja(c)?;
    Ok(Paths::To(address_of(c.value)))
}

// CSUB.
fn call(c: Command, next: u16) -> Result<Paths, Refusal>
    ensures { Led (ja c) (Call (address_of c.value.v) next) result }
{
    target_fields::ja(c)?;
    Ok(Paths::Call(address_of(c.value), next))
}

// Where the record at an address leads. What the arm of its number needs is read in the arm.
#[tactic(auto, unfolding(judge::specs::Judge::judged, crate::specs::Depths::paths_on))]
fn paths_of(program: &[u8], address: u16) -> Result<Paths, Refusal>
    ensures { PathsOf (record_at program.now address) address result }
{
    let at = address as usize;
    let next = next_address(address);
    match record_at(program, at).number {
        1..=3 => axis_fields::motor_alone(record_at(program, at))?,
        4 => axis_fields::mvp(record_at(program, at))?,
        5 => axis_fields::sap(record_at(program, at))?,
        6 => axis_fields::gap(record_at(program, at))?,
        7 | 8 => axis_fields::stap(record_at(program, at))?,
        9 => global_fields::sgp(record_at(program, at))?,
        10 => global_fields::ggp(record_at(program, at))?,
        11 | 12 => global_fields::stgp(record_at(program, at))?,
        14 => port_fields::sio(record_at(program, at))?,
        15 => port_fields::gio(record_at(program, at))?,
        19 => number_fields::calc(record_at(program, at))?,
        20 => {}
        21 => return branch(record_at(program, at), next),
        22 => return jump(record_at(program, at)),
        23 => return call(record_at(program, at), next),
        24 => return Ok(Paths::Back),
        27 => target_fields::wait(record_at(program, at))?,
        28 => return Ok(Paths::Nowhere),
        33 => number_fields::calcx(record_at(program, at))?,
        34 => axis_fields::aap(record_at(program, at))?,
        35 => global_fields::agp(record_at(program, at))?,
        36 => number_fields::cle(record_at(program, at))?,
        _ => return Err(Refusal::Unknown),
    }
    Ok(Paths::To(next))
}

// Where an address leads. A record comes first: the compiler then goes on to it without a jump.
#[tactic(auto, using(crate::proofs::Depths::each), unfolding(crate::specs::Leading::way_at, crate::specs::Leading::status_at))]
pub fn paths_at(program: &[u8], address: u16) -> Result<Paths, Refusal>
    ensures { AtEach (way_at program.now) address result }
{
    if address < Point::END {
        paths_of(program, address)
    } else {
        Err(Refusal::Value)
    }
}

// The laws of where points lead, held to be proved: the function does nothing.
#[tactic(auto, using(crate::proofs::Ways::laws))]
pub fn laws()
    ensures { Laws }
{}
