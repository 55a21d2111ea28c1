// A register that stands at one place of the image, read and written.
ghost use Rattle.std.specs.Prelude.{◌≡◌, ℕ};
ghost use Rattle.board.specs.declared.Registers.{Registers};
ghost use Rattle.reg_image.specs.Image.{registers_of, Leaves};
ghost use Rattle.reg_image.specs.Register.{RegisterLaws};
ghost use Rattle.reg_image.specs.With as with;
ghost use Rattle.reg_image.specs.With.{in_core};
ghost use Rattle.registers.specs.Registers.{with_last, with_running, with_depth};
ghost use Rattle.reg_image.specs.Laws as laws;

use crate::stored::Stored;
use crate::{REGISTERS, at};
use registers::Order;
use std::cmp::Ordering;
use words::Word;

// What names a register. `read` is the register among those that an image stands for, and `with` those with it
// changed; the laws say that its place holds it.
pub trait Register {
    type Value: Stored;

    const PLACE: usize;

    ghost PLACE: { ℕ };

    ghost read: { Registers → Self.Value };

    ghost with: { Self.Value → Registers → Registers };

    ghost laws: { RegisterLaws PLACE Self.Value.kind Self.Value.of read with };
}

pub struct Accumulator;

impl Register for Accumulator {
    type Value = Word;

    const PLACE: usize = at::ACCUMULATOR;

    ghost PLACE = { 0 };

    ghost read = { λ r. r.core.accumulator };

    ghost with = { λ w. in_core (with.with_accumulator w) };

    ghost laws = { laws.accumulator_laws };
}

pub struct X;

impl Register for X {
    type Value = Word;

    const PLACE: usize = at::X;

    ghost PLACE = { 1 };

    ghost read = { λ r. r.core.x };

    ghost with = { λ w. in_core (with.with_x w) };

    ghost laws = { laws.x_laws };
}

// The last comparison.
pub struct Last;

impl Register for Last {
    type Value = Ordering;

    const PLACE: usize = at::LAST;

    ghost PLACE = { 2 };

    ghost read = { λ r. r.core.last };

    ghost with = { λ w. in_core (with_last w) };

    ghost laws = { laws.last_laws };
}

pub struct Eto;

impl Register for Eto {
    type Value = u32;

    const PLACE: usize = at::ETO;

    ghost PLACE = { 3 };

    ghost read = { λ r. r.core.flags.eto };

    ghost with = { λ w. in_core (with.with_eto w) };

    ghost laws = { laws.eto_laws };
}

pub struct Eal;

impl Register for Eal {
    type Value = u32;

    const PLACE: usize = at::EAL;

    ghost PLACE = { 4 };

    ghost read = { λ r. r.core.flags.eal };

    ghost with = { λ w. in_core (with.with_eal w) };

    ghost laws = { laws.eal_laws };
}

pub struct Edv;

impl Register for Edv {
    type Value = u32;

    const PLACE: usize = at::EDV;

    ghost PLACE = { 5 };

    ghost read = { λ r. r.core.flags.edv };

    ghost with = { λ w. in_core (with.with_edv w) };

    ghost laws = { laws.edv_laws };
}

pub struct Epo;

impl Register for Epo {
    type Value = u32;

    const PLACE: usize = at::EPO;

    ghost PLACE = { 6 };

    ghost read = { λ r. r.core.flags.epo };

    ghost with = { λ w. in_core (with.with_epo w) };

    ghost laws = { laws.epo_laws };
}

// The program address.
pub struct Address;

impl Register for Address {
    type Value = u32;

    const PLACE: usize = at::ADDRESS;

    ghost PLACE = { 7 };

    ghost read = { λ r. r.core.address };

    ghost with = { λ w. in_core (with.with_address w) };

    ghost laws = { laws.address_laws };
}

pub struct Running;

impl Register for Running {
    type Value = bool;

    const PLACE: usize = at::RUNNING;

    ghost PLACE = { 8 };

    ghost read = { λ r. r.core.running };

    ghost with = { λ w. in_core (with_running w) };

    ghost laws = { laws.running_laws };
}

// A wait: whether it is armed, its count, and whether the value that it was armed with was above 0.
pub struct Armed;

impl Register for Armed {
    type Value = bool;

    const PLACE: usize = at::ARMED;

    ghost PLACE = { 9 };

    ghost read = { λ r. r.core.wait.armed };

    ghost with = { λ w. in_core (with.with_armed w) };

    ghost laws = { laws.armed_laws };
}

pub struct Count;

impl Register for Count {
    type Value = u32;

    const PLACE: usize = at::COUNT;

    ghost PLACE = { 10 };

    ghost read = { λ r. r.core.wait.count };

    ghost with = { λ w. in_core (with.with_count w) };

    ghost laws = { laws.wait_count_laws };
}

pub struct Timed;

impl Register for Timed {
    type Value = bool;

    const PLACE: usize = at::TIMED;

    ghost PLACE = { 11 };

    ghost read = { λ r. r.core.wait.timed };

    ghost with = { λ w. in_core (with.with_timed w) };

    ghost laws = { laws.timed_laws };
}

// Download mode.
pub struct Downloading;

impl Register for Downloading {
    type Value = bool;

    const PLACE: usize = at::DOWNLOADING;

    ghost PLACE = { 12 };

    ghost read = { λ r. r.download.on };

    ghost with = { λ w. with.downloading w };

    ghost laws = { laws.downloading_laws };
}

pub struct WriteAddress;

impl Register for WriteAddress {
    type Value = u32;

    const PLACE: usize = at::WRITE_ADDRESS;

    ghost PLACE = { 13 };

    ghost read = { λ r. r.download.address };

    ghost with = { λ w. with.writing_at w };

    ghost laws = { laws.write_address_laws };
}

// The motion order.
pub struct MotionOrder;

impl Register for MotionOrder {
    type Value = Order;

    const PLACE: usize = at::ORDER;

    ghost PLACE = { 14 };

    ghost read = { λ r. r.core.motion.order };

    ghost with = { λ w. in_core (with.with_order w) };

    ghost laws = { laws.motion_order_laws };
}

pub struct Velocity;

impl Register for Velocity {
    type Value = Word;

    const PLACE: usize = at::VELOCITY;

    ghost PLACE = { 15 };

    ghost read = { λ r. r.core.motion.velocity };

    ghost with = { λ w. in_core (with.with_velocity w) };

    ghost laws = { laws.velocity_laws };
}

// The depth of the call stack.
pub struct Depth;

impl Register for Depth {
    type Value = u32;

    const PLACE: usize = at::DEPTH;

    ghost PLACE = { 25 };

    ghost read = { λ r. r.core.depth };

    ghost with = { λ w. in_core (with_depth w) };

    ghost laws = { laws.depth_laws };
}

// A register.
pub fn get<R: Register>(image: &[u32; REGISTERS]) -> R::Value
    ensures { result ≡ R.read (registers_of image.now) }
{
    R::Value::of_number(image[R::PLACE])
}

// Writes a register, and nothing else.
pub fn set<R: Register>(image: &mut [u32; REGISTERS], value: R::Value)
    ensures { Leaves (R.with value) image.old image.new }
{
    image[R::PLACE] = value.number();
}
