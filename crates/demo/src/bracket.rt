// The bracket that the motor tilts: 10 ms of it at a time. The board does not move it; it only gives the
// order that the motor follows.
use crate::names;
use reg_image::REGISTERS;
use registers::Order;

// Where the right limit switch is. There is no left one.
const TOP: i32 = 320;

// What is outside the board: the time since the ignition in ticks, the bracket and how low it can go, and
// the driver's buttons.
#[derive(Clone, Copy, Default)]
pub(crate) struct Outside {
    pub(crate) time: u64,
    pub(crate) position: i32,
    pub(crate) lowest: i32,
    pub(crate) up: bool,
    pub(crate) down: bool,
}

// An axis parameter, by its number.
pub(crate) fn parameter(image: &[u32; REGISTERS], number: u8) -> i32 {
    reg_image::get_at::<reg_image::Value>(image, places::axis_place(number)).v
}

// How far the bracket goes in 10 ms at a velocity; it has no way below 0.
fn way_at(velocity: i32) -> i32 {
    velocity.max(0) / 100
}

// Up by a way, and not past the highest place.
fn raised(position: i32, way: i32, highest: i32) -> i32 {
    position.saturating_add(way).min(highest).max(position)
}

// Down by a way, and not past the lowest place.
fn lowered(position: i32, way: i32, lowest: i32) -> i32 {
    position.saturating_sub(way).max(lowest).min(position)
}

impl Outside {
    // The position 10 ms on under the board's order: at a velocity to the right, or to the target position
    // at the speed limit, and not past it.
    pub(crate) fn moved(&self, image: &[u32; REGISTERS]) -> i32 {
        match reg_image::get::<reg_image::MotionOrder>(image) {
            Order::Velocity => raised(
                self.position,
                way_at(reg_image::get::<reg_image::Velocity>(image).v),
                TOP,
            ),
            Order::Position => {
                let target = parameter(image, names::TARGET_POSITION).max(0);
                let way = way_at(parameter(image, names::SPEED_LIMIT));
                if self.position <= target {
                    raised(self.position, way, target)
                } else {
                    lowered(self.position, way, target.max(self.lowest))
                }
            }
            Order::Stopped => self.position,
        }
    }

    fn is_at_target(&self, image: &[u32; REGISTERS]) -> bool {
        let target = parameter(image, names::TARGET_POSITION);
        matches!(
            reg_image::get::<reg_image::MotionOrder>(image),
            Order::Position
        ) && target == self.position
    }

    // What the board measures: positions, the reached flag, three switches, supply voltage, temperature,
    // the buttons, three analog inputs, three alarms.
    pub(crate) fn sample(&self, image: &[u32; REGISTERS]) -> [i32; 16] {
        let at = self.position;
        let reached = i32::from(self.is_at_target(image));
        let right = i32::from(TOP <= at);
        let up = i32::from(self.up);
        let down = i32::from(self.down);
        [
            at, at, reached, right, 0, 0, 240, 25, up, down, 0, 0, 0, 0, 0, 0,
        ]
    }
}
