// Where each register stands in the image, and the first of those that stand in a row. Whoever names a place
// names it by these.
pub const ACCUMULATOR: usize = 0;

pub const X: usize = 1;

// The last comparison.
pub const LAST: usize = 2;

pub const ETO: usize = 3;

pub const EAL: usize = 4;

pub const EDV: usize = 5;

pub const EPO: usize = 6;

// The program address.
pub const ADDRESS: usize = 7;

pub const RUNNING: usize = 8;

// A wait: whether it is armed, its count, and whether the value it was armed with was above 0.
pub const ARMED: usize = 9;

pub const COUNT: usize = 10;

pub const TIMED: usize = 11;

// Download mode.
pub const DOWNLOADING: usize = 12;

pub const WRITE_ADDRESS: usize = 13;

// The motion order, and its velocity.
pub const ORDER: usize = 14;

pub const VELOCITY: usize = 15;

pub const OUTPUTS: usize = 16;

pub const DIGITAL: usize = 20;

pub const ANALOG: usize = 22;

// The call stack: its depth, and its eight return addresses.
pub const DEPTH: usize = 25;

pub const ENTRIES: usize = 26;

// The globals of bank 0 that are values, and behind them the user variables.
pub const GLOBALS: usize = 34;

// The axis parameters, by rising number; last, so that more of them can follow.
pub const AXIS: usize = 94;
