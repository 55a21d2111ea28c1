// Numbers of commands and their types, and of parameters, by their names. They stay numbers, since a
// `Command` of `wire` is bytes that may be of no command, and the trace names it by the record as it stands:
// an enum would want a case for none of these, and would be read off by the same arms.
pub(crate) const ROR: u8 = 1;

pub(crate) const MST: u8 = 3;

pub(crate) const MVP: u8 = 4;

pub(crate) const SAP: u8 = 5;

pub(crate) const GAP: u8 = 6;

pub(crate) const STAP: u8 = 7;

pub(crate) const SGP: u8 = 9;

pub(crate) const SIO: u8 = 14;

pub(crate) const GIO: u8 = 15;

pub(crate) const COMP: u8 = 20;

pub(crate) const JC: u8 = 21;

pub(crate) const JA: u8 = 22;

pub(crate) const CSUB: u8 = 23;

pub(crate) const RSUB: u8 = 24;

pub(crate) const WAIT: u8 = 27;

pub(crate) const CLE: u8 = 36;

pub(crate) const START_DOWNLOAD: u8 = 132;

pub(crate) const END_DOWNLOAD: u8 = 133;

pub(crate) const READ_PROGRAM: u8 = 134;

// Types of JC.
pub(crate) const ZE: u8 = 0;

pub(crate) const NZ: u8 = 1;

pub(crate) const EQ: u8 = 2;

pub(crate) const ETO: u8 = 8;

// Types of WAIT.
pub(crate) const TICKS: u8 = 0;

pub(crate) const POS: u8 = 1;

pub(crate) const LIMSW: u8 = 3;

pub(crate) const MAXIMUM_CURRENT: u8 = 11;

pub(crate) const SPEED_LIMIT: u8 = 43;

pub(crate) const ACCELERATION: u8 = 44;

pub(crate) const TARGET_POSITION: u8 = 50;

pub(crate) const ACTUAL_POSITION: u8 = 52;

pub(crate) const REACHED: u8 = 55;

pub(crate) const RIGHT_SWITCH: u8 = 211;

pub(crate) const AUTO_START: u8 = 77;

// The bank of the outputs.
pub(crate) const OUTPUTS: u8 = 2;
