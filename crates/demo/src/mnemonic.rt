// Commands as mnemonics, as document 000 writes them.
use crate::names;
use std::fmt;
use wire::Command;

#[derive(Clone, Copy)]
pub(crate) struct Mnemonic(pub(crate) Command);

// A type of JC.
#[derive(Clone, Copy)]
struct Condition(u8);

impl fmt::Display for Condition {
    fn fmt<W: fmt::Write>(&self, f: &mut fmt::Formatter<W>) -> fmt::Result {
        match self.0 {
            names::ZE => f.write_str("ZE"),
            names::NZ => f.write_str("NZ"),
            names::EQ => f.write_str("EQ"),
            names::ETO => f.write_str("ETO"),
            kind => write!(f, "{kind}"),
        }
    }
}

// A type of WAIT.
#[derive(Clone, Copy)]
struct Waited(u8);

impl fmt::Display for Waited {
    fn fmt<W: fmt::Write>(&self, f: &mut fmt::Formatter<W>) -> fmt::Result {
        match self.0 {
            names::TICKS => f.write_str("TICKS"),
            names::POS => f.write_str("POS"),
            names::LIMSW => f.write_str("LIMSW"),
            kind => write!(f, "{kind}"),
        }
    }
}

impl fmt::Display for Mnemonic {
    fn fmt<W: fmt::Write>(&self, f: &mut fmt::Formatter<W>) -> fmt::Result {
        let kind = self.0.kind;
        let motor = self.0.motor;
        let value = self.0.value.v;
        match self.0.number {
            names::ROR => write!(f, "ROR 0, {value}"),
            names::MST => write!(f, "MST 0"),
            names::MVP => write!(f, "MVP ABS, 0, {value}"),
            names::SAP => write!(f, "SAP {kind}, {motor}, {value}"),
            names::GAP => write!(f, "GAP {kind}, {motor}"),
            names::STAP => write!(f, "STAP {kind}, {motor}"),
            names::SGP => write!(f, "SGP {kind}, {motor}, {value}"),
            names::SIO => write!(f, "SIO {kind}, {motor}, {value}"),
            names::GIO => write!(f, "GIO {kind}, {motor}"),
            names::COMP => write!(f, "COMP {value}"),
            names::JC => write!(f, "JC {}, {value}", Condition(kind)),
            names::JA => write!(f, "JA {value}"),
            names::CSUB => write!(f, "CSUB {value}"),
            names::RSUB => write!(f, "RSUB"),
            names::WAIT => write!(f, "WAIT {}, 0, {value}", Waited(kind)),
            names::CLE => write!(f, "CLE ETO"),
            names::START_DOWNLOAD => write!(f, "start download at {value}"),
            names::END_DOWNLOAD => write!(f, "end download"),
            names::READ_PROGRAM => write!(f, "read the command of record {value}"),
            number => write!(f, "command {number}"),
        }
    }
}
