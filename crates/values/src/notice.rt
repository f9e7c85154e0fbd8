//! Notices: what instrument is in service, or was withdrawn.
ghost use Rattle.std.specs.Prelude.{Some};
ghost use Rattle.values.specs.Making.{Made};
ghost use Rattle.values.specs.Notices.{coded_notice, in_service_out, IsInService, IsWithdrawn, withdrawn_out};
ghost use Rattle.values.specs.Texts.{notice_text};
ghost use Rattle.values.specs.declared.notice.Notice.TheVariants.{NoneInService};
ghost use Rattle.values.specs.Codings.{gives_back_lem, notice_apart};
ghost use Rattle.std.proofs.Common.{rules};

use super::fault::{Part, ValueFault};
use super::value::{Payloads, Value};
use parts::bounded::{Day, Reason, Serial};
use std::fmt;

/// A notice: none in service, or the serial number in service or withdrawn, with its day, and for a withdrawal
/// the reason.
#[derive(Clone, Copy, PartialEq, Eq, Debug)]
pub enum Notice {
    NoneInService,
    InService {
        serial: Serial,
        day: Day,
    },
    Withdrawn {
        serial: Serial,
        day: Day,
        reason: Reason,
    },
}

impl fmt::Display for Notice {
    ghost output = { λ n. Some (notice_text n) };

    fn fmt<W: fmt::Write>(&self, f: &mut fmt::Formatter<W>) -> fmt::Result {
        match *self {
            Notice::NoneInService => write!(f, "none in service"),
            Notice::InService { serial, day } => write!(f, "in service serial {serial} day {day}"),
            Notice::Withdrawn {
                serial,
                day,
                reason,
            } => { write!(f, "withdrawn serial {serial} day {day} reason {reason}") }
        }
    }
}

impl Notice {
    /// The notice of a serial number in service; refused for the first part that is out of range.
    pub fn in_service(serial: u32, day: u32) -> Result<Notice, ValueFault>
        ensures { Made (in_service_out serial day) (IsInService serial day) result }
    {
        Ok(Notice::InService {
            serial: Serial::new(serial).ok_or(ValueFault::OutOfRange(Part::Second))?,
            day: Day::new(day).ok_or(ValueFault::OutOfRange(Part::Third))?,
        })
    }

    /// The notice of a withdrawal; refused for the first part that is out of range.
    pub fn withdrawn(serial: u32, day: u32, reason: u32) -> Result<Notice, ValueFault>
        ensures { Made (withdrawn_out serial day reason) (IsWithdrawn serial day reason) result }
    {
        Ok(Notice::Withdrawn {
            serial: Serial::new(serial).ok_or(ValueFault::OutOfRange(Part::Second))?,
            day: Day::new(day).ok_or(ValueFault::OutOfRange(Part::Third))?,
            reason: Reason::new(reason).ok_or(ValueFault::OutOfRange(Part::Fourth))?,
        })
    }
}

impl Value for Notice {
    const KIND: u32 = 2;

    ghost KIND = { 2 };

    ghost empty = { NoneInService };

    ghost coded = { coded_notice };

    ghost in_limits = { Prim.search rules };

    ghost gives_back = { gives_back_lem coded_notice notice_apart };

    ghost own_payloads = { Prim.search rules };

    fn blank() -> Notice {
        Notice::NoneInService
    }

    // The first payload tells the sort of notice: 0, 1 and 2 are the numbers of the format.
    fn code(&self) -> Payloads {
        match *self {
            Notice::NoneInService => Payloads {
                first: 0,
                second: 0,
                third: 0,
                fourth: 0,
            },
            Notice::InService { serial, day } => {
                Payloads {
                    first: 1,
                    second: serial.get(),
                    third: day.get(),
                    fourth: 0,
                }
            }
            Notice::Withdrawn {
                serial,
                day,
                reason,
            } => {
                Payloads {
                    first: 2,
                    second: serial.get(),
                    third: day.get(),
                    fourth: reason.get(),
                }
            }
        }
    }

    fn uncode(payloads: Payloads) -> Result<Notice, ValueFault> {
        match payloads {
            Payloads {
                first: 0,
                second: 0,
                third: 0,
                fourth: 0,
            } => Ok(Notice::NoneInService),
            Payloads {
                first: 1,
                second,
                third,
                fourth: 0,
            } => Ok(Notice::InService {
                serial: Serial::new(second).ok_or(ValueFault::NoValue)?,
                day: Day::new(third).ok_or(ValueFault::NoValue)?,
            }),
            Payloads {
                first: 2,
                second,
                third,
                fourth,
            } => Ok(Notice::Withdrawn {
                serial: Serial::new(second).ok_or(ValueFault::NoValue)?,
                day: Day::new(third).ok_or(ValueFault::NoValue)?,
                reason: Reason::new(fourth).ok_or(ValueFault::NoValue)?,
            }),
            _ => Err(ValueFault::NoValue),
        }
    }
}
