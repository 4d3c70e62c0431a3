ghost use Rattle.std.specs.Prelude.{◌≡◌, Some};
ghost use Rattle.rtapp_scenario.specs.FaultText.{IsFaultTold, flaw_seen, fault_number};

use crate::flaw::Flaw;
use std::alloc::{AllocError, AllocFailed, Global};
use std::error::Error;
use std::fmt;

/// Why a JSON value is no scenario: the first test that it fails. Each fault has a number, 20 to 28
/// in this order.
#[derive(Debug, Drop)]
pub enum ScenarioFault {
    /// 20: the root is no object with a member `tasks` that is an object with at least one member.
    NoTasks,
    /// 21: the root has no object `global` with a `duration` of 0 to 60 whole seconds.
    Duration,
    /// 22: the profile has no such key here; or, at `mode` and `ref`, no such value.
    Unsupported(String),
    /// 23: the value at this key is not one that it takes, or is missing.
    Value(String),
    /// 24: a thread's name is not 1 to 64 bytes of codes 0x21 to 0x7e.
    Name,
    /// 25: a thread's `policy` is missing, or not `SCHED_DEADLINE`.
    Policy,
    /// 26: more than 64 phases in a thread, 64 events in a phase, or 256 tasks.
    TooMany,
    /// 27: a phase has no event of 1 us or more.
    Idle,
    /// 28: a growth was refused. It may come before any other fault.
    Memory,
}

impl ScenarioFault {
    /// The fault's number, 20 to 28.
    pub fn number(&self) -> u32
        ensures { result ≡ fault_number self.now }
    {
        match self {
            ScenarioFault::NoTasks => 20,
            ScenarioFault::Duration => 21,
            ScenarioFault::Unsupported(_) => 22,
            ScenarioFault::Value(_) => 23,
            ScenarioFault::Name => 24,
            ScenarioFault::Policy => 25,
            ScenarioFault::TooMany => 26,
            ScenarioFault::Idle => 27,
            ScenarioFault::Memory => 28,
        }
    }
}

impl fmt::Display for ScenarioFault {
    ghost use Rattle.std.specs.Prelude.{Some};
    ghost use Rattle.rtapp_scenario.specs.FaultText.{scenario_fault_text};

    ghost output = { λ fault. Some (scenario_fault_text fault) };

    fn fmt<W: fmt::Write>(&self, f: &mut fmt::Formatter<W>) -> fmt::Result {
        let number = self.number();
        match self {
            ScenarioFault::Unsupported(key) => write!(f, "scenario {number} key {key}"),
            ScenarioFault::Value(key) => write!(f, "scenario {number} key {key}"),
            _ => write!(f, "scenario {number}"),
        }
    }
}

impl Error for ScenarioFault {}

impl From<AllocError> for ScenarioFault {
    ghost use Rattle.std.specs.Prelude.{◌≡◌};
    ghost use Rattle.rtapp_scenario.specs.declared.fault.ScenarioFault.TheVariants.{Memory};

    ghost from_gives = { λ _ fault. fault ≡ Memory };

    fn from(_e: AllocError) -> ScenarioFault {
        ScenarioFault::Memory
    }
}

impl<T: Drop> From<AllocFailed<T>> for ScenarioFault {
    ghost use Rattle.std.specs.Prelude.{◌≡◌};
    ghost use Rattle.rtapp_scenario.specs.declared.fault.ScenarioFault.TheVariants.{Memory};

    ghost from_gives = { λ _ fault. fault ≡ Memory };

    fn from(_e: AllocFailed<T>) -> ScenarioFault {
        ScenarioFault::Memory
    }
}

/// The fault with a key of its own, or want of memory for that.
pub(crate) fn fault_of(alloc: Global, flaw: Flaw<'_>) -> ScenarioFault
    ensures { IsFaultTold (Some (flaw_seen flaw.entry)) result }
{
    match flaw {
        Flaw::Unsupported(key) => match String::from_str(alloc, key) {
            Ok(key) => ScenarioFault::Unsupported(key),
            Err(_) => ScenarioFault::Memory,
        },
        Flaw::Value(key) => match String::from_str(alloc, key) {
            Ok(key) => ScenarioFault::Value(key),
            Err(_) => ScenarioFault::Memory,
        },
        Flaw::Name => ScenarioFault::Name,
        Flaw::Policy => ScenarioFault::Policy,
        Flaw::TooMany => ScenarioFault::TooMany,
        Flaw::Idle => ScenarioFault::Idle,
    }
}
