use attr_check::{AttrRefusal, Params};
use domain_run::Reply;
use std::fmt;

/// Why a call of a client stands in no book, or an admission was answered EBUSY there. The client
/// holds no ticket then. [`Refusal::Esrch`], [`Refusal::Stale`] and [`Refusal::SameDomain`] are
/// answers to a move alone.
#[derive(Clone, Copy, Debug)]
pub enum Refusal {
    /// EINVAL 22: the task's attributes are not accepted (sched_setattr(2)).
    Einval(AttrRefusal),
    /// EPERM 1: the task's CPUs are not exactly those of one domain (sched_setattr(2)).
    Eperm,
    /// 40: there is no blank left for the client, the book is full, or 256 tasks are listed.
    Full,
    /// 41: a task of this number was admitted to the domain before.
    Twice,
    /// ENOMEM 12: a growth was refused.
    Enomem,
    /// EBUSY 16: the bandwidth found does not leave enough below the cap (sched-deadline.rst,
    /// "Bandwidth management").
    Busy {
        /// The bandwidth found in use, in 1/2^20 of a CPU: of the gate's word, what was used of it.
        seen: u64,
    },
    /// ESRCH 3: no task of this number is listed where it was to go from, or it has ended
    /// (sched_setattr(2)).
    Esrch,
    /// 43: the task was changed since its move was prepared.
    Stale {
        /// The parameters that it had then.
        now: Params,
    },
    /// 44: a task was to move from a domain to this domain itself.
    SameDomain,
}

/// What a client's call is answered: the reply that stands in the domain's book and in the client's
/// list, or why there is none.
pub type Answer = Result<Reply, Refusal>;

impl fmt::Display for Refusal {
    ghost use Rattle.std.specs.Prelude.{Some};
    ghost use Rattle.session.specs.RefusalText.{refusal_text};

    ghost output = { λ refusal. Some (refusal_text refusal) };

    fn fmt<W: fmt::Write>(&self, f: &mut fmt::Formatter<W>) -> fmt::Result {
        f.write_str(match self {
            Refusal::Einval(_) => "EINVAL 22 ",
            Refusal::Eperm => "EPERM 1",
            Refusal::Full => "Full 40",
            Refusal::Twice => "Twice 41",
            Refusal::Enomem => "ENOMEM 12",
            Refusal::Busy { .. } => "EBUSY 16 seen ",
            Refusal::Esrch => "ESRCH 3",
            Refusal::Stale { .. } => "Stale 43",
            Refusal::SameDomain => "SameDomain 44",
        })?;
        match self {
            Refusal::Einval(kind) => kind.fmt(f),
            Refusal::Busy { seen } => write!(f, "{seen}"),
            _ => Ok(()),
        }
    }
}
