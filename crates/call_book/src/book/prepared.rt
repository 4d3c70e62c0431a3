//! An admission that is ready to be made, for which no memory is needed any more.

ghost use Rattle.std.specs.Prelude.{◌≡◌, ◌↔◌, ◌≤◌, ◌^◌, IsTrue, IfOk};
ghost use Rattle.domain_run.specs.Calls as rules;
ghost use Rattle.domain_run.specs.declared.call.Reply.TheVariants.{Admitted};
ghost use Rattle.calls_text.specs.Limits.{IsTaskNumber, IsAdmission, IsCall};
ghost use Rattle.call_book.specs.MoveAnswers.{moving_as, arrival};
ghost use Rattle.call_book.specs.Book.{AdmissionView};
ghost use Rattle.call_book.specs.private.Listing.{IsListing};

use crate::book::same::{same_name, same_params, same_script};
use attr_check::Params;
use domain_run::{Call, Name, NoMemory, Refused, Reply, Script, State};
use std::alloc::Global;
use std::marker::Model;

/// A task that is ready to be admitted, with a name and a script for the domain, and the same again
/// for the history.
#[derive(Drop)]
pub struct Prepared {
    number: u32,
    params: Params,
    delay: u64,
    name: Name,
    script: Script,
    entry_name: Name,
    entry_script: Script,
}

impl Model for Prepared {
    ghost use Rattle.std.specs.Prelude.{◌≡◌};
    ghost use Rattle.calls_text.specs.Limits.{IsAdmission};
    ghost use Rattle.call_book.specs.Book.{AdmissionView};

    ghost Value = { AdmissionView };

    ghost view = { λ p. record {
      number = p.number;
      name = p.name;
      params = p.params;
      delay = p.delay;
      script = p.script;
    } };

    ghost invariant = { λ p. (p.entry_name ≡ p.name) × (p.entry_script ≡ p.script)
        × IsAdmission p.number p.name p.params p.delay p.script };
}

/// What a domain says to an admission.
pub(crate) enum Listing {
    /// The task is listed.
    Listed { number: u32, call: Call },
    /// The bandwidth does not fit.
    Busy { seen: u64, call: Call },
    /// 256 tasks are listed.
    Full { prepared: Prepared },
    /// The number was admitted before.
    Twice { prepared: Prepared },
}

/// All growths of an admission: copies of the name, for the domain and for the history, and a copy
/// of the script, which both share. A script that is shared already takes no memory. The admission
/// starts a task of a number from 1 to 65535 after a delay of at most 10^9 us. [`NoMemory`] (ENOMEM
/// 12) where a growth was refused: nothing stands.
pub fn prepare(
    alloc: Global,
    number: u32,
    name: &Name,
    params: Params,
    delay: u64,
    script: &Script,
) -> Result<Prepared, NoMemory>
    requires { IsAdmission number name.now params delay script.now }
    ensures { IfOk result (λ p. p
        ≡ record {
          number = number;
          name = name.now;
          params = params;
          delay = delay;
          script = script.now;
        }) }
{
    let (own_name, copy) = copies_of(alloc, name, script)?;
    // Laid out here, as the admission itself is made under a lock.
    let own_script = copy.share(alloc);
    // Each is let go of by one call, not written out with all that is inside.
    let Ok((entry_name, entry_script)) = copies_of(alloc, name, &own_script) else {
        drop(own_name);
        drop(own_script);
        return Err(NoMemory);
    };
    Ok(Prepared {
        number,
        params,
        delay,
        name: own_name,
        script: own_script,
        entry_name,
        entry_script,
    })
}

/// A copy of the name, and then one of the script.
fn copies_of(alloc: Global, name: &Name, script: &Script) -> Result<(Name, Script), NoMemory>
    ensures name { IfOk result (λ p. p.0 ≡ name.now) }
    ensures script { IfOk result (λ p. p.1 ≡ script.now) }
{
    let name = copy_of_name(alloc, name)?;
    match script.copy(alloc) {
        Ok(script) => Ok((name, script)),
        Err(NoMemory) => {
            drop(name);
            Err(NoMemory)
        }
    }
}

fn copy_of_name(alloc: Global, name: &Name) -> Result<Name, NoMemory>
    ensures { IfOk result (λ n. n ≡ name.now) }
{
    let text = String::from_str(alloc, name.as_str())?;
    match Name::new(text) {
        Ok(name) => Ok(name),
        Err(_) => unreachable!(),
    }
}

impl Prepared {
    /// The bandwidth of the task, in 1/2^20 of a CPU, at most the whole: that of the ticket with
    /// which it is admitted.
    pub fn bw(&self) -> u64
        ensures value { result ≡ self.now.params.bw }
        ensures most { result ≤ 2 ^ 20 }
    {
        self.params.bw
    }

    /// The number of the task, 1 to 65535.
    pub(crate) fn number(&self) -> u32
        ensures number { result ≡ self.now.number }
        ensures within { IsTaskNumber result }
    {
        self.number
    }

    /// Its parameters.
    pub(crate) fn params(&self) -> &Params
        ensures { result.now ≡ self.now.params }
    {
        &self.params
    }

    /// Whether a task has this name, these parameters and this script.
    pub(crate) fn is_of(&self, name: &Name, params: &Params, script: &Script) -> bool
        ensures { IsTrue result ↔ (record {
          name = name.now;
          params = params.now;
          script = script.now;
        } ≡ moving_as self.now) }
    {
        same_name(name, &self.name)
            && same_params(params, &self.params)
            && same_script(script, &self.script)
    }

    /// Lists a task that comes from another domain, which has room for it: its number, and the call
    /// as it stands in a history.
    pub(crate) fn arrive(self, state: &mut State) -> (u32, Call)
        requires soon { self.delay ≡ 0 }
        requires granted { rules.reply_to state.old (arrival self) ≡ Admitted }
        ensures state { state.new ≡ rules.after_call state.old (arrival self) }
        ensures number { result.0 ≡ self.number }
        ensures call { result.1 ≡ arrival self }
        ensures spelled { IsCall result.1 }
    {
        let Prepared {
            number,
            params,
            delay,
            name,
            script,
            entry_name,
            entry_script,
        } = self;
        match state.admit(number, name, params, delay, script) {
            Ok(()) => {}
            Err(_) => unreachable!(),
        }
        let call = Call::Arrive {
            number,
            name: entry_name,
            params,
            script: entry_script,
        };
        (number, call)
    }

    /// Makes the admission.
    pub(crate) fn list(self, state: &mut State) -> Listing
        ensures { IsListing state.old state.new self result }
    {
        let Prepared {
            number,
            params,
            delay,
            name,
            script,
            entry_name,
            entry_script,
        } = self;
        let Err(refused) = state.admit(number, name, params, delay, script) else {
            let call = Call::Admit {
                number,
                name: entry_name,
                params,
                delay,
                script: entry_script,
            };
            return Listing::Listed { number, call };
        };
        let Refused {
            reply,
            name,
            script,
        } = refused;
        match reply {
            Reply::Busy { seen } => {
                // Each is let go of by one call, not written out with all that is inside.
                drop(entry_name);
                drop(entry_script);
                let call = Call::Admit {
                    number,
                    name,
                    params,
                    delay,
                    script,
                };
                Listing::Busy { seen, call }
            }
            Reply::Full => Listing::Full {
                prepared: Prepared {
                    number,
                    params,
                    delay,
                    name,
                    script,
                    entry_name,
                    entry_script,
                },
            },
            _ => Listing::Twice {
                prepared: Prepared {
                    number,
                    params,
                    delay,
                    name,
                    script,
                    entry_name,
                    entry_script,
                },
            },
        }
    }
}
