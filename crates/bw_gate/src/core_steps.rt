ghost use Rattle.bw_gate.specs.Core.{KeepsTheLaw, TakesAsTheCore, RegradesAsTheCore, GivesAsTheCore, LoadsAsTheCore, LimitsAsTheCore};

/// The gate's steps are those of the pure core, `bw_world`. It does nothing; its contract says of
/// the definitions that the rule of a gate's table is the core's law in each domain; that a try of
/// the gate answers as the core's Take, Regrade or Limit does at a domain with the word that the
/// try's last step found, or for a limit that is set the word before it; and that a give and a load
/// do as the core's Give of a ticket in hand and its Load do at a domain with the word that their
/// step found.
pub fn steps_are_the_cores()
    ensures law { KeepsTheLaw }
    ensures take { TakesAsTheCore }
    ensures regrade { RegradesAsTheCore }
    ensures give { GivesAsTheCore }
    ensures load { LoadsAsTheCore }
    ensures limit { LimitsAsTheCore }
{}
