use attr_check::SchedAttr;
use std::marker::Model;
use task_script::{Name, Script};

/// One task of a scenario.
#[derive(Debug, Drop)]
pub struct TaskSpec {
    /// 1 to 65535; in a scenario 1, 2, .. in text order.
    pub number: u32,
    /// 1 to 15 bytes.
    pub name: Name,
    /// Policy 6, flags 0, and runtime, deadline and period in nanoseconds. They are checked at
    /// admission.
    pub attr: SchedAttr,
    /// The CPUs on which the task may run, each 0 to 511; none where the text names none, which
    /// means domain 0.
    pub cpus: Option<Vec<u32>>,
    /// Microseconds from the admission to the task's start, 0 to 10^9.
    pub delay: u64,
    /// What the task does.
    pub script: Script,
}

impl Model for TaskSpec {
    ghost use Rattle.std.specs.Option.{option_map};
    ghost use Rattle.rtapp_scenario.specs.ScenarioView.{TaskSpecView, IsTaskSpec};

    ghost Value = { TaskSpecView };

    ghost view = { λ t. record {
      number = t.number;
      name = t.name;
      attr = t.attr;
      cpus = option_map (λ v. v.items) t.cpus;
      delay = t.delay;
      script = t.script;
    } };

    ghost invariant = { λ t. IsTaskSpec
        (record {
          number = t.number;
          name = t.name;
          attr = t.attr;
          cpus = option_map (λ v. v.items) t.cpus;
          delay = t.delay;
          script = t.script;
        }) };
}

/// A run of tasks.
#[derive(Debug, Drop)]
pub struct Scenario {
    /// How long to run, in microseconds: 0 to 60,000,000.
    pub duration_us: u64,
    /// At most 256, with the numbers 1, 2, ..
    pub tasks: Vec<TaskSpec>,
}

impl Model for Scenario {
    ghost use Rattle.rtapp_scenario.specs.ScenarioView.{ScenarioView};

    ghost Value = { ScenarioView };

    ghost view = { λ s. record { duration_us = s.duration_us; tasks = s.tasks.items } };
}
