//! The texts of `--help`.

pub(crate) static ABOUT: &str =
    "A model of Linux SCHED_DEADLINE: deadline tasks in, trace, figures and chart out";

pub(crate) static ABOUT_END: &str = "\
`dlsim run` reads an rt-app file, `dlsim replay` recorded calls, both from
standard input. Both write a trace, with the lines of ftrace's event
sched_switch, or with `--print` another text, as who was late and by how much,
or a picture of who ran where.
`dlsim compare` sets a trace beside one that a kernel recorded, and
`dlsim import` makes calls of what a kernel recorded.

  dlsim run < examples/periodic.json
  dlsim run --print summary < examples/periodic.json
  dlsim run --print chart < examples/periodic.json > periodic.svg
  dlsim replay < examples/reclaiming.calls
  dlsim compare model.txt recorded.txt
  dlsim import tasks.txt recorded.txt > mine.calls

Exit status: 0 done; 1 bad input; 2 wrong words; 3 reading or writing failed;
4 out of memory. Where it is not 0, a line on standard error says why, and
nothing was written, unless that line says `write failed after N`.
docs/FORMATS.md explains every option, format and message.";

pub(crate) static REPLAY_ABOUT: &str =
    "Runs recorded calls and writes their trace, replies, figures or chart";

pub(crate) static REPLAY_END: &str = "\
In:  a calls text on standard input: the line `dlcalls 1`, then for each root
     domain a line `domain CPUS LIMIT` and a line for each call on it.
Out: the text that --print names, of all domains:
     trace    `# tracer: nop`, then a line for each switch of a CPU, as ftrace
              prints its event sched_switch, by time and CPU
     replies  the calls of each domain, each with its reply, as
              `leave 1 2 = Left`
     events   the trace, and between its lines those of what happens to tasks:
              jobs that are released and end, throttles, replenishments
     jobs     a line for each job: its release, end, response time and slack
     summary  a table each of the tasks, the CPUs and the domains: late jobs,
              response times, throttles, CPU time, bandwidth
     chart    an SVG picture, for a browser: where each task ran, wanted a CPU
              or was throttled, and when its jobs were released and due; the
              part of the run from --from to --to

  dlsim replay < examples/reclaiming.calls
  dlsim replay --print replies < examples/rounding-down.calls
  dlsim replay --print chart < examples/two-cpus.calls > two-cpus.svg

Exit status: 0 done; 1 `dlsim: calls 30 line N`, the first bad line; 2 wrong
words, `dlsim: empty window` or `dlsim: no chart to cut`; 3 `dlsim: read failed`
or `dlsim: write failed after N`; 4 `dlsim: out of memory`.
docs/FORMATS.md explains the format and the messages.";

pub(crate) static RUN_ABOUT: &str =
    "Runs an rt-app scenario and writes its trace, calls, figures or chart";

pub(crate) static RUN_END: &str = "\
In:  an rt-app file (JSON) on standard input: `tasks` with the policy
     SCHED_DEADLINE, dl-runtime, dl-deadline and dl-period in microseconds, and
     their events run, sleep and timer; `global` with the `duration` in
     seconds, 0 to 60.
Out: the text that --print names, of all domains:
     trace    `# tracer: nop`, then a line for each switch of a CPU, as ftrace
              prints its event sched_switch, by time and CPU
     calls    the calls that were made, of which `dlsim replay` writes that
              same trace
     replies  these calls, each with its reply
     events   the trace, and between its lines those of what happens to tasks:
              jobs that are released and end, throttles, replenishments
     jobs     a line for each job: its release, end, response time and slack
     summary  a table each of the tasks, the CPUs and the domains: late jobs,
              response times, throttles, CPU time, bandwidth
     promises a line for each task: `never late` in a run of any length and
              whatever the other tasks do, or why that is not promised; the
              tasks are admitted, and no time passes
     chart    an SVG picture, for a browser: where each task ran, wanted a CPU
              or was throttled, and when its jobs were released and due; the
              part of the run from --from to --to
Err: a line for each task that was not admitted, as
     `dlsim: task 4 EBUSY 16 seen 1572864`; the others run.

  dlsim run --domains 2 < examples/race.json > race.txt
  dlsim run --print summary < examples/periodic.json
  dlsim run --print chart --to 100000 < examples/periodic.json > periodic.svg

Exit status: 0 done, refused tasks or not; 1 the input is no JSON (`dlsim: json
KIND at BYTE`) or no scenario (`dlsim: scenario 22 key resources`); 2 wrong
words, `dlsim: empty window`, `dlsim: no chart to cut`, `dlsim: bad list` or
`dlsim: limit out of range`; 3 `dlsim: read failed`, `dlsim: write failed after
N`, `dlsim: no thread` or `dlsim: book full`; 4 `dlsim: out of memory`.
docs/FORMATS.md explains the options, the keys and the messages.";

pub(crate) const DOMAINS_HELP: &str = "\
CPUs of each root domain: 1 to 8 numbers from 1 to 64, with commas and no
spaces. The first domain has the first CPUs of the machine";

pub(crate) const RUNTIME_HELP: &str = "\
What deadline tasks may take of each CPU in --rt-period: 1 to 1000000000
microseconds, and 1 % to 100 % of that period";

pub(crate) const PERIOD_HELP: &str = "The period of --rt-runtime: 1 to 1000000000 microseconds";

pub(crate) const CLIENTS_HELP: &str = "\
How many clients admit the tasks, 1 to 64, each in a thread of its own: the
tasks 1, 2, .. go round them. Who is refused may depend on who came first";

pub(crate) const WORKERS_HELP: &str = "\
How many domains are simulated side by side while a trace is written, each in
a thread of its own, 1 to 8; the trace is the same for any number. The other
texts are made in one thread";

pub(crate) const RECLAIM_HELP: &str = "\
Every task reclaims unused bandwidth (GRUB, SCHED_FLAG_RECLAIM); without it
none does";

pub(crate) const PRINT_HELP: &str = "Which of the texts under `Out:` is written\n";

pub(crate) const FROM_HELP: &str = "\
The microsecond of the run at which a chart begins, 0 to 4398046511104
[default: 0]";

pub(crate) const TO_HELP: &str = "\
The microsecond at which it ends, 1 to 4398046511104 and above --from
[default: the end of the run]";

pub(crate) static COMPARE_ABOUT: &str = "Sets a recorded trace beside the model's";

pub(crate) static COMPARE_END: &str = "\
In:  MODEL, a trace that this program wrote, and RECORDED, text that ftrace,
     `trace-cmd report` or `perf script` printed; `-` is standard input, for
     one of the two.
Out: the shift between both clocks; a line for each task of MODEL with its
     runs, how many were matched and how far these were apart; how many of
     all runs matched; and the first run of either side that nothing of the
     other matches.

  dlsim run < mine.json > model.txt
  dlsim compare model.txt recorded.txt

Exit status: 0 compared, matched or not; 1 `dlsim: trace line N in FILE`, a line
of sched_switch in no such form, or `dlsim: no switch in FILE`; 2 wrong words;
3 a file that cannot be opened or read, with its name, or `dlsim: write failed
after N`; 4 `dlsim: out of memory`; 5 fewer runs matched than --fail-under asks
for, with how many. docs/FORMATS.md explains the table and the messages.";

pub(crate) const MODEL_HELP: &str = "A trace of this program; `-` is standard input";

pub(crate) const RECORDED_HELP: &str = "A recorded trace; `-` is standard input";

pub(crate) const WITHIN_HELP: &str = "\
Two runs match where their starts and their ends are at most so many
microseconds apart, 0 to 1000000000";

pub(crate) const NOISE_HELP: &str = "\
Runs of a task with less than so many microseconds between them are one, and
shorter runs are left out, 0 to 1000000000 [default: 100 where each run of
MODEL is longer, else 0]";

pub(crate) const SHIFT_HELP: &str = "\
Microseconds from a time in MODEL to the same time in RECORDED, as --shift=-5
where it is negative [default: that under which most runs match]";

pub(crate) const CPUS_HELP: &str = "\
Also says how many of the matched runs were on the same CPU";

pub(crate) const FAIL_UNDER_HELP: &str = "\
Ends with status 5 if fewer than so many per cent of MODEL's runs match, 0 to
100 [default: never]";

pub(crate) static IMPORT_ABOUT: &str = "Makes the calls of a workload from what a kernel recorded";

pub(crate) static IMPORT_END: &str = "\
In:  TASKS, a short file: the line `dltasks 1`, then for each task a line
     `name Q D P f`, its name, dl-runtime, dl-deadline and dl-period in
     microseconds and its flags; RECORDED, text that ftrace, `trace-cmd report`
     or `perf script` printed, with the events sched_switch and sched_wakeup;
     `-` is standard input, for one of the two.
Out: the text that --print names:
     calls    the calls of a workload: each task with the jobs that RECORDED
              shows, how long each worked and when it was released
     jobs     a line for each task: how many jobs, how many of them were woken,
              how long they worked and how far apart they were released

  trace-cmd record -e sched_switch -e sched_wakeup ./my-program
  trace-cmd report > recorded.txt
  dlsim import tasks.txt recorded.txt > mine.calls
  dlsim replay --print summary < mine.calls

Exit status: 0 done; 1 `dlsim: tasks line N in FILE` or `dlsim: trace line N in
FILE`, the first bad line, or a line that says why there is no workload; 2 wrong
words, `dlsim: empty window`, `dlsim: limit out of range` or `dlsim: both inputs
are standard input`; 3 a file that cannot be opened or read, with its name, or
`dlsim: write failed after N`; 4 `dlsim: out of memory`.
docs/FORMATS.md explains the files, the rules and the messages.";

pub(crate) const TASKS_HELP: &str = "The tasks to look for; `-` is standard input";

pub(crate) const IMPORT_CPUS_HELP: &str = "\
CPUs of the domain, 1 to 64 [default: the number of CPUs on which the tasks
ran]";

pub(crate) const COUNTS_FROM_HELP: &str = "\
Ignores what was recorded before this microsecond of the recording's clock, 0
to 1152921504606846976 [default: 0]";

pub(crate) const COUNTS_TO_HELP: &str = "\
Ignores what was recorded after this microsecond, which is above --from
[default: the end]";

pub(crate) const ANY_POLICY_HELP: &str = "\
Counts a switch to a task whatever its priority; without it only one below 0,
which is that of deadline tasks";
