ghost use Rattle.std.specs.Prelude.{◌≡◌, ◌==◌, find, map};
ghost use Rattle.std.specs.List.{list_any};
ghost use Rattle.bw_world.specs.DomainStep.{with_bw, task_with_bw, without, without_task};

/// A ticket in hand, with the bandwidth that it holds.
#[derive(Clone, Copy)]
pub(crate) struct Ticket {
    pub id: u64,
    pub bw: u64,
}

/// An admitted task, with its ticket and the bandwidth that it holds.
#[derive(Clone, Copy)]
pub(crate) struct Task {
    pub number: u32,
    pub ticket: u64,
    pub bw: u64,
}

/// The ticket with this id.
pub(crate) fn ticket_of(tickets: &[Ticket], id: u64) -> Option<Ticket>
    ensures { result ≡ find (λ t. t.id == id) tickets.now }
{
    tickets.iter().copied().find(|t| t.id == id)
}

/// The task that holds the ticket with this id.
pub(crate) fn task_of(tasks: &[Task], id: u64) -> Option<Task>
    ensures { result ≡ find (λ t. t.ticket == id) tasks.now }
{
    tasks.iter().copied().find(|t| t.ticket == id)
}

/// Some ticket has this id.
pub(crate) fn any_ticket(tickets: &[Ticket], id: u64) -> bool
    ensures { result ≡ list_any (λ t. t.id == id) tickets.now }
{
    tickets.iter().any(|t| t.id == id)
}

/// Some task holds the ticket with this id.
pub(crate) fn any_task(tasks: &[Task], id: u64) -> bool
    ensures { result ≡ list_any (λ t. t.ticket == id) tasks.now }
{
    tasks.iter().any(|t| t.ticket == id)
}

/// Some task has this number.
pub(crate) fn any_number(tasks: &[Task], number: u32) -> bool
    ensures { result ≡ list_any (λ t. t.number == number) tasks.now }
{
    tasks.iter().any(|t| t.number == number)
}

// Gives a ticket another bandwidth, where it has this id.
fn set_if_ticket(t: &mut Ticket, id: u64, bw: u64)
    ensures { t.new ≡ with_bw id bw t.old }
{
    if t.id == id {
        t.bw = bw;
    }
}

/// Gives the ticket with this id another bandwidth.
pub(crate) fn set_ticket_bw(tickets: &mut Vec<Ticket>, id: u64, bw: u64)
    ensures { tickets.new.items ≡ map (with_bw id bw) tickets.old.items }
{
    for t in tickets.iter_mut() {
        set_if_ticket(t, id, bw);
    }
}

// Gives a task another bandwidth, where it holds the ticket with this id.
fn set_if_task(t: &mut Task, id: u64, bw: u64)
    ensures { t.new ≡ task_with_bw id bw t.old }
{
    if t.ticket == id {
        t.bw = bw;
    }
}

/// Gives the task that holds the ticket with this id another bandwidth.
pub(crate) fn set_task_bw(tasks: &mut Vec<Task>, id: u64, bw: u64)
    ensures { tasks.new.items ≡ map (task_with_bw id bw) tasks.old.items }
{
    for t in tasks.iter_mut() {
        set_if_task(t, id, bw);
    }
}

/// Takes the ticket with this id off the list.
pub(crate) fn remove_ticket(tickets: &mut Vec<Ticket>, id: u64)
    ensures { tickets.new.items ≡ without id tickets.old.items }
{
    tickets.retain(|t| t.id != id);
}

/// Takes the task that holds the ticket with this id off the list.
pub(crate) fn remove_task(tasks: &mut Vec<Task>, id: u64)
    ensures { tasks.new.items ≡ without_task id tasks.old.items }
{
    tasks.retain(|t| t.ticket != id);
}
