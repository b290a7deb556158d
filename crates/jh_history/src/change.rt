//! What an entry does to CPUs.
ghost use Rattle.std.specs.Prelude.{◌≡◌, ℕ, ◌<◌, ◌==◌, Bool, Some, Option, false, slice_get, option_copied, if◌then◌else◌};
ghost use Rattle.jh_num.specs.Below.{any_below};
ghost use Rattle.jh_cpu.specs.declared.cpu.Cpu.{Cpu as TheCpu};
ghost use Rattle.jh_call.specs.Calls.{decoded};
ghost use Rattle.jh_call.specs.declared.call.Call.TheVariants.{Create};
ghost use Rattle.jh_script.specs.declared.image.Image.{Image as TheImage};
ghost use Rattle.jh_history.specs.declared.call.OpenCall.{OpenCall as TheOpenCall};
ghost use Rattle.jh_cpu.specs.Changes.{restarted, parked};
ghost use Rattle.jh_history.specs.Admitted.{IsAdmitted};
ghost use Rattle.jh_history.specs.Facts.{Facts};
ghost use Rattle.jh_history.specs.Cpus.{change_if, change_of, changed, asked_by_begin, is_undenied, cpu_by_settle, end_in_root, runs_by_start, cpu_by_commit, cpu_by_finish, is_granted, switched, is_switch, cpu_by_call, acted, cpu_after, is_running, ListsCpus};

use crate::call::{OpenCall, Phase};
use crate::cells::{is_on_board, program_ops};
use crate::entry::{Act, Entry, Settled};
use crate::form::Form;
use crate::phases::is_named;
use jh_call::{Call, SUCCESS, decode};
use jh_cellcfg::MAX_CPUS;
use jh_cpu::{Cpu, Mode};
use jh_script::Image;

/// What an entry does to its CPU.
#[derive(Clone, Copy, PartialEq, Eq, Debug)]
pub enum Change {
    Stay,
    /// One operation further.
    Step,
    /// One operation further, and failed.
    Fail,
    /// Stopped, and no longer asked to.
    Stop,
}

/// Whether a CPU in this mode runs.
pub(crate) fn is_running(mode: Mode) -> bool
    ensures { result ≡ is_running mode }
{
    match mode {
        Mode::Running => true,
        Mode::Parked | Mode::Failed => false,
    }
}

/// What an access does to its CPU, by whether it succeeded.
fn change_if(good: bool) -> Change
    ensures { result ≡ change_if good }
{
    if good { Change::Step } else { Change::Fail }
}

impl Change {
    /// What the act does to the CPU that makes it, as far as it changes no other CPU.
    pub fn of(act: &Act) -> Change
        ensures { result ≡ change_of act.now }
    {
        match *act {
            Act::Read { got, .. } | Act::Fetch { got, .. } => change_if(got.is_some()),
            Act::Write { ok, .. } | Act::Await { ok, .. } => change_if(ok),
            Act::Irq { .. } | Act::Hvc { .. } => Change::Step,
            Act::Stop => Change::Stop,
            Act::Begin { .. }
            | Act::Decide { .. }
            | Act::Settle { .. }
            | Act::Commit
            | Act::Note { .. }
            | Act::Noted { .. }
            | Act::Finish { .. } => Change::Stay,
        }
    }

    /// Makes the change at the CPU.
    pub fn apply(self, cpu: &mut Cpu)
        ensures { cpu.new ≡ changed self cpu.old }
    {
        match self {
            Change::Stay => {}
            Change::Step => cpu.advance(),
            Change::Fail => {
                cpu.advance();
                cpu.fail();
            }
            Change::Stop => cpu.stop(),
        }
    }
}

/// At a Begin each running CPU of root is asked to stop, but the caller.
fn begin(image: &Image, own: u8, i: u8, cpu: &mut Cpu)
    ensures { cpu.new ≡ asked_by_begin image.now own i cpu.old }
{
    let is_other_of_root = i != own && cpu.owner == image.system.root.id;
    if is_on_board(image, i) && is_other_of_root && is_running(cpu.mode) {
        cpu.ask();
    }
}

/// Whether the call goes on.
fn is_undenied(how: Settled) -> bool
    ensures { result ≡ is_undenied how }
{
    match how {
        Settled::Agreed | Settled::Timeout => true,
        Settled::Denied => false,
    }
}

/// At a Settle that isn't denied each running CPU of the call's cell is asked to stop.
fn settle(undenied: bool, call: &Call, cpu: &mut Cpu)
    ensures { cpu.new ≡ cpu_by_settle undenied call.now cpu.old }
{
    if undenied && is_named(call, u64::from(cpu.owner)) && is_running(cpu.mode) {
        cpu.ask();
    }
}

/// How many operations root's program of the CPU has.
fn end_in_root(image: &Image, i: u8) -> u32
    requires { IsAdmitted image.now }
    ensures { result ≡ end_in_root image.now i }
{
    program_ops(image, image.system.root.name(), i).len() as u32
}

/// The CPU is lent to the new cell, where that has it.
fn lend(phase: &Phase, i: u8, cpu: &mut Cpu)
    ensures { (image : TheImage) (runs : Bool) (at : ℕ) → cpu.new ≡ cpu_by_commit image runs (Create at) phase.now i cpu.old }
{
    match phase {
        Phase::ToCreate { config } => {
            let config = config.get();
            if config.has_cpu(i) {
                cpu.lend(config.id);
            }
        }
        _ => {}
    }
}

/// The CPU of a cell that is started: it runs, or waits for the cell to switch it on.
fn start(runs: bool, cpu: &mut Cpu)
    ensures { cpu.new ≡ (if runs then restarted cpu.old else parked cpu.old) }
{
    if runs {
        cpu.reset();
    } else {
        cpu.park();
    }
}

/// At a Commit the cell's CPUs come and go, or begin and end to run; `runs` says whether a start lets the CPU run.
fn commit(image: &Image, runs: bool, begun: &OpenCall, i: u8, cpu: &mut Cpu)
    requires { IsAdmitted image.now }
    ensures { cpu.new ≡ cpu_by_commit image.now runs begun.now.call begun.now.phase i cpu.old }
{
    match begun.call {
        Call::Create { .. } => lend(&begun.phase, i, cpu),
        Call::Start { id } => {
            if u64::from(cpu.owner) == id {
                start(runs, cpu);
            }
        }
        Call::Loadable { id } => {
            if u64::from(cpu.owner) == id {
                cpu.park();
            }
        }
        Call::Destroy { id } => {
            if u64::from(cpu.owner) == id {
                cpu.give_back(image.system.root.id, end_in_root(image, i));
            }
        }
        _ => {}
    }
}

/// At a Finish no CPU of root is stopped any more, and the caller has done its operation.
fn finish(root: u32, own: u8, i: u8, cpu: &mut Cpu)
    ensures { (image : TheImage) → image.system.root.id ≡ root → cpu.new ≡ cpu_by_finish image own i cpu.old }
{
    if cpu.owner == root {
        cpu.resume();
    }
    if i == own {
        cpu.advance();
    }
}

/// Whether the call, where it is granted, switches a CPU on or off.
fn is_switch(call: &Call) -> bool
    ensures { result ≡ is_switch call.now }
{
    matches!(*call, Call::CpuOff | Call::CpuOn { .. })
}

/// Whether a call with this answer was granted.
fn is_granted(answer: i64) -> bool
    ensures { result ≡ is_granted answer }
{
    answer == SUCCESS
}

/// The CPU behind a granted call: it is switched off where it made the call, or on where that names it.
fn switch(call: &Call, own: u8, i: u8, cpu: &mut Cpu)
    ensures { cpu.new ≡ switched call.now own i cpu.old }
{
    match *call {
        Call::CpuOff => {
            if i == own {
                cpu.park();
            }
        }
        Call::CpuOn { cpu: on } => {
            if u64::from(i) == on {
                cpu.reset();
            }
        }
        _ => {}
    }
}

/// The CPU behind a hypercall that was answered: the caller has done its operation.
fn answered(call: &Call, answer: i64, own: u8, i: u8, cpu: &mut Cpu)
    ensures { cpu.new ≡ cpu_by_call call.now answer own i cpu.old }
{
    if i == own {
        cpu.advance();
    }
    if is_granted(answer) {
        switch(call, own, i, cpu);
    }
}

/// Changes CPU `i` as the entry does; `call` is the call that was open before it, and `runs` says whether a start lets the
/// CPU run.
fn act_on(image: &Image, runs: bool, call: Option<&OpenCall>, entry: &Entry, i: u8, cpu: &mut Cpu)
    requires { IsAdmitted image.now }
    ensures { cpu.new ≡ acted image.now runs (option_copied call.entry) entry.now.act entry.now.cpu i cpu.old }
{
    match entry.act {
        Act::Begin { .. } => begin(image, entry.cpu, i, cpu),
        Act::Hvc { code, a, b, answer } => {
            answered(&decode(code, a, b), answer, entry.cpu, i, cpu);
        }
        Act::Settle { how } => {
            if let Some(begun) = call {
                settle(is_undenied(how), &begun.call, cpu);
            }
        }
        Act::Commit => {
            if let Some(begun) = call {
                commit(image, runs, begun, i, cpu);
            }
        }
        Act::Finish { .. } => finish(image.system.root.id, entry.cpu, i, cpu),
        _ => {
            if i == entry.cpu {
                Change::of(&entry.act).apply(cpu);
            }
        }
    }
}

/// Whether the act changes more CPUs than that which makes it.
fn is_for_many(act: &Act) -> bool
    ensures { (image : TheImage) (runs : Bool) (call : Option TheOpenCall) (own i : ℕ) (cpu : TheCpu) → result ≡ false
        → acted image runs call act.now own i cpu ≡ (if i == own then changed (change_of act.now) cpu else cpu) }
{
    match *act {
        Act::Begin { .. } | Act::Settle { .. } | Act::Commit | Act::Finish { .. } => true,
        Act::Hvc { code, a, b, answer } => is_granted(answer) && is_switch(&decode(code, a, b)),
        _ => false,
    }
}

/// Whether the owner of the CPU has one with a lower number.
fn has_lower(cpus: &[Cpu; MAX_CPUS], i: u8) -> bool
    requires { i < 16 }
    ensures { (state : ℕ → TheCpu) → ListsCpus cpus.now state → result ≡ any_below (λ k. (state k).owner == (state i).owner) i }
{
    let owner = cpus[usize::from(i)].owner;
    for k in 0..i {
        if cpus[usize::from(k)].owner == owner {
            return true;
        }
    }
    false
}

/// Whether a start of its cell lets the CPU run, in a journal of the form.
fn runs_by_start(form: Form, cpus: &[Cpu; MAX_CPUS], i: u8) -> bool
    requires { i < 16 }
    ensures { (f : Facts) → f.form ≡ form → ListsCpus cpus.now f.cpu → result ≡ runs_by_start f i }
{
    match form {
        Form::One => true,
        Form::Two => !has_lower(cpus, i),
    }
}

/// Changes each of the CPUs as the entry does.
fn act_on_all(
    image: &Image,
    form: Form,
    call: Option<&OpenCall>,
    entry: &Entry,
    cpus: &mut [Cpu; MAX_CPUS],
)
    requires { IsAdmitted image.now }
    ensures { (f : Facts) → f.form ≡ form → f.call ≡ option_copied call.entry → ListsCpus cpus.old f.cpu → ListsCpus cpus.new (cpu_after image.now f entry.now) }
{
    let before = *cpus;
    for i in 0..MAX_CPUS as u8 {
        let runs = runs_by_start(form, &before, i);
        act_on(image, runs, call, entry, i, &mut cpus[usize::from(i)]);
    }
}

/// Changes the CPUs as the entry of a journal of the form does; `call` is the call that was open before it.
pub fn cpus_after(
    cpus: &mut [Cpu; MAX_CPUS],
    image: &Image,
    form: Form,
    call: Option<&OpenCall>,
    entry: &Entry,
)
    requires { IsAdmitted image.now }
    ensures { (f : Facts) → f.form ≡ form → f.call ≡ option_copied call.entry → ListsCpus cpus.old f.cpu → ListsCpus cpus.new (cpu_after image.now f entry.now) }
{
    if is_for_many(&entry.act) {
        act_on_all(image, form, call, entry, cpus);
    } else if usize::from(entry.cpu) < MAX_CPUS {
        Change::of(&entry.act).apply(&mut cpus[usize::from(entry.cpu)]);
    }
}
