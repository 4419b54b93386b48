//! The board.

ghost use Rattle.std.specs.Prelude.{◌≡◌, Decides, ◌≤◌, All, IfOk, IfSome, replicate, None};
ghost use Rattle.brd_config.specs.View.{view};
ghost use Rattle.brd_link.specs.LinkSet.{IsLinkSet};
ghost use Rattle.brd_kernel.specs.Kernel.{executor_on, line_at, timer_due};
ghost use Rattle.brd_kernel.specs.Always.{HasContext, HasPlace};
ghost use Rattle.brd_tasks.specs.Ready.{IsProcessor, IsSetup};
ghost use Rattle.brd_board.specs.Board.{
  happens,
  stepped,
  dispatched_board,
  with_call,
  with_fault,
  tick_passed,
  line_raised,
  after,
  standing_of,
  registers_of,
  linked_word_of,
  fault_of,
  task_of,
  spin_lock_of,
  mutex_owner_of,
};
ghost use Rattle.brd_board.specs.Words.{word_from, word_at};
ghost use Rattle.brd_board.specs.declared.event.Event.TheVariants.{Step};
ghost use Rattle.brd_board.specs.Setup.{Boots};
ghost use Rattle.brd_board.specs.Boot.{boot, booted_kernel, boot_words, words_config};
ghost use Rattle.brd_board.specs.Snapshot.{snapshot_of, restored, Fits};
ghost use Rattle.brd_mem.specs.Memory.{byte_at, size_of};
ghost use Rattle.brd_mem.specs.Image.{image_of_words, IsLoadable};

mod lending;
mod saving;
mod steps;
mod storing;

use crate::boot::BootFault;
use crate::event::{Event, Report};
use crate::executing::{Ended, execute};
use crate::links::end_links;
use crate::load::loaded;
use crate::pools::pools_of;
use crate::setup::{handlers_of, setups_of, start_all};
use crate::snapshot::Snapshot;
use crate::time_handlers::{alarms_of, cyclics_of};
use crate::view::Fault;
use brd_base::{BASE, List, NoMemory, copy_with_room, same_slices};
use brd_config::{Config, Operand, Stack, TaskAttributes, TaskConfig};
use brd_exec::{Context, Outcome};
use brd_kernel::{Executor, Kernel, LineSetup, Spin, Standing, TaskId, TaskSetup, TaskView};
use brd_link::Links;
use brd_mem::{Image, Ram};
use brd_objects::PoolSetup;
use brd_sysgate::call;
use brd_word::{Order, word_of};
use std::alloc::Global;
use std::marker::Model;
use steps::Code;

/// The size of RAM of a board that is made of words.
const WORDS_RAM: u32 = 0x1_0000;

/// The board.
pub struct Board {
    kernel: Kernel,
    ram: Ram,
    links: Links,
    faults: Vec<Option<Fault>>,
    /// Its decoded instructions, by which it does many steps in a row: they show in nothing but time.
    code: Code,
}

impl Model for Board {
    ghost use Rattle.std.specs.Prelude.{◌≡◌, length};
    ghost use Rattle.brd_board.specs.Board.{BoardState};

    ghost Value = { BoardState };

    ghost view = { λ b. record { kernel = b.kernel; memory = b.ram; links = b.links; faults = b.faults.items } };

    ghost invariant = { λ b. length b.faults.items ≡ 9 };
}

/// Written out, so that a function that lets a board go is proved with a call, and not with the end of each part.
impl Drop for Board {
    fn drop(self) {
        let Board {
            kernel: _,
            ram: _,
            links: _,
            faults: _,
            code: _,
        } = self;
    }
}

impl Board {
    /// The board that an image and a configuration make, in the image's byte order. Its tasks with TA_ACT have been
    /// started, and no interrupt is pending. A fault is the first one: of the segments, of the tasks in the order of
    /// their statements, of the handlers in theirs, of the memory pools in theirs, of the cyclic handlers and the alarm
    /// handlers in theirs.
    #[tactic(auto, unfolding(crate::specs::Boot::boot))]
    pub fn boot(alloc: Global, image: &Image, config: &Config) -> Result<Board, BootFault>
        requires { IsLoadable image.now }
        ensures { Boots (boot image.now (view config.now)) result }
    {
        let ram = loaded(alloc, config.ram, image.order, image.segments.as_slice())?;
        let symbols = image.symbols.as_slice();
        let tasks = config.tasks.as_slice();
        let setups = setups_of(alloc, &ram, symbols, tasks)?;
        let mut lines = handlers_of(alloc, &ram, symbols, config.handlers.as_slice())?;
        let pools = pools_of(alloc, &ram, symbols, tasks, config.pools.as_slice())?;
        let cyclics = cyclics_of(alloc, &ram, symbols, config.cyclics.as_slice())?;
        let alarms = alarms_of(alloc, &ram, symbols, config.alarms.as_slice())?;
        lines.append(cyclics.as_slice())?;
        lines.append(alarms.as_slice())?;
        Ok(Board {
            kernel: started(
                alloc,
                setups.as_slice(),
                lines.as_slice(),
                pools.as_slice(),
                config,
            )?,
            ram,
            links: Links::new(),
            faults: no_faults(alloc)?,
            code: Code::Unread(0),
        })
    }

    /// The big-endian board of these words: they lie from 0x80000000 on in 64 KiB of RAM, and task 1 is about to run at
    /// the first of them, with its stack at the end of RAM. More than 16,384 words are `Outside`.
    pub fn from_words(alloc: Global, words: &[u32]) -> Result<Board, BootFault>
        ensures image { Boots (boot (image_of_words words.now) words_config) result }
        ensures words { Boots (boot_words words.now) result }
    {
        let image = Image::from_words(alloc, words)?;
        let config = words_config(alloc)?;
        Board::boot(alloc, &image, &config)
    }

    /// An equal board.
    pub fn try_copy(&self) -> Result<Board, NoMemory>
        ensures { IfOk result (λ copy. copy ≡ self.now) }
    {
        Ok(Board {
            kernel: self.kernel.try_copy()?,
            ram: self.ram.try_copy()?,
            links: self.links,
            faults: copy_with_room(&self.faults, 0)?,
            code: Code::Unread(0),
        })
    }

    /// Whether both are equal, also in what was fixed when they were made.
    pub fn same(&self, other: &Board) -> bool
        ensures { Decides result (self.now ≡ other.now) }
    {
        self.kernel.same(&other.kernel)
            && self.ram.same(&other.ram)
            && self.links == other.links
            && same_slices(self.faults.as_slice(), other.faults.as_slice())
    }

    /// A snapshot over a boot whose RAM has the same size and byte order.
    pub fn snapshot(&self, boot: &Board) -> Result<Snapshot, NoMemory>
        requires sizes { size_of self.now.memory ≡ size_of boot.now.memory }
        requires orders { self.now.memory.order ≡ boot.now.memory.order }
        ensures is { IfOk result (λ snapshot. snapshot ≡ snapshot_of boot.now self.now) }
        ensures fits { IfOk result (Fits boot.now) }
        ensures back { IfOk result (λ snapshot. restored boot.now snapshot ≡ self.now) }
    {
        Ok(Snapshot {
            kernel: self.kernel.save()?,
            pages: self.ram.pages(&boot.ram)?,
            links: self.links,
            faults: copy_with_room(&self.faults, 0)?,
        })
    }

    /// The board that a snapshot over this boot was taken of.
    pub fn from_snapshot(boot: &Board, snapshot: &Snapshot) -> Result<Board, NoMemory>
        requires fits { Fits boot.now snapshot.now }
        ensures { IfOk result (λ board. board ≡ restored boot.now snapshot.now) }
    {
        let mut ram = boot.ram.try_copy()?;
        ram.put_back(&boot.ram, &snapshot.pages);
        Ok(Board {
            kernel: snapshot.kernel.restore()?,
            ram,
            links: snapshot.links,
            faults: copy_with_room(&snapshot.faults, 0)?,
            code: Code::Unread(0),
        })
    }

    /// Does one event. It takes no memory. Each loop over events has its own copy, which keeps what it needs in
    /// registers.
    #[inline(always)]
    #[tactic(auto, unfolding(crate::specs::Board::happens))]
    pub fn event(&mut self, event: Event) -> Report
        ensures { record { board = self.new; report = result } ≡ happens self.old event }
    {
        if self.kernel.is_off() {
            return Report::Off;
        }
        match event {
            Event::Step(cpu) => self.step(cpu),
            Event::Tick => self.tick(),
            Event::Raise(line) => self.raise(line),
        }
    }

    /// Does the events of a list, one after the other.
    pub fn play(&mut self, events: &[Event])
        ensures { self.new ≡ after self.old events.now }
    {
        for event in events {
            let _ = self.event_apart(*event);
        }
    }

    /// Does one event, as `event` does, but not in line: a program whose loops all use this, `play` and `repeat` has
    /// one copy of what a step does, into which the compiler then lays all that belongs to it.
    pub fn event_apart(&mut self, event: Event) -> Report
        ensures { record { board = self.new; report = result } ≡ happens self.old event }
    {
        match event {
            Event::Step(cpu) => self.step_apart(cpu),
            Event::Tick => self.event(Event::Tick),
            Event::Raise(line) => self.event(Event::Raise(line)),
        }
    }

    /// Does one event n times. For many steps in a row it may take memory once, and goes on where there is none.
    pub fn repeat(&mut self, event: Event, count: u32)
        ensures { self.new ≡ after self.old (replicate count event) }
    {
        match event {
            Event::Step(cpu) => self.many_steps(cpu, count),
            Event::Tick => self.repeat_in_line(Event::Tick, count),
            Event::Raise(line) => self.repeat_in_line(Event::Raise(line), count),
        }
    }

    /// Lets a processor do one step, where the board is on. It is out of line, and no loop: a loop that is gone through
    /// once costs half as much again.
    #[inline(never)]
    fn step_apart(&mut self, cpu: u8) -> Report
        ensures { record { board = self.new; report = result } ≡ happens self.old (Step cpu) }
    {
        self.event(Event::Step(cpu))
    }

    /// Lets a processor do `count` steps, one by one.
    fn steps(&mut self, cpu: u8, count: u32)
        ensures { self.new ≡ after self.old (replicate count (Step cpu)) }
    {
        for _ in 0..count {
            let _ = self.step_apart(cpu);
        }
    }

    /// Does one event n times.
    #[inline(always)]
    fn repeat_in_line(&mut self, event: Event, count: u32)
        ensures { self.new ≡ after self.old (replicate count event) }
    {
        for _ in 0..count {
            let _ = self.event(event);
        }
    }

    /// A processor does its next step: it accepts an interrupt, or whoever executes on it does one instruction.
    #[inline(always)]
    fn step(&mut self, cpu: u8) -> Report
        ensures { record { board = self.new; report = result } ≡ stepped self.old cpu }
    {
        if let Some(line) = self.kernel.accept(cpu) {
            self.links.end(cpu);
            self.dispatch();
            return Report::Accepted(line);
        }
        let Some(Ended { address, outcome }) = execute(
            &mut self.kernel,
            cpu,
            &mut self.ram,
            &mut self.links,
        ) else {
            return match self.kernel.processor(cpu) {
                None => Report::NoSuch,
                Some(processor) if processor.stopped => Report::Stopped,
                Some(_) => Report::Idle,
            };
        };
        match outcome {
            Outcome::Done => Report::Ran(address),
            Outcome::Syscall => {
                self.call(cpu);
                Report::Called(address)
            }
            Outcome::Exception { code, epc, bd } => {
                self.end_by_fault(cpu, Fault { code, epc, bd });
                Report::Faulted(address)
            }
        }
    }

    /// A service call, which ends the processor's link.
    #[inline(never)]
    fn call(&mut self, cpu: u8)
        requires { IsProcessor cpu }
        ensures { self.new ≡ dispatched_board (with_call self.old cpu) }
    {
        self.links.end(cpu);
        call(&mut self.kernel, cpu);
        self.dispatch();
    }

    /// An exception: it is kept as the processor's last one, and ends its task or stops the processor; then the board
    /// dispatches.
    #[inline(never)]
    fn end_by_fault(&mut self, cpu: u8, fault: Fault)
        requires { IsProcessor cpu }
        ensures { self.new ≡ dispatched_board (with_fault self.old cpu fault) }
    {
        self.kernel.end_by_fault(cpu);
        self.faults[cpu as usize] = Some(fault);
        self.dispatch();
    }

    /// Chooses who runs, and ends the links of processors whose running task has become another.
    fn dispatch(&mut self)
        ensures { self.new ≡ dispatched_board self.old }
    {
        let changed = self.kernel.dispatch();
        end_links(&mut self.links, changed);
    }

    /// A tick passes.
    fn tick(&mut self) -> Report
        ensures { record { board = self.new; report = result } ≡ tick_passed self.old }
    {
        if !self.kernel.tick() {
            return Report::TimeOver;
        }
        self.dispatch();
        Report::Ticked
    }

    /// An interrupt is raised.
    fn raise(&mut self, line: u8) -> Report
        ensures { record { board = self.new; report = result } ≡ line_raised self.old line }
    {
        if self.kernel.raise(line) {
            return Report::Raised;
        }
        Report::NoSuch
    }

    /// What a processor is doing, where there is one of that number.
    pub fn standing(&self, cpu: u8) -> Option<Standing>
        ensures { result ≡ standing_of self.now cpu }
    {
        self.kernel.standing(cpu)
    }

    /// The context in which a processor executes: its handler's, else its running task's; None where it is idle or
    /// stopped, or isn't there.
    pub fn registers(&self, cpu: u8) -> Option<Context>
        ensures { result ≡ registers_of self.now cpu }
    {
        self.kernel.context(cpu).copied()
    }

    /// Who executes on a processor, if somebody does: also of a board that is off. Its context lies in the kernel.
    pub fn executor(&self, cpu: u8) -> Option<Executor>
        ensures is { result ≡ executor_on self.now.kernel cpu }
        ensures there { IfSome result (HasContext self.now.kernel cpu) }
        ensures place { IfSome result (HasPlace self.now.kernel cpu) }
    {
        self.kernel.executor(cpu)
    }

    /// The byte at an address, where RAM has one.
    pub fn memory(&self, address: u32) -> Option<u8>
        ensures { result ≡ byte_at self.now.memory address }
    {
        self.ram.byte(address)
    }

    /// The word whose four bytes lie from an address on, where RAM has all of them.
    #[tactic(auto, unfolding(crate::specs::Words::word_from))]
    pub fn word(&self, address: u32) -> Option<u32>
        ensures { result ≡ word_from self.now.memory address }
    {
        let bytes = [
            self.memory(address)?,
            self.memory(address.wrapping_add(1))?,
            self.memory(address.wrapping_add(2))?,
            self.memory(address.wrapping_add(3))?,
        ];
        Some(word_of(bytes, self.order()))
    }

    /// The aligned word at an address, where RAM has it: what is fetched there, and what LW loads.
    pub fn aligned_word(&self, address: u32) -> Option<u32>
        ensures { result ≡ word_at self.now.memory address }
    {
        match self.ram.load32(address) {
            Ok(word) => Some(word),
            Err(_) => None,
        }
    }

    /// In which order the bytes of halfwords and words lie in its memory.
    pub fn order(&self) -> Order
        ensures { result ≡ self.now.memory.order }
    {
        self.ram.order()
    }

    /// A task as it stands, where there is one of that number.
    pub fn task(&self, id: TaskId) -> Option<TaskView>
        ensures { result ≡ task_of self.now id }
    {
        self.kernel.task(id)
    }

    /// The spin lock of an ID as it stands; None where none is configured.
    pub fn spin(&self, id: u8) -> Option<Spin>
        ensures { result ≡ spin_lock_of self.now id }
    {
        self.kernel.spin(id)
    }

    /// The task that has the mutex of an ID, if one does.
    pub fn mutex_owner(&self, id: u16) -> Option<TaskId>
        ensures { result ≡ mutex_owner_of self.now id }
    {
        self.kernel.mutex_owner(id)
    }

    /// Whether the configuration asks for the profile, PROFILE(STANDARD).
    pub fn is_standard(&self) -> bool
        ensures { result ≡ self.now.kernel.standard }
    {
        self.kernel.is_standard()
    }

    /// Whether an interrupt is pending on a line: raised, and accepted by no processor since.
    pub fn is_pending(&self, line: u8) -> bool
        ensures { result ≡ (line_at self.now.kernel line).pending }
    {
        self.kernel.is_pending(line)
    }

    /// The tick at which a time handler is due next, so that its line is pending from then on; None if it is stopped or
    /// isn't there. The cyclic handler of ID C has place 2C - 2, the alarm handler of ID A place 2A - 1, up to 127.
    pub fn timer_due(&self, place: u8) -> Option<u64>
        ensures { result ≡ timer_due self.now.kernel place }
    {
        self.kernel.timer_due(place)
    }

    /// The word that a processor's link is to, from an LL on; None where it has none.
    pub fn link(&self, cpu: u8) -> Option<u32>
        ensures { result ≡ linked_word_of self.now cpu }
    {
        if cpu >= 1 && cpu <= 8 {
            return self.links.state(cpu);
        }
        None
    }

    /// Does nothing; but says that its links are a set, as those of every board are.
    pub fn links_are_a_set(&self)
        ensures { IsLinkSet self.now.links }
    {
        let _ = self.links.state(1);
    }

    /// The last exception on a processor.
    pub fn last_fault(&self, cpu: u8) -> Option<Fault>
        ensures { result ≡ fault_of self.now cpu }
    {
        if (cpu as usize) < self.faults.len() {
            return self.faults[cpu as usize];
        }
        None
    }

    /// The bytes that were written to the console.
    pub fn console(&self) -> &[u8]
        ensures { result.now ≡ self.now.kernel.console }
    {
        self.kernel.console()
    }

    /// How many ticks have passed.
    pub fn now(&self) -> u64
        ensures { result ≡ self.now.kernel.time.count }
    {
        self.kernel.now()
    }

    /// Whether the board is off.
    pub fn is_off(&self) -> bool
        ensures { result ≡ self.now.kernel.off }
    {
        self.kernel.is_off()
    }
}

/// The configuration of a board that is made of words: one processor, and one task with TA_ACT.
fn words_config(alloc: Global) -> Result<Config, NoMemory>
    ensures { IfOk result (λ config. view config ≡ words_config) }
{
    let mut tasks = List::new(alloc);
    tasks.push(TaskConfig {
        id: 1,
        processor: 1,
        attributes: TaskAttributes::TA_ACT,
        exinf: Operand::Number(0),
        address: Operand::Number(BASE),
        priority: 1,
        stack_size: 256,
        stack: Stack::Automatic,
    })?;
    Ok(Config {
        standard: false,
        processors: 1,
        ram: WORDS_RAM,
        tasks,
        semaphores: List::new(alloc),
        flags: List::new(alloc),
        queues: List::new(alloc),
        spin_locks: List::new(alloc),
        mutexes: List::new(alloc),
        pools: List::new(alloc),
        mailboxes: List::new(alloc),
        cyclics: List::new(alloc),
        alarms: List::new(alloc),
        handlers: List::new(alloc),
    })
}

/// A kernel with these handlers and with the objects of a configuration, whose tasks with TA_ACT have been started, and
/// run where they come first.
fn started(
    alloc: Global,
    setups: &[TaskSetup],
    lines: &[LineSetup],
    pools: &[PoolSetup],
    config: &Config,
) -> Result<Kernel, NoMemory>
    requires few { config.now.processors ≤ 8 }
    requires setups { All IsSetup setups.now }
    ensures { IfOk result (λ kernel. kernel ≡ booted_kernel setups.now lines.now pools.now (view config.now)) }
{
    let mut kernel = Kernel::new(
        alloc,
        config.standard,
        config.processors,
        setups,
        lines,
        config.semaphores.as_slice(),
        config.flags.as_slice(),
        config.queues.as_slice(),
        config.spin_locks.as_slice(),
        config.mutexes.as_slice(),
        pools,
        config.mailboxes.as_slice(),
    )?;
    start_all(&mut kernel, config.tasks.as_slice());
    let _ = kernel.dispatch();
    Ok(kernel)
}

/// No last exceptions.
fn no_faults(alloc: Global) -> Result<Vec<Option<Fault>>, NoMemory>
    ensures { IfOk result (λ faults. faults.items ≡ replicate 9 None) }
{
    let mut faults = Vec::new(alloc);
    for _ in 0..9u8 {
        faults.push(None)?;
    }
    Ok(faults)
}
