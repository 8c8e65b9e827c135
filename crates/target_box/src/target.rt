// A target: a hart over its bus, with its pauses and how many transactions it may make.
ghost use Rattle.std.specs.Prelude.{◌≡◌, ◌≤◌, ◌<◌, ◌+◌, ◌↔◌, IfOk, IsTrue};
ghost use Rattle.fe_base.specs.Beats.{ReadBeat, WriteBeat};
ghost use Rattle.fe_base.specs.MemoryMap.{is_beat};
ghost use Rattle.fe_base.specs.Limits.{pause_limit};
ghost use Rattle.fe_base.specs.PausePlan.{pause_at};
ghost use Rattle.target_box.specs.Turn.{IsUsable, next_turn, paused, reset_target};

use fe_base::Pauses;
use guest_memory::Bus;
use rv_hart::Hart;
use std::alloc::{AllocError, Global};
use std::marker::Model;

/// How transactions reach a target.
#[derive(Clone, Copy, Debug, PartialEq, Eq)]
pub enum Link {
    /// Each moves a doubleword.
    Direct,
}

/// A hart over its bus, its pauses, and how many transactions were made and may be made.
#[derive(Drop)]
pub struct Target {
    hart: Hart,
    bus: Bus,
    pauses: Pauses,
    turns: u64,
    limit: u64,
    link: Link,
}

impl Model for Target {
    ghost use Rattle.rv_hart.specs.HartStep.{over};
    ghost use Rattle.target_box.specs.Turn.{TargetState};

    ghost Value = { TargetState };

    ghost view = { λ t. record { system = over t.bus t.hart; pauses = t.pauses; turns = t.turns; limit = t.limit; link = t.link } };
}

impl Target {
    /// A target at reset with these pauses, which may make so many transactions. Each of them moves a doubleword.
    pub fn direct(alloc: Global, pauses: Pauses, limit: u64) -> Result<Target, AllocError>
        ensures value { IfOk result (λ target. target ≡ reset_target pauses limit Link.Direct) }
        ensures usable { IfOk result (IsUsable Link.Direct) }
    {
        pauses.within_limits();
        Ok(Target {
            hart: Hart::reset(),
            bus: Bus::new(alloc)?,
            pauses,
            turns: 0,
            limit,
            link: Link::Direct,
        })
    }

    /// How many transactions were made.
    pub fn turns(&self) -> u64
        ensures { result ≡ self.now.turns }
    {
        self.turns
    }

    /// How many hart steps began in user mode.
    pub fn user_steps(&self) -> u64
        ensures { result ≡ self.now.system.hart.user_steps }
    {
        self.hart.user_steps()
    }

    /// The hart.
    pub fn hart(&self) -> &Hart
        ensures { result.now ≡ self.now.system.hart }
    {
        &self.hart
    }

    /// The memory.
    pub fn bus(&self) -> &Bus
        ensures { result.now ≡ self.now.system.bus }
    {
        &self.bus
    }

    // No transaction is left.
    pub(crate) fn is_spent(&self) -> bool
        ensures { IsTrue result ↔ (self.now.limit ≤ self.now.turns) }
    {
        self.turns >= self.limit
    }

    // How many hart steps the next transaction makes.
    pub(crate) fn next_pause(&self) -> u32
        ensures pause { result ≡ pause_at self.now.pauses self.now.turns }
        ensures bound { result ≤ pause_limit }
    {
        self.pauses.at(self.turns)
    }

    // Makes the hart steps of the next transaction, which is counted.
    fn pause(&mut self)
        requires { self.old.turns < self.old.limit }
        ensures { self.new ≡ record self.old { system = paused self.old; turns = self.old.turns + 1 } }
    {
        let _limit = self.limit;
        let count = self.next_pause();
        self.hart.run_steps(&mut self.bus, u64::from(count));
        self.turns += 1;
    }

    // Makes the turn that reads the doubleword at `at`.
    pub(crate) fn read_turn(&mut self, at: u64) -> u64
        requires left { self.old.turns < self.old.limit }
        requires place { IsTrue (is_beat at) }
        ensures { next_turn self.old (ReadBeat at) ≡ (self.new, result) }
    {
        self.pause();
        self.bus.read_beat(at).unwrap_or(0)
    }

    // Makes the turn that writes the doubleword at `at`.
    pub(crate) fn write_turn(&mut self, at: u64, value: u64)
        requires left { self.old.turns < self.old.limit }
        requires place { IsTrue (is_beat at) }
        ensures { next_turn self.old (WriteBeat at value) ≡ (self.new, 0) }
    {
        self.pause();
        self.bus.write_beat(at, value);
    }
}
