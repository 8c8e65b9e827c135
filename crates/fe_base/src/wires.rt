// Wires: what reaches a target by transactions, each of which is a turn of the target. A wire says how many
// transactions are left and how often it failed. One over a told target also tells its state, what a turn makes of it,
// and what is seen of the target: that steps were made, and which doublewords were touched.
ghost use Rattle.std.specs.Prelude.{◌≡◌, ◌+◌, ℕ, List, None, IsTrue, Option};
ghost use Rattle.fe_base.specs.Access.{Access};
ghost use Rattle.fe_base.specs.Beats.{Beat, ReadBeat, WriteBeat, BeatLaw};
ghost use Rattle.fe_base.specs.DebugModule.{DmiAsk, DmiLaw, HartSide, IsModule, IsSide, ModuleState, Raises};
ghost use Rattle.fe_base.specs.MemoryMap.{is_beat};
ghost use Rattle.fe_base.specs.Transfers.{GetWord, SendWord, Transfers, WordAsk, WordLaw};
ghost use Rattle.fe_base.specs.Wires.{Asked, FailsBy, IfTold, Kept, Lowers, OnTold, StaysUnfailed};

/// Why a wire did not answer.
#[derive(Clone, Copy, Debug, PartialEq, Eq)]
pub enum WireStop {
    /// No transaction is left, and none was made.
    Spent,
    /// The wire's count of faults rose in this call. The transaction was made.
    Failed,
}

/// A wire that moves doublewords. Each call is one transaction, a beat.
pub trait BeatWire {
    /// What the wire tells.
    ghost State: { Type 0 };

    /// What is seen of the target, in terms of no hart.
    ghost View: { Type 0 };

    /// What is seen in a state.
    ghost view: { State → View };

    /// The state, where the wire tells it.
    ghost told: { Self → Option State };

    /// What holds of each told state.
    ghost valid: { State → Type 0 };

    /// The wire may be called.
    ghost usable: { Self → Type 0 };

    /// What no call changes.
    ghost kept: { Self → Kept };

    /// How many transactions are left.
    ghost left: { Self → ℕ };

    /// How often the wire has failed. A count in a u64 stays at its last value.
    ghost faults: { Self → ℕ };

    /// No call from now on fails.
    ghost steady: { Self → Type 0 };

    /// Before each transaction the hart makes a step.
    ghost positive: { State → Type 0 };

    /// The state and the reply after a beat that is answered.
    ghost next: { State → Beat → State × ℕ };

    /// The state and the reply after a beat whose reply is lost.
    ghost lost: { State → Beat → State × ℕ };

    /// So many hart steps were made, none of them halted and none a debug job.
    ghost ran: { View → ℕ → View → Type 0 };

    /// One access was made.
    ghost touched: { View → Access → View → Type 0 };

    /// Reads the doubleword at `at`, a multiple of 8 that is mapped.
    fn read_beat(&mut self, at: u64) -> Result<u64, WireStop>
        requires usable { usable self.old }
        requires place { IsTrue (is_beat at) }
        ensures usable { usable self.new }
        ensures kept { kept self.new ≡ kept self.old }
        ensures left { Lowers (left self.old) (left self.new) result }
        ensures cause { FailsBy (faults self.old) (faults self.new) result }
        ensures steady { steady self.old
            → StaysUnfailed (faults self.old) (faults self.new) result (steady self.new) }
        ensures told { OnTold (told self.old) (told self.new) (Asked next lost (ReadBeat at) (λ value. value) result) };

    /// Writes the doubleword at `at`, a multiple of 8 that is mapped.
    fn write_beat(&mut self, at: u64, value: u64) -> Result<(), WireStop>
        requires usable { usable self.old }
        requires place { IsTrue (is_beat at) }
        ensures usable { usable self.new }
        ensures kept { kept self.new ≡ kept self.old }
        ensures left { Lowers (left self.old) (left self.new) result }
        ensures cause { FailsBy (faults self.old) (faults self.new) result }
        ensures steady { steady self.old
            → StaysUnfailed (faults self.old) (faults self.new) result (steady self.new) }
        ensures told { OnTold (told self.old) (told self.new) (Asked next lost (WriteBeat at value) (λ _. 0) result) };

    /// A usable wire's told state is a valid one.
    ghost tells_valid: { (wire : Self) → usable wire → IfTold (told wire) valid };

    /// No steps lead from a view to itself.
    ghost ran_none: { (v : View) → ran v 0 v };

    /// Steps and then steps are steps.
    ghost ran_more: { (a b c : View) (m n : ℕ) → ran a m b → ran b n c → ran a (m + n) c };

    /// A beat that is answered is a turn.
    ghost turns: { BeatLaw valid positive view ran touched next };

    /// So is one whose reply is lost.
    ghost turns_lost: { BeatLaw valid positive view ran touched lost };
}

/// A wire that moves words of 32 bits, by transfers. Each call is one transaction.
pub trait WordWire {
    /// What the wire tells.
    ghost State: { Type 0 };

    /// What is seen of the target, in terms of no hart.
    ghost View: { Type 0 };

    /// What is seen in a state.
    ghost view: { State → View };

    /// The state, where the wire tells it.
    ghost told: { Self → Option State };

    /// What holds of each told state.
    ghost valid: { State → Type 0 };

    /// The wire may be called.
    ghost usable: { Self → Type 0 };

    /// What no call changes.
    ghost kept: { Self → Kept };

    /// How many transactions are left.
    ghost left: { Self → ℕ };

    /// How often the wire has failed. A count in a u64 stays at its last value.
    ghost faults: { Self → ℕ };

    /// No call from now on fails.
    ghost steady: { Self → Type 0 };

    /// Before each transaction the hart makes a step.
    ghost positive: { State → Type 0 };

    /// The words of the transfer so far, and the words that are owed.
    ghost transfers: { State → Transfers };

    /// The state and the reply after a word that is answered.
    ghost next: { State → WordAsk → State × Option ℕ };

    /// The state and the reply after a word whose reply is lost.
    ghost lost: { State → WordAsk → State × Option ℕ };

    /// So many hart steps were made, none of them halted and none a debug job.
    ghost ran: { View → ℕ → View → Type 0 };

    /// One access was made.
    ghost touched: { View → Access → View → Type 0 };

    /// Sends a word.
    fn send(&mut self, word: u32) -> Result<(), WireStop>
        requires { usable self.old }
        ensures usable { usable self.new }
        ensures kept { kept self.new ≡ kept self.old }
        ensures left { Lowers (left self.old) (left self.new) result }
        ensures cause { FailsBy (faults self.old) (faults self.new) result }
        ensures steady { steady self.old
            → StaysUnfailed (faults self.old) (faults self.new) result (steady self.new) }
        ensures told { OnTold (told self.old) (told self.new) (Asked next lost (SendWord word) (λ _. None) result) };

    /// Gets a word; None where none is owed.
    fn get(&mut self) -> Result<Option<u32>, WireStop>
        requires { usable self.old }
        ensures usable { usable self.new }
        ensures kept { kept self.new ≡ kept self.old }
        ensures left { Lowers (left self.old) (left self.new) result }
        ensures cause { FailsBy (faults self.old) (faults self.new) result }
        ensures steady { steady self.old
            → StaysUnfailed (faults self.old) (faults self.new) result (steady self.new) }
        ensures told { OnTold (told self.old) (told self.new) (Asked next lost GetWord (λ word. word) result) };

    /// A usable wire's told state is a valid one.
    ghost tells_valid: { (wire : Self) → usable wire → IfTold (told wire) valid };

    /// No steps lead from a view to itself.
    ghost ran_none: { (v : View) → ran v 0 v };

    /// Steps and then steps are steps.
    ghost ran_more: { (a b c : View) (m n : ℕ) → ran a m b → ran b n c → ran a (m + n) c };

    /// A word that is answered is a turn.
    ghost turns: { WordLaw valid positive view transfers ran touched next };

    /// So is one whose reply is lost.
    ghost turns_lost: { WordLaw valid positive view transfers ran touched lost };
}

/// What is asked of the debug module in one access (External Debug Support 0.13.2, 3.1).
#[derive(Clone, Copy, Debug, PartialEq, Eq)]
pub enum DmiOp {
    /// Nothing; the reply is 0.
    Nop,
    /// A register's value.
    Read,
    /// A register is written; the reply is 0.
    Write,
}

/// A wire to the registers of a debug module. Each call is one transaction, an access of a register.
pub trait DmiWire {
    /// What the wire tells.
    ghost State: { Type 0 };

    /// What is seen of the target, in terms of no hart.
    ghost View: { Type 0 };

    /// What is seen of a halted target beside its registers.
    ghost Rest: { Type 0 };

    /// What resuming a halted hart with these registers and this rest would give.
    ghost resumed: { List ℕ → Rest → View };

    /// The state, where the wire tells it.
    ghost told: { Self → Option State };

    /// What holds of each told state.
    ghost valid: { State → Type 0 };

    /// The wire may be called.
    ghost usable: { Self → Type 0 };

    /// What no call changes.
    ghost kept: { Self → Kept };

    /// How many transactions are left.
    ghost left: { Self → ℕ };

    /// How often the wire has failed. A count in a u64 stays at its last value.
    ghost faults: { Self → ℕ };

    /// No call from now on fails.
    ghost steady: { Self → Type 0 };

    /// Before each transaction the hart makes a step.
    ghost positive: { State → Type 0 };

    /// How often each command error was read.
    ghost raised: { Self → ℕ → ℕ };

    /// The registers of the debug module.
    ghost module_of: { State → ModuleState };

    /// The hart, as the debug module sees it.
    ghost side: { State → HartSide View Rest };

    /// The state and the reply after an access that is answered.
    ghost next: { State → DmiAsk → State × ℕ };

    /// The state and the reply after an access whose reply is lost.
    ghost lost: { State → DmiAsk → State × ℕ };

    /// So many hart steps were made, none of them halted and none a debug job.
    ghost ran: { View → ℕ → View → Type 0 };

    /// One access of memory was made.
    ghost touched: { View → Access → View → Type 0 };

    /// Makes one access of the register at the address. The reply to a read is what the register held before; to the
    /// others it is 0.
    fn access(&mut self, op: DmiOp, address: u8, value: u32) -> Result<u32, WireStop>
        requires { usable self.old }
        ensures usable { usable self.new }
        ensures kept { kept self.new ≡ kept self.old }
        ensures left { Lowers (left self.old) (left self.new) result }
        ensures cause { FailsBy (faults self.old) (faults self.new) result }
        ensures raised { Raises op address (raised self.old) (raised self.new) result }
        ensures steady { steady self.old
            → StaysUnfailed (faults self.old) (faults self.new) result (steady self.new) }
        ensures told { OnTold (told self.old) (told self.new)
            (Asked next lost (record { op = op; address = address; value = value }) (λ reply. reply) result) };

    /// A usable wire's told state is a valid one.
    ghost tells_valid: { (wire : Self) → usable wire → IfTold (told wire) valid };

    /// The registers of a valid state fit.
    ghost module_fits: { (s : State) → valid s → IsModule (module_of s) };

    /// So do those of its halted hart.
    ghost side_fits: { (s : State) → valid s → IsSide (side s) };

    /// No steps lead from a view to itself.
    ghost ran_none: { (v : View) → ran v 0 v };

    /// Steps and then steps are steps.
    ghost ran_more: { (a b c : View) (m n : ℕ) → ran a m b → ran b n c → ran a (m + n) c };

    /// An access that is answered is a turn.
    ghost turns: { DmiLaw ran touched resumed valid positive module_of side next };

    /// So is one whose reply is lost.
    ghost turns_lost: { DmiLaw ran touched resumed valid positive module_of side lost };
}
