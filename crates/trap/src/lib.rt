// Why an instruction traps, and what a step comes to: trap.rs.
#![tactic(auto)]

ghost use Rattle.std.specs.Prelude.{◌≡◌};
ghost use Rattle.trap.specs.Causes.{cause};

#[derive(Clone, Copy)]
pub enum TrapCause {
    InstructionAddressMisaligned,
    IllegalInstruction(u32),
    Breakpoint,
    LoadAddressMisaligned,
    StoreAddressMisaligned,
    EcallFromUMode,
    EcallFromSMode,
    EcallFromMMode,
}

impl TrapCause {
    // A match, as a cause that carries a word has no discriminant to cast.
    pub fn mcause_code(self) -> u64
        ensures { result ≡ (cause self).number }
    {
        match self {
            TrapCause::InstructionAddressMisaligned => 0,
            TrapCause::IllegalInstruction(_) => 2,
            TrapCause::Breakpoint => 3,
            TrapCause::LoadAddressMisaligned => 4,
            TrapCause::StoreAddressMisaligned => 6,
            TrapCause::EcallFromUMode => 8,
            TrapCause::EcallFromSMode => 9,
            TrapCause::EcallFromMMode => 11,
        }
    }
}

// A step goes on, traps or halts: one more than a Result says.
#[derive(Clone, Copy)]
pub enum StepResult {
    Ok,
    Trap(TrapCause),
    Halt,
}
