// Runs the cases of document 01's inspection list that carry no star, and writes each with what is asked and what is found.
#![tactic(auto)]

use access::Kind;
use answers::Refusal;
use csr::{Csr, Hart, PrivMode};
use decode::Instruction;
use extensions::Amo;
use gpr::Gpr;
use mmu::{Arrival, Call, Failure, Mmu, Translation};
use std::{fmt, io};

fn main(rt: HostRuntime) -> io::Result<()> {
    immediates(&rt)?;
    atomics(&rt)?;
    status(&rt)?;
    interrupts(&rt)?;
    floats(&rt)?;
    walks(&rt)?;
    stores(&rt)
}

fn immediates(rt: &impl Print) -> io::Result<()> {
    say(
        rt,
        "U-immediate of 0x80000037",
        0xFFFF_FFFF_8000_0000,
        Instruction(0x8000_0037).imm_u().cast_unsigned(),
    )
}

fn atomics(rt: &impl Print) -> io::Result<()> {
    let (returned, signed) = extensions::atomic(Amo::Max, 0xFFFF_FFFF_u32, 1);
    say(
        rt,
        "amomax_w of 0xFFFFFFFF and 1, returned",
        0xFFFF_FFFF_FFFF_FFFF,
        returned,
    )?;
    say(
        rt,
        "amomax_w of 0xFFFFFFFF and 1, new",
        1,
        u64::from(signed),
    )?;
    let (_, unsigned) = extensions::atomic(Amo::Maxu, 0xFFFF_FFFF_u32, 1);
    say(
        rt,
        "amomaxu_w of 0xFFFFFFFF and 1, new",
        0xFFFF_FFFF,
        u64::from(unsigned),
    )
}

fn status(rt: &impl Print) -> io::Result<()> {
    let written = Csr::new().write_register(Csr::MSTATUS, 0xFFFF_FFFF_FFFF_FFFF, PrivMode::M);
    let file = written.csr;
    answered(
        rt,
        "mstatus written all ones",
        0x8000_000A_007F_FFEA,
        file.read_register(Csr::MSTATUS, PrivMode::M),
    )?;
    answered(
        rt,
        "sstatus then",
        0x8000_0002_000D_E762,
        file.read_register(Csr::SSTATUS, PrivMode::M),
    )
}

fn interrupts(rt: &impl Print) -> io::Result<()> {
    let bit = Csr::MIP_STIP;
    let mstatus = 0xA_0000_0000;
    match delegated(bit, mstatus, PrivMode::M).choose_interrupt(bit, bit) {
        Some(n) => say(rt, "delegated bit 5 in M, where none is asked", 0, n)?,
        None => println!(rt; "delegated bit 5 in M: asked none, found none")?,
    }
    match delegated(bit, mstatus, PrivMode::U).choose_interrupt(bit, bit) {
        Some(n) => say(rt, "delegated bit 5 in U", 5, n),
        None => println!(rt; "delegated bit 5 in U: asked 0x5, found none"),
    }
}

fn delegated(mideleg: u64, mstatus: u64, mode: PrivMode) -> Hart {
    Hart {
        mideleg,
        mstatus,
        mode,
    }
}

fn floats(rt: &impl Print) -> io::Result<()> {
    let registers = Gpr::new(0).write_f(1, 0xFFFF_FFFE_3F80_0000).gpr;
    answered(
        rt,
        "float register 0xFFFFFFFE3F800000 read as 32 bits",
        0x7FC0_0000,
        registers.read_f32(1).map(u64::from),
    )
}

// The root table stands at 0x1000.
const SATP: u64 = 0x8000_0000_0000_0001;

// The list is read in S with SUM and MXR 0.
const MSTATUS: u64 = 0;

// Each on a new cache.
fn walks(rt: &impl Print) -> io::Result<()> {
    let mut memory = [0; 16384];
    put(rt, &mut memory, 0x1000, 0x4CF)?;
    let unaligned = load(&memory, 0);
    translated(rt, "0x4CF at 0x1000, load of 0", fault(13, 0, 1), unaligned)?;
    put(rt, &mut memory, 0x1000, 0x401)?;
    let circular = load(&memory, 0);
    translated(rt, "0x401 at 0x1000, load of 0", fault(13, 0, 3), circular)
}

fn load(memory: &[u8], address: u64) -> Translation {
    Mmu::new()
        .translate(asked(Kind::Load, memory, address))
        .answer
}

fn asked(kind: Kind, memory: &[u8], address: u64) -> Call {
    Call::new(kind, memory, address, SATP, PrivMode::S, MSTATUS)
}

fn stores(rt: &impl Print) -> io::Result<()> {
    let mut memory = [0; 16384];
    put(rt, &mut memory, 0x1000, 0x801)?;
    put(rt, &mut memory, 0x2000, 0xC01)?;
    put(rt, &mut memory, 0x3000, 0x144F)?;
    put(rt, &mut memory, 0x3008, 0x184F)?;
    store_calls(rt, &memory)
}

// A leaf without D: every store faults, by request 07, and nothing is kept of it.
fn store_calls(rt: &impl Print, memory: &[u8]) -> io::Result<()> {
    let first = Mmu::new().translate(asked(Kind::Store, memory, 0x123));
    translated(
        rt,
        "0x144F at 0x3000, store to 0x123",
        fault(15, 0x123, 3),
        first.answer,
    )?;
    let again = first.mmu.translate(asked(Kind::Store, memory, 0x123));
    translated(
        rt,
        "store to 0x123 again",
        fault(15, 0x123, 3),
        again.answer,
    )?;
    let other = again.mmu.translate(asked(Kind::Store, memory, 0x1000));
    translated(
        rt,
        "0x184F at 0x3008, store to 0x1000",
        fault(15, 0x1000, 3),
        other.answer,
    )?;
    let walked = other.mmu.translate(asked(Kind::Store, memory, 0x123));
    translated(
        rt,
        "store to 0x123 after that",
        fault(15, 0x123, 3),
        walked.answer,
    )
}

// A page table entry.
fn put(rt: &impl Print, memory: &mut [u8], address: u64, entry: u64) -> io::Result<()> {
    match system_bus::write(memory, address, entry) {
        Ok(()) => Ok(()),
        Err(refusal) => refused(rt, "page table entry", refusal),
    }
}

// One case, in a line.
fn say(rt: &impl Print, case: &str, asked: u64, found: u64) -> io::Result<()> {
    println!(rt; "{case}: asked 0x{asked:x}, found 0x{found:x}")
}

fn answered(
    rt: &impl Print,
    case: &str,
    asked: u64,
    answer: Result<u64, Refusal>,
) -> io::Result<()> {
    match answer {
        Ok(found) => say(rt, case, asked, found),
        Err(refusal) => refused(rt, case, refusal),
    }
}

// What a translation tells, as it is printed: its number, 0 or the fault's; then the address, and the entries read.
#[derive(Clone, Copy)]
struct Told {
    number: u64,
    value: u64,
    reads: u64,
}

impl fmt::Display for Told {
    fn fmt<W: fmt::Write>(&self, f: &mut fmt::Formatter<W>) -> fmt::Result {
        write!(
            f,
            "no. {} 0x{:x} reads {}",
            self.number, self.value, self.reads
        )
    }
}

// A page fault: a load's is no. 13, a store's no. 15.
fn fault(number: u64, value: u64, reads: u64) -> Told {
    Told {
        number,
        value,
        reads,
    }
}

fn told_of(answer: Translation) -> Result<Told, Refusal> {
    match answer {
        Ok(Arrival { address, reads }) => Ok(Told {
            number: 0,
            value: address,
            reads,
        }),
        Err(Failure::Fault { fault, reads }) => Ok(Told {
            number: fault.mcause(),
            value: fault.tval(),
            reads,
        }),
        Err(Failure::Refused(refusal)) => Err(refusal),
    }
}

fn translated(rt: &impl Print, case: &str, asked: Told, answer: Translation) -> io::Result<()> {
    match told_of(answer) {
        Ok(found) => println!(rt; "{case}: asked {asked}, found {found}"),
        Err(refusal) => {
            println!(rt;
                "{case}: asked {asked}, found refusal, no. {}",
                refusal.number()
            )
        }
    }
}

fn refused(rt: &impl Print, case: &str, refusal: Refusal) -> io::Result<()> {
    println!(rt; "{case}: refused, no. {}", refusal.number())
}
