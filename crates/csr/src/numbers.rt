// Every address and field mask that has a name. Nothing calls these two: their contracts hold each name to the manual's number.
ghost use Rattle.std.specs.Prelude.{◌≡◌};
ghost use Rattle.csr.specs.Numbers.{csr_addresses, field_masks};

use crate::Csr;

fn addresses() -> [u32; 35]
    ensures { result ≡ csr_addresses }
{
    [
        Csr::MSTATUS,
        Csr::MISA,
        Csr::MEDELEG,
        Csr::MIDELEG,
        Csr::MIE,
        Csr::MTVEC,
        Csr::MCOUNTEREN,
        Csr::MCOUNTINHIBIT,
        Csr::MSCRATCH,
        Csr::MEPC,
        Csr::MCAUSE,
        Csr::MTVAL,
        Csr::MIP,
        Csr::MENVCFG,
        Csr::MCONFIGPTR,
        Csr::SSTATUS,
        Csr::SIE,
        Csr::STVEC,
        Csr::SCOUNTEREN,
        Csr::SENVCFG,
        Csr::SSCRATCH,
        Csr::SEPC,
        Csr::SCAUSE,
        Csr::STVAL,
        Csr::SIP,
        Csr::SATP,
        Csr::CYCLE,
        Csr::TIME,
        Csr::INSTRET,
        Csr::MCYCLE,
        Csr::MINSTRET,
        Csr::MVENDORID,
        Csr::MARCHID,
        Csr::MIMPID,
        Csr::MHARTID,
    ]
}

fn masks() -> [u64; 27]
    ensures { result ≡ field_masks }
{
    [
        Csr::MSTATUS_SIE,
        Csr::MSTATUS_MIE,
        Csr::MSTATUS_SPIE,
        Csr::MSTATUS_UBE,
        Csr::MSTATUS_MPIE,
        Csr::MSTATUS_SPP,
        Csr::MSTATUS_VS,
        Csr::MSTATUS_MPP,
        Csr::MSTATUS_FS,
        Csr::MSTATUS_XS,
        Csr::MSTATUS_MPRV,
        Csr::MSTATUS_SUM,
        Csr::MSTATUS_MXR,
        Csr::MSTATUS_TVM,
        Csr::MSTATUS_TW,
        Csr::MSTATUS_TSR,
        Csr::MSTATUS_UXL,
        Csr::MSTATUS_SXL,
        Csr::MSTATUS_SBE,
        Csr::MSTATUS_MBE,
        Csr::MSTATUS_SD,
        Csr::MIP_SSIP,
        Csr::MIP_MSIP,
        Csr::MIP_STIP,
        Csr::MIP_MTIP,
        Csr::MIP_SEIP,
        Csr::MIP_MEIP,
    ]
}
