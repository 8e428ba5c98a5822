// Guest memory: a byte slice that the host lends.
ghost use Rattle.std.specs.Prelude.{◌≡◌};
ghost use Rattle.answers.specs.Gave.{Gave};
ghost use Rattle.system_bus.specs.Memory.{read_of, write_answer, write_of, load_answer, load_of};

use crate::given::{give, number_of};

#[unsafe(no_mangle)]
pub extern "C" fn rv_read_byte(memory: &[u8], address: u64, out: &mut u64) -> u32
    ensures { Gave (read_of 1 memory.now address) out.old result out.new }
{
    give(system_bus::read::<u8>(memory, address).map(u64::from), out)
}

#[unsafe(no_mangle)]
pub extern "C" fn rv_read_halfword(memory: &[u8], address: u64, out: &mut u64) -> u32
    ensures { Gave (read_of 2 memory.now address) out.old result out.new }
{
    give(system_bus::read::<u16>(memory, address).map(u64::from), out)
}

#[unsafe(no_mangle)]
pub extern "C" fn rv_read_word(memory: &[u8], address: u64, out: &mut u64) -> u32
    ensures { Gave (read_of 4 memory.now address) out.old result out.new }
{
    give(system_bus::read::<u32>(memory, address).map(u64::from), out)
}

#[unsafe(no_mangle)]
pub extern "C" fn rv_read_doubleword(memory: &[u8], address: u64, out: &mut u64) -> u32
    ensures { Gave (read_of 8 memory.now address) out.old result out.new }
{
    give(system_bus::read(memory, address), out)
}

#[unsafe(no_mangle)]
pub extern "C" fn rv_write_byte(memory: &mut [u8], address: u64, value: u8) -> u32
    ensures { (result ≡ (write_answer 1 memory.old address).number) × (memory.new ≡ write_of 1 memory.old address value) }
{
    number_of(system_bus::write(memory, address, value))
}

#[unsafe(no_mangle)]
pub extern "C" fn rv_write_halfword(memory: &mut [u8], address: u64, value: u16) -> u32
    ensures { (result ≡ (write_answer 2 memory.old address).number) × (memory.new ≡ write_of 2 memory.old address value) }
{
    number_of(system_bus::write(memory, address, value))
}

#[unsafe(no_mangle)]
pub extern "C" fn rv_write_word(memory: &mut [u8], address: u64, value: u32) -> u32
    ensures { (result ≡ (write_answer 4 memory.old address).number) × (memory.new ≡ write_of 4 memory.old address value) }
{
    number_of(system_bus::write(memory, address, value))
}

#[unsafe(no_mangle)]
pub extern "C" fn rv_write_doubleword(memory: &mut [u8], address: u64, value: u64) -> u32
    ensures { (result ≡ (write_answer 8 memory.old address).number) × (memory.new ≡ write_of 8 memory.old address value) }
{
    number_of(system_bus::write(memory, address, value))
}

#[unsafe(no_mangle)]
pub extern "C" fn rv_load_at(memory: &mut [u8], offset: usize, bytes: &[u8]) -> u32
    ensures { (result ≡ (load_answer memory.old offset bytes.now).number) × (memory.new ≡ load_of memory.old offset bytes.now) }
{
    number_of(system_bus::load_at(memory, offset, bytes))
}
